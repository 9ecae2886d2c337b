// The check of the clause proof in a file.

ghost use Rattle.clause_file.specs.Answers.{IsCheckResult, IsFault};
ghost use Rattle.clause_file.specs.Courses.{BeginsWith, Starts};
ghost use Rattle.clause_file.specs.Costs.{HasPaid};
ghost use Rattle.clause_file.specs.Roots.{preparation_cost, preparation_price};
ghost use Rattle.clause_file.specs.Verdicts.{HoldsClauseProof};
ghost use Rattle.form_typed.specs.Truth.{Meaning};
ghost use Rattle.formula.specs.Form.{Form, FormTruth, IsFormOver};
ghost use Rattle.formula.specs.Sizes.{depth};
ghost use Rattle.formula.specs.Tree.{form};
ghost use Rattle.linear_term.specs.Range.{InRange};
ghost use Rattle.proof_file.specs.Body.{body};
ghost use Rattle.std.specs.Prelude.{◌≡◌, ◌+◌, ◌*◌, ◌<◌, ◌≤◌, ◌^◌, [], ℕ, All, IfErr, IfOk, OnErr, OnOk, length};

use crate::fault::{ClauseFault, at_line, in_file};
use crate::running::run_lines;
use base_budget::{Purse, Spent};
use clause_checker::begin;
use clause_root::prepare_scoped;
use clause_text::{Head, read_head};
use formula::{Core, depth, size};
use proof_file::body;
use sqlite_items::Items;
use std::alloc::Global;

/// Checks the lines after the first lines, for a root that is prepared as these say.
fn check_lines(
    alloc: Global,
    purse: &mut Purse,
    root: &Core,
    head: &Head,
    file: &[u8],
    text: &[u8],
) -> Result<(), ClauseFault>
    requires within { length text.now ≤ length file.now }
    ensures { (f : Form) (n : ℕ) → Starts f n file.now head.now text.now (form root.now) → HasPaid purse.old head.now (preparation_price f head.now.prepared) → IsCheckResult f n file.now head.now result }
{
    match begin(alloc, purse, root, head.values.as_slice(), head.root) {
        Ok(mut state) => run_lines(alloc, purse, &mut state, file, text),
        Err(fault) => Err(at_line(fault, 5)),
    }
}

/// Charges what a preparation may take: its steps, and a walk over the root for each of its levels.
#[tactic(auto, using(crate::proofs::Paying::preparing))]
fn charge_preparation(purse: &mut Purse, root: &Core, steps: u32) -> Result<(), Spent>
    requires few { purse.old.budget < 2 ^ 32 }
    requires flat { depth (form root.now) < 2 ^ 32 }
    ensures passes { OnErr result (purse.old.budget < purse.old.spent + preparation_cost (form root.now) steps) }
    ensures pays { OnOk result (purse.new ≡ record purse.old { spent = purse.old.spent + preparation_cost (form root.now) steps }) }
{
    let walks = size(root).saturating_mul(u64::from(depth(root)));
    purse.charge(walks.saturating_add(u64::from(steps)))
}

/// A purse with the charges that the proof states, after the preparation is paid. Cost comes where they do not pay for it.
#[tactic(auto, using(crate::proofs::Paying::preparing))]
fn prepaid(root: &Core, head: &Head) -> Result<Purse, Spent>
    requires flat { depth (form root.now) < 2 ^ 32 }
    ensures passes { OnErr result (head.now.charges.count < preparation_price (form root.now) head.now.prepared) }
    ensures pays { IfOk result (λ purse. HasPaid purse head.now (preparation_price (form root.now) head.now.prepared)) }
{
    let mut purse = Purse::new(u64::from(head.charges.count));
    if head.prepared != 0 {
        charge_preparation(&mut purse, root, head.prepared)?;
    }
    Ok(purse)
}

/// Prepares the root as the first lines say, and checks the lines after them.
fn check_prepared(
    alloc: Global,
    purse: &mut Purse,
    root: &Core,
    count: u32,
    head: &Head,
    file: &[u8],
    text: &[u8],
) -> Result<(), ClauseFault>
    requires room { count + 2 * depth (form root.now) + 64 ≤ 2 ^ 32 }
    requires over { IsFormOver count (form root.now) }
    requires within { length text.now ≤ length file.now }
    requires begins { BeginsWith (body file.now) head.now [] text.now }
    requires values { length head.now.values ≡ count }
    requires paid { HasPaid purse.old head.now (preparation_price (form root.now) head.now.prepared) }
    ensures { IsCheckResult (form root.now) count file.now head.now result }
{
    if head.prepared == 0 {
        return check_lines(alloc, purse, root, head, file, text);
    }
    let prepared = prepare_scoped(alloc, root, count, u64::from(head.prepared))?;
    check_lines(alloc, purse, &prepared, head, file, text)
}

/// Checks the proof with these first lines.
fn check_behind(
    alloc: Global,
    root: &Core,
    count: u32,
    head: &Head,
    file: &[u8],
    text: &[u8],
) -> Result<(), ClauseFault>
    requires room { count + 2 * depth (form root.now) + 64 ≤ 2 ^ 32 }
    requires over { IsFormOver count (form root.now) }
    requires within { length text.now ≤ length file.now }
    requires begins { BeginsWith (body file.now) head.now [] text.now }
    ensures { IsCheckResult (form root.now) count file.now head.now result }
{
    let Ok(mut purse) = prepaid(root, head) else {
        return Err(ClauseFault::Cost(3));
    };
    if head.values.len() != count as usize {
        return Err(ClauseFault::Line(4));
    }
    check_prepared(alloc, &mut purse, root, count, head, file, text)
}

/// Checks the clause proof in a file, of a formula over `count` names, and returns the values at which it shows the formula. The
/// fault that comes first is the answer: a line that makes nothing is refused though a later line is no line at all.
pub fn check_clauses(
    alloc: Global,
    root: &Core,
    count: u32,
    file: &[u8],
) -> Result<Items<i128>, ClauseFault>
    requires room { count + 2 * depth (form root.now) + 64 ≤ 2 ^ 32 }
    requires over { IsFormOver count (form root.now) }
    // On Ok the file holds a proof, with these values.
    ensures proof { IfOk result (HoldsClauseProof (form root.now) count file.now) }
    // The formula is then true at them, whatever its predicates and functions are.
    ensures truth { IfOk result (λ vs. (w : Meaning) → FormTruth w (form root.now) vs) }
    ensures range { IfOk result (λ vs. All InRange vs) }
    // On Err the file is refused at that token, or wrong at that line, or not paid for there, or a number left the range there.
    ensures fault { IfErr result (IsFault (form root.now) count file.now) }
{
    root.know_reduced();
    match read_head(alloc, body(file)) {
        Ok((head, rest)) => {
            check_behind(alloc, root, count, &head, file, rest)?;
            Ok(head.values)
        }
        Err(refusal) => Err(in_file(file, refusal)),
    }
}
