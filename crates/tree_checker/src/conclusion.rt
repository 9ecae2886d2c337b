// What follows from the constraint of the root: the conclusion of a proof, checked.

ghost use Rattle.elim_laws.specs.Logs.{by_whole_log, names_by_log};
ghost use Rattle.formula.specs.Form as f;
ghost use Rattle.formula.specs.Form.{Form};
ghost use Rattle.formula.specs.Tree.{form};
ghost use Rattle.linear_term.specs.Range.{is_in_range};
ghost use Rattle.proof_tree.specs.Proves as prove;
ghost use Rattle.proof_tree.specs.Proves.{concluded, is_root_rule, values_put, verdict_if};
ghost use Rattle.proof_tree.specs.Walk.{is_same, on_some};
ghost use Rattle.proof_tree.specs.declared.node.Conclusion.TheVariants as conclusion;
ghost use Rattle.proof_tree.specs.declared.run.Verdict.TheVariants as verdict;
ghost use Rattle.clause_set.specs.Dnfs.{top};
ghost use Rattle.base_budget.specs.Followed.{Followed};
ghost use Rattle.base_budget.specs.Trace.{Funds, just, next};
ghost use Rattle.base_budget.specs.Work.{Worked};
ghost use Rattle.sequent.specs.declared.member.Pick.{Pick};
ghost use Rattle.std.specs.List.{list_all};
ghost use Rattle.std.specs.Prelude.{◌≡◌, ◌<◌, ◌^◌, ◌&&◌, [], length, true, ℕ};
ghost use Rattle.tree_checker.specs.Hand.{at_node};

use crate::constraints::outcome;
use crate::same::{is_bottom, is_top};
use base_budget::{ElimLog, Purse, StepFault};
use clause_set::Dnf;
use elim_check::check_all;
use formula::{Core, is_pure};
use linear_term::in_range;
use proof_tree::{Conclusion, Verdict};
use sequent::Pick;
use solve_values::valued_clauses;
use sqlite_items::Items;
use std::alloc::Global;

/// Whether the values are in the range of coefficients.
fn are_in_range(vs: &[i128]) -> bool
    ensures { result ≡ list_all is_in_range vs.now }
{
    let mut left = vs;
    while let Some((v, more)) = left.split_first() {
        if !in_range(*v) {
            return false;
        }
        left = more;
    }
    true
}

/// What is left of the constraint where the names from 0 on have these values.
#[tactic(auto, using(base_budget::proofs::Charging::leaving))]
fn values_put(alloc: Global, vs: &[i128], d: &Dnf) -> Result<Dnf, StepFault>
    requires range { list_all is_in_range vs.now ≡ true }
    requires few { length vs.now < 2 ^ 32 }
    ensures { Worked (values_put 0 vs.now d.now) result }
{
    let mut left = d.copy(alloc)?;
    let mut rest = vs;
    let mut j: u32 = 0;
    while let Some((v, more)) = rest.split_first() {
        let valued = valued_clauses(alloc, left.clauses(), j, *v)?;
        left = Dnf::tidied(alloc, valued)?;
        rest = more;
        j += 1;
    }
    Ok(left)
}

/// The verdict of values that satisfy the constraint; nothing where they do not.
#[tactic(auto, using(base_budget::proofs::Charging::working))]
fn satisfied(alloc: Global, vs: &[i128], d: &Dnf) -> Result<Option<Verdict>, StepFault>
    requires range { list_all is_in_range vs.now ≡ true }
    requires few { length vs.now < 2 ^ 32 }
    ensures { Worked (next (values_put 0 vs.now d.now) (λ r. just (verdict_if (is_same r top) (verdict.Valid vs.now)))) result }
{
    let left = values_put(alloc, vs, d)?;
    if is_top(&left) {
        Ok(Some(Verdict::Valid(Items::from_slice(alloc, vs)?)))
    } else {
        Ok(None)
    }
}

/// The verdict of a solution: one value for each constant, in the range.
fn solved(alloc: Global, constants: u32, vs: &[i128], d: &Dnf) -> Result<Option<Verdict>, StepFault>
    ensures { (f : Form) (p : Pick) (b : Funds) (n : ℕ) → Followed at_node (concluded f constants p (conclusion.Solution vs.now) d.now) b n result b n }
{
    if vs.len() != constants as usize || !are_in_range(vs) {
        return Ok(None);
    }
    satisfied(alloc, vs, d)
}

/// The verdict of a log that takes all names out of the constraint and leaves false.
fn refuted(
    alloc: Global,
    constants: u32,
    log: &ElimLog,
    d: &Dnf,
    purse: &mut Purse,
) -> Result<Option<Verdict>, StepFault>
    ensures { (n : ℕ) → Followed at_node (next (by_whole_log (names_by_log constants d.now) log.now.entries) (on_some (λ r. just (verdict_if (is_same r []) verdict.Invalid)))) purse.old n result purse.new n }
{
    match outcome(check_all(alloc, d, constants, log, purse))? {
        Some(left) => {
            if is_bottom(&left) {
                Ok(Some(Verdict::Invalid))
            } else {
                Ok(None)
            }
        }
        None => Ok(None),
    }
}

/// Whether the constraint of a root with this rule is false only where the formula is.
pub fn is_exact(root: &Core, rule: Pick) -> bool
    ensures { result ≡ (f.is_pure (form root.now) && is_root_rule rule) }
{
    is_pure(root) && is_root_rule(rule)
}

/// Whether the rule makes a root that is a leaf.
fn is_root_rule(rule: Pick) -> bool
    ensures { result ≡ prove.is_root_rule rule }
{
    match rule {
        Pick::Trivial(_) | Pick::Close => true,
        Pick::Alpha(_) | Pick::Delta(_) | Pick::Beta(_) | Pick::Gamma(_) => false,
    }
}

/// The verdict that follows from the constraint of a root with this rule; nothing where the conclusion does not.
pub fn conclude(
    alloc: Global,
    root: &Core,
    constants: u32,
    rule: Pick,
    conclusion: &Conclusion,
    d: &Dnf,
    purse: &mut Purse,
) -> Result<Option<Verdict>, StepFault>
    ensures { (n : ℕ) → Followed at_node (concluded (form root.now) constants rule conclusion.now d.now) purse.old n result purse.new n }
{
    match conclusion {
        Conclusion::Solution(vs) => solved(alloc, constants, vs.as_slice(), d),
        Conclusion::Nothing(log) => {
            if is_exact(root, rule) {
                refuted(alloc, constants, log, d, purse)
            } else {
                Ok(None)
            }
        }
    }
}
