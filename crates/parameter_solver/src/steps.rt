// The candidates of any clause that speaks of one name alone, and the one that is nearest to 0.

ghost use Rattle.clause_set.specs.Names.{is_divisibility, is_equation, is_indivisibility};
ghost use Rattle.clause_set.specs.Rules.{applies, rule};
ghost use Rattle.linear_term.specs.Range.{InRange};
ghost use Rattle.parameter_solver.specs.Names.{IsOfName};
ghost use Rattle.parameter_solver.specs.Splits.{splitting};
ghost use Rattle.base_budget.specs.Trace.{each};
ghost use Rattle.base_budget.specs.Work.{Charged};
ghost use Rattle.base_budget.specs.declared.log.Entry.TheVariants.{Apart, Merge};
ghost use Rattle.solve_laws.specs.Candidates.{candidates, charged_candidates};
ghost use Rattle.solve_laws.specs.Solutions.{chosen};
ghost use Rattle.std.specs.Prelude.{◌≡◌, ◌<◌, ◌+◌, [], All, IfOk, drop, length, position, true};

use super::numbers::nearest;
use super::single::{at_root, bounded};
use base_budget::{Purse, StepFault};
use clause_set::{Clause, Literal};
use elim_rules::{apart_rule, merge_rule};
use elim_steps::{is_divisibility, is_equation, is_indivisibility, whole_charge};
use sqlite_items::Items;
use std::alloc::Global;

/// The place of the first equation with j.
pub fn equation_place(ls: &[Literal], j: u32) -> Option<usize>
    ensures { result ≡ position (is_equation j) ls.now }
{
    ls.iter().position(|l| is_equation(l, j))
}

/// The place of the first negated divisibility with j.
fn indivisibility_place(ls: &[Literal], j: u32) -> Option<usize>
    ensures { result ≡ position (is_indivisibility j) ls.now }
{
    ls.iter().position(|l| is_indivisibility(l, j))
}

/// The place of the first divisibility with j.
fn divisibility_place(ls: &[Literal], j: u32) -> Option<usize>
    ensures { result ≡ position (is_divisibility j) ls.now }
{
    ls.iter().position(|l| is_divisibility(l, j))
}

/// The literals after the one at i.
fn behind(ls: &[Literal], i: usize) -> &[Literal]
    requires { i < length ls.now }
    ensures { result.now ≡ drop (i + 1) ls.now }
{
    &ls[i + 1..]
}

/// The clauses that the negated divisibility at i splits the clause into.
#[tactic(auto, using(base_budget::proofs::Charging::charging))]
fn apart(
    alloc: Global,
    c: &Clause,
    j: u32,
    i: usize,
    purse: &mut Purse,
) -> Result<Items<Clause>, StepFault>
    requires { applies j c.now (Apart i) ≡ true }
    ensures { Charged (rule j c.now (Apart i)) purse.old result purse.new }
{
    apart_rule(alloc, c.copy(alloc)?, j, i, purse)
}

/// The two divisibilities at i and k as one, with the rest of the clause.
#[tactic(auto, using(base_budget::proofs::Charging::charging))]
fn merged(
    alloc: Global,
    c: &Clause,
    j: u32,
    i: usize,
    k: usize,
    purse: &mut Purse,
) -> Result<Items<Clause>, StepFault>
    requires { applies j c.now (Merge i k) ≡ true }
    ensures { Charged (rule j c.now (Merge i k)) purse.old result purse.new }
{
    merge_rule(alloc, c.copy(alloc)?, j, i, k, purse)
}

/// The clauses that the first negated divisibility, or else the first two divisibilities, split the clause into; none
/// where it is not split.
pub fn split(
    alloc: Global,
    c: &Clause,
    j: u32,
    purse: &mut Purse,
) -> Result<Option<Items<Clause>>, StepFault>
    ensures { Charged (splitting j c.now) purse.old result purse.new }
{
    if let Some(i) = indivisibility_place(c.literals(), j) {
        return Ok(Some(apart(alloc, c, j, i, purse)?));
    }
    let Some(i) = divisibility_place(c.literals(), j) else {
        return Ok(None);
    };
    let Some(k) = divisibility_place(behind(c.literals(), i), j) else {
        return Ok(None);
    };
    Ok(Some(merged(alloc, c, j, i, i + 1 + k, purse)?))
}

/// The candidates for j of a clause that speaks of j alone.
#[cycle(splitting)]
fn candidates(
    alloc: Global,
    c: &Clause,
    j: u32,
    purse: &mut Purse,
) -> Result<Items<i128>, StepFault>
    requires { IsOfName j c.now }
    ensures charged { Charged (candidates j c.now) purse.old result purse.new }
    ensures range { IfOk result (λ vs. All InRange vs) }
{
    if let Some(i) = equation_place(c.literals(), j) {
        return at_root(alloc, c, j, i);
    }
    let parts = split(alloc, c, j, purse)?;
    match parts {
        Some(clauses) => all_candidates(alloc, clauses.as_slice(), j, purse),
        None => bounded(alloc, c, j),
    }
}

/// The candidates of each of the clauses.
#[cycle(splitting)]
fn all_candidates(
    alloc: Global,
    cs: &[Clause],
    j: u32,
    purse: &mut Purse,
) -> Result<Items<i128>, StepFault>
    requires { All (IsOfName j) cs.now }
    ensures charged { Charged (each (candidates j) cs.now []) purse.old result purse.new }
    ensures range { IfOk result (λ vs. All InRange vs) }
{
    let mut out = Items::new(alloc);
    for c in cs {
        out.append(candidates(alloc, c, j, purse)?)?;
    }
    Ok(out)
}

/// The candidates of a clause that an elimination left, which is charged once.
#[tactic(auto, using(base_budget::proofs::Charging::charging))]
fn charged_candidates(
    alloc: Global,
    c: &Clause,
    j: u32,
    purse: &mut Purse,
) -> Result<Items<i128>, StepFault>
    requires { IsOfName j c.now }
    ensures charged { Charged (charged_candidates j c.now) purse.old result purse.new }
    ensures range { IfOk result (λ vs. All InRange vs) }
{
    purse.step(whole_charge(alloc, c)?)?;
    candidates(alloc, c, j, purse)
}

/// The candidate of the clauses that is nearest to 0, the positive one of two.
pub(crate) fn chosen(
    alloc: Global,
    cs: &[Clause],
    j: u32,
    purse: &mut Purse,
) -> Result<i128, StepFault>
    requires { All (IsOfName j) cs.now }
    ensures charged { Charged (chosen j cs.now) purse.old result purse.new }
    ensures range { IfOk result InRange }
{
    let mut vs = Items::new(alloc);
    for c in cs {
        vs.append(charged_candidates(alloc, c, j, purse)?)?;
    }
    Ok(nearest(vs.as_slice()))
}
