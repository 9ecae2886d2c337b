// The pairs of a sequent, each after the formulas that are there before.

ghost use Rattle.std.specs.Prelude.{◌≡◌, ◌≤◌, ◌<◌, ◌+◌, ◌-◌, ◌^◌, drop, length, [], map, IfOk};
ghost use Rattle.std.specs.List.{AllByRecursion};
ghost use Rattle.pred_unify.specs.Pairs as pair;
ghost use Rattle.pred_unify.specs.Reading.{HasKinds, behind, onto, sequent_at};
ghost use Rattle.formula.specs.Made.{Made};
ghost use Rattle.formula.specs.Shifts.{IsBelow};
ghost use Rattle.formula.specs.Tree.{form};
ghost use Rattle.sequent.specs.Rules.{brought};
ghost use Rattle.sequent.specs.Views.{members_of, sequent_of, HasRoom};
ghost use Rattle.base_budget.specs.Trace.{each};

use super::leaf::{Leaf, Met};
use super::symbols::alike;
use formula::{Core, shift};
use linear_term::{Memory, Term, TermFault};
use sequent::Member;
use sqlite_items::Items;
use std::alloc::Global;

/// s - t.
#[tactic(auto, using(formula::proofs::Negating::combined))]
fn difference(s: &Term, t: &Term) -> Result<Term, TermFault>
    ensures { Made (λ x. x) (pair.difference s.now t.now) result }
{
    Term::combine(1, s, -1, t)
}

/// The equations of two lists of arguments.
fn equations(alloc: Global, ss: &[Term], ts: &[Term]) -> Result<Items<Core>, TermFault>
    requires { length ss.now ≡ length ts.now }
    ensures { Made (map form) (pair.equations ss.now ts.now []) result }
{
    let mut out = Items::new(alloc);
    for i in 0..ss.len() {
        let d = difference(&ss[i], &ts[i])?;
        out.push(Core::Eq(d))?;
    }
    Ok(out)
}

/// The pair of a negated predicate and a predicate.
fn same_arguments(
    alloc: Global,
    ss: &[Term],
    ts: &[Term],
    out: &mut Items<Core>,
) -> Result<(), TermFault>
    requires { length ss.now ≡ length ts.now }
    ensures { Made (λ u. map form out.new) (onto (map form out.old) (pair.same_arguments ss.now ts.now)) result }
{
    let equal = equations(alloc, ss, ts)?;
    out.push(Core::And(equal))?;
    Ok(())
}

/// The pair of two values of a function.
fn other_values(
    alloc: Global,
    ss: &[Term],
    u: &Term,
    ts: &[Term],
    v: &Term,
    out: &mut Items<Core>,
) -> Result<(), TermFault>
    requires { length ss.now ≡ length ts.now }
    ensures { Made (λ x. map form out.new) (onto (map form out.old) (pair.other_values ss.now u.now ts.now v.now)) result }
{
    let mut all = equations(alloc, ss, ts)?;
    let d = difference(u, v)?;
    all.push(Core::Neq(d))?;
    out.push(Core::And(all))?;
    Ok(())
}

/// The pair of a negated predicate with g, if g is that predicate.
pub fn predicate_pair(
    alloc: Global,
    p: u32,
    ss: &[Term],
    g: &Core,
    out: &mut Items<Core>,
) -> Result<(), TermFault>
    ensures { Made (λ u. map form out.new) (onto (map form out.old) (pair.predicate_pair p ss.now (form g.now))) result }
{
    match g {
        Core::Pred(q, ts) => {
            if alike(p, ss, *q, ts.as_slice()) {
                same_arguments(alloc, ss, ts.as_slice(), out)
            } else {
                Ok(())
            }
        }
        Core::Eq(_) => Ok(()),
        Core::Neq(_) => Ok(()),
        Core::Geq(_) => Ok(()),
        Core::NotPred(_, _) => Ok(()),
        Core::NotFun(_, _, _) => Ok(()),
        Core::And(_) => Ok(()),
        Core::Or(_) => Ok(()),
        Core::Forall(_) => Ok(()),
        Core::Exists(_) => Ok(()),
    }
}

/// The pairs of a negated predicate with each member from the first of these places on.
fn predicate_pairs(
    alloc: Global,
    p: u32,
    ss: &[Term],
    members: &[&Member],
    first: usize,
    out: &mut Items<Core>,
) -> Result<(), TermFault>
    ensures { Made (λ u. map form out.new) (each (λ m. pair.predicate_pair p ss.now m.formula) (members_of (behind (drop first members.now))) (map form out.old)) result }
{
    for i in first..members.len() {
        predicate_pair(alloc, p, ss, &members[i].formula, out)?;
    }
    Ok(())
}

/// The pairs of g with each member from the first of these places on, if g is a negated predicate.
fn with_predicates(
    alloc: Global,
    members: &[&Member],
    first: usize,
    g: &Core,
    out: &mut Items<Core>,
) -> Result<(), TermFault>
    ensures { Made (λ u. map form out.new) (onto (map form out.old) (pair.with_predicates (members_of (behind (drop first members.now))) (form g.now))) result }
{
    match g {
        Core::NotPred(p, ss) => predicate_pairs(alloc, *p, ss.as_slice(), members, first, out),
        Core::Eq(_) => Ok(()),
        Core::Neq(_) => Ok(()),
        Core::Geq(_) => Ok(()),
        Core::Pred(_, _) => Ok(()),
        Core::NotFun(_, _, _) => Ok(()),
        Core::And(_) => Ok(()),
        Core::Or(_) => Ok(()),
        Core::Forall(_) => Ok(()),
        Core::Exists(_) => Ok(()),
    }
}

/// Each negated predicate that is met with each predicate from where it is met on.
fn all_predicates(
    alloc: Global,
    met: &[Met],
    holding: &[&Member],
    out: &mut Items<Core>,
) -> Result<(), TermFault>
    ensures { Made (λ u. map form out.new) (each (λ x. pair.with_predicates (members_of (behind (drop x.first holding.now))) (form x.failing.now.formula)) met.now (map form out.old)) result }
{
    for x in met {
        with_predicates(alloc, holding, x.first, &x.failing.formula, out)?;
    }
    Ok(())
}

/// The pair of a function's value with g, if g is another value of it.
pub fn function_pair(
    alloc: Global,
    f: u32,
    ss: &[Term],
    u: &Term,
    g: &Core,
    out: &mut Items<Core>,
) -> Result<(), TermFault>
    ensures { Made (λ x. map form out.new) (onto (map form out.old) (pair.function_pair f ss.now u.now (form g.now))) result }
{
    match g {
        Core::NotFun(h, ts, v) => {
            if alike(f, ss, *h, ts.as_slice()) {
                other_values(alloc, ss, u, ts.as_slice(), v, out)
            } else {
                Ok(())
            }
        }
        Core::Eq(_) => Ok(()),
        Core::Neq(_) => Ok(()),
        Core::Geq(_) => Ok(()),
        Core::Pred(_, _) => Ok(()),
        Core::NotPred(_, _) => Ok(()),
        Core::And(_) => Ok(()),
        Core::Or(_) => Ok(()),
        Core::Forall(_) => Ok(()),
        Core::Exists(_) => Ok(()),
    }
}

/// The pairs of a function's value with each member.
fn function_values(
    alloc: Global,
    f: u32,
    ss: &[Term],
    u: &Term,
    members: &[&Member],
    out: &mut Items<Core>,
) -> Result<(), TermFault>
    ensures { Made (λ x. map form out.new) (each (λ m. pair.function_pair f ss.now u.now m.formula) (members_of (behind members.now)) (map form out.old)) result }
{
    for m in members {
        function_pair(alloc, f, ss, u, &m.formula, out)?;
    }
    Ok(())
}

/// The pairs of g with each member, if g is a value of a function.
fn with_functions(
    alloc: Global,
    members: &[&Member],
    g: &Core,
    out: &mut Items<Core>,
) -> Result<(), TermFault>
    ensures { Made (λ u. map form out.new) (onto (map form out.old) (pair.with_functions (members_of (behind members.now)) (form g.now))) result }
{
    match g {
        Core::NotFun(f, ss, u) => function_values(alloc, *f, ss.as_slice(), u, members, out),
        Core::Eq(_) => Ok(()),
        Core::Neq(_) => Ok(()),
        Core::Geq(_) => Ok(()),
        Core::Pred(_, _) => Ok(()),
        Core::NotPred(_, _) => Ok(()),
        Core::And(_) => Ok(()),
        Core::Or(_) => Ok(()),
        Core::Forall(_) => Ok(()),
        Core::Exists(_) => Ok(()),
    }
}

/// Each function's value with each later one.
fn later_values(alloc: Global, members: &[&Member], out: &mut Items<Core>) -> Result<(), TermFault>
    ensures { Made (λ u. map form out.new) (pair.function_pairs (members_of (behind members.now)) (map form out.old)) result }
{
    for i in 0..members.len() {
        with_functions(alloc, &members[i + 1..], &members[i].formula, out)?;
    }
    Ok(())
}

/// The pairs of the leaf: where one of them is true, so is its sequent.
fn put_pairs(alloc: Global, leaf: &Leaf, out: &mut Items<Core>) -> Result<(), TermFault>
    requires { HasKinds leaf.now }
    ensures { Made (λ u. map form out.new) (onto (map form out.old) (pair.pairs_of (members_of (sequent_at leaf.now).members))) result }
{
    all_predicates(alloc, leaf.met.as_slice(), leaf.holding.as_slice(), out)?;
    later_values(alloc, leaf.differing.as_slice(), out)
}

/// These members among all constants.
fn all_brought(alloc: Global, members: &[&Member], count: u32) -> Result<Items<Core>, Memory>
    requires { AllByRecursion (λ m. (m.over ≤ count) × (m.used + 1 < 2 ^ 32) × IsBelow (2 ^ 32 - (count - m.over)) (form m.formula)) (behind members.now) }
    ensures { IfOk result (λ fs. map form fs ≡ map (λ m. brought m.over count (form m.formula)) (behind members.now)) }
{
    let mut out = Items::new(alloc);
    for m in members {
        out.push(shift(alloc, &m.formula, m.over, count)?)?;
    }
    Ok(out)
}

/// The closing formula of a leaf: one of the pure members or of the pairs.
pub fn closing_at(alloc: Global, leaf: &Leaf) -> Result<Core, TermFault>
    requires room { HasRoom (sequent_at leaf.now) }
    requires kinds { HasKinds leaf.now }
    ensures { Made form (pair.closing_of (sequent_of (sequent_at leaf.now))) result }
{
    let mut all = all_brought(alloc, leaf.pure.as_slice(), leaf.count)?;
    put_pairs(alloc, leaf, &mut all)?;
    Ok(Core::Or(all))
}
