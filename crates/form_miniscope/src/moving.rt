// Quantifiers moved inwards, to the members that have their name.

ghost use Rattle.formula.specs.Form.{conjunction, disjunction, existential, universal};
ghost use Rattle.formula.specs.Sizes.{depth, depths};
ghost use Rattle.formula.specs.Tree.{form, forms_of};
ghost use Rattle.form_miniscope.specs.Miniscope as moving;
ghost use Rattle.std.specs.Prelude.{◌≡◌, ◌+◌, ◌≤◌, ◌^◌, IfOk};

use super::finding::{occurs, occurs_in};
use super::freeing::{all_freed, freed};
use formula::{Core, Shared};
use linear_term::Memory;
use sqlite_items::Items;
use std::alloc::Global;

/// The members that have the name n.
fn bound(alloc: Global, n: u32, formulas: &[Core]) -> Result<Items<Core>, Memory>
    ensures { IfOk result (λ gs. forms_of gs ≡ moving.bound n (forms_of formulas.now)) }
{
    let mut out = Items::new(alloc);
    for f in formulas {
        if occurs(n, f) {
            out.push(f.copy(alloc)?)?;
        }
    }
    Ok(out)
}

/// The other members, without the place of n.
fn outer(alloc: Global, n: u32, formulas: &[Core]) -> Result<Items<Core>, Memory>
    ensures { IfOk result (λ gs. forms_of gs ≡ moving.outer n (forms_of formulas.now)) }
{
    let mut out = Items::new(alloc);
    for f in formulas {
        if !occurs(n, f) {
            out.push(freed(alloc, n, f)?)?;
        }
    }
    Ok(out)
}

/// The first member with the others in a disjunction; alone where there are none.
#[tactic(auto, using(formula::proofs::Building::formed))]
fn beside_or(alloc: Global, first: Core, others: Items<Core>) -> Result<Core, Memory>
    ensures { IfOk result (λ g. form g ≡ moving.beside disjunction (form first) (forms_of others)) }
{
    if others.is_empty() {
        return Ok(first);
    }
    let mut members = Items::new(alloc);
    members.push(first)?;
    members.append(others)?;
    Ok(Core::Or(members))
}

/// The same in a conjunction.
#[tactic(auto, using(formula::proofs::Building::formed))]
fn beside_and(alloc: Global, first: Core, others: Items<Core>) -> Result<Core, Memory>
    ensures { IfOk result (λ g. form g ≡ moving.beside conjunction (form first) (forms_of others)) }
{
    if others.is_empty() {
        return Ok(first);
    }
    let mut members = Items::new(alloc);
    members.push(first)?;
    members.append(others)?;
    Ok(Core::And(members))
}

/// For-all over a formula; without it where the name n does not occur.
#[tactic(auto, using(formula::proofs::Building::formed))]
fn for_all(alloc: Global, n: u32, f: &Core) -> Result<Core, Memory>
    ensures { IfOk result (λ g. form g ≡ moving.over_name universal n (form f.now)) }
{
    if occurs(n, f) {
        return Ok(Core::Forall(Shared::new(alloc, f.copy(alloc)?)?));
    }
    freed(alloc, n, f)
}

/// For-some over a formula; without it where the name n does not occur.
#[tactic(auto, using(formula::proofs::Building::formed))]
fn for_some(alloc: Global, n: u32, f: &Core) -> Result<Core, Memory>
    ensures { IfOk result (λ g. form g ≡ moving.over_name existential n (form f.now)) }
{
    if occurs(n, f) {
        return Ok(Core::Exists(Shared::new(alloc, f.copy(alloc)?)?));
    }
    freed(alloc, n, f)
}

/// For-all over a disjunction: the members without the name leave it.
#[tactic(auto, using(formula::proofs::Building::formed))]
fn every_or(alloc: Global, n: u32, formulas: &[Core]) -> Result<Core, Memory>
    ensures { IfOk result (λ g. form g ≡ moving.every n (disjunction (forms_of formulas.now))) }
{
    if !occurs_in(n, formulas) {
        return Ok(Core::Or(all_freed(alloc, n, formulas)?));
    }
    let inner = Core::Or(bound(alloc, n, formulas)?);
    let others = outer(alloc, n, formulas)?;
    beside_or(alloc, Core::Forall(Shared::new(alloc, inner)?), others)
}

/// For-some over a conjunction: the members without the name leave it.
#[tactic(auto, using(formula::proofs::Building::formed))]
fn some_and(alloc: Global, n: u32, formulas: &[Core]) -> Result<Core, Memory>
    ensures { IfOk result (λ g. form g ≡ moving.some n (conjunction (forms_of formulas.now))) }
{
    if !occurs_in(n, formulas) {
        return Ok(Core::And(all_freed(alloc, n, formulas)?));
    }
    let inner = Core::And(bound(alloc, n, formulas)?);
    let others = outer(alloc, n, formulas)?;
    beside_and(alloc, Core::Exists(Shared::new(alloc, inner)?), others)
}

/// Every value of the name n makes the formula true.
#[cycle(every)]
#[tactic(auto, using(formula::proofs::Building::formed))]
fn every(alloc: Global, n: u32, f: &Core) -> Result<Core, Memory>
    ensures { IfOk result (λ g. form g ≡ moving.every n (form f.now)) }
{
    match f {
        Core::And(fs) => Ok(Core::And(all_every(alloc, n, fs.as_slice())?)),
        Core::Or(fs) => every_or(alloc, n, fs.as_slice()),
        Core::Eq(_) => for_all(alloc, n, f),
        Core::Neq(_) => for_all(alloc, n, f),
        Core::Geq(_) => for_all(alloc, n, f),
        Core::Pred(_, _) => for_all(alloc, n, f),
        Core::NotPred(_, _) => for_all(alloc, n, f),
        Core::NotFun(_, _, _) => for_all(alloc, n, f),
        Core::Forall(_) => for_all(alloc, n, f),
        Core::Exists(_) => for_all(alloc, n, f),
    }
}

#[cycle(every)]
fn all_every(alloc: Global, n: u32, formulas: &[Core]) -> Result<Items<Core>, Memory>
    ensures { IfOk result (λ gs. forms_of gs ≡ moving.all_every n (forms_of formulas.now)) }
{
    let mut out = Items::new(alloc);
    for f in formulas {
        out.push(every(alloc, n, f)?)?;
    }
    Ok(out)
}

/// Some value of the name n makes the formula true.
#[cycle(some)]
#[tactic(auto, using(formula::proofs::Building::formed))]
fn some(alloc: Global, n: u32, f: &Core) -> Result<Core, Memory>
    ensures { IfOk result (λ g. form g ≡ moving.some n (form f.now)) }
{
    match f {
        Core::And(fs) => some_and(alloc, n, fs.as_slice()),
        Core::Or(fs) => Ok(Core::Or(all_some(alloc, n, fs.as_slice())?)),
        Core::Eq(_) => for_some(alloc, n, f),
        Core::Neq(_) => for_some(alloc, n, f),
        Core::Geq(_) => for_some(alloc, n, f),
        Core::Pred(_, _) => for_some(alloc, n, f),
        Core::NotPred(_, _) => for_some(alloc, n, f),
        Core::NotFun(_, _, _) => for_some(alloc, n, f),
        Core::Forall(_) => for_some(alloc, n, f),
        Core::Exists(_) => for_some(alloc, n, f),
    }
}

#[cycle(some)]
fn all_some(alloc: Global, n: u32, formulas: &[Core]) -> Result<Items<Core>, Memory>
    ensures { IfOk result (λ gs. forms_of gs ≡ moving.all_some n (forms_of formulas.now)) }
{
    let mut out = Items::new(alloc);
    for f in formulas {
        out.push(some(alloc, n, f)?)?;
    }
    Ok(out)
}

/// The formula over n names with each quantifier moved inwards, innermost first.
#[cycle(moving)]
#[tactic(auto, using(formula::proofs::Building::formed))]
pub fn miniscoped(alloc: Global, n: u32, f: &Core) -> Result<Core, Memory>
    requires { n + depth (form f.now) ≤ 2 ^ 32 }
    ensures { IfOk result (λ g. form g ≡ moving.miniscoped n (form f.now)) }
{
    match f {
        Core::Eq(_) => f.copy(alloc),
        Core::Neq(_) => f.copy(alloc),
        Core::Geq(_) => f.copy(alloc),
        Core::Pred(_, _) => f.copy(alloc),
        Core::NotPred(_, _) => f.copy(alloc),
        Core::NotFun(_, _, _) => f.copy(alloc),
        Core::And(fs) => Ok(Core::And(all_miniscoped(alloc, n, fs.as_slice())?)),
        Core::Or(fs) => Ok(Core::Or(all_miniscoped(alloc, n, fs.as_slice())?)),
        Core::Forall(g) => {
            let body = miniscoped(alloc, n + 1, g.get())?;
            every(alloc, n, &body)
        }
        Core::Exists(g) => {
            let body = miniscoped(alloc, n + 1, g.get())?;
            some(alloc, n, &body)
        }
    }
}

#[cycle(moving)]
fn all_miniscoped(alloc: Global, n: u32, formulas: &[Core]) -> Result<Items<Core>, Memory>
    requires { n + depths (forms_of formulas.now) ≤ 2 ^ 32 }
    ensures { IfOk result (λ gs. forms_of gs ≡ moving.all_miniscoped n (forms_of formulas.now)) }
{
    let mut out = Items::new(alloc);
    for f in formulas {
        out.push(miniscoped(alloc, n, f)?)?;
    }
    Ok(out)
}
