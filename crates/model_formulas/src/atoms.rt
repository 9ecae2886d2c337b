// Atoms without predicates and functions: what is known of them is said at once.

ghost use Rattle.std.specs.Prelude.{◌≡◌, ℕ, ℤ, pos, ◌≤ℤ◌, true, List, IfOk, IfSome, OnOk};
ghost use Rattle.linear_term.specs.Linear.{value_of};
ghost use Rattle.formula.specs.Form.{conjunction, disjunction, no_form, values_of};
ghost use Rattle.formula.specs.Tree.{form};
ghost use Rattle.model_formulas.specs.Expansions.{Tells};

use crate::connecting::{all, push_all};
use crate::effort::Effort;
use crate::fault::Fault;
use crate::putting::minus;
use formula::Core;
use linear_term::{Memory, Term};
use sqlite_items::Items;
use std::alloc::Global;

/// The formula `true`, or the formula `false`. Takes no memory.
#[tactic(auto, using(crate::proofs::Told::truths))]
pub fn truth(alloc: Global, b: bool) -> Core
    ensures { Tells (form result) (λ e. b ≡ true) }
{
    if b {
        Core::And(Items::new(alloc))
    } else {
        Core::Or(Items::new(alloc))
    }
}

/// Whether the formula is `true`, an empty conjunction.
#[tactic(auto, using(formula::proofs::Building::formed))]
pub fn is_true(f: &Core) -> bool
    ensures { result ≡ true → form f.now ≡ conjunction no_form }
{
    match f {
        Core::And(fs) => fs.is_empty(),
        _ => false,
    }
}

/// Whether the formula is `false`, an empty disjunction.
#[tactic(auto, using(formula::proofs::Building::formed))]
pub fn is_false(f: &Core) -> bool
    ensures { result ≡ true → form f.now ≡ disjunction no_form }
{
    match f {
        Core::Or(fs) => fs.is_empty(),
        _ => false,
    }
}

/// The number that a term without names is.
#[tactic(auto, using(crate::proofs::Told::constants))]
fn constant_of(t: &Term) -> Option<i128>
    ensures { IfSome result (λ k. (e : List ℤ) → value_of t.now e ≡ k) }
{
    if t.len() == 0 {
        Some(t.constant())
    } else {
        None
    }
}

/// t = 0.
#[tactic(auto, using(crate::proofs::Told::equations))]
pub fn equation(alloc: Global, t: Term) -> Core
    ensures { Tells (form result) (λ e. value_of t e ≡ pos 0) }
{
    match constant_of(&t) {
        None => Core::Eq(t),
        Some(k) => {
            if k == 0 {
                truth(alloc, true)
            } else {
                truth(alloc, false)
            }
        }
    }
}

/// t is not 0.
#[tactic(auto, using(crate::proofs::Told::inequations))]
pub fn inequation(alloc: Global, t: Term) -> Core
    ensures { Tells (form result) (λ e. ¬ (value_of t e ≡ pos 0)) }
{
    match constant_of(&t) {
        None => Core::Neq(t),
        Some(k) => {
            if k == 0 {
                truth(alloc, false)
            } else {
                truth(alloc, true)
            }
        }
    }
}

/// t is at least 0.
#[tactic(auto, using(crate::proofs::Told::inequalities))]
pub fn inequality(alloc: Global, t: Term) -> Core
    ensures { Tells (form result) (λ e. pos 0 ≤ℤ value_of t e) }
{
    match constant_of(&t) {
        None => Core::Geq(t),
        Some(k) => {
            if k < 0 {
                truth(alloc, false)
            } else {
                truth(alloc, true)
            }
        }
    }
}

/// The values of the terms, where all are numbers.
#[tactic(auto, using(crate::proofs::Matching::knowing))]
pub fn known(alloc: Global, ts: &[Term]) -> Result<Option<Items<i128>>, Memory>
    ensures { IfOk result (λ o. IfSome o (λ xs. (e : List ℤ) → values_of ts.now e ≡ xs)) }
{
    let mut out = Items::new(alloc);
    for t in ts {
        match constant_of(t) {
            Some(k) => out.push(k)?,
            None => return Ok(None),
        }
    }
    Ok(Some(out))
}

/// t = n.
#[tactic(auto, using(crate::proofs::Matching::equals))]
pub fn equals(alloc: Global, effort: &mut Effort, t: &Term, n: i128) -> Result<Core, Fault>
    ensures { IfOk result (λ g. Tells (form g) (λ e. value_of t.now e ≡ n)) }
{
    effort.node()?;
    let difference = minus(alloc, effort, t, n)?;
    Ok(equation(alloc, difference))
}

/// The terms have these values.
#[tactic(auto, using(crate::proofs::Matching::matching))]
pub fn matches(alloc: Global, effort: &mut Effort, ts: &[Term], xs: &[i128]) -> Result<Core, Fault>
    ensures { IfOk result (λ g. Tells (form g) (λ e. values_of ts.now e ≡ xs.now)) }
{
    if ts.len() != xs.len() {
        return Ok(truth(alloc, false));
    }
    let mut out = Items::new(alloc);
    for i in 0..ts.len() {
        let g = equals(alloc, effort, &ts[i], xs[i])?;
        if is_false(&g) {
            return Ok(g);
        }
        push_all(&mut out, g)?;
    }
    Ok(all(out))
}
