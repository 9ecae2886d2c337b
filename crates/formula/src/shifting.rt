// A formula with its names from one on raised.

ghost use Rattle.std.specs.Prelude.{◌≡◌, ◌≤◌, ◌<◌, ◌+◌, ◌-◌, ◌^◌, All, IfOk, map, nat_lt};
ghost use Rattle.std.specs.List.{AllByRecursion, list_all};
ghost use Rattle.linear_term.specs.Linear.{IsOver};
ghost use Rattle.formula.specs.Shifts.{raised, raised_name, shifted, all_shifted, IsBelow, AreBelow};
ghost use Rattle.formula.specs.Tree.{form, forms_of};

use crate::calculus::Core;
use crate::shared::Shared;
use base_budget::room_for;
use linear_term::{Memory, Term};
use smallvec::SmallVec;
use sqlite_items::Items;
use std::alloc::Global;

/// The pair with its name raised, if it is from `from` on.
fn raised_pair(pair: &(u32, i128), from: u32, by: u32) -> (u32, i128)
    requires { pair.now.0 + by < 2 ^ 32 }
    ensures { result ≡ (raised_name from by pair.now.0, pair.now.1) }
{
    let mut raised = *pair;
    if raised.0 >= from {
        raised.0 += by;
    }
    raised
}

/// Whether each name of the term is below `from`.
fn stays(t: &Term, from: u32) -> bool
    ensures { result ≡ list_all (λ p. nat_lt p.0 from) t.now.pairs }
{
    t.pairs().iter().all(|pair| pair.0 < from)
}

/// The term with each name from `from` on raised by `by`, pair by pair.
#[tactic(auto, using(crate::proofs::Raising::raising))]
fn raise_pairs(alloc: Global, t: &Term, from: u32, by: u32) -> Result<Term, Memory>
    requires { IsOver (2 ^ 32 - by) t.now }
    ensures { IfOk result (λ u. u ≡ raised from by t.now) }
{
    t.know_normal();
    let mut pairs: SmallVec<(u32, i128), 4> = SmallVec::new(alloc);
    pairs.reserve(t.len())?;
    for pair in t.pairs() {
        pairs.push(raised_pair(pair, from, by))?;
    }
    Term::of(alloc, pairs.as_slice(), t.constant())
}

/// The term with each name from `from` on raised by `by`.
#[tactic(auto, using(crate::proofs::Staying::staying))]
fn raise(alloc: Global, t: &Term, from: u32, by: u32) -> Result<Term, Memory>
    requires { IsOver (2 ^ 32 - by) t.now }
    ensures { IfOk result (λ u. u ≡ raised from by t.now) }
{
    if stays(t, from) {
        return Ok(t.copy()?);
    }
    raise_pairs(alloc, t, from, by)
}

/// The formula with each name from `from` on raised by `by`.
#[cycle(shift)]
#[tactic(auto, using(crate::proofs::Shifted::shifting))]
fn shift_by(alloc: Global, f: &Core, from: u32, by: u32) -> Result<Core, Memory>
    requires { IsBelow (2 ^ 32 - by) (form f.now) }
    ensures { IfOk result (λ g. form g ≡ shifted from by (form f.now)) }
{
    match f {
        Core::Eq(t) => Ok(Core::Eq(raise(alloc, t, from, by)?)),
        Core::Neq(t) => Ok(Core::Neq(raise(alloc, t, from, by)?)),
        Core::Geq(t) => Ok(Core::Geq(raise(alloc, t, from, by)?)),
        Core::Pred(p, ts) => Ok(Core::Pred(*p, raise_all(alloc, ts.as_slice(), from, by)?)),
        Core::NotPred(p, ts) => Ok(Core::NotPred(*p, raise_all(alloc, ts.as_slice(), from, by)?)),
        Core::NotFun(h, ts, u) => {
            let arguments = raise_all(alloc, ts.as_slice(), from, by)?;
            let value = raise(alloc, u, from, by)?;
            Ok(Core::NotFun(*h, arguments, value))
        }
        Core::And(fs) => Ok(Core::And(shift_all(alloc, fs.as_slice(), from, by)?)),
        Core::Or(fs) => Ok(Core::Or(shift_all(alloc, fs.as_slice(), from, by)?)),
        Core::Forall(g) => Ok(Core::Forall(Shared::new(
            alloc,
            shift_by(alloc, g.get(), from, by)?,
        )?)),
        Core::Exists(g) => Ok(Core::Exists(Shared::new(
            alloc,
            shift_by(alloc, g.get(), from, by)?,
        )?)),
    }
}

#[cycle(shift)]
fn shift_all(alloc: Global, formulas: &[Core], from: u32, by: u32) -> Result<Items<Core>, Memory>
    requires { AreBelow (2 ^ 32 - by) (forms_of formulas.now) }
    ensures { IfOk result (λ gs. map form gs ≡ map (λ f. shifted from by (form f)) formulas.now) }
{
    let mut out = room_for(alloc, formulas.len())?;
    for f in formulas {
        out.push(shift_by(alloc, f, from, by)?)?;
    }
    Ok(out)
}

fn raise_all(alloc: Global, terms: &[Term], from: u32, by: u32) -> Result<Items<Term>, Memory>
    requires { All (IsOver (2 ^ 32 - by)) terms.now }
    ensures { IfOk result (λ us. us ≡ map (raised from by) terms.now) }
{
    let mut out = room_for(alloc, terms.len())?;
    for t in terms {
        out.push(raise(alloc, t, from, by)?)?;
    }
    Ok(out)
}

/// The formula with each name from `from` on raised by `to - from`.
#[tactic(auto, using(crate::proofs::Staying::staying))]
pub fn shift(alloc: Global, f: &Core, from: u32, to: u32) -> Result<Core, Memory>
    requires rising { from ≤ to }
    requires below { IsBelow (2 ^ 32 - (to - from)) (form f.now) }
    ensures { IfOk result (λ g. form g ≡ shifted from (to - from) (form f.now)) }
{
    if from == to {
        return f.copy(alloc);
    }
    shift_by(alloc, f, from, to - from)
}
