// The types of names as atoms: their conditions, and the negations of these.

ghost use Rattle.std.specs.Prelude.{◌≡◌, ◌∷◌, [], ◌++◌, cond, pos, negsuc, IfOk, map};
ghost use Rattle.linear_term.specs.Linear as linear;
ghost use Rattle.base_budget.specs.Trace.{combining, just, next};
ghost use Rattle.form_typed.specs.Sorts.{IsSortRanged};
ghost use Rattle.formula.specs.Made.{Made};
ghost use Rattle.formula.specs.Tree.{form};
ghost use Rattle.form_encoding.specs.Encoding as encoding;
ghost use Rattle.linear_term.specs.Range.{InRange};
ghost use Rattle.function_encoding.specs.Bounds.{bound_of};

use crate::building::{junction, quantified};
use form_typed::Sort;
use formula::Core;
use linear_term::{Memory, Term, TermFault};
use sqlite_items::Items;
use std::alloc::Global;

/// x - t.
#[tactic(auto, using(formula::proofs::Negating::combined))]
fn above(alloc: Global, x: u32, t: &Term) -> Result<Term, TermFault>
    ensures { Made (λ u. u) (combining (pos 1) (linear.name x) (negsuc 0) t.now) result }
{
    Term::combine(1, &Term::name(alloc, x), -1, t)
}

/// -x + t.
#[tactic(auto, using(formula::proofs::Negating::combined))]
fn below(alloc: Global, x: u32, t: &Term) -> Result<Term, TermFault>
    ensures { Made (λ u. u) (combining (negsuc 0) (linear.name x) (pos 1) t.now) result }
{
    Term::combine(-1, &Term::name(alloc, x), 1, t)
}

/// x + t.
#[tactic(auto, using(formula::proofs::Negating::combined))]
fn beyond(alloc: Global, x: u32, t: &Term) -> Result<Term, TermFault>
    ensures { Made (λ u. u) (combining (pos 1) (linear.name x) (pos 1) t.now) result }
{
    Term::combine(1, &Term::name(alloc, x), 1, t)
}

/// t - 1.
#[tactic(auto, using(formula::proofs::Negating::combined))]
fn one_less(alloc: Global, t: &Term) -> Result<Term, TermFault>
    ensures { Made (λ u. u) (combining (pos 1) t.now (negsuc 0) (linear.number (pos 1))) result }
{
    Term::combine(1, t, -1, &Term::number(alloc, 1))
}

/// -t - 1.
#[tactic(auto, using(formula::proofs::Negating::combined))]
fn negative_less(alloc: Global, t: &Term) -> Result<Term, TermFault>
    ensures { Made (λ u. u) (combining (negsuc 0) t.now (negsuc 0) (linear.number (pos 1))) result }
{
    Term::combine(-1, t, -1, &Term::number(alloc, 1))
}

/// x - t >= 0.
fn at_least(alloc: Global, x: u32, t: &Term) -> Result<Core, TermFault>
    ensures { Made form (encoding.inequality (pos 1) x (negsuc 0) t.now) result }
{
    Ok(Core::Geq(above(alloc, x, t)?))
}

/// -x + t >= 0.
fn at_most(alloc: Global, x: u32, t: &Term) -> Result<Core, TermFault>
    ensures { Made form (encoding.inequality (negsuc 0) x (pos 1) t.now) result }
{
    Ok(Core::Geq(below(alloc, x, t)?))
}

/// x + t >= 0.
fn not_below(alloc: Global, x: u32, t: &Term) -> Result<Core, TermFault>
    ensures { Made form (encoding.inequality (pos 1) x (pos 1) t.now) result }
{
    Ok(Core::Geq(beyond(alloc, x, t)?))
}

/// That the name x is within the bound n, the greatest value of a type, or else the least.
fn within(alloc: Global, x: u32, greatest: bool, n: &i128) -> Result<Core, TermFault>
    requires { InRange n.now }
    ensures { Made form (encoding.within x (bound_of greatest n.now)) result }
{
    if greatest {
        return at_most(alloc, x, &Term::number(alloc, *n));
    }
    at_least(alloc, x, &Term::number(alloc, *n))
}

/// That the name x is less than t.
fn less(alloc: Global, x: u32, t: &Term) -> Result<Core, TermFault>
    ensures { Made form (next (combining (pos 1) t.now (negsuc 0) (linear.number (pos 1))) (λ c. encoding.inequality (negsuc 0) x (pos 1) c)) result }
{
    let other = one_less(alloc, t)?;
    at_most(alloc, x, &other)
}

/// That the name x is greater than t.
fn greater(alloc: Global, x: u32, t: &Term) -> Result<Core, TermFault>
    ensures { Made form (next (combining (negsuc 0) t.now (negsuc 0) (linear.number (pos 1))) (λ c. encoding.inequality (pos 1) x (pos 1) c)) result }
{
    let other = negative_less(alloc, t)?;
    not_below(alloc, x, &other)
}

/// That the name x is outside that bound.
fn outside(alloc: Global, x: u32, greatest: bool, n: &i128) -> Result<Core, TermFault>
    requires { InRange n.now }
    ensures { Made form (encoding.outside x (bound_of greatest n.now)) result }
{
    if greatest {
        return greater(alloc, x, &Term::number(alloc, *n));
    }
    less(alloc, x, &Term::number(alloc, *n))
}

/// That the name x is outside the bound, for all; that it is within, for some.
fn limit(alloc: Global, all: bool, x: u32, greatest: bool, n: &i128) -> Result<Core, TermFault>
    requires { InRange n.now }
    ensures { Made form (cond all (encoding.outside x (bound_of greatest n.now)) (encoding.within x (bound_of greatest n.now))) result }
{
    if all {
        return outside(alloc, x, greatest, n);
    }
    within(alloc, x, greatest, n)
}

/// The formulas with that one after them.
fn with_limit(
    alloc: Global,
    all: bool,
    x: u32,
    greatest: bool,
    n: &i128,
    out: Items<Core>,
) -> Result<Items<Core>, TermFault>
    requires { InRange n.now }
    ensures { Made (λ hs. map form hs) (next (cond all (encoding.outside x (bound_of greatest n.now)) (encoding.within x (bound_of greatest n.now)))
        (λ h. just (map form out ++ h ∷ []))) result }
{
    let mut all_formulas = out;
    let atom = limit(alloc, all, x, greatest, n)?;
    all_formulas.push(atom)?;
    Ok(all_formulas)
}

/// The formulas with the limits of the name x of this type after them.
pub fn limits(
    alloc: Global,
    all: bool,
    x: u32,
    sort: &Sort,
    out: Items<Core>,
) -> Result<Items<Core>, TermFault>
    requires { IsSortRanged sort.now }
    ensures { Made (λ hs. map form hs) (next (encoding.limits all x (encoding.bounds sort.now)) (λ hs. just (map form out ++ hs))) result }
{
    match sort {
        Sort::Int => Ok(out),
        Sort::Nat => with_limit(alloc, all, x, false, &0, out),
        Sort::Range(a, b) => {
            let some = with_limit(alloc, all, x, false, a, out)?;
            with_limit(alloc, all, x, true, b, some)
        }
    }
}

/// For all, one of the limits or the formula; for some, each of them and the formula; without limits the formula itself.
pub fn restricted(all: bool, limits: Items<Core>, f: Core) -> Result<Core, Memory>
    ensures { IfOk result (λ g. form g ≡ encoding.restricted all (map form limits) (form f)) }
{
    if limits.is_empty() {
        return Ok(f);
    }
    let mut members = limits;
    members.push(f)?;
    Ok(junction(!all, members))
}

/// The formula for all values of the type, or else for some, of the name x.
pub fn bind(alloc: Global, all: bool, x: u32, sort: &Sort, body: Core) -> Result<Core, TermFault>
    requires { IsSortRanged sort.now }
    ensures { Made form (next (encoding.limits all x (encoding.bounds sort.now)) (λ hs. just (encoding.quantified all (encoding.restricted all hs (form body))))) result }
{
    let limits = limits(alloc, all, x, sort, Items::new(alloc))?;
    let whole = restricted(all, limits, body)?;
    Ok(quantified(alloc, all, whole)?)
}
