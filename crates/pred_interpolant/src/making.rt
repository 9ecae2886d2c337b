// The formula between two sides, with its obligations.

ghost use Rattle.std.specs.Prelude.{◌≡◌, ◌<◌, ◌≤◌, ◌^◌, IfOk, length};
ghost use Rattle.form_typed.specs.Formula.{formula};
ghost use Rattle.pri_typing.specs.Problems.{assumed_by};
ghost use Rattle.pri_typing.specs.WellFormed.{IsWellFormed};
ghost use Rattle.itp_sides.specs.Closing.{strongest_formula, weakest_formula};
ghost use Rattle.function_encoding.specs.Encoded.{Encodes, root_of};
ghost use Rattle.itp_sides.specs.Sides.{cut_of};
ghost use Rattle.pred_interpolant.specs.Fit.{IsFitFormula};
ghost use Rattle.pred_interpolant.specs.Made.{AreSides, FindsOr, MakesObligations};
ghost use Rattle.pred_interpolant.specs.Middle as middle;
ghost use Rattle.pred_interpolant.specs.Middle.{IsFound, IsObligation, IsOverProblem, obligation_root};

use crate::closing::{closed, own_constants};
use crate::fault::{MiddleFault, MiddleFormula, Obligations};
use crate::normal_form::dnf_as_formula;
use crate::replaced::encode_formula;
use crate::sides::side;
use crate::symbols::{Choice, choose};
use base_budget::Purse;
use form_typed::Typed;
use function_encoding::{EncodeRefusal, Encoded};
use interpolant::{between_at, together};
use linear_term::Memory;
use pri_typing::Problem;
use sqlite_items::{Boxed, Items};
use std::alloc::Global;

/// The formula that is meant.
fn said(alloc: Global, p: &Problem, m: &MiddleFormula) -> Result<Typed, Memory>
    requires formed { IsWellFormed p.now }
    requires over { IsOverProblem p.now m.now }
    ensures is { IfOk result (λ f. formula f ≡ middle.said p.now m.now) }
    ensures fit { IfOk result (λ f. IsFitFormula p.now (formula f)) }
{
    match m {
        MiddleFormula::Arithmetic(d) => dnf_as_formula(alloc, p, d),
        MiddleFormula::General(f) => f.copy(alloc),
    }
}

/// The first formula with its own constants under "some value". The sets of parts are those that assume the two.
fn strongest(
    alloc: Global,
    p: &Problem,
    before: &[u32],
    behind: &[u32],
    f: &Typed,
) -> Result<Typed, Memory>
    requires formed { IsWellFormed p.now }
    requires first { formula f.now ≡ assumed_by p.now before.now }
    ensures { IfOk result (λ g. formula g ≡ strongest_formula p.now (assumed_by p.now before.now) (assumed_by p.now behind.now)) }
{
    let own = own_constants(alloc, p, before, behind)?;
    closed(alloc, p, false, &own, f)
}

/// The negation of the second formula with its own constants under "every value".
fn weakest(
    alloc: Global,
    p: &Problem,
    before: &[u32],
    behind: &[u32],
    g: &Typed,
) -> Result<Typed, Memory>
    requires formed { IsWellFormed p.now }
    requires second { formula g.now ≡ assumed_by p.now behind.now }
    ensures { IfOk result (λ h. formula h ≡ weakest_formula p.now (assumed_by p.now before.now) (assumed_by p.now behind.now)) }
{
    let own = own_constants(alloc, p, behind, before)?;
    let copy = Boxed::new(alloc, g.copy(alloc)?)?;
    let denied = Boxed::new(alloc, Typed::Not(copy))?;
    closed(alloc, p, true, &own, denied.get())
}

/// The encoding of what says that the formula follows from the first side.
fn below(alloc: Global, p: &Problem, f: Typed, m: &MiddleFormula) -> Result<Encoded, EncodeRefusal>
    requires formed { IsWellFormed p.now }
    requires over { IsOverProblem p.now m.now }
    requires fit { IsFitFormula p.now (formula f) }
    ensures work { Encodes (obligation_root p.now (middle.follows (formula f) (middle.said p.now m.now))) (root_of result) }
    ensures encoded { IfOk result (IsObligation p.now (middle.follows (formula f) (middle.said p.now m.now))) }
{
    let first = Boxed::new(alloc, f)?;
    let between = Boxed::new(alloc, said(alloc, p, m)?)?;
    encode_formula(alloc, p, Boxed::new(alloc, Typed::Implies(first, between))?)
}

/// The encoding of what says that the formula contradicts the second side.
fn above(alloc: Global, p: &Problem, g: Typed, m: &MiddleFormula) -> Result<Encoded, EncodeRefusal>
    requires formed { IsWellFormed p.now }
    requires over { IsOverProblem p.now m.now }
    requires fit { IsFitFormula p.now (formula g) }
    ensures work { Encodes (obligation_root p.now (middle.contradicts (middle.said p.now m.now) (formula g))) (root_of result) }
    ensures encoded { IfOk result (IsObligation p.now (middle.contradicts (middle.said p.now m.now) (formula g))) }
{
    let mut both = Items::new(alloc);
    both.push(said(alloc, p, m)?)?;
    both.push(g)?;
    let together = Boxed::new(alloc, Typed::And(both))?;
    let whole = Typed::Implies(together, Boxed::new(alloc, Typed::Truth(false))?);
    encode_formula(alloc, p, Boxed::new(alloc, whole)?)
}

/// The two sides of a cut, with the numbers of their parts.
#[derive(Drop)]
struct Sides {
    before: Vec<u32>,
    behind: Vec<u32>,
    first: Typed,
    second: Typed,
}

/// The sides of the cut with this number, after its first `at` sets.
fn sides_at(alloc: Global, p: &Problem, cut: u32, at: u32) -> Result<Sides, Memory>
    requires formed { IsWellFormed p.now }
    requires within { cut < length p.now.cuts }
    requires inside { at ≤ length (cut_of p.now cut).sets }
    ensures { IfOk result (AreSides p.now cut at) }
{
    let cuts = p.cuts.as_slice();
    let sets = cuts[cut as usize].sets.as_slice();
    let before = together(alloc, &sets[..at as usize])?;
    let behind = together(alloc, &sets[at as usize..])?;
    let first = Boxed::new(alloc, side(alloc, p, &before)?)?;
    let second = side(alloc, p, &behind)?;
    Ok(Sides {
        before,
        behind,
        first: first.into_inner(),
        second,
    })
}

/// The formula that stands between the sides by their case.
fn find(
    alloc: Global,
    p: &Problem,
    cut: u32,
    at: u32,
    sides: &Sides,
    purse: &mut Purse,
) -> Result<MiddleFormula, MiddleFault>
    requires formed { IsWellFormed p.now }
    requires within { cut < length p.now.cuts }
    requires inside { at ≤ length (cut_of p.now cut).sets }
    requires sides { AreSides p.now cut at sides.now }
    requires budget { purse.old.budget < 2 ^ 32 }
    ensures work { FindsOr p.now cut at purse.old result purse.new }
    ensures found { IfOk result (IsFound p.now cut at) }
{
    match choose(alloc, p, &sides.first, &sides.second)? {
        Choice::Arithmetic => {
            let i = between_at(alloc, p, cut, at, purse)?;
            Ok(MiddleFormula::Arithmetic(i.formula))
        }
        Choice::First => {
            let f = strongest(alloc, p, &sides.before, &sides.behind, &sides.first)?;
            Ok(MiddleFormula::General(f))
        }
        Choice::Second => {
            let f = weakest(alloc, p, &sides.before, &sides.behind, &sides.second)?;
            Ok(MiddleFormula::General(f))
        }
        Choice::Neither => Err(MiddleFault::Symbols),
    }
}

/// What stands between the first `at` sets of the cut with this number and the others, with the encodings of both obligations.
/// Where the first side has no application, it is the normal form of `between_at`. Else, where all predicates and functions of the
/// first side stand in the second, it is the first side with its own constants under "some value"; else, where all of the second
/// stand in the first, the negation of the second side with its own constants under "every value".
///
/// Refused with Symbols exactly where each side has a symbol that the other has not, before any work; then as `between_at` is; then as
/// the encoding of the first obligation is, and then as that of the second.
pub fn obligations(
    alloc: Global,
    p: &Problem,
    cut: u32,
    at: u32,
    purse: &mut Purse,
) -> Result<Obligations, MiddleFault>
    requires formed { IsWellFormed p.now }
    requires within { cut < length p.now.cuts }
    requires inside { at ≤ length (cut_of p.now cut).sets }
    requires budget { purse.old.budget < 2 ^ 32 }
    ensures work { MakesObligations p.now cut at purse.old result purse.new }
    ensures found { IfOk result (λ o. IsFound p.now cut at o.formula) }
    ensures below { IfOk result (λ o. IsObligation p.now (middle.below p.now cut at o.formula) o.below) }
    ensures above { IfOk result (λ o. IsObligation p.now (middle.above p.now cut at o.formula) o.above) }
{
    let sides = Boxed::new(alloc, sides_at(alloc, p, cut, at)?)?;
    let formula = Boxed::new(alloc, find(alloc, p, cut, at, sides.get(), purse)?)?;
    let Sides { first, second, .. } = sides.into_inner();
    let below = Boxed::new(alloc, below(alloc, p, first, formula.get())?)?;
    let above = above(alloc, p, second, formula.get())?;
    Ok(Obligations {
        formula: formula.into_inner(),
        below: below.into_inner(),
        above,
    })
}
