// Several tokens of the line `gives` at once, where they are those that most lines have.

ghost use Rattle.proof_constraint.specs.Behind as b;
ghost use Rattle.proof_constraint.specs.Places.{behind_of, constant_of, state_of};
ghost use Rattle.proof_constraint.specs.Ranges.{IsInRange, IsRising, IsStateInRange};
ghost use Rattle.proof_constraint.specs.State as s;
ghost use Rattle.proof_constraint.specs.Steps.{ReachesState};
ghost use Rattle.proof_constraint.specs.declared.place.Last.TheVariants as w;
ghost use Rattle.proof_constraint.specs.declared.place.Place.TheVariants as p;
ghost use Rattle.linear_term.specs.Range.{InRange};
ghost use Rattle.proof_tokens.specs.Reading.{Cuts};
ghost use Rattle.proof_tokens.specs.declared.tokens.Token.TheVariants as t;
ghost use Rattle.std.specs.Prelude.{◌≡◌, ◌≤◌, ◌∷◌, [], length, IfOk, IfSome, List, MatchOption, ℕ};

use crate::draft::{Draft, signed};
use crate::names::take_names;
use crate::place::{Last, Place};
use crate::signs::{constant_ahead, first_ahead, joint_ahead, relation_ahead};
use linear_term::Memory;
use proof_tokens::{blank, line_feed, true_ahead};
use std::alloc::Global;

/// Where the machine stands after the tokens that are seen at once, and the text after them; where none are, as before.
pub fn skim<'a>(
    alloc: Global,
    draft: &mut Draft,
    place: Place,
    text: &'a [u8],
) -> Result<(Place, &'a [u8]), Memory>
    requires in_range { IsStateInRange (state_of place draft.old) }
    ensures exact { IfOk result (λ x. ReachesState (state_of place draft.old) (state_of x.0 draft.new) text.now x.1.now) }
    ensures within { IfOk result (λ x. length x.1.now ≤ length text.now) }
{
    match place {
        Place::Behind(Last::Sum) => behind_sum(alloc, draft, text),
        Place::Behind(Last::Number(minus, n)) => {
            related(alloc, draft, Last::Number(minus, n), text)
        }
        Place::Behind(Last::Clause) => joined(alloc, draft, text),
        Place::Behind(Last::Start) => started(draft, text),
        Place::Blank(Last::Start) => begun(draft, text),
        _ => Ok((place, text)),
    }
}

/// After a name: further names, and a constant or a relation with its 0.
fn behind_sum<'a>(
    alloc: Global,
    draft: &mut Draft,
    text: &'a [u8],
) -> Result<(Place, &'a [u8]), Memory>
    requires open { IsRising draft.old }
    ensures exact { IfOk result (λ x. ReachesState (s.Behind (b.Sum draft.old)) (state_of x.0 draft.new) text.now x.1.now) }
    ensures within { IfOk result (λ x. length x.1.now ≤ length text.now) }
{
    let rest = take_names(draft, text)?;
    match constant_ahead(rest) {
        Some((minus, n, behind)) => {
            let number = Last::Number(minus, u128::from(n));
            Ok((Place::Behind(number), behind))
        }
        None => related(alloc, draft, Last::Sum, rest),
    }
}

/// The constant of the term that this word ends.
fn constant_of(last: Last, draft: &Draft) -> Option<i128>
    requires { IsInRange (behind_of last draft.now) }
    ensures exact { result ≡ constant_of last }
    ensures range { IfSome result InRange }
{
    match last {
        Last::Sum => Some(0),
        Last::Number(minus, n) => Some(signed(minus, n)),
        _ => None,
    }
}

/// After the last word of a term that is not divided: a relation with its 0.
fn related<'a>(
    alloc: Global,
    draft: &mut Draft,
    last: Last,
    text: &'a [u8],
) -> Result<(Place, &'a [u8]), Memory>
    requires in_range { IsInRange (behind_of last draft.old) }
    ensures exact { IfOk result (λ x. ReachesState (s.Behind (behind_of last draft.old)) (state_of x.0 draft.new) text.now x.1.now) }
    ensures within { IfOk result (λ x. length x.1.now ≤ length text.now) }
{
    let Some(constant) = constant_of(last, draft) else {
        return Ok((Place::Behind(last), text));
    };
    let Some((bound, rest)) = relation_ahead(text) else {
        return Ok((Place::Behind(last), text));
    };
    if draft.divisor.is_some() {
        return Ok((Place::Behind(last), text));
    }
    draft.sum.set_constant(constant);
    draft.end_compared(alloc, bound)?;
    Ok((Place::Behind(Last::Clause), rest))
}

/// After a literal: `&` or `|` with its blanks.
fn joined<'a>(alloc: Global, draft: &mut Draft, text: &'a [u8]) -> Result<(Place, &'a [u8]), Memory>
    ensures exact { IfOk result (λ x. ReachesState (s.Behind (b.Clause draft.old.clauses draft.old.literals)) (state_of x.0 draft.new) text.now x.1.now) }
    ensures within { IfOk result (λ x. length x.1.now ≤ length text.now) }
{
    match joint_ahead(text) {
        Some((true, rest)) => {
            draft.end_clause(alloc)?;
            draft.begin(alloc, None);
            Ok((Place::Blank(Last::Start), rest))
        }
        Some((false, rest)) if !draft.literals.is_empty() => {
            draft.begin(alloc, None);
            Ok((Place::Blank(Last::Start), rest))
        }
        _ => Ok((Place::Behind(Last::Clause), text)),
    }
}

/// Before the blank of a literal: the blank, and the name that begins its term, or the word `true`.
fn started<'a>(draft: &mut Draft, text: &'a [u8]) -> Result<(Place, &'a [u8]), Memory>
    requires open { IsRising draft.old }
    ensures exact { IfOk result (λ x. ReachesState (s.Behind (b.Start draft.old)) (state_of x.0 draft.new) text.now x.1.now) }
    ensures within { IfOk result (λ x. length x.1.now ≤ length text.now) }
{
    let Ok(rest) = blank(text) else {
        return Ok((Place::Behind(Last::Start), text));
    };
    begun(draft, rest)
}

/// Where a literal begins: the name that begins its term, or the word `true`.
fn begun<'a>(draft: &mut Draft, text: &'a [u8]) -> Result<(Place, &'a [u8]), Memory>
    requires open { IsRising draft.old }
    ensures exact { IfOk result (λ x. ReachesState (s.Blank (b.Start draft.old)) (state_of x.0 draft.new) text.now x.1.now) }
    ensures within { IfOk result (λ x. length x.1.now ≤ length text.now) }
{
    let Some((minus, name, rest)) = first_ahead(text) else {
        return Ok(true_clause(draft, text));
    };
    if draft.least > u64::from(name) {
        return Ok((Place::Blank(Last::Start), text));
    }
    draft.add_name(minus, 1, name)?;
    Ok((Place::Behind(Last::Sum), rest))
}

/// Where a literal begins: the word `true`, which is all that its clause says.
fn true_clause<'a>(draft: &Draft, text: &'a [u8]) -> (Place, &'a [u8])
    ensures exact { ReachesState (s.Blank (b.Start draft.now)) (state_of result.0 draft.now) text.now result.1.now }
    ensures within { length result.1.now ≤ length text.now }
{
    let Some(rest) = true_ahead(text) else {
        return (Place::Blank(Last::Start), text);
    };
    if draft.literals.is_empty() && draft.divisor.is_none() {
        (Place::Behind(Last::Clause), rest)
    } else {
        (Place::Blank(Last::Start), text)
    }
}

/// The text after the end of the line, where that comes after a clause; none elsewhere.
pub fn end_ahead(place: Place, text: &[u8]) -> Option<&[u8]>
    ensures { MatchOption result ((rest : List ℕ) → place ≡ p.Behind w.Clause → Cuts (t.LineFeed ∷ []) text.now rest → ⊥) (λ rest. (place ≡ p.Behind w.Clause) × Cuts (t.LineFeed ∷ []) text.now rest.now) }
{
    let Place::Behind(Last::Clause) = place else {
        return None;
    };
    let Ok(rest) = line_feed(text) else {
        return None;
    };
    Some(rest)
}
