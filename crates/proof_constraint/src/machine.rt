// The line `gives` as a machine: what each token does, after each other.

ghost use Rattle.proof_constraint.specs.Behind as b;
ghost use Rattle.proof_constraint.specs.Machine as spec;
ghost use Rattle.proof_constraint.specs.Places.{behind_of, move_of, state_of};
ghost use Rattle.proof_constraint.specs.Ranges.{IsInRange, IsRising, IsStateInRange};
ghost use Rattle.linear_term.specs.Range.{InRange};
ghost use Rattle.proof_tokens.specs.Spellings.{IsRangedToken};
ghost use Rattle.proof_tokens.specs.declared.tokens.Token.TheVariants as t;
ghost use Rattle.std.specs.Prelude.{◌≡◌, ◌≢◌, ◌<◌, ◌^◌, IfOk};

use crate::draft::{Divisor, Draft, signed};
use crate::place::{Last, Place, Progress};
use linear_term::Memory;
use proof_tokens::Token;
use sqlite_items::Items;
use std::alloc::Global;

/// A name comes, with its coefficient.
fn named(draft: &mut Draft, minus: bool, n: u128, name: u32) -> Result<Progress, Memory>
    requires open { IsRising draft.old }
    requires small { n < 2 ^ 127 }
    requires some { n ≢ 0 }
    ensures { IfOk result (λ p. move_of p draft.new ≡ spec.named draft.old minus n name) }
{
    if draft.least > u64::from(name) {
        return Ok(Progress::Bad);
    }
    draft.add_name(minus, n, name)?;
    Ok(Progress::On(Place::Behind(Last::Sum)))
}

/// A constant that is not 0 comes.
fn counted(draft: &Draft, minus: bool, n: u128) -> Progress
    ensures { move_of result draft.now ≡ spec.counted draft.now minus n }
{
    if n == 0 {
        Progress::Bad
    } else {
        Progress::On(Place::Behind(Last::Number(minus, n)))
    }
}

/// A `*` comes after a number.
fn starred(draft: &Draft, minus: bool, n: u128) -> Progress
    ensures { move_of result draft.now ≡ spec.starred draft.now minus n }
{
    if n > 1 && draft.least <= u64::from(u32::MAX) {
        Progress::On(Place::Times(minus, n))
    } else {
        Progress::Bad
    }
}

/// `&` comes after the literals of a clause.
fn and_then(alloc: Global, draft: &mut Draft) -> Progress
    ensures { move_of result draft.new ≡ spec.and_then draft.old.clauses draft.old.literals }
{
    if draft.literals.is_empty() {
        return Progress::Bad;
    }
    draft.begin(alloc, None);
    Progress::On(Place::Behind(Last::Start))
}

/// `|` comes after a clause.
fn or_then(alloc: Global, draft: &mut Draft) -> Result<Progress, Memory>
    ensures { IfOk result (λ p. move_of p draft.new ≡ spec.or_then draft.old.clauses draft.old.literals) }
{
    draft.end_clause(alloc)?;
    draft.begin(alloc, None);
    Ok(Progress::On(Place::Behind(Last::Start)))
}

/// The line ends after a clause.
fn ended(alloc: Global, draft: &mut Draft) -> Result<Progress, Memory>
    ensures { IfOk result (λ p. move_of p draft.new ≡ spec.ended draft.old.clauses draft.old.literals) }
{
    draft.end_clause(alloc)?;
    Ok(Progress::Done)
}

/// A relation comes after a whole sum.
fn related(draft: &mut Draft, constant: i128, bound: bool) -> Progress
    requires { InRange constant }
    ensures { move_of result draft.new ≡ spec.relation bound draft.old.divisor draft.old constant }
{
    if draft.divisor.is_some() {
        return Progress::Bad;
    }
    draft.sum.set_constant(constant);
    Progress::On(Place::Behind(Last::Relation(bound)))
}

/// `&` comes after a sum.
fn and_behind(alloc: Global, draft: &mut Draft, constant: i128) -> Result<Progress, Memory>
    requires { InRange constant }
    ensures { IfOk result (λ p. move_of p draft.new ≡ spec.ends_literal spec.and_then draft.old.divisor draft.old constant) }
{
    let Some(divisor) = draft.divisor else {
        return Ok(Progress::Bad);
    };
    draft.end_divided(alloc, divisor, constant)?;
    Ok(and_then(alloc, draft))
}

/// `|` comes after a sum.
fn or_behind(alloc: Global, draft: &mut Draft, constant: i128) -> Result<Progress, Memory>
    requires { InRange constant }
    ensures { IfOk result (λ p. move_of p draft.new ≡ spec.ends_literal spec.or_then draft.old.divisor draft.old constant) }
{
    let Some(divisor) = draft.divisor else {
        return Ok(Progress::Bad);
    };
    draft.end_divided(alloc, divisor, constant)?;
    or_then(alloc, draft)
}

/// The line ends after a sum.
fn ended_behind(alloc: Global, draft: &mut Draft, constant: i128) -> Result<Progress, Memory>
    requires { InRange constant }
    ensures { IfOk result (λ p. move_of p draft.new ≡ spec.ends_literal spec.ended draft.old.divisor draft.old constant) }
{
    let Some(divisor) = draft.divisor else {
        return Ok(Progress::Bad);
    };
    draft.end_divided(alloc, divisor, constant)?;
    ended(alloc, draft)
}

/// What follows a whole sum and a blank.
fn follows(
    alloc: Global,
    draft: &mut Draft,
    constant: i128,
    token: Token,
) -> Result<Progress, Memory>
    requires { InRange constant }
    ensures { IfOk result (λ p. move_of p draft.new ≡ spec.follows draft.old constant token) }
{
    match token {
        Token::Equal => Ok(related(draft, constant, false)),
        Token::AtLeast => Ok(related(draft, constant, true)),
        Token::And => and_behind(alloc, draft, constant),
        Token::Or => or_behind(alloc, draft, constant),
        _ => Ok(Progress::Bad),
    }
}

/// `divides` or `notdivides` comes after a number.
fn divides(alloc: Global, draft: &mut Draft, minus: bool, size: u128, negated: bool) -> Progress
    requires { size < 2 ^ 127 }
    ensures { move_of result draft.new ≡ spec.divides_then negated draft.old.divisor draft.old.sum.pairs minus draft.old size }
{
    if draft.divisor.is_some() || minus || draft.sum.len() != 0 || size < 2 {
        return Progress::Bad;
    }
    let divisor = Divisor {
        size: size as i128,
        negated,
    };
    draft.begin(alloc, Some(divisor));
    Progress::On(Place::Behind(Last::Start))
}

/// The word `false` comes.
fn whole_false(draft: &Draft) -> Progress
    ensures { move_of result draft.now ≡ spec.false_then draft.now.clauses draft.now.literals draft.now.divisor }
{
    if draft.clauses.is_empty() && draft.literals.is_empty() && draft.divisor.is_none() {
        return Progress::On(Place::Behind(Last::False));
    }
    Progress::Bad
}

/// The word `true` comes.
fn whole_true(draft: &Draft) -> Progress
    ensures { move_of result draft.now ≡ spec.true_then draft.now.clauses draft.now.literals draft.now.divisor }
{
    if draft.literals.is_empty() && draft.divisor.is_none() {
        return Progress::On(Place::Behind(Last::Clause));
    }
    Progress::Bad
}

/// What the number after a relation does.
fn compared(alloc: Global, draft: &mut Draft, bound: bool, n: u128) -> Result<Progress, Memory>
    ensures { IfOk result (λ p. move_of p draft.new ≡ spec.word (b.Relation draft.old.clauses draft.old.literals draft.old.sum bound) (t.Number n)) }
{
    if n != 0 {
        return Ok(Progress::Bad);
    }
    draft.end_compared(alloc, bound)?;
    Ok(Progress::On(Place::Behind(Last::Clause)))
}

/// What a word does where a literal or its term begins.
fn first_word(draft: &mut Draft, token: Token) -> Result<Progress, Memory>
    requires token_in_range { IsRangedToken token }
    requires open { IsRising draft.old }
    ensures { IfOk result (λ p. move_of p draft.new ≡ spec.word (b.Start draft.old) token) }
{
    match token {
        Token::False => Ok(whole_false(draft)),
        Token::True => Ok(whole_true(draft)),
        Token::Minus => Ok(Progress::On(Place::Minus)),
        Token::Number(n) => Ok(Progress::On(Place::Behind(Last::Number(false, n)))),
        Token::Name(x) => named(draft, false, 1, x),
        _ => Ok(Progress::Bad),
    }
}

/// What a word does after a name and a blank.
fn behind_name(alloc: Global, draft: &mut Draft, token: Token) -> Result<Progress, Memory>
    ensures { IfOk result (λ p. move_of p draft.new ≡ spec.word (b.Sum draft.old) token) }
{
    match token {
        Token::Plus => Ok(Progress::On(Place::Behind(Last::Sign(false)))),
        Token::Minus => Ok(Progress::On(Place::Behind(Last::Sign(true)))),
        other => follows(alloc, draft, 0, other),
    }
}

/// What a word does after a sign and a blank.
fn behind_sign(draft: &mut Draft, minus: bool, token: Token) -> Result<Progress, Memory>
    requires token_in_range { IsRangedToken token }
    requires open { IsRising draft.old }
    ensures { IfOk result (λ p. move_of p draft.new ≡ spec.word (b.Sign draft.old minus) token) }
{
    match token {
        Token::Number(n) => Ok(counted(draft, minus, n)),
        Token::Name(x) => named(draft, minus, 1, x),
        _ => Ok(Progress::Bad),
    }
}

/// What a word does after a number and a blank.
fn behind_number(
    alloc: Global,
    draft: &mut Draft,
    minus: bool,
    n: u128,
    token: Token,
) -> Result<Progress, Memory>
    requires { n < 2 ^ 127 }
    ensures { IfOk result (λ p. move_of p draft.new ≡ spec.word (b.Number draft.old minus n) token) }
{
    match token {
        Token::Divides => Ok(divides(alloc, draft, minus, n, false)),
        Token::NotDivides => Ok(divides(alloc, draft, minus, n, true)),
        other => follows(alloc, draft, signed(minus, n), other),
    }
}

/// What a word does after a clause and a blank.
fn behind_clause(alloc: Global, draft: &mut Draft, token: Token) -> Result<Progress, Memory>
    ensures { IfOk result (λ p. move_of p draft.new ≡ spec.word (b.Clause draft.old.clauses draft.old.literals) token) }
{
    match token {
        Token::And => Ok(and_then(alloc, draft)),
        Token::Or => or_then(alloc, draft),
        _ => Ok(Progress::Bad),
    }
}

/// What a word does after a word and a blank.
fn word(alloc: Global, draft: &mut Draft, last: Last, token: Token) -> Result<Progress, Memory>
    requires token_in_range { IsRangedToken token }
    requires in_range { IsInRange (behind_of last draft.old) }
    ensures { IfOk result (λ p. move_of p draft.new ≡ spec.word (behind_of last draft.old) token) }
{
    match last {
        Last::Start => first_word(draft, token),
        Last::Sum => behind_name(alloc, draft, token),
        Last::Sign(minus) => behind_sign(draft, minus, token),
        Last::Number(minus, n) => behind_number(alloc, draft, minus, n, token),
        Last::Relation(bound) => match token {
            Token::Number(n) => compared(alloc, draft, bound, n),
            _ => Ok(Progress::Bad),
        },
        Last::Clause => behind_clause(alloc, draft, token),
        Last::False => Ok(Progress::Bad),
    }
}

/// What the end of the line does after a word.
fn line_end(alloc: Global, draft: &mut Draft, last: Last) -> Result<Progress, Memory>
    requires in_range { IsInRange (behind_of last draft.old) }
    ensures { IfOk result (λ p. move_of p draft.new ≡ spec.line_end (behind_of last draft.old)) }
{
    match last {
        Last::Sum => ended_behind(alloc, draft, 0),
        Last::Number(minus, n) => ended_behind(alloc, draft, signed(minus, n)),
        Last::Clause => ended(alloc, draft),
        Last::False => {
            draft.clauses = Items::new(alloc);
            Ok(Progress::Done)
        }
        _ => Ok(Progress::Bad),
    }
}

/// A blank comes after a word.
fn blank(draft: &Draft, last: Last) -> Progress
    ensures { move_of result draft.now ≡ spec.blank (behind_of last draft.now) }
{
    match last {
        Last::False => Progress::Bad,
        other => Progress::On(Place::Blank(other)),
    }
}

/// A `*` comes after a word.
fn times(draft: &Draft, last: Last) -> Progress
    ensures { move_of result draft.now ≡ spec.times (behind_of last draft.now) }
{
    match last {
        Last::Number(minus, n) => starred(draft, minus, n),
        _ => Progress::Bad,
    }
}

/// What a token does after a word.
fn behind_word(
    alloc: Global,
    draft: &mut Draft,
    last: Last,
    token: Token,
) -> Result<Progress, Memory>
    requires in_range { IsInRange (behind_of last draft.old) }
    ensures { IfOk result (λ p. move_of p draft.new ≡ spec.behind_word (behind_of last draft.old) token) }
{
    match token {
        Token::Blank => Ok(blank(draft, last)),
        Token::LineFeed => line_end(alloc, draft, last),
        Token::Times => Ok(times(draft, last)),
        _ => Ok(Progress::Bad),
    }
}

/// What a token does.
#[tactic(auto, unfolding(crate::specs::Machine::moves))]
pub fn step(
    alloc: Global,
    draft: &mut Draft,
    place: Place,
    token: Token,
) -> Result<Progress, Memory>
    requires token_in_range { IsRangedToken token }
    requires in_range { IsStateInRange (state_of place draft.old) }
    ensures { IfOk result (λ p. move_of p draft.new ≡ spec.moves (state_of place draft.old) token) }
{
    match place {
        Place::Behind(last) => behind_word(alloc, draft, last, token),
        Place::Blank(last) => word(alloc, draft, last, token),
        Place::Minus => match token {
            Token::Number(n) => Ok(counted(draft, true, n)),
            Token::Name(x) => named(draft, true, 1, x),
            _ => Ok(Progress::Bad),
        },
        Place::Times(minus, n) => match token {
            Token::Name(x) => named(draft, minus, n, x),
            _ => Ok(Progress::Bad),
        },
    }
}
