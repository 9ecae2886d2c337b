// Linear terms as words.

ghost use Rattle.linear_term.specs.Linear.{IsOver};
ghost use Rattle.std.specs.List.{prefix_len};
ghost use Rattle.std.specs.Prelude.{◌≡◌, ◌≢◌, ◌≤◌, ◌<◌, ◌^◌, ◌∷◌, Bool, cond, length, Some, None, IfOk, IfSome};
ghost use Rattle.clause_words.specs.Rising.{HasRisingNames, IsSmallPart};
ghost use Rattle.clause_words.specs.Terms.{ended_by, nothing, no_sign, no_star, part_of, parts, parts_behind, star_part, sum_of, term_of, with_name};

use crate::numbers::{index, signed, size};
use linear_term::{Memory, Term};
use std::alloc::Global;

/// A part of a sum, but for its sign.
#[derive(Clone, Copy)]
pub enum Part {
    Constant(u128),
    /// A coefficient, which is not 0, and a name.
    Monomial(u128, u32),
}

/// A sum that is being read.
#[derive(Drop)]
pub struct Sum {
    pub term: Term,
    /// The least name that may come.
    pub least: u64,
}

impl Sum {
    /// Nothing is read.
    fn new(alloc: Global) -> Sum
        ensures exact { result ≡ nothing }
        ensures rising { HasRisingNames result }
    {
        Sum {
            term: Term::number(alloc, 0),
            least: 0,
        }
    }

    /// Appends a monomial, if its name may come.
    fn push(&mut self, minus: bool, n: u128, x: u32) -> Result<bool, Memory>
        requires rising { HasRisingNames self.old }
        requires small { n < 2 ^ 127 }
        requires some { n ≢ 0 }
        ensures exact { IfOk result (λ b. with_name self.old minus n x ≡ cond b (Some self.new) None) }
        ensures rising { HasRisingNames self.new }
    {
        if self.least > u64::from(x) {
            return Ok(false);
        }
        self.term.push(x, signed(minus, n))?;
        self.least = u64::from(x) + 1;
        Ok(true)
    }

    /// The term with this constant at its end; none where a 0 does not stand alone, or where parts stand after.
    fn end(self, minus: bool, n: u128, behind: &[u8]) -> Option<Term>
        requires small { n < 2 ^ 127 }
        ensures { result ≡ ended_by behind.now self minus n }
    {
        let Sum { mut term, least: _ } = self;
        if !behind.is_empty() || (n == 0 && (minus || term.len() != 0)) {
            return None;
        }
        term.set_constant(signed(minus, n));
        Some(term)
    }
}

/// How many bytes at the front are before a `*`.
#[tactic(auto, using(proof_tokens::proofs::Runs::runs))]
fn star_len(word: &[u8]) -> usize
    ensures exact { result ≡ prefix_len no_star word.now }
    ensures within { result ≤ length word.now }
{
    word.iter().take_while(|byte| **byte != b'*').count()
}

/// How many bytes at the front are before a sign.
#[tactic(auto, using(proof_tokens::proofs::Runs::runs))]
fn sign_len(word: &[u8]) -> usize
    ensures exact { result ≡ prefix_len no_sign word.now }
    ensures within { result ≤ length word.now }
{
    word.iter()
        .take_while(|byte| **byte != b'+' && **byte != b'-')
        .count()
}

/// A constant, or a coefficient and a name with a `*` between them.
fn star_part(word: &[u8]) -> Option<Part>
    ensures exact { result ≡ star_part word.now }
    ensures small { IfSome result IsSmallPart }
{
    let (digits, behind) = word.split_at(star_len(word));
    if behind.is_empty() {
        return Some(Part::Constant(size(digits)?));
    }
    let (_star, inner) = behind.split_first()?;
    let (letter, name) = inner.split_first()?;
    if *letter != b'c' {
        return None;
    }
    let n = size(digits)?;
    let x = index(name)?;
    if n > 1 {
        Some(Part::Monomial(n, x))
    } else {
        None
    }
}

/// The part of a sum that the word is, but for its sign.
#[tactic(auto, unfolding(crate::specs::Terms::part_of))]
fn part_of(word: &[u8]) -> Option<Part>
    ensures exact { result ≡ part_of word.now }
    ensures small { IfSome result IsSmallPart }
{
    let (first, name) = word.split_first()?;
    if *first == b'c' {
        return Some(Part::Monomial(1, index(name)?));
    }
    star_part(word)
}

/// The word of the first part, and the parts after it with their signs.
#[tactic(auto, using(crate::proofs::Summing::split_is))]
fn split_part(word: &[u8]) -> (&[u8], &[u8])
    ensures exact { (minus : Bool) → parts minus word.now ≡ (minus, result.0.now) ∷ parts_behind result.1.now }
    ensures within { length result.1.now ≤ length word.now }
{
    word.split_at(sign_len(word))
}

/// The term that the parts of the word are, of which the first is subtracted or not.
fn rest_of_term(alloc: Global, first: bool, word: &[u8]) -> Result<Option<Term>, Memory>
    ensures { IfOk result (λ x. x ≡ sum_of nothing (parts first word.now)) }
{
    let mut sum = Sum::new(alloc);
    let mut minus = first;
    let mut rest = word;
    'parts: loop {
        let (part, behind) = split_part(rest);
        match part_of(part) {
            None => return Ok(None),
            Some(Part::Constant(n)) => return Ok(sum.end(minus, n, behind)),
            Some(Part::Monomial(n, x)) => {
                if !sum.push(minus, n, x)? {
                    return Ok(None);
                }
            }
        }
        let Some((sign, more)) = behind.split_first() else {
            return Ok(Some(sum.term));
        };
        minus = *sign == b'-';
        rest = more;
    }
}

/// The term that the word is; none where it is none.
#[tactic(auto, unfolding(crate::specs::Terms::term_of))]
pub fn term(alloc: Global, word: &[u8]) -> Result<Option<Term>, Memory>
    ensures { IfOk result (λ x. x ≡ term_of word.now) }
{
    match word.split_first() {
        None => Ok(None),
        Some((b'-', rest)) => rest_of_term(alloc, true, rest),
        Some(_) => rest_of_term(alloc, false, word),
    }
}
