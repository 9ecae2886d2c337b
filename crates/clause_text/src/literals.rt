// Literals and factors as words.

ghost use Rattle.clause_text.specs.Literals.{factor_of, factor_text, literal_of, literal_text};
ghost use Rattle.std.specs.List.{prefix_len};
ghost use Rattle.std.specs.Prelude.{◌≡◌, ◌≤◌, ◌++◌, length, OnOk};
ghost use Rattle.clause_words.specs.Terms.{no_star};

use clause_proof::{Factor, Literal};
use clause_words::{index, integer, put_integer, put_number};
use linear_term::Memory;
use std::alloc::Global;

/// The literal that the word is.
#[tactic(auto, unfolding(crate::specs::Literals::literal_of))]
pub(crate) fn literal(word: &[u8]) -> Option<Literal>
    ensures { result ≡ literal_of word.now }
{
    let (sign, digits) = word.split_first()?;
    if *sign == b'+' {
        let variable = index(digits)?;
        return Some(Literal {
            variable,
            positive: true,
        });
    }
    if *sign == b'-' {
        let variable = index(digits)?;
        return Some(Literal {
            variable,
            positive: false,
        });
    }
    None
}

/// How many bytes at the front are before a `*`.
#[tactic(auto, using(proof_tokens::proofs::Runs::runs))]
fn star_len(word: &[u8]) -> usize
    ensures exact { result ≡ prefix_len no_star word.now }
    ensures within { result ≤ length word.now }
{
    word.iter().take_while(|byte| **byte != b'*').count()
}

/// The literal with its multiplier that the word is.
#[tactic(auto, unfolding(crate::specs::Literals::factor_of))]
pub(crate) fn factor(word: &[u8]) -> Option<Factor>
    ensures { result ≡ factor_of word.now }
{
    let (front, behind) = word.split_at(star_len(word));
    let (_star, number) = behind.split_first()?;
    let literal = literal(front)?;
    let by = integer(number)?;
    Some(Factor { literal, by })
}

/// Puts a literal after a text.
pub(crate) fn put_literal(alloc: Global, l: Literal, out: &mut Vec<u8>) -> Result<(), Memory>
    ensures { OnOk result (out.new.items ≡ out.old.items ++ literal_text l) }
{
    out.push(if l.positive { b'+' } else { b'-' })?;
    put_number(alloc, l.variable, out)
}

/// Puts a literal with its multiplier after a text.
pub(crate) fn put_factor(alloc: Global, x: Factor, out: &mut Vec<u8>) -> Result<(), Memory>
    ensures { OnOk result (out.new.items ≡ out.old.items ++ factor_text x) }
{
    put_literal(alloc, x.literal, out)?;
    out.push(b'*')?;
    put_integer(alloc, x.by, out)
}
