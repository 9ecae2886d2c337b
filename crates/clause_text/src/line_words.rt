// The values of words, each after a blank.

ghost use Rattle.clause_text.specs.HeadWords.{charge_of};
ghost use Rattle.clause_text.specs.Literals.{factor_of, literal_of};
ghost use Rattle.clause_text.specs.Shapes.{by};
ghost use Rattle.clause_text.specs.Words.{word_of};
ghost use Rattle.std.specs.Prelude.{◌≡◌, ◌≤◌, length, List, ℕ, Option, IfOk};
ghost use Rattle.clause_words.specs.Numbers.{index_of, integer_of};
ghost use Rattle.clause_words.specs.Reading.{field, fields, fields_to, GivesValue, unless, word_as};
ghost use Rattle.clause_words.specs.Terms.{term_of};
ghost use Rattle.clause_words.specs.Tokens.{tokens};

use crate::charge::{Charge, charge_word};
use crate::line_word::{LineWord, line_word};
use crate::literals::{factor, literal};
use clause_proof::{Factor, Literal};
use clause_words::{blank_first, index, integer, joint, split_word, term};
use linear_term::{Memory, Term};
use proof_tokens::Refusal;
use sqlite_items::Items;
use std::alloc::Global;

/// What one word says.
pub(crate) trait Word: Drop {
    /// The value that a word is.
    ghost reading: { List ℕ → Option Self };

    /// The value that the word is; none where it is none.
    fn read(alloc: Global, word: &[u8]) -> Result<Option<Self>, Memory>
        ensures { IfOk result (λ x. x ≡ reading word.now) };
}

impl Word for u32 {
    ghost use Rattle.clause_words.specs.Numbers.{index_of};

    ghost reading = { index_of };

    fn read(_alloc: Global, word: &[u8]) -> Result<Option<u32>, Memory> {
        Ok(index(word))
    }
}

impl Word for i128 {
    ghost use Rattle.clause_words.specs.Numbers.{integer_of};

    ghost reading = { integer_of };

    fn read(_alloc: Global, word: &[u8]) -> Result<Option<i128>, Memory> {
        Ok(integer(word))
    }
}

impl Word for Term {
    ghost use Rattle.clause_words.specs.Terms.{term_of};

    ghost reading = { term_of };

    fn read(alloc: Global, word: &[u8]) -> Result<Option<Term>, Memory> {
        term(alloc, word)
    }
}

impl Word for Literal {
    ghost use Rattle.clause_text.specs.Literals.{literal_of};

    ghost reading = { literal_of };

    fn read(_alloc: Global, word: &[u8]) -> Result<Option<Literal>, Memory> {
        Ok(literal(word))
    }
}

impl Word for Factor {
    ghost use Rattle.clause_text.specs.Literals.{factor_of};

    ghost reading = { factor_of };

    fn read(_alloc: Global, word: &[u8]) -> Result<Option<Factor>, Memory> {
        Ok(factor(word))
    }
}

impl Word for Charge {
    ghost use Rattle.clause_text.specs.HeadWords.{charge_of};

    ghost reading = { charge_of };

    fn read(_alloc: Global, word: &[u8]) -> Result<Option<Charge>, Memory> {
        Ok(charge_word(word))
    }
}

impl Word for LineWord {
    ghost use Rattle.clause_text.specs.Words.{word_of};

    ghost reading = { word_of };

    fn read(_alloc: Global, word: &[u8]) -> Result<Option<LineWord>, Memory> {
        Ok(line_word(word))
    }
}

/// The literal that the word is, or none inside for the word `by`.
fn literal_or_by(word: &[u8]) -> Option<Option<Literal>>
    ensures { result ≡ unless by literal_of word.now }
{
    if word == b"by".as_slice() {
        return Some(None);
    }
    let l = literal(word)?;
    Some(Some(l))
}

impl Word for Option<Literal> {
    ghost use Rattle.clause_text.specs.Literals.{literal_of};
    ghost use Rattle.clause_text.specs.Shapes.{by};
    ghost use Rattle.clause_words.specs.Reading.{unless};

    ghost reading = { unless by literal_of };

    fn read(_alloc: Global, word: &[u8]) -> Result<Option<Option<Literal>>, Memory> {
        Ok(literal_or_by(word))
    }
}

/// The value of the first word, and the text after it.
pub(crate) fn word_as<W: Word>(alloc: Global, text: &[u8]) -> Result<(W, &[u8]), Refusal>
    ensures exact { GivesValue (λ x. (x.0, tokens x.1.now)) result (word_as (W.reading) (tokens text.now)) }
    ensures within { IfOk result (λ x. length x.1.now ≤ length text.now) }
{
    let (word, rest) = split_word(text);
    if word.is_empty() {
        return Err(Refusal::Syntax(text.len()));
    }
    match W::read(alloc, word)? {
        Some(value) => Ok((value, rest)),
        None => Err(Refusal::Syntax(text.len())),
    }
}

/// The value of the word after a blank, and the text after it.
#[tactic(auto, unfolding(clause_words::specs::Reading::field))]
pub(crate) fn field<W: Word>(alloc: Global, text: &[u8]) -> Result<(W, &[u8]), Refusal>
    ensures { GivesValue (λ x. (x.0, tokens x.1.now)) result (field (W.reading) (tokens text.now)) }
{
    let inner = blank_first(text)?;
    let (value, rest) = word_as(alloc, inner)?;
    Ok((value, rest))
}

/// The values of words, each after a blank, to the end of the line, and the text after that.
pub(crate) fn fields<W: Word>(alloc: Global, text: &[u8]) -> Result<(Items<W>, &[u8]), Refusal>
    ensures { GivesValue (λ x. (x.0, tokens x.1.now)) result (fields (W.reading) (tokens text.now)) }
{
    let mut found = Items::new(alloc);
    let mut rest = text;
    'words: loop {
        let (more, inner) = joint(rest)?;
        if !more {
            return Ok((found, inner));
        }
        let (value, behind) = word_as(alloc, inner)?;
        found.push(value)?;
        rest = behind;
    }
}

/// Literals, each after a blank, up to and with the word `by`, and the text after that.
pub(crate) fn clause(alloc: Global, text: &[u8]) -> Result<(Items<Literal>, &[u8]), Refusal>
    ensures { GivesValue (λ x. (x.0, tokens x.1.now)) result (fields_to (unless by literal_of) (tokens text.now)) }
{
    let mut found = Items::new(alloc);
    let mut rest = text;
    'words: loop {
        let inner = blank_first(rest)?;
        let (word, behind): (Option<Literal>, &[u8]) = word_as(alloc, inner)?;
        let Some(literal) = word else {
            return Ok((found, behind));
        };
        found.push(literal)?;
        rest = behind;
    }
}
