// The lines of a clause proof, read.

ghost use Rattle.clause_proof.specs.declared.line.Line.{Line};
ghost use Rattle.clause_text.specs.Lines.{IsLine, line_behind, line_of, line_text, RefusesProofLine};
ghost use Rattle.clause_text.specs.declared.line_word.LineWord.TheVariants as w;
ghost use Rattle.std.specs.Prelude.{◌≡◌, ◌++◌, List, ℕ, IfErr, IfOk};
ghost use Rattle.clause_words.specs.Reading.{done, GivesValue};
ghost use Rattle.clause_words.specs.Tokens.{spelled, tokens};

use crate::line_word::LineWord;
use crate::line_words::{clause, field, fields, word_as};
use clause_proof::Line;
use clause_words::feed_first;
use proof_tokens::Refusal;
use std::alloc::Global;

fn open(alloc: Global, text: &[u8]) -> Result<(Line, &[u8]), Refusal>
    ensures { GivesValue (λ x. (x.0, tokens x.1.now)) result (line_behind w.Open (tokens text.now)) }
{
    let (variable, rest) = field(alloc, text)?;
    let (members, rest) = fields(alloc, rest)?;
    Ok((Line::Open(variable, members), rest))
}

fn apply(alloc: Global, text: &[u8]) -> Result<(Line, &[u8]), Refusal>
    ensures { GivesValue (λ x. (x.0, tokens x.1.now)) result (line_behind w.Apply (tokens text.now)) }
{
    let (function, rest) = field(alloc, text)?;
    let (terms, rest) = fields(alloc, rest)?;
    Ok((Line::Apply(function, terms), rest))
}

fn read(alloc: Global, text: &[u8]) -> Result<(Line, &[u8]), Refusal>
    ensures { GivesValue (λ x. (x.0, tokens x.1.now)) result (line_behind w.Read (tokens text.now)) }
{
    let (variable, rest) = field(alloc, text)?;
    let (made, rest) = field(alloc, rest)?;
    let (applications, rest) = fields(alloc, rest)?;
    Ok((Line::Read(variable, applications, made), rest))
}

fn instance(alloc: Global, text: &[u8]) -> Result<(Line, &[u8]), Refusal>
    ensures { GivesValue (λ x. (x.0, tokens x.1.now)) result (line_behind w.Instance (tokens text.now)) }
{
    let (variable, rest) = field(alloc, text)?;
    let (made, rest) = field(alloc, rest)?;
    let (terms, rest) = fields(alloc, rest)?;
    Ok((Line::Instance(variable, terms, made), rest))
}

fn inequality(alloc: Global, text: &[u8]) -> Result<(Line, &[u8]), Refusal>
    ensures { GivesValue (λ x. (x.0, tokens x.1.now)) result (line_behind w.Geq (tokens text.now)) }
{
    let (term, rest) = field(alloc, text)?;
    let rest = feed_first(rest)?;
    Ok((Line::Inequality(term), rest))
}

fn equation(alloc: Global, text: &[u8]) -> Result<(Line, &[u8]), Refusal>
    ensures { GivesValue (λ x. (x.0, tokens x.1.now)) result (line_behind w.Eq (tokens text.now)) }
{
    let (term, rest) = field(alloc, text)?;
    let rest = feed_first(rest)?;
    Ok((Line::Equation(term), rest))
}

fn predicate(alloc: Global, text: &[u8]) -> Result<(Line, &[u8]), Refusal>
    ensures { GivesValue (λ x. (x.0, tokens x.1.now)) result (line_behind w.Pred (tokens text.now)) }
{
    let (name, rest) = field(alloc, text)?;
    let (terms, rest) = fields(alloc, rest)?;
    Ok((Line::Predicate(name, terms), rest))
}

fn split(alloc: Global, text: &[u8]) -> Result<(Line, &[u8]), Refusal>
    ensures { GivesValue (λ x. (x.0, tokens x.1.now)) result (line_behind w.Split (tokens text.now)) }
{
    let (variable, rest) = field(alloc, text)?;
    let (above, rest) = field(alloc, rest)?;
    let (below, rest) = field(alloc, rest)?;
    let rest = feed_first(rest)?;
    Ok((Line::Split(variable, above, below), rest))
}

fn sum(alloc: Global, text: &[u8]) -> Result<(Line, &[u8]), Refusal>
    ensures { GivesValue (λ x. (x.0, tokens x.1.now)) result (line_behind w.Sum (tokens text.now)) }
{
    let (factors, rest) = fields(alloc, text)?;
    Ok((Line::Sum(factors), rest))
}

fn pair(alloc: Global, text: &[u8]) -> Result<(Line, &[u8]), Refusal>
    ensures { GivesValue (λ x. (x.0, tokens x.1.now)) result (line_behind w.Pair (tokens text.now)) }
{
    let (first, rest) = field(alloc, text)?;
    let (second, rest) = field(alloc, rest)?;
    let (made, rest) = field(alloc, rest)?;
    let (equations, rest) = fields(alloc, rest)?;
    Ok((Line::Pair(first, second, equations, made), rest))
}

fn predicate_pair(alloc: Global, text: &[u8]) -> Result<(Line, &[u8]), Refusal>
    ensures { GivesValue (λ x. (x.0, tokens x.1.now)) result (line_behind w.PredPair (tokens text.now)) }
{
    let (first, rest) = field(alloc, text)?;
    let (second, rest) = field(alloc, rest)?;
    let (equations, rest) = fields(alloc, rest)?;
    Ok((Line::PredicatePair(first, second, equations), rest))
}

fn divide(alloc: Global, text: &[u8]) -> Result<(Line, &[u8]), Refusal>
    ensures { GivesValue (λ x. (x.0, tokens x.1.now)) result (line_behind w.Divide (tokens text.now)) }
{
    let (divisor, rest) = field(alloc, text)?;
    let (term, rest) = field(alloc, rest)?;
    let (least, rest) = field(alloc, rest)?;
    let (most, rest) = field(alloc, rest)?;
    let rest = feed_first(rest)?;
    Ok((Line::Divide(divisor, term, least, most), rest))
}

fn resolve(alloc: Global, text: &[u8]) -> Result<(Line, &[u8]), Refusal>
    ensures { GivesValue (λ x. (x.0, tokens x.1.now)) result (line_behind w.Resolve (tokens text.now)) }
{
    let (literals, rest) = clause(alloc, text)?;
    let (hints, rest) = fields(alloc, rest)?;
    Ok((Line::Resolve(literals, hints), rest))
}

fn delete(alloc: Global, text: &[u8]) -> Result<(Line, &[u8]), Refusal>
    ensures { GivesValue (λ x. (x.0, tokens x.1.now)) result (line_behind w.Delete (tokens text.now)) }
{
    let (clauses, rest) = fields(alloc, text)?;
    Ok((Line::Delete(clauses), rest))
}

/// The line that begins with the word, and the text after it.
fn line_behind(alloc: Global, word: LineWord, text: &[u8]) -> Result<(Line, &[u8]), Refusal>
    ensures { GivesValue (λ x. (x.0, tokens x.1.now)) result (line_behind word (tokens text.now)) }
{
    match word {
        LineWord::Open => open(alloc, text),
        LineWord::Apply => apply(alloc, text),
        LineWord::Read => read(alloc, text),
        LineWord::Instance => instance(alloc, text),
        LineWord::Geq => inequality(alloc, text),
        LineWord::Eq => equation(alloc, text),
        LineWord::Pred => predicate(alloc, text),
        LineWord::Split => split(alloc, text),
        LineWord::Sum => sum(alloc, text),
        LineWord::Pair => pair(alloc, text),
        LineWord::PredPair => predicate_pair(alloc, text),
        LineWord::Divide => divide(alloc, text),
        LineWord::Resolve => resolve(alloc, text),
        LineWord::Delete => delete(alloc, text),
    }
}

/// The first line of the text, and the text after it.
#[tactic(auto, unfolding(crate::specs::Lines::line_of))]
fn any_line(alloc: Global, text: &[u8]) -> Result<(Line, &[u8]), Refusal>
    ensures { GivesValue (λ x. (x.0, tokens x.1.now)) result (line_of (tokens text.now)) }
{
    let (word, inner): (LineWord, &[u8]) = word_as(alloc, text)?;
    let (line, rest) = line_behind(alloc, word, inner)?;
    Ok((line, rest))
}

/// The first line of the text, and the text after it.
pub fn read_line(alloc: Global, text: &[u8]) -> Result<(Line, &[u8]), Refusal>
    // What is read is a line's text, each byte of it.
    ensures found { IfOk result (λ x. IsLine x.0 × (text.now ≡ spelled (line_text x.0) ++ x.1.now)) }
    // A line's text is read as that line, unless memory runs out, whatever stands after it.
    ensures only { (line : Line) (rest : List ℕ) → IsLine line → text.now ≡ spelled (line_text line) ++ rest → GivesValue (λ x. (x.0, tokens x.1.now)) result (done line (tokens rest)) }
    // A refusal is at the first token with which no line's text goes on.
    ensures first { IfErr result (RefusesProofLine text.now) }
{
    any_line(alloc, text)
}
