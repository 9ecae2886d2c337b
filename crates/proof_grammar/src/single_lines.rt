// The lines that pay for what is owed, each as a line of a text.

ghost use Rattle.proof_tokens.specs.Reading.{Cuts, RefusesNext, RefusesProof};
ghost use Rattle.proof_tokens.specs.declared.tokens.Token.TheVariants as t;
ghost use Rattle.std.specs.Prelude.{◌∷◌, [], cond, length, IfErr, IfOk, ℕ};
ghost use Rattle.proof_grammar.specs.Conclusions.{IsEndWord};
ghost use Rattle.proof_grammar.specs.Lines.{line_text};
ghost use Rattle.proof_grammar.specs.Owed.{Any, Pays, Shallow};
ghost use Rattle.proof_grammar.specs.declared.lines.Owed.TheVariants as o;

use crate::lines::TextLine;
use proof_constraint::given;
use proof_tokens::{
    Refusal, SaidLog, Token, Word, charges, head, next, part, parts, said, values, word,
};
use proof_tree::Conclusion;
use std::alloc::Global;

/// Whether the word `solution` comes, and not `none`, and the text after it.
fn end_word(text: &[u8]) -> Result<(bool, &[u8]), Refusal>
    ensures found { IfOk result (λ x. Cuts (cond x.0 t.Solution t.Nothing ∷ []) text.now x.1.now) }
    ensures lacks { IfErr result (RefusesNext IsEndWord text.now) }
{
    let Some((token, rest)) = next(text) else {
        return Err(Refusal::Syntax(0));
    };
    match token {
        Token::Solution => Ok((true, rest)),
        Token::Nothing => Ok((false, rest)),
        _ => Err(Refusal::Syntax(text.len())),
    }
}

/// The first line of a text.
pub fn head_line(text: &[u8]) -> Result<(TextLine, &[u8]), Refusal>
    ensures found { IfOk result (λ x. Pays Shallow o.Head x.0 × Cuts (line_text x.0) text.now x.1.now) }
    ensures first { IfErr result (RefusesProof (Pays Any o.Head) line_text text.now) }
{
    let (format, rest) = head(text)?;
    Ok((TextLine::Head(format), rest))
}

/// The line that says how many parts the text has.
pub fn parts_line(text: &[u8]) -> Result<(TextLine, &[u8]), Refusal>
    ensures found { IfOk result (λ x. Pays Shallow o.Parts x.0 × Cuts (line_text x.0) text.now x.1.now) }
    ensures first { IfErr result (RefusesProof (Pays Any o.Parts) line_text text.now) }
{
    let (count, rest) = parts(text)?;
    Ok((TextLine::Parts(count), rest))
}

/// A part of a text.
pub fn part_line(alloc: Global, text: &[u8]) -> Result<(TextLine, &[u8]), Refusal>
    ensures found { IfOk result (λ x. Pays Shallow o.Part x.0 × Cuts (line_text x.0) text.now x.1.now) }
    ensures first { IfErr result (RefusesProof (Pays Any o.Part) line_text text.now) }
{
    let (steps, rest) = part(alloc, text)?;
    Ok((TextLine::Part(steps), rest))
}

/// The line with the charges, however many parts the text has.
pub fn charges_line(text: &[u8]) -> Result<(TextLine, &[u8]), Refusal>
    ensures found { (parts : ℕ) → IfOk result (λ x. Pays Shallow (o.Charges parts) x.0 × Cuts (line_text x.0) text.now x.1.now) }
    ensures first { (parts : ℕ) → IfErr result (RefusesProof (Pays Any (o.Charges parts)) line_text text.now) }
{
    let (amount, rest) = charges(text)?;
    Ok((TextLine::Charges(amount), rest))
}

/// The log of a node, in a text of this many parts.
pub fn log_line(alloc: Global, text: &[u8], parts: usize) -> Result<(TextLine, &[u8]), Refusal>
    ensures found { IfOk result (λ x. Pays Shallow (o.Log parts) x.0 × Cuts (line_text x.0) text.now x.1.now) }
    ensures first { IfErr result (RefusesProof (Pays Any (o.Log parts)) line_text text.now) }
{
    let inner = word(text, Word::Log)?;
    let (log, rest) = said(alloc, inner, parts)?;
    match log {
        SaidLog::Entries(steps) => Ok((TextLine::Log(steps), rest)),
        SaidLog::Part(part) => Ok((TextLine::LogOf(part), rest)),
    }
}

/// The constraint of a node.
pub fn gives_line(alloc: Global, text: &[u8]) -> Result<(TextLine, &[u8]), Refusal>
    ensures found { IfOk result (λ x. Pays Shallow o.Gives x.0 × Cuts (line_text x.0) text.now x.1.now) }
    ensures first { IfErr result (RefusesProof (Pays Any o.Gives) line_text text.now) }
{
    let (clauses, rest) = given(alloc, text)?;
    Ok((TextLine::Gives(clauses), rest))
}

/// The last line of a text of this many parts.
pub fn end_line(alloc: Global, text: &[u8], parts: usize) -> Result<(TextLine, &[u8]), Refusal>
    ensures found { IfOk result (λ x. Pays Shallow (o.End parts) x.0 × Cuts (line_text x.0) text.now x.1.now) }
    ensures first { IfErr result (RefusesProof (Pays Any (o.End parts)) line_text text.now) }
{
    let (solved, inner) = end_word(text)?;
    if solved {
        let (numbers, rest) = values(alloc, inner)?;
        return Ok((TextLine::End(Conclusion::Solution(numbers)), rest));
    }
    let (log, rest) = said(alloc, inner, parts)?;
    match log {
        SaidLog::Entries(steps) => Ok((TextLine::End(Conclusion::Nothing(steps)), rest)),
        SaidLog::Part(part) => Ok((TextLine::EndOf(part), rest)),
    }
}
