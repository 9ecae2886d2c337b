// A line that pays for what is owed, and what a refusal says.

ghost use Rattle.proof_tokens.specs.Reading.{Cuts};
ghost use Rattle.std.specs.Prelude.{ℕ, IfErr, IfOk};
ghost use Rattle.proof_grammar.specs.Faults.{RefusesLine};
ghost use Rattle.proof_grammar.specs.Lines.{line_text};
ghost use Rattle.proof_grammar.specs.Owed.{Pays, Shallow};
ghost use Rattle.proof_grammar.specs.declared.lines.Owed.TheVariants as o;

use crate::lines::{Owed, TextLine};
use crate::rows::{row, row_word};
use crate::single_lines::{
    charges_line, end_line, gives_line, head_line, log_line, part_line, parts_line,
};
use base_limits::BRANCH_LIMIT;
use linear_term::Memory;
use proof_tokens::Refusal;
use std::alloc::{AllocError, Global};

/// Why a text of lines is not read.
#[derive(Clone, Copy)]
pub enum Fault {
    /// The token that this many bytes from the end begin cannot stand there; with 0, a token may be missing.
    Syntax(usize),
    /// The token that this many bytes from the end begin would open level 2,001.
    Deep(usize),
    Memory,
}

impl From<Refusal> for Fault {
    ghost use Rattle.proof_grammar.specs.Faults.{fault_of};
    ghost use Rattle.std.specs.Prelude.{◌≡◌};

    ghost from_gives = { λ refusal fault. fault ≡ fault_of refusal };

    fn from(refusal: Refusal) -> Fault {
        match refusal {
            Refusal::Syntax(left) => Fault::Syntax(left),
            Refusal::Memory => Fault::Memory,
        }
    }
}

impl From<AllocError> for Fault {
    ghost use Rattle.proof_grammar.specs.declared.text.Fault.TheVariants as f;
    ghost use Rattle.std.specs.Prelude.{◌≡◌};

    ghost from_gives = { λ _ fault. fault ≡ f.Memory };

    fn from(_error: AllocError) -> Fault {
        Fault::Memory
    }
}

impl From<Memory> for Fault {
    ghost use Rattle.proof_grammar.specs.declared.text.Fault.TheVariants as f;
    ghost use Rattle.std.specs.Prelude.{◌≡◌};

    ghost from_gives = { λ _ fault. fault ≡ f.Memory };

    fn from(_error: Memory) -> Fault {
        Fault::Memory
    }
}

/// The line that begins a node on this level, however many parts the text has.
fn node_line(text: &[u8], level: u32) -> Result<(TextLine, &[u8]), Fault>
    ensures found { (parts : ℕ) → IfOk result (λ x. Pays Shallow (o.Node level parts) x.0 × Cuts (line_text x.0) text.now x.1.now) }
    ensures first { (parts : ℕ) → IfErr result (RefusesLine (o.Node level parts) text.now) }
{
    if level > BRANCH_LIMIT {
        let (_word, _rest) = row_word(text)?;
        return Err(Fault::Deep(text.len()));
    }
    let ((rule, count), rest) = row(text)?;
    Ok((TextLine::Row(rule, count), rest))
}

/// The line that pays for what is owed, and the text after it.
pub fn line_for(alloc: Global, owed: Owed, text: &[u8]) -> Result<(TextLine, &[u8]), Fault>
    ensures found { IfOk result (λ x. Pays Shallow owed x.0 × Cuts (line_text x.0) text.now x.1.now) }
    ensures first { IfErr result (RefusesLine owed text.now) }
{
    match owed {
        Owed::Head => Ok(head_line(text)?),
        Owed::Parts => Ok(parts_line(text)?),
        Owed::Part => Ok(part_line(alloc, text)?),
        Owed::Charges(_) => Ok(charges_line(text)?),
        Owed::Node(level, _) => node_line(text, level),
        Owed::Log(parts) => Ok(log_line(alloc, text, parts)?),
        Owed::Gives => Ok(gives_line(alloc, text)?),
        Owed::End(parts) => Ok(end_line(alloc, text, parts)?),
    }
}
