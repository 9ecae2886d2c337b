// Answers of one line.

ghost use Rattle.base_answers.specs.Answer.{answer_of, placed, refused_answer, refused_proof_answer, says_line, unknown_answer};
ghost use Rattle.std.specs.Fmt.{decimal};
ghost use Rattle.std.specs.Prelude.{◌≡◌, ◌++◌, IfOk};

use crate::output::Output;
use crate::status::{FILE_REFUSED, PROOF_REFUSED, UNKNOWN};
use linear_term::Memory;
use std::alloc::Global;

/// An answer with this status and the line of this text.
pub fn say(alloc: Global, status: u8, text: &[u8]) -> Result<Output, Memory>
    ensures { IfOk result (λ output. answer_of output ≡ says_line status text.now) }
{
    labelled(alloc, status, b"", text)
}

/// The answer to a file that is refused, by the name of the refusal.
pub fn refused(alloc: Global, name: &[u8]) -> Result<Output, Memory>
    ensures { IfOk result (λ output. answer_of output ≡ refused_answer name.now) }
{
    labelled(alloc, FILE_REFUSED, b"refused: ", name)
}

/// The answer to a file that is refused at this offset, by the name of the refusal.
pub fn refused_at(alloc: Global, name: &[u8], at: u64) -> Result<Output, Memory>
    ensures { IfOk result (λ output. answer_of output ≡ refused_answer (placed name.now at)) }
{
    let text = placed(alloc, name, at)?;
    refused(alloc, text.as_slice())
}

/// The answer to a proof that is refused with this word and number: `Syntax at` or `Deep at` and a place in the file, or `node`,
/// `range` or `cost` and the number of a node.
pub fn refused_proof(alloc: Global, word: &[u8], number: u64) -> Result<Output, Memory>
    ensures { IfOk result (λ output. answer_of output ≡ refused_proof_answer (word.now ++ decimal number)) }
{
    let digits = number.to_string(alloc)?;
    let mut name = Vec::from_slice(alloc, word)?;
    name.extend_from_slice(digits.as_bytes())?;
    labelled(alloc, PROOF_REFUSED, b"refused proof: ", name.as_slice())
}

/// The answer that is not known, by its cause.
pub fn unknown(alloc: Global, cause: &[u8]) -> Result<Output, Memory>
    ensures { IfOk result (λ output. answer_of output ≡ unknown_answer cause.now) }
{
    labelled(alloc, UNKNOWN, b"UNKNOWN: ", cause)
}

// An answer of one line, a label and what stands after it.
fn labelled(alloc: Global, status: u8, label: &[u8], text: &[u8]) -> Result<Output, Memory>
    ensures { IfOk result (λ output. answer_of output ≡ says_line status (label.now ++ text.now)) }
{
    let mut said = Vec::from_slice(alloc, label)?;
    said.extend_from_slice(text)?;
    said.push(b'\n')?;
    Ok(Output { status, text: said })
}

// A name with the offset of its place.
fn placed(alloc: Global, name: &[u8], at: u64) -> Result<Vec<u8>, Memory>
    ensures { IfOk result (λ text. text.items ≡ placed name.now at) }
{
    let place = at.to_string(alloc)?;
    let mut text = Vec::from_slice(alloc, name)?;
    text.extend_from_slice(b" at ")?;
    text.extend_from_slice(place.as_bytes())?;
    Ok(text)
}
