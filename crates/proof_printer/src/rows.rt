// The lines of a proof without linear terms, written.

ghost use Rattle.proof_tokens.specs.Lines.{counted_text, value_text, values_text};
ghost use Rattle.proof_tokens.specs.Spellings.{spelled};
ghost use Rattle.std.specs.Fmt.{decimal};
ghost use Rattle.std.specs.Prelude.{◌≡◌, ◌∷◌, ◌++◌, [], codes, OnOk};
ghost use Rattle.proof_grammar.specs.Lines.{conclusion_text, row_text};

use linear_term::Memory;
use proof_tokens::{put_number, write_none};
use proof_tree::Conclusion;
use sequent::Pick;
use std::alloc::Global;

/// Writes a word with a position as a line.
#[tactic(auto, using(proof_tokens::proofs::Written::numbered))]
fn write_placed(alloc: Global, word: &[u8], place: u32, out: &mut Vec<u8>) -> Result<(), Memory>
    ensures { OnOk result (out.new.items ≡ out.old.items ++ (word.now ++ (decimal place ++ 10 ∷ []))) }
{
    put_number(alloc, word, u128::from(place), out)?;
    out.extend_from_slice(b"\n")?;
    Ok(())
}

/// Writes the line of a rule with several premises.
#[tactic(auto, using(crate::proofs::Parts::beta_written))]
fn write_beta(alloc: Global, place: u32, count: usize, out: &mut Vec<u8>) -> Result<(), Memory>
    ensures { OnOk result (out.new.items ≡ out.old.items ++ (codes "beta" ++ spelled (counted_text (place, count)))) }
{
    put_number(alloc, b"beta ", u128::from(place), out)?;
    put_number(alloc, b" ", count as u128, out)?;
    out.extend_from_slice(b"\n")?;
    Ok(())
}

/// Writes the line that begins a node.
pub(crate) fn write_row(
    alloc: Global,
    rule: Pick,
    count: usize,
    out: &mut Vec<u8>,
) -> Result<(), Memory>
    ensures { OnOk result (out.new.items ≡ out.old.items ++ spelled (row_text rule count)) }
{
    match rule {
        Pick::Trivial(place) => write_placed(alloc, b"trivial ", place, out),
        Pick::Alpha(place) => write_placed(alloc, b"alpha ", place, out),
        Pick::Delta(place) => write_placed(alloc, b"delta ", place, out),
        Pick::Beta(place) => write_beta(alloc, place, count, out),
        Pick::Gamma(place) => write_placed(alloc, b"gamma ", place, out),
        Pick::Close => {
            out.extend_from_slice(b"close\n")?;
            Ok(())
        }
    }
}

/// Puts an integer after a text.
fn put_value(alloc: Global, value: i128, out: &mut Vec<u8>) -> Result<(), Memory>
    ensures { OnOk result (out.new.items ≡ out.old.items ++ spelled (value_text value)) }
{
    let sign = if value < 0 {
        b"-".as_slice()
    } else {
        b"".as_slice()
    };
    put_number(alloc, sign, value.unsigned_abs(), out)
}

/// Puts integers, each after a blank, and the end of the line after a text.
#[tactic(auto, using(crate::proofs::Parts::value_behind))]
fn put_values(alloc: Global, values: &[i128], out: &mut Vec<u8>) -> Result<(), Memory>
    ensures { OnOk result (out.new.items ≡ out.old.items ++ spelled (values_text values.now)) }
{
    for value in values {
        out.extend_from_slice(b" ")?;
        put_value(alloc, *value, out)?;
    }
    out.extend_from_slice(b"\n")?;
    Ok(())
}

/// Writes the conclusion of a proof.
#[tactic(auto, using(proof_tokens::proofs::Written::behind_word))]
pub(crate) fn write_conclusion(
    alloc: Global,
    conclusion: &Conclusion,
    out: &mut Vec<u8>,
) -> Result<(), Memory>
    ensures { OnOk result (out.new.items ≡ out.old.items ++ spelled (conclusion_text conclusion.now)) }
{
    match conclusion {
        Conclusion::Solution(values) => {
            out.extend_from_slice(b"solution")?;
            put_values(alloc, values.as_slice(), out)
        }
        Conclusion::Nothing(log) => write_none(alloc, log.entries.as_slice(), out),
    }
}
