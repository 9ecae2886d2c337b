// The lines of a proof that speak of no sequent, written.

ghost use Rattle.proof_tokens.specs.Lines.{charges_text, entries_text, head_text, log_text, none_text, part_text, parts_text, use_text};
ghost use Rattle.proof_tokens.specs.Spellings.{entry_spelling, spelled};
ghost use Rattle.proof_tokens.specs.declared.tokens.Token.TheVariants as t;
ghost use Rattle.std.specs.Fmt.{decimal};
ghost use Rattle.std.specs.Prelude.{◌≡◌, ◌∷◌, ◌++◌, OnOk};

use base_budget::Entry;
use linear_term::Memory;
use std::alloc::Global;

/// Puts a label and a number after a text.
pub fn put_number(alloc: Global, label: &[u8], n: u128, out: &mut Vec<u8>) -> Result<(), Memory>
    ensures { OnOk result (out.new.items ≡ out.old.items ++ (label.now ++ decimal n)) }
{
    let digits = n.to_string(alloc)?;
    out.extend_from_slice(label)?;
    out.extend_from_slice(digits.as_bytes())?;
    Ok(())
}

/// Puts an entry after a text.
fn put_entry(alloc: Global, step: Entry, out: &mut Vec<u8>) -> Result<(), Memory>
    ensures { OnOk result (out.new.items ≡ out.old.items ++ entry_spelling step) }
{
    match step {
        Entry::Equation(i) => put_number(alloc, b"e", u128::from(i), out),
        Entry::Apart(i) => put_number(alloc, b"n", u128::from(i), out),
        Entry::Merge(i, j) => {
            put_number(alloc, b"m", u128::from(i), out)?;
            put_number(alloc, b",", u128::from(j), out)
        }
        Entry::Shift(i) => put_number(alloc, b"s", u128::from(i), out),
        Entry::OneSided => {
            out.extend_from_slice(b"o")?;
            Ok(())
        }
        Entry::Exact => {
            out.extend_from_slice(b"x")?;
            Ok(())
        }
        Entry::Dark => {
            out.extend_from_slice(b"d")?;
            Ok(())
        }
    }
}

/// Puts entries, each after a blank, and the end of the line after a text.
pub fn put_entries(alloc: Global, entries: &[Entry], out: &mut Vec<u8>) -> Result<(), Memory>
    ensures { OnOk result (out.new.items ≡ out.old.items ++ spelled (entries_text entries.now)) }
{
    for step in entries {
        out.extend_from_slice(b" ")?;
        put_entry(alloc, *step, out)?;
    }
    out.extend_from_slice(b"\n")?;
    Ok(())
}

/// Writes the line `log` with these entries.
#[tactic(auto, using(crate::proofs::Written::behind_word))]
pub fn write_log(alloc: Global, entries: &[Entry], out: &mut Vec<u8>) -> Result<(), Memory>
    ensures { OnOk result (out.new.items ≡ out.old.items ++ spelled (log_text entries.now)) }
{
    out.extend_from_slice(b"log")?;
    put_entries(alloc, entries, out)
}

/// Writes the line `none` with these entries.
#[tactic(auto, using(crate::proofs::Written::behind_word))]
pub fn write_none(alloc: Global, entries: &[Entry], out: &mut Vec<u8>) -> Result<(), Memory>
    ensures { OnOk result (out.new.items ≡ out.old.items ++ spelled (none_text entries.now)) }
{
    out.extend_from_slice(b"none")?;
    put_entries(alloc, entries, out)
}

/// Writes the line `log` that uses this part.
#[tactic(auto, using(crate::proofs::Written::numbered))]
pub fn write_log_use(alloc: Global, part: u32, out: &mut Vec<u8>) -> Result<(), Memory>
    ensures { OnOk result (out.new.items ≡ out.old.items ++ spelled (t.Log ∷ use_text part)) }
{
    put_number(alloc, b"log u", u128::from(part), out)?;
    out.extend_from_slice(b"\n")?;
    Ok(())
}

/// Writes the line `none` that uses this part.
#[tactic(auto, using(crate::proofs::Written::numbered))]
pub fn write_none_use(alloc: Global, part: u32, out: &mut Vec<u8>) -> Result<(), Memory>
    ensures { OnOk result (out.new.items ≡ out.old.items ++ spelled (t.Nothing ∷ use_text part)) }
{
    put_number(alloc, b"none u", u128::from(part), out)?;
    out.extend_from_slice(b"\n")?;
    Ok(())
}

/// Writes the line `parts`.
#[tactic(auto, using(crate::proofs::Written::numbered))]
pub fn write_parts(alloc: Global, count: u32, out: &mut Vec<u8>) -> Result<(), Memory>
    ensures { OnOk result (out.new.items ≡ out.old.items ++ spelled (parts_text count)) }
{
    put_number(alloc, b"parts ", u128::from(count), out)?;
    out.extend_from_slice(b"\n")?;
    Ok(())
}

/// Writes the line `charges`.
#[tactic(auto, using(crate::proofs::Written::numbered))]
pub fn write_charges(alloc: Global, n: u128, out: &mut Vec<u8>) -> Result<(), Memory>
    ensures { OnOk result (out.new.items ≡ out.old.items ++ spelled (charges_text n)) }
{
    put_number(alloc, b"charges ", n, out)?;
    out.extend_from_slice(b"\n")?;
    Ok(())
}

/// Writes the first line of a proof.
#[tactic(auto, using(crate::proofs::Written::numbered))]
pub fn write_head(alloc: Global, format: u128, out: &mut Vec<u8>) -> Result<(), Memory>
    ensures { OnOk result (out.new.items ≡ out.old.items ++ spelled (head_text format)) }
{
    put_number(alloc, b"princess-proof ", format, out)?;
    out.extend_from_slice(b"\n")?;
    Ok(())
}
