// The text of a clause proof: the first lines, and those of the proof.

use cdcl_steps::Proof;
use clause_proof::Literal;
use clause_text::print_line;
use clause_words::{put_integer, put_number};
use linear_term::Memory;
use std::alloc::Global;

/// Puts the first lines: the format, the charges, the steps of the preparation, the values, and the literal of the root.
fn put_head(
    alloc: Global,
    charges: u32,
    steps: u32,
    values: &[i128],
    root: Literal,
    out: &mut Vec<u8>,
) -> Result<(), Memory> {
    out.extend_from_slice(b"princess-proof 3\ncharges ")?;
    put_number(alloc, charges, out)?;
    out.extend_from_slice(b"\nprepared ")?;
    put_number(alloc, steps, out)?;
    out.extend_from_slice(b"\nvalues")?;
    for k in values {
        out.push(b' ')?;
        put_integer(alloc, *k, out)?;
    }
    out.extend_from_slice(b"\nroot ")?;
    out.push(if root.positive { b'+' } else { b'-' })?;
    put_number(alloc, root.variable, out)?;
    out.push(b'\n')?;
    Ok(())
}

/// The text of a proof whose check charges `charges` steps, for a root that was prepared with `steps` steps, at these integers for its
/// names.
pub(crate) fn text_of(
    alloc: Global,
    charges: u32,
    steps: u32,
    values: &[i128],
    proof: &Proof,
) -> Result<Vec<u8>, Memory> {
    let mut text = Vec::new(alloc);
    put_head(alloc, charges, steps, values, proof.root, &mut text)?;
    for line in proof.lines.as_slice() {
        print_line(alloc, line, &mut text)?;
    }
    Ok(text)
}
