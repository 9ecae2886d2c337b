// Texts for the tests of other crates: a proof, and deep ones.
#![tactic(auto)]

use std::alloc::{AllocError, Global};

/// A proof of 91 bytes: that predicate 0 fails at 3, or holds at a constant, which is 3.
pub const PROOF: &str =
    "princess-proof 1\ncharges 18\nalpha 0\nclose\nlog\ngives c0 - 3 = 0\ngives c0 - 3 = 0\nsolution 3\n";

/// A proof that may charge so much, of these lines.
pub fn proof(alloc: Global, charges: &str, lines: &str) -> Result<String, AllocError> {
    let mut text = String::from_str(alloc, "princess-proof 1\ncharges ")?;
    for part in [charges, "\n", lines] {
        text.push_str(part)?;
    }
    Ok(text)
}

/// The lines of a proof of three levels and more, with a use of a quantifier at each level above the last two. Each node but the
/// root gives this, and the lines of the root's log and of what it gives stand last.
pub fn deep(alloc: Global, more: u32, gives: &str, last: &str) -> Result<String, AllocError> {
    let mut lines = String::new(alloc);
    for position in 0..=more {
        lines.push_str("gamma ")?;
        lines.push_str(position.to_string(alloc)?.as_str())?;
        lines.push('\n')?;
    }
    for part in [
        "alpha 0\nclose\nlog\ngives ",
        gives,
        "\ngives ",
        gives,
        "\n",
    ] {
        lines.push_str(part)?;
    }
    for _ in 0..more {
        for part in ["log\ngives ", gives, "\n"] {
            lines.push_str(part)?;
        }
    }
    for part in [last, "solution\n"] {
        lines.push_str(part)?;
    }
    Ok(lines)
}
