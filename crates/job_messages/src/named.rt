// The named assertions of a script, and the same script without one of them.

use linear_term::Memory;
use message_lines::Script;
use std::alloc::Global;

/// An assertion with a name, `(assert (! t :named n))`, by offsets in its script.
#[derive(Clone, Copy, Debug, PartialEq, Eq)]
pub struct NamedAssertion {
    /// Where the name stands.
    pub name: usize,
    /// Where the command begins.
    from: usize,
    /// Where it ends.
    to: usize,
    /// How many checks stand before it.
    checks: usize,
}

/// The named assertions of the script with these bytes, in their order, up to the command `exit`.
pub fn named_assertions(alloc: Global, text: &[u8]) -> Result<Vec<NamedAssertion>, Memory> {
    let lexemes = smt_tokens::lexemes(alloc, text)?;
    let script = Script {
        bytes: text,
        lexemes: lexemes.as_slice(),
    };
    let mut found = Vec::new(alloc);
    let mut checks: usize = 0;
    let mut depth: usize = 0;
    for k in 0..script.len() {
        if script.closes(k) {
            depth = depth.saturating_sub(1);
        } else if script.opens(k) {
            if depth == 0 {
                match script.text_behind(k, 1) {
                    b"exit" => break,
                    b"check-sat" | b"check-sat-assuming" => checks = checks.saturating_add(1),
                    b"assert" => {
                        if let Some(assertion) = named_assertion(&script, k, checks) {
                            found.push(assertion)?;
                        }
                    }
                    _ => {}
                }
            }
            depth = depth.saturating_add(1);
        }
    }
    Ok(found)
}

/// The assertion that token k begins, after this many checks, if it has a name.
fn named_assertion(script: &Script, k: usize, checks: usize) -> Option<NamedAssertion> {
    let term = script.member(k, 1)?;
    if !script.opens(term.from) || script.member_text(term.from, 0) != b"!".as_slice() {
        return None;
    }
    for number in 2..script.count(term.from) {
        if script.member_text(term.from, number) == b":named".as_slice() {
            let name = script.member(term.from, number.saturating_add(1))?;
            return Some(NamedAssertion {
                name: script.offset(name.from),
                from: script.offset(k),
                to: script.offset(term.to).saturating_add(1),
                checks,
            });
        }
    }
    None
}

/// A script with blanks in place of one of its assertions.
pub fn without(alloc: Global, text: &[u8], assertion: &NamedAssertion) -> Result<Vec<u8>, Memory> {
    let mut blank = Vec::from_slice(alloc, text)?;
    for i in assertion.from..assertion.to {
        if let Some(byte) = blank.get_mut(i)
            && *byte != b'\n'
        {
            *byte = b' ';
        }
    }
    Ok(blank)
}

/// Whether the checks of a script with these lines of an answer do not need one of its assertions, where the script without it has these
/// other lines: a check after the assertion is unsat, and each that is unsat still is.
pub fn is_unused(answer: &[u8], other: &[u8], assertion: &NamedAssertion) -> bool {
    let mut is_asked = false;
    let mut others = other.split(|byte| *byte == b'\n');
    for (number, line) in answer.split(|byte| *byte == b'\n').enumerate() {
        let other = others.next().unwrap_or(b"");
        if line == b"unsat".as_slice() {
            if other != line {
                return false;
            }
            is_asked = is_asked || number >= assertion.checks;
        }
    }
    is_asked
}
