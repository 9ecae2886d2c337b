// Whether bytes are the text of a proof.

ghost use Rattle.proof_tokens.specs.Lines.{log_text};
ghost use Rattle.proof_tokens.specs.Reading.{Cuts};
ghost use Rattle.std.specs.Prelude.{◌≡◌, [], length, IfErr, IfNone, IfOk, IfSome, OnErr, OnOk};
ghost use Rattle.proof_grammar.specs.Faults.{RefusesLine};
ghost use Rattle.proof_grammar.specs.declared.text.Fault.TheVariants as f;
ghost use Rattle.proof_grammar.specs.Refusals.{HoldsSome, RefusesText};
ghost use Rattle.proof_grammar.specs.Stands.{IsOpened};
ghost use Rattle.proof_grammar.specs.Walks.{Advanced};

use crate::lines::{Owed, TextLine};
use crate::openings::{Opening, read_opening};
use crate::rows::row;
use crate::text::{Fault, line_for};
use crate::walk::Walk;
use base_limits::BRANCH_LIMIT;
use linear_term::Memory;
use proof_constraint::given_true;
use proof_tokens::{behind_bytes, next};
use std::alloc::Global;

/// A line that is not wanted any longer.
pub(crate) fn discard(line: TextLine) {
    let _ = &line;
}

/// Pays with the line `gives true`, where that is owed first and comes, and gives the text after it. Elsewhere nothing changes.
fn pass_true<'a>(walk: &mut Walk, owed: Owed, text: &'a [u8]) -> Option<&'a [u8]>
    ensures some { IfSome result (λ behind. Advanced walk.old walk.new owed text.now behind.now) }
    ensures none { IfNone result (walk.new ≡ walk.old) }
{
    let Owed::Gives = owed else {
        return None;
    };
    let behind = given_true(text)?;
    walk.leave();
    Some(behind)
}

/// The text after the line `log` with no entry; none where another line comes.
fn bare_log(text: &[u8]) -> Option<&[u8]>
    ensures { IfSome result (λ rest. Cuts (log_text []) text.now rest.now) }
{
    let rest = behind_bytes(text, b"log\n".as_slice())?;
    Some(rest)
}

/// Pays with the line `log` with no entry, where a log is owed first and that line comes, and gives the text after it. Elsewhere
/// nothing changes.
fn pass_log<'a>(walk: &mut Walk, owed: Owed, text: &'a [u8]) -> Option<&'a [u8]>
    ensures some { IfSome result (λ behind. Advanced walk.old walk.new owed text.now behind.now) }
    ensures none { IfNone result (walk.new ≡ walk.old) }
{
    let Owed::Log(_) = owed else {
        return None;
    };
    let behind = bare_log(text)?;
    walk.note();
    Some(behind)
}

/// Pays with the line of a rule, where a node is owed first on a level that there may be and that line comes, and gives the text
/// after it. Elsewhere nothing changes, nor at running out of memory.
fn pass_row<'a>(walk: &mut Walk, owed: Owed, text: &'a [u8]) -> Result<Option<&'a [u8]>, Memory>
    ensures some { IfOk result (λ r. IfSome r (λ behind. Advanced walk.old walk.new owed text.now behind.now)) }
    ensures none { IfOk result (λ r. IfNone r (walk.new ≡ walk.old)) }
    ensures unchanged { OnErr result (walk.new ≡ walk.old) }
{
    let Owed::Node(level, _) = owed else {
        return Ok(None);
    };
    if level > BRANCH_LIMIT {
        return Ok(None);
    }
    let Ok(((rule, count), behind)) = row(text) else {
        return Ok(None);
    };
    walk.enter(level, rule, count)?;
    Ok(Some(behind))
}

/// Reads the line that is owed first, and pays with it. Where none is read, nothing changes.
fn advance<'a>(
    alloc: Global,
    walk: &mut Walk,
    owed: Owed,
    text: &'a [u8],
) -> Result<&'a [u8], Fault>
    ensures ok { IfOk result (λ behind. Advanced walk.old walk.new owed text.now behind.now) }
    ensures err { IfErr result (RefusesLine owed text.now) }
    ensures unchanged { OnErr result (walk.new ≡ walk.old) }
{
    if let Some(behind) = pass_true(walk, owed, text) {
        return Ok(behind);
    }
    if let Some(behind) = pass_log(walk, owed, text) {
        return Ok(behind);
    }
    if let Some(behind) = pass_row(walk, owed, text)? {
        return Ok(behind);
    }
    advance_by_line(alloc, walk, owed, text)
}

/// Reads the line that is owed first as a line, and pays with it. Where none is read, nothing changes.
fn advance_by_line<'a>(
    alloc: Global,
    walk: &mut Walk,
    owed: Owed,
    text: &'a [u8],
) -> Result<&'a [u8], Fault>
    ensures ok { IfOk result (λ behind. Advanced walk.old walk.new owed text.now behind.now) }
    ensures err { IfErr result (RefusesLine owed text.now) }
    ensures unchanged { OnErr result (walk.new ≡ walk.old) }
{
    let (line, behind) = line_for(alloc, owed, text)?;
    let paid = walk.pay(owed, &line);
    discard(line);
    paid?;
    Ok(behind)
}

/// Refuses any byte after a text.
fn ended(rest: &[u8]) -> Result<(), Fault>
    ensures ok { OnOk result (rest.now ≡ []) }
    ensures err { IfErr result (λ fault. (fault ≡ f.Syntax (length rest.now)) × (rest.now ≡ [] → ⊥)) }
{
    let Some((_token, _behind)) = next(rest) else {
        return Ok(());
    };
    Err(Fault::Syntax(rest.len()))
}

/// Reads the lines after the opening, to the end of the text.
fn check_lines(alloc: Global, text: &[u8], inner: &[u8], opening: &Opening) -> Result<(), Fault>
    requires { IsOpened opening.now.parts opening.now.charges text.now inner.now }
    ensures found { OnOk result (HoldsSome text.now opening.now.charges) }
    ensures refused { IfErr result (RefusesText text.now) }
{
    let _ = text;
    let mut walk = Walk::new(alloc, opening.parts.len());
    let mut rest = inner;
    'lines: loop {
        let Some(owed) = walk.owed() else {
            return ended(rest);
        };
        let behind = advance(alloc, &mut walk, owed, rest)?;
        rest = behind;
    }
}

/// Reads the text of a proof: its opening, and the text after it.
pub fn check_text(alloc: Global, text: &[u8]) -> Result<(Opening, &[u8]), Fault>
    ensures found { IfOk result (λ x. HoldsSome text.now x.0.charges) }
    ensures opened { IfOk result (λ x. IsOpened x.0.parts x.0.charges text.now x.1.now) }
    ensures refused { IfErr result (RefusesText text.now) }
{
    let (opening, inner) = read_opening(alloc, text)?;
    check_lines(alloc, text, inner, &opening)?;
    Ok((opening, inner))
}
