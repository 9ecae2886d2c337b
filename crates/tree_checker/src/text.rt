// The check of the proof in a file, line by line.

ghost use Rattle.formula.specs.Tree.{form};
ghost use Rattle.base_limits.specs.Limits.{most_budget};
ghost use Rattle.formula.specs.Searchable.{IsSearchable};
ghost use Rattle.proof_file.specs.Body.{body};
ghost use Rattle.proof_file.specs.Coming.{HoldsAll};
ghost use Rattle.std.specs.Prelude.{◌≡◌, ◌≤◌, List, ℕ};
ghost use Rattle.tree_checker.specs.Texts.{ChecksText, refused_as, told_as};

use crate::checking::{CheckFault, Checked, check_lines};
use formula::Core;
use linear_term::Place;
use proof_file::{Lines, ProofRefusal};
use std::alloc::Global;

/// Why the proof in a file is not accepted: the place in the file where no proof goes on, or where a node stands too deep; or the
/// number of the node at the first fault of the check.
#[derive(Clone, Copy)]
pub enum TextFault {
    Syntax(u64),
    Deep(u64),
    Node(u64),
    Range(u64, Place),
    Cost(u64),
    Memory,
}

/// Checks the proof in a file, of a formula over this many constants, in memory that grows with the open branch and not with the
/// proof. The whole text is read once before its first line is checked.
pub fn check_text(
    alloc: Global,
    root: &Core,
    constants: u32,
    bytes: &[u8],
) -> Result<Checked, TextFault>
    requires { IsSearchable (form root.now) constants }
    ensures { ChecksText (form root.now) constants bytes.now result }
{
    match Lines::new(alloc, bytes) {
        Ok(mut lines) => check_held(alloc, root, constants, &mut lines),
        Err(refusal) => Err(refused(refusal)),
    }
}

/// Checks the proof whose lines come.
fn check_held(
    alloc: Global,
    root: &Core,
    constants: u32,
    lines: &mut Lines<'_>,
) -> Result<Checked, TextFault>
    requires searchable { IsSearchable (form root.now) constants }
    requires charges { lines.old.charges ≤ most_budget }
    ensures { (bytes : List ℕ) → HoldsAll (body bytes) lines.old.charges lines.old.parts lines.old.walk lines.old.rest.now → ChecksText (form root.now) constants bytes result }
{
    let charges = lines.charges();
    told(check_lines(alloc, root, constants, charges, lines))
}

/// The answer of a check, as one of a file.
fn told(answer: Result<Checked, CheckFault>) -> Result<Checked, TextFault>
    ensures { result ≡ told_as answer }
{
    match answer {
        Ok(checked) => Ok(checked),
        Err(CheckFault::Node(n)) => Err(TextFault::Node(n)),
        Err(CheckFault::Range(n, place)) => Err(TextFault::Range(n, place)),
        Err(CheckFault::Cost(n)) => Err(TextFault::Cost(n)),
        Err(CheckFault::Memory) => Err(TextFault::Memory),
    }
}

/// The refusal of a text, as an answer to a file.
fn refused(refusal: ProofRefusal) -> TextFault
    ensures { result ≡ refused_as refusal }
{
    match refusal {
        ProofRefusal::Syntax(at) => TextFault::Syntax(at),
        ProofRefusal::Deep(at) => TextFault::Deep(at),
        ProofRefusal::Memory => TextFault::Memory,
    }
}
