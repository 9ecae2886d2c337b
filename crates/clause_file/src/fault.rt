// Why a clause proof is not accepted.

ghost use Rattle.clause_file.specs.Answers.{fault_at, IsPlaced, LeavesWithin};
ghost use Rattle.std.specs.Prelude.{◌≡◌, length};

use clause_checker::Fault;
use linear_term::Memory;
use proof_tokens::Refusal;

/// Why the clause proof in a file is not accepted. A line is one of the proof's text, counted from 1: `princess-proof 3` is
/// line 1, and the first line after `root` is line 6.
#[derive(Clone, Copy)]
pub enum ClauseFault {
    /// The token that begins there cannot stand there; at the file's end, a token is missing. The place is counted in bytes from
    /// the start of the file.
    Syntax(u64),
    /// The line makes nothing: line 4 has not one value for each existential constant, the literal of line 5 cannot stand for the
    /// root, a later line adds nothing, or no line is left and the last clause is not the empty one.
    Line(u64),
    /// At this line a number leaves the range of coefficients, or there are as many constants as have numbers.
    Range(u64),
    /// The charges that the proof states do not pay for this line; line 3 stands for the preparation.
    Cost(u64),
    Memory,
}

impl From<Memory> for ClauseFault {
    ghost use Rattle.clause_file.specs.declared.fault.ClauseFault.TheVariants as f;
    ghost use Rattle.std.specs.Prelude.{◌≡◌};

    ghost from_gives = { λ _ fault. fault ≡ f.Memory };

    fn from(_error: Memory) -> ClauseFault {
        ClauseFault::Memory
    }
}

/// The fault of a check of one line, as one of the file.
pub(crate) fn at_line(fault: Fault, number: u64) -> ClauseFault
    ensures { result ≡ fault_at number fault }
{
    match fault {
        Fault::Refused => ClauseFault::Line(number),
        Fault::Steps => ClauseFault::Cost(number),
        Fault::Overflow(_) => ClauseFault::Range(number),
        Fault::Room => ClauseFault::Range(number),
        Fault::Memory => ClauseFault::Memory,
    }
}

/// The refusal of a text that ends the file, with its place in the file.
pub(crate) fn in_file(file: &[u8], refusal: Refusal) -> ClauseFault
    requires { LeavesWithin (length file.now) refusal }
    ensures { IsPlaced (length file.now) refusal result }
{
    match refusal {
        Refusal::Syntax(left) => ClauseFault::Syntax((file.len() - left) as u64),
        Refusal::Memory => ClauseFault::Memory,
    }
}
