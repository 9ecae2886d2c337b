// The encoding of a problem that was read.

ghost use Rattle.pri_problem.specs.Encoded.{IsEncoded, IsToldUnencoded, RefusesEncoding};
ghost use Rattle.pri_typing.specs.WellFormed.{IsWellFormed};
ghost use Rattle.std.specs.Prelude.{IfOk, IfErr};

use base_answers::{Output, refused, unknown};
use function_encoding::{EncodeRefusal, Encoded, encode};
use linear_term::Memory;
use pri_typing::Problem;
use std::alloc::Global;

/// The problem as one formula of the calculus: too large exactly where that is, then leaving the range exactly where a number
/// of it does.
pub fn encode_problem(alloc: Global, p: &Problem) -> Result<Encoded, EncodeRefusal>
    requires { IsWellFormed p.now }
    ensures encoded { IfOk result (IsEncoded p.now) }
    ensures refused { IfErr result (RefusesEncoding p.now) }
{
    encode(alloc, p)
}

/// The answer that tells why a problem has no encoding; where memory runs out there is none.
pub fn refuse_encoding(alloc: Global, refusal: EncodeRefusal) -> Result<Output, Memory>
    ensures { IfOk result (IsToldUnencoded refusal) }
{
    match refusal {
        EncodeRefusal::Large => refused(alloc, b"Large"),
        EncodeRefusal::Overflow(_) => unknown(alloc, b"overflow"),
        EncodeRefusal::Memory => Err(Memory),
    }
}
