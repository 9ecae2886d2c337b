// How it is told that a file is refused.

ghost use Rattle.pri_problem.specs.Faults.{IsTold};
ghost use Rattle.std.specs.Prelude.{IfOk};

use crate::fault::FileFault;
use base_answers::{Output, refused_at};
use linear_term::Memory;
use pri_reader::ReadRefusal;
use pri_typing::TypeRefusal;
use std::alloc::Global;

/// The answer that tells why a file is refused, with the name and the offset; where memory runs out there is none.
pub fn refuse(alloc: Global, fault: FileFault) -> Result<Output, Memory>
    ensures { IfOk result (IsTold fault) }
{
    let (name, at) = match fault {
        FileFault::Reading(ReadRefusal::Syntax(at)) => (b"Syntax".as_slice(), at),
        FileFault::Reading(ReadRefusal::Literal(at)) => (b"Literal".as_slice(), at),
        FileFault::Reading(ReadRefusal::Deep(at)) => (b"Deep".as_slice(), at),
        FileFault::Typing(TypeRefusal::Undeclared(at)) => (b"Undeclared".as_slice(), at),
        FileFault::Typing(TypeRefusal::Redeclared(at)) => (b"Redeclared".as_slice(), at),
        FileFault::Typing(TypeRefusal::Arity(at)) => (b"Arity".as_slice(), at),
        FileFault::Typing(TypeRefusal::Kind(at)) => (b"Kind".as_slice(), at),
        FileFault::Typing(TypeRefusal::NonLinear(at)) => (b"NonLinear".as_slice(), at),
        FileFault::Typing(TypeRefusal::Parts(at)) => (b"Parts".as_slice(), at),
        FileFault::Typing(TypeRefusal::Many(at)) => (b"Many".as_slice(), at),
        FileFault::Reading(ReadRefusal::Memory) => return Err(Memory),
        FileFault::Typing(TypeRefusal::Memory) => return Err(Memory),
    };
    refused_at(alloc, name, at)
}
