// How it is told that a script is refused.

ghost use Rattle.base_answers.specs.Answer.{answer_of, refused_answer};
ghost use Rattle.smt_commands.specs.declared.refusal.ScriptRefusal.{ScriptRefusal};
ghost use Rattle.job_smt.specs.Answered.{refusal_name};
ghost use Rattle.std.specs.Prelude.{◌≡◌, ◌≢◌, IfOk};

use base_answers::{Output, refused, refused_at};
use linear_term::Memory;
use smt_commands::ScriptRefusal;
use std::alloc::Global;

/// The answer that tells why a script is refused, with the name and the offset; where memory runs out there is none.
pub(crate) fn refuse(alloc: Global, refusal: ScriptRefusal) -> Result<Output, Memory>
    ensures told { IfOk result (λ output. answer_of output ≡ refused_answer (refusal_name refusal)) }
    ensures known { IfOk result (λ _. refusal ≢ ScriptRefusal.Memory) }
{
    let (name, at) = match refusal {
        ScriptRefusal::Syntax(at) => (b"Syntax".as_slice(), at),
        ScriptRefusal::Literal(at) => (b"Literal".as_slice(), at),
        ScriptRefusal::Deep(at) => (b"Deep".as_slice(), at),
        ScriptRefusal::Undeclared(at) => (b"Undeclared".as_slice(), at),
        ScriptRefusal::Redeclared(at) => (b"Redeclared".as_slice(), at),
        ScriptRefusal::Arity(at) => (b"Arity".as_slice(), at),
        ScriptRefusal::Kind(at) => (b"Kind".as_slice(), at),
        ScriptRefusal::NonLinear(at) => (b"NonLinear".as_slice(), at),
        ScriptRefusal::Many(at) => (b"Many".as_slice(), at),
        ScriptRefusal::Profile(at) => (b"Profile".as_slice(), at),
        ScriptRefusal::Large => return refused(alloc, b"Large"),
        ScriptRefusal::Memory => return Err(Memory),
    };
    refused_at(alloc, name, at)
}
