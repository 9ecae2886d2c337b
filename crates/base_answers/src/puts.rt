// Putting the text of an answer to a sink.

ghost use Rattle.base_answers.specs.Answer.{IsStatus, IsTextStatus};
ghost use Rattle.base_answers.specs.Outside.{Meets, PutsAll, PutsPart};
ghost use Rattle.prover_io.specs.Outside.{Rose};
ghost use Rattle.std.specs.Prelude.{◌≡◌, ◌≢◌, ◌≤◌, ◌⊎◌, OnOk, OnErr};

use crate::status::SINK_FAILED;
use prover_io::{Failed, Sink};

/// Puts all of a text, piece after piece, until the sink fails; then something of the text is not put.
#[tactic(auto, using(crate::proofs::Putting::puts_more))]
pub fn put_all<K: Sink>(sink: &mut K, text: &[u8]) -> Result<(), Failed>
    ensures all { OnOk result (PutsAll (K.taken sink.old) (K.taken sink.new) text.now) }
    ensures part { OnErr result (PutsPart (K.taken sink.old) (K.taken sink.new) text.now) }
    ensures cause { OnErr result (Rose (K.faults sink.old) (K.faults sink.new)) }
    ensures no_fault { OnOk result (K.faults sink.new ≡ K.faults sink.old) }
    ensures later { K.faults sink.old ≤ K.faults sink.new }
{
    let mut rest = text;
    while !rest.is_empty() {
        let count = sink.put(rest)?;
        rest = &rest[count..];
    }
    Ok(())
}

/// Puts the text of an answer, and answers its status, or 7 where the sink fails.
pub fn put_answer<K: Sink>(sink: &mut K, status: u8, text: &[u8]) -> u8
    requires { IsTextStatus status }
    ensures met { Meets (λ answer. answer ≡ record { status = status; text = text.now }) result (K.taken sink.old) (K.taken sink.new) }
    ensures ends { (result ≡ status) ⊎ (result ≡ 7) }
    ensures status { IsStatus result }
    ensures sink_failed { result ≡ 7 → Rose (K.faults sink.old) (K.faults sink.new) }
    ensures no_fault { result ≢ 7 → K.faults sink.new ≡ K.faults sink.old }
{
    match put_all(sink, text) {
        Ok(()) => status,
        Err(_) => SINK_FAILED,
    }
}
