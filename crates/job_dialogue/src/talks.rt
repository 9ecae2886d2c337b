// What is read of an input is heard byte by byte: a piece is answered as soon as its last byte is there.

ghost use Rattle.base_limits.specs.Limits.{most_budget};
ghost use Rattle.job_dialogue.specs.Views.{held_of};
ghost use Rattle.job_dialogue.specs.Talks.{BreaksOff, Hears, HearsFront, IsHeard, TellsPart, TellsPiece};
ghost use Rattle.job_dialogue.specs.declared.stops.Stop.{Stop};
ghost use Rattle.prover_io.specs.Outside.{Rose};
ghost use Rattle.std.specs.Prelude.{ℕ, ◌≡◌, ◌≤◌, ◌∷◌, [], IfErr, IfOk, IsErrOf, false};

use crate::dialogue::{Dialogue, Reply};
use crate::pieces::{Scan, ends_piece, first_scan, scan_on};
use crate::stops::Stop;
use base_answers::put_all;
use base_watch::Watch;
use prover_io::Sink;
use std::alloc::Global;

/// A dialogue in the middle of an input: what is held, and what is read of the next piece.
#[derive(Drop)]
pub struct Talk {
    pub(crate) dialogue: Dialogue,
    pub(crate) rest: Vec<u8>,
    pub(crate) scan: Scan,
}

/// A dialogue before its input.
pub(crate) fn first_talk(alloc: Global) -> Talk
    ensures heard { (budget : ℕ) → IsHeard budget [] result [] }
    ensures goes_on { result.dialogue.ended ≡ false }
{
    Talk {
        dialogue: Dialogue::new(alloc),
        rest: Vec::new(alloc),
        scan: first_scan(),
    }
}

/// Hears these bytes of the input, or those up to an `exit`.

pub(crate) fn hear<K: Sink, X: Watch>(
    alloc: Global,
    talk: Talk,
    bytes: &[u8],
    sink: &mut K,
    budget: u64,
    watch: &mut X,
) -> Result<Talk, Stop>
    requires budget { budget ≤ most_budget }
    requires goes_on { talk.dialogue.ended ≡ false }
    ensures breaks { IfErr result (λ e. BreaksOff budget talk bytes.now e (K.taken sink.old) (K.taken sink.new)) }
    ensures heard { IfOk result (λ new. HearsFront budget talk new bytes.now (K.taken sink.old) (K.taken sink.new)) }
    ensures sink_failed { IsErrOf result Stop.Sink → Rose (K.faults sink.old) (K.faults sink.new) }
    ensures later { K.faults sink.old ≤ K.faults sink.new }
    ensures source { ¬ (IsErrOf result Stop.Source) }
{
    let mut talk = talk;
    let mut rest = bytes;
    while let Some((byte, behind)) = rest.split_first() {
        match hear_byte(alloc, talk, *byte, sink, budget, watch) {
            Ok(next) => talk = next,
            Err(stop) => return Err(stop),
        }
        rest = behind;
        if talk.dialogue.ended {
            return Ok(talk);
        }
    }
    Ok(talk)
}

/// Hears a byte of the input.
fn hear_byte<K: Sink, X: Watch>(
    alloc: Global,
    talk: Talk,
    byte: u8,
    sink: &mut K,
    budget: u64,
    watch: &mut X,
) -> Result<Talk, Stop>
    requires budget { budget ≤ most_budget }
    requires goes_on { talk.dialogue.ended ≡ false }
    ensures breaks { IfErr result (λ e. BreaksOff budget talk (byte ∷ []) e (K.taken sink.old) (K.taken sink.new)) }
    ensures heard { IfOk result (λ new. Hears budget talk new (byte ∷ []) (K.taken sink.old) (K.taken sink.new)) }
    ensures sink_failed { IsErrOf result Stop.Sink → Rose (K.faults sink.old) (K.faults sink.new) }
    ensures later { K.faults sink.old ≤ K.faults sink.new }
    ensures source { ¬ (IsErrOf result Stop.Source) }
{
    let Talk {
        dialogue,
        mut rest,
        scan,
    } = talk;
    let Ok(next) = scan_on(scan, byte) else {
        return Err(Stop::Memory);
    };
    let Ok(()) = rest.push(byte) else {
        return Err(Stop::Memory);
    };
    if !ends_piece(scan, byte) {
        return Ok(Talk {
            dialogue,
            rest,
            scan: next,
        });
    }
    match tell(alloc, dialogue, rest.as_slice(), sink, budget, watch) {
        Ok(dialogue) => Ok(Talk {
            dialogue,
            rest: Vec::new(alloc),
            scan: next,
        }),
        Err(stop) => Err(stop),
    }
}

/// Answers a piece, and puts the answer.
pub(crate) fn tell<K: Sink, X: Watch>(
    alloc: Global,
    dialogue: Dialogue,
    piece: &[u8],
    sink: &mut K,
    budget: u64,
    watch: &mut X,
) -> Result<Dialogue, Stop>
    requires { budget ≤ most_budget }
    ensures part { IsErrOf result Stop.Sink → TellsPart budget (held_of dialogue) piece.now (K.taken sink.old) (K.taken sink.new) }
    ensures silent { IsErrOf result Stop.Memory → K.taken sink.new ≡ K.taken sink.old }
    ensures told { IfOk result (λ next. TellsPiece budget (held_of dialogue) piece.now (held_of next) (K.taken sink.old) (K.taken sink.new)) }
    ensures sink_failed { IsErrOf result Stop.Sink → Rose (K.faults sink.old) (K.faults sink.new) }
    ensures later { K.faults sink.old ≤ K.faults sink.new }
    ensures source { ¬ (IsErrOf result Stop.Source) }
{
    let Reply { dialogue, text } = dialogue.answer(alloc, piece, budget, watch)?;
    let Ok(()) = put_all(sink, text.as_slice()) else {
        return Err(Stop::Sink);
    };
    Ok(dialogue)
}
