// The dialogue from a source to a sink: what comes is read as it comes, and each answer is put at once.

ghost use Rattle.base_limits.specs.Limits.{most_budget};
ghost use Rattle.job_dialogue.specs.Talks.{BreaksIn, BreaksLast, Finishes, IsAnswered, IsAnsweredUpTo, Listens, status_of};
ghost use Rattle.job_dialogue.specs.declared.stops.Stop.{Stop};
ghost use Rattle.prover_io.specs.Outside.{Rose};
ghost use Rattle.std.specs.Prelude.{◌≡◌, ◌≢◌, ◌⊎◌, ◌≤◌, ◌<◌, IfErr, IfOk, IsErrOf, IsSome, OnOk, false, length, true};

use crate::pieces::has_token;
use crate::stops::Stop;
use crate::talks::{Talk, first_talk, hear, tell};
use base_answers::status::{NO_MEMORY, SINK_FAILED, SOURCE_FAILED, VALID};
use base_watch::Watch;
use prover_io::{Sink, Source};
use std::alloc::Global;

/// How many bytes are read at once, at most.
const PIECE: usize = 65_536;

/// What comes of a read: the dialogue after it, and whether the input is at its end.
#[derive(Drop)]
struct Heard {
    talk: Talk,
    at_end: bool,
}

/// Holds the dialogue over what is left of the input that is begun, each check within this budget: each command is answered as soon as it
/// is read, until the input ends or an `exit` comes. Answers the exit status: 0; 6, 7 or 8 where the source failed, the sink failed, or
/// memory was wanting.
pub fn converse<S: Source, K: Sink, X: Watch>(
    alloc: Global,
    source: &mut S,
    sink: &mut K,
    budget: u64,
    watch: &mut X,
) -> u8
    requires begun { IsSome (S.at source.old) }
    requires unbroken { S.broken source.old ≡ false }
    requires budget { budget ≤ most_budget }
    ensures answered { result ≡ 0 → IsAnswered budget (S.left source.old) (K.taken sink.old) (K.taken sink.new) }
    ensures front { (e : Stop) → result ≡ status_of e → IsAnsweredUpTo budget e (S.left source.old) (K.taken sink.old) (K.taken sink.new) }
    ensures status { (result ≡ 0) ⊎ ((result ≡ 6) ⊎ ((result ≡ 7) ⊎ (result ≡ 8))) }
    ensures source_failed { result ≡ 6 → Rose (S.faults source.old) (S.faults source.new) }
    ensures sink_failed { result ≡ 7 → Rose (K.faults sink.old) (K.faults sink.new) }
{
    match talk_on(alloc, source, sink, budget, watch) {
        Ok(()) => VALID,
        Err(Stop::Source) => SOURCE_FAILED,
        Err(Stop::Sink) => SINK_FAILED,
        Err(Stop::Memory) => NO_MEMORY,
    }
}

/// Holds the dialogue over what is left of the input.
fn talk_on<S: Source, K: Sink, X: Watch>(
    alloc: Global,
    source: &mut S,
    sink: &mut K,
    budget: u64,
    watch: &mut X,
) -> Result<(), Stop>
    requires begun { IsSome (S.at source.old) }
    requires unbroken { S.broken source.old ≡ false }
    requires budget { budget ≤ most_budget }
    ensures answered { OnOk result (IsAnswered budget (S.left source.old) (K.taken sink.old) (K.taken sink.new)) }
    ensures breaks { IfErr result (λ e. IsAnsweredUpTo budget e (S.left source.old) (K.taken sink.old) (K.taken sink.new)) }
    ensures source_failed { IsErrOf result Stop.Source → Rose (S.faults source.old) (S.faults source.new) }
    ensures sink_failed { IsErrOf result Stop.Sink → Rose (K.faults sink.old) (K.faults sink.new) }
{
    let Ok(mut buffer) = vec![in alloc; 0u8; PIECE] else {
        return Err(Stop::Memory);
    };
    let mut talk = first_talk(alloc);
    'reads: for _ in 0..u64::MAX {
        let heard = match listen(alloc, talk, source, &mut buffer, sink, budget, watch) {
            Ok(heard) => heard,
            Err(stop) => return Err(stop),
        };
        talk = heard.talk;
        if heard.at_end {
            return finish(alloc, talk, sink, budget, watch);
        }
        if talk.dialogue.ended {
            return Ok(());
        }
    }
    Err(Stop::Memory)
}

/// Reads what comes next, and hears it.
fn listen<S: Source, K: Sink, X: Watch>(
    alloc: Global,
    talk: Talk,
    source: &mut S,
    buffer: &mut [u8],
    sink: &mut K,
    budget: u64,
    watch: &mut X,
) -> Result<Heard, Stop>
    requires begun { IsSome (S.at source.old) }
    requires unbroken { S.broken source.old ≡ false }
    requires room { 0 < length buffer.old }
    requires budget { budget ≤ most_budget }
    requires goes_on { talk.dialogue.ended ≡ false }
    ensures heard { IfOk result (λ r. Listens budget talk r.talk r.at_end (S.left source.old) (S.left source.new) (K.taken sink.old) (K.taken sink.new)) }
    ensures goes_on { IfOk result (λ r. r.at_end ≡ true → r.talk.dialogue.ended ≡ false) }
    ensures breaks { IfErr result (λ e. BreaksIn budget talk e (S.left source.old) (K.taken sink.old) (K.taken sink.new)) }
    ensures named { S.at source.new ≡ S.at source.old }
    ensures unbroken { OnOk result (S.broken source.new ≡ false) }
    ensures source_failed { IsErrOf result Stop.Source → Rose (S.faults source.old) (S.faults source.new) }
    ensures sink_failed { IsErrOf result Stop.Sink → Rose (K.faults sink.old) (K.faults sink.new) }
    ensures source_later { S.faults source.old ≤ S.faults source.new }
    ensures later { K.faults sink.old ≤ K.faults sink.new }
{
    let Ok(count) = source.read(buffer) else {
        return Err(Stop::Source);
    };
    if count == 0 {
        return Ok(Heard { talk, at_end: true });
    }
    match hear(alloc, talk, &buffer[..count], sink, budget, watch) {
        Ok(talk) => Ok(Heard {
            talk,
            at_end: false,
        }),
        Err(stop) => Err(stop),
    }
}

/// Answers what is left at the end of the input, where it has a token.
fn finish<K: Sink, X: Watch>(
    alloc: Global,
    talk: Talk,
    sink: &mut K,
    budget: u64,
    watch: &mut X,
) -> Result<(), Stop>
    requires budget { budget ≤ most_budget }
    requires goes_on { talk.dialogue.ended ≡ false }
    ensures finished { OnOk result (Finishes budget talk (K.taken sink.old) (K.taken sink.new)) }
    ensures breaks { IfErr result (λ e. BreaksLast budget talk e (K.taken sink.old) (K.taken sink.new)) }
    ensures sink_failed { IsErrOf result Stop.Sink → Rose (K.faults sink.old) (K.faults sink.new) }
    ensures source { ¬ (IsErrOf result Stop.Source) }
{
    let Talk {
        dialogue,
        rest,
        scan: _,
    } = talk;
    let Ok(is_more) = has_token(alloc, rest.as_slice()) else {
        return Err(Stop::Memory);
    };
    if !is_more {
        return Ok(());
    }
    match tell(alloc, dialogue, rest.as_slice(), sink, budget, watch) {
        Ok(_) => Ok(()),
        Err(stop) => Err(stop),
    }
}
