// The dialogue of `smt -`: the commands on the standard input are answered as they come.

ghost use Rattle.base_limits.specs.Limits.{most_budget};
ghost use Rattle.std.specs.Prelude.{◌≤◌, IfSome};

use crate::request::Manner;
use crate::{is_quiet_around, progress_lines};
use base_answers::status::{NO_MEMORY, SOURCE_FAILED, VALID};
use base_limits::MOST_BUDGET;
use base_watch::{Unwatched, Watch};
use job_counts::Statistics;
use job_dialogue::converse;
use job_words::{Job, job};
use prover_input::SystemSource;
use prover_io::{BeginFault, OutSink, Source};
use prover_notes::{
    KeptSink, KeptSource, Nowhere, Reporter, SecondAnswers, SystemFiles, greatest_memory, messages,
    put_messages, put_stats,
};
use std::alloc::Global;

/// The name of the standard input.
const INPUT: &str = "-";

/// The budget of each check of a dialogue, where words ask for one: `smt` of the standard input, of which nothing more is asked at its end.
pub(crate) fn dialogue_budget(alloc: Global, words: &[String], manner: &Manner) -> Option<u64>
    ensures { IfSome result (λ budget. budget ≤ most_budget) }
{
    if manner.is_unused {
        return None;
    }
    match job(alloc, words) {
        Ok(Job::Smt { file, budget }) => {
            if file.as_str() == INPUT && budget <= MOST_BUDGET {
                Some(budget)
            } else {
                None
            }
        }
        _ => None,
    }
}

/// Holds a dialogue on the standard input and output, with messages on standard error where it fails, and answers the exit status.
pub(crate) fn hold(rt: &HostRuntime, words: &[String], budget: u64, manner: &Manner) -> u8
    requires { budget ≤ most_budget }
{
    if manner.is_quiet || is_quiet_around(rt) {
        return talk(rt, budget, &mut Unwatched);
    }
    let alloc = rt.alloc();
    let errors = rt.stderr();
    let mut noted = OutSink::new(&errors);
    let progress = progress_lines(rt, manner);
    let mut reporter = Reporter::new(alloc, OutSink::new(&errors), progress);
    let status = talk(rt, budget, &mut reporter);
    reporter.clear();
    let source = KeptSource::new(alloc, SystemSource::new(alloc, rt));
    let counts = reporter.counts();
    if status != VALID {
        let second = SecondAnswers::none(alloc);
        let sink = KeptSink::new(alloc, Nowhere);
        let files = SystemFiles::new(alloc, rt);
        let told = messages(
            alloc, words, status, &second, counts, &source, &sink, &files,
        );
        put_messages(alloc, told.as_slice(), &mut noted);
    }
    if manner.is_stats {
        let statistics = Statistics {
            counts,
            memory: greatest_memory(alloc, rt),
        };
        put_stats(alloc, words, &statistics, &source, &mut noted);
    }
    status
}

/// Holds the dialogue itself.
fn talk<X: Watch>(rt: &HostRuntime, budget: u64, watch: &mut X) -> u8
    requires { budget ≤ most_budget }
{
    let alloc = rt.alloc();
    let mut source = SystemSource::new(alloc, rt);
    match source.begin(INPUT) {
        Ok(()) => {}
        Err(BeginFault::Failed) => return SOURCE_FAILED,
        Err(BeginFault::Memory) => return NO_MEMORY,
    }
    converse(alloc, &mut source, &mut OutSink::new(rt), budget, watch)
}
