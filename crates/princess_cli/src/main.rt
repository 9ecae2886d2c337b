// The program: the words of the command line, real files and standard output are handed to the top call, and its status
// ends the program. Notes on what was answered go to standard error.
#![tactic(auto)]

ghost use Rattle.base_answers.specs.Outside.{Meets};
ghost use Rattle.job_words.specs.Jobs.{Task};
ghost use Rattle.prover_job.specs.Runs.{AnswersTask, AskFor};

mod dialogue;
mod help;
mod request;

use crate::dialogue::{dialogue_budget, hold};
use crate::help::{HELP, VERSION};
use crate::request::{Manner, Request, read_request};
use base_answers::put_all;
use base_answers::status::{NO_MEMORY, SINK_FAILED, UNKNOWN, VALID};
use base_watch::Unwatched;
use form_typed::{Table, World};
use job_counts::{Counts, Statistics};
use job_json::{Head, JsonSink};
use prover_input::SystemSource;
use prover_io::{Failed, OutSink, Sink, Source};
use prover_job::run;
use prover_notes::{
    KeptSink, KeptSource, Lines, Message, NamedFiles, Nowhere, Reporter, Second, SecondAnswers,
    SystemFiles, Vacuity, greatest_memory, is_unused, messages, named_file, named_in_script,
    put_messages, put_output_failed, put_stats, put_unread_words, run_without, second_question,
};
use prover_output::{FileSink, SplitSink};
use std::alloc::{AllocError, Global};
use std::env;
use std::io::{ErrorKind, IsTerminal};
use std::process::ExitCode;

/// The status where the words cannot be read from the system; the top call never answers it.
const NO_WORDS: u8 = 10;

fn main(rt: HostRuntime) -> ExitCode {
    ExitCode::from(status(&rt))
}

/// Does what the words of the command line ask for, and answers the exit status.
fn status(rt: &HostRuntime) -> u8 {
    let args = match env::args(rt) {
        Ok(args) => args,
        Err(error) if error.kind() == ErrorKind::OutOfMemory => return NO_MEMORY,
        Err(_) => {
            put_unread_words(rt.alloc(), &mut OutSink::new(&rt.stderr()));
            return NO_WORDS;
        }
    };
    let words: Result<Vec<String>, AllocError> = args.skip(1).collect(rt.alloc());
    let Ok(words) = words else {
        return NO_MEMORY;
    };
    match read_request(rt.alloc(), words) {
        Ok(Request::Help) => print(rt, HELP),
        Ok(Request::Version) => print(rt, VERSION),
        Ok(Request::Run { words, manner }) => {
            if manner.is_json {
                answer_json(rt, words.as_slice(), &manner)
            } else {
                answer(rt, words.as_slice(), &manner)
            }
        }
        Err(_) => NO_MEMORY,
    }
}

/// Prints a text, and answers the exit status.
fn print(rt: &HostRuntime, text: &str) -> u8 {
    match put_all(&mut OutSink::new(rt), text.as_bytes()) {
        Ok(()) => VALID,
        Err(_) => SINK_FAILED,
    }
}

/// Whether the environment turns the messages off.
fn is_quiet_around(rt: &HostRuntime) -> bool {
    match env::var(rt, "PRINCESS_QUIET") {
        Ok(value) => !value.is_empty(),
        Err(_) => false,
    }
}

/// How lines on the progress of a run are put to standard error.
fn progress_lines(rt: &HostRuntime, manner: &Manner) -> Lines {
    if !manner.is_progress || manner.is_quiet || is_quiet_around(rt) {
        Lines::None
    } else if rt.stderr().is_terminal() {
        Lines::Over
    } else {
        Lines::Below
    }
}

/// The file to which the proof goes, if it goes to one.
fn proof_file<'a>(rt: &'a HostRuntime, manner: &'a Manner) -> Option<FileSink<'a, HostRuntime>> {
    match &manner.proof_file {
        Some(path) => Some(FileSink::new(rt, path.as_str())),
        None => None,
    }
}

/// Does the job that words name, with messages on standard error unless they are turned off, and answers the exit status.
fn answer<'x>(rt: &'x HostRuntime, words: &[String], manner: &'x Manner) -> u8 {
    let alloc = rt.alloc();
    if let Some(budget) = dialogue_budget(alloc, words, manner) {
        return hold(rt, words, budget, manner);
    }
    let mut source = KeptSource::new(alloc, SystemSource::new(alloc, rt));
    let parted = SplitSink::new(OutSink::new(rt), proof_file(rt, manner));
    let mut sink = KeptSink::new(alloc, parted);
    let world = Table::empty(alloc);
    if manner.is_quiet || is_quiet_around(rt) {
        return run(alloc, words, &mut source, &mut sink, &world, &mut Unwatched);
    }
    let files = SystemFiles::new(alloc, rt);
    let errors = rt.stderr();
    let mut noted = OutSink::new(&errors);
    let progress = progress_lines(rt, manner);
    let mut reporter = Reporter::new(alloc, OutSink::new(&errors), progress);
    let status = run_with_notes(
        alloc,
        words,
        manner,
        &mut source,
        &mut sink,
        &world,
        &files,
        &mut noted,
        &mut reporter,
    );
    if manner.is_stats {
        let statistics = Statistics {
            counts: reporter.counts(),
            memory: greatest_memory(alloc, rt),
        };
        put_stats(alloc, words, &statistics, &source, &mut noted);
    }
    status
}

/// Does the job that words name, puts the lines of its messages to a sink of their own, and answers the exit status. Messages
/// change neither the status nor what is put to the sink of the answer, and no more does who watches.
fn run_with_notes<S: Source, K: Sink, W: World, F: NamedFiles, N: Sink, M: Sink>(
    alloc: Global,
    words: &[String],
    manner: &Manner,
    source: &mut KeptSource<S>,
    sink: &mut KeptSink<K>,
    world: &W,
    files: &F,
    noted: &mut N,
    reporter: &mut Reporter<M>,
) -> u8
    ensures answered { (task : Task) → AskFor words.now task
        → Meets (AnswersTask (⟦<KeptSource<S> as Source>⟧.bytes_of source.old) task) result
        (⟦<KeptSink<K> as Sink>⟧.taken sink.old) (⟦<KeptSink<K> as Sink>⟧.taken sink.new) }
{
    let status = run(alloc, words, source, sink, world, reporter);
    reporter.clear();
    let counts = reporter.counts();
    let told = told(
        alloc, words, status, manner, counts, source, sink, world, files,
    );
    put_messages(alloc, told.as_slice(), noted);
    status
}

/// The messages that go with an answer.
fn told<S: Source, K: Sink, W: World, F: NamedFiles>(
    alloc: Global,
    words: &[String],
    status: u8,
    manner: &Manner,
    counts: &Counts,
    source: &KeptSource<S>,
    sink: &KeptSink<K>,
    world: &W,
    files: &F,
) -> Vec<Message> {
    let mut second = SecondAnswers::none(alloc);
    if manner.is_vacuous && status == VALID {
        second.vacuity = vacuity(alloc, words, source.text(0), world);
    }
    if manner.is_unused && (status == VALID || status == UNKNOWN) {
        second.unused = unused(alloc, words, source.text(0), sink.front(), world);
    }
    messages(alloc, words, status, &second, counts, source, sink, files)
}

/// Whether the assumptions of the problem in a file with these bytes contradict one another: that is what a second run says.
fn vacuity<W: World>(alloc: Global, words: &[String], text: Option<&[u8]>, world: &W) -> Vacuity {
    match second_question(alloc, words, text) {
        Ok(Second::Known(vacuity)) => vacuity,
        Ok(Second::Asked { words, source, at }) => {
            let mut source = source;
            let status = run(
                alloc,
                words.as_slice(),
                &mut source,
                &mut Nowhere,
                world,
                &mut Unwatched,
            );
            Vacuity::by(status, at)
        }
        Err(_) => Vacuity::Unasked,
    }
}

/// Where the names of the assertions stand that a script with these bytes does not need, where the fronts of its lines are these: that
/// is what a run without each of them says.
fn unused<W: World>(
    alloc: Global,
    words: &[String],
    text: Option<&[u8]>,
    answer: &[u8],
    world: &W,
) -> Vec<usize> {
    let mut unused = Vec::new(alloc);
    let (Ok(named), Some(text)) = (named_in_script(alloc, words, text), text) else {
        return unused;
    };
    for assertion in named.as_slice() {
        let Ok(Some((words, source))) = run_without(alloc, words, text, assertion) else {
            return unused;
        };
        let mut source = source;
        let mut sink = KeptSink::new(alloc, Nowhere);
        let _ = run(
            alloc,
            words.as_slice(),
            &mut source,
            &mut sink,
            world,
            &mut Unwatched,
        );
        if is_unused(answer, sink.front(), assertion) && unused.push(assertion.name).is_err() {
            return unused;
        }
    }
    unused
}

/// Does the job that words name, puts one object in place of the text to standard output, and answers the exit status.
fn answer_json<'x>(rt: &'x HostRuntime, words: &[String], manner: &'x Manner) -> u8 {
    let alloc = rt.alloc();
    let Ok(head) = head(alloc, words) else {
        return NO_MEMORY;
    };
    let mut source = KeptSource::new(alloc, SystemSource::new(alloc, rt));
    let parted = SplitSink::new(
        JsonSink::new(alloc, OutSink::new(rt), head),
        proof_file(rt, manner),
    );
    let mut sink = KeptSink::new(alloc, parted);
    let world = Table::empty(alloc);
    let files = SystemFiles::new(alloc, rt);
    let errors = rt.stderr();
    let progress = progress_lines(rt, manner);
    let mut reporter = Reporter::new(alloc, OutSink::new(&errors), progress);
    let status = run(alloc, words, &mut source, &mut sink, &world, &mut reporter);
    reporter.clear();
    let counts = reporter.counts();
    let told = told(
        alloc, words, status, manner, counts, &source, &sink, &world, &files,
    );
    let statistics = Statistics {
        counts,
        memory: greatest_memory(alloc, rt),
    };
    let mut object = sink.into_sink().into_answer();
    let finished = finish(
        &mut object,
        status,
        told.as_slice(),
        &statistics,
        manner.is_stats,
    );
    if status != SINK_FAILED && finished.is_ok() {
        return status;
    }
    if !manner.is_quiet && !is_quiet_around(rt) {
        put_output_failed(alloc, &mut OutSink::new(&errors));
    }
    SINK_FAILED
}

/// What the first members of the object say: the command, and the file that a job reads.
fn head(alloc: Global, words: &[String]) -> Result<Head, AllocError> {
    let command = match words.first() {
        Some(word) => Some(String::from_str(alloc, word.as_str())?),
        None => None,
    };
    Ok(Head {
        command,
        file: named_file(alloc, words)?,
    })
}

/// Ends the object of a run, with what the run did where that is asked for.
fn finish<K: Sink>(
    object: &mut JsonSink<K>,
    status: u8,
    messages: &[Message],
    statistics: &Statistics,
    is_asked: bool,
) -> Result<(), Failed> {
    if is_asked {
        object.finish(status, messages, Some(statistics))
    } else {
        object.finish(status, messages, None)
    }
}
