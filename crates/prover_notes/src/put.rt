// The messages of a run, and their lines, put to a sink of their own.

ghost use Rattle.std.specs.Prelude.{◌≤◌};

use crate::files::NamedFiles;
use crate::kept_sink::KeptSink;
use crate::kept_source::KeptSource;
use crate::second::SecondAnswers;
use base_answers::put_all;
use base_answers::status::{PROOF_REFUSED, SOURCE_FAILED};
use job_counts::{Counts, Statistics};
use job_messages::{Message, Run, Unread, failed_output, lines, notes, stats, unread_words};
use job_words::{Job, job};
use prover_io::{Sink, Source};
use std::alloc::{AllocError, Global};
use std::string::String;

/// What is to be said of a run with these words that ended with this status, from what was read and what was answered: nothing
/// where the answer says all, and where memory runs out. A proof that was not held is read again.
pub fn messages<S: Source, K: Sink, F: NamedFiles>(
    alloc: Global,
    words: &[String],
    status: u8,
    second: &SecondAnswers,
    counts: &Counts,
    source: &KeptSource<S>,
    sink: &KeptSink<K>,
    files: &F,
) -> Vec<Message> {
    let found = job(alloc, words);
    let named = match &found {
        Ok(job) => Named::by(job),
        Err(_) => Named::NONE,
    };
    let proof = named.begun_proof(source.begins());
    let again = match proof {
        Some(name) if status == PROOF_REFUSED && source.text(1).is_none() => files.text(name),
        _ => None,
    };
    let run = Run {
        words,
        status,
        answer: sink.front(),
        file: named.file,
        is_script: named.is_script,
        proof,
        file_text: source.text(0),
        proof_text: again_or(&again, source.text(1)),
        budget: named.budget,
        unread: fault(status, proof.unwrap_or(named.file), files),
        counts: Some(counts),
        vacuity: second.vacuity,
        unused: second.unused.as_slice(),
    };
    match notes(alloc, &run) {
        Ok(messages) => messages,
        Err(_) => Vec::new(alloc),
    }
}

/// Puts the lines of messages. Where memory runs out or the sink fails it puts less.
pub fn put_messages<N: Sink>(alloc: Global, messages: &[Message], noted: &mut N)
    ensures { N.faults noted.old ≤ N.faults noted.new }
{
    if let Ok(lines) = lines(alloc, messages) {
        let _ = put_all(noted, lines.as_slice());
    }
}

/// Puts the lines that tell what a run with these words did.
pub fn put_stats<S: Source, N: Sink>(
    alloc: Global,
    words: &[String],
    statistics: &Statistics,
    source: &KeptSource<S>,
    noted: &mut N,
)
    ensures { N.faults noted.old ≤ N.faults noted.new }
{
    let is_script = match job(alloc, words) {
        Ok(job) => Named::by(&job).is_script,
        Err(_) => false,
    };
    let problem = if is_script { None } else { source.text(0) };
    if let Ok(lines) = stats(alloc, statistics, problem) {
        let _ = put_all(noted, lines.as_slice());
    }
}

/// Why the file that was begun last could not be read, where that ended the run.
fn fault<F: NamedFiles>(status: u8, name: &str, files: &F) -> Unread {
    if status == SOURCE_FAILED {
        files.fault(name)
    } else {
        Unread::Other
    }
}

/// The bytes that were read again, or else those that are held.
fn again_or<'a>(again: &'a Option<Vec<u8>>, held: Option<&'a [u8]>) -> Option<&'a [u8]> {
    match again {
        Some(bytes) => Some(bytes.as_slice()),
        None => held,
    }
}

/// Puts what is to be said where the words cannot be read from the system.
pub fn put_unread_words<N: Sink>(alloc: Global, noted: &mut N)
    ensures { N.faults noted.old ≤ N.faults noted.new }
{
    if let Ok(messages) = unread_words(alloc) {
        put_messages(alloc, messages.as_slice(), noted);
    }
}

/// Puts what is to be said where standard output took no more.
pub fn put_output_failed<N: Sink>(alloc: Global, noted: &mut N)
    ensures { N.faults noted.old ≤ N.faults noted.new }
{
    if let Ok(messages) = failed_output(alloc) {
        put_messages(alloc, messages.as_slice(), noted);
    }
}

/// The name of the file that a job reads, where words name a job that reads one.
pub fn named_file(alloc: Global, words: &[String]) -> Result<Option<String>, AllocError> {
    match job(alloc, words) {
        Ok(Job::Drill { .. }) | Err(_) => Ok(None),
        Ok(job) => Ok(Some(String::from_str(alloc, Named::by(&job).file)?)),
    }
}

/// What a job names.
#[derive(Clone, Copy)]
pub(crate) struct Named<'a> {
    pub(crate) file: &'a str,
    is_script: bool,
    proof: Option<&'a str>,
    pub(crate) budget: u64,
}

impl<'a> Named<'a> {
    const NONE: Named<'static> = Named {
        file: "princess",
        is_script: false,
        proof: None,
        budget: 0,
    };

    /// The name of PROOF, where this many names were begun.
    fn begun_proof(&self, begins: usize) -> Option<&'a str> {
        if begins > 1 { self.proof } else { None }
    }

    pub(crate) fn by(job: &'a Job) -> Named<'a> {
        let none = Named::NONE;
        match job {
            Job::Solve { file, budget, .. }
            | Job::Elim { file, budget }
            | Job::Find { file, budget, .. }
            | Job::Least { file, budget, .. } => Named {
                file: file.as_str(),
                budget: *budget,
                ..none
            },
            Job::Smt { file, budget } => Named {
                file: file.as_str(),
                budget: *budget,
                is_script: true,
                ..none
            },
            Job::Check { file, proof } => Named {
                file: file.as_str(),
                proof: Some(proof.as_str()),
                ..none
            },
            Job::Drill { budget, .. } => Named {
                budget: *budget,
                ..none
            },
        }
    }
}
