// The lines of standard error that go with an answer.

use crate::assumptions::Vacuity;
use crate::interpolants::put_interpolants;
use crate::proofs::put_proof_refusal;
use crate::refusals::{put_lost, put_refused_script};
use crate::run_sentences as say;
use crate::unknowns::put_unknown;
use crate::warnings::{put_empty_types, put_unasked, put_unused, put_vacuity};
use crate::words::words_slip;
use base_answers::status;
use job_counts::Counts;
use linear_term::Memory;
use message_lines::{
    Hole, Message, Messages, Severity, Slip, find_refusal, last_line, put_placeless,
};
use message_problems::put_problem_refusal;
use std::alloc::Global;
use std::string::String;

/// How many bytes a problem's file has at most, and a proof's.
const FILE: u64 = 1_048_576;

const PROOF: u64 = 67_108_864;

/// Why a file could not be read.
#[derive(Clone, Copy, Debug, PartialEq, Eq)]
pub enum Unread {
    /// There is none of this name.
    Missing,
    /// It is a folder.
    Folder,
    /// It may not be read.
    Forbidden,
    /// Anything else.
    Other,
}

/// What is known of a run when its notes are made.
#[derive(Clone, Copy)]
pub struct Run<'a> {
    /// The words after the program's name.
    pub words: &'a [String],
    /// The exit status.
    pub status: u8,
    /// The front of each line of the answer, up to a line `proof:`.
    pub answer: &'a [u8],
    /// The name of FILE; `princess` where the job reads none.
    pub file: &'a str,
    /// Whether FILE is a script.
    pub is_script: bool,
    /// The name of PROOF, where it was begun.
    pub proof: Option<&'a str>,
    /// The bytes that were read of FILE, where they are held.
    pub file_text: Option<&'a [u8]>,
    /// The bytes that were read of PROOF, where they are held.
    pub proof_text: Option<&'a [u8]>,
    /// How many steps the job had.
    pub budget: u64,
    /// Why the file that was begun last could not be read.
    pub unread: Unread,
    /// What the run did, where that was counted.
    pub counts: Option<&'a Counts>,
    /// What is known of the assumptions of the problem in FILE.
    pub vacuity: Vacuity,
    /// Where the names of the assertions stand that the script in FILE does not need.
    pub unused: &'a [usize],
}

impl<'a> Run<'a> {
    /// The name of the file that was begun last.
    fn last_name(&self) -> &'a str {
        self.proof.unwrap_or(self.file)
    }
}

/// The messages that go with an answer; none where the answer says all.
pub fn notes(alloc: Global, run: &Run) -> Result<Vec<Message>, Memory> {
    let mut messages = Messages::new(alloc);
    if matches!(
        run.status,
        status::VALID | status::INVALID | status::UNKNOWN
    ) {
        put_warnings(alloc, &mut messages, run)?;
    }
    match run.status {
        status::VALID => put_interpolants(
            alloc,
            &mut messages,
            run.file,
            run.file_text.unwrap_or(b""),
            run.answer,
            Hole::Grouped(run.budget),
        )?,
        status::UNKNOWN => put_unknown(alloc, &mut messages, run)?,
        status::FILE_REFUSED => put_refusal(alloc, &mut messages, run)?,
        status::PROOF_REFUSED => put_refused_proof(alloc, &mut messages, run)?,
        status::WORDS_REFUSED => put_words(&mut messages, run)?,
        status::SOURCE_FAILED => put_unread(&mut messages, run)?,
        status::SINK_FAILED => put_own(&mut messages, say::OUTPUT_FAILED)?,
        status::NO_MEMORY => put_own(&mut messages, say::MEMORY_WANTING)?,
        status::FILE_TOO_LONG => put_long(&mut messages, run)?,
        _ => {}
    }
    Ok(messages.into_list())
}

/// Puts what the answer to a file may hide.
fn put_warnings(alloc: Global, messages: &mut Messages, run: &Run) -> Result<(), Memory> {
    match run.file_text {
        Some(text) if run.is_script => {
            put_unasked(alloc, messages, run.file, text)?;
            put_unused(messages, run.file, text, run.unused)
        }
        Some(text) => {
            put_empty_types(alloc, messages, run.file, text)?;
            put_vacuity(alloc, messages, run.file, text, run.vacuity)
        }
        None => Ok(()),
    }
}

/// What is said where the words cannot be read from the system.
pub fn unread_words(alloc: Global) -> Result<Vec<Message>, Memory> {
    let mut messages = Messages::new(alloc);
    put_own(&mut messages, say::WORDS_UNREAD_SYSTEM)?;
    Ok(messages.into_list())
}

/// What is said where standard output took no more.
pub fn failed_output(alloc: Global) -> Result<Vec<Message>, Memory> {
    let mut messages = Messages::new(alloc);
    put_own(&mut messages, say::OUTPUT_FAILED)?;
    Ok(messages.into_list())
}

/// Puts an error of the program itself.
fn put_own(messages: &mut Messages, sentence: &'static str) -> Result<(), Memory> {
    let slip = Slip::new(sentence);
    put_placeless(messages, "princess", Severity::Error, b"", &slip)
}

fn put_refusal(alloc: Global, messages: &mut Messages, run: &Run) -> Result<(), Memory> {
    let Some(refusal) = find_refusal(last_line(run.answer), b"refused: ") else {
        return Ok(());
    };
    let name = run.file;
    match run.file_text {
        Some(text) if run.is_script => put_refused_script(alloc, messages, name, text, &refusal),
        Some(text) => put_problem_refusal(alloc, messages, name, text, &refusal),
        None => put_lost(messages, name, &refusal),
    }
}

fn put_refused_proof(alloc: Global, messages: &mut Messages, run: &Run) -> Result<(), Memory> {
    let Some(refusal) = find_refusal(run.answer, b"refused proof: ") else {
        return Ok(());
    };
    let name = run.last_name();
    match run.proof_text {
        Some(text) => put_proof_refusal(alloc, messages, name, text, run.file, &refusal),
        None => put_lost(messages, name, &refusal),
    }
}

fn put_words(messages: &mut Messages, run: &Run) -> Result<(), Memory> {
    let slip = words_slip(run.words);
    put_placeless(messages, "princess", Severity::Error, b"", &slip)?;
    let help = Slip::new(say::WORDS_HELP);
    put_placeless(messages, "princess", Severity::Note, b"", &help)
}

fn put_unread(messages: &mut Messages, run: &Run) -> Result<(), Memory> {
    let sentence = match run.unread {
        Unread::Missing => say::FILE_MISSING,
        Unread::Folder => say::FILE_FOLDER,
        Unread::Forbidden => say::FILE_FORBIDDEN,
        Unread::Other => say::FILE_UNREAD,
    };
    let slip = Slip::new(sentence);
    put_placeless(messages, run.last_name(), Severity::Error, b"", &slip)
}

fn put_long(messages: &mut Messages, run: &Run) -> Result<(), Memory> {
    let most = if run.proof.is_some() { PROOF } else { FILE };
    let slip = Slip::new(say::FILE_LONG).with_name(Hole::Grouped(most));
    put_placeless(messages, run.last_name(), Severity::Error, b"", &slip)
}
