// What is asked by further runs: `solve --vacuous`, whether the assumptions of a problem contradict one another; `smt --unused`, which
// named assertions a script does not need.

ghost use Rattle.std.specs.Prelude.{◌≡◌, None};

use crate::put::Named;
use job_messages::{
    Assumptions, NamedAssertion, Vacuity, find_assumptions, named_assertions, without,
};
use job_words::{Job, job};
use linear_term::Memory;
use prover_io::{Failed, MemorySource, Sink};
use std::alloc::Global;
use std::string::String;

/// A sink that drops what it takes.
#[derive(Drop)]
pub struct Nowhere;

impl Sink for Nowhere {
    ghost taken = { λ s. None };

    ghost faults = { λ s. 0 };

    fn put(&mut self, piece: &[u8]) -> Result<usize, Failed> {
        Ok(piece.len())
    }
}

/// What is known of the second question.
#[derive(Drop)]
pub enum Second {
    /// It is not asked, or its answer is this one.
    Known(Vacuity),
    /// The words and the source of a run that answers it, and the place of the sign `->` after the assumptions.
    Asked {
        words: Vec<String>,
        source: MemorySource,
        at: usize,
    },
}

/// What further runs said.
#[derive(Drop)]
pub struct SecondAnswers {
    /// What is known of the assumptions of a problem.
    pub vacuity: Vacuity,
    /// Where the names of the assertions stand that a script does not need.
    pub unused: Vec<usize>,
}

impl SecondAnswers {
    /// Where nothing was asked.
    pub fn none(alloc: Global) -> SecondAnswers {
        SecondAnswers {
            vacuity: Vacuity::Unasked,
            unused: Vec::new(alloc),
        }
    }
}

/// The second question of a run of `solve` with these words on a file with these bytes.
pub fn second_question(
    alloc: Global,
    words: &[String],
    text: Option<&[u8]>,
) -> Result<Second, Memory> {
    let (Ok(job), Some(text)) = (job(alloc, words), text) else {
        return Ok(Second::Known(Vacuity::Unasked));
    };
    let Job::Solve { .. } = &job else {
        return Ok(Second::Known(Vacuity::Unasked));
    };
    match find_assumptions(alloc, text)? {
        Assumptions::Missing => Ok(Second::Known(Vacuity::NoAssumptions)),
        Assumptions::Refuted(at) => Ok(Second::Known(Vacuity::Intended(at))),
        Assumptions::Before { at, changed } => {
            let named = Named::by(&job);
            let words = second_words(alloc, "solve", &named)?;
            let source = second_source(alloc, &named, changed)?;
            Ok(Second::Asked { words, source, at })
        }
    }
}

/// The named assertions of the script that a run of `smt` with these words reads; none of another run.
pub fn named_in_script(
    alloc: Global,
    words: &[String],
    text: Option<&[u8]>,
) -> Result<Vec<NamedAssertion>, Memory> {
    match (job(alloc, words), text) {
        (Ok(Job::Smt { .. }), Some(text)) => named_assertions(alloc, text),
        _ => Ok(Vec::new(alloc)),
    }
}

/// The words and the source of a run of `smt` with these words on the script with these bytes without one of its assertions.
pub fn run_without(
    alloc: Global,
    words: &[String],
    text: &[u8],
    assertion: &NamedAssertion,
) -> Result<Option<(Vec<String>, MemorySource)>, Memory> {
    let Ok(job) = job(alloc, words) else {
        return Ok(None);
    };
    let named = Named::by(&job);
    let words = second_words(alloc, "smt", &named)?;
    let source = second_source(alloc, &named, without(alloc, text, assertion)?)?;
    Ok(Some((words, source)))
}

/// A source that has these bytes under the name of the file.
fn second_source(alloc: Global, named: &Named, bytes: Vec<u8>) -> Result<MemorySource, Memory> {
    let mut files = Vec::new(alloc);
    files.push((String::from_str(alloc, named.file)?, bytes))?;
    Ok(MemorySource::new(files, Vec::new(alloc)))
}

/// The words that ask for an answer without a proof.
fn second_words(alloc: Global, command: &str, named: &Named) -> Result<Vec<String>, Memory> {
    let mut words = Vec::new(alloc);
    for word in [command, "--budget"] {
        words.push(String::from_str(alloc, word)?)?;
    }
    words.push(named.budget.to_string(alloc)?)?;
    for word in ["--", named.file] {
        words.push(String::from_str(alloc, word)?)?;
    }
    Ok(words)
}
