// What the words of the command line ask for, before the top call sees them.

use std::alloc::{AllocError, Global};

/// How a job is told of.
#[derive(Drop)]
pub(crate) struct Manner {
    /// Nothing goes to standard error.
    pub(crate) is_quiet: bool,
    /// One object of JSON goes to standard output in place of the text.
    pub(crate) is_json: bool,
    /// It is also asked whether the assumptions contradict one another.
    pub(crate) is_vacuous: bool,
    /// It is also asked which named assertions are not needed.
    pub(crate) is_unused: bool,
    /// What the run did is told after it.
    pub(crate) is_stats: bool,
    /// How far the run is, is told while it goes on.
    pub(crate) is_progress: bool,
    /// The proof goes to the file of this name.
    pub(crate) proof_file: Option<String>,
}

impl Manner {
    /// The text alone goes to standard output, and messages to standard error.
    const USUAL: Manner = Manner {
        is_quiet: false,
        is_json: false,
        is_vacuous: false,
        is_unused: false,
        is_stats: false,
        is_progress: false,
        proof_file: None,
    };
}

/// What is asked for.
#[derive(Drop)]
pub(crate) enum Request {
    /// The text of help.
    Help,
    /// The version.
    Version,
    /// The job that these words name.
    Run { words: Vec<String>, manner: Manner },
}

/// What these words ask for. `--quiet`, `--json`, `--stats` and `--progress` stand before the command, in any order, and all but the
/// first also after it; `--vacuous` stands after `solve`, `--proof-to FILE` after `solve` or `find`, and `--unused` after `smt`. They are
/// taken out, so the top call sees the other words, and `--proof` where a proof goes to a file and no form of it is asked for.
pub(crate) fn read_request(alloc: Global, words: Vec<String>) -> Result<Request, AllocError> {
    let mut manner = Manner::USUAL;
    let mut left = Vec::new(alloc);
    let mut place = Place::Front;
    for word in words {
        if let Place::ProofFile(command) = place {
            manner.proof_file = Some(word);
            place = Place::Options(command);
        } else if let Some(command) = takes_file(&manner, place, word.as_str()) {
            place = Place::ProofFile(command);
        } else if let Some(file) = file_behind(&manner, place, word.as_str()) {
            manner.proof_file = Some(String::from_str(alloc, file)?);
        } else if !takes(&mut manner, place, word.as_str()) {
            place = place.behind(word.as_str());
            left.push(word)?;
        }
    }
    if let Place::ProofFile(_) = place {
        left.push(String::from_str(alloc, WITHOUT_FILE)?)?;
    }
    if let Some(text) = asked_text(left.as_slice()) {
        return Ok(match text {
            Text::Help => Request::Help,
            Text::Version => Request::Version,
        });
    }
    let words = if manner.proof_file.is_some() {
        with_proof(alloc, left)?
    } else {
        left
    };
    Ok(Request::Run { words, manner })
}

/// The option before the name of the file to which a proof goes, and the same where no name stands after it: no job has it.
const PROOF_FILE: &str = "--proof-to";

const WITHOUT_FILE: &str = "--proof-to=";

/// The command after which a word is that option, where it stands for the first time.
fn takes_file(manner: &Manner, place: Place, word: &str) -> Option<Command> {
    match place {
        Place::Options(command) if command.has_proof() => {
            let is_first = word == PROOF_FILE && manner.proof_file.is_none();
            if is_first { Some(command) } else { None }
        }
        _ => None,
    }
}

/// The name of that file, where it stands after the option and a sign =.
fn file_behind<'a>(manner: &Manner, place: Place, word: &'a str) -> Option<&'a str> {
    let has_proof = match place {
        Place::Options(command) => command.has_proof(),
        _ => false,
    };
    if !has_proof || manner.proof_file.is_some() {
        return None;
    }
    match word.strip_prefix(WITHOUT_FILE) {
        Some("") | None => None,
        Some(file) => Some(file),
    }
}

/// The same words with `--proof` after the first of them, unless they ask for a form of the proof.
fn with_proof(alloc: Global, words: Vec<String>) -> Result<Vec<String>, AllocError> {
    let asks = words.iter().any(|word| word.as_str() == "--proof" || word.as_str() == "--short");
    if asks {
        return Ok(words);
    }
    let mut all = Vec::new(alloc);
    for word in words {
        let is_first = all.is_empty();
        all.push(word)?;
        if is_first {
            all.push(String::from_str(alloc, "--proof")?)?;
        }
    }
    Ok(all)
}

/// A command, by the options that are taken out after it.
#[derive(Clone, Copy, PartialEq, Eq)]
enum Command {
    Solve,
    Find,
    Smt,
    Other,
}

impl Command {
    fn of(word: &str) -> Command {
        match word {
            "solve" => Command::Solve,
            "find" => Command::Find,
            "smt" => Command::Smt,
            _ => Command::Other,
        }
    }

    /// Whether it prints proofs.
    fn has_proof(self) -> bool {
        self == Command::Solve || self == Command::Find
    }
}

/// Where a word stands.
#[derive(Clone, Copy, PartialEq, Eq)]
enum Place {
    /// Before the command.
    Front,
    /// After a command, where options stand.
    Options(Command),
    /// Where the value of an option stands.
    Value(Command),
    /// Where the name of the file stands to which a proof goes.
    ProofFile(Command),
    /// After a word `--`.
    Operands,
}

impl Place {
    /// The place after this word, which stands here.
    fn behind(self, word: &str) -> Place {
        match (self, word) {
            (Place::Front, _) => Place::Options(Command::of(word)),
            (Place::Options(_), "--") | (Place::Operands, _) => Place::Operands,
            (Place::Options(command), "--budget") => Place::Value(command),
            (Place::Options(command) | Place::Value(command) | Place::ProofFile(command), _) =>
                Place::Options(command),
        }
    }
}

/// Whether a word is taken out where it stands; then it is noted what it asks for.
fn takes(manner: &mut Manner, place: Place, word: &str) -> bool {
    let flag = match (place, word) {
        (Place::Front, "--quiet") => &mut manner.is_quiet,
        (Place::Front | Place::Options(_), "--json") => &mut manner.is_json,
        (Place::Front | Place::Options(_), "--stats") => &mut manner.is_stats,
        (Place::Front | Place::Options(_), "--progress") => &mut manner.is_progress,
        (Place::Options(Command::Solve), "--vacuous") => &mut manner.is_vacuous,
        (Place::Options(Command::Smt), "--unused") => &mut manner.is_unused,
        _ => return false,
    };
    let is_first = !*flag;
    *flag = true;
    is_first
}

/// A text that the program prints of itself.
#[derive(Clone, Copy)]
enum Text {
    Help,
    Version,
}

/// The text that words ask for, if they ask for one.
fn asked_text(words: &[String]) -> Option<Text> {
    let (first, rest) = words.split_first()?;
    match first.as_str() {
        "help" | "--help" | "-h" => Some(Text::Help),
        "version" | "--version" => Some(Text::Version),
        "solve" | "check" | "elim" | "find" | "least" | "smt" | "drill" if asks_for_help(rest) =>
            Some(Text::Help),
        _ => None,
    }
}

/// Whether the words after a command ask for help: `-h` as the first of them, or `--help` before a word `--`.
fn asks_for_help(words: &[String]) -> bool {
    if let Some(first) = words.first()
        && first.as_str() == "-h"
    {
        return true;
    }
    for word in words {
        match word.as_str() {
            "--" => return false,
            "--help" => return true,
            _ => {}
        }
    }
    false
}
