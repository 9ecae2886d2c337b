// Why words name no job.

use crate::run_sentences as say;
use message_lines::{Hole, Slip, find_near, is_among};
use std::mem;
use std::string::String;

/// The words after a command, as far as they were gone through.
#[derive(Clone, Copy)]
struct Seen {
    files: usize,
    budget: bool,
    proof: bool,
    short: bool,
    calculus: bool,
    counterexample: bool,
}

/// The commands, and the options of any of them.
const COMMANDS: [&str; 7] = ["solve", "check", "elim", "find", "drill", "least", "smt"];

const OPTIONS: [&str; 11] = [
    "--budget",
    "--proof",
    "--short",
    "--calculus",
    "--counterexample",
    "--vacuous",
    "--unused",
    "--json",
    "--stats",
    "--progress",
    "--proof-to",
];

/// What is wrong with words that name no job.
pub(crate) fn words_slip<'a>(words: &'a [String]) -> Slip<'a> {
    let Some((command, rest)) = words.split_first() else {
        return Slip::new(say::WORDS_NONE);
    };
    let command = command.as_bytes();
    if is_among(command, &["--quiet", "--json"]) {
        return Slip::new(say::WORDS_TWICE).with_other(Hole::Text(command));
    }
    if command.starts_with(b"-") {
        return Slip::new(say::WORDS_FIRST);
    }
    if !is_among(command, &COMMANDS) {
        return match find_near(command, &COMMANDS) {
            Some(near) => {
                Slip::named(say::WORDS_COMMAND_NEAR, command).with_other(Hole::Text(
                    near.as_bytes(),
                ))
            }
            None => Slip::named(say::WORDS_COMMAND, command),
        };
    }
    let mut seen = Seen {
        files: 0,
        budget: false,
        proof: false,
        short: false,
        calculus: false,
        counterexample: false,
    };
    match options_slip(command, rest, &mut seen) {
        Some(slip) => slip,
        None => Slip::named(whole_sentence(command, &seen), command),
    }
}

/// What is wrong with the options of a command; none where each of them is one of the command's, once and with its value.
fn options_slip<'a>(command: &'a [u8], words: &'a [String], seen: &mut Seen) -> Option<Slip<'a>> {
    let mut is_over = false;
    let mut is_value = false;
    for word in words {
        let text = word.as_bytes();
        if is_value {
            is_value = false;
            if !is_budget(text) {
                return Some(Slip::new(say::WORDS_BUDGET));
            }
            continue;
        }
        if is_over || text == b"-".as_slice() || !text.starts_with(b"-") {
            seen.files = seen.files.saturating_add(1);
            continue;
        }
        if text == b"--".as_slice() {
            is_over = true;
            continue;
        }
        let name = option_name(text);
        if let Some(fault) = option_fault(command, name, seen) {
            return Some(option_slip(fault, command, name));
        }
        if let Some(value) = text.strip_prefix(b"--budget=")
            && !is_budget(value)
        {
            return Some(Slip::new(say::WORDS_BUDGET));
        }
        is_value = text == b"--budget".as_slice();
    }
    if is_value {
        Some(Slip::new(say::WORDS_BUDGET))
    } else {
        None
    }
}

/// The name of an option, without a value after a sign =.
fn option_name(word: &[u8]) -> &[u8] {
    if word.starts_with(b"--budget=") {
        b"--budget"
    } else {
        word
    }
}

/// What is wrong with an option.
#[derive(Clone, Copy)]
enum OptionFault {
    /// The command has none of this name.
    Unknown,
    /// It begins a term.
    Dash,
    /// It stands before a command.
    Quiet,
    Twice,
    /// It lacks the name of a file.
    NoFile,
}

/// The slip at an option.
fn option_slip<'a>(fault: OptionFault, command: &'a [u8], name: &'a [u8]) -> Slip<'a> {
    let option = Hole::Text(name);
    match fault {
        OptionFault::Unknown => match find_near(name, &OPTIONS) {
            Some(near) => Slip::named(say::WORDS_OPTION_NEAR, command)
                .with_other(option)
                .at(Hole::Text(near.as_bytes()), b""),
            None => Slip::named(say::WORDS_OPTION, command).with_other(option),
        },
        OptionFault::Dash => Slip::new(say::WORDS_TERM_DASH).with_other(option),
        OptionFault::Quiet => Slip::named(say::WORDS_QUIET, command),
        OptionFault::Twice => Slip::new(say::WORDS_TWICE).with_other(option),
        OptionFault::NoFile => Slip::new(say::WORDS_PROOF_FILE),
    }
}

/// What is wrong with an option; it is counted as seen.
fn option_fault(command: &[u8], name: &[u8], seen: &mut Seen) -> Option<OptionFault> {
    let is_solve = command == b"solve".as_slice();
    let has_proof = is_solve || command == b"find".as_slice();
    let was_seen = match name {
        b"--budget" if command != b"check".as_slice() => mem::replace(&mut seen.budget, true),
        b"--proof" if has_proof => mem::replace(&mut seen.proof, true),
        b"--short" if is_solve => mem::replace(&mut seen.short, true),
        b"--calculus" if is_solve => mem::replace(&mut seen.calculus, true),
        b"--counterexample" if is_solve => mem::replace(&mut seen.counterexample, true),
        b"--quiet" => return Some(OptionFault::Quiet),
        b"--json" | b"--stats" | b"--progress" => return Some(OptionFault::Twice),
        b"--vacuous" if is_solve => return Some(OptionFault::Twice),
        b"--proof-to" if has_proof => return Some(OptionFault::Twice),
        b"--proof-to=" if has_proof => return Some(OptionFault::NoFile),
        b"--unused" if command == b"smt".as_slice() => return Some(OptionFault::Twice),
        _ if command == b"least".as_slice() => return Some(OptionFault::Dash),
        _ => return Some(OptionFault::Unknown),
    };
    if was_seen {
        Some(OptionFault::Twice)
    } else {
        None
    }
}

/// What is wrong with words of which each is right by itself.
fn whole_sentence(command: &[u8], seen: &Seen) -> &'static str {
    let most: usize = if is_among(command, &["check", "least"]) {
        2
    } else {
        1
    };
    if seen.proof && seen.short {
        return say::WORDS_BOTH;
    }
    match command {
        b"drill" if seen.files == 0 => say::WORDS_COUNT_MISSING,
        _ if seen.files == 0 => say::WORDS_FILE_MISSING,
        b"check" if seen.files == 1 => say::WORDS_PROOF_MISSING,
        b"least" if seen.files == 1 => say::WORDS_TERM_MISSING,
        b"least" if seen.files > most => say::WORDS_TERM_MANY,
        _ if seen.files > most => say::WORDS_TOO_MANY,
        b"drill" => say::WORDS_COUNT,
        _ => say::WORDS_OTHER,
    }
}

/// Whether a text is a budget: 1 to 10 decimal digits that write a number from 1 to 1,000,000,000.
fn is_budget(text: &[u8]) -> bool {
    let mut value: u64 = 0;
    for byte in text {
        if !byte.is_ascii_digit() {
            return false;
        }
        value = value
            .saturating_mul(10)
            .saturating_add(byte.saturating_sub(b'0') as u64);
    }
    text.len() <= 10 && 1 <= value && value <= 1_000_000_000
}
