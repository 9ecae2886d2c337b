// The words of the command line, and the job that they name.

ghost use Rattle.clap.specs.Words.{first_value, found_of};
ghost use Rattle.job_words.specs.Jobs.{IsBudget, IsNumber, NamesJob, Task, asks_short, asks_whole, task_of};
ghost use Rattle.job_words.specs.Uses.{listed, Text};
ghost use Rattle.base_limits.specs.Limits.{most_count};
ghost use Rattle.std.specs.Prelude.{◌≡◌, ◌∷◌, ◌&&◌, ℕ, List, map, codes, string_bytes, true, false, None, Some, IfOk, IfErr, MatchResult};

use crate::commands::{
    check_command, drill_command, elim_command, find_command, least_command, read, smt_command,
    solve_command,
};
use crate::jobs::{Job, WordsFault};
use crate::numbers::number;
use base_answers::ProofForm;
use base_limits::{MOST_BUDGET, MOST_COUNT};
use clap::ArgMatches;
use std::alloc::Global;

// The budget where none is given.
const USUAL: u64 = 50_000_000;

/// The job that the words after the program's name name.
pub fn job(alloc: Global, words: &[String]) -> Result<Job, WordsFault>
    ensures named { IfOk result (λ job. NamesJob (map string_bytes words.now) (task_of job)) }
    ensures refused { IfErr result (λ e. e ≡ WordsFault.Words → (task : Task) → NamesJob (map string_bytes words.now) task → ⊥) }
{
    let [command, line @ ..] = words else {
        return Err(WordsFault::Words);
    };
    match command.as_str() {
        "solve" => solve_job(alloc, line),
        "elim" => elim_job(alloc, line),
        "find" => find_job(alloc, line),
        "smt" => smt_job(alloc, line),
        "least" => least_job(alloc, line),
        "check" => check_job(alloc, line),
        "drill" => drill_job(alloc, line),
        _ => Err(WordsFault::Words),
    }
}

/// Words name one job at most.
#[tactic(auto, using(crate::proofs::Naming::one_job))]
pub fn words_law()
    ensures { (words : List Text) (a : Task) (b : Task) → NamesJob words a → NamesJob words b → a ≡ b }
{}

// `solve FILE [--budget N] [--proof] [--short] [--calculus] [--counterexample]`, with one of the first two flags at most
fn solve_job(alloc: Global, line: &[String]) -> Result<Job, WordsFault>
    ensures named { IfOk result (λ job. NamesJob (codes "solve" ∷ map string_bytes line.now) (task_of job)) }
    ensures refused { IfErr result (λ e. e ≡ WordsFault.Words → (task : Task) → NamesJob (codes "solve" ∷ map string_bytes line.now) task → ⊥) }
{
    let matches = read(solve_command(alloc)?, line)?;
    let file = text_in(alloc, &matches, "FILE")?;
    let budget = budget_in(&matches)?;
    let whole = matches.get_flag("proof");
    let short = matches.get_flag("short");
    let asked = asked_form(whole, short)?;
    let calculus = matches.get_flag("calculus");
    let shows = matches.get_flag("counterexample");
    Ok(Job::Solve {
        file,
        budget,
        asked,
        calculus,
        shows,
    })
}

// `elim FILE [--budget N]`
fn elim_job(alloc: Global, line: &[String]) -> Result<Job, WordsFault>
    ensures named { IfOk result (λ job. NamesJob (codes "elim" ∷ map string_bytes line.now) (task_of job)) }
    ensures refused { IfErr result (λ e. e ≡ WordsFault.Words → (task : Task) → NamesJob (codes "elim" ∷ map string_bytes line.now) task → ⊥) }
{
    let matches = read(elim_command(alloc)?, line)?;
    let file = text_in(alloc, &matches, "FILE")?;
    let budget = budget_in(&matches)?;
    Ok(Job::Elim { file, budget })
}

// `find FILE [--budget N] [--proof]`
fn find_job(alloc: Global, line: &[String]) -> Result<Job, WordsFault>
    ensures named { IfOk result (λ job. NamesJob (codes "find" ∷ map string_bytes line.now) (task_of job)) }
    ensures refused { IfErr result (λ e. e ≡ WordsFault.Words → (task : Task) → NamesJob (codes "find" ∷ map string_bytes line.now) task → ⊥) }
{
    let matches = read(find_command(alloc)?, line)?;
    let file = text_in(alloc, &matches, "FILE")?;
    let budget = budget_in(&matches)?;
    let proves = matches.get_flag("proof");
    Ok(Job::Find {
        file,
        budget,
        proves,
    })
}

// `smt FILE [--budget N]`
fn smt_job(alloc: Global, line: &[String]) -> Result<Job, WordsFault>
    ensures named { IfOk result (λ job. NamesJob (codes "smt" ∷ map string_bytes line.now) (task_of job)) }
    ensures refused { IfErr result (λ e. e ≡ WordsFault.Words → (task : Task) → NamesJob (codes "smt" ∷ map string_bytes line.now) task → ⊥) }
{
    let matches = read(smt_command(alloc)?, line)?;
    let file = text_in(alloc, &matches, "FILE")?;
    let budget = budget_in(&matches)?;
    Ok(Job::Smt { file, budget })
}

// `least FILE TERM [--budget N]`
fn least_job(alloc: Global, line: &[String]) -> Result<Job, WordsFault>
    ensures named { IfOk result (λ job. NamesJob (codes "least" ∷ map string_bytes line.now) (task_of job)) }
    ensures refused { IfErr result (λ e. e ≡ WordsFault.Words → (task : Task) → NamesJob (codes "least" ∷ map string_bytes line.now) task → ⊥) }
{
    let matches = read(least_command(alloc)?, line)?;
    let file = text_in(alloc, &matches, "FILE")?;
    let term = text_in(alloc, &matches, "TERM")?;
    let budget = budget_in(&matches)?;
    Ok(Job::Least { file, term, budget })
}

// `drill COUNT [--budget N]`
fn drill_job(alloc: Global, line: &[String]) -> Result<Job, WordsFault>
    ensures named { IfOk result (λ job. NamesJob (codes "drill" ∷ map string_bytes line.now) (task_of job)) }
    ensures refused { IfErr result (λ e. e ≡ WordsFault.Words → (task : Task) → NamesJob (codes "drill" ∷ map string_bytes line.now) task → ⊥) }
{
    let matches = read(drill_command(alloc)?, line)?;
    let count = count_in(&matches)?;
    let budget = budget_in(&matches)?;
    Ok(Job::Drill { count, budget })
}

// `check FILE PROOF`
fn check_job(alloc: Global, line: &[String]) -> Result<Job, WordsFault>
    ensures named { IfOk result (λ job. NamesJob (codes "check" ∷ map string_bytes line.now) (task_of job)) }
    ensures refused { IfErr result (λ e. e ≡ WordsFault.Words → (task : Task) → NamesJob (codes "check" ∷ map string_bytes line.now) task → ⊥) }
{
    let matches = read(check_command(alloc)?, line)?;
    let file = text_in(alloc, &matches, "FILE")?;
    let proof = text_in(alloc, &matches, "PROOF")?;
    Ok(Job::Check { file, proof })
}

// The word that an operand has.
fn text_in(alloc: Global, matches: &ArgMatches<'_>, id: &str) -> Result<String, WordsFault>
    ensures found { IfOk result (λ text. Some (string_bytes text) ≡ first_value (found_of matches.now) id.now) }
    ensures missing { IfErr result (λ e. e ≡ WordsFault.Words → first_value (found_of matches.now) id.now ≡ None) }
{
    match matches.get_str(id) {
        Some(text) => Ok(String::from_str(alloc, text)?),
        None => Err(WordsFault::Words),
    }
}

// The form in which the flags of `solve` ask for the proof, if they do; not both can be asked for.
fn asked_form(whole: bool, short: bool) -> Result<Option<ProofForm>, WordsFault>
    ensures { MatchResult result (λ asked. (asks_whole asked ≡ whole) × (asks_short asked ≡ short)) (λ e. (whole && short) ≡ true) }
{
    match (whole, short) {
        (true, true) => Err(WordsFault::Words),
        (true, false) => Ok(Some(ProofForm::Whole)),
        (false, true) => Ok(Some(ProofForm::Short)),
        (false, false) => Ok(None),
    }
}

// The number that the operand of `drill` writes.
fn count_in(matches: &ArgMatches<'_>) -> Result<u32, WordsFault>
    ensures found { IfOk result (λ n. (text : Text) × (Some text ≡ first_value (found_of matches.now) (codes "COUNT")) × IsNumber most_count text n) }
    ensures missing { IfErr result (λ e. (text : Text) → Some text ≡ first_value (found_of matches.now) (codes "COUNT") → (n : ℕ) → IsNumber most_count text n → ⊥) }
{
    let Some(text) = matches.get_str("COUNT") else {
        return Err(WordsFault::Words);
    };
    match number(text, MOST_COUNT) {
        Some(n) => Ok(n as u32),
        None => Err(WordsFault::Words),
    }
}

// The budget that the option's value gives.
fn budget_in(matches: &ArgMatches<'_>) -> Result<u64, WordsFault>
    ensures { MatchResult result (λ n. IsBudget (listed (first_value (found_of matches.now) (codes "budget"))) n)
        (λ e. (n : ℕ) → IsBudget (listed (first_value (found_of matches.now) (codes "budget"))) n → ⊥) }
{
    match matches.get_str("budget") {
        Some(text) => match number(text, MOST_BUDGET) {
            Some(n) => Ok(n),
            None => Err(WordsFault::Words),
        },
        None => Ok(USUAL),
    }
}
