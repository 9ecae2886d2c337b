// The commands as `clap` reads them: their operands and options, without help and version.

ghost use Rattle.clap.specs.Words.{app_of, fault_of, found_of, is_simple_and_free, matches_of, rows_of};
ghost use Rattle.job_words.specs.Jobs.{budget_option, find_options, proof_options, solve_options};
ghost use Rattle.job_words.specs.Shapes.{command_app};
ghost use Rattle.std.specs.Prelude.{◌≡◌, ◌≢◌, [], ◌∷◌, codes, map, string_bytes, true, IfOk, IfErr};

use crate::jobs::WordsFault;
use clap::error::ErrorKind;
use clap::{Arg, ArgAction, ArgMatches, Command};
use std::alloc::{AllocError, Global};

// `solve FILE [--budget N] [--proof] [--short] [--calculus] [--counterexample]`; `clap` lets the first two flags through together.
pub(crate) fn solve_command<'a>(alloc: Global) -> Result<Command<'a>, AllocError>
    ensures { IfOk result (λ c. app_of c ≡ command_app (codes "solve") (codes "FILE" ∷ []) solve_options) }
{
    let command = command_with_proofs(alloc)?;
    let calculus = Arg::new(alloc, "calculus")
        .long("calculus")
        .action(ArgAction::SetTrue);
    let shows = Arg::new(alloc, "counterexample")
        .long("counterexample")
        .action(ArgAction::SetTrue);
    command.arg(calculus)?.arg(shows)
}

// `solve FILE [--budget N] [--proof] [--short]`
fn command_with_proofs<'a>(alloc: Global) -> Result<Command<'a>, AllocError>
    ensures { IfOk result (λ c. app_of c ≡ command_app (codes "solve") (codes "FILE" ∷ []) proof_options) }
{
    let file = Arg::new(alloc, "FILE").required(true);
    let budget = Arg::new(alloc, "budget").long("budget");
    let proof = Arg::new(alloc, "proof")
        .long("proof")
        .action(ArgAction::SetTrue);
    let short = Arg::new(alloc, "short")
        .long("short")
        .action(ArgAction::SetTrue);
    Command::new(alloc, "solve")
        .no_binary_name(true)
        .disable_help_flag(true)
        .disable_version_flag(true)
        .arg(file)?
        .arg(budget)?
        .arg(proof)?
        .arg(short)
}

// `check FILE PROOF`
pub(crate) fn check_command<'a>(alloc: Global) -> Result<Command<'a>, AllocError>
    ensures { IfOk result (λ c. app_of c ≡ command_app (codes "check") (codes "FILE" ∷ codes "PROOF" ∷ []) []) }
{
    let file = Arg::new(alloc, "FILE").required(true);
    let proof = Arg::new(alloc, "PROOF").required(true);
    Command::new(alloc, "check")
        .no_binary_name(true)
        .disable_help_flag(true)
        .disable_version_flag(true)
        .arg(file)?
        .arg(proof)
}

// `elim FILE [--budget N]`
pub(crate) fn elim_command<'a>(alloc: Global) -> Result<Command<'a>, AllocError>
    ensures { IfOk result (λ c. app_of c ≡ command_app (codes "elim") (codes "FILE" ∷ []) budget_option) }
{
    let file = Arg::new(alloc, "FILE").required(true);
    let budget = Arg::new(alloc, "budget").long("budget");
    Command::new(alloc, "elim")
        .no_binary_name(true)
        .disable_help_flag(true)
        .disable_version_flag(true)
        .arg(file)?
        .arg(budget)
}

// `find FILE [--budget N] [--proof]`
pub(crate) fn find_command<'a>(alloc: Global) -> Result<Command<'a>, AllocError>
    ensures { IfOk result (λ c. app_of c ≡ command_app (codes "find") (codes "FILE" ∷ []) find_options) }
{
    let file = Arg::new(alloc, "FILE").required(true);
    let budget = Arg::new(alloc, "budget").long("budget");
    let proof = Arg::new(alloc, "proof")
        .long("proof")
        .action(ArgAction::SetTrue);
    Command::new(alloc, "find")
        .no_binary_name(true)
        .disable_help_flag(true)
        .disable_version_flag(true)
        .arg(file)?
        .arg(budget)?
        .arg(proof)
}

// `smt FILE [--budget N]`
pub(crate) fn smt_command<'a>(alloc: Global) -> Result<Command<'a>, AllocError>
    ensures { IfOk result (λ c. app_of c ≡ command_app (codes "smt") (codes "FILE" ∷ []) budget_option) }
{
    let file = Arg::new(alloc, "FILE").required(true);
    let budget = Arg::new(alloc, "budget").long("budget");
    Command::new(alloc, "smt")
        .no_binary_name(true)
        .disable_help_flag(true)
        .disable_version_flag(true)
        .arg(file)?
        .arg(budget)
}

// `least FILE TERM [--budget N]`
pub(crate) fn least_command<'a>(alloc: Global) -> Result<Command<'a>, AllocError>
    ensures { IfOk result (λ c. app_of c ≡ command_app (codes "least") (codes "FILE" ∷ codes "TERM" ∷ []) budget_option) }
{
    let file = Arg::new(alloc, "FILE").required(true);
    let term = Arg::new(alloc, "TERM").required(true);
    let budget = Arg::new(alloc, "budget").long("budget");
    Command::new(alloc, "least")
        .no_binary_name(true)
        .disable_help_flag(true)
        .disable_version_flag(true)
        .arg(file)?
        .arg(term)?
        .arg(budget)
}

// `drill COUNT [--budget N]`
pub(crate) fn drill_command<'a>(alloc: Global) -> Result<Command<'a>, AllocError>
    ensures { IfOk result (λ c. app_of c ≡ command_app (codes "drill") (codes "COUNT" ∷ []) budget_option) }
{
    let count = Arg::new(alloc, "COUNT").required(true);
    let budget = Arg::new(alloc, "budget").long("budget");
    Command::new(alloc, "drill")
        .no_binary_name(true)
        .disable_help_flag(true)
        .disable_version_flag(true)
        .arg(count)?
        .arg(budget)
}

// What the command finds in the words, or that it refuses them.
pub(crate) fn read<'a>(
    command: Command<'a>,
    words: &'a [String],
) -> Result<ArgMatches<'a>, WordsFault>
    requires { is_simple_and_free (app_of command) ≡ true }
    ensures found { IfOk result (λ m. (fault_of (app_of command.entry) (map string_bytes words.entry.now) ≡ [])
        × (rows_of (found_of m) ≡ matches_of (app_of command.entry) (map string_bytes words.entry.now))) }
    ensures refused { IfErr result (λ e. e ≡ WordsFault.Words → fault_of (app_of command.entry) (map string_bytes words.entry.now) ≢ []) }
{
    match command.try_get_matches_from(words) {
        Ok(matches) => Ok(matches),
        Err(error) => match error.kind() {
            ErrorKind::OutOfMemory => Err(WordsFault::Memory),
            _ => Err(WordsFault::Words),
        },
    }
}
