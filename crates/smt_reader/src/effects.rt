// What the commands of a script do, with their terms read.

ghost use Rattle.smt_reader.specs.Commands.{Act, before, with_form};
ghost use Rattle.smt_reader.specs.Effects.{act_is};
ghost use Rattle.smt_commands.specs.Views.{form_of};
ghost use Rattle.smt_terms.specs.Term.{phrase};
ghost use Rattle.smt_typing.specs.Reading.{phrase_of};
ghost use Rattle.smt_typing.specs.Steps.{is_exit};
ghost use Rattle.smt_lists.specs.Expressions.{expr};
ghost use Rattle.std.specs.Option.{option_map};
ghost use Rattle.std.specs.Prelude.{◌≡◌, List, Some, IfOk, false, map};

use linear_term::Memory;
use smt_commands::{Command, sort_or_int};
use smt_lists::Sexp;
use smt_terms::{Sort, Term, Variable};
use smt_typing::{argument_variables, read_term};
use sqlite_items::Items;
use std::alloc::Global;

/// A command that declares, defines or asserts.
#[derive(Drop)]
pub enum Effect {
    /// A symbol is declared, with the number of its arguments and its sort.
    Declare(Items<u8>, u64, Sort),
    /// A symbol is defined, with its arguments, its sort and its term.
    Define(Items<u8>, Items<Variable>, Sort, Term),
    /// A term is asserted.
    Claim(Term),
}

/// What a command does.
#[derive(Drop)]
pub enum Step {
    /// It declares, defines or asserts.
    Does(Effect),
    /// It asks, with these terms assumed.
    Asks(Items<Term>),
    /// It opens this many levels.
    Opens(u128),
    /// It leaves this many levels.
    Leaves(u128),
    /// Nothing before it counts any longer.
    Restarts,
}

/// What a command does that does not end the script.
pub fn read_step(alloc: Global, command: Command<'_>) -> Result<Option<Step>, Memory>
    ensures { IfOk result (λ s. (rest : List Act) → is_exit (Some (form_of command.entry)) ≡ false → with_form (Some (form_of command.entry)) rest ≡ before (option_map act_is s) rest) }
{
    match command {
        Command::Skip | Command::Say(_) | Command::Exit => Ok(None),
        Command::Declare(name, sorts, sort) => {
            let text = Items::from_slice(alloc, name.text)?;
            let declared = Effect::Declare(text, sorts.len() as u64, sort_or_int(sort));
            Ok(Some(Step::Does(declared)))
        }
        Command::Define(name, arguments, sort, term) => {
            let text = Items::from_slice(alloc, name.text)?;
            let variables = argument_variables(alloc, arguments)?;
            let term = read_term(alloc, term)?;
            let defined = Effect::Define(text, variables, sort_or_int(sort), term);
            Ok(Some(Step::Does(defined)))
        }
        Command::Assert(term) => Ok(Some(Step::Does(Effect::Claim(read_term(alloc, term)?)))),
        Command::CheckSat(assumed) => Ok(Some(Step::Asks(read_terms(alloc, assumed)?))),
        Command::Push(count) => Ok(Some(Step::Opens(count))),
        Command::Pop(count) => Ok(Some(Step::Leaves(count))),
        Command::Reset => Ok(Some(Step::Restarts)),
    }
}

// The terms that S-expressions are.
fn read_terms(alloc: Global, terms: &[Sexp]) -> Result<Items<Term>, Memory>
    ensures { IfOk result (λ ts. map phrase ts ≡ map phrase_of (map expr terms.now)) }
{
    let mut read = Items::new(alloc);
    for term in terms {
        read.push(read_term(alloc, term)?)?;
    }
    Ok(read)
}
