// Commands that only say something: whatever comes before them, or of the last check.

ghost use Rattle.smt_commands.specs.Commands.{asked_values, command_by, information, is_symbol};
ghost use Rattle.smt_commands.specs.Views.{form_of, saying_of};
ghost use Rattle.smt_lists.specs.Expressions.{expr};
ghost use Rattle.std.specs.List.{list_all};
ghost use Rattle.std.specs.Option.{option_map};
ghost use Rattle.std.specs.Prelude.{◌≡◌, map};
ghost use Rattle.smt_commands.specs.declared.words.Word.TheVariants as w;

use crate::command::{Command, alone};
use crate::expressions::{is_keyword, keyword, members, string_text, symbol};
use smt_lists::Sexp;

/// What a command says, whatever comes before it, or of the last check (SMT-LIB 2.6, sections 4.1.7, 4.2.7 and 4.2.8).
#[derive(Clone, Copy)]
pub enum Saying<'a> {
    /// A string, by what stands between its quotes.
    Echoed(&'a [u8]),
    /// The name of the program.
    Program,
    /// Its version.
    Version,
    /// Its authors.
    Authors,
    /// What it does after an error.
    AfterError,
    /// That it does not support this.
    Unsupported,
    /// Why the answer to the last check is unknown.
    Reason,
    /// The model of the last check.
    Model,
    /// The values there of these symbols.
    Values(&'a [Sexp]),
}

/// `echo` with a string.
pub(crate) fn echo(rest: &[Sexp]) -> Option<Command<'_>>
    ensures exact { option_map form_of result ≡ command_by w.Echo (map expr rest.now) }
{
    let (string, end) = rest.split_first()?;
    let text = string_text(string)?;
    alone(end, Command::Say(Saying::Echoed(text)))
}

/// `get-info` with a keyword.
pub(crate) fn get_info(rest: &[Sexp]) -> Option<Command<'_>>
    ensures exact { option_map form_of result ≡ command_by w.GetInfo (map expr rest.now) }
{
    let (flag, end) = rest.split_first()?;
    let flag = keyword(flag)?;
    alone(end, Command::Say(information(flag)))
}

/// What is said of a flag of `get-info`.
fn information(flag: &[u8]) -> Saying<'_>
    ensures { saying_of result ≡ information flag.now }
{
    if flag == b":name".as_slice() {
        return Saying::Program;
    }
    if flag == b":authors".as_slice() {
        return Saying::Authors;
    }
    if flag == b":error-behavior".as_slice() {
        return Saying::AfterError;
    }
    if flag == b":version".as_slice() {
        return Saying::Version;
    }
    if flag == b":reason-unknown".as_slice() {
        return Saying::Reason;
    }
    Saying::Unsupported
}

/// `get-option` with a keyword.
pub(crate) fn get_option(rest: &[Sexp]) -> Option<Command<'_>>
    ensures exact { option_map form_of result ≡ command_by w.GetOption (map expr rest.now) }
{
    let (option, end) = rest.split_first()?;
    if !is_keyword(option) {
        return None;
    }
    alone(end, Command::Say(Saying::Unsupported))
}

/// `get-value` with a list of terms, one at least.
pub(crate) fn get_value(rest: &[Sexp]) -> Option<Command<'_>>
    ensures exact { option_map form_of result ≡ command_by w.GetValue (map expr rest.now) }
{
    let (list, end) = rest.split_first()?;
    let terms = members(list)?;
    if terms.is_empty() {
        return None;
    }
    alone(end, Command::Say(asked_values(terms)))
}

/// What is said where the values of these terms are asked for.
fn asked_values(terms: &[Sexp]) -> Saying<'_>
    ensures { saying_of result ≡ asked_values (map expr terms.now) }
{
    if are_symbols(terms) {
        Saying::Values(terms)
    } else {
        Saying::Unsupported
    }
}

/// Whether each is a symbol.
#[tactic(auto, using(crate::proofs::Forms::symbols_on, crate::proofs::Forms::symbols_off, crate::proofs::Forms::symbols_end))]
fn are_symbols(items: &[Sexp]) -> bool
    ensures { result ≡ list_all is_symbol (map expr items.now) }
{
    let mut rest = items;
    while let Some((item, behind)) = rest.split_first() {
        if !is_symbol(item) {
            return false;
        }
        rest = behind;
    }
    true
}

/// Whether it is a symbol.
fn is_symbol(item: &Sexp) -> bool
    ensures { result ≡ is_symbol (expr item.now) }
{
    symbol(item).is_some()
}
