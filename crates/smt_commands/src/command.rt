// Which lists are commands. Where a command has a sort or a term, any S-expression may stand for its form.

ghost use Rattle.smt_commands.specs.Commands.{command_by, command_of, declares, defines, is_argument};
ghost use Rattle.smt_commands.specs.Views.{form_of, items_of, symbol_is};
ghost use Rattle.smt_lists.specs.Expressions.{expr};
ghost use Rattle.std.specs.List.{list_all};
ghost use Rattle.std.specs.Option.{option_map};
ghost use Rattle.std.specs.Prelude.{◌≡◌, [], map, MatchOption};
ghost use Rattle.smt_commands.specs.declared.words.Word.TheVariants as w;

use crate::expressions::{Name, is_keyword, levels, members, symbol};
use crate::saying::{Saying, echo, get_info, get_option, get_value};
use crate::words::{Word, find_word};
use smt_lists::Sexp;

/// A command.
#[derive(Clone, Copy)]
pub enum Command<'a> {
    /// A command without effect.
    Skip,
    /// A command that only says something.
    Say(Saying<'a>),
    /// A symbol is declared, with the sorts of its arguments and its sort.
    Declare(Name<'a>, &'a [Sexp], &'a Sexp),
    /// A symbol is defined, with its arguments, its sort and its term.
    Define(Name<'a>, &'a [Sexp], &'a Sexp, &'a Sexp),
    Assert(&'a Sexp),
    /// A check, with the terms that are assumed for it.
    CheckSat(&'a [Sexp]),
    /// This many assertion levels more.
    Push(u128),
    /// This many assertion levels fewer.
    Pop(u128),
    /// Nothing before counts any longer.
    Reset,
    Exit,
}

/// The command that a list of these members is; none where it is none.
pub fn read_command(members: &[Sexp]) -> Option<Command<'_>>
    ensures exact { option_map form_of result ≡ command_of (map expr members.now) }
{
    let Some((head, rest)) = members.split_first() else {
        return None;
    };
    let Some(name) = symbol(head) else {
        return None;
    };
    let Some(word) = find_word(name.text) else {
        return None;
    };
    by_word(word, rest)
}

/// The command of a word with these members after it.
fn by_word(word: Word, rest: &[Sexp]) -> Option<Command<'_>>
    ensures exact { option_map form_of result ≡ command_by word (map expr rest.now) }
{
    match word {
        Word::SetLogic => set_logic(rest),
        Word::SetInfo => set_info(rest),
        Word::SetOption => set_option(rest),
        Word::DeclareConst => declare_const(rest),
        Word::DeclareFun => declare_fun(rest),
        Word::DefineFun => define_fun(rest),
        Word::DefineConst => define_const(rest),
        Word::Assert => assert(rest),
        Word::CheckSat => alone(rest, Command::CheckSat(&[])),
        Word::CheckSatAssuming => check_assuming(rest),
        Word::Push => push(rest),
        Word::Pop => pop(rest),
        Word::Reset | Word::ResetAssertions => alone(rest, Command::Reset),
        Word::Echo => echo(rest),
        Word::GetInfo => get_info(rest),
        Word::GetOption => get_option(rest),
        Word::GetValue => get_value(rest),
        Word::GetModel => alone(rest, Command::Say(Saying::Model)),
        Word::GetAssignment
        | Word::GetAssertions
        | Word::GetUnsatCore
        | Word::GetUnsatAssumptions
        | Word::GetProof => alone(rest, Command::Say(Saying::Unsupported)),
        Word::Exit => alone(rest, Command::Exit),
    }
}

/// `set-logic` with a symbol.
fn set_logic(rest: &[Sexp]) -> Option<Command<'_>>
    ensures exact { option_map form_of result ≡ command_by w.SetLogic (map expr rest.now) }
{
    let (logic, end) = rest.split_first()?;
    symbol(logic)?;
    alone(end, Command::Skip)
}

/// `set-info` with a keyword, and one S-expression at most.
fn set_info(rest: &[Sexp]) -> Option<Command<'_>>
    ensures exact { option_map form_of result ≡ command_by w.SetInfo (map expr rest.now) }
{
    let (keyword, behind) = rest.split_first()?;
    if !is_keyword(keyword) {
        return None;
    }
    let Some((_, end)) = behind.split_first() else {
        return Some(Command::Skip);
    };
    alone(end, Command::Skip)
}

/// `set-option` with a keyword and one S-expression.
fn set_option(rest: &[Sexp]) -> Option<Command<'_>>
    ensures exact { option_map form_of result ≡ command_by w.SetOption (map expr rest.now) }
{
    let (keyword, behind) = rest.split_first()?;
    let (_, end) = behind.split_first()?;
    if !is_keyword(keyword) {
        return None;
    }
    alone(end, Command::Skip)
}

/// `declare-const` with a symbol and a sort.
fn declare_const(rest: &[Sexp]) -> Option<Command<'_>>
    ensures exact { option_map form_of result ≡ command_by w.DeclareConst (map expr rest.now) }
{
    let (name, behind) = rest.split_first()?;
    let (sort, end) = behind.split_first()?;
    if !end.is_empty() {
        return None;
    }
    declares(symbol(name), Some(&[]), sort)
}

/// `declare-fun` with a symbol, the sorts of its arguments, and its sort.
fn declare_fun(rest: &[Sexp]) -> Option<Command<'_>>
    ensures exact { option_map form_of result ≡ command_by w.DeclareFun (map expr rest.now) }
{
    let (name, behind) = rest.split_first()?;
    let (sorts, behind) = behind.split_first()?;
    let (sort, end) = behind.split_first()?;
    if !end.is_empty() {
        return None;
    }
    declares(symbol(name), members(sorts), sort)
}

/// `define-fun` with a symbol, its arguments, its sort and its term.
fn define_fun(rest: &[Sexp]) -> Option<Command<'_>>
    ensures exact { option_map form_of result ≡ command_by w.DefineFun (map expr rest.now) }
{
    let (name, behind) = rest.split_first()?;
    let (arguments, behind) = behind.split_first()?;
    let (sort, behind) = behind.split_first()?;
    let (term, end) = behind.split_first()?;
    if !end.is_empty() {
        return None;
    }
    defines(symbol(name), members(arguments), sort, term)
}

/// `define-const` with a symbol, its sort and its term: a definition without arguments (SMT-LIB 2.7, section 4.2.3).
fn define_const(rest: &[Sexp]) -> Option<Command<'_>>
    ensures exact { option_map form_of result ≡ command_by w.DefineConst (map expr rest.now) }
{
    let (name, behind) = rest.split_first()?;
    let (sort, behind) = behind.split_first()?;
    let (term, end) = behind.split_first()?;
    if !end.is_empty() {
        return None;
    }
    defines(symbol(name), Some(&[]), sort, term)
}

/// The declaration of a symbol with these sorts of its arguments; none where there is no symbol or no list.
fn declares<'a>(
    name: Option<Name<'a>>,
    sorts: Option<&'a [Sexp]>,
    sort: &'a Sexp,
) -> Option<Command<'a>>
    ensures exact { option_map form_of result ≡ declares (option_map symbol_is name.entry) (option_map items_of sorts.entry) (expr sort.now) }
{
    Some(Command::Declare(name?, sorts?, sort))
}

/// The definition of a symbol with these arguments; none where there is no symbol, or no list of arguments.
fn defines<'a>(
    name: Option<Name<'a>>,
    arguments: Option<&'a [Sexp]>,
    sort: &'a Sexp,
    term: &'a Sexp,
) -> Option<Command<'a>>
    ensures exact { option_map form_of result ≡ defines (option_map symbol_is name.entry) (option_map items_of arguments.entry) (expr sort.now) (expr term.now) }
{
    let name = name?;
    let arguments = arguments?;
    if !are_arguments(arguments) {
        return None;
    }
    Some(Command::Define(name, arguments, sort, term))
}

/// `assert` with a term.
fn assert(rest: &[Sexp]) -> Option<Command<'_>>
    ensures exact { option_map form_of result ≡ command_by w.Assert (map expr rest.now) }
{
    let (term, end) = rest.split_first()?;
    alone(end, Command::Assert(term))
}

/// `check-sat-assuming` with a list of terms.
fn check_assuming(rest: &[Sexp]) -> Option<Command<'_>>
    ensures exact { option_map form_of result ≡ command_by w.CheckSatAssuming (map expr rest.now) }
{
    let (list, end) = rest.split_first()?;
    if !end.is_empty() {
        return None;
    }
    let terms = members(list)?;
    Some(Command::CheckSat(terms))
}

/// `push` with a numeral, or one level.
fn push(rest: &[Sexp]) -> Option<Command<'_>>
    ensures exact { option_map form_of result ≡ command_by w.Push (map expr rest.now) }
{
    let Some((count, end)) = rest.split_first() else {
        return Some(Command::Push(1));
    };
    if !end.is_empty() {
        return None;
    }
    let count = levels(count)?;
    Some(Command::Push(count))
}

/// `pop` with a numeral, or one level.
fn pop(rest: &[Sexp]) -> Option<Command<'_>>
    ensures exact { option_map form_of result ≡ command_by w.Pop (map expr rest.now) }
{
    let Some((count, end)) = rest.split_first() else {
        return Some(Command::Pop(1));
    };
    if !end.is_empty() {
        return None;
    }
    let count = levels(count)?;
    Some(Command::Pop(count))
}

/// The command, where nothing stands after it.
pub(crate) fn alone<'a>(end: &[Sexp], command: Command<'a>) -> Option<Command<'a>>
    ensures exact { MatchOption result (end.now ≡ [] → ⊥) (λ c. (end.now ≡ []) × (form_of c ≡ form_of command.entry)) }
{
    if end.is_empty() { Some(command) } else { None }
}

/// Whether each is a list of a symbol and of what stands for its sort.
#[tactic(auto, using(crate::proofs::Forms::all_on, crate::proofs::Forms::all_off, crate::proofs::Forms::all_end))]
fn are_arguments(items: &[Sexp]) -> bool
    ensures exact { result ≡ list_all is_argument (map expr items.now) }
{
    let mut rest = items;
    while let Some((item, behind)) = rest.split_first() {
        if !is_argument(item) {
            return false;
        }
        rest = behind;
    }
    true
}

/// Whether it is a list of a symbol and of what stands for its sort.
fn is_argument(e: &Sexp) -> bool
    ensures exact { result ≡ is_argument (expr e.now) }
{
    let Some(pair) = members(e) else {
        return false;
    };
    let Some((name, behind)) = pair.split_first() else {
        return false;
    };
    let Some((_, end)) = behind.split_first() else {
        return false;
    };
    end.is_empty() && symbol(name).is_some()
}
