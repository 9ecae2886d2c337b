// What a command does for a dialogue, by its form and its word.

ghost use Rattle.job_dialogue.specs.Dialogue.{IsPieceRead};
ghost use Rattle.job_dialogue.specs.Kinds.{begins_with, is_shorthand, is_symbol, is_text, kind_by, kind_of, option_kind, reading_of, said_kind, success_kind};
ghost use Rattle.smt_commands.specs.Commands.{keyword_of};
ghost use Rattle.smt_commands.specs.Views.{form_of, now_of, saying_of, symbol_is};
ghost use Rattle.smt_lists.specs.Expressions.{expr};
ghost use Rattle.std.specs.Option.{option_map};
ghost use Rattle.std.specs.Prelude.{◌≡◌, IfOk, map};

use linear_term::Memory;
use smt_commands::{Command, Name, Saying, members, place, read_command, symbol};
use smt_lists::{AtomKind, ReadRefusal, Sexp, lists};
use std::alloc::Global;

/// What a command does for a dialogue.
#[derive(Clone, Copy, Debug, PartialEq, Eq)]
pub enum Kind {
    /// A declaration, a definition or an assertion, which is kept where it is accepted.
    Keeps,
    /// A check.
    Asks,
    /// It asks for something of the last check: its model, values there, or why its answer is unknown.
    Shows,
    /// This many levels more.
    Opens(u128),
    /// This many levels fewer.
    Leaves(u128),
    /// Nothing before counts any longer.
    Restarts,
    /// The dialogue ends.
    Ends,
    /// Whether commands are answered by `success` from here on.
    Succeeds(bool),
    /// It asks what is done after an error.
    Behaves,
    /// All the rest, which the script judges.
    Says,
}

/// Where the list of a piece begins, and what it does.
#[derive(Clone, Copy, Debug, PartialEq, Eq)]
pub struct Reading {
    pub start: u64,
    pub kind: Kind,
}

/// How a piece is read: where it is not one list, the script judges all of it.
pub(crate) fn read(alloc: Global, piece: &[u8]) -> Result<Reading, Memory>
    ensures { IfOk result (λ reading. IsPieceRead piece.now reading) }
{
    match lists(alloc, piece) {
        Ok(found) => Ok(reading_of(found.as_slice())),
        Err(ReadRefusal::Memory) => Err(Memory),
        Err(ReadRefusal::Syntax(_) | ReadRefusal::Deep(_)) => Ok(judged()),
    }
}

/// That the script judges all of a piece.
fn judged() -> Reading
    ensures { result ≡ record { start = 0; kind = Kind.Says } }
{
    Reading {
        start: 0,
        kind: Kind::Says,
    }
}

/// How these lists are read.
fn reading_of(found: &[Sexp]) -> Reading
    ensures { result ≡ reading_of (map expr found.now) }
{
    let [list] = found else {
        return judged();
    };
    let Some(items) = members(list) else {
        return judged();
    };
    Reading {
        start: place(list),
        kind: kind_of(items),
    }
}

/// What a list of these members does.
fn kind_of(items: &[Sexp]) -> Kind
    ensures { result ≡ kind_of (map expr items.now) }
{
    kind_by(items, read_command(items))
}

/// What it does, where it is this command.
fn kind_by(items: &[Sexp], command: Option<Command<'_>>) -> Kind
    ensures { result ≡ kind_by (map expr items.now) (option_map form_of command.entry) }
{
    match command {
        None => {
            if is_shorthand(items) {
                Kind::Keeps
            } else {
                Kind::Says
            }
        }
        Some(Command::Declare(_, _, _)) => Kind::Keeps,
        Some(Command::Define(_, _, _, _)) => Kind::Keeps,
        Some(Command::Assert(_)) => Kind::Keeps,
        Some(Command::CheckSat(_)) => Kind::Asks,
        Some(Command::Push(levels)) => Kind::Opens(levels),
        Some(Command::Pop(levels)) => Kind::Leaves(levels),
        Some(Command::Reset) => Kind::Restarts,
        Some(Command::Exit) => Kind::Ends,
        Some(Command::Say(saying)) => said_kind(saying),
        Some(Command::Skip) => option_kind(items),
    }
}

/// What a command does that only says something: some of what is said speaks of the last check.
fn said_kind(saying: Saying<'_>) -> Kind
    ensures { result ≡ said_kind (saying_of saying.entry) }
{
    match saying {
        Saying::AfterError => Kind::Behaves,
        Saying::Echoed(_) => Kind::Says,
        Saying::Program => Kind::Says,
        Saying::Version => Kind::Says,
        Saying::Authors => Kind::Says,
        Saying::Unsupported => Kind::Says,
        Saying::Reason => Kind::Shows,
        Saying::Model => Kind::Shows,
        Saying::Values(_) => Kind::Shows,
    }
}

/// What a command without effect does: `set-option` with `:print-success` says whether commands are answered by `success`.
fn option_kind(items: &[Sexp]) -> Kind
    ensures { result ≡ option_kind (map expr items.now) }
{
    let Some((word, behind)) = items.split_first() else {
        return Kind::Says;
    };
    let Some((option, behind)) = behind.split_first() else {
        return Kind::Says;
    };
    let Some((value, _)) = behind.split_first() else {
        return Kind::Says;
    };
    if is_symbol(symbol(word), b"set-option") && is_text(keyword(option), b":print-success") {
        return success_kind(symbol(value));
    }
    Kind::Says
}

/// What `:print-success` with this value does.
fn success_kind(value: Option<Name<'_>>) -> Kind
    ensures { result ≡ success_kind (option_map symbol_is value.entry) }
{
    if is_symbol(value, b"true") {
        return Kind::Succeeds(true);
    }
    if is_symbol(value, b"false") {
        return Kind::Succeeds(false);
    }
    Kind::Says
}

/// Whether it is short for declarations, definitions and assertions.
fn is_shorthand(items: &[Sexp]) -> bool
    ensures { result ≡ is_shorthand (map expr items.now) }
{
    begins_with(items, b"define-sort")
        || begins_with(items, b"define-fun-rec")
        || begins_with(items, b"define-funs-rec")
}

/// Whether the first of these is this symbol.
fn begins_with(items: &[Sexp], word: &[u8]) -> bool
    ensures { result ≡ begins_with (map expr items.now) word.now }
{
    match items.split_first() {
        Some((head, _)) => is_symbol(symbol(head), word),
        None => false,
    }
}

/// Whether it is a symbol with this text.
fn is_symbol(name: Option<Name<'_>>, text: &[u8]) -> bool
    ensures { result ≡ is_symbol (option_map symbol_is name.entry) text.now }
{
    match name {
        Some(name) => name.text == text,
        None => false,
    }
}

/// Whether it is this text.
fn is_text(found: Option<&[u8]>, text: &[u8]) -> bool
    ensures { result ≡ is_text (option_map now_of found.entry) text.now }
{
    match found {
        Some(found) => found == text,
        None => false,
    }
}

/// The keyword that an S-expression is.
#[tactic(auto, using(smt_commands::proofs::Forms::views))]
fn keyword(e: &Sexp) -> Option<&[u8]>
    ensures exact { option_map now_of result ≡ keyword_of (expr e.now) }
{
    match e {
        Sexp::Atom(a) => match &a.kind {
            AtomKind::Keyword(text) => Some(text.as_slice()),
            AtomKind::Symbol(_)
            | AtomKind::Numeral(_)
            | AtomKind::LargeNumeral
            | AtomKind::Decimal
            | AtomKind::Hash
            | AtomKind::StringLiteral(_) => None,
        },
        Sexp::List(_, _) => None,
    }
}
