// A script read as its lists, by one walk over its tokens. The lists that are open stand in a list of their own, so the walk
// takes no stack however they nest.

ghost use Rattle.smt_lists.specs.First.{GivesLists, IsFirstListRefusal};
ghost use Rattle.smt_lists.specs.Grammar.{IsScriptText};
ghost use Rattle.smt_lists.specs.Machine.{ListsFailWith, LeadsLists, StopsLists, run, run_in};
ghost use Rattle.smt_lists.specs.Atoms.{is_atom};
ghost use Rattle.std.specs.Prelude.{◌≡◌, ◌∷◌, [], List, ℕ, Ok, true, length, IfErr, IfOk, MatchResult};
ghost use Rattle.smt_tokens.specs.declared.terminals.Terminal.TheVariants as t;
ghost use Rattle.smt_lists.specs.declared.tree.Sexp.{Sexp};

use crate::atoms::atom;
use crate::refusal::ReadRefusal;
use crate::tree::Sexp;
use smt_tokens::{Lexeme, Terminal, lexemes};
use sqlite_items::Items;
use std::alloc::Global;

/// How many lists may be open at once.
const LEVELS: usize = 200;

/// A list that is open: the offset of its `(`, and what stands before it in the list around it.
#[derive(Drop)]
struct Outer {
    at: u64,
    before: Items<Sexp>,
}

/// The lists that are open, the innermost last, and the members so far of the innermost one; where none is open, the lists
/// of the script so far.
#[derive(Drop)]
struct State {
    outer: Items<Outer>,
    members: Items<Sexp>,
}

/// The lists of a script, in order.
pub fn lists(alloc: Global, bytes: &[u8]) -> Result<Items<Sexp>, ReadRefusal>
    ensures found { IfOk result (λ es. IsScriptText bytes.now es) }
    ensures only { (es : List Sexp) → IsScriptText bytes.now es → GivesLists es result }
    ensures first { IfErr result (λ e. IsFirstListRefusal bytes.now e) }
{
    let tokens = lexemes(alloc, bytes)?;
    read(alloc, bytes, tokens.as_slice())
}

/// The lists that these tokens of a text are.
fn read(alloc: Global, bytes: &[u8], tokens: &[Lexeme]) -> Result<Items<Sexp>, ReadRefusal>
    ensures runs { MatchResult result (λ es. run bytes.now 200 (length bytes.now) tokens.now [] [] ≡ Ok es) (λ e. ListsFailWith e (run bytes.now 200 (length bytes.now) tokens.now [] [])) }
{
    let mut state = State {
        outer: Items::new(alloc),
        members: Items::new(alloc),
    };
    for token in tokens {
        state = step(alloc, bytes, *token, state)?;
    }
    ended(bytes.len() as u64, state)
}

/// The state after one more token.
#[tactic(auto, using(crate::proofs::States::bad_stops, crate::proofs::States::unfinished_stops))]
fn step(alloc: Global, bytes: &[u8], x: Lexeme, state: State) -> Result<State, ReadRefusal>
    ensures runs { MatchResult result (λ new. LeadsLists bytes.now (length bytes.now) x state new) (λ e. StopsLists bytes.now (length bytes.now) x state e) }
{
    match x.terminal {
        Terminal::Open => opened(alloc, x.at, state),
        Terminal::Close => closed(x.at, state),
        Terminal::Bad => Err(ReadRefusal::Syntax(x.at)),
        Terminal::Unfinished => Err(ReadRefusal::Syntax(bytes.len() as u64)),
        Terminal::Numeral
        | Terminal::Decimal
        | Terminal::Hash
        | Terminal::StringLiteral
        | Terminal::Keyword
        | Terminal::Symbol
        | Terminal::Quoted => named(alloc, bytes, x, state),
    }
}

/// The state after a `(` at this offset.
#[tactic(auto, using(crate::proofs::States::open_leads, crate::proofs::States::open_stops))]
fn opened(alloc: Global, at: u64, state: State) -> Result<State, ReadRefusal>
    ensures runs { (bytes : List ℕ) (x : Lexeme) → x.at ≡ at → x.terminal ≡ t.Open → MatchResult result (λ new. LeadsLists bytes (length bytes) x state new) (λ e. StopsLists bytes (length bytes) x state e) }
{
    let State { mut outer, members } = state;
    if outer.len() >= LEVELS {
        return Err(ReadRefusal::Deep(at));
    }
    outer.push(Outer {
        at,
        before: members,
    })?;
    Ok(State {
        outer,
        members: Items::new(alloc),
    })
}

/// The state after a `)` at this offset.
#[tactic(auto, using(crate::proofs::States::close_leads, crate::proofs::States::close_stops))]
fn closed(at: u64, state: State) -> Result<State, ReadRefusal>
    ensures runs { (bytes : List ℕ) (x : Lexeme) → x.at ≡ at → x.terminal ≡ t.Close → MatchResult result (λ new. LeadsLists bytes (length bytes) x state new) (λ e. StopsLists bytes (length bytes) x state e) }
{
    let State { mut outer, members } = state;
    let Some(innermost) = outer.pop() else {
        return Err(ReadRefusal::Syntax(at));
    };
    let Outer { at, mut before } = innermost;
    before.push(Sexp::List(at, members))?;
    Ok(State {
        outer,
        members: before,
    })
}

/// The state after an atom.
#[tactic(auto, using(crate::proofs::States::atom_leads, crate::proofs::States::atom_stops))]
fn named(alloc: Global, bytes: &[u8], x: Lexeme, state: State) -> Result<State, ReadRefusal>
    requires { is_atom x.terminal ≡ true }
    ensures runs { MatchResult result (λ new. LeadsLists bytes.now (length bytes.now) x state new) (λ e. StopsLists bytes.now (length bytes.now) x state e) }
{
    let State { outer, mut members } = state;
    if outer.is_empty() {
        return Err(ReadRefusal::Syntax(x.at));
    }
    members.push(Sexp::Atom(atom(alloc, bytes, x)?))?;
    Ok(State { outer, members })
}

/// The lists of a script that ends at this offset in this state.
#[tactic(auto, using(crate::proofs::States::end_reads, crate::proofs::States::end_stops))]
fn ended(end: u64, state: State) -> Result<Items<Sexp>, ReadRefusal>
    ensures runs { (bytes : List ℕ) → MatchResult result (λ es. run_in bytes end [] state ≡ Ok es) (λ e. ListsFailWith e (run_in bytes end [] state)) }
{
    let State { outer, members } = state;
    if !outer.is_empty() {
        return Err(ReadRefusal::Syntax(end));
    }
    Ok(members)
}
