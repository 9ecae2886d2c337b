// Declared functions and predicates: item { `,` item } `;`, item = identifier [ `(` [ arg { `,` arg } ] `)` ], and
// arg = int [ identifier ].

ghost use Rattle.pri_reader.specs.BlockReading.{MayTake, PassesStates, StopsReader, with_items};
ghost use Rattle.pri_tokens.specs.declared.terminals.Terminal.TheVariants as t;
ghost use Rattle.pri_reader.specs.MachineStates.{ItemsFor, a_parameter, an_item, an_item_line, behind_item, items_more};
ghost use Rattle.pri_reader.specs.Machine.{with_item};
ghost use Rattle.pri_reader.specs.declared.tree.Name.{Name};
ghost use Rattle.std.specs.Prelude.{◌≤◌, ◌<◌, ◌^◌, IfErr, IfOk, length};

use crate::cursor::{after, name, sign};
use crate::tree::{Item, ReadRefusal};
use pri_tokens::{Lexeme, Terminal};
use sqlite_items::Items;
use std::alloc::Global;

/// Items up to the `;` after them, and the tokens after it.
pub fn items<'a>(
    alloc: Global,
    bytes: &[u8],
    tokens: &'a [Lexeme],
) -> Result<(Items<Item>, &'a [Lexeme]), ReadRefusal>
    requires { length tokens.now < 2 ^ 32 }
    ensures read { IfOk result (λ x. PassesStates bytes.now tokens.now (λ i. an_item i) x.1.now (λ i. an_item_line (with_items i x.0))) }
    ensures refused { IfErr result (StopsReader bytes.now {A = ItemsFor} (λ i. an_item i) tokens.now) }
    ensures shorter { IfOk result (λ x. length x.1.now < length tokens.now) }
{
    let mut items = Items::new(alloc);
    let mut inner = tokens;
    'items: loop {
        let (item, rest) = item(alloc, bytes, inner)?;
        items.push(item)?;
        let Some((_, more)) = after(rest, Terminal::Comma) else {
            let (_, behind) = sign(bytes, rest, Terminal::Semicolon)?;
            return Ok((items, behind));
        };
        inner = more;
    }
}

/// One item, and the tokens after it.
fn item<'a>(
    alloc: Global,
    bytes: &[u8],
    tokens: &'a [Lexeme],
) -> Result<(Item, &'a [Lexeme]), ReadRefusal>
    requires { length tokens.now < 2 ^ 32 }
    ensures read { IfOk result (λ x. PassesStates bytes.now tokens.now (λ i. an_item i) x.1.now (λ i. items_more (with_item i x.0.name x.0.arity))) }
    ensures refused { IfErr result (StopsReader bytes.now {A = ItemsFor} (λ i. an_item i) tokens.now) }
    ensures shorter { IfOk result (λ x. length x.1.now < length tokens.now) }
{
    let (identifier, behind) = sign(bytes, tokens, Terminal::Identifier)?;
    let name = name(alloc, bytes, &identifier)?;
    let (arity, rest) = arity(bytes, behind)?;
    Ok((Item { name, arity }, rest))
}

/// After the name of an item: the number of its arguments, and the tokens after them.
#[tactic(auto, using(crate::proofs::BlockExits::memory, crate::proofs::Exits::shorter))]
fn arity<'a>(bytes: &[u8], tokens: &'a [Lexeme]) -> Result<(u32, &'a [Lexeme]), ReadRefusal>
    requires { length tokens.now < 2 ^ 32 }
    ensures read { IfOk result (λ x. PassesStates bytes.now tokens.now (λ (p : ItemsFor × Name). behind_item p.0 p.1) x.1.now (λ (p : ItemsFor × Name). items_more (with_item p.0 p.1 x.0))) }
    ensures refused { IfErr result (StopsReader bytes.now (λ (p : ItemsFor × Name). behind_item p.0 p.1) tokens.now) }
    ensures shorter { IfOk result (λ x. length x.1.now ≤ length tokens.now) }
{
    let Some((_, inner)) = after(tokens, Terminal::OpenParenthesis) else {
        return Ok((0, tokens));
    };
    if let Some((_, rest)) = after(inner, Terminal::CloseParenthesis) {
        return Ok((0, rest));
    }
    let (count, rest) = parameters(bytes, inner)?;
    Ok((count, rest))
}

/// One argument or more up to the `)` after them: their number, and the tokens after it.
#[tactic(auto, using(crate::proofs::Exits::shorter))]
fn parameters<'a>(bytes: &[u8], tokens: &'a [Lexeme]) -> Result<(u32, &'a [Lexeme]), ReadRefusal>
    requires { length tokens.now < 2 ^ 32 }
    ensures read { IfOk result (λ x. PassesStates bytes.now tokens.now (λ (p : ItemsFor × Name). a_parameter p.0 p.1 0) x.1.now (λ (p : ItemsFor × Name). items_more (with_item p.0 p.1 x.0))) }
    ensures refused { IfErr result (StopsReader bytes.now (λ (p : ItemsFor × Name). a_parameter p.0 p.1 0) tokens.now) }
    ensures shorter { IfOk result (λ x. length x.1.now < length tokens.now) }
{
    let mut count: u32 = 0;
    let mut inner = tokens;
    'parameters: loop {
        let (_, named) = sign(bytes, inner, Terminal::Int)?;
        let rest = behind_name(named);
        count += 1;
        let Some((_, more)) = after(rest, Terminal::Comma) else {
            let (_, behind) = sign(bytes, rest, Terminal::CloseParenthesis)?;
            return Ok((count, behind));
        };
        inner = more;
    }
}

/// The tokens after the name of an argument, if it has one.
fn behind_name(tokens: &[Lexeme]) -> &[Lexeme]
    ensures read { MayTake t.Identifier tokens.now result.now }
    ensures shorter { length result.now ≤ length tokens.now }
{
    match after(tokens, Terminal::Identifier) {
        Some((_, rest)) => rest,
        None => tokens,
    }
}
