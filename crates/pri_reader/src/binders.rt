// The names that a quantifier binds, each of which opens a level.

ghost use Rattle.pri_reader.specs.MachineStates.{a_binder, a_type, for_binder};
ghost use Rattle.pri_reader.specs.Reading.{Binds, BindsNext, BindsNoMore, BindsNone};
ghost use Rattle.std.specs.Prelude.{◌≤◌, ◌<◌, [], IfErr, IfOk, length};

use crate::cursor::{after, deeper, name, sign};
use crate::tree::{Declared, ReadRefusal, TypeName};
use crate::types::type_name;
use pri_tokens::{Lexeme, Terminal};
use sqlite_items::Items;
use std::alloc::Global;

/// What follows a bound name.
#[derive(Clone, Copy)]
pub enum NextBound {
    /// One more name, of this type.
    Name(TypeName),
    /// The body of the quantifier.
    Body,
}

/// binder = type identifier { `,` identifier } `;`, or in parentheses several such lists, parted by `;`. Gives the names,
/// the levels that are then open, and the tokens of the body.
pub fn binder<'a>(
    alloc: Global,
    bytes: &[u8],
    tokens: &'a [Lexeme],
    depth: u32,
) -> Result<(Items<Declared>, u32, &'a [Lexeme]), ReadRefusal>
    requires { depth ≤ 200 }
    ensures read { IfOk result (λ x. Binds bytes.now (λ at all. a_binder at all depth) x.0 x.1 tokens.now x.2.now) }
    ensures refused { IfErr result (BindsNone bytes.now (λ at all. a_binder at all depth) tokens.now) }
    ensures deeper { IfOk result (λ x. depth < x.1) }
    ensures levels { IfOk result (λ x. x.1 ≤ 200) }
    ensures shorter { IfOk result (λ x. length x.2.now < length tokens.now) }
{
    let Some((_, inner)) = after(tokens, Terminal::OpenParenthesis) else {
        return bound_names(alloc, bytes, tokens, depth, false);
    };
    bound_names(alloc, bytes, inner, depth, true)
}

/// A binder from its first type on, with several lists or one.
#[tactic(auto, using(crate::proofs::BoundNames::binding_memory))]
fn bound_names<'a>(
    alloc: Global,
    bytes: &[u8],
    tokens: &'a [Lexeme],
    depth: u32,
    several: bool,
) -> Result<(Items<Declared>, u32, &'a [Lexeme]), ReadRefusal>
    requires { depth ≤ 200 }
    ensures read { IfOk result (λ x. Binds bytes.now (λ at all. a_type (for_binder at all several depth [])) x.0 x.1 tokens.now x.2.now) }
    ensures refused { IfErr result (BindsNone bytes.now (λ at all. a_type (for_binder at all several depth [])) tokens.now) }
    ensures deeper { IfOk result (λ x. depth < x.1) }
    ensures levels { IfOk result (λ x. x.1 ≤ 200) }
    ensures shorter { IfOk result (λ x. length x.2.now < length tokens.now) }
{
    let (mut sort, mut inner) = type_name(bytes, tokens)?;
    let mut names = Items::new(alloc);
    let mut levels = depth;
    'names: loop {
        let (identifier, rest) = sign(bytes, inner, Terminal::Identifier)?;
        levels = deeper(levels, identifier.at)?;
        let name = name(alloc, bytes, &identifier)?;
        names.push(Declared { sort, name })?;
        let (next, behind) = next_bound(bytes, rest, several, sort)?;
        match next {
            NextBound::Body => return Ok((names, levels, behind)),
            NextBound::Name(new) => {
                sort = new;
                inner = behind;
            }
        }
    }
}

/// What follows a bound name of this type, and the tokens after its sign, or after the new type.
fn next_bound<'a>(
    bytes: &[u8],
    tokens: &'a [Lexeme],
    several: bool,
    sort: TypeName,
) -> Result<(NextBound, &'a [Lexeme]), ReadRefusal>
    ensures read { IfOk result (λ x. BindsNext bytes.now several sort x.0 tokens.now x.1.now) }
    ensures refused { IfErr result (BindsNoMore bytes.now several sort tokens.now) }
    ensures shorter { IfOk result (λ x. length x.1.now < length tokens.now) }
{
    if let Some((_, rest)) = after(tokens, Terminal::Comma) {
        return Ok((NextBound::Name(sort), rest));
    }
    if !several {
        let (_, rest) = sign(bytes, tokens, Terminal::Semicolon)?;
        return Ok((NextBound::Body, rest));
    }
    let Some((_, line)) = after(tokens, Terminal::Semicolon) else {
        let (_, rest) = sign(bytes, tokens, Terminal::CloseParenthesis)?;
        return Ok((NextBound::Body, rest));
    };
    let (new, rest) = type_name(bytes, line)?;
    Ok((NextBound::Name(new), rest))
}
