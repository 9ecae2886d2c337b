// The blocks of a file, and the file: blocks in any order, with exactly one `\problem`.

ghost use Rattle.pri_reader.specs.BlockReading.{IsBlock, IsNoBlock, IsSecond, heads_problem};
ghost use Rattle.pri_reader.specs.Grammar.{equivalence, has_problem};
ghost use Rattle.pri_reader.specs.MachineStates.{a_block};
ghost use Rattle.pri_reader.specs.Reading.{FailsWith, HeadsNone, reads};
ghost use Rattle.std.specs.Prelude.{◌≡◌, ◌<◌, ◌^◌, ◌||◌, true, false, [], Ok, IfErr, IfOk, length};

use crate::classes::Heading;
use crate::constants::constants;
use crate::cursor::{heading, refused, sign};
use crate::declarations::declarations;
use crate::formulas::whole;
use crate::interpolant::interpolant;
use crate::tree::{Block, File, ReadRefusal};
use pri_tokens::{Lexeme, Terminal};
use sqlite_items::Items;
use std::alloc::Global;

/// The file that these tokens are, which are the last ones of a file of these bytes.
pub fn file(alloc: Global, bytes: &[u8], tokens: &[Lexeme]) -> Result<File, ReadRefusal>
    requires { length tokens.now < 2 ^ 32 }
    ensures read { IfOk result (λ file. reads bytes.now tokens.now (a_block []) [] ≡ Ok file) }
    ensures refused { IfErr result (λ e. FailsWith e (reads bytes.now tokens.now (a_block []) [])) }
{
    let mut blocks = Items::new(alloc);
    let mut problem = false;
    let mut inner = tokens;
    'each: loop {
        let Some((heading, first, rest)) = heading(inner) else {
            return ended(bytes, inner, blocks, problem);
        };
        problem = once(problem, heading, first.at)?;
        let (block, behind) = block(alloc, bytes, rest, first.at, heading)?;
        blocks.push(block)?;
        inner = behind;
    }
}

/// The file of these blocks, before tokens that begin no block; `problem` says whether it has its problem.
fn ended(
    bytes: &[u8],
    tokens: &[Lexeme],
    blocks: Items<Block>,
    problem: bool,
) -> Result<File, ReadRefusal>
    requires none { HeadsNone tokens.now }
    requires has { has_problem blocks ≡ problem }
    ensures read { IfOk result (λ file. reads bytes.now tokens.now (a_block blocks) [] ≡ Ok file) }
    ensures refused { IfErr result (λ e. FailsWith e (reads bytes.now tokens.now (a_block blocks) [])) }
{
    if tokens.is_empty() && problem {
        return Ok(File { blocks });
    }
    Err(refused(bytes, tokens))
}

/// Whether a file has its problem with this block too; Syntax at this offset where that is its second.
fn once(problem: bool, heading: Heading, at: u64) -> Result<bool, ReadRefusal>
    ensures found { IfOk result (λ now. now ≡ problem || heads_problem heading) }
    ensures first { IfOk result (λ _. heads_problem heading ≡ true → problem ≡ false) }
    ensures failed { IfErr result (IsSecond problem heading at) }
{
    match heading {
        Heading::Problem if problem => Err(ReadRefusal::Syntax(at)),
        Heading::Problem => Ok(true),
        Heading::Constants(_) | Heading::Items(_) | Heading::Interpolant => Ok(problem),
    }
}

/// A block, from its `{` on, and the tokens after its `}`.
fn block<'a>(
    alloc: Global,
    bytes: &[u8],
    tokens: &'a [Lexeme],
    at: u64,
    heading: Heading,
) -> Result<(Block, &'a [Lexeme]), ReadRefusal>
    requires { length tokens.now < 2 ^ 32 }
    ensures read { IfOk result (λ x. IsBlock bytes.now heading at x.0 tokens.now x.1.now) }
    ensures refused { IfErr result (IsNoBlock bytes.now heading at tokens.now) }
    ensures shorter { IfOk result (λ x. length x.1.now < length tokens.now) }
{
    match heading {
        Heading::Constants(universal) => constants(alloc, bytes, tokens, at, universal),
        Heading::Items(typed) => declarations(alloc, bytes, tokens, at, typed),
        Heading::Problem => problem(alloc, bytes, tokens, at),
        Heading::Interpolant => interpolant(alloc, bytes, tokens, at),
    }
}

/// A `\problem` block, from its `{` on, and the tokens after its `}`: `{` iff `}`
fn problem<'a>(
    alloc: Global,
    bytes: &[u8],
    tokens: &'a [Lexeme],
    at: u64,
) -> Result<(Block, &'a [Lexeme]), ReadRefusal>
    ensures read { IfOk result (λ x. IsBlock bytes.now Heading.Problem at x.0 tokens.now x.1.now) }
    ensures refused { IfErr result (IsNoBlock bytes.now Heading.Problem at tokens.now) }
    ensures shorter { IfOk result (λ x. length x.1.now < length tokens.now) }
{
    let (_, inner) = sign(bytes, tokens, Terminal::OpenBrace)?;
    let (formula, rest) = whole(alloc, bytes, inner, 0)?;
    let (_, behind) = sign(bytes, rest, Terminal::CloseBrace)?;
    Ok((Block::Problem(at, formula.into_inner()), behind))
}
