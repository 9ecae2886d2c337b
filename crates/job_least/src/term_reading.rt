// The term that a text is. Its tokens are read as those of a `\problem` block, which are the term's and no others.

ghost use Rattle.pri_tokens.specs.Lexemes.{lexemes_of};
ghost use Rattle.std.specs.Prelude.{◌≡◌, ◌∷◌, [], IfOk};
ghost use Rattle.job_least.specs.Reads.{IsOnlyTerm, IsReadTerm, in_block, is_sum, made};

use linear_term::Memory;
use pri_reader::{Block, Expr, File, Form, ReadRefusal, file};
use pri_tokens::{Lexeme, Terminal, lexemes};
use sqlite_items::Items;
use std::alloc::Global;

// The reader numbers what it reads in 32 bits; more tokens than that do not fit in memory.
const MOST_TOKENS: usize = u32::MAX as usize;

/// The tree of a text that is one term: that of its tokens by the line `sum` of the grammar, with numerals up to 2^127 − 1 and
/// at most 200 levels; none where the text is no such term.
pub fn read_term(alloc: Global, bytes: &[u8]) -> Result<Option<Expr>, Memory>
    ensures { IfOk result (IsReadTerm bytes.now) }
{
    let tokens = block_tokens(alloc, bytes)?;
    if tokens.len() > MOST_TOKENS {
        return Err(Memory);
    }
    match file(alloc, bytes, tokens.as_slice()) {
        Ok(file) => Ok(only_term(file)),
        Err(ReadRefusal::Memory) => Err(Memory),
        Err(ReadRefusal::Syntax(_)) => Ok(None),
        Err(ReadRefusal::Literal(_)) => Ok(None),
        Err(ReadRefusal::Deep(_)) => Ok(None),
    }
}

// The tokens of the text, as those of a `\problem` block.
fn block_tokens(alloc: Global, bytes: &[u8]) -> Result<Items<Lexeme>, Memory>
    ensures { IfOk result (λ tokens. tokens ≡ in_block (lexemes_of bytes.now)) }
{
    let mut tokens = Items::new(alloc);
    tokens.push(made(Terminal::Problem))?;
    tokens.push(made(Terminal::OpenBrace))?;
    tokens.append(lexemes(alloc, bytes)?)?;
    tokens.push(made(Terminal::CloseBrace))?;
    Ok(tokens)
}

// A token that stands in no file.
fn made(terminal: Terminal) -> Lexeme
    ensures { result ≡ made terminal }
{
    Lexeme {
        at: 0,
        len: 0,
        terminal,
    }
}

// The term of a file that has one block alone, with a term as its formula.
fn only_term(file: File) -> Option<Expr>
    ensures { IsOnlyTerm file.blocks result }
{
    let mut blocks = file.blocks;
    let last = blocks.pop()?;
    if !blocks.is_empty() {
        return None;
    }
    term_of(last)
}

// The term of a block that has one as its formula.
fn term_of(block: Block) -> Option<Expr>
    ensures { IsOnlyTerm (block ∷ []) result }
{
    match block {
        Block::Problem(_, expr) => { if is_sum(&expr) { Some(expr) } else { None } }
        Block::Universals(_, _) => None,
        Block::Existentials(_, _) => None,
        Block::Functions(_, _) => None,
        Block::Predicates(_, _) => None,
        Block::Interpolant(_, _) => None,
    }
}

// Whether the tree is one that a sum has.
fn is_sum(expr: &Expr) -> bool
    ensures { result ≡ is_sum expr.now }
{
    match &expr.form {
        Form::Number(_) => true,
        Form::Truth(_) => true,
        Form::Use(_, _) => true,
        Form::Group(_) => true,
        Form::If(_, _, _) => true,
        Form::Abs(_) => true,
        Form::Min(_, _) => true,
        Form::Max(_, _) => true,
        Form::Minus(_) => true,
        Form::Product(_, _, _) => true,
        Form::Sum(_, _) => true,
        Form::Compare(_, _, _) => false,
        Form::Not(_) => false,
        Form::Quantified(_, _, _) => false,
        Form::Part(_, _) => false,
        Form::And(_) => false,
        Form::Or(_) => false,
        Form::Implies(_, _) => false,
        Form::Iff(_, _) => false,
    }
}
