// Formulas, by recursive descent: one function for each line of the grammar. Each opens its levels as their tokens
// are taken, and fails at the first token that no file has there.

ghost use Rattle.pri_reader.specs.Grammar.{conjunction, disjunction, equivalence, implication};
ghost use Rattle.pri_reader.specs.MachineStates.{a_binder, a_minus, a_part_bracket, a_unary, under_chain, under_rel, under_right};
ghost use Rattle.pri_reader.specs.Reading.{IsRead, IsReadRefused};
ghost use Rattle.std.specs.Prelude.{◌≤◌, ◌<◌, [], IfErr, IfOk, length};

use crate::binders::binder;
use crate::classes::Prefix;
use crate::cursor::{after, compared, deeper, name, prefix, sign};
use crate::terms::{made, sum};
use crate::tree::{Expr, Form, ReadRefusal};
use pri_tokens::{Lexeme, Terminal};
use sqlite_items::{Boxed, Items};
use std::alloc::Global;

/// iff = imp [ `<->` iff ]
#[cycle(reader)]
pub fn whole<'a>(
    alloc: Global,
    bytes: &[u8],
    tokens: &'a [Lexeme],
    depth: u32,
) -> Result<(Boxed<Expr>, &'a [Lexeme]), ReadRefusal>
    requires { depth ≤ 200 }
    ensures read { IfOk result (λ x. IsRead bytes.now (a_unary depth) (under_right equivalence depth []) x.0 tokens.now x.1.now) }
    ensures refused { IfErr result (IsReadRefused bytes.now (a_unary depth) (under_right equivalence depth []) tokens.now) }
    ensures shorter { IfOk result (λ x. length x.1.now < length tokens.now) }
{
    let (first, rest) = imp(alloc, bytes, tokens, depth)?;
    let Some((sign, inner)) = after(rest, Terminal::Iff) else {
        return Ok((first, rest));
    };
    let depth = deeper(depth, sign.at)?;
    let (second, behind) = whole(alloc, bytes, inner, depth)?;
    let at = first.get().at;
    let form = Form::Iff(first, second);
    made(alloc, at, form, behind)
}

/// imp = or [ `->` imp ]
#[cycle(reader)]
fn imp<'a>(
    alloc: Global,
    bytes: &[u8],
    tokens: &'a [Lexeme],
    depth: u32,
) -> Result<(Boxed<Expr>, &'a [Lexeme]), ReadRefusal>
    requires { depth ≤ 200 }
    ensures read { IfOk result (λ x. IsRead bytes.now (a_unary depth) (under_right implication depth []) x.0 tokens.now x.1.now) }
    ensures refused { IfErr result (IsReadRefused bytes.now (a_unary depth) (under_right implication depth []) tokens.now) }
    ensures shorter { IfOk result (λ x. length x.1.now < length tokens.now) }
{
    let (first, rest) = or(alloc, bytes, tokens, depth)?;
    let Some((sign, inner)) = after(rest, Terminal::Implies) else {
        return Ok((first, rest));
    };
    let depth = deeper(depth, sign.at)?;
    let (second, behind) = imp(alloc, bytes, inner, depth)?;
    let at = first.get().at;
    let form = Form::Implies(first, second);
    made(alloc, at, form, behind)
}

/// or = and { `|` and }
#[cycle(reader)]
fn or<'a>(
    alloc: Global,
    bytes: &[u8],
    tokens: &'a [Lexeme],
    depth: u32,
) -> Result<(Boxed<Expr>, &'a [Lexeme]), ReadRefusal>
    requires { depth ≤ 200 }
    ensures read { IfOk result (λ x. IsRead bytes.now (a_unary depth) (under_chain disjunction depth []) x.0 tokens.now x.1.now) }
    ensures refused { IfErr result (IsReadRefused bytes.now (a_unary depth) (under_chain disjunction depth []) tokens.now) }
    ensures shorter { IfOk result (λ x. length x.1.now < length tokens.now) }
{
    let (first, rest) = and(alloc, bytes, tokens, depth)?;
    let Some((_, mut inner)) = after(rest, Terminal::Or) else {
        return Ok((first, rest));
    };
    let at = first.get().at;
    let mut members = Items::new(alloc);
    members.push(first.into_inner())?;
    'members: loop {
        let (member, behind) = and(alloc, bytes, inner, depth)?;
        members.push(member.into_inner())?;
        let Some((_, more)) = after(behind, Terminal::Or) else {
            let form = Form::Or(members);
            return made(alloc, at, form, behind);
        };
        inner = more;
    }
}

/// and = unary { `&` unary }
#[cycle(reader)]
fn and<'a>(
    alloc: Global,
    bytes: &[u8],
    tokens: &'a [Lexeme],
    depth: u32,
) -> Result<(Boxed<Expr>, &'a [Lexeme]), ReadRefusal>
    requires { depth ≤ 200 }
    ensures read { IfOk result (λ x. IsRead bytes.now (a_unary depth) (under_chain conjunction depth []) x.0 tokens.now x.1.now) }
    ensures refused { IfErr result (IsReadRefused bytes.now (a_unary depth) (under_chain conjunction depth []) tokens.now) }
    ensures shorter { IfOk result (λ x. length x.1.now < length tokens.now) }
{
    let (first, rest) = unary(alloc, bytes, tokens, depth)?;
    let Some((_, mut inner)) = after(rest, Terminal::And) else {
        return Ok((first, rest));
    };
    let at = first.get().at;
    let mut members = Items::new(alloc);
    members.push(first.into_inner())?;
    'members: loop {
        let (member, behind) = unary(alloc, bytes, inner, depth)?;
        members.push(member.into_inner())?;
        let Some((_, more)) = after(behind, Terminal::And) else {
            let form = Form::And(members);
            return made(alloc, at, form, behind);
        };
        inner = more;
    }
}

/// unary = `!` unary, or quantifier unary, or `\part` [ identifier ] unary, or rel
#[cycle(reader)]
fn unary<'a>(
    alloc: Global,
    bytes: &[u8],
    tokens: &'a [Lexeme],
    depth: u32,
) -> Result<(Boxed<Expr>, &'a [Lexeme]), ReadRefusal>
    requires { depth ≤ 200 }
    ensures read { IfOk result (λ x. IsRead bytes.now (a_unary depth) [] x.0 tokens.now x.1.now) }
    ensures refused { IfErr result (IsReadRefused bytes.now (a_unary depth) [] tokens.now) }
    ensures shorter { IfOk result (λ x. length x.1.now < length tokens.now) }
{
    let Some((prefix, first, inner)) = prefix(tokens) else {
        return rel(alloc, bytes, tokens, depth);
    };
    let at = first.at;
    match prefix {
        Prefix::Not => {
            let depth = deeper(depth, at)?;
            let (operand, rest) = unary(alloc, bytes, inner, depth)?;
            let form = Form::Not(operand);
            made(alloc, at, form, rest)
        }
        Prefix::Quantifier(all) => quantified(alloc, bytes, inner, depth, at, all),
        Prefix::Part => {
            let depth = deeper(depth, at)?;
            part(alloc, bytes, inner, depth, at)
        }
    }
}

/// After a quantifier: its binder, and the unary formula that is its body.
#[cycle(reader)]
fn quantified<'a>(
    alloc: Global,
    bytes: &[u8],
    tokens: &'a [Lexeme],
    depth: u32,
    at: u64,
    all: bool,
) -> Result<(Boxed<Expr>, &'a [Lexeme]), ReadRefusal>
    requires { depth ≤ 200 }
    ensures read { IfOk result (λ x. IsRead bytes.now (a_binder at all depth) [] x.0 tokens.now x.1.now) }
    ensures refused { IfErr result (IsReadRefused bytes.now (a_binder at all depth) [] tokens.now) }
    ensures shorter { IfOk result (λ x. length x.1.now < length tokens.now) }
{
    let (names, depth, body) = binder(alloc, bytes, tokens, depth)?;
    let (scope, rest) = unary(alloc, bytes, body, depth)?;
    let form = Form::Quantified(all, names, scope);
    made(alloc, at, form, rest)
}

/// After `\part`: `[` identifier `]` unary.
#[cycle(reader)]
fn part<'a>(
    alloc: Global,
    bytes: &[u8],
    tokens: &'a [Lexeme],
    depth: u32,
    at: u64,
) -> Result<(Boxed<Expr>, &'a [Lexeme]), ReadRefusal>
    requires { depth ≤ 200 }
    ensures read { IfOk result (λ x. IsRead bytes.now (a_part_bracket at depth) [] x.0 tokens.now x.1.now) }
    ensures refused { IfErr result (IsReadRefused bytes.now (a_part_bracket at depth) [] tokens.now) }
    ensures shorter { IfOk result (λ x. length x.1.now < length tokens.now) }
{
    let (_, inner) = sign(bytes, tokens, Terminal::OpenBracket)?;
    let (identifier, close) = sign(bytes, inner, Terminal::Identifier)?;
    let (_, body) = sign(bytes, close, Terminal::CloseBracket)?;
    let name = name(alloc, bytes, &identifier)?;
    let (scope, rest) = unary(alloc, bytes, body, depth)?;
    let form = Form::Part(name, scope);
    made(alloc, at, form, rest)
}

/// rel = sum [ (`=`, `!=`, `<`, `<=`, `>` or `>=`) sum ]
#[cycle(reader)]
fn rel<'a>(
    alloc: Global,
    bytes: &[u8],
    tokens: &'a [Lexeme],
    depth: u32,
) -> Result<(Boxed<Expr>, &'a [Lexeme]), ReadRefusal>
    requires { depth ≤ 200 }
    ensures read { IfOk result (λ x. IsRead bytes.now (a_minus depth) (under_rel depth []) x.0 tokens.now x.1.now) }
    ensures refused { IfErr result (IsReadRefused bytes.now (a_minus depth) (under_rel depth []) tokens.now) }
    ensures shorter { IfOk result (λ x. length x.1.now < length tokens.now) }
{
    let (first, rest) = sum(alloc, bytes, tokens, depth)?;
    let Some((comparison, inner)) = compared(rest) else {
        return Ok((first, rest));
    };
    let (second, behind) = sum(alloc, bytes, inner, depth)?;
    let at = first.get().at;
    let form = Form::Compare(comparison, first, second);
    made(alloc, at, form, behind)
}
