// Terms, by recursive descent, as formulas are: a formula in parentheses is read as one.

ghost use Rattle.pri_reader.specs.Grammar.{equivalence, expr, paired};
ghost use Rattle.pri_reader.specs.MachineStates.{a_minus, a_pair, a_parenthesis, a_unary, arguments_of, behind_name, test_of, under_product, under_right, under_sum};
ghost use Rattle.pri_reader.specs.Reading.{IsRead, IsReadRefused};
ghost use Rattle.std.specs.Prelude.{◌≡◌, ℕ, ◌≤◌, ◌<◌, ◌∷◌, [], IfErr, IfOk, length};

use crate::classes::Opening;
use crate::cursor::{added, after, deeper, name, opening, refused, sign};
use crate::formulas::whole;
use crate::tree::{Added, Expr, Form, Name, ReadRefusal};
use base_numerals::numeral;
use pri_tokens::{Lexeme, Terminal, spelling};
use sqlite_items::{Boxed, Items};
use std::alloc::Global;

/// sum = product { (`+` or `-`) product }
#[cycle(reader)]
pub fn sum<'a>(
    alloc: Global,
    bytes: &[u8],
    tokens: &'a [Lexeme],
    depth: u32,
) -> Result<(Boxed<Expr>, &'a [Lexeme]), ReadRefusal>
    requires { depth ≤ 200 }
    ensures read { IfOk result (λ x. IsRead bytes.now (a_minus depth) (under_sum depth []) x.0 tokens.now x.1.now) }
    ensures refused { IfErr result (IsReadRefused bytes.now (a_minus depth) (under_sum depth []) tokens.now) }
    ensures shorter { IfOk result (λ x. length x.1.now < length tokens.now) }
{
    let (first, rest) = product(alloc, bytes, tokens, depth)?;
    let Some((mut minus, mut inner)) = added(rest) else {
        return Ok((first, rest));
    };
    let mut later = Items::new(alloc);
    'terms: loop {
        let (term, behind) = product(alloc, bytes, inner, depth)?;
        let term = term.into_inner();
        later.push(Added { minus, term })?;
        let Some((sign, more)) = added(behind) else {
            let at = first.get().at;
            let form = Form::Sum(first, later);
            return made(alloc, at, form, behind);
        };
        minus = sign;
        inner = more;
    }
}

/// product = minus { `*` minus }, grouped to the right
#[cycle(reader)]
fn product<'a>(
    alloc: Global,
    bytes: &[u8],
    tokens: &'a [Lexeme],
    depth: u32,
) -> Result<(Boxed<Expr>, &'a [Lexeme]), ReadRefusal>
    requires { depth ≤ 200 }
    ensures read { IfOk result (λ x. IsRead bytes.now (a_minus depth) (under_product depth []) x.0 tokens.now x.1.now) }
    ensures refused { IfErr result (IsReadRefused bytes.now (a_minus depth) (under_product depth []) tokens.now) }
    ensures shorter { IfOk result (λ x. length x.1.now < length tokens.now) }
{
    let (first, rest) = factor(alloc, bytes, tokens, depth)?;
    let Some((sign, inner)) = after(rest, Terminal::Star) else {
        return Ok((first, rest));
    };
    let depth = deeper(depth, sign.at)?;
    let (second, behind) = product(alloc, bytes, inner, depth)?;
    let at = first.get().at;
    let form = Form::Product(first, sign.at, second);
    made(alloc, at, form, behind)
}

/// minus = `-` minus, or primary
#[cycle(reader)]
fn factor<'a>(
    alloc: Global,
    bytes: &[u8],
    tokens: &'a [Lexeme],
    depth: u32,
) -> Result<(Boxed<Expr>, &'a [Lexeme]), ReadRefusal>
    requires { depth ≤ 200 }
    ensures read { IfOk result (λ x. IsRead bytes.now (a_minus depth) [] x.0 tokens.now x.1.now) }
    ensures refused { IfErr result (IsReadRefused bytes.now (a_minus depth) [] tokens.now) }
    ensures shorter { IfOk result (λ x. length x.1.now < length tokens.now) }
{
    let Some((opening, first, inner)) = opening(tokens) else {
        return Err(refused(bytes, tokens));
    };
    let at = first.at;
    match opening {
        Opening::Minus => {
            let depth = deeper(depth, at)?;
            let (operand, rest) = factor(alloc, bytes, inner, depth)?;
            let form = Form::Minus(operand);
            made(alloc, at, form, rest)
        }
        Opening::Number => {
            let Some(value) = numeral(spelling(bytes, &first)) else {
                return Err(ReadRefusal::Literal(at));
            };
            let form = Form::Number(value);
            made(alloc, at, form, inner)
        }
        Opening::Truth(truth) => {
            let form = Form::Truth(truth);
            made(alloc, at, form, inner)
        }
        Opening::Identifier => {
            let name = name(alloc, bytes, &first)?;
            application(alloc, bytes, inner, depth, name)
        }
        Opening::Parenthesis => {
            let (operand, rest) = parenthesis(alloc, bytes, tokens, depth)?;
            let form = Form::Group(operand);
            made(alloc, at, form, rest)
        }
        Opening::If => conditional(alloc, bytes, inner, depth, at),
        Opening::Abs => {
            let (operand, rest) = parenthesis(alloc, bytes, inner, depth)?;
            let form = Form::Abs(operand);
            made(alloc, at, form, rest)
        }
        Opening::Pair(max) => pair(alloc, bytes, inner, depth, at, max),
    }
}

/// After an identifier: [ `(` [ iff { `,` iff } ] `)` ].
#[cycle(reader)]
fn application<'a>(
    alloc: Global,
    bytes: &[u8],
    tokens: &'a [Lexeme],
    depth: u32,
    name: Name,
) -> Result<(Boxed<Expr>, &'a [Lexeme]), ReadRefusal>
    requires { depth ≤ 200 }
    ensures read { IfOk result (λ x. IsRead bytes.now (behind_name name depth) [] x.0 tokens.now x.1.now) }
    ensures refused { IfErr result (IsReadRefused bytes.now (behind_name name depth) [] tokens.now) }
    ensures shorter { IfOk result (λ x. length x.1.now ≤ length tokens.now) }
{
    let at = name.at;
    let Some((open, inner)) = after(tokens, Terminal::OpenParenthesis) else {
        let form = Form::Use(name, Items::new(alloc));
        return made(alloc, at, form, tokens);
    };
    let depth = deeper(depth, open.at)?;
    let Some((_, rest)) = after(inner, Terminal::CloseParenthesis) else {
        return arguments(alloc, bytes, inner, depth, name);
    };
    let form = Form::Use(name, Items::new(alloc));
    made(alloc, at, form, rest)
}

/// After the `(` of an application: iff { `,` iff } `)`.
#[cycle(reader)]
fn arguments<'a>(
    alloc: Global,
    bytes: &[u8],
    tokens: &'a [Lexeme],
    depth: u32,
    name: Name,
) -> Result<(Boxed<Expr>, &'a [Lexeme]), ReadRefusal>
    requires { depth ≤ 200 }
    ensures read { IfOk result (λ x. IsRead bytes.now (a_unary depth) (under_right equivalence depth (arguments_of name depth [] ∷ [])) x.0 tokens.now x.1.now) }
    ensures refused { IfErr result (IsReadRefused bytes.now (a_unary depth) (under_right equivalence depth (arguments_of name depth [] ∷ [])) tokens.now) }
    ensures shorter { IfOk result (λ x. length x.1.now < length tokens.now) }
{
    let mut list = Items::new(alloc);
    let mut inner = tokens;
    'arguments: loop {
        let (argument, rest) = whole(alloc, bytes, inner, depth)?;
        list.push(argument.into_inner())?;
        let Some((_, more)) = after(rest, Terminal::Comma) else {
            let (_, behind) = sign(bytes, rest, Terminal::CloseParenthesis)?;
            let at = name.at;
            let form = Form::Use(name, list);
            return made(alloc, at, form, behind);
        };
        inner = more;
    }
}

/// After `\if`: ( iff ) `\then` ( iff ) `\else` ( iff ).
#[cycle(reader)]
fn conditional<'a>(
    alloc: Global,
    bytes: &[u8],
    tokens: &'a [Lexeme],
    depth: u32,
    at: u64,
) -> Result<(Boxed<Expr>, &'a [Lexeme]), ReadRefusal>
    requires { depth ≤ 200 }
    ensures read { IfOk result (λ x. IsRead bytes.now (a_parenthesis depth) (test_of at depth ∷ []) x.0 tokens.now x.1.now) }
    ensures refused { IfErr result (IsReadRefused bytes.now (a_parenthesis depth) (test_of at depth ∷ []) tokens.now) }
    ensures shorter { IfOk result (λ x. length x.1.now < length tokens.now) }
{
    let (test, rest) = parenthesis(alloc, bytes, tokens, depth)?;
    let (_, inner) = sign(bytes, rest, Terminal::Then)?;
    let (yes, rest) = parenthesis(alloc, bytes, inner, depth)?;
    let (_, inner) = sign(bytes, rest, Terminal::Else)?;
    let (no, rest) = parenthesis(alloc, bytes, inner, depth)?;
    let form = Form::If(test, yes, no);
    made(alloc, at, form, rest)
}

/// After `\min` or `\max`: `(` iff `,` iff `)`.
#[cycle(reader)]
fn pair<'a>(
    alloc: Global,
    bytes: &[u8],
    tokens: &'a [Lexeme],
    depth: u32,
    at: u64,
    max: bool,
) -> Result<(Boxed<Expr>, &'a [Lexeme]), ReadRefusal>
    requires { depth ≤ 200 }
    ensures read { IfOk result (λ x. IsRead bytes.now (a_pair max at depth) [] x.0 tokens.now x.1.now) }
    ensures refused { IfErr result (IsReadRefused bytes.now (a_pair max at depth) [] tokens.now) }
    ensures shorter { IfOk result (λ x. length x.1.now < length tokens.now) }
{
    let (open, inner) = sign(bytes, tokens, Terminal::OpenParenthesis)?;
    let depth = deeper(depth, open.at)?;
    let (first, rest) = whole(alloc, bytes, inner, depth)?;
    let (_, inner) = sign(bytes, rest, Terminal::Comma)?;
    let (second, rest) = whole(alloc, bytes, inner, depth)?;
    let (_, behind) = sign(bytes, rest, Terminal::CloseParenthesis)?;
    let form = pair_form(max, first, second);
    made(alloc, at, form, behind)
}

/// ( iff )
#[cycle(reader)]
fn parenthesis<'a>(
    alloc: Global,
    bytes: &[u8],
    tokens: &'a [Lexeme],
    depth: u32,
) -> Result<(Boxed<Expr>, &'a [Lexeme]), ReadRefusal>
    requires { depth ≤ 200 }
    ensures read { IfOk result (λ x. IsRead bytes.now (a_parenthesis depth) [] x.0 tokens.now x.1.now) }
    ensures refused { IfErr result (IsReadRefused bytes.now (a_parenthesis depth) [] tokens.now) }
    ensures shorter { IfOk result (λ x. length x.1.now < length tokens.now) }
{
    let (open, inner) = sign(bytes, tokens, Terminal::OpenParenthesis)?;
    let depth = deeper(depth, open.at)?;
    let (operand, close) = whole(alloc, bytes, inner, depth)?;
    let (_, rest) = sign(bytes, close, Terminal::CloseParenthesis)?;
    Ok((operand, rest))
}

/// `\min` of these two, or `\max`.
fn pair_form(max: bool, first: Boxed<Expr>, second: Boxed<Expr>) -> Form
    ensures { (at : ℕ) → expr at result ≡ paired max at first second }
{
    if max {
        Form::Max(first, second)
    } else {
        Form::Min(first, second)
    }
}

/// An expression of this form, in a box, with the tokens after it.
pub fn made<'a>(
    alloc: Global,
    at: u64,
    form: Form,
    rest: &'a [Lexeme],
) -> Result<(Boxed<Expr>, &'a [Lexeme]), ReadRefusal>
    ensures exact { IfOk result (λ x. x.0 ≡ expr at form) }
    ensures behind { IfOk result (λ x. x.1.now ≡ rest.now) }
    ensures failed { IfErr result (λ e. e ≡ ReadRefusal.Memory) }
{
    Ok((Boxed::new(alloc, Expr { at, form })?, rest))
}
