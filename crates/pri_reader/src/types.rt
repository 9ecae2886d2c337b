// The types of constants and bound names: `nat`, `int`, or `int` `[` bound `,` bound `]`, bound = [ `-` ] number.

ghost use Rattle.pri_reader.specs.Reading.{ReadsEndpoint, ReadsNoEndpoint, ReadsNoType, ReadsType};
ghost use Rattle.std.specs.Prelude.{◌≡◌, ◌<◌, ◌≤ℤ◌, neg_ℤ, pos, IfErr, IfOk, length};

use crate::cursor::{after, number, sign};
use crate::tree::{ReadRefusal, TypeName};
use pri_tokens::{Lexeme, Terminal};

/// A type, and the tokens after it.
pub fn type_name<'a>(
    bytes: &[u8],
    tokens: &'a [Lexeme],
) -> Result<(TypeName, &'a [Lexeme]), ReadRefusal>
    ensures read { IfOk result (λ x. ReadsType bytes.now x.0 tokens.now x.1.now) }
    ensures refused { IfErr result (ReadsNoType bytes.now tokens.now) }
    ensures shorter { IfOk result (λ x. length x.1.now < length tokens.now) }
{
    if let Some((_, rest)) = after(tokens, Terminal::Nat) {
        return Ok((TypeName::Nat, rest));
    }
    let (_, behind) = sign(bytes, tokens, Terminal::Int)?;
    let Some((_, first)) = after(behind, Terminal::OpenBracket) else {
        return Ok((TypeName::Int, behind));
    };
    let (lower, comma) = endpoint(bytes, first)?;
    let (_, second) = sign(bytes, comma, Terminal::Comma)?;
    let (upper, close) = endpoint(bytes, second)?;
    let (_, rest) = sign(bytes, close, Terminal::CloseBracket)?;
    Ok((TypeName::Range(lower, upper), rest))
}

/// bound = [ `-` ] number: its value, and the tokens after it. The `-` opens no level.
#[tactic(auto, using(crate::proofs::TypeLines::endpoint_lines, crate::proofs::Exits::shorter))]
fn endpoint<'a>(bytes: &[u8], tokens: &'a [Lexeme]) -> Result<(i128, &'a [Lexeme]), ReadRefusal>
    ensures read { IfOk result (λ x. ReadsEndpoint bytes.now x.0 tokens.now x.1.now) }
    ensures refused { IfErr result (ReadsNoEndpoint bytes.now tokens.now) }
    ensures shorter { IfOk result (λ x. length x.1.now < length tokens.now) }
{
    let Some((_, inner)) = after(tokens, Terminal::Minus) else {
        return number(bytes, tokens);
    };
    let (value, rest) = number(bytes, inner)?;
    Ok((negated(value), rest))
}

/// The other side of a number that is not negative.
fn negated(value: i128) -> i128
    requires { pos 0 ≤ℤ value }
    ensures { result ≡ neg_ℤ value }
{
    -value
}
