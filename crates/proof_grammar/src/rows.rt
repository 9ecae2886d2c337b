// The line that begins a node, read.

ghost use Rattle.proof_tokens.specs.Reading.{Cuts, RefusesNext, RefusesProof};
ghost use Rattle.std.specs.Prelude.{◌≡◌, ◌∷◌, [], IfErr, IfOk};
ghost use Rattle.proof_grammar.specs.Rows.{IsRow, IsRowWord, placed, row_line, word_token};

use proof_tokens::{Refusal, Token, counted, line_feed, next_word, position};
use sequent::Pick;

/// The word of a rule that has a position alone.
#[derive(Clone, Copy)]
pub enum OneWord {
    Trivial,
    Alpha,
    Delta,
    Gamma,
}

/// The word of a rule.
#[derive(Clone, Copy)]
pub enum RowWord {
    One(OneWord),
    Beta,
    Close,
}

/// The word of a rule that comes next, and the text after it.
pub fn row_word(text: &[u8]) -> Result<(RowWord, &[u8]), Refusal>
    ensures found { IfOk result (λ x. Cuts (word_token x.0 ∷ []) text.now x.1.now) }
    ensures lacks { IfErr result (RefusesNext IsRowWord text.now) }
{
    let Some((token, rest)) = next_word(text) else {
        return Err(Refusal::Syntax(0));
    };
    match token {
        Token::Trivial => Ok((RowWord::One(OneWord::Trivial), rest)),
        Token::Alpha => Ok((RowWord::One(OneWord::Alpha), rest)),
        Token::Beta => Ok((RowWord::Beta, rest)),
        Token::Delta => Ok((RowWord::One(OneWord::Delta), rest)),
        Token::Gamma => Ok((RowWord::One(OneWord::Gamma), rest)),
        Token::Close => Ok((RowWord::Close, rest)),
        _ => Err(Refusal::Syntax(text.len())),
    }
}

/// The rule that this word with a position is, and the number of its premises.
fn placed(word: OneWord, place: u32) -> (Pick, u32)
    ensures { result ≡ placed word place }
{
    match word {
        OneWord::Trivial => (Pick::Trivial(place), 0),
        OneWord::Alpha => (Pick::Alpha(place), 1),
        OneWord::Delta => (Pick::Delta(place), 1),
        OneWord::Gamma => (Pick::Gamma(place), 1),
    }
}

/// The line that begins a node: its rule and the number of its premises, and the text after it.
pub fn row(text: &[u8]) -> Result<((Pick, u32), &[u8]), Refusal>
    ensures found { IfOk result (λ x. IsRow x.0 × Cuts (row_line x.0) text.now x.1.now) }
    ensures first { IfErr result (RefusesProof IsRow row_line text.now) }
{
    let (word, inner) = row_word(text)?;
    match word {
        RowWord::Beta => {
            let ((place, count), rest) = counted(inner)?;
            Ok(((Pick::Beta(place), count), rest))
        }
        RowWord::Close => {
            let rest = line_feed(inner)?;
            Ok(((Pick::Close, 0), rest))
        }
        RowWord::One(one) => {
            let (place, rest) = position(inner)?;
            Ok((placed(one, place), rest))
        }
    }
}
