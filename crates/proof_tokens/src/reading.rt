// One token after another, and what a refusal says.

ghost use Rattle.proof_tokens.specs.Reading.{Cuts, RefusesNext};
ghost use Rattle.proof_tokens.specs.Spellings.{IsRangedToken};
ghost use Rattle.std.specs.Prelude.{◌≡◌, ◌<◌, [], ◌∷◌, length, true, false, IfErr, IfOk, IfSome, MatchOption};

use crate::ahead::{figure_ahead, row_word_ahead};
use crate::scanner::first_piece;
use crate::tokens::Token;
use linear_term::Memory;
use std::alloc::AllocError;

/// Why a text is not read.
#[derive(Clone, Copy)]
pub enum Refusal {
    /// The token that this many bytes from the end of the text begin cannot stand there; with 0, a token is missing.
    Syntax(usize),
    Memory,
}

impl From<AllocError> for Refusal {
    ghost use Rattle.proof_tokens.specs.declared.reading.Refusal.TheVariants as e;
    ghost use Rattle.std.specs.Prelude.{◌≡◌};

    ghost from_gives = { λ _ fault. fault ≡ e.Memory };

    fn from(_error: AllocError) -> Refusal {
        Refusal::Memory
    }
}

impl From<Memory> for Refusal {
    ghost use Rattle.proof_tokens.specs.declared.reading.Refusal.TheVariants as e;
    ghost use Rattle.std.specs.Prelude.{◌≡◌};

    ghost from_gives = { λ _ fault. fault ≡ e.Memory };

    fn from(_error: Memory) -> Refusal {
        Refusal::Memory
    }
}

/// The token that the text begins with, and the text after it; none where the text has no byte.
pub fn next(text: &[u8]) -> Option<(Token, &[u8])>
    ensures exact { MatchOption result (text.now ≡ []) (λ x. Cuts (x.0 ∷ []) text.now x.1.now × (length x.1.now < length text.now)) }
    ensures ranged { IfSome result (λ x. IsRangedToken x.0) }
{
    if let Some((token, rest)) = figure_ahead(text) {
        return Some((token, rest));
    }
    let piece = first_piece(text)?;
    Some((piece.token, text.split_at(piece.len).1))
}

/// The token that the text begins with, and the text after it, as `next` says: the words of rules are found first.
pub fn next_word(text: &[u8]) -> Option<(Token, &[u8])>
    ensures exact { MatchOption result (text.now ≡ []) (λ x. Cuts (x.0 ∷ []) text.now x.1.now × (length x.1.now < length text.now)) }
    ensures ranged { IfSome result (λ x. IsRangedToken x.0) }
{
    match row_word_ahead(text) {
        Some((token, rest)) => Some((token, rest)),
        None => next(text),
    }
}
