// What the definition of the tokens of a file means.

ghost use Rattle.pri_tokens.specs.declared.terminals.Lexeme.{Lexeme};
ghost use Rattle.pri_tokens.specs.declared.terminals.Terminal.{Terminal};
ghost use Rattle.pri_tokens.specs.declared.terminals.Token.{Token};
ghost use Rattle.pri_tokens.specs.Lexemes.{lexemes_of, tokens_of};
ghost use Rattle.pri_tokens.specs.Bytes.{text_of};
ghost use Rattle.pri_tokens.specs.Tokenization.{IsTokenized};
ghost use Rattle.pri_tokens.specs.Written.{IsWritten, spelling_of};
ghost use Rattle.std.specs.Prelude.{◌≡◌, List, ℕ, [], ◌∷◌, length, Some, All};

/// The tokens of a file, in order and joined with the white space and the comments between them, are the file; each is
/// the longest token that begins at its place, and of the kind as which it is spelled. No other tokens are so.
#[tactic(auto, using(crate::proofs::Pieces::tokenized, crate::proofs::Once::only))]
pub fn tokens_law()
    ensures longest { (bytes : List ℕ) → IsTokenized 0 bytes (tokens_of bytes) }
    ensures only { (bytes : List ℕ) (found : List Token) → IsTokenized 0 bytes found → found ≡ tokens_of bytes }
{}

/// The bytes of a token are written for its terminal: those of a word, a command or a sign are its one spelling, and a
/// file of that spelling alone is that token.
pub fn spelling_law()
    ensures written { (bytes : List ℕ) → All (λ x. IsWritten x.terminal (text_of bytes x)) (lexemes_of bytes) }
    ensures alone { (terminal : Terminal) (text : List ℕ) → spelling_of terminal ≡ Some text
        → lexemes_of text ≡ (record { at = 0; len = length text; terminal = terminal }) ∷ [] }
{}
