// What the definition of the tokens of a script means.

ghost use Rattle.smt_tokens.specs.declared.terminals.Lexeme.{Lexeme};
ghost use Rattle.smt_tokens.specs.Lexemes.{lexemes_of};
ghost use Rattle.smt_tokens.specs.Tokens.{IsScriptTokenized};
ghost use Rattle.std.specs.Prelude.{◌≡◌, List, ℕ};

/// The tokens of a text, in order and joined with the white space and the comments between them, are the text; each is the
/// longest token that begins at its place, and of the kind as which it is spelled. No other tokens are so.
#[tactic(auto, using(crate::proofs::Division::tokenized, crate::proofs::Division::only))]
pub fn tokens_law()
    ensures longest { (text : List ℕ) → IsScriptTokenized 0 text (lexemes_of text) }
    ensures only { (text : List ℕ) (found : List Lexeme) → IsScriptTokenized 0 text found → found ≡ lexemes_of text }
{}
