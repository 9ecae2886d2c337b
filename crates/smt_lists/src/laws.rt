// What the definition of a script means.

ghost use Rattle.smt_lists.specs.Grammar.{IsScript};
ghost use Rattle.smt_tokens.specs.declared.terminals.Lexeme.{Lexeme};
ghost use Rattle.smt_lists.specs.declared.tree.Sexp.{Sexp};
ghost use Rattle.std.specs.Prelude.{◌≡◌, List, ℕ};

/// The same tokens are one script at most, however deep its lists may stand within each other.
#[tactic(auto, using(crate::proofs::Complete::one_script))]
pub fn one_script_law()
    ensures { (b : List ℕ) (n m : ℕ) (es fs : List Sexp) (tokens : List Lexeme) → IsScript b n es tokens → IsScript b m fs tokens → es ≡ fs }
{}
