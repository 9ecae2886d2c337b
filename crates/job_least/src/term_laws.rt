// What a text that is a term has to do with that term.

ghost use Rattle.pri_reader.specs.declared.tree.Expr.{Expr};
ghost use Rattle.pri_typing.specs.Limits.{IsShallow};
ghost use Rattle.pri_typing.specs.Phrase.{phrase};
ghost use Rattle.pri_typing.specs.Ranges.{IsRanged};
ghost use Rattle.std.specs.Prelude.{◌≡◌, ℕ, List};
ghost use Rattle.job_least.specs.Reads.{ReadsTerm};

/// A text is one term at most.
#[tactic(auto, using(crate::proofs::Braced::one_term))]
pub fn one_term_law()
    ensures { (text : List ℕ) (e : Expr) (g : Expr) → ReadsTerm text e → ReadsTerm text g → e ≡ g }
{}

/// A term that is read binds at most 200 names at each place, and its numerals are in the range of coefficients.
pub fn term_limits_law()
    ensures shallow { (text : List ℕ) (e : Expr) → ReadsTerm text e → IsShallow 0 (phrase e) }
    ensures ranged { (text : List ℕ) (e : Expr) → ReadsTerm text e → IsRanged (phrase e) }
{}
