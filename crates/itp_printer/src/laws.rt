// What the plain form of a formula means, and which names bound variables have, each the contract of a function with nothing
// to do.

ghost use Rattle.std.specs.Prelude.{◌≡◌, ◌↔◌, ◌<◌, ◌^◌, false, List, suc, true, ℕ, ℤ};
ghost use Rattle.itp_sides.specs.Symbols.{symbols_in};
ghost use Rattle.form_encoding.specs.Occurrences.{names_in};
ghost use Rattle.pri_typing.specs.declared.problem.Problem.{Problem};
ghost use Rattle.pri_typing.specs.WellFormed.{IsWellFormed, names_of_symbols};
ghost use Rattle.base_texts.specs.Texts.{is_among};
ghost use Rattle.form_typed.specs.Formula.{Formula};
ghost use Rattle.form_typed.specs.Truth.{Meaning, Truth};
ghost use Rattle.itp_printer.specs.Plain.{plain};
ghost use Rattle.itp_printer.specs.Variables.{variable_name, variable_number};

/// The plain form of a formula has its truth in every interpretation, and its names, predicates and functions, in their
/// order.
pub fn plain_law()
    ensures truth { (w : Meaning) (f : Formula) (e : List ℤ) → Truth w (plain f) e ↔ Truth w f e }
    ensures names { (f : Formula) → names_in (plain f) ≡ names_in f }
    ensures symbols { (f : Formula) → symbols_in (plain f) ≡ symbols_in f }
{}

/// Bound variables are numbered from the outermost in. Their numbers rise, no symbol of a well-formed problem is named v with
/// one of them, and some symbol is with each number that is passed over.
pub fn variable_law()
    ensures rises { (p : Problem) (i d : ℕ) → i < d → variable_number p i < variable_number p d }
    ensures free { (p : Problem) (d : ℕ) → IsWellFormed p → d < 2 ^ 64 → is_among (variable_name (variable_number p d)) (names_of_symbols p) ≡ false }
    ensures first { (p : Problem) (i : ℕ) → i < variable_number p 0 → is_among (variable_name i) (names_of_symbols p) ≡ true }
    ensures next { (p : Problem) (d i : ℕ) → variable_number p d < i → i < variable_number p (suc d) → is_among (variable_name i) (names_of_symbols p) ≡ true }
{}
