// What typing promises of its refusals and of the problems that it makes, and what a problem means, each the contract of a
// function with nothing to do.

ghost use Rattle.std.specs.Prelude.{◌≡◌, ◌↔◌, ◌<◌, ◌≤◌, ◌^◌, ℕ, ℤ, Bool, true, false, nat_lt, length, map, List, [], ◌∷◌, ◌++◌, Some, None, All, Contains};
ghost use Rattle.form_typed.specs.Formula.{Formula, every, formula, formulas};
ghost use Rattle.form_typed.specs.Sorts.{AreValuesOf};
ghost use Rattle.form_typed.specs.Truth.{Meaning, Truth};
ghost use Rattle.pri_reader.specs.declared.tree.File.{File};
ghost use Rattle.pri_reader.specs.declared.tree.Expr.{Expr};
ghost use Rattle.pri_reader.specs.Grammar.{Derives, IsFile, Setting, whole};
ghost use Rattle.pri_reader.specs.Reading.{file_setting};
ghost use Rattle.pri_typing.specs.Limits.{IsResolvable};
ghost use Rattle.pri_typing.specs.Faults.{is_before, least};
ghost use Rattle.pri_typing.specs.Least.{IsStrictWeakOrder, least_by};
ghost use Rattle.pri_typing.specs.Files.{IsTyped, all_int, file_faults, problem_of, scope_of};
ghost use Rattle.pri_tokens.specs.declared.terminals.Lexeme.{Lexeme};
ghost use Rattle.pri_tokens.specs.Lexemes.{lexemes_of};
ghost use Rattle.pri_tokens.specs.Bytes.{text_of};
ghost use Rattle.pri_typing.specs.Phrase.{phrase};
ghost use Rattle.pri_typing.specs.Problems.{Holds, IsTrueAt, SpeaksOfExistentials, IsPure, IsRefuted, IsPlainlyValid, IsUniversal, assumed, assumed_by, scope_of_problem, Says, text_setting};
ghost use Rattle.pri_typing.specs.Scope.{refers};
ghost use Rattle.pri_typing.specs.WellFormed.{HasDistinctNames, HasIdentifiers, IsWellFormed, components_of};
ghost use Rattle.pri_typing.specs.declared.problem.Cut.{Cut};
ghost use Rattle.pri_typing.specs.declared.problem.Problem.{Problem};

/// The least of a list is in it, and in a strict weak order nothing of the list comes before it; only the empty list has
/// no least.
pub fn least_law<T>()
    ensures among { (before : T → T → Bool) (xs : List T) (x : T) → least_by before xs ≡ Some x → Contains xs x }
    ensures first { (before : T → T → Bool) (xs : List T) (x : T) → IsStrictWeakOrder before → least_by before xs ≡ Some x
        → All (λ y. before y x ≡ false) xs }
    ensures none { (before : T → T → Bool) (xs : List T) → least_by before xs ≡ None → xs ≡ [] }
{}

/// Offsets come in a strict weak order, and faults: by offset, and at one offset by number.
pub fn place_order_law()
    ensures offsets { IsStrictWeakOrder nat_lt }
    ensures faults { IsStrictWeakOrder is_before }
{}

/// The problem of a file without faults that can be resolved is well formed, and its symbols have different identifiers
/// as names.
pub fn well_formed_law()
    ensures well_formed { (f : File) (p : Problem) → IsResolvable f.blocks → least (file_faults f) ≡ None → IsTyped f p → IsWellFormed p }
    ensures distinct { (f : File) (p : Problem) → least (file_faults f) ≡ None → IsTyped f p → HasDistinctNames p }
    ensures identifiers { (f : File) (p : Problem) → IsResolvable f.blocks → IsTyped f p → HasIdentifiers p }
{}

/// A problem whose constants are all of the type `int` holds where its formula is true at the values of its existential
/// constants. Without universal constants, a problem holds at values of the types where its formula is true. A problem
/// without applications holds in one interpretation where it holds in another. What is refuted does not hold everywhere.
pub fn holds_law()
    ensures formula { (w : Meaning) (p : Problem) (e : List ℤ) → p.existential_types ≡ all_int p.existentials → p.universal_types ≡ all_int p.universals
        → Holds w p e ↔ IsTrueAt w p (formula p.formula) e }
    ensures alone { (w : Meaning) (p : Problem) (e : List ℤ) → IsWellFormed p → p.universals ≡ [] → length e ≡ length p.existentials
        → AreValuesOf p.existential_types e → Holds w p e ↔ Truth w (formula p.formula) e }
    ensures pure { (v w : Meaning) (p : Problem) (e : List ℤ) → IsPure p → Holds v p e → Holds w p e }
    ensures refuted { (p : Problem) (e : List ℤ) → IsRefuted p → length e ≡ length p.existentials
        → AreValuesOf p.existential_types e → ¬ ((w : Meaning) → Holds w p e) }
{}

/// A formula that speaks of the existential constants alone has one truth at their values, whatever the universal constants
/// and the interpretation are.
pub fn existentials_law()
    ensures { (v w : Meaning) (p : Problem) (f : Formula) (e u d : List ℤ) → SpeaksOfExistentials p f → length e ≡ length p.existentials
        → length u ≡ length p.universals → length d ≡ length p.universals → Truth v f (e ++ u) → Truth w f (e ++ d) }
{}

/// With the symbols of the problem of a file declared, each name stands for what it stands for in the file.
pub fn names_law()
    ensures same { (f : File) (p : Problem) (text : List ℕ) → least (file_faults f) ≡ None → IsTyped f p
        → refers (scope_of_problem p) text ≡ refers (scope_of f.blocks) text }
{}

/// A text that is derived as the formula of a file's problem says that formula, with the symbols of the problem declared;
/// and so does a text whose tokens are those of which the file's formula is derived, with the same bytes.
pub fn says_law()
    ensures derived { (f : File) (p : Problem) (text : List ℕ) (e : Expr) → least (file_faults f) ≡ None → IsTyped f p → phrase e ≡ problem_of f.blocks
        → Derives (text_setting text) 0 whole e (lexemes_of text) [] → Says text p (formula p.formula) }
    ensures between { (s : Setting) (f : File) (p : Problem) (e : Expr) (between rest : List Lexeme) (text : List ℕ) → least (file_faults f) ≡ None
        → IsTyped f p → phrase e ≡ problem_of f.blocks → Derives s 0 whole e (between ++ rest) rest → lexemes_of text ≡ between
        → All (λ x. text_of text x ≡ text_of s.bytes x) between → Says text p (formula p.formula) }
{}

/// The formula of a problem is false where all that its components assume is true.
pub fn components_law()
    ensures assumed { (w : Meaning) (p : Problem) (e : List ℤ)
        → Truth w (every (formulas (map assumed (components_of p)))) e ↔ (¬ (Truth w (formula p.formula) e)) }
{}

/// A file that is read of fewer than 2^32 bytes can be resolved.
pub fn limits_law()
    ensures { (bytes : List ℕ) (f : File) → length bytes < 2 ^ 32 → IsFile (file_setting bytes) f (lexemes_of bytes) → IsResolvable f.blocks }
{}

/// A problem of a file has a first application exactly where it is not pure, and a pure problem is universal.
pub fn purity_law()
    ensures applied { (f : File) (p : Problem) → least (file_faults f) ≡ None → IsTyped f p → (p.first_application ≡ None) ↔ IsPure p }
    ensures universal { (p : Problem) → IsPure p → IsUniversal p }
{}

/// A problem of a file with a cut has no existential constant. The sets of its cuts divide what its components assume:
/// where none of these is plainly true, the sets assume together exactly what makes the formula false, so that the two
/// sides of a cut contradict each other where the problem holds.
pub fn cuts_law()
    ensures alone { (f : File) (p : Problem) → least (file_faults f) ≡ None → IsTyped f p → 1 ≤ length p.cuts → p.existentials ≡ [] }
    ensures sides { (w : Meaning) (p : Problem) (cut : Cut) (e : List ℤ) → IsWellFormed p → Contains p.cuts cut → ¬ (IsPlainlyValid p)
        → All (λ set. Truth w (assumed_by p set) e) cut.sets ↔ (¬ (Truth w (formula p.formula) e)) }
    ensures contradict { (w : Meaning) (p : Problem) (cut : Cut) (first second : List ℕ) (e : List ℤ) → IsWellFormed p → Contains p.cuts cut
        → ¬ (IsPlainlyValid p) → cut.sets ≡ first ∷ second ∷ [] → Holds w p [] → length e ≡ length p.universals
        → AreValuesOf p.universal_types e → Truth w (assumed_by p first) e → ¬ (Truth w (assumed_by p second) e) }
{}
