// What interpolants are good for, each the contract of a function with nothing to do.

ghost use Rattle.std.specs.Prelude.{◌≡◌, ◌↔◌, ℕ, ℤ, false, true, List, [], Contains};
ghost use Rattle.form_typed.specs.Formula.{Formula};
ghost use Rattle.form_typed.specs.Truth.{Meaning, Truth};
ghost use Rattle.pri_typing.specs.declared.problem.Cut.{Cut};
ghost use Rattle.pri_typing.specs.declared.problem.Problem.{Problem};
ghost use Rattle.pri_typing.specs.Problems.{Holds, IsPlainlyValid, IsPure, IsWithoutApplication, assumed_by};
ghost use Rattle.pri_typing.specs.WellFormed.{IsWellFormed};
ghost use Rattle.clause_set.specs.declared.literal.Literal.{Literal};
ghost use Rattle.clause_set.specs.Literals.{dnf_truth};
ghost use Rattle.form_encoding.specs.Problems.{constants, is_large, parts_root, problem_root};
ghost use Rattle.form_encoding.specs.Occurrences.{occurs};
ghost use Rattle.itp_sides.specs.Between.{AreTyped};
ghost use Rattle.itp_sides.specs.Sides.{first_side, other_side};
ghost use Rattle.interpolant.specs.Sides.{IsInterpolant, LacksName};

/// Where a problem holds and no component is plainly true, what stands between the two sides of a cut and the second side are
/// never true together at values of the constants' types.
pub fn apart_law()
    ensures { (w : Meaning) (p : Problem) (cut : Cut) (j : ℕ) (d : List (List Literal)) → IsWellFormed p → p.existentials ≡ [] → Contains p.cuts cut
        → ¬ (IsPlainlyValid p) → Holds w p [] → IsInterpolant w p (first_side p cut j) (other_side p cut j) d
        → (e : List ℤ) → AreTyped p e → dnf_truth d e ≡ true → ¬ (Truth w (other_side p cut j) e) }
{}

/// The parts of a problem without applications have none.
pub fn plain_law()
    ensures { (p : Problem) (set : List ℕ) → IsPure p → IsWithoutApplication (assumed_by p set) }
{}

/// What parts of a problem with a cut assume is not too large to be encoded, where the problem is not.
pub fn size_law()
    ensures { (p : Problem) (cut : Cut) (set : List ℕ) → IsWellFormed p → Contains p.cuts cut → is_large (problem_root p).value ≡ false
        → is_large (parts_root p set).value ≡ false }
{}

/// A name occurs in a formula exactly where it is not so that each name that stands there is another one.
pub fn occurrence_law()
    ensures { (x : ℕ) (f : Formula) → (occurs x f ≡ false) ↔ LacksName x f }
{}
