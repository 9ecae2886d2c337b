// What stands between the sides of a cut, each the contract of a function with nothing to do.

ghost use Rattle.std.specs.Prelude.{◌≡◌, ◌↔◌, ◌<◌, ℕ, suc, ℤ, List, [], length, Contains};
ghost use Rattle.itp_sides.specs.Between.{AgreeOn, AreTyped, Contradict, IsSetPassed, IsStrongest, IsWeakest, Leads};
ghost use Rattle.itp_sides.specs.Closing.{strongest_formula, weakest_formula};
ghost use Rattle.itp_sides.specs.Sides.{case_of, first_side, other_side, second_denied, set_side, Stands};
ghost use Rattle.pri_typing.specs.Problems.{Holds, IsPlainlyValid};
ghost use Rattle.pri_typing.specs.WellFormed.{IsWellFormed};
ghost use Rattle.pri_typing.specs.declared.problem.Cut.{Cut};
ghost use Rattle.pri_typing.specs.declared.problem.Problem.{Problem};
ghost use Rattle.form_typed.specs.Formula.{Formula};
ghost use Rattle.form_typed.specs.Truth.{Meaning, Truth};

/// A formula has one truth at lists that agree at its names.
pub fn agreement_law()
    ensures { (w : Meaning) (f : Formula) (e d : List ℤ) → AgreeOn f e d → Truth w f d ↔ Truth w f e }
{}

/// The strongest condition follows from the first formula, and contradicts the second where that one does; the weakest one
/// contradicts the second, and follows from the first where that one contradicts it.
pub fn standing_law()
    ensures strongest_follows { (w : Meaning) (p : Problem) (first second i : Formula) → IsStrongest w p first second (Truth w i)
        → (e : List ℤ) → AreTyped p e → Truth w first e → Truth w i e }
    ensures strongest_contradicts { (w : Meaning) (p : Problem) (first second i : Formula) → IsStrongest w p first second (Truth w i)
        → Contradict w p first second → Contradict w p i second }
    ensures weakest_follows { (w : Meaning) (p : Problem) (first second i : Formula) → IsWeakest w p first second (Truth w i)
        → Contradict w p first second → (e : List ℤ) → AreTyped p e → Truth w first e → Truth w i e }
    ensures weakest_contradicts { (w : Meaning) (p : Problem) (first second i : Formula) → IsWeakest w p first second (Truth w i)
        → Contradict w p i second }
{}

/// A formula with its own constants under "some value" is the strongest condition, and the negation of the other one with that
/// one's own constants under "every value" the weakest.
pub fn closing_law()
    ensures strongest { (w : Meaning) (p : Problem) (first second : Formula) → IsWellFormed p
        → IsStrongest w p first second (Truth w (strongest_formula p first second)) }
    ensures weakest { (w : Meaning) (p : Problem) (first second : Formula) → IsWellFormed p
        → IsWeakest w p first second (Truth w (weakest_formula p first second)) }
{}

/// Where a set of parts goes from the second side to the first, the later of two neighbouring conditions follows from the
/// earlier one and what the set assumes.
pub fn neighbours_law()
    ensures strong_strong { (w : Meaning) (p : Problem) (first second between wider narrower i j : Formula)
        → IsSetPassed w p first second between wider narrower → IsStrongest w p first second (Truth w i)
        → IsStrongest w p wider narrower (Truth w j) → Leads w p (Truth w i) between (Truth w j) }
    ensures strong_weak { (w : Meaning) (p : Problem) (first second between wider narrower i j : Formula)
        → IsSetPassed w p first second between wider narrower → Contradict w p first second → IsStrongest w p first second (Truth w i)
        → IsWeakest w p wider narrower (Truth w j) → Leads w p (Truth w i) between (Truth w j) }
    ensures weak_weak { (w : Meaning) (p : Problem) (first second between wider narrower i j : Formula)
        → IsSetPassed w p first second between wider narrower → IsWeakest w p first second (Truth w i)
        → IsWeakest w p wider narrower (Truth w j) → Leads w p (Truth w i) between (Truth w j) }
{}

/// Where a problem holds and no component is plainly true, the two sides of a cut after any of its sets are never true together;
/// then a formula that stands between them by its case follows from the first side, and contradicts the second. Once the
/// negation of the second side stands between two sides, it does after every later set.
pub fn sides_law()
    ensures apart { (w : Meaning) (p : Problem) (cut : Cut) (j : ℕ) → IsWellFormed p → p.existentials ≡ [] → Contains p.cuts cut
        → ¬ (IsPlainlyValid p) → Holds w p [] → Contradict w p (first_side p cut j) (other_side p cut j) }
    ensures follows { (w : Meaning) (p : Problem) (cut : Cut) (j : ℕ) (i : Formula) → Contradict w p (first_side p cut j) (other_side p cut j)
        → Stands w p cut j (Truth w i) → (e : List ℤ) → AreTyped p e → Truth w (first_side p cut j) e → Truth w i e }
    ensures contradicts { (w : Meaning) (p : Problem) (cut : Cut) (j : ℕ) (i : Formula) → Contradict w p (first_side p cut j) (other_side p cut j)
        → Stands w p cut j (Truth w i) → Contradict w p i (other_side p cut j) }
    ensures rises { (p : Problem) (cut : Cut) (j : ℕ) → j < length cut.sets → case_of p cut j ≡ second_denied → case_of p cut (suc j) ≡ second_denied }
{}

/// Of two neighbouring lines, the later formula is true where the earlier one and what the set between them assumes are; of two
/// strongest formulas always.
pub fn sequence_law()
    ensures leads { (w : Meaning) (p : Problem) (cut : Cut) (j : ℕ) (i k : Formula) → j < length cut.sets
        → Contradict w p (first_side p cut j) (other_side p cut j) → Stands w p cut j (Truth w i) → Stands w p cut (suc j) (Truth w k)
        → Leads w p (Truth w i) (set_side p cut j) (Truth w k) }
    ensures strongest { (w : Meaning) (p : Problem) (cut : Cut) (j : ℕ) (i k : Formula) → j < length cut.sets
        → IsStrongest w p (first_side p cut j) (other_side p cut j) (Truth w i)
        → IsStrongest w p (first_side p cut (suc j)) (other_side p cut (suc j)) (Truth w k)
        → Leads w p (Truth w i) (set_side p cut j) (Truth w k) }
{}
