// The laws of truth that a reader would check, each the contract of a function with nothing to do. They hold in every
// interpretation, for every formula and term, at every list of integers.

ghost use Rattle.std.specs.Prelude.{◌≡◌, ◌↔◌, ℕ, ℤ, ◌≤ℤ◌, ◌<ℤ◌, pos, true, false, List, [], ◌∷◌, ◌++◌, map, All};
ghost use Rattle.form_typed.specs.Formula.{Formula, Expression, formulas, negation, every, some, implies, iff, for_all, for_some, part};
ghost use Rattle.form_typed.specs.Truth.{Meaning, Truth, HasValue, IsRelated, opposite_relation};
ghost use Rattle.form_typed.specs.Table.{SaysTruth, SaysValue, is_true_at_row, value_at_row};
ghost use Rattle.form_typed.specs.declared.typed.Relation.{Relation};
ghost use Rattle.form_typed.specs.declared.typed.Sort.{Sort};
ghost use Rattle.form_typed.specs.declared.typed.Sort.TheVariants.{Int, Nat, Range};
ghost use Rattle.form_typed.specs.Sorts.{IsValueOf};
ghost use Rattle.form_typed.specs.declared.world.TruthRow.{TruthRow};
ghost use Rattle.form_typed.specs.declared.world.ValueRow.{ValueRow};

/// What is not false is true, and so a formula is true exactly where its negation is false.
pub fn stability_law()
    ensures stable { (w : Meaning) (f : Formula) (e : List ℤ) → ¬ (¬ (Truth w f e)) → Truth w f e }
    ensures double_negation { (w : Meaning) (f : Formula) (e : List ℤ) → Truth w (negation (negation f)) e ↔ Truth w f e }
{}

/// A conjunction is true where each member is, so that of nothing is true; its negation is the disjunction of the
/// negations.
pub fn conjunction_law()
    ensures members { (w : Meaning) (fs : List Formula) (e : List ℤ) → Truth w (every (formulas fs)) e ↔ All (λ f. Truth w f e) fs }
    ensures de_morgan { (w : Meaning) (fs : List Formula) (e : List ℤ)
        → Truth w (negation (every (formulas fs))) e ↔ Truth w (some (formulas (map negation fs))) e }
{}

/// A disjunction is false where each member is, so that of nothing is false, and true where one member is; its negation
/// is the conjunction of the negations.
pub fn disjunction_law()
    ensures members { (w : Meaning) (fs : List Formula) (e : List ℤ) → (¬ (Truth w (some (formulas fs)) e)) ↔ All (λ f. ¬ (Truth w f e)) fs }
    ensures one_member { (w : Meaning) (before after : List Formula) (f : Formula) (e : List ℤ)
        → Truth w f e → Truth w (some (formulas (before ++ f ∷ after))) e }
    ensures de_morgan { (w : Meaning) (fs : List Formula) (e : List ℤ)
        → Truth w (negation (some (formulas fs))) e ↔ Truth w (every (formulas (map negation fs))) e }
{}

/// An implication is true where its left side is false or its right side true; an equivalence is the implications both
/// ways.
pub fn implication_law()
    ensures implication { (w : Meaning) (f g : Formula) (e : List ℤ) → Truth w (implies f g) e ↔ Truth w (some (formulas (negation f ∷ g ∷ []))) e }
    ensures equivalence { (w : Meaning) (f g : Formula) (e : List ℤ)
        → Truth w (iff f g) e ↔ Truth w (every (formulas (implies f g ∷ implies g f ∷ []))) e }
{}

/// An existential formula is true where its body is true at some value of the type, and the quantifiers change places
/// under a negation.
pub fn quantifier_law()
    ensures witness { (w : Meaning) (s : Sort) (f : Formula) (e : List ℤ) (v : ℤ) → IsValueOf s v → Truth w f (e ++ v ∷ []) → Truth w (for_some s f) e }
    ensures not_for_some { (w : Meaning) (s : Sort) (f : Formula) (e : List ℤ) → Truth w (negation (for_some s f)) e ↔ Truth w (for_all s (negation f)) e }
    ensures not_for_all { (w : Meaning) (s : Sort) (f : Formula) (e : List ℤ) → Truth w (negation (for_all s f)) e ↔ Truth w (for_some s (negation f)) e }
{}

/// A quantifier ranges over the values of its type: over all integers, over those from 0 on, or over those between two
/// bounds. A range whose first bound is above the second has no value, so what is said of all its values is true.
pub fn sort_law()
    ensures integers { (w : Meaning) (f : Formula) (e : List ℤ) → Truth w (for_all Int f) e ↔ ((v : ℤ) → Truth w f (e ++ v ∷ [])) }
    ensures naturals { (w : Meaning) (f : Formula) (e : List ℤ) → Truth w (for_all Nat f) e ↔ ((v : ℤ) → pos 0 ≤ℤ v → Truth w f (e ++ v ∷ [])) }
    ensures empty { (w : Meaning) (f : Formula) (e : List ℤ) (a b : ℤ) → b <ℤ a → Truth w (for_all (Range a b) f) e }
{}

/// The value of a term is one integer: it has not two values, and it cannot fail to have one.
pub fn value_law()
    ensures one_value { (w : Meaning) (t : Expression) (e : List ℤ) (u v : ℤ)
        → HasValue w t e (λ x. x ≡ u) → HasValue w t e (λ x. x ≡ v) → u ≡ v }
    ensures some_value { (w : Meaning) (t : Expression) (e : List ℤ) → ¬ ((v : ℤ) → ¬ (HasValue w t e (λ x. x ≡ v))) }
{}

/// The opposite of a relation holds exactly where the relation does not.
pub fn relation_law()
    ensures { (r : Relation) (x y : ℤ) → IsRelated (opposite_relation r) x y ↔ ¬ (IsRelated r x y) }
{}

/// In the interpretation that a table gives, a predicate is true exactly at its rows, and a function has the value of
/// its first row at a list of integers, else 0.
pub fn table_law()
    ensures row_true { (before after : List TruthRow) (row : TruthRow) (p : ℕ) (xs : List ℤ)
        → SaysTruth row p xs → is_true_at_row (before ++ row ∷ after) p xs ≡ true }
    ensures no_row_false { (rows : List TruthRow) (p : ℕ) (xs : List ℤ) → All (λ row. ¬ (SaysTruth row p xs)) rows → is_true_at_row rows p xs ≡ false }
    ensures first_row_value { (before after : List ValueRow) (row : ValueRow) (f : ℕ) (xs : List ℤ)
        → All (λ r. ¬ (SaysValue r f xs)) before → SaysValue row f xs → value_at_row (before ++ row ∷ after) f xs ≡ row.value }
    ensures no_row_zero { (rows : List ValueRow) (f : ℕ) (xs : List ℤ) → All (λ row. ¬ (SaysValue row f xs)) rows → value_at_row rows f xs ≡ pos 0 }
{}
