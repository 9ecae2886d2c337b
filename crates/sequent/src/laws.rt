// What the rules of the calculus say of truth, each the contract of a function with nothing to do.

ghost use Rattle.std.specs.Prelude.{◌≡◌, ◌+◌, ◌≤◌, ◌<◌, ◌^◌, ℕ, ℤ, Bool, List, length, Some, None, take, true, false, [], ◌∷◌};
ghost use Rattle.std.specs.List.{slice_get, AllByRecursion};
ghost use Rattle.base_integers.specs.Entry.{put};
ghost use Rattle.form_typed.specs.Truth.{Meaning};
ghost use Rattle.formula.specs.Form.{Form, IsFormOver, existential};
ghost use Rattle.sequent.specs.Sequent.{Member, Sequent, member, sequent, AreFalse, SequentTruth, IsFormedSequent};
ghost use Rattle.sequent.specs.Rules.{premises_at, applies, picked, is_shape, first_fit, fits};
ghost use Rattle.sequent.specs.declared.member.Shape.{Shape};
ghost use Rattle.sequent.specs.declared.member.Pick.TheVariants as pick;
ghost use Rattle.sequent.specs.Leaf.{is_leaf, is_open};
ghost use Rattle.sequent.specs.Limits.{IsLimited};
ghost use Rattle.sequent.specs.Views.{HasRoom, sequent_of};
ghost use Rattle.sequent.specs.declared.member.Sequent as coded;
ghost use Rattle.sequent.specs.Covers.{Covers, IsTight, AreCovered, AreTight, RuleTruth, RuleFalsity};

/// Where each premise of a rule is covered by its constraint, the rule's constraint covers the sequent, in every interpretation.
pub fn covers_law()
    ensures { (w : Meaning) (s : Sequent) (i : ℕ) (m : Member) (ds : List (List ℤ → Bool)) → IsFormedSequent s → slice_get s.members i ≡ Some m
        → AreCovered w (premises_at s i (Some m)) ds → (e : List ℤ) → length e ≡ s.count → RuleTruth m.formula ds e → SequentTruth w s e }
{}

/// Where each premise of a rule is tight for its constraint, an interpretation refutes the sequent wherever the rule's
/// constraint is false.
pub fn tight_law()
    ensures { (s : Sequent) (i : ℕ) (m : Member) (ds : List (List ℤ → Bool)) → IsFormedSequent s → slice_get s.members i ≡ Some m
        → AreTight (premises_at s i (Some m)) ds → (e : List ℤ) → length e ≡ s.count → RuleFalsity m.formula ds e → (w : Meaning) × AreFalse w e s.members }
{}

/// A formula over this many constants begins a well-formed sequent, and the premises of a well-formed sequent are well formed.
pub fn formed_law()
    ensures start { (f : Form) (n : ℕ) → IsFormOver n f → IsFormedSequent (sequent (member f n 0 ∷ []) n) }
    ensures premises { (s : Sequent) (i : ℕ) (m : Member) → IsFormedSequent s → slice_get s.members i ≡ Some m → AllByRecursion IsFormedSequent (premises_at s i (Some m)) }
{}

/// The canonical pick applies.
pub fn pick_law()
    ensures { (limit : ℕ) (s : Sequent) → applies s (picked limit s.members) ≡ true }
{}

/// A pick is the first: no member before it fits its rule, and where no member is picked none fits. A leaf that is closed so,
/// with no `some` left that is not pure, is saturated.
pub fn first_law()
    ensures before { (limit : ℕ) (k : Shape) (ms : List Member) (i : ℕ) → first_fit limit k ms ≡ Some i → AllByRecursion (λ m. is_shape k (fits limit m) ≡ false) (take i ms) }
    ensures none { (limit : ℕ) (k : Shape) (ms : List Member) → first_fit limit k ms ≡ None → AllByRecursion (λ m. is_shape k (fits limit m) ≡ false) ms }
    ensures saturated { (limit : ℕ) (ms : List Member) → picked limit ms ≡ pick.Close → AllByRecursion (λ m. is_open m.formula ≡ false) ms → AllByRecursion (λ m. is_leaf m.formula ≡ true) ms }
{}

/// Some value of the last name is what gamma asks of its premise's constraint.
pub fn last_law()
    ensures { (f : Form) (d : List ℤ → Bool) (e : List ℤ) (n : ℕ) → length e ≡ n → (v : ℤ) × (d (put e n v) ≡ true) → RuleTruth (existential f) (d ∷ []) e }
{}

/// The premises of a sequent are as deep as it is at most, and use a member once more at most. A well-formed sequent within
/// limits has room for one more constant and one more use: `premise` and the closing formula can be asked for.
pub fn room_law()
    ensures premises { (u k : ℕ) (s : Sequent) (i : ℕ) (m : Member) → IsLimited u k s → slice_get s.members i ≡ Some m
        → AllByRecursion (IsLimited (u + 1) k) (premises_at s i (Some m)) }
    ensures room { (u k : ℕ) (t : coded.Sequent) → u + 1 < 2 ^ 32 → t.count + k ≤ 2 ^ 32 → t.count + 1 < 2 ^ 32
        → IsFormedSequent (sequent_of t) → IsLimited u k (sequent_of t) → HasRoom t }
{}
