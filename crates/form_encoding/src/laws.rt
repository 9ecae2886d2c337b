// What the encoding keeps, each the contract of a function with nothing to do.

ghost use Rattle.std.specs.Prelude.{◌≡◌, ◌<◌, ◌+◌, ◌↔◌, ℕ, suc, ℤ, Bool, List, [], ◌∷◌, length, map, All, ◌++◌, true, not};
ghost use Rattle.std.specs.List.{filter};
ghost use Rattle.linear_term.specs.Linear.{Linear};
ghost use Rattle.base_budget.specs.Trace.{Traced, just, next};
ghost use Rattle.pri_typing.specs.Files.{all_int};
ghost use Rattle.base_integers.specs.Entry.{entry};
ghost use Rattle.form_typed.specs.declared.typed.Sort.{Sort};
ghost use Rattle.form_typed.specs.declared.typed.Sort.TheVariants.{Int};
ghost use Rattle.form_typed.specs.Formula.{Expression, Formula, for_all, for_some, formula};
ghost use Rattle.form_typed.specs.Sorts.{AreValuesOf, IsValueOf};
ghost use Rattle.form_typed.specs.Truth.{Meaning, Truth};
ghost use Rattle.pri_typing.specs.Everywhere.{Everywhere};
ghost use Rattle.pri_typing.specs.Problems.{Holds, IsPure, assumed_by, is_part_in};
ghost use Rattle.pri_typing.specs.WellFormed.{IsLinear, IsWellFormed, components_of, of_terms};
ghost use Rattle.pri_typing.specs.declared.problem.Problem.{Problem};
ghost use Rattle.formula.specs.Form.{Form, FormTruth, IsFormOver, conjunction, forms, is_pure};
ghost use Rattle.form_encoding.specs.Encoding.{encoded, quantified, with_value};
ghost use Rattle.form_encoding.specs.Extent.{extent, measured};
ghost use Rattle.form_encoding.specs.Meaning.{AreTypedIn, Signed, entries, type_at};
ghost use Rattle.form_encoding.specs.Occurrences.{occurs};
ghost use Rattle.form_encoding.specs.Plain.{IsPlain, linear_of};
ghost use Rattle.form_encoding.specs.Problems.{assumed_form, body, constants, over_constants, parts_root, problem_root, types};
ghost use Rattle.form_encoding.specs.Root.{all_last, conditions};

/// At every list of integers that its names may stand for, and in every interpretation, an encoding with plus is true
/// exactly where the formula is, with minus exactly where it is not. Its products have a side of numbers alone.
pub fn encoding_law()
    ensures { (w : Meaning) (f : Formula) (plus : Bool) (at : List ℕ) (e : List ℤ) → All (λ x. x < length e) at → Everywhere (of_terms IsLinear) 0 f
        → FormTruth w (encoded at (length e) plus f).value e ↔ Signed plus (Truth w f (entries at e)) }
{}

/// An atom without calls, conditions, absolute values, minima and maxima is finished at once: its terms are computed from
/// the inside, and the rest goes on with them.
pub fn atom_law()
    ensures { (at : List ℕ) (t : Expression) (n : ℕ) (rest : ℕ → Linear → Traced Form) → IsPlain t
        → with_value at t n rest ≡ next (linear_of at t) (rest n) }
{}

/// Nodes and levels of an encoding do not depend on the sign, the names and the numbers; they are counted without it.
pub fn extent_law()
    ensures { (f : Formula) (at : List ℕ) (n : ℕ) (plus : Bool) → measured (encoded at n plus f).value ≡ extent f }
{}

/// An encoding speaks of the names that are bound where it stands, and of no other.
pub fn names_law()
    ensures body { (f : Formula) (at : List ℕ) (n : ℕ) (plus : Bool) → All (λ x. x < n) at → IsFormOver n (encoded at n plus f).value }
    ensures problem { (p : Problem) → IsWellFormed p → IsFormOver (length p.existentials) (problem_root p).value }
    ensures parts { (p : Problem) (set : List ℕ) → IsWellFormed p → IsFormOver (constants p) (parts_root p set).value }
{}

/// An encoded problem has an application exactly where the problem has one. What parts of a problem without applications
/// assume has none.
pub fn purity_law()
    ensures problem { (p : Problem) → (is_pure (problem_root p).value ≡ true) ↔ IsPure p }
    ensures parts { (p : Problem) (set : List ℕ) → IsPure p → is_pure (parts_root p set).value ≡ true }
{}

/// In every interpretation the encoded problem is true at values of the existential constants exactly where the problem
/// holds there.
pub fn problem_law()
    ensures { (w : Meaning) (p : Problem) (e : List ℤ) → IsWellFormed p → length e ≡ length p.existentials
        → FormTruth w (problem_root p).value e ↔ Holds w p e }
{}

/// Below the quantifiers of the universal constants, the encoded formula is true at values of all constants exactly where
/// the formula is. So values that refute one refute the other.
pub fn body_law()
    ensures { (w : Meaning) (p : Problem) (e : List ℤ) → IsWellFormed p → length e ≡ constants p
        → FormTruth w (body p).value e ↔ Truth w (formula p.formula) e }
{}

/// What parts assume is one flat conjunction of what their components assume, each whole, in the order of the file, and after
/// them of the conditions of the constants that occur in it; it is true exactly where that is which the parts assume, and
/// those constants have values of their types.
pub fn parts_law()
    ensures flat { (p : Problem) (set : List ℕ) → (parts_root p set).value
        ≡ conjunction (forms (map (assumed_form p) (filter (λ c. is_part_in set c.what) (components_of p))
        ++ (conditions (λ x. occurs x (assumed_by p set)) 0 (types p)).value)) }
    ensures truth { (w : Meaning) (p : Problem) (set : List ℕ) (e : List ℤ) → IsWellFormed p → length e ≡ constants p
        → FormTruth w (parts_root p set).value e ↔ (Truth w (assumed_by p set) e × AreTypedIn (types p) (assumed_by p set) e) }
{}

/// Where all types are `int`, nothing is said of them: a quantifier has the encoded body below it, the encoded problem is that
/// of its formula below this many for-alls, and what parts assume is encoded as any formula is.
pub fn plain_law()
    ensures for_all { (at : List ℕ) (n : ℕ) (plus : Bool) (f : Formula)
        → encoded at n plus (for_all Int f) ≡ next (encoded (at ++ n ∷ []) (suc n) plus f) (λ g. just (quantified plus g)) }
    ensures for_some { (at : List ℕ) (n : ℕ) (plus : Bool) (f : Formula)
        → encoded at n plus (for_some Int f) ≡ next (encoded (at ++ n ∷ []) (suc n) plus f) (λ g. just (quantified (not plus) g)) }
    ensures problem { (p : Problem) → p.existential_types ≡ all_int p.existentials → p.universal_types ≡ all_int p.universals
        → problem_root p ≡ next (body p) (λ g. just (all_last (length p.universals) g)) }
    ensures parts { (p : Problem) (set : List ℕ) → p.existential_types ≡ all_int p.existentials → p.universal_types ≡ all_int p.universals
        → parts_root p set ≡ over_constants p (assumed_by p set) }
{}

/// Each name has a value of its type exactly where each integer is one of the type at its place.
pub fn types_law()
    ensures { (ss : List Sort) (e : List ℤ) → length e ≡ length ss → AreValuesOf ss e ↔ ((x : ℕ) → IsValueOf (type_at ss x) (entry e x)) }
{}
