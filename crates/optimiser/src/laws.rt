// What the least value is.

ghost use Rattle.std.specs.Prelude.{◌≡◌, ◌≢◌, ◌↔◌, ℕ, ℤ, All, List, false, length};
ghost use Rattle.clause_set.specs.Formed.{IsFormed};
ghost use Rattle.clause_set.specs.Literals.{clause_truth, dnf_truth};
ghost use Rattle.clause_set.specs.Primitive.{IsShaped};
ghost use Rattle.clause_set.specs.declared.literal.Literal.{Literal};
ghost use Rattle.elim_laws.specs.Whole.{Lacks};
ghost use Rattle.base_integers.specs.Entry.{put};
ghost use Rattle.optimiser.specs.Floors.{IsInfimum};
ghost use Rattle.optimiser.specs.Least.{IsMinimum, IsUnbounded, minimising, no_least, nothing};
ghost use Rattle.optimiser.specs.OneName.{clause_floor, floor_of};
ghost use Rattle.linear_term.specs.Linear.{Linear, IsOver, IsReduced, value_of};
ghost use Rattle.solve_laws.specs.Solutions.{IsGiven};

/// A clause in the one name j is true, where j is an integer, from the floor on that its work finds, nowhere, or below each
/// integer. A clause that is split begins where the lowest of the clauses begins that the split leaves.
pub fn floor_law()
    ensures exact { (j : ℕ) (c : List Literal) (e : List ℤ) → All IsFormed c → All IsShaped c → ((y : ℕ) → y ≢ j → Lacks y c)
        → IsInfimum (λ v. clause_truth c (put e j v)) (clause_floor j c).value }
    ensures splits { (j : ℕ) (c : List Literal) → All IsFormed c → All IsShaped c → ((y : ℕ) → y ≢ j → Lacks y c)
        → clause_floor j c ≡ floor_of (clause_floor j) j c }
{}

/// The work finds the least value that the term has at the lists that satisfy the disjunction, with the best of the lists at
/// which it has that; it says that there is no list exactly where there is none, and that the values are without bound below
/// exactly where they are.
pub fn least_law()
    ensures exact { (n : ℕ) (d : List (List Literal)) (t : Linear) → IsGiven n d → IsReduced t → IsOver n t
        → IsMinimum (dnf_truth d) n (value_of t) (minimising n d t).value }
    ensures none { (n : ℕ) (d : List (List Literal)) (t : Linear) → IsGiven n d → IsReduced t → IsOver n t
        → ((minimising n d t).value ≡ nothing) ↔ ((w : List ℤ) → length w ≡ n → dnf_truth d w ≡ false) }
    ensures unbounded { (n : ℕ) (d : List (List Literal)) (t : Linear) → IsGiven n d → IsReduced t → IsOver n t
        → ((minimising n d t).value ≡ no_least) ↔ IsUnbounded (dnf_truth d) n (value_of t) }
{}
