// The rules equation, apart, merge and shift at a clause over integers without a limit: where such a rule applies to x in
// c, some value of x makes c true exactly where some value makes one of the results true, and each result is nearer to
// being without x. Both hold of the results as they are and of their clauses.

ghost use Rattle.clause_set.specs.Clauses.{clauses_of};
ghost use Rattle.clause_set.specs.Formed.{IsFormed};
ghost use Rattle.clause_set.specs.Literals.{clause_truth, dnf_truth, IsLiteral};
ghost use Rattle.clause_set.specs.Met.{IsMet};
ghost use Rattle.clause_set.specs.Names.{has, is_equation};
ghost use Rattle.clause_set.specs.Rules.{applies, measure, rule};
ghost use Rattle.clause_set.specs.declared.literal.Literal.{Literal};
ghost use Rattle.elim_rule_laws.specs.EquationResults.{apart_results, equation_results, merge_results, shift_results};
ghost use Rattle.base_integers.specs.Entry.{put};
ghost use Rattle.base_budget.specs.declared.log.Entry.TheVariants.{Apart, Equation, Merge, Shift};
ghost use Rattle.std.specs.List.{list_any};
ghost use Rattle.std.specs.Prelude.{ℕ, ℤ, List, [], ◌∷◌, All, ◌≡◌, ◌↔◌, ◌<◌, true, false};

/// An equation a·x + s = 0: what is left are that |a| divides s, and the other literals with its solution. x is gone.
pub fn equation_rule_law()
    ensures value { (x : ℕ) (i : ℕ) (c : List Literal) → (rule x c (Equation i)).value ≡ clauses_of (equation_results x i c) }
    ensures exact { (x : ℕ) (i : ℕ) (c : List Literal) (e : List ℤ) → All IsLiteral c → applies x c (Equation i) ≡ true
        → IsMet (c ∷ []) x e ↔ IsMet (equation_results x i c) x e }
    ensures clauses { (x : ℕ) (i : ℕ) (c : List Literal) (e : List ℤ) → All IsFormed c → applies x c (Equation i) ≡ true
        → IsMet (c ∷ []) x e ↔ IsMet (rule x c (Equation i)).value x e }
    ensures formed { (x : ℕ) (i : ℕ) (c : List Literal) → All IsFormed c → applies x c (Equation i) ≡ true
        → All (λ r. All IsFormed r) (rule x c (Equation i)).value }
    ensures free { (x : ℕ) (i : ℕ) (c : List Literal) → applies x c (Equation i) ≡ true
        → All (λ r. list_any (has x) r ≡ false) (rule x c (Equation i)).value }
    ensures falls { (x : ℕ) (i : ℕ) (c : List Literal) → applies x c (Equation i) ≡ true
        → All (λ r. measure x r < measure x c) (equation_results x i c) }
    ensures nearer { (x : ℕ) (i : ℕ) (c : List Literal) → applies x c (Equation i) ≡ true
        → All (λ r. measure x r < measure x c) (rule x c (Equation i)).value }
{}

/// A negated divisibility: one of its remainders holds, for the same values of x. Where no equation has x, the results
/// are nearer to being without it.
pub fn apart_rule_law()
    ensures value { (x : ℕ) (i : ℕ) (c : List Literal) → (rule x c (Apart i)).value ≡ clauses_of (apart_results i c) }
    ensures same { (x : ℕ) (i : ℕ) (c : List Literal) (e : List ℤ) → All IsLiteral c → applies x c (Apart i) ≡ true
        → dnf_truth (apart_results i c) e ≡ clause_truth c e }
    ensures clauses { (x : ℕ) (i : ℕ) (c : List Literal) (e : List ℤ) → All IsFormed c → applies x c (Apart i) ≡ true
        → IsMet (c ∷ []) x e ↔ IsMet (rule x c (Apart i)).value x e }
    ensures formed { (x : ℕ) (i : ℕ) (c : List Literal) → All IsFormed c → applies x c (Apart i) ≡ true
        → All (λ r. All IsFormed r) (rule x c (Apart i)).value }
    ensures falls { (x : ℕ) (i : ℕ) (c : List Literal) → list_any (is_equation x) c ≡ false → applies x c (Apart i) ≡ true
        → All (λ r. measure x r < measure x c) (apart_results i c) }
    ensures nearer { (x : ℕ) (i : ℕ) (c : List Literal) → list_any (is_equation x) c ≡ false → applies x c (Apart i) ≡ true
        → All (λ r. measure x r < measure x c) (rule x c (Apart i)).value }
{}

/// Two divisibilities: one with x and one without it hold for the same values of x. Where no equation has x, the result
/// is nearer to being without it.
pub fn merge_rule_law()
    ensures value { (x : ℕ) (i : ℕ) (j : ℕ) (c : List Literal) → (rule x c (Merge i j)).value ≡ clauses_of (merge_results x i j c) }
    ensures same { (x : ℕ) (i : ℕ) (j : ℕ) (c : List Literal) (e : List ℤ) → All IsFormed c → applies x c (Merge i j) ≡ true
        → dnf_truth (merge_results x i j c) e ≡ clause_truth c e }
    ensures clauses { (x : ℕ) (i : ℕ) (j : ℕ) (c : List Literal) (e : List ℤ) → All IsFormed c → applies x c (Merge i j) ≡ true
        → IsMet (c ∷ []) x e ↔ IsMet (rule x c (Merge i j)).value x e }
    ensures formed { (x : ℕ) (i : ℕ) (j : ℕ) (c : List Literal) → All IsFormed c → applies x c (Merge i j) ≡ true
        → All (λ r. All IsFormed r) (rule x c (Merge i j)).value }
    ensures falls { (x : ℕ) (i : ℕ) (j : ℕ) (c : List Literal) → list_any (is_equation x) c ≡ false → applies x c (Merge i j) ≡ true
        → All (λ r. measure x r < measure x c) (merge_results x i j c) }
    ensures nearer { (x : ℕ) (i : ℕ) (j : ℕ) (c : List Literal) → list_any (is_equation x) c ≡ false → applies x c (Merge i j) ≡ true
        → All (λ r. measure x r < measure x c) (rule x c (Merge i j)).value }
{}

/// The only divisibility with x: its solutions are put into the bounds.
pub fn shift_rule_law()
    ensures value { (x : ℕ) (i : ℕ) (c : List Literal) → (rule x c (Shift i)).value ≡ clauses_of (shift_results x i c) }
    ensures exact { (x : ℕ) (i : ℕ) (c : List Literal) (e : List ℤ) → All IsFormed c → applies x c (Shift i) ≡ true
        → IsMet (c ∷ []) x e ↔ IsMet (shift_results x i c) x e }
    ensures clauses { (x : ℕ) (i : ℕ) (c : List Literal) (e : List ℤ) → All IsFormed c → applies x c (Shift i) ≡ true
        → IsMet (c ∷ []) x e ↔ IsMet (rule x c (Shift i)).value x e }
    ensures formed { (x : ℕ) (i : ℕ) (c : List Literal) → All IsFormed c → applies x c (Shift i) ≡ true
        → All (λ r. All IsFormed r) (rule x c (Shift i)).value }
    ensures falls { (x : ℕ) (i : ℕ) (c : List Literal) → applies x c (Shift i) ≡ true
        → All (λ r. measure x r < measure x c) (shift_results x i c) }
    ensures nearer { (x : ℕ) (i : ℕ) (c : List Literal) → applies x c (Shift i) ≡ true
        → All (λ r. measure x r < measure x c) (rule x c (Shift i)).value }
{}

/// A clause without x has the same truth for every value of x.
pub fn unused_law()
    ensures { (x : ℕ) (c : List Literal) (e : List ℤ) (v : ℤ) → list_any (has x) c ≡ false → clause_truth c (put e x v) ≡ clause_truth c e }
{}
