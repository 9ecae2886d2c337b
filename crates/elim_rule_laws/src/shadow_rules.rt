// The rules one-sided, exact and dark at a clause over integers without a limit: where such a rule applies to x in c,
// some value of x makes c true exactly where some value makes one of the results true, and each result is nearer to
// being without x. Both hold of the results as they are and of their clauses.

ghost use Rattle.clause_set.specs.Clauses.{clauses_of};
ghost use Rattle.clause_set.specs.Formed.{IsFormed};
ghost use Rattle.clause_set.specs.Literals.{IsLiteral};
ghost use Rattle.clause_set.specs.Met.{IsMet};
ghost use Rattle.clause_set.specs.Rules.{applies, measure, rule};
ghost use Rattle.clause_set.specs.declared.literal.Literal.{Literal};
ghost use Rattle.base_budget.specs.declared.log.Entry.TheVariants.{OneSided, Exact, Dark};
ghost use Rattle.elim_rule_laws.specs.ShadowResults.{one_sided_results, exact_results, dark_results};
ghost use Rattle.std.specs.Prelude.{ℕ, ℤ, List, [], ◌∷◌, All, ◌≡◌, ◌↔◌, ◌<◌, true};

/// Bounds of x on one side alone: what is left are the literals without x.
pub fn one_sided_rule_law()
    ensures value { (x : ℕ) (c : List Literal) → (rule x c OneSided).value ≡ clauses_of (one_sided_results x c) }
    ensures exact { (x : ℕ) (c : List Literal) (e : List ℤ) → All IsLiteral c → applies x c OneSided ≡ true
        → IsMet (c ∷ []) x e ↔ IsMet (one_sided_results x c) x e }
    ensures clauses { (x : ℕ) (c : List Literal) (e : List ℤ) → All IsLiteral c → applies x c OneSided ≡ true
        → IsMet (c ∷ []) x e ↔ IsMet (rule x c OneSided).value x e }
    ensures formed { (x : ℕ) (c : List Literal) → All IsLiteral c → All (λ r. All IsFormed r) (rule x c OneSided).value }
    ensures falls { (x : ℕ) (c : List Literal) → applies x c OneSided ≡ true → All (λ r. measure x r < measure x c) (one_sided_results x c) }
    ensures nearer { (x : ℕ) (c : List Literal) → applies x c OneSided ≡ true → All (λ r. measure x r < measure x c) (rule x c OneSided).value }
{}

/// Bounds on both sides, with coefficients of size 1 on one of them: the real shadow is exact.
pub fn exact_rule_law()
    ensures value { (x : ℕ) (c : List Literal) → (rule x c Exact).value ≡ clauses_of (exact_results x c) }
    ensures exact { (x : ℕ) (c : List Literal) (e : List ℤ) → All IsLiteral c → applies x c Exact ≡ true
        → IsMet (c ∷ []) x e ↔ IsMet (exact_results x c) x e }
    ensures clauses { (x : ℕ) (c : List Literal) (e : List ℤ) → All IsLiteral c → applies x c Exact ≡ true
        → IsMet (c ∷ []) x e ↔ IsMet (rule x c Exact).value x e }
    ensures formed { (x : ℕ) (c : List Literal) → All IsLiteral c → All (λ r. All IsFormed r) (rule x c Exact).value }
    ensures falls { (x : ℕ) (c : List Literal) → applies x c Exact ≡ true → All (λ r. measure x r < measure x c) (exact_results x c) }
    ensures nearer { (x : ℕ) (c : List Literal) → applies x c Exact ≡ true → All (λ r. measure x r < measure x c) (rule x c Exact).value }
{}

/// Bounds on both sides: the dark shadow, and the splinters of each lower bound.
pub fn dark_rule_law()
    ensures value { (x : ℕ) (c : List Literal) → (rule x c Dark).value ≡ clauses_of (dark_results x c) }
    ensures exact { (x : ℕ) (c : List Literal) (e : List ℤ) → All IsLiteral c → applies x c Dark ≡ true
        → IsMet (c ∷ []) x e ↔ IsMet (dark_results x c) x e }
    ensures clauses { (x : ℕ) (c : List Literal) (e : List ℤ) → All IsLiteral c → applies x c Dark ≡ true
        → IsMet (c ∷ []) x e ↔ IsMet (rule x c Dark).value x e }
    ensures formed { (x : ℕ) (c : List Literal) → All IsLiteral c → All (λ r. All IsFormed r) (rule x c Dark).value }
    ensures falls { (x : ℕ) (c : List Literal) → applies x c Dark ≡ true → All (λ r. measure x r < measure x c) (dark_results x c) }
    ensures nearer { (x : ℕ) (c : List Literal) → applies x c Dark ≡ true → All (λ r. measure x r < measure x c) (rule x c Dark).value }
{}
