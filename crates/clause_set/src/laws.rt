// Laws of the definitions: they have no body to run, and say what the definitions mean.

ghost use Rattle.clause_set.specs.Clause.{IsClause};
ghost use Rattle.clause_set.specs.Clauses.{clause_of, clauses_of, is_false, literals_of, same_pairs, tightened};
ghost use Rattle.clause_set.specs.declared.literal.Literal.{Literal};
ghost use Rattle.clause_set.specs.declared.literal.Literal.TheVariants.{Eq, Geq};
ghost use Rattle.clause_set.specs.declared.literal.Norm.TheVariants.{Lit};
ghost use Rattle.clause_set.specs.Kept.{AreFormed, AreFree};
ghost use Rattle.clause_set.specs.Primitive.{HasEmptyInterval, IsPrimitive, IsShaped, normals};
ghost use Rattle.clause_set.specs.Dnfs.{conjunction, covers, disjunction, is_covered, negated_clause, negated_literal, negation, tidied, tidying};
ghost use Rattle.clause_set.specs.Literals.{answer_truth, AreLiterals, clause_truth, dnf_truth, IsLiteral, literal_truth, norm_truth};
ghost use Rattle.clause_set.specs.Normal.{negated, normal_of};
ghost use Rattle.clause_set.specs.Order.{clause_cmp, is_clause, is_literal, literal_cmp};
ghost use Rattle.linear_term.specs.declared.range.Place.{Place};
ghost use Rattle.linear_term.specs.Linear.{Linear};
ghost use Rattle.base_budget.specs.Trace.{At, cut, out_of_range};
ghost use Rattle.std.specs.List.{AllByRecursion, list_all, list_any};
ghost use Rattle.std.specs.List.Sorted.{IsStrictlySortedBy};
ghost use Rattle.std.specs.Prelude.{◌≡◌, ◌↔◌, ◌⊎◌, ◌&&◌, ◌||◌, ◌<ℤ◌, ◌+ℤ◌, All, Bool, false, List, None, not, pos, Some, true, ℕ, ℤ};

/// A clause that covers a true one is true, clauses that cover each other are equal, and the tidy form of clauses is true where one of them is.
pub fn covers_law()
    ensures covers { (d c : List Literal) (e : List ℤ) → covers d c ≡ true → clause_truth c e ≡ true → clause_truth d e ≡ true }
    ensures along { (z d c : List Literal) → covers z d ≡ true → covers d c ≡ true → covers z c ≡ true }
    ensures back { (d c : List Literal) → IsClause d → IsClause c → covers d c ≡ true → covers c d ≡ true → d ≡ c }
    ensures tidy { (cs : List (List Literal)) (e : List ℤ) → dnf_truth (tidied cs) e ≡ dnf_truth cs e }
{}

/// The tidy form of clauses is sorted, each clause once; no clause of it is covered by another one; one that covers one of
/// it is that one.
pub fn canonical_law()
    ensures sorted { (cs : List (List Literal)) → IsStrictlySortedBy clause_cmp (tidied cs) }
    ensures uncovered { (cs : List (List Literal)) → All (λ c. is_covered (tidied cs) c ≡ false) (tidied cs) }
    ensures only { (cs : List (List Literal)) → All IsClause cs → (d c : List Literal) → list_any (is_clause d) (tidied cs) ≡ true
        → list_any (is_clause c) (tidied cs) ≡ true → covers d c ≡ true → d ≡ c }
{}

/// The literals of a clause are sorted, each once, and bound each list of coefficients once: two bounds of the same
/// coefficients are equal, so are two equations, and no bound has the coefficients of an equation or their negation.
pub fn intervals_law()
    ensures sorted { (ls c : List Literal) → clause_of ls ≡ Some c → IsStrictlySortedBy literal_cmp c }
    ensures bounds { (c : List Literal) (s t : Linear) → IsClause c → list_any (is_literal (Geq s)) c ≡ true
        → list_any (is_literal (Geq t)) c ≡ true → s.pairs ≡ t.pairs → s ≡ t }
    ensures equations { (c : List Literal) (s t : Linear) → IsClause c → list_any (is_literal (Eq s)) c ≡ true
        → list_any (is_literal (Eq t)) c ≡ true → s.pairs ≡ t.pairs → s ≡ t }
    ensures alone { (c : List Literal) (s t : Linear) → IsClause c → list_any (is_literal (Eq s)) c ≡ true
        → list_any (is_literal (Geq t)) c ≡ true → (same_pairs s.pairs t.pairs || same_pairs s.pairs (negated t.pairs)) ≡ false }
{}

/// The normal form of a literal is true where it is, and the clause of a conjunction of literals where all of them are.
pub fn normal_law()
    ensures literal { (l : Literal) (e : List ℤ) → IsLiteral l → norm_truth (normal_of l) e ≡ literal_truth l e }
    ensures clause { (ls : List Literal) (e : List ℤ) → All IsLiteral ls → answer_truth (clause_of ls) e ≡ clause_truth ls e }
{}

/// A disjunction of clauses is true where one of both is, a conjunction where both are, and the clauses of conjunctions
/// of literals where one of these is.
pub fn operations_law()
    ensures or { (a b : List (List Literal)) (e : List ℤ) → dnf_truth (disjunction a b).value e ≡ (dnf_truth a e || dnf_truth b e) }
    ensures and { (a b : List (List Literal)) (e : List ℤ) → AreLiterals a → AreLiterals b
        → dnf_truth (conjunction a b).value e ≡ (dnf_truth a e && dnf_truth b e) }
    ensures clauses { (cs : List (List Literal)) (e : List ℤ) → AreLiterals cs → dnf_truth (clauses_of cs) e ≡ dnf_truth cs e }
{}

/// The negation of a literal, of a clause or of a disjunction is true where this is not.
pub fn negation_law()
    ensures literal { (l : Literal) (e : List ℤ) → IsLiteral l → dnf_truth (negated_literal l).value e ≡ not (literal_truth l e) }
    ensures clause { (c : List Literal) (e : List ℤ) → All IsLiteral c → dnf_truth (negated_clause c).value e ≡ not (clause_truth c e) }
    ensures not { (d : List (List Literal)) (e : List ℤ) → AreLiterals d → dnf_truth (negation d).value e ≡ not (dnf_truth d e) }
{}

/// Tidying, a disjunction and a conjunction compute no raw number, so these calls never answer Overflow.
pub fn range_law()
    ensures tidy { (cs : List (List Literal)) (a b : At) (ps : List Place) → ¬ (cut (tidying cs).events a ≡ out_of_range ps b) }
    ensures or { (c d : List (List Literal)) (a b : At) (ps : List Place) → ¬ (cut (disjunction c d).events a ≡ out_of_range ps b) }
    ensures and { (c d : List (List Literal)) (a b : At) (ps : List Place) → ¬ (cut (conjunction c d).events a ≡ out_of_range ps b) }
{}

/// The literals of a clause are in lowest terms, and in shape. A clause is its own form, and so is the normal form of a
/// literal. Two opposite bounds of a clause leave more than one value. A conjunction has no form only where a literal is
/// false by itself, or where bounds leave a linear form no value.
pub fn form_law()
    ensures primitive { (c : List Literal) → IsClause c → All IsPrimitive c }
    ensures shaped { (c : List Literal) → IsClause c → All IsShaped c }
    ensures literal { (l m : Literal) → IsLiteral l → normal_of l ≡ Lit m → normal_of m ≡ Lit m }
    ensures own { (c : List Literal) → IsClause c → clause_of c ≡ Some c }
    ensures apart { (c : List Literal) (s t : Linear) → IsClause c → list_any (is_literal (Geq s)) c ≡ true
        → list_any (is_literal (Geq t)) c ≡ true → s.pairs ≡ negated t.pairs → pos 0 <ℤ (s.constant +ℤ t.constant) }
    ensures none { (ls : List Literal) → (clause_of ls ≡ None)
        ↔ ((list_any (λ l. is_false (normal_of l)) ls ≡ true) ⊎ HasEmptyInterval (normals ls)) }
{}

/// What the normal form of each literal and tightening keep, clauses keep: said of tests p of literals before and q of
/// literals after.
pub fn kept_law()
    ensures clauses { (p q : Literal → Bool) → ((l : Literal) → p l ≡ true → list_all q (literals_of (normal_of l)) ≡ true)
        → ((ls : List Literal) (l : Literal) → q l ≡ true → q (tightened ls l) ≡ true)
        → (cs : List (List Literal)) → list_all (list_all p) cs ≡ true → list_all (list_all q) (clauses_of cs) ≡ true }
    ensures tidy { (p : List Literal → Bool) (cs : List (List Literal)) → list_all p cs ≡ true → list_all p (tidied cs) ≡ true }
    ensures shaped { (cs : List (List Literal)) → AreLiterals cs → AllByRecursion (All IsShaped) (clauses_of cs) }
{}

/// Operations on clauses whose literals are as clauses have them leave such ones.
pub fn formed_law()
    ensures clauses { (cs : List (List Literal)) → AreLiterals cs → AreFormed (clauses_of cs) }
    ensures tidy { (cs : List (List Literal)) → AreFormed cs → AreFormed (tidied cs) }
    ensures and { (a b : List (List Literal)) → AreLiterals a → AreLiterals b → AreFormed (conjunction a b).value }
    ensures or { (a b : List (List Literal)) → AreFormed a → AreFormed b → AreFormed (disjunction a b).value }
    ensures not { (d : List (List Literal)) → AreLiterals d → AreFormed (negation d).value }
{}

/// No operation brings a name in.
pub fn free_law()
    ensures clauses { (x : ℕ) (cs : List (List Literal)) → AreFree x cs → AreFree x (clauses_of cs) }
    ensures tidy { (x : ℕ) (cs : List (List Literal)) → AreFree x cs → AreFree x (tidied cs) }
    ensures and { (x : ℕ) (a b : List (List Literal)) → AreFree x a → AreFree x b → AreFree x (conjunction a b).value }
    ensures or { (x : ℕ) (a b : List (List Literal)) → AreFree x a → AreFree x b → AreFree x (disjunction a b).value }
    ensures not { (x : ℕ) (d : List (List Literal)) → AreFree x d → AreFree x (negation d).value }
{}
