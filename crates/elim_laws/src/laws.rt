// What elimination keeps.

ghost use Rattle.std.specs.Prelude.{◌≡◌, ◌≢◌, ◌<◌, ◌+◌, ◌⊎◌, ◌↔◌, ℕ, ℤ, List, All, [], ◌∷◌, ◌++◌, length, None, Some, true, false};
ghost use Rattle.std.specs.List.{AllByRecursion, list_any};
ghost use Rattle.base_budget.specs.Trace.{just, next};
ghost use Rattle.base_budget.specs.declared.log.Entry.{Entry};
ghost use Rattle.form_typed.specs.Truth.{Meaning};
ghost use Rattle.clause_set.specs.declared.literal.Literal.{Literal};
ghost use Rattle.clause_set.specs.Formed.{IsFormed};
ghost use Rattle.clause_set.specs.Kept.{AreFormed};
ghost use Rattle.clause_set.specs.Literals.{dnf_truth};
ghost use Rattle.clause_set.specs.Met.{IsMet};
ghost use Rattle.clause_set.specs.Names.{has, is_equation};
ghost use Rattle.clause_set.specs.Rules.{applies, first_rule, measure, rule};
ghost use Rattle.formula.specs.Form.{Form, FormTruth, IsFormOver, existential, universal};
ghost use Rattle.formula.specs.Sizes.{depth};
ghost use Rattle.elim_laws.specs.Elimination.{IsEvery, IsOut, IsSplit, by_first, exists_name, for_all_name, taken_out};
ghost use Rattle.elim_laws.specs.Logs.{NotesLogs, Yields, by_log, by_whole_log, entries_of, every_by_log, name_by_log, names_by_log};
ghost use Rattle.elim_laws.specs.Presburger.{IsPresburger, IsPresburgerTrue};
ghost use Rattle.elim_laws.specs.Whole.{AreOver, IsExact, HasSolution, Lacks, eliminated, eliminating, names_out};

/// A rule comes first exactly where the clause has the name. It applies, it leaves clauses that are nearer to being without
/// the name, and it is a split or a merge only where no equation has the name.
pub fn first_rule_law()
    ensures none { (x : ℕ) (c : List Literal) → (first_rule x c ≡ None) ↔ (list_any (has x) c ≡ false) }
    ensures first { (x : ℕ) (c : List Literal) (e : Entry) → first_rule x c ≡ Some e → applies x c e ≡ true }
    ensures nearer { (x : ℕ) (c : List Literal) (e : Entry) → first_rule x c ≡ Some e → All (λ r. measure x r < measure x c) (rule x c e).value }
    ensures late { (x : ℕ) (c : List Literal) (e : Entry) → first_rule x c ≡ Some e → IsSplit e → list_any (is_equation x) c ≡ false }
{}

/// Any rule that applies keeps "some value of the name", both ways with the value, and leaves clauses in form. It brings no
/// other name in.
pub fn rule_law()
    ensures met { (x : ℕ) (c : List Literal) (e : Entry) → All IsFormed c → applies x c e ≡ true
        → (v : List ℤ) → IsMet (c ∷ []) x v ↔ IsMet (rule x c e).value x v }
    ensures formed { (x : ℕ) (c : List Literal) (e : Entry) → All IsFormed c → applies x c e ≡ true → All (λ r. All IsFormed r) (rule x c e).value }
    ensures names { (x y : ℕ) (c : List Literal) (e : Entry) → y ≢ x → Lacks y c → AllByRecursion (Lacks y) (rule x c e).value }
{}

/// A name goes out of a disjunction of clauses by the rules that come first: what is left is true exactly where some value
/// of the name makes the disjunction true, has the name in no clause, and no name that was not there. By the negation it goes
/// out for every value: what is left is true exactly where every value makes the disjunction true, and where it is false some
/// value makes that false.
pub fn name_law()
    ensures first { (x : ℕ) (c : List Literal) → taken_out x c ≡ by_first (taken_out x) x c (first_rule x c) }
    ensures out { (x : ℕ) (d : List (List Literal)) → AreFormed d → IsOut x d (exists_name x d).value }
    ensures every { (x : ℕ) (d : List (List Literal)) → AreFormed d → IsEvery x d (for_all_name x d).value }
    ensures names { (x y : ℕ) (d : List (List Literal)) → y ≢ x → AllByRecursion (Lacks y) d → AllByRecursion (Lacks y) (exists_name x d).value }
{}

/// The truth of a formula without predicates and functions is the same in every interpretation, and is decided: a
/// for-some that is true has a witness, a for-all that fails a counterexample.
pub fn truth_law()
    ensures anywhere { (w : Meaning) (f : Form) (e : List ℤ) → IsPresburger f → FormTruth w f e ↔ IsPresburgerTrue f e }
    ensures decided { (f : Form) (e : List ℤ) → IsPresburger f → IsPresburgerTrue f e ⊎ (¬ (IsPresburgerTrue f e)) }
    ensures witness { (f : Form) (e : List ℤ) → IsPresburger f → IsPresburgerTrue (existential f) e → (v : ℤ) × IsPresburgerTrue f (e ++ v ∷ []) }
    ensures counterexample { (f : Form) (e : List ℤ) → IsPresburger f → ¬ (IsPresburgerTrue (universal f) e) → (v : ℤ) × (¬ (IsPresburgerTrue f (e ++ v ∷ []))) }
{}

/// The disjunction of clauses that elimination makes of a formula is true at exactly the integers at which the formula is,
/// and speaks of no other names. The bound on the depth, by which it is defined, does not matter.
pub fn exact_law()
    ensures exact { (m n : ℕ) (f : Form) → depth f < m → IsPresburger f → IsExact (eliminated m n f).value f n }
    ensures over { (m n : ℕ) (f : Form) → depth f < m → IsPresburger f → IsFormOver n f → AreOver n (eliminated m n f).value }
    ensures bound { (m k n : ℕ) (f : Form) → depth f < m → depth f < k → eliminated m n f ≡ eliminated k n f }
{}

/// Where all names go out, true is left exactly where some integers satisfy the disjunction.
pub fn satisfaction_law()
    ensures run { (n : ℕ) (d : List (List Literal)) → AreFormed d → HasSolution d n ↔ (dnf_truth (names_out n d).value [] ≡ true) }
    ensures log { (n : ℕ) (d : List (List Literal)) → AreFormed d → Yields (names_by_log n d) (λ r. HasSolution d n ↔ (dnf_truth r [] ≡ true)) }
{}

/// The log of an elimination, replayed, does the same work: with the same result, charges, raw numbers and entries.
pub fn replay_law()
    ensures formula { (m n : ℕ) (f : Form) → by_whole_log (by_log m n f) (entries_of (eliminated m n f).events) ≡ next (eliminated m n f) (λ d. just (Some d)) }
    ensures name { (x : ℕ) (d : List (List Literal)) → by_whole_log (name_by_log x d) (entries_of (exists_name x d).events) ≡ next (exists_name x d) (λ r. just (Some r)) }
    ensures every { (x : ℕ) (d : List (List Literal)) → by_whole_log (every_by_log x d) (entries_of (for_all_name x d).events) ≡ next (for_all_name x d) (λ r. just (Some r)) }
    ensures all { (n : ℕ) (d : List (List Literal)) → by_whole_log (names_by_log n d) (entries_of (names_out n d).events) ≡ next (names_out n d) (λ r. just (Some r)) }
{}

/// Any log that is accepted gives an exact result, also one that no elimination would write; and it speaks of no other names
/// than the formula.
pub fn log_law()
    ensures formula { (m n : ℕ) (f : Form) → depth f < m → IsPresburger f → Yields (by_log m n f) (λ d. IsExact d f n) }
    ensures over { (m n : ℕ) (f : Form) → depth f < m → IsPresburger f → IsFormOver n f → Yields (by_log m n f) (AreOver n) }
    ensures name { (x : ℕ) (d : List (List Literal)) → AreFormed d → Yields (name_by_log x d) (IsOut x d) }
    ensures every { (x : ℕ) (d : List (List Literal)) → AreFormed d → Yields (every_by_log x d) (IsEvery x d) }
{}

/// An elimination notes entries of its log and beginnings of logs, and nothing else.
pub fn notes_law()
    ensures formula { (n : ℕ) (f : Form) → NotesLogs (eliminating n f) }
    ensures name { (x : ℕ) (d : List (List Literal)) → NotesLogs (exists_name x d) }
{}
