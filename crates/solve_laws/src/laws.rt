// What candidates and solutions are.

ghost use Rattle.std.specs.Prelude.{◌≡◌, ◌≢◌, ◌<◌, ◌↔◌, Bool, true, ℕ, ℤ, List, All, length, None, Some, false};
ghost use Rattle.clause_set.specs.Formed.{IsFormed};
ghost use Rattle.clause_set.specs.Literals.{clause_truth, dnf_truth};
ghost use Rattle.clause_set.specs.Primitive.{IsShaped};
ghost use Rattle.clause_set.specs.declared.literal.Literal.{Literal};
ghost use Rattle.elim_laws.specs.Logs.{NotesLogs};
ghost use Rattle.elim_laws.specs.Whole.{Lacks};
ghost use Rattle.base_integers.specs.Entry.{put};
ghost use Rattle.solve_laws.specs.Best.{IsBest, IsNearer, rank};
ghost use Rattle.solve_laws.specs.Candidates.{candidates, candidates_of};
ghost use Rattle.solve_laws.specs.Nearest.{AreCandidates, nearest};
ghost use Rattle.solve_laws.specs.Solutions.{IsGiven, solving};

/// The order 0, 1, −1, 2, −2, .. goes by absolute values, the positive one of two first; the nearest of candidates is one,
/// and none that satisfies the condition is nearer.
pub fn nearer_law()
    ensures order { (u v : ℤ) → (rank u < rank v) ↔ IsNearer u v }
    ensures nearest { (p : ℤ → Bool) (vs : List ℤ) (u : ℤ) → AreCandidates p vs → p u ≡ true → (p (nearest vs) ≡ true) × (¬ (IsNearer u (nearest vs))) }
{}

/// The candidates of a clause in the one name j satisfy it where j is each of them, and for each integer that does, one
/// of them does not come after it. A clause that is split gives the candidates of the clauses that the split leaves.
pub fn candidates_law()
    ensures exact { (j : ℕ) (c : List Literal) (e : List ℤ) → All IsFormed c → All IsShaped c → ((y : ℕ) → y ≢ j → Lacks y c)
        → AreCandidates (λ v. clause_truth c (put e j v)) (candidates j c).value }
    ensures splits { (j : ℕ) (c : List Literal) → All IsFormed c → All IsShaped c → ((y : ℕ) → y ≢ j → Lacks y c)
        → candidates j c ≡ candidates_of (candidates j) j c }
{}

/// Solving finds the best of the lists that satisfy d, and none exactly where no list does.
pub fn solutions_law()
    ensures best { (n : ℕ) (d : List (List Literal)) (v : List ℤ) → IsGiven n d → (solving n d).value ≡ Some v → IsBest (dnf_truth d) n v }
    ensures none { (n : ℕ) (d : List (List Literal)) → IsGiven n d → ((solving n d).value ≡ None) ↔ ((w : List ℤ) → length w ≡ n → dnf_truth d w ≡ false) }
{}

/// Solving notes entries and beginnings of logs, and nothing else.
pub fn notes_law()
    ensures { (n : ℕ) (d : List (List Literal)) → NotesLogs (solving n d) }
{}
