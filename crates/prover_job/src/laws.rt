// What joins the jobs, as the contract of a function with nothing to do.

ghost use Rattle.base_answers.specs.Answer.{Answer};
ghost use Rattle.base_answers.specs.Files.{AnswersSource, most_of_file, most_of_proof};
ghost use Rattle.job_check.specs.Checked.{IsChecked};
ghost use Rattle.job_check.specs.Exactly.{IsCutAnswer};
ghost use Rattle.job_decide.specs.Decided.{IsDecidedAs};
ghost use Rattle.job_find.specs.Found.{IsFoundIn};
ghost use Rattle.proof_tree.specs.declared.run.Verdict.{Verdict};
ghost use Rattle.job_solve.specs.Proved.{PrintsProofOf};
ghost use Rattle.base_answers.specs.declared.form.ProofForm.{ProofForm};
ghost use Rattle.prover_job.specs.Runs.{AnswersWithProof, HasProof};
ghost use Rattle.std.specs.Prelude.{◌≡◌, ◌≤◌, ◌⊎◌, Bool, List, Some, false, true, length, ℕ};

/// The proof that `solve` prints after the line `proof:`, in whichever form, is accepted: `check` of the same file and of these
/// bytes answers with status 0.
pub fn printed_law()
    ensures { (form : ProofForm) (bytes : List ℕ) (v : Verdict) (part : List ℕ) (h : PrintsProofOf form bytes v part) (a : Answer) → IsChecked (h.prints).text bytes a → a.status ≡ 0 }
{}

/// So is the whole output of `solve --proof` and of `solve --short` as a proof's file, at each answer that the problem is valid, and
/// at each that it is invalid where it has neither predicates nor functions: a counterexample has no proof, and what a model refutes has
/// none. The check of a clause proof may be cut; with `--calculus` there is neither.
pub fn output_law()
    ensures { (form : ProofForm) (calculus shows : Bool) (budget : ℕ) (bytes : List ℕ) (a b : Answer) → IsDecidedAs calculus shows (Some form) budget bytes a
        → HasProof calculus budget bytes a → IsChecked a.text bytes b → (b.status ≡ 0) ⊎ ((calculus ≡ false) × IsCutAnswer b) }
{}

/// What `find --proof` puts for a file at status 0 is accepted too: `check` of the same file and of these bytes answers with status 0, but for
/// cuts of the check of a clause proof.
pub fn found_law()
    ensures { (budget : ℕ) (bytes : List ℕ) (a b : Answer) → IsFoundIn true budget bytes a → a.status ≡ 0 → IsChecked a.text bytes b → (b.status ≡ 0) ⊎ IsCutAnswer b }
{}

/// Both sides together: what `solve --proof` or `solve --short` puts for a file, with such an answer, `check` of the same file accepts as
/// a proof's file, with status 0, if it has at most 64 MiB; but for cuts of the check of a clause proof.
pub fn accepted_law()
    ensures { (form : ProofForm) (calculus shows : Bool) (budget : ℕ) (file : List ℕ) (a b : Answer)
        → AnswersSource most_of_file (IsDecidedAs calculus shows (Some form) budget) (Some file) a → HasProof calculus budget file a
        → length a.text ≤ most_of_proof → AnswersSource most_of_file (AnswersWithProof (Some a.text)) (Some file) b → (b.status ≡ 0) ⊎ ((calculus ≡ false) × IsCutAnswer b) }
{}
