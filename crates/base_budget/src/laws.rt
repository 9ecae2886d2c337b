// Laws of charged work: they have no body to run, and say what the definitions mean.

ghost use Rattle.linear_term.specs.Range.{stays};
ghost use Rattle.linear_term.specs.declared.range.Place.{Place};
ghost use Rattle.base_budget.specs.Followed.{after_notes, Followed, Later};
ghost use Rattle.base_budget.specs.Runs.{LeftWhereLeaves, notes, PassesWhereRuns, RefusedWherePasses, RunsThrough, StopsAt, StopsOnce};
ghost use Rattle.base_budget.specs.Trace.{at, charge, Event, Funds, Mark, raw, Traced};
ghost use Rattle.base_budget.specs.declared.fault.StepFault.{StepFault};
ghost use Rattle.std.specs.Prelude.{◌≡◌, ℕ, ◌≤◌, [], false, Contains, List, Result};

/// Where a run is cut: all of it happens exactly where its charges together are within the budget and its raw numbers
/// stay in the range; else it ends at the first charge that passes the budget with all charges before, or at the first
/// raw number that leaves the range; and that first event is the only one.
pub fn cut_law()
    ensures passes { PassesWhereRuns }
    ensures refused { RefusedWherePasses }
    ensures out_of_range { LeftWhereLeaves }
    ensures once { StopsOnce }
{}

/// What a call that keeps a summary of its notes did: with an answer, the whole work, and the summary has all its notes;
/// with a refused charge or a raw number that left the range, the work before it, and the summary has the notes of that
/// part. In each case, running out of memory too, the budget stays and what is spent never falls.
pub fn followed_law<A, S>()
    ensures answered { (add : S → Mark → S) (work : Traced A) (old new : Funds) (s t : S) (v : A) → old.spent ≤ old.budget
        → Followed add work old s (Ok v) new t
        → (v ≡ work.value) × RunsThrough work.events (at old []) (at new (notes work.events)) × (t ≡ after_notes add s (notes work.events)) }
    ensures refused { (add : S → Mark → S) (work : Traced A) (old new : Funds) (s t : S) → old.spent ≤ old.budget
        → Followed add work old s (Err StepFault.Steps) new t
        → (before : List Event) × (n : ℕ) × StopsAt work.events (at old []) before (charge n) (at new (notes before)) × (t ≡ after_notes add s (notes before)) }
    ensures out_of_range { (add : S → Mark → S) (work : Traced A) (old new : Funds) (s t : S) (p : Place) → old.spent ≤ old.budget
        → Followed add work old s (Err (StepFault.Overflow p)) new t
        → (before : List Event) × (ps : List Place) × StopsAt work.events (at old []) before (raw ps) (at new (notes before)) × Contains ps p × (stays p ≡ false)
        × (t ≡ after_notes add s (notes before)) }
    ensures later { (add : S → Mark → S) (work : Traced A) (old new : Funds) (s t : S) (r : Result A StepFault) → old.spent ≤ old.budget
        → Followed add work old s r new t → Later old new }
{}
