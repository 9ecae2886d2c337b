// Resolve: a clause that follows by unit propagation along earlier ones (Goldberg and Novikov, Verification of proofs of
// unsatisfiability for CNF formulas, 2003), which are named in their order (Cruz-Filipe and others, Efficient certified RAT
// verification, 2017). It takes time in proportion to the literals of the clauses named. Delete: clauses that are no longer used.

ghost use Rattle.std.specs.Prelude.{◌≡◌, ◌++◌, ◌∷◌, [], List, None, slice_set, IfOk, IfErr, OnOk};
ghost use Rattle.std.specs.List.{slice_get};
ghost use Rattle.clause_proof.specs.declared.line.Literal.{Literal};
ghost use Rattle.clause_proof.specs.Lines as lines;
ghost use Rattle.clause_checker.specs.Answers.{Does, IsTermCut, IsRefusedOrCut};
ghost use Rattle.clause_checker.specs.Marking.{IsMarking};
ghost use Rattle.clause_checker.specs.Views.{left_at, left_view, state_of};

use crate::fault::Fault;
use crate::opening::opposite;
use crate::state::State;
use crate::summing::add_clause;
use clause_marks::Marks;
use clause_proof::Literal;
use sqlite_items::{Items, at};
use std::alloc::Global;

/// The literals of a clause that are not known to be false: none, one, or more.
#[derive(Clone, Copy)]
pub(crate) enum Left {
    Nothing,
    One(Literal),
    More,
}

/// These literals, and l if it is not marked as false.
#[tactic(auto, using(crate::proofs::Lefts::lefts))]
fn with_literal(marks: &Marks, left: Left, l: Literal) -> Left
    ensures { (fs ls : List Literal) → IsMarking marks.now fs → left ≡ left_view ls → result ≡ left_view (ls ++ lines.left_of fs (l ∷ [])) }
{
    if marks.contains(l) {
        return left;
    }
    match left {
        Left::Nothing => Left::One(l),
        Left::One(_) => Left::More,
        Left::More => Left::More,
    }
}

/// The literals of the clause that are left.
#[tactic(auto, using(crate::proofs::Lefts::leaving))]
fn left_of(marks: &Marks, clause: &[Literal]) -> Left
    ensures { (fs : List Literal) → IsMarking marks.now fs → result ≡ left_view (lines.left_of fs clause.now) }
{
    let mut left = Left::Nothing;
    for l in clause {
        left = with_literal(marks, left, *l);
    }
    left
}

/// The literals of clause number h that are left; as more than one, where it is missing.
fn left_at(marks: &Marks, clauses: &[Option<Items<Literal>>], h: u32) -> Left
    ensures { (fs : List Literal) → IsMarking marks.now fs → result ≡ left_at (slice_get clauses.now h) fs }
{
    match at(clauses, h as usize) {
        None => Left::More,
        Some(None) => Left::More,
        Some(Some(clause)) => left_of(marks, clause.as_slice()),
    }
}

/// One more literal that is false.
#[tactic(auto, using(crate::proofs::Lefts::marking, crate::proofs::Causes::causes))]
fn mark(marks: &mut Marks, l: Literal) -> Result<(), Fault>
    ensures ok { OnOk result ((fs : List Literal) → IsMarking marks.old fs → IsMarking marks.new (fs ++ l ∷ [])) }
    ensures err { IfErr result IsTermCut }
{
    marks.insert(l)?;
    Ok(())
}

/// The literals of the clause are false, and no others.
#[tactic(auto, using(crate::proofs::Lefts::marked_ones, crate::proofs::Causes::causes))]
fn mark_all(alloc: Global, marks: &mut Marks, clause: &[Literal]) -> Result<(), Fault>
    ensures ok { OnOk result (IsMarking marks.new clause.now) }
    ensures err { IfErr result IsTermCut }
{
    marks.clear(alloc);
    for l in clause {
        mark(marks, *l)?;
    }
    Ok(())
}

/// Whether the clauses with these numbers clash with the falsity of the marked literals.
#[tactic(auto, using(crate::proofs::Lefts::clashing, crate::proofs::Causes::causes))]
fn clashes(
    marks: &mut Marks,
    clauses: &[Option<Items<Literal>>],
    hints: &[u32],
) -> Result<bool, Fault>
    ensures ok { IfOk result (λ b. (fs : List Literal) → IsMarking marks.old fs → b ≡ lines.clashes clauses.now hints.now fs) }
    ensures err { IfErr result IsTermCut }
{
    for h in hints {
        match left_at(marks, clauses, *h) {
            Left::Nothing => return Ok(true),
            Left::One(l) => mark(marks, opposite(l))?,
            Left::More => return Ok(false),
        }
    }
    Ok(false)
}

/// Whether the variables of the literals are among the first n.
fn are_known(n: usize, clause: &[Literal]) -> bool
    ensures { result ≡ lines.are_known n clause.now }
{
    clause.iter().all(|l| (l.variable as usize) < n)
}

/// What a clause adds that follows along the hints.
#[tactic(auto, using(crate::proofs::Sums::clauses_only, crate::proofs::Doing::doing, crate::proofs::Causes::causes))]
pub(crate) fn resolve(
    alloc: Global,
    marks: &mut Marks,
    state: &mut State,
    clause: &[Literal],
    hints: &[u32],
) -> Result<(), Fault>
    ensures does { Does (λ u. state_of state.new) (lines.found (lines.resolved (state_of state.old) clause.now hints.now) (lines.extended (state_of state.old))) result }
    ensures cause { IfErr result IsRefusedOrCut }
{
    if !are_known(state.definitions.len(), clause) {
        return Err(Fault::Refused);
    }
    mark_all(alloc, marks, clause)?;
    if !clashes(marks, state.clauses.as_slice(), hints)? {
        return Err(Fault::Refused);
    }
    let copy = Items::from_slice(alloc, clause)?;
    add_clause(state, copy)
}

/// The clause with this number goes.
#[tactic(auto, using(crate::proofs::Lefts::set_past))]
fn delete_one(clauses: &mut Items<Option<Items<Literal>>>, h: u32)
    ensures { clauses.new ≡ slice_set clauses.old h None }
{
    if (h as usize) < clauses.len() {
        clauses.set(h as usize, None);
    }
}

/// The clauses with these numbers go.
#[tactic(auto, using(crate::proofs::Lefts::deleting))]
pub(crate) fn delete(clauses: &mut Items<Option<Items<Literal>>>, hints: &[u32])
    ensures { clauses.new ≡ lines.without_clauses clauses.old hints.now }
{
    for h in hints {
        delete_one(clauses, *h);
    }
}
