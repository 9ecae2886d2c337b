// A name out of clauses, by the rules that the entries of a log name in turn.

ghost use Rattle.elim_check.specs.Reading.{ReadAt, outcome};
ghost use Rattle.elim_check.specs.Steps.{passed, replaying, turn};
ghost use Rattle.base_budget.specs.Trace.{at};
ghost use Rattle.base_budget.specs.Work.{Charged, ChargedAt};
ghost use Rattle.std.specs.Prelude.{◌≡◌, ◌≤◌, [], length};

use super::applying::does_apply;
use super::fault::Stop;
use super::performing::perform;
use super::todo::Todo;
use base_budget::{Entry, Purse, StepFault};
use clause_set::Clause;
use sqlite_items::Items;
use std::alloc::Global;

/// The clauses without x go after those of out, each at the charge 1, up to the first one with x.
#[tactic(auto, using(base_budget::proofs::Charging::looping, crate::proofs::Replaying::passed_stop, crate::proofs::Replaying::passed_on))]
fn pass(
    todo: Todo,
    out: Items<Clause>,
    x: u32,
    purse: &mut Purse,
) -> Result<(Todo, Items<Clause>), StepFault>
    ensures { Charged (passed x todo out) purse.old result purse.new }
{
    let mut left = todo;
    let mut done = out;
    'free: while let Some(c) = left.take_without(x) {
        purse.step(1)?;
        done.push(c)?;
    }
    Ok((left, done))
}

/// What the rule of the entry leaves of the first clause, before the others.
fn turn(alloc: Global, todo: Todo, x: u32, entry: Entry, purse: &mut Purse) -> Result<Todo, Stop>
    ensures { ChargedAt (turn x entry todo) (at purse.old []) (outcome result) (at purse.new []) }
{
    let mut left = todo;
    let Some(c) = left.take() else {
        return Err(Stop::Entry);
    };
    if !does_apply(&c, x, entry) {
        return Err(Stop::Entry);
    }
    let results = perform(alloc, c, x, entry, purse)?;
    left.put(results)?;
    Ok(left)
}

/// x out of the clauses, by the entries of the log from the place on.
pub(crate) fn replay(
    alloc: Global,
    clauses: Items<Clause>,
    x: u32,
    log: &[Entry],
    place: &mut usize,
    purse: &mut Purse,
) -> Result<Items<Clause>, Stop>
    requires { place.old ≤ length log.now }
    ensures { ReadAt (replaying x clauses) log.now place.old purse.old result place.new purse.new }
{
    let mut todo = Todo::of(alloc, clauses)?;
    let mut out = Items::new(alloc);
    'entries: while *place < log.len() {
        let (left, done) = pass(todo, out, x, purse)?;
        if left.is_empty() {
            return Ok(done);
        }
        todo = turn(alloc, left, x, log[*place], purse)?;
        out = done;
        *place += 1;
    }
    let (left, done) = pass(todo, out, x, purse)?;
    if left.is_empty() {
        Ok(done)
    } else {
        Err(Stop::Entry)
    }
}
