// The search of a root: its preparation, the loop, and what was found.

ghost use Rattle.formula.specs.Form.{IsFormOver};
ghost use Rattle.formula.specs.Tree.{form};
ghost use Rattle.std.specs.Prelude.{length};

use crate::advising::Instances;
use crate::charging::{charges, preparation};
use crate::modelling::Refutation;
use crate::shrinking::shrunk;
use crate::stopping::{gave_up, stopped};
use crate::target::Target;
use crate::writing::text_of;
use base_watch::{Event, Stage, Watch};
use cdcl_search::{Answer, Search};
use cdcl_steps::Proof;
use clause_root::prepare_scoped;
use formula::Core;
use linear_term::Memory;
use model_table::Model;
use std::alloc::Global;

/// What the clause search finds of a closed formula.
#[derive(Drop)]
pub enum Found {
    /// The text of a clause proof, as a file of proof format 3 holds it.
    Proof(Vec<u8>),
    /// A finite model, and values for the names of the first for-alls, at which the formula seems to be false.
    Model(Model, Vec<i128>),
    /// Neither, within the budget and the range.
    Nothing,
}

/// The most names of a root that is searched at integers for them.
const MOST_VALUES: usize = 1_000_000;

/// The most steps of shrinking.
const MOST_SHRINKING: u64 = 10_000_000;

/// Searches a proof or a model of a closed root. A model comes with values of the names of the root's first `universals`
/// for-alls. The budget is in steps of the search, of which one takes some 20 to 40 nanoseconds. The preparation of the root
/// takes at most as many steps again, and the shrinking of a model at most a quarter of them, and 10,000,000. The check that
/// tells what a proof charges is not counted. Who watches is told how far the search is.
pub fn search<X: Watch>(
    alloc: Global,
    root: &Core,
    universals: u32,
    budget: u64,
    watch: &mut X,
) -> Result<Found, Memory>
    requires closed { IsFormOver 0 (form root.now) }
{
    let mut left = budget;
    search_at(alloc, root, &[], universals, &mut left, watch)
}

/// The same of a root over names, at these integers for them: a proof says that the root is true there, and a model that it is false.
/// The budget is that of several searches: what this one takes of it goes off.
pub fn search_at<X: Watch>(
    alloc: Global,
    root: &Core,
    values: &[i128],
    universals: u32,
    budget: &mut u64,
    watch: &mut X,
) -> Result<Found, Memory>
    requires over { IsFormOver (length values.now) (form root.now) }
{
    if values.len() > MOST_VALUES {
        return Ok(Found::Nothing);
    }
    let target = Target {
        root,
        values,
        universals,
    };
    let steps = preparation(root, *budget);
    if steps == 0 {
        return searched(alloc, target, root, 0, budget, watch);
    }
    let prepared = prepare_scoped(alloc, root, values.len() as u32, u64::from(steps))?;
    searched(alloc, target, &prepared, steps, budget, watch)
}

/// What the search of the prepared root finds; `steps` is 0 where the root was not prepared. Its steps go off the budget.
fn searched<X: Watch>(
    alloc: Global,
    target: Target<'_>,
    prepared: &Core,
    steps: u32,
    left: &mut u64,
    watch: &mut X,
) -> Result<Found, Memory> {
    let budget = *left;
    let advisor = Instances::new(alloc, target, budget);
    let mut search = match Search::new(alloc, prepared, target.values, advisor, budget) {
        Ok(search) => search,
        Err(fault) => return stopped(fault),
    };
    let stage = Stage::Clauses;
    watch.tell(Event::Begins { stage, budget });
    let outcome = search.run(watch);
    let progress = search.progress();
    *left = budget.saturating_sub(progress.steps);
    watch.tell(Event::Searched(progress));
    search.tell_instances(watch);
    watch.tell(Event::Ends {
        stage,
        steps: progress.steps,
    });
    let advisor = search.into_advisor();
    match outcome {
        Ok(Answer::Proof(proof)) => proved(alloc, target, prepared, steps, &proof),
        Ok(Answer::Model) => refuted(alloc, target, advisor, shrinking_steps(budget)),
        Ok(Answer::GaveUp(cause)) => gave_up(cause),
        Err(fault) => stopped(fault),
    }
}

/// How many steps the shrinking of a model may take, after a search with this budget.
fn shrinking_steps(budget: u64) -> u64 {
    (budget / 4).min(MOST_SHRINKING)
}

/// The text of a proof, if its check accepts it.
fn proved(
    alloc: Global,
    target: Target<'_>,
    prepared: &Core,
    steps: u32,
    proof: &Proof,
) -> Result<Found, Memory> {
    match charges(alloc, target, prepared, steps, proof)? {
        Some(count) => Ok(Found::Proof(text_of(alloc, count, steps, target.values, proof)?)),
        None => Ok(Found::Nothing),
    }
}

/// The model that the advisor of a search has.
fn refuted(
    alloc: Global,
    target: Target<'_>,
    advisor: Instances<'_>,
    steps: u64,
) -> Result<Found, Memory> {
    let Some(found) = advisor.model() else {
        return Ok(Found::Nothing);
    };
    match shrunk(alloc, target, found, steps) {
        Ok(Refutation { model, values }) => Ok(Found::Model(model, values)),
        Err(fault) => stopped(fault),
    }
}
