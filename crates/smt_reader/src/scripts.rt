// A script from its bytes to the problems of its checks.

ghost use Rattle.std.specs.List.{All, AllByRecursion};
ghost use Rattle.std.specs.Prelude.{◌≡◌, ◌≢◌, ◌++◌, ◌∷◌, [], IfErr, IfOk, List, None, map};
ghost use Rattle.smt_lists.specs.Expressions.{expr};
ghost use Rattle.smt_terms.specs.Scripts.{State, claim};
ghost use Rattle.smt_terms.specs.Term.{phrase};
ghost use Rattle.smt_reader.specs.Effects.{act_is, command_is};
ghost use Rattle.smt_reader.specs.Forces.{force};
ghost use Rattle.smt_reader.specs.Following.{AreNew, FollowsState};
ghost use Rattle.smt_shorthand.specs.Ranged.{IsRangedExpr};
ghost use Rattle.smt_reader.specs.Poses.{ArePosed, IsPosedBy, IsRefusedBy, IsScriptRefusal, IsScriptWith, checks_in};
ghost use Rattle.smt_reader.specs.Commands.{Act, acts_of, questions, script_terms, state_of};
ghost use Rattle.smt_commands.specs.Faults.{refusal_of};
ghost use Rattle.smt_commands.specs.declared.refusal.ScriptRefusal.{ScriptRefusal};
ghost use Rattle.smt_reader.specs.Replies.{replies};
ghost use Rattle.smt_reader.specs.Taking.{ArePosedOrLarge, AreTaken, AreTakenOrLarge, IsGathered, MayAsk, size_together};

use crate::effects::{Effect, Step, read_step};
use crate::following::{Reading, assume, follow_all};
use crate::forces::Forces;
use crate::posing::{Script, pose};
use crate::reading::{as_script, read_as};
use crate::replies::replies;
use linear_term::Memory;
use pri_typing::Problem;
use smt_commands::ScriptRefusal;
use smt_lists::{Sexp, lists};
use smt_sizes::{NOTHING, Size, above, beside};
use smt_terms::Term;
use smt_typing::{Typing, command_in, is_exit, walk};
use sqlite_items::Items;
use std::alloc::Global;

/// The problems of the checks so far, and how large their formulas are together.
#[derive(Drop)]
struct Gathered {
    problems: Items<Problem>,
    size: Size,
}

// The checks with one more after these commands; none where their formulas are too large together.
fn with_check(
    alloc: Global,
    reading: &Reading,
    checks: Gathered,
) -> Result<Option<Gathered>, Memory>
    ensures { IfOk result (λ r. (s : State) (done : List State) → FollowsState reading.now s → ArePosed done checks.problems → checks.size ≡ size_together done
        → IsGathered (done ++ s ∷ []) r) }
{
    let Gathered { mut problems, size } = checks;
    let size = beside(size, above(above(reading.size)));
    if let Size::Large = size {
        return Ok(None);
    }
    problems.push(pose(alloc, reading)?)?;
    Ok(Some(Gathered { problems, size }))
}

// The commands in force, and the problems of the checks so far.
#[derive(Drop)]
struct Taken {
    forces: Forces,
    checks: Gathered,
}

// What commands without levels come to, with some terms assumed.
fn question(alloc: Global, effects: &[Effect], assumed: &[Term]) -> Result<Reading, Memory>
    requires new { AreNew [] (map command_is effects.now) }
    ensures { IfOk result (λ r. FollowsState r (state_of (map command_is effects.now ++ map claim (map phrase assumed.now)))) }
{
    let reading = follow_all(alloc, effects)?;
    assume(alloc, reading, assumed)
}

// The checks with one more, of these commands in force and with some terms assumed.
fn ask(
    alloc: Global,
    effects: &[Effect],
    checks: Gathered,
    assumed: &[Term],
) -> Result<Option<Gathered>, Memory>
    requires new { AreNew [] (map command_is effects.now) }
    ensures { IfOk result (λ r. (done : List State) → ArePosed done checks.problems → checks.size ≡ size_together done
        → IsGathered (done ++ state_of (map command_is effects.now ++ map claim (map phrase assumed.now)) ∷ []) r) }
{
    let reading = question(alloc, effects, assumed)?;
    with_check(alloc, &reading, checks)
}

// What comes of a command more; nothing where the formulas of the checks are too large together.
fn take_step(alloc: Global, taken: Taken, step: Step) -> Result<Option<Taken>, Memory>
    requires new { MayAsk (force taken.forces) (act_is step) }
    ensures { IfOk result (λ r. (rest all : List Act) → AreTaken (force taken.forces) taken.checks (act_is step ∷ rest) all → AreTakenOrLarge rest all r) }
{
    let Taken { forces, checks } = taken;
    match step {
        Step::Does(effect) => {
            let forces = forces.add(effect)?;
            Ok(Some(Taken { forces, checks }))
        }
        Step::Asks(assumed) => match ask(alloc, forces.effects(), checks, assumed.as_slice())? {
            Some(checks) => Ok(Some(Taken { forces, checks })),
            None => Ok(None),
        },
        Step::Opens(count) => {
            let forces = forces.push(count)?;
            Ok(Some(Taken { forces, checks }))
        }
        Step::Leaves(count) => {
            let forces = forces.pop(count);
            Ok(Some(Taken { forces, checks }))
        }
        Step::Restarts => {
            let forces = Forces::new(alloc);
            Ok(Some(Taken { forces, checks }))
        }
    }
}

// The problems of the checks of these lists, no question of which declares or defines a symbol twice; none where their formulas
// are too large together.
fn problems(alloc: Global, lists: &[Sexp]) -> Result<Option<Items<Problem>>, Memory>
    requires new { All (AreNew []) (questions (acts_of (map expr lists.now))) }
    ensures { IfOk result (ArePosedOrLarge (checks_in (map expr lists.now))) }
{
    let mut taken = Taken {
        forces: Forces::new(alloc),
        checks: Gathered {
            problems: Items::new(alloc),
            size: NOTHING,
        },
    };
    let mut rest = lists;
    while let Some((list, behind)) = rest.split_first() {
        rest = behind;
        let Some(command) = command_in(list) else {
            continue;
        };
        if is_exit(command) {
            return Ok(Some(taken.checks.problems));
        }
        let Some(step) = read_step(alloc, command)? else {
            continue;
        };
        let Some(more) = take_step(alloc, taken, step)? else {
            return Ok(None);
        };
        taken = more;
    }
    Ok(Some(taken.checks.problems))
}

// The problems of a script of these commands, or its refusal.
fn take_lists(alloc: Global, lists: &[Sexp]) -> Result<Script, ScriptRefusal>
    requires ranged { AllByRecursion IsRangedExpr (map expr lists.now) }
    ensures read { IfOk result (λ s. IsPosedBy (map expr lists.now) s.checks) }
    ensures replies { IfOk result (λ s. s.replies ≡ replies (map expr lists.now)) }
    ensures refused { IfErr result (λ e. IsRefusedBy (map expr lists.now) e) }
{
    match walk(alloc, &Typing, lists) {
        Ok(_table) => match problems(alloc, lists) {
            Ok(Some(checks)) => with_replies(alloc, lists, checks),
            Ok(None) => Err(ScriptRefusal::Large),
            Err(Memory) => Err(ScriptRefusal::Memory),
        },
        Err(e) => Err(e),
    }
}

// The script of these lists, with the problems of its checks.
fn with_replies(
    alloc: Global,
    lists: &[Sexp],
    checks: Items<Problem>,
) -> Result<Script, ScriptRefusal>
    ensures checks { IfOk result (λ s. s.checks ≡ checks) }
    ensures replies { IfOk result (λ s. s.replies ≡ replies (map expr lists.now)) }
    ensures refused { IfErr result (λ e. e ≡ ScriptRefusal.Memory) }
{
    match replies(alloc, lists) {
        Ok(replies) => Ok(Script { checks, replies }),
        Err(Memory) => Err(ScriptRefusal::Memory),
    }
}

/// The problems of a script and what it asks to be told, or its first refusal: the first one of its tokens goes before all others; then the one at the least
/// offset counts, and there the one with the least number; Large comes where there is no other.
pub fn script(alloc: Global, bytes: &[u8]) -> Result<Script, ScriptRefusal>
    ensures read { IfOk result (λ s. IsScriptWith bytes.now s.checks s.replies) }
    ensures refused { IfErr result (λ e. IsScriptRefusal bytes.now e) }
{
    match lists(alloc, bytes) {
        Ok(lists) => match read_as(alloc, lists) {
            Ok(commands) => take_lists(alloc, commands.as_slice()),
            Err(Memory) => Err(ScriptRefusal::Memory),
        },
        Err(e) => Err(as_script(e)),
    }
}
