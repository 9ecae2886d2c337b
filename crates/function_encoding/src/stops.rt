// What comes after the simple instructions at the head of a list.

ghost use Rattle.std.specs.Prelude.{◌≡◌, ◌<◌, ◌+◌, false, cond, ℕ, drop, length, Err, IfOk, IfErr, reverse};
ghost use Rattle.base_budget.specs.Trace.{just};
ghost use Rattle.formula.specs.Made.{Made};
ghost use Rattle.formula.specs.Tree.{form};
ghost use Rattle.function_encoding.specs.Actions as stacks;
ghost use Rattle.function_encoding.specs.Actions.{ran, take_absolute, take_extreme};
ghost use Rattle.function_encoding.specs.Instructions.{action_of, actions_of};
ghost use Rattle.function_encoding.specs.Room.{AreActionsRanged};
ghost use Rattle.function_encoding.specs.Stops.{Halts, IsStopOf};

use crate::actions::{acted, is_simple, negated};
use crate::instruction::Instruction;
use crate::stack::{copied, last_of, popped, split, two_ways};
use crate::stop::{Halt, Stop, Test};
use formula::Relation;
use linear_term::{Memory, Term, TermFault};
use sqlite_items::Items;
use std::alloc::Global;

/// The stack as it is, or with the negative of its last term.
pub fn turned(alloc: Global, negate: bool, stack: Items<Term>) -> Result<Items<Term>, TermFault>
    ensures { Made (λ vs. reverse vs) (cond negate (stacks.negated (reverse stack)) (just (reverse stack))) result }
{
    if negate {
        return negated(alloc, stack);
    }
    Ok(stack)
}

/// Cases of whether the last term is at least 0.
fn absolute<'a>(alloc: Global, stack: Items<Term>) -> Result<Stop<'a>, Memory>
    ensures { IfOk result (λ s. IsStopOf take_absolute (reverse stack) s) }
{
    let other = copied(alloc, stack.as_slice())?;
    let last = last_of(alloc, stack.as_slice())?;
    let test = Test::Relation(Relation::Geq, last, Term::number(alloc, 0));
    Ok(Stop::Cases(test, stack, true, other))
}

/// Cases of whether the last term but one stands in the relation to the last.
fn extreme<'a>(alloc: Global, relation: Relation, stack: Items<Term>) -> Result<Stop<'a>, Memory>
    ensures { IfOk result (λ s. IsStopOf (take_extreme relation) (reverse stack) s) }
{
    let (first, second) = two_ways(alloc, stack)?;
    let left = last_of(alloc, first.as_slice())?;
    let right = last_of(alloc, second.as_slice())?;
    Ok(Stop::Cases(Test::Relation(relation, left, right), first, false, second))
}

/// What an instruction is that is not simple.
fn stop<'a>(
    alloc: Global,
    instruction: &Instruction<'a>,
    stack: Items<Term>,
) -> Result<Stop<'a>, Memory>
    requires { stacks.is_simple (action_of instruction.now) ≡ false }
    ensures { IfOk result (λ s. IsStopOf (action_of instruction.now) (reverse stack) s) }
{
    match instruction {
        Instruction::Call(f, k) => {
            let (terms, below) = split(alloc, stack, *k)?;
            Ok(Stop::Graph(*f, terms, below))
        }
        Instruction::Choose(g) => {
            let (first, second) = two_ways(alloc, stack)?;
            Ok(Stop::Cases(Test::Formula(*g), first, false, second))
        }
        Instruction::Absolute => absolute(alloc, stack),
        Instruction::Extreme(r) => extreme(alloc, *r, stack),
        Instruction::Relate(r) => {
            let mut stack = stack;
            let right = popped(alloc, &mut stack);
            let left = popped(alloc, &mut stack);
            Ok(Stop::Related(*r, left, right))
        }
        Instruction::Predicate(plus, p, k) => {
            let (terms, _) = split(alloc, stack, *k)?;
            Ok(Stop::Predicate(*plus, *p, terms))
        }
        Instruction::Number(_) => Ok(Stop::Nothing),
        Instruction::Name(_) => Ok(Stop::Nothing),
        Instruction::Negate => Ok(Stop::Nothing),
        Instruction::Multiply(_) => Ok(Stop::Nothing),
        Instruction::Add(_) => Ok(Stop::Nothing),
    }
}

/// The first instructions done, as far as they are simple, and what comes then.
pub fn halt<'a>(
    alloc: Global,
    at: &[u32],
    code: &'a [Instruction<'a>],
    stack: Items<Term>,
) -> Result<Halt<'a>, TermFault>
    requires { AreActionsRanged (actions_of code.now) }
    ensures ok { IfOk result (λ h. Halts at.now (actions_of code.now) (reverse stack) h.stop (actions_of h.rest.now)) }
    ensures err { IfErr result (λ e. (n : ℕ) → Made form (ran at.now (actions_of code.now) n (reverse stack)) (Err e)) }
{
    let mut stack = stack;
    for (i, instruction) in code.iter().enumerate() {
        if is_simple(instruction) {
            stack = acted(alloc, at, instruction, stack)?;
        } else {
            let stop = stop(alloc, instruction, stack)?;
            return Ok(Halt {
                stop,
                rest: after(code, i),
            });
        }
    }
    Ok(Halt {
        stop: Stop::Nothing,
        rest: code,
    })
}

/// The instructions after the i-th.
fn after<'a>(code: &'a [Instruction<'a>], i: usize) -> &'a [Instruction<'a>]
    requires { i < length code.now }
    ensures { result.now ≡ drop (i + 1) code.now }
{
    &code[i + 1..]
}
