// The simple instructions: each works on the end of the stack alone.

ghost use Rattle.std.specs.Prelude.{◌≡◌, [], ◌∷◌, reverse};
ghost use Rattle.formula.specs.Made.{Made};
ghost use Rattle.form_encoding.specs.Encoding.{product_of};
ghost use Rattle.function_encoding.specs.Actions as stacks;
ghost use Rattle.function_encoding.specs.Actions.{joined, top, under};
ghost use Rattle.function_encoding.specs.Instructions.{action_of};
ghost use Rattle.function_encoding.specs.Members.{added};
ghost use Rattle.function_encoding.specs.Room.{AreActionsRanged};

use crate::atoms::{negative, product, with_member};
use crate::instruction::Instruction;
use crate::naming::named;
use crate::stack::{popped, with_last};
use linear_term::{Term, TermFault};
use sqlite_items::Items;
use std::alloc::Global;

/// Whether the instruction neither binds a name nor makes two cases, nor is the end.
pub fn is_simple(instruction: &Instruction) -> bool
    ensures { result ≡ stacks.is_simple (action_of instruction.now) }
{
    match instruction {
        Instruction::Number(_) => true,
        Instruction::Name(_) => true,
        Instruction::Negate => true,
        Instruction::Multiply(_) => true,
        Instruction::Add(_) => true,
        Instruction::Call(_, _) => false,
        Instruction::Choose(_) => false,
        Instruction::Absolute => false,
        Instruction::Extreme(_) => false,
        Instruction::Relate(_) => false,
        Instruction::Predicate(_, _, _) => false,
    }
}

/// The stack with the negative of its last term.
pub fn negated(alloc: Global, mut stack: Items<Term>) -> Result<Items<Term>, TermFault>
    ensures { Made (λ vs. reverse vs) (stacks.negated (reverse stack)) result }
{
    let last = popped(alloc, &mut stack);
    let value = negative(alloc, &last)?;
    Ok(with_last(stack, value)?)
}

/// The stack with the product of its last two terms.
fn multiplied(alloc: Global, left: bool, mut stack: Items<Term>) -> Result<Items<Term>, TermFault>
    ensures { Made (λ vs. reverse vs) (joined (product_of left) (reverse stack)) result }
{
    let second = popped(alloc, &mut stack);
    let first = popped(alloc, &mut stack);
    let value = product(alloc, left, &first, &second)?;
    Ok(with_last(stack, value)?)
}

/// The stack with the sum or the difference of its last two terms.
fn summed(alloc: Global, subtracted: bool, mut stack: Items<Term>) -> Result<Items<Term>, TermFault>
    ensures { Made (λ vs. reverse vs) (joined (added subtracted) (reverse stack)) result }
{
    let second = popped(alloc, &mut stack);
    let first = popped(alloc, &mut stack);
    let value = with_member(&first, subtracted, &second)?;
    Ok(with_last(stack, value)?)
}

/// The stack after a simple instruction; another one leaves it as it is.
pub fn acted(
    alloc: Global,
    at: &[u32],
    instruction: &Instruction,
    stack: Items<Term>,
) -> Result<Items<Term>, TermFault>
    requires { AreActionsRanged (action_of instruction.now ∷ []) }
    ensures { Made (λ vs. reverse vs) (stacks.acted at.now (action_of instruction.now) (reverse stack)) result }
{
    match instruction {
        Instruction::Number(v) => Ok(with_last(stack, Term::number(alloc, *v))?),
        Instruction::Name(x) => Ok(with_last(stack, named(alloc, at, *x))?),
        Instruction::Negate => negated(alloc, stack),
        Instruction::Multiply(left) => multiplied(alloc, *left, stack),
        Instruction::Add(subtracted) => summed(alloc, *subtracted, stack),
        Instruction::Call(_, _) => Ok(stack),
        Instruction::Choose(_) => Ok(stack),
        Instruction::Absolute => Ok(stack),
        Instruction::Extreme(_) => Ok(stack),
        Instruction::Relate(_) => Ok(stack),
        Instruction::Predicate(_, _, _) => Ok(stack),
    }
}
