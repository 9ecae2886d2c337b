// An atom as a list of instructions over a stack of finished terms, in postfix order.

ghost use Rattle.std.specs.Prelude.{◌≡◌, ◌∷◌, [], IfOk, OnOk};
ghost use Rattle.form_typed.specs.Formula.{expression, expressions_of};
ghost use Rattle.pri_typing.specs.WellFormed.{size};
ghost use Rattle.function_encoding.specs.Actions.{compiled, compiled_all, compiled_more, compiled_sum, predicate, relate};
ghost use Rattle.function_encoding.specs.Instructions.{FollowsActions, action_of, actions_of};

use crate::instruction::Instruction;
use crate::plain::{is_numeric, is_subtracted, without_minus};
use formula::{Relation, TypedTerm};
use linear_term::Memory;
use sqlite_items::Items;
use std::alloc::Global;

/// One more instruction.
fn put<'a>(code: &mut Items<Instruction<'a>>, instruction: Instruction<'a>) -> Result<(), Memory>
    ensures { OnOk result (FollowsActions (actions_of code.old) (actions_of code.new) (λ more. action_of instruction.entry ∷ more)) }
{
    Ok(code.push(instruction)?)
}

/// The instructions that finish the term, after others.
#[cycle(compile)]
fn compile<'a>(term: &'a TypedTerm, code: &mut Items<Instruction<'a>>) -> Result<(), Memory>
    ensures { OnOk result (FollowsActions (actions_of code.old) (actions_of code.new) (compiled (expression term.now))) }
{
    match term {
        TypedTerm::Number(v) => put(code, Instruction::Number(*v)),
        TypedTerm::Name(x) => put(code, Instruction::Name(*x)),
        TypedTerm::Apply(f, ts) => compile_call(
            ts.as_slice(),
            Instruction::Call(*f, ts.len()),
            code,
        ),
        TypedTerm::Minus(t) => compile_one(t.get(), Instruction::Negate, code),
        TypedTerm::Sum(ts) => compile_sum(ts.as_slice(), code),
        TypedTerm::Product(s, t) => {
            let product = Instruction::Multiply(is_numeric(s.get()));
            compile_two(s.get(), t.get(), product, code)
        }
        TypedTerm::If(g, s, t) => compile_two(s.get(), t.get(), Instruction::Choose(g.get()), code),
        TypedTerm::Abs(t) => compile_one(t.get(), Instruction::Absolute, code),
        TypedTerm::Min(s, t) => {
            compile_two(s.get(), t.get(), Instruction::Extreme(Relation::Leq), code)
        }
        TypedTerm::Max(s, t) => {
            compile_two(s.get(), t.get(), Instruction::Extreme(Relation::Geq), code)
        }
    }
}

/// The instructions that finish the term, and one more instruction, after others.
#[cycle(compile)]
fn compile_one<'a>(
    term: &'a TypedTerm,
    last: Instruction<'a>,
    code: &mut Items<Instruction<'a>>,
) -> Result<(), Memory>
    ensures { OnOk result (FollowsActions (actions_of code.old) (actions_of code.new) (λ more. compiled (expression term.now) (action_of last.entry ∷ more))) }
{
    compile(term, code)?;
    put(code, last)
}

/// The instructions that finish two terms, and one more instruction, after others.
#[cycle(compile)]
fn compile_two<'a>(
    s: &'a TypedTerm,
    t: &'a TypedTerm,
    last: Instruction<'a>,
    code: &mut Items<Instruction<'a>>,
) -> Result<(), Memory>
    ensures { OnOk result (FollowsActions (actions_of code.old) (actions_of code.new) (λ more. compiled (expression s.now) (compiled (expression t.now) (action_of last.entry ∷ more)))) }
{
    compile(s, code)?;
    compile_one(t, last, code)
}

/// The instructions that finish the terms, and one more instruction, after others.
#[cycle(compile)]
fn compile_call<'a>(
    terms: &'a [TypedTerm],
    last: Instruction<'a>,
    code: &mut Items<Instruction<'a>>,
) -> Result<(), Memory>
    ensures { OnOk result (FollowsActions (actions_of code.old) (actions_of code.new) (λ more. compiled_all (expressions_of terms.now) (action_of last.entry ∷ more))) }
{
    compile_all(terms, code)?;
    put(code, last)
}

#[cycle(compile)]
fn compile_all<'a>(terms: &'a [TypedTerm], code: &mut Items<Instruction<'a>>) -> Result<(), Memory>
    ensures { OnOk result (FollowsActions (actions_of code.old) (actions_of code.new) (compiled_all (expressions_of terms.now))) }
{
    for t in terms {
        compile(t, code)?;
    }
    Ok(())
}

#[cycle(compile)]
fn compile_sum<'a>(terms: &'a [TypedTerm], code: &mut Items<Instruction<'a>>) -> Result<(), Memory>
    ensures { OnOk result (FollowsActions (actions_of code.old) (actions_of code.new) (compiled_sum (expressions_of terms.now))) }
{
    let Some((first, others)) = terms.split_first() else {
        return put(code, Instruction::Number(0));
    };
    compile(first, code)?;
    compile_more(others, code)
}

/// The instructions of the further members of a sum, after others.
#[cycle(compile)]
fn compile_more<'a>(terms: &'a [TypedTerm], code: &mut Items<Instruction<'a>>) -> Result<(), Memory>
    ensures { OnOk result (FollowsActions (actions_of code.old) (actions_of code.new) (compiled_more (expressions_of terms.now))) }
{
    for t in terms {
        compile_one(without_minus(t), Instruction::Add(is_subtracted(t)), code)?;
    }
    Ok(())
}

/// The instructions of a relation between two terms.
pub fn relation_code<'a>(
    alloc: Global,
    relation: Relation,
    s: &'a TypedTerm,
    t: &'a TypedTerm,
) -> Result<Items<Instruction<'a>>, Memory>
    ensures { IfOk result (λ code. actions_of code ≡ compiled (expression s.now) (compiled (expression t.now) (relate relation ∷ []))) }
{
    let mut code = Items::new(alloc);
    compile_two(s, t, Instruction::Relate(relation), &mut code)?;
    Ok(code)
}

/// The instructions of a predicate at these terms.
pub fn predicate_code<'a>(
    alloc: Global,
    plus: bool,
    p: u32,
    terms: &'a [TypedTerm],
) -> Result<Items<Instruction<'a>>, Memory>
    ensures { IfOk result (λ code. actions_of code ≡ compiled_all (expressions_of terms.now) (predicate plus p (size (expressions_of terms.now)) ∷ [])) }
{
    let mut code = Items::new(alloc);
    compile_call(
        terms,
        Instruction::Predicate(plus, p, terms.len()),
        &mut code,
    )?;
    Ok(code)
}
