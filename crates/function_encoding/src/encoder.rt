// The encoder of formulas: connectives by their sign, atoms by their instructions.

ghost use Rattle.std.specs.Prelude.{◌≡◌, ◌∷◌, [], ◌++◌, cond, suc, reverse, length};
ghost use Rattle.linear_term.specs.Linear as linear;
ghost use Rattle.base_budget.specs.Trace.{just, next};
ghost use Rattle.form_typed.specs.Sorts.{IsSortRanged};
ghost use Rattle.form_typed.specs.Formula.{applies, compares, expression, expressions_of, formula, formulas_of, iff};
ghost use Rattle.formula.specs.Form.{conjunction, forms};
ghost use Rattle.formula.specs.Made.{Made};
ghost use Rattle.formula.specs.Tree.{form, forms_of};
ghost use Rattle.form_encoding.specs.Encoding as encoding;
ghost use Rattle.form_encoding.specs.Extent.{above, above_two, extent, extents, in_both, leaf, restricted_extent};
ghost use Rattle.function_encoding.specs.Actions as stacks;
ghost use Rattle.function_encoding.specs.Actions.{behind, parted, ran};
ghost use Rattle.function_encoding.specs.Instructions.{actions_of};
ghost use Rattle.function_encoding.specs.Ranged.{HaveRangedNumbers, HasRangedNumbers};
ghost use Rattle.function_encoding.specs.Room.{AreActionsRanged, HasNamesLeft, extent_left};
ghost use Rattle.function_encoding.specs.Stops as stops;
ghost use Rattle.function_encoding.specs.Stops.{IsTestRanged, test_extent};

use crate::atoms::{related, signed};
use crate::bounds::bind;
use crate::building::{junction, other_value, quantified, signed_predicate};
use crate::instruction::Instruction;
use crate::instructions::{predicate_code, relation_code};
use crate::naming::with_name;
use crate::stack::with_last;
use crate::stop::{Halt, Stop, Test};
use crate::stops::{halt, turned};
use form_typed::Sort;
use formula::{Core, Relation, Typed, TypedTerm};
use linear_term::{Term, TermFault};
use sqlite_items::Items;
use std::alloc::Global;

/// The formula with plus, its negation with minus; `at` says for each of its names which name stands for it, and n names
/// are bound.
#[cycle(encode)]
pub fn encoded(alloc: Global, at: &[u32], n: u32, plus: bool, f: &Typed) -> Result<Core, TermFault>
    requires ranged { HasRangedNumbers (formula f.now) }
    requires room { HasNamesLeft n (extent (formula f.now)) }
    ensures { Made form (encoding.encoded at.now n plus (formula f.now)) result }
{
    match f {
        Typed::Truth(b) => Ok(junction(*b == plus, Items::new(alloc))),
        Typed::Rel(r, s, t) => relation(alloc, &*at, n, plus, *r, s, t),
        Typed::Pred(p, ts) => predicate(alloc, &*at, n, plus, *p, ts.as_slice()),
        Typed::Not(g) => encoded(alloc, &*at, n, !plus, g.get()),
        Typed::And(fs) => connected(alloc, &*at, n, plus, plus, fs.as_slice()),
        Typed::Or(fs) => connected(alloc, &*at, n, !plus, plus, fs.as_slice()),
        Typed::Implies(g, h) => joined(alloc, &*at, n, !plus, !plus, g.get(), plus, h.get()),
        Typed::Iff(g, h) => equivalent(alloc, &*at, n, plus, g.get(), h.get()),
        Typed::Forall(sort, g) => bound(alloc, &*at, n, plus, plus, sort, g.get()),
        Typed::Exists(sort, g) => bound(alloc, &*at, n, plus, !plus, sort, g.get()),
        Typed::Part(_, g) => encoded(alloc, &*at, n, plus, g.get()),
    }
}

/// A relation between two terms, with its sign.
#[cycle(encode)]
fn relation(
    alloc: Global,
    at: &[u32],
    n: u32,
    plus: bool,
    r: Relation,
    s: &TypedTerm,
    t: &TypedTerm,
) -> Result<Core, TermFault>
    requires ranged { HasRangedNumbers (compares r (expression s.now) (expression t.now)) }
    requires room { HasNamesLeft n (extent (compares r (expression s.now) (expression t.now))) }
    ensures { Made form (encoding.encoded at.now n plus (compares r (expression s.now) (expression t.now))) result }
{
    let code = relation_code(alloc, signed(plus, r), &*s, &*t)?;
    run(alloc, &*at, n, code.as_slice(), Items::new(alloc))
}

/// A predicate at these terms, with its sign.
#[cycle(encode)]
fn predicate(
    alloc: Global,
    at: &[u32],
    n: u32,
    plus: bool,
    p: u32,
    terms: &[TypedTerm],
) -> Result<Core, TermFault>
    requires ranged { HasRangedNumbers (applies p (expressions_of terms.now)) }
    requires room { HasNamesLeft n (extent (applies p (expressions_of terms.now))) }
    ensures { Made form (encoding.encoded at.now n plus (applies p (expressions_of terms.now))) result }
{
    let code = predicate_code(alloc, plus, p, &*terms)?;
    run(alloc, &*at, n, code.as_slice(), Items::new(alloc))
}

/// Formulas of one sign in one connective: a conjunction for `conjoined`, else a disjunction.
#[cycle(encode)]
fn connected(
    alloc: Global,
    at: &[u32],
    n: u32,
    conjoined: bool,
    plus: bool,
    formulas: &[Typed],
) -> Result<Core, TermFault>
    requires ranged { HaveRangedNumbers (formulas_of formulas.now) }
    requires room { HasNamesLeft n (extents (formulas_of formulas.now)) }
    ensures { Made form (next (encoding.all_encoded at.now n plus (formulas_of formulas.now)) (λ gs. just (encoding.junction conjoined gs))) result }
{
    let members = all_encoded(alloc, &*at, n, plus, &*formulas)?;
    Ok(junction(conjoined, members))
}

#[cycle(encode)]
fn all_encoded(
    alloc: Global,
    at: &[u32],
    n: u32,
    plus: bool,
    formulas: &[Typed],
) -> Result<Items<Core>, TermFault>
    requires ranged { HaveRangedNumbers (formulas_of formulas.now) }
    requires room { HasNamesLeft n (extents (formulas_of formulas.now)) }
    ensures { Made (λ gs. forms_of gs) (encoding.all_encoded at.now n plus (formulas_of formulas.now)) result }
{
    let mut out = Items::new(alloc);
    for f in formulas {
        out.push(encoded(alloc, &*at, n, plus, f)?)?;
    }
    Ok(out)
}

/// Two formulas, each with its sign, in one connective: a conjunction for `conjoined`, else a disjunction.
#[cycle(encode)]
fn joined(
    alloc: Global,
    at: &[u32],
    n: u32,
    conjoined: bool,
    first: bool,
    g: &Typed,
    second: bool,
    h: &Typed,
) -> Result<Core, TermFault>
    requires left { HasRangedNumbers (formula g.now) }
    requires right { HasRangedNumbers (formula h.now) }
    requires room { HasNamesLeft n (above_two (extent (formula g.now)) (extent (formula h.now))) }
    ensures { Made form (next (encoding.encoded at.now n first (formula g.now)) (λ a. next (encoding.encoded at.now n second (formula h.now))
        (λ b. just (encoding.junction conjoined (forms (a ∷ b ∷ [])))))) result }
{
    let mut members = Items::new(alloc);
    let one = encoded(alloc, &*at, n, first, &*g)?;
    members.push(one)?;
    let other = encoded(alloc, &*at, n, second, &*h)?;
    members.push(other)?;
    Ok(junction(conjoined, members))
}

/// An equivalence: one formula or the other fails or holds, and the same the other way round.
#[cycle(encode)]
fn equivalent(
    alloc: Global,
    at: &[u32],
    n: u32,
    plus: bool,
    g: &Typed,
    h: &Typed,
) -> Result<Core, TermFault>
    requires ranged { HasRangedNumbers (iff (formula g.now) (formula h.now)) }
    requires room { HasNamesLeft n (extent (iff (formula g.now) (formula h.now))) }
    ensures { Made form (encoding.encoded at.now n plus (iff (formula g.now) (formula h.now))) result }
{
    let mut ways = Items::new(alloc);
    let there = joined(alloc, &*at, n, false, !plus, &*g, true, &*h)?;
    ways.push(there)?;
    let back = joined(alloc, &*at, n, false, plus, &*g, false, &*h)?;
    ways.push(back)?;
    Ok(junction(true, ways))
}

/// The body for all values of the type, or else for some, with the name n for the bound one.
#[cycle(encode)]
fn bound(
    alloc: Global,
    at: &[u32],
    n: u32,
    plus: bool,
    for_all: bool,
    sort: &Sort,
    g: &Typed,
) -> Result<Core, TermFault>
    requires bounds { IsSortRanged sort.now }
    requires ranged { HasRangedNumbers (formula g.now) }
    requires room { HasNamesLeft n (above (restricted_extent (length (encoding.bounds sort.now)) (extent (formula g.now)))) }
    ensures { Made form (encoding.bound_by for_all n sort.now (encoding.encoded (at.now ++ n ∷ []) (suc n) plus (formula g.now))) result }
{
    let names = with_name(alloc, at, n)?;
    let body = encoded(alloc, names.as_slice(), n + 1, plus, &*g)?;
    bind(alloc, for_all, n, sort, body)
}

/// The formula that the instructions make over the stack.
#[cycle(encode)]
fn run(
    alloc: Global,
    at: &[u32],
    n: u32,
    code: &[Instruction],
    stack: Items<Term>,
) -> Result<Core, TermFault>
    requires ranged { AreActionsRanged (actions_of code.now) }
    requires room { HasNamesLeft n (extent_left (actions_of code.now)) }
    ensures { Made form (ran at.now (actions_of code.now) n (reverse stack)) result }
{
    let Halt { stop, rest } = halt(alloc, &*at, &*code, stack)?;
    match stop {
        Stop::Nothing => Ok(junction(true, Items::new(alloc))),
        Stop::Related(r, s, t) => related(alloc, r, &s, &t),
        Stop::Predicate(plus, p, ts) => Ok(signed_predicate(plus, p, ts)),
        Stop::Graph(f, ts, below) => graph(alloc, &*at, n, f, ts, below, rest),
        Stop::Cases(test, first, negate, second) => {
            cases(alloc, &*at, n, &test, first, negate, second, rest)
        }
    }
}

/// What the instructions make of the value of a function, after its graph.
#[cycle(encode)]
fn graph(
    alloc: Global,
    at: &[u32],
    n: u32,
    function: u32,
    terms: Items<Term>,
    stack: Items<Term>,
    code: &[Instruction],
) -> Result<Core, TermFault>
    requires ranged { AreActionsRanged (actions_of code.now) }
    requires room { HasNamesLeft n (above (above_two leaf (extent_left (actions_of code.now)))) }
    ensures { Made form (next (ran at.now (actions_of code.now) (suc n) (linear.name n ∷ reverse stack)) (λ g. just (behind function terms n g))) result }
{
    let mut cases = other_value(alloc, function, terms, n)?;
    let stack = with_last(stack, Term::name(alloc, n))?;
    let f = run(alloc, &*at, n + 1, &*code, stack)?;
    cases.push(f)?;
    Ok(quantified(alloc, true, junction(false, cases))?)
}

/// The two cases of a test, with what the instructions make of each.
#[cycle(encode)]
fn cases(
    alloc: Global,
    at: &[u32],
    n: u32,
    test: &Test,
    first: Items<Term>,
    negate: bool,
    second: Items<Term>,
    code: &[Instruction],
) -> Result<Core, TermFault>
    requires test { IsTestRanged test.now }
    requires ranged { AreActionsRanged (actions_of code.now) }
    requires room { HasNamesLeft n (in_both (test_extent test.now) (extent_left (actions_of code.now))) }
    ensures { Made form (parted (stops.tested at.now n test.now) (reverse first) negate (reverse second) (ran at.now (actions_of code.now) n)) result }
{
    let mut both = Items::new(alloc);
    let yes = case(alloc, &*at, n, true, &*test, false, first, &*code)?;
    both.push(yes)?;
    let no = case(alloc, &*at, n, false, &*test, negate, second, &*code)?;
    both.push(no)?;
    Ok(junction(false, both))
}

/// The test, with plus or minus, and what the instructions make of the stack, of which the last term is negated first, or
/// not.
#[cycle(encode)]
fn case(
    alloc: Global,
    at: &[u32],
    n: u32,
    plus: bool,
    test: &Test,
    negate: bool,
    stack: Items<Term>,
    code: &[Instruction],
) -> Result<Core, TermFault>
    requires test { IsTestRanged test.now }
    requires ranged { AreActionsRanged (actions_of code.now) }
    requires room { HasNamesLeft n (above_two (test_extent test.now) (extent_left (actions_of code.now))) }
    ensures { Made form (next (stops.tested at.now n test.now plus) (λ y. next (next (cond negate (stacks.negated (reverse stack)) (just (reverse stack))) (ran at.now (actions_of code.now) n))
        (λ a. just (conjunction (forms (y ∷ a ∷ [])))))) result }
{
    let mut members = Items::new(alloc);
    let when = tested(alloc, &*at, n, plus, &*test)?;
    members.push(when)?;
    let stack = turned(alloc, negate, stack)?;
    let then = run(alloc, &*at, n, &*code, stack)?;
    members.push(then)?;
    Ok(junction(true, members))
}

/// The test, with plus or minus.
#[cycle(encode)]
fn tested(alloc: Global, at: &[u32], n: u32, plus: bool, test: &Test) -> Result<Core, TermFault>
    requires ranged { IsTestRanged test.now }
    requires room { HasNamesLeft n (test_extent test.now) }
    ensures { Made form (stops.tested at.now n test.now plus) result }
{
    match test {
        Test::Formula(g) => encoded(alloc, &*at, n, plus, &**g),
        Test::Relation(r, s, t) => related(alloc, signed(plus, *r), s, t),
    }
}
