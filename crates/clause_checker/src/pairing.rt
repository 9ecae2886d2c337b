// New variables for atoms, the three cases of a number (Split), and quotients as new constants (Divide).

ghost use Rattle.std.specs.Prelude.{◌≡◌, ◌∷◌, [], ◌<ℤ◌, suc, map, pos, IfOk, IfErr};
ghost use Rattle.std.specs.List.{slice_get};
ghost use Rattle.linear_term.specs.Linear as linear;
ghost use Rattle.clause_proof.specs.Clauses as q;
ghost use Rattle.clause_proof.specs.Atoms as atoms;
ghost use Rattle.clause_proof.specs.Lines as lines;
ghost use Rattle.clause_checker.specs.Answers.{Does, HasCause, IsTermCut, IsRefusedOrCut};
ghost use Rattle.clause_checker.specs.Views.{definition_of, definitions_of, new_variable, signed_of, state_of, zero_of};

use crate::canonical::{equation_literal, inequality_literal, less_one, opposite_less_one};
use crate::fault::Fault;
use crate::opening::{one, positive};
use crate::putting::{are_over, combine, copied, copy, is_over};
use crate::standing::{stand_one, stand_two};
use crate::state::{Definition, Signed, State};
use clause_proof::Literal;
use linear_term::Term;
use sqlite_items::{Items, at};
use std::alloc::Global;

/// A new variable for the definition.
#[tactic(auto, using(crate::proofs::Atoms::pushing, crate::proofs::Doing::does_cut, crate::proofs::Causes::causes))]
fn add_variable<'a>(state: &mut State<'a>, d: Definition<'a>) -> Result<(), Fault>
    ensures does { Does (λ u. state_of state.new) (lines.extended (state_of state.old) (new_variable (state_of state.old) (definition_of d.entry))) result }
    ensures cause { IfErr result IsRefusedOrCut }
{
    state.definitions.push(d)?;
    Ok(())
}

/// The new variable t >= 0.
#[tactic(auto, using(crate::proofs::Atoms::making, crate::proofs::Doing::does_cut, crate::proofs::Causes::causes))]
pub(crate) fn inequality(alloc: Global, state: &mut State, t: &Term) -> Result<(), Fault>
    ensures does { Does (λ u. state_of state.new) (lines.found (lines.with_atom (state_of state.old) (lines.is_over state.old.count t.now) (atoms.inequality_literal t.now).definition) (lines.extended (state_of state.old))) result }
    ensures cause { IfErr result IsRefusedOrCut }
{
    if !is_over(state.count as usize, t) {
        return Err(Fault::Refused);
    }
    let u = copy(t)?;
    let x = inequality_literal(alloc, u)?;
    let Signed { definition, .. } = x;
    add_variable(state, definition)
}

/// The new variable t = 0.
#[tactic(auto, using(crate::proofs::Atoms::making, crate::proofs::Doing::does_cut, crate::proofs::Causes::causes))]
pub(crate) fn equation(alloc: Global, state: &mut State, t: &Term) -> Result<(), Fault>
    ensures does { Does (λ u. state_of state.new) (lines.found (lines.with_atom (state_of state.old) (lines.is_over state.old.count t.now) (atoms.equation_literal t.now).definition) (lines.extended (state_of state.old))) result }
    ensures cause { IfErr result IsRefusedOrCut }
{
    if !is_over(state.count as usize, t) {
        return Err(Fault::Refused);
    }
    let u = copy(t)?;
    let x = equation_literal(alloc, u)?;
    let Signed { definition, .. } = x;
    add_variable(state, definition)
}

/// The new variable for a predicate at terms.
#[tactic(auto, using(crate::proofs::Atoms::making, crate::proofs::Doing::does_cut, crate::proofs::Causes::causes))]
pub(crate) fn predicate(alloc: Global, state: &mut State, p: u32, ts: &[Term]) -> Result<(), Fault>
    ensures does { Does (λ u. state_of state.new) (lines.found (lines.with_atom (state_of state.old) (lines.are_over state.old.count ts.now) (q.predicate p ts.now)) (lines.extended (state_of state.old))) result }
    ensures cause { IfErr result IsRefusedOrCut }
{
    if !are_over(state.count as usize, ts) {
        return Err(Fault::Refused);
    }
    let terms = copied(alloc, ts)?;
    add_variable(state, Definition::Predicate(p, terms))
}

/// t = 0, or t is at least 1, or at most -1, for the term t of variable number i.
#[tactic(auto, using(crate::proofs::Opens::extending, crate::proofs::Causes::causes))]
fn split_term(
    alloc: Global,
    state: &mut State,
    i: u32,
    g: Literal,
    h: Literal,
    t: Term,
) -> Result<(), Fault>
    ensures does { Does (λ u. state_of state.new) (lines.extended (state_of state.old) (lines.adding (atoms.inequality_literal (atoms.less_one t) ∷ atoms.inequality_literal (atoms.opposite_less_one t) ∷ []) (g ∷ h ∷ []) ((lines.positive i ∷ g ∷ h ∷ []) ∷ []) state.old.count)) result }
    ensures cause { IfErr result IsRefusedOrCut }
{
    let above = less_one(alloc, &t)?;
    let x = inequality_literal(alloc, above)?;
    let below = opposite_less_one(alloc, &t)?;
    let y = inequality_literal(alloc, below)?;
    let clauses = one(alloc, Items::from_slice(alloc, &[positive(i), g, h])?)?;
    stand_two(&mut state.definitions, x, y, g, h)?;
    state.clauses.append(clauses)?;
    Ok(())
}

/// The term of variable number i, which says that it is 0.
#[tactic(auto, using(crate::proofs::Opens::found_ones, crate::proofs::Doing::doing, crate::proofs::Causes::causes))]
fn zero_term(d: &Definition) -> Result<Term, Fault>
    ensures does { Does (λ t. t) (zero_of (definition_of d.now)) result }
    ensures cause { IfErr result IsRefusedOrCut }
{
    match d {
        Definition::IsZero(t) => {
            let same = copy(t)?;
            Ok(same)
        }
        Definition::Always => Err(Fault::Refused),
        Definition::AtLeastZero(_) => Err(Fault::Refused),
        Definition::Predicate(_, _) => Err(Fault::Refused),
        Definition::Closure(_, _) => Err(Fault::Refused),
    }
}

#[tactic(auto, using(crate::proofs::Opens::found_ones, crate::proofs::Causes::causes))]
fn zero_at(definitions: &[Definition], i: u32) -> Result<Term, Fault>
    ensures does { Does (λ t. t) (lines.found (slice_get (definitions_of definitions.now) i) zero_of) result }
    ensures cause { IfErr result IsRefusedOrCut }
{
    match at(definitions, i as usize) {
        None => Err(Fault::Refused),
        Some(d) => zero_term(d),
    }
}

/// What splitting variable number i adds.
#[tactic(auto, using(crate::proofs::Atoms::splitting, crate::proofs::Causes::causes))]
pub(crate) fn split(
    alloc: Global,
    state: &mut State,
    i: u32,
    g: Literal,
    h: Literal,
) -> Result<(), Fault>
    ensures does { Does (λ u. state_of state.new) (lines.found (lines.found (slice_get (state_of state.old).definitions i) (lines.splitted (state_of state.old) i g h)) (lines.extended (state_of state.old))) result }
    ensures cause { IfErr result IsRefusedOrCut }
{
    let t = zero_at(state.definitions.as_slice(), i)?;
    split_term(alloc, state, i, g, h, t)
}

/// t - d·c.
fn rest_of(alloc: Global, t: &Term, d: i128, c: u32) -> Result<Term, Fault>
    requires { pos 0 <ℤ d }
    ensures ok { IfOk result (λ u. u ≡ lines.rest_of t.now d c) }
    ensures err { IfErr result IsTermCut }
{
    combine(1, t, -d, &Term::name(alloc, c))
}

/// (d - 1) - u.
fn below_divisor(alloc: Global, u: &Term, d: i128) -> Result<Term, Fault>
    requires { pos 0 <ℤ d }
    ensures ok { IfOk result (λ x. x ≡ lines.below_divisor u.now d) }
    ensures err { IfErr result IsTermCut }
{
    combine(-1, u, 1, &Term::number(alloc, d - 1))
}

/// The quotient as a new constant, where there is one.
#[tactic(auto, using(crate::proofs::Opens::extending, crate::proofs::Causes::causes))]
fn divide_term(
    alloc: Global,
    state: &mut State,
    d: i128,
    t: &Term,
    g: Literal,
    h: Literal,
) -> Result<(), Fault>
    requires { pos 0 <ℤ d }
    ensures does { Does (λ u. state_of state.new) (lines.extended (state_of state.old) (lines.adding (atoms.inequality_literal (lines.rest_of t.now d state.old.count) ∷ atoms.inequality_literal (lines.below_divisor (lines.rest_of t.now d state.old.count) d) ∷ []) (g ∷ h ∷ []) ((g ∷ []) ∷ (h ∷ []) ∷ []) (suc state.old.count))) result }
    ensures cause { IfErr result (HasCause state.old.count) }
{
    if state.count == u32::MAX {
        return Err(Fault::Room);
    }
    let rest = rest_of(alloc, t, d, state.count)?;
    let below = below_divisor(alloc, &rest, d)?;
    let x = inequality_literal(alloc, rest)?;
    let y = inequality_literal(alloc, below)?;
    let mut clauses = one(alloc, Items::from_slice(alloc, &[g])?)?;
    clauses.push(Some(Items::from_slice(alloc, &[h])?))?;
    stand_two(&mut state.definitions, x, y, g, h)?;
    state.clauses.append(clauses)?;
    state.count += 1;
    Ok(())
}

/// A new constant, the floor of t / d.
#[tactic(auto, using(crate::proofs::Atoms::dividing, crate::proofs::Causes::causes))]
pub(crate) fn divide(
    alloc: Global,
    state: &mut State,
    d: i128,
    t: &Term,
    g: Literal,
    h: Literal,
) -> Result<(), Fault>
    ensures does { Does (λ u. state_of state.new) (lines.found (lines.divided (state_of state.old) d t.now g h) (lines.extended (state_of state.old))) result }
    ensures cause { IfErr result (HasCause state.old.count) }
{
    if d <= 0 {
        return Err(Fault::Refused);
    }
    if !is_over(state.count as usize, t) {
        return Err(Fault::Refused);
    }
    divide_term(alloc, state, d, t, g, h)
}
