// Decisions: which literal is tried first (Moskewicz and others, Chaff: engineering an efficient SAT solver, 2001).

use cdcl_forms::{Lit, literal, negated};
use cdcl_fuel::{Fault, at};
use cdcl_sat::Reason;
use cdcl_state::State;
use std::cmp::Ordering;

/// Opens a level with a literal that is decided.
fn decide(state: &mut State, l: Lit) -> Result<(), Fault> {
    state.sat.new_level()?;
    state.knowledge.simplex.push()?;
    state.sat.trail.enqueue(l, Reason::Decided)
}

/// The truth to try first: what an atom is at the present values, or what the variable was last.
fn phase(state: &State, v: u32) -> Result<bool, Fault> {
    let Some(a) = at(&state.arithmetic, v as usize)? else {
        return at(&state.sat.phase, v as usize);
    };
    let order = state.knowledge.simplex.value_of(a.x)?.versus(a.bound)?;
    Ok(if a.is_equation {
        order == Ordering::Equal
    } else {
        order != Ordering::Less
    })
}

/// Decides the literal of a branch as false, if there is one that is open.
pub(crate) fn branch(state: &mut State) -> Result<bool, Fault> {
    let Some(l) = state.branch.take() else {
        return Ok(false);
    };
    if state.sat.value_of(l)? != 0 {
        return Ok(false);
    }
    decide(state, negated(l))?;
    Ok(true)
}

/// Decides a variable of a clause that is not satisfied yet, or what the bounds say of it. False where all clauses are true.
pub(crate) fn decide_next(state: &mut State) -> Result<bool, Fault> {
    let Some(v) = state.sat.decide_next(&mut state.fuel)? else {
        return Ok(false);
    };
    match state.implied(v)? {
        Some((l, why)) => state.sat.trail.enqueue(l, why)?,
        None => {
            let l = literal(v, phase(state, v)?)?;
            decide(state, l)?;
        }
    }
    Ok(true)
}
