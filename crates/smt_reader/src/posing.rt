// The problem of a check.

ghost use Rattle.std.specs.Prelude.{◌≡◌, ◌≤◌, IfOk, List, length, map, take};
ghost use Rattle.form_typed.specs.Formula.{every, formula, formulas, negation};
ghost use Rattle.pri_typing.specs.Files.{all_int};
ghost use Rattle.smt_terms.specs.Scripts as scripts;
ghost use Rattle.smt_terms.specs.Scripts.{State};
ghost use Rattle.smt_terms.specs.Translation.{asserted};
ghost use Rattle.smt_reader.specs.Posed.{IsCheckPosed};
ghost use Rattle.smt_reader.specs.Following.{AreClaims, FollowsState};

use crate::following::{Assertion, Reading};
use crate::replies::Reply;
use form_typed::{Sort, Typed};
use linear_term::Memory;
use pri_typing::{Problem, copy_symbols, copy_texts};
use smt_names::Body;
use smt_writing::write_formula;
use sqlite_items::{Boxed, Items};
use std::alloc::Global;

/// A script, by the problem of each `check-sat` in order: nothing satisfies the assertions in force there exactly where the problem
/// holds; and by what its commands ask to be told.
#[derive(Drop)]
pub struct Script {
    pub checks: Items<Problem>,
    pub replies: Items<Reply>,
}

// The first ones of the defined functions, this many.
fn first_ones(definitions: &[Body], count: usize) -> &[Body]
    ensures { count ≤ length definitions.now → result.now ≡ take count definitions.now }
{
    if count < definitions.len() {
        &definitions[..count]
    } else {
        definitions
    }
}

// The formulas of assertions, where this many constants are declared.
fn assertions(
    alloc: Global,
    definitions: &[Body],
    claims: &[Assertion],
    constants: u32,
) -> Result<Items<Typed>, Memory>
    ensures { IfOk result (λ fs. (cs : List scripts.Claim) → AreClaims definitions.now claims.now cs → map formula fs ≡ map (λ c. asserted c.globals constants c.term) cs) }
{
    let mut members = Items::new(alloc);
    for claim in claims {
        let visible = first_ones(definitions, claim.definitions);
        members.push(write_formula(alloc, visible, constants, &claim.body)?)?;
    }
    Ok(members)
}

// The type `int` for each of these names.
fn types(alloc: Global, names: &[Items<u8>]) -> Result<Items<Sort>, Memory>
    ensures { IfOk result (λ ts. ts ≡ all_int names.now) }
{
    let mut out = Items::new(alloc);
    for _name in names {
        out.push(Sort::Int)?;
    }
    Ok(out)
}

/// The problem of a check after the commands so far.
pub(crate) fn pose(alloc: Global, reading: &Reading) -> Result<Problem, Memory>
    ensures { IfOk result (λ p. (s : State) → FollowsState reading.now s → IsCheckPosed s p) }
{
    let constants = reading.constants.as_slice();
    if constants.len() > u32::MAX as usize {
        return Err(Memory);
    }
    let definitions = reading.known.definitions.as_slice();
    let members = assertions(
        alloc,
        definitions,
        reading.claims.as_slice(),
        constants.len() as u32,
    )?;
    Ok(Problem {
        existentials: Items::new(alloc),
        existential_types: Items::new(alloc),
        universals: copy_texts(alloc, constants)?,
        universal_types: types(alloc, constants)?,
        functions: copy_symbols(alloc, reading.functions.as_slice())?,
        predicates: copy_symbols(alloc, reading.predicates.as_slice())?,
        parts: Items::new(alloc),
        formula: Typed::Not(Boxed::new(alloc, Typed::And(members))?),
        cuts: Items::new(alloc),
        first_application: None,
    })
}
