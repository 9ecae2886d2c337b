// Conjunctions and disjunctions, without members that say nothing.

ghost use Rattle.std.specs.Prelude.{◌≡◌, ◌++◌, ◌∷◌, [], ℕ, IfOk, OnOk};
ghost use Rattle.formula.specs.Form.{conjunction, disjunction, and_form, no_form};
ghost use Rattle.formula.specs.Tree.{form, forms_of};
ghost use Rattle.model_formulas.specs.Expansions.{Same};

use crate::atoms::{is_false, is_true};
use formula::Core;
use linear_term::Memory;
use sqlite_items::Items;
use std::alloc::Global;

/// One more member of a conjunction, unless it is `true`.
#[tactic(auto, using(crate::proofs::Members::pushed))]
pub fn push_all(out: &mut Items<Core>, g: Core) -> Result<(), Memory>
    ensures { OnOk result ((n : ℕ) → Same n (conjunction (forms_of (out.old ++ g ∷ []))) (conjunction (forms_of out.new))) }
{
    if is_true(&g) {
        return Ok(());
    }
    out.push(g)?;
    Ok(())
}

/// One more member of a disjunction, unless it is `false`.
#[tactic(auto, using(crate::proofs::Members::pushed))]
pub fn push_any(out: &mut Items<Core>, g: Core) -> Result<(), Memory>
    ensures { OnOk result ((n : ℕ) → Same n (disjunction (forms_of (out.old ++ g ∷ []))) (disjunction (forms_of out.new))) }
{
    if is_false(&g) {
        return Ok(());
    }
    out.push(g)?;
    Ok(())
}

/// The conjunction of the members: of one member that member.
#[tactic(auto, using(crate::proofs::Members::wholes))]
pub fn all(members: Items<Core>) -> Core
    ensures { (n : ℕ) → Same n (conjunction (forms_of members)) (form result) }
{
    if members.len() != 1 {
        return Core::And(members);
    }
    let mut members = members;
    match members.pop() {
        Some(only) => only,
        None => Core::And(members),
    }
}

/// The disjunction of the members: of one member that member.
#[tactic(auto, using(crate::proofs::Members::wholes))]
pub fn any(members: Items<Core>) -> Core
    ensures { (n : ℕ) → Same n (disjunction (forms_of members)) (form result) }
{
    if members.len() != 1 {
        return Core::Or(members);
    }
    let mut members = members;
    match members.pop() {
        Some(only) => only,
        None => Core::Or(members),
    }
}

/// Both formulas.
#[tactic(auto, using(crate::proofs::Members::boths))]
pub fn both(alloc: Global, f: Core, g: Core) -> Result<Core, Memory>
    ensures { IfOk result (λ h. (n : ℕ) → Same n (conjunction (and_form (form f) (and_form (form g) no_form))) (form h)) }
{
    if is_false(&f) {
        return Ok(f);
    }
    if is_false(&g) {
        return Ok(g);
    }
    let mut out = Items::new(alloc);
    push_all(&mut out, f)?;
    push_all(&mut out, g)?;
    Ok(all(out))
}

/// Some formula of both.
#[tactic(auto, using(crate::proofs::Members::boths))]
pub fn either(alloc: Global, f: Core, g: Core) -> Result<Core, Memory>
    ensures { IfOk result (λ h. (n : ℕ) → Same n (disjunction (and_form (form f) (and_form (form g) no_form))) (form h)) }
{
    if is_true(&f) {
        return Ok(f);
    }
    if is_true(&g) {
        return Ok(g);
    }
    let mut out = Items::new(alloc);
    push_any(&mut out, f)?;
    push_any(&mut out, g)?;
    Ok(any(out))
}
