// The expansion of a formula in a model, part by part.

ghost use Rattle.std.specs.Prelude.{◌≡◌, drop, IfOk};
ghost use Rattle.std.specs.List.{AllByRecursion};
ghost use Rattle.linear_term.specs.Linear.{IsOver};
ghost use Rattle.formula.specs.Form.{conjunction, disjunction, universal};
ghost use Rattle.formula.specs.Tree.{form, forms_of};
ghost use Rattle.model_formulas.specs.Expanded.{IsExpansion, IsRead};

use crate::atoms::{is_false, is_true};
use crate::choosing::Guard;
use crate::closing::{for_all, for_some};
use crate::connecting::{all, any, both, push_all, push_any};
use crate::effort::Effort;
use crate::fault::Fault;
use crate::placing::{
    differing_at, equation_at, inequality_at, inequation_at, no_predicate_at, predicate_at,
    with_name, with_value,
};
use crate::reading::read;
use formula::Core;
use linear_term::Term;
use model_table::Model;
use sqlite_items::Items;
use std::alloc::Global;

/// The formula without predicates and functions, over `names` names, that f is in the model with the terms ts for its names.
/// Each node of it takes a node of the effort.
#[cycle(expansion)]
#[tactic(auto, using(crate::proofs::Arms::arms))]
pub fn expand(
    alloc: Global,
    effort: &mut Effort,
    model: &Model,
    f: &Core,
    ts: &[Term],
    names: u32,
) -> Result<Core, Fault>
    requires { AllByRecursion (IsOver names) ts.now }
    ensures { IfOk result (λ g. IsExpansion model.now (form f.now) ts.now names (form g)) }
{
    effort.node()?;
    match f {
        Core::Eq(t) => {
            let g = equation_at(alloc, effort, t, ts)?;
            Ok(g)
        }
        Core::Neq(t) => {
            let g = inequation_at(alloc, effort, t, ts)?;
            Ok(g)
        }
        Core::Geq(t) => {
            let g = inequality_at(alloc, effort, t, ts)?;
            Ok(g)
        }
        Core::Pred(p, us) => {
            let g = predicate_at(alloc, effort, model, *p, us.as_slice(), ts)?;
            Ok(g)
        }
        Core::NotPred(p, us) => {
            let g = no_predicate_at(alloc, effort, model, *p, us.as_slice(), ts)?;
            Ok(g)
        }
        Core::NotFun(h, us, u) => {
            let g = differing_at(alloc, effort, model, *h, us.as_slice(), u, ts)?;
            Ok(g)
        }
        Core::And(fs) => {
            let g = all_of(alloc, effort, model, fs.as_slice(), ts, names)?;
            Ok(g)
        }
        Core::Or(fs) => {
            let g = any_of(alloc, effort, model, fs.as_slice(), 0, ts, names)?;
            Ok(g)
        }
        Core::Forall(body) => match read(alloc, effort, model, body.get(), ts)? {
            Some(guards) => {
                let g = rest_of(
                    alloc,
                    effort,
                    model,
                    body.get(),
                    guards.as_slice(),
                    ts,
                    names,
                )?;
                Ok(g)
            }
            None => {
                if names == u32::MAX {
                    return Err(Fault::Room);
                }
                let inner = with_name(alloc, effort, ts, names)?;
                let g = expand(
                    alloc,
                    effort,
                    model,
                    body.get(),
                    inner.as_slice(),
                    names + 1,
                )?;
                let h = for_all(alloc, g)?;
                Ok(h)
            }
        },
        Core::Exists(body) => {
            if names == u32::MAX {
                return Err(Fault::Room);
            }
            let inner = with_name(alloc, effort, ts, names)?;
            let g = expand(
                alloc,
                effort,
                model,
                body.get(),
                inner.as_slice(),
                names + 1,
            )?;
            let h = for_some(alloc, g)?;
            Ok(h)
        }
    }
}

/// The conjunction of the members.
#[cycle(expansion)]
#[tactic(auto, using(crate::proofs::Lists::alls))]
fn all_of(
    alloc: Global,
    effort: &mut Effort,
    model: &Model,
    members: &[Core],
    ts: &[Term],
    names: u32,
) -> Result<Core, Fault>
    requires { AllByRecursion (IsOver names) ts.now }
    ensures { IfOk result (λ g. IsExpansion model.now (conjunction (forms_of members.now)) ts.now names (form g)) }
{
    let mut out = Items::new(alloc);
    for f in members {
        let g = expand(alloc, effort, model, f, ts, names)?;
        if is_false(&g) {
            return Ok(g);
        }
        push_all(&mut out, g)?;
    }
    Ok(all(out))
}

/// The disjunction of the members from one on.
#[cycle(expansion)]
#[tactic(auto, using(crate::proofs::Lists::anys))]
fn any_of(
    alloc: Global,
    effort: &mut Effort,
    model: &Model,
    members: &[Core],
    from: usize,
    ts: &[Term],
    names: u32,
) -> Result<Core, Fault>
    requires { AllByRecursion (IsOver names) ts.now }
    ensures { IfOk result (λ g. IsExpansion model.now (disjunction (forms_of (drop from members.now))) ts.now names (form g)) }
{
    let mut out = Items::new(alloc);
    for i in from..members.len() {
        let g = expand(alloc, effort, model, &members[i], ts, names)?;
        if is_true(&g) {
            return Ok(g);
        }
        push_any(&mut out, g)?;
    }
    Ok(any(out))
}

/// For all values of the last name the body, which reads a value of a function: what is left of it where the name has that
/// value.
#[cycle(expansion)]
#[tactic(auto, using(crate::proofs::Rests::rests))]
fn rest_of(
    alloc: Global,
    effort: &mut Effort,
    model: &Model,
    body: &Core,
    guards: &[Guard],
    ts: &[Term],
    names: u32,
) -> Result<Core, Fault>
    requires over { AllByRecursion (IsOver names) ts.now }
    requires read { IsRead model.now (form body.now) ts.now guards.now }
    ensures { IfOk result (λ g. IsExpansion model.now (universal (form body.now)) ts.now names (form g)) }
{
    let Core::Or(members) = body else {
        return Err(Fault::Room);
    };
    let mut out = Items::new(alloc);
    for guard in guards {
        let inner = with_value(alloc, effort, ts, guard)?;
        let rest = any_of(
            alloc,
            effort,
            model,
            members.as_slice(),
            1,
            inner.as_slice(),
            names,
        )?;
        let when = guard.when.copy(alloc)?;
        let g = both(alloc, when, rest)?;
        push_any(&mut out, g)?;
    }
    Ok(any(out))
}
