// The values of terms.

ghost use Rattle.base_integers.specs.Entry.{entry};
ghost use Rattle.linear_term.specs.Range.{InRange};
ghost use Rattle.base_budget.specs.Work.{Worked};
ghost use Rattle.std.specs.List.{AllByRecursion};
ghost use Rattle.std.specs.Prelude.{◌≡◌, ◌∷◌, [], IfOk};
ghost use Rattle.model_trees.specs.Rows as rows;
ghost use Rattle.solve_laws.specs.Candidates.{computed};

use base_budget::StepFault;
use linear_term::{Memory, Place, Term};
use sqlite_items::{Items, at};
use std::alloc::Global;

/// The number m·a + n·b, which is in the range, or Overflow.
#[tactic(auto, using(crate::proofs::Computed::computing))]
fn computed(p: Place) -> Result<i128, StepFault>
    ensures work { Worked (computed p) result }
    ensures range { IfOk result InRange }
{
    Ok(p.value()?)
}

/// The value at a place, 0 past the end.
fn value_of(e: &[i128], x: u32) -> i128
    requires { AllByRecursion InRange e.now }
    ensures exact { result ≡ entry e.now x }
    ensures range { InRange result }
{
    match at(e, x as usize) {
        Some(v) => *v,
        None => 0,
    }
}

/// The value of the term at e: from its constant on, pair by pair.
#[tactic(auto, using(base_budget::proofs::Charging::leaving))]
pub fn evaluated(e: &[i128], t: &Term) -> Result<i128, StepFault>
    requires { AllByRecursion InRange e.now }
    ensures work { Worked (rows.evaluated e.now t.now) result }
    ensures range { IfOk result InRange }
{
    t.know_normal();
    let mut sum = t.constant();
    let mut rest = t.pairs();
    while let Some((pair, more)) = rest.split_first() {
        sum = computed(Place {
            m: pair.1,
            a: value_of(e, pair.0),
            n: 1,
            b: sum,
        })?;
        rest = more;
    }
    Ok(sum)
}

/// One value alone.
fn alone(alloc: Global, v: i128) -> Result<Items<i128>, Memory>
    ensures { IfOk result (λ vs. vs ≡ v ∷ []) }
{
    let mut out = Items::new(alloc);
    out.push(v)?;
    Ok(out)
}

/// The value of one term, alone.
#[tactic(auto, using(base_budget::proofs::Charging::working))]
fn one_value(alloc: Global, e: &[i128], t: &Term) -> Result<Items<i128>, StepFault>
    requires { AllByRecursion InRange e.now }
    ensures { Worked (rows.one_value e.now t.now) result }
{
    let v = evaluated(e, t)?;
    Ok(alone(alloc, v)?)
}

/// The values of the terms.
#[tactic(auto, using(base_budget::proofs::Charging::leaving))]
pub fn all_evaluated(alloc: Global, e: &[i128], ts: &[Term]) -> Result<Items<i128>, StepFault>
    requires { AllByRecursion InRange e.now }
    ensures { Worked (rows.all_evaluated e.now ts.now) result }
{
    let mut out = Items::new(alloc);
    for t in ts {
        out.append(one_value(alloc, e, t)?)?;
    }
    Ok(out)
}
