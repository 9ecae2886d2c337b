// The clause that is true at one point alone.

ghost use Rattle.clause_set.specs.Literals.{HasDivisor};
ghost use Rattle.linear_term.specs.Range.{InRange};
ghost use Rattle.model_trees.specs.Walk as w;
ghost use Rattle.std.specs.List.{AllByRecursion};
ghost use Rattle.std.specs.Prelude.{◌≡◌, ◌<◌, ◌^◌, All, IfOk, length};

use clause_set::{Dnf, Literal};
use elim_steps::in_form;
use linear_term::{Memory, Term};
use sqlite_items::Items;
use std::alloc::Global;

/// x − v.
fn apart(alloc: Global, x: u32, v: i128) -> Result<Term, Memory>
    requires { InRange v }
    ensures { IfOk result (λ t. t ≡ w.apart x v) }
{
    Term::of(alloc, &[(x, 1)], -v)
}

/// The equations of the names with their values.
fn equations(alloc: Global, v: &[i128]) -> Result<Items<Literal>, Memory>
    requires values { AllByRecursion InRange v.now }
    requires few { length v.now < 2 ^ 32 }
    ensures exact { IfOk result (λ ls. ls ≡ w.equations_from 0 v.now) }
    ensures divisors { IfOk result (λ ls. All HasDivisor ls) }
{
    let mut out = Items::new(alloc);
    let mut rest = v;
    let mut j: u32 = 0;
    while let Some((value, more)) = rest.split_first() {
        out.push(Literal::Eq(apart(alloc, j, *value)?))?;
        rest = more;
        j += 1;
    }
    Ok(out)
}

/// The point v, whose values are in the range: each name has its value there.
pub fn point(alloc: Global, v: &[i128]) -> Result<Dnf, Memory>
    requires values { AllByRecursion InRange v.now }
    requires few { length v.now < 2 ^ 32 }
    ensures { IfOk result (λ d. d ≡ w.point v.now) }
{
    let literals = equations(alloc, v)?;
    Dnf::tidied(alloc, in_form(alloc, literals)?)
}
