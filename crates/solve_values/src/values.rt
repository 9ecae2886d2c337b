// A value put for a name.

ghost use Rattle.clause_set.specs.Literals.{HasDivisor};
ghost use Rattle.linear_term.specs.Linear.{Linear};
ghost use Rattle.linear_term.specs.Range.{InRange};
ghost use Rattle.base_budget.specs.Trace.{each};
ghost use Rattle.base_budget.specs.Work.{Worked};
ghost use Rattle.solve_laws.specs.Solutions.{valued, valued_clause, valued_term};
ghost use Rattle.std.specs.Prelude.{◌≡◌, [], All, IfOk};
ghost use Rattle.solve_values.specs.Literals.{with_term};

use base_budget::StepFault;
use clause_set::{Clause, Literal};
use elim_steps::{alone, combining, in_form};
use linear_term::Term;
use sqlite_items::Items;
use std::alloc::Global;

/// b·v + t for the term b·j + t.
#[tactic(auto, using(base_budget::proofs::Charging::working))]
fn valued_term(alloc: Global, t: &Term, j: u32, v: i128) -> Result<Term, StepFault>
    requires { InRange v }
    ensures { Worked (valued_term j v t.now) result }
{
    let rest = t.without(j)?;
    combining(1, &rest, t.coef(j), &Term::number(alloc, v))
}

/// The literal with the term s.
fn with_term(l: &Literal, s: Term) -> Literal
    requires { HasDivisor l.now }
    ensures exact { result ≡ with_term l.now s }
    ensures divisor { HasDivisor result }
{
    match l {
        Literal::Eq(_) => Literal::Eq(s),
        Literal::Geq(_) => Literal::Geq(s),
        Literal::Div(d, _) => Literal::Div(*d, s),
        Literal::NDiv(d, _) => Literal::NDiv(*d, s),
    }
}

/// The literal where j is v.
#[tactic(auto, using(base_budget::proofs::Charging::working))]
fn valued(alloc: Global, l: &Literal, j: u32, v: i128) -> Result<Items<Literal>, StepFault>
    requires divisor { HasDivisor l.now }
    requires range { InRange v }
    ensures work { Worked (valued j v l.now) result }
    ensures divisors { IfOk result (λ ls. All HasDivisor ls) }
{
    let s = valued_term(alloc, l.term(), j, v)?;
    Ok(alone(alloc, with_term(l, s))?)
}

/// The literals of the clause where j is v.
#[tactic(auto, using(base_budget::proofs::Charging::leaving))]
fn all_valued(alloc: Global, ls: &[Literal], j: u32, v: i128) -> Result<Items<Literal>, StepFault>
    requires divisors { All HasDivisor ls.now }
    requires range { InRange v }
    ensures work { Worked (each (valued j v) ls.now []) result }
    ensures divisors { IfOk result (λ rs. All HasDivisor rs) }
{
    let mut out = Items::new(alloc);
    for l in ls {
        out.append(valued(alloc, l, j, v)?)?;
    }
    Ok(out)
}

/// The clause where j is v; none where that is found to be false.
#[tactic(auto, using(base_budget::proofs::Charging::working))]
fn valued_clause(alloc: Global, c: &Clause, j: u32, v: i128) -> Result<Items<Clause>, StepFault>
    requires { InRange v }
    ensures { Worked (valued_clause j v c.now) result }
{
    c.know_clause();
    let literals = all_valued(alloc, c.literals(), j, v)?;
    Ok(in_form(alloc, literals)?)
}

/// The clauses where j is v.
#[tactic(auto, using(base_budget::proofs::Charging::leaving))]
pub fn valued_clauses(
    alloc: Global,
    cs: &[Clause],
    j: u32,
    v: i128,
) -> Result<Items<Clause>, StepFault>
    requires { InRange v }
    ensures { Worked (each (valued_clause j v) cs.now []) result }
{
    let mut out = Items::new(alloc);
    for c in cs {
        out.append(valued_clause(alloc, c, j, v)?)?;
    }
    Ok(out)
}
