// The linear term that a plain term is.

ghost use Rattle.form_encoding.specs.Encoding.{multiple, named, product_of};
ghost use Rattle.form_encoding.specs.Root.{names_from};
ghost use Rattle.form_encoding.specs.Plain.{linear_of, linear_sum};
ghost use Rattle.linear_term.specs.Range.{InRange};
ghost use Rattle.job_least.specs.Plain.{ArePlainRanged, IsPlainRanged};
ghost use Rattle.base_budget.specs.Work.{Worked};
ghost use Rattle.std.specs.Prelude.{◌≡◌};
ghost use Rattle.form_typed.specs.Formula.{expression, expressions_of};

use super::plain::{factor_of, is_numeric, without_minus};
use base_budget::StepFault;
use elim_steps::combining;
use form_typed::TypedTerm;
use linear_term::Term;
use std::alloc::Global;

/// The name x, or 0 where there are no more than x names.
#[tactic(auto, using(crate::proofs::Linears::named_below, crate::proofs::Linears::named_past))]
fn named(alloc: Global, names: u32, x: u32) -> Term
    ensures { result ≡ named (names_from 0 names) x }
{
    if x < names {
        Term::name(alloc, x)
    } else {
        Term::number(alloc, 0)
    }
}

/// k·t.
fn multiple(alloc: Global, k: i128, t: &Term) -> Result<Term, StepFault>
    requires { InRange k }
    ensures { Worked (multiple k t.now) result }
{
    combining(k, t, 0, &Term::number(alloc, 0))
}

/// The product of s and t, of which s is a number, or else t.
fn product_of(alloc: Global, left: bool, s: &Term, t: &Term) -> Result<Term, StepFault>
    ensures { Worked (product_of left s.now t.now) result }
{
    if left {
        multiple(alloc, s.constant(), t)
    } else {
        multiple(alloc, t.constant(), s)
    }
}

/// The linear term that a plain term over this many names is.
#[cycle(linear)]
#[tactic(auto, using(base_budget::proofs::Charging::working))]
pub fn linear_term(alloc: Global, names: u32, term: &TypedTerm) -> Result<Term, StepFault>
    requires { IsPlainRanged (expression term.now) }
    ensures { Worked (linear_of (names_from 0 names) (expression term.now)) result }
{
    match term {
        TypedTerm::Number(v) => Ok(Term::number(alloc, *v)),
        TypedTerm::Name(x) => Ok(named(alloc, names, *x)),
        TypedTerm::Minus(t) => {
            let inner = linear_term(alloc, names, t.get())?;
            multiple(alloc, -1, &inner)
        }
        TypedTerm::Sum(ts) => linear_sum(alloc, names, ts.as_slice()),
        TypedTerm::Product(s, t) => {
            let left = linear_term(alloc, names, s.get())?;
            let right = linear_term(alloc, names, t.get())?;
            product_of(alloc, is_numeric(s.get()), &left, &right)
        }
        TypedTerm::Apply(_, _) => Ok(Term::number(alloc, 0)),
        TypedTerm::If(_, _, _) => Ok(Term::number(alloc, 0)),
        TypedTerm::Abs(_) => Ok(Term::number(alloc, 0)),
        TypedTerm::Min(_, _) => Ok(Term::number(alloc, 0)),
        TypedTerm::Max(_, _) => Ok(Term::number(alloc, 0)),
    }
}

/// The sum of the members from the left, of which the first counts as it is.
#[cycle(linear)]
#[tactic(auto, using(base_budget::proofs::Charging::working))]
fn linear_sum(alloc: Global, names: u32, terms: &[TypedTerm]) -> Result<Term, StepFault>
    requires { ArePlainRanged (expressions_of terms.now) }
    ensures { Worked (linear_sum (names_from 0 names) (expressions_of terms.now)) result }
{
    let Some((first, others)) = terms.split_first() else {
        return Ok(Term::number(alloc, 0));
    };
    let mut sum = linear_term(alloc, names, first)?;
    for t in others {
        let member = linear_term(alloc, names, without_minus(t))?;
        sum = combining(1, &sum, factor_of(t), &member)?;
    }
    Ok(sum)
}
