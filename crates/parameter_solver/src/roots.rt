// The candidate of an equation j + k = 0: −k, if the other literals are true there.

ghost use Rattle.clause_set.specs.Literals.{HasDivisor, IsDivisor, clause_truth};
ghost use Rattle.base_integers.specs.Divides.{divides};
ghost use Rattle.base_integers.specs.Entry.{put};
ghost use Rattle.linear_term.specs.Range.{InRange};
ghost use Rattle.parameter_solver.specs.Values.{is_true_of};
ghost use Rattle.base_budget.specs.Trace.{compute, just, next};
ghost use Rattle.base_budget.specs.Work.{Worked};
ghost use Rattle.solve_laws.specs.Candidates.{IsAlone, root, value_number};
ghost use Rattle.std.specs.Prelude.{◌≡◌, ◌&&◌, [], All, IfOk, map, unsigned_abs};

use super::numbers::push_when;
use base_budget::StepFault;
use clause_set::Literal;
use linear_term::Place;
use sqlite_items::Items;
use std::alloc::Global;

/// b·v + k for the term b·j + k of a literal.
fn value_number(l: &Literal, j: u32, v: i128) -> Place
    ensures { result ≡ value_number j v l.now }
{
    let t = l.term();
    Place {
        m: t.coef(j),
        a: v,
        n: 1,
        b: t.constant(),
    }
}

/// Whether d divides k.
fn divides(d: i128, k: i128) -> bool
    requires { IsDivisor d }
    ensures { result ≡ divides (unsigned_abs d) k }
{
    k.unsigned_abs() % d.unsigned_abs() == 0
}

/// Whether the literal is true where the value of its term is k.
fn is_true_of(l: &Literal, k: i128) -> bool
    requires { HasDivisor l.now }
    ensures { result ≡ is_true_of l.now k }
{
    match l {
        Literal::Eq(_) => k == 0,
        Literal::Geq(_) => k >= 0,
        Literal::Div(d, _) => divides(*d, k),
        Literal::NDiv(d, _) => !divides(*d, k),
    }
}

/// The same, and b.
fn is_also_true_of(l: &Literal, k: i128, b: bool) -> bool
    requires { HasDivisor l.now }
    ensures { result ≡ (is_true_of l.now k && b) }
{
    is_true_of(l, k) && b
}

/// Whether the literals are true where j is v; the values of all their terms are computed.
fn truth_at(ls: &[Literal], j: u32, v: i128) -> Result<bool, StepFault>
    requires alone { All (IsAlone j) ls.now }
    requires divisors { All HasDivisor ls.now }
    ensures { Worked (next (compute (map (value_number j v) ls.now)) (λ _. just (clause_truth ls.now (put [] j v)))) result }
{
    let mut truth = true;
    for l in ls {
        let value = value_number(l, j, v).value()?;
        truth = is_also_true_of(l, value, truth);
    }
    Ok(truth)
}

/// v, if the literals are true where j is v.
pub(crate) fn root(alloc: Global, ls: &[Literal], j: u32, v: i128) -> Result<Items<i128>, StepFault>
    requires alone { All (IsAlone j) ls.now }
    requires divisors { All HasDivisor ls.now }
    requires range { InRange v }
    ensures work { Worked (root j v ls.now) result }
    ensures range { IfOk result (λ vs. All InRange vs) }
{
    let truth = truth_at(ls, j, v)?;
    let mut out = Items::new(alloc);
    push_when(&mut out, truth, v)?;
    Ok(out)
}
