// Terms for the names of a term, and lists of terms that go on.

ghost use Rattle.std.specs.Prelude.{◌≡◌, ◌++◌, ◌∷◌, [], pos, negsuc, map, IfOk};
ghost use Rattle.linear_term.specs.Range.{InRange};
ghost use Rattle.linear_term.specs.Linear as linear;
ghost use Rattle.linear_term.specs.Combination.{combination};
ghost use Rattle.form_closures.specs.Putting as terms;

use crate::effort::Effort;
use crate::fault::Fault;
use linear_term::{Term, in_range};
use sqlite_items::{Items, at};
use std::alloc::Global;

/// The number n as a term. Overflow where it is out of the range of coefficients.
pub fn number(alloc: Global, n: i128) -> Result<Term, Fault>
    ensures { IfOk result (λ t. t ≡ linear.number n) }
{
    if !in_range(n) {
        return Err(Fault::Overflow);
    }
    Ok(Term::number(alloc, n))
}

/// m·s + n·t, at a step for each name of both.
fn combine(effort: &mut Effort, m: i128, s: &Term, n: i128, t: &Term) -> Result<Term, Fault>
    requires m_in_range { InRange m }
    requires n_in_range { InRange n }
    ensures { IfOk result (λ r. r ≡ combination m s.now n t.now) }
{
    effort.step(
        (s.len() as u64)
            .saturating_add(t.len() as u64)
            .saturating_add(1),
    )?;
    Ok(Term::combine(m, s, n, t)?)
}

/// t - n.
pub fn minus(alloc: Global, effort: &mut Effort, t: &Term, n: i128) -> Result<Term, Fault>
    ensures { IfOk result (λ r. r ≡ combination (pos 1) t.now (negsuc 0) (linear.number n)) }
{
    let other = number(alloc, n)?;
    combine(effort, 1, t, -1, &other)
}

/// u, and k times the term for the name x.
#[tactic(auto, using(form_closures::proofs::Puts::terms))]
fn put_one(
    alloc: Global,
    effort: &mut Effort,
    ts: &[Term],
    u: &Term,
    x: u32,
    k: i128,
) -> Result<Term, Fault>
    ensures { IfOk result (λ r. r ≡ combination (pos 1) u.now k (terms.term_at ts.now x)) }
{
    if !in_range(k) {
        return Err(Fault::Overflow);
    }
    match at(ts, x as usize) {
        Some(t) => {
            let sum = combine(effort, 1, u, k, t)?;
            Ok(sum)
        }
        None => {
            let sum = combine(effort, 1, u, k, &Term::number(alloc, 0))?;
            Ok(sum)
        }
    }
}

/// The term with the terms ts for its names.
#[tactic(auto, using(form_closures::proofs::Puts::puts))]
pub fn put_in(alloc: Global, effort: &mut Effort, ts: &[Term], t: &Term) -> Result<Term, Fault>
    ensures { IfOk result (λ r. r ≡ terms.put_in ts.now t.now) }
{
    let mut sum = Term::number(alloc, t.constant());
    for pair in t.pairs() {
        sum = put_one(alloc, effort, ts, &sum, pair.0, pair.1)?;
    }
    Ok(sum)
}

/// Each of these terms with the terms ts for its names.
pub fn put_all(
    alloc: Global,
    effort: &mut Effort,
    ts: &[Term],
    us: &[Term],
) -> Result<Items<Term>, Fault>
    ensures { IfOk result (λ r. r ≡ map (terms.put_in ts.now) us.now) }
{
    let mut out = Items::new(alloc);
    for u in us {
        out.push(put_in(alloc, effort, ts, u)?)?;
    }
    Ok(out)
}

/// The terms, and after them one more.
pub fn with_term(
    alloc: Global,
    effort: &mut Effort,
    ts: &[Term],
    last: Term,
) -> Result<Items<Term>, Fault>
    ensures { IfOk result (λ r. r ≡ ts.now ++ last ∷ []) }
{
    let mut out = Items::new(alloc);
    for t in ts {
        effort.step((t.len() as u64).saturating_add(1))?;
        out.push(t.copy()?)?;
    }
    out.push(last)?;
    Ok(out)
}
