// Terms for names, and copies of terms.

ghost use Rattle.std.specs.Prelude.{◌≡◌, pos, map, IfOk, IfErr};
ghost use Rattle.linear_term.specs.Linear as linear;
ghost use Rattle.linear_term.specs.Range.{InRange};
ghost use Rattle.linear_term.specs.Combination.{combination};
ghost use Rattle.clause_proof.specs.Atoms as atoms;
ghost use Rattle.form_closures.specs.Putting as putting;
ghost use Rattle.clause_proof.specs.Lines as lines;
ghost use Rattle.clause_checker.specs.Answers.{IsTermCut};

use crate::fault::Fault;
use linear_term::Term;
use sqlite_items::{Items, at};
use std::alloc::Global;

/// m·s + n·t.
pub(crate) fn combine(m: i128, s: &Term, n: i128, t: &Term) -> Result<Term, Fault>
    requires m_in_range { InRange m }
    requires n_in_range { InRange n }
    ensures ok { IfOk result (λ r. r ≡ combination m s.now n t.now) }
    ensures err { IfErr result IsTermCut }
{
    Ok(Term::combine(m, s, n, t)?)
}

/// u, and k times the term for the name x.
#[tactic(auto, using(form_closures::proofs::Puts::terms, crate::proofs::Causes::causes))]
fn put_one(alloc: Global, ts: &[Term], u: &Term, x: u32, k: i128) -> Result<Term, Fault>
    requires { InRange k }
    ensures ok { IfOk result (λ r. r ≡ combination (pos 1) u.now k (putting.term_at ts.now x)) }
    ensures err { IfErr result IsTermCut }
{
    match at(ts, x as usize) {
        Some(t) => {
            let sum = combine(1, u, k, t)?;
            Ok(sum)
        }
        None => {
            let sum = combine(1, u, k, &Term::number(alloc, 0))?;
            Ok(sum)
        }
    }
}

/// The term with the terms ts for its names.
#[tactic(auto, using(form_closures::proofs::Puts::puts, crate::proofs::Causes::causes))]
pub(crate) fn put_in(alloc: Global, ts: &[Term], t: &Term) -> Result<Term, Fault>
    ensures ok { IfOk result (λ r. r ≡ putting.put_in ts.now t.now) }
    ensures err { IfErr result IsTermCut }
{
    t.know_normal();
    let mut sum = Term::number(alloc, t.constant());
    for pair in t.pairs() {
        sum = put_one(alloc, ts, &sum, pair.0, pair.1)?;
    }
    Ok(sum)
}

/// Each of these terms with the terms ts for its names.
pub(crate) fn put_all(alloc: Global, ts: &[Term], us: &[Term]) -> Result<Items<Term>, Fault>
    ensures ok { IfOk result (λ r. r ≡ map (putting.put_in ts.now) us.now) }
    ensures err { IfErr result IsTermCut }
{
    let mut out = Items::new(alloc);
    for u in us {
        out.push(put_in(alloc, ts, u)?)?;
    }
    Ok(out)
}

/// The same term.
pub(crate) fn copy(t: &Term) -> Result<Term, Fault>
    ensures ok { IfOk result (λ r. r ≡ t.now) }
    ensures err { IfErr result IsTermCut }
{
    Ok(t.copy()?)
}

/// The same terms.
pub(crate) fn copied(alloc: Global, ts: &[Term]) -> Result<Items<Term>, Fault>
    ensures ok { IfOk result (λ r. r ≡ ts.now) }
    ensures err { IfErr result IsTermCut }
{
    let mut out = Items::new(alloc);
    for t in ts {
        out.push(copy(t)?)?;
    }
    Ok(out)
}

/// Whether the names of the term are below n.
pub(crate) fn is_over(n: usize, t: &Term) -> bool
    ensures { result ≡ lines.is_over n t.now }
{
    t.pairs().iter().all(|pair| (pair.0 as usize) < n)
}

/// Whether the names of the terms are.
pub(crate) fn are_over(n: usize, ts: &[Term]) -> bool
    ensures { result ≡ lines.are_over n ts.now }
{
    ts.iter().all(|t| is_over(n, t))
}

/// Whether the term is the name n.
#[tactic(auto, using(crate::proofs::Puts::names))]
pub(crate) fn is_name(alloc: Global, t: &Term, n: usize) -> bool
    ensures { result ≡ atoms.same_term t.now (linear.name n) }
{
    match at(t.pairs(), 0) {
        None => false,
        Some(pair) => {
            if pair.0 as usize != n {
                return false;
            }
            same_term(t, &Term::name(alloc, pair.0))
        }
    }
}

/// Whether the terms are equal.
pub(crate) fn same_term(s: &Term, t: &Term) -> bool
    ensures { result ≡ atoms.same_term s.now t.now }
{
    s.compare(t).is_eq()
}

/// Whether the lists of terms are equal.
#[tactic(auto, using(crate::proofs::Puts::alike))]
pub(crate) fn same_terms(ss: &[Term], ts: &[Term]) -> bool
    ensures { result ≡ atoms.same_terms ss.now ts.now }
{
    if ss.len() != ts.len() {
        return false;
    }
    for i in 0..ss.len() {
        if !same_term(&ss[i], &ts[i]) {
            return false;
        }
    }
    true
}
