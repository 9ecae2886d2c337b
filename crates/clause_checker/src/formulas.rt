// The literal that a formula with a term for each of its names is, in canonical form.

ghost use Rattle.std.specs.Prelude.{◌≡◌, ◌<◌, map, None, IfOk, IfErr, IfSome};
ghost use Rattle.formula.specs.Form.{conjunction, disjunction};
ghost use Rattle.formula.specs.Sizes.{size};
ghost use Rattle.formula.specs.Tree.{form, forms_of};
ghost use Rattle.clause_proof.specs.Atoms as atoms;
ghost use Rattle.form_closures.specs.Putting as putting;
ghost use Rattle.clause_proof.specs.Clauses as q;
ghost use Rattle.clause_checker.specs.Answers.{IsTermCut};
ghost use Rattle.clause_checker.specs.Prices.{IsGround, IsLevelAbove};
ghost use Rattle.clause_checker.specs.Views.{signed_of};

use crate::canonical::{equation_literal, inequality_literal, known};
use crate::fault::Fault;
use crate::putting::{put_all, put_in};
use crate::state::{Definition, Signed};
use formula::{Core, Shared};
use linear_term::Term;
use sqlite_items::{Items, at};
use std::alloc::Global;

/// The closure.
fn closure<'a>(f: &'a Core, ts: &Shared<Items<Term>>) -> Result<Signed<'a>, Fault>
    ensures ok { IfOk result (λ x. signed_of x ≡ atoms.plain (q.closure (form f.now) ts.now)) }
    ensures err { IfErr result IsTermCut }
{
    Ok(Signed {
        definition: Definition::Closure(f, ts.share()?),
        positive: true,
    })
}

/// The predicate at the terms, which have terms put in.
fn predicate<'a>(
    alloc: Global,
    p: u32,
    us: &[Term],
    ts: &[Term],
    positive: bool,
) -> Result<Signed<'a>, Fault>
    ensures ok { IfOk result (λ x. signed_of x ≡ record { definition = q.predicate p (map (putting.put_in ts.now) us.now); positive = positive }) }
    ensures err { IfErr result IsTermCut }
{
    let terms = put_all(alloc, ts, us)?;
    Ok(Signed {
        definition: Definition::Predicate(p, terms),
        positive,
    })
}

/// The negation.
fn other<'a>(x: Signed<'a>) -> Signed<'a>
    ensures { signed_of result ≡ atoms.other (signed_of x.entry) }
{
    let Signed {
        definition,
        positive,
    } = x;
    Signed {
        definition,
        positive: !positive,
    }
}

/// The only formula of a conjunction.
#[tactic(auto, using(crate::proofs::Inner::alls))]
fn single_all<'a>(f: &Core, fs: &'a [Core]) -> Option<&'a Core>
    requires { form f.now ≡ conjunction (forms_of fs.now) }
    ensures some { IfSome result (λ g. atoms.inner_form (form f.now) ≡ atoms.inner_form (form g.now)) }
    ensures smaller { IfSome result (λ g. size (form g.now) < size (form f.now)) }
    ensures none { result ≡ None → atoms.inner_form (form f.now) ≡ form f.now }
    ensures level { IfSome result (λ g. IsLevelAbove (form f.now) (form g.now)) }
    ensures ground { result ≡ None → IsGround (form f.now) }
{
    if fs.len() != 1 {
        return None;
    }
    match at(fs, 0) {
        Some(g) => Some(g),
        None => None,
    }
}

/// The only formula of a disjunction.
#[tactic(auto, using(crate::proofs::Inner::anys))]
fn single_any<'a>(f: &Core, fs: &'a [Core]) -> Option<&'a Core>
    requires { form f.now ≡ disjunction (forms_of fs.now) }
    ensures some { IfSome result (λ g. atoms.inner_form (form f.now) ≡ atoms.inner_form (form g.now)) }
    ensures smaller { IfSome result (λ g. size (form g.now) < size (form f.now)) }
    ensures none { result ≡ None → atoms.inner_form (form f.now) ≡ form f.now }
    ensures level { IfSome result (λ g. IsLevelAbove (form f.now) (form g.now)) }
    ensures ground { result ≡ None → IsGround (form f.now) }
{
    if fs.len() != 1 {
        return None;
    }
    match at(fs, 0) {
        Some(g) => Some(g),
        None => None,
    }
}

/// The formula of which this conjunction or disjunction is the only one.
pub(crate) fn single(f: &Core) -> Option<&Core>
    ensures some { IfSome result (λ g. atoms.inner_form (form f.now) ≡ atoms.inner_form (form g.now)) }
    ensures smaller { IfSome result (λ g. size (form g.now) < size (form f.now)) }
    ensures none { result ≡ None → atoms.inner_form (form f.now) ≡ form f.now }
    ensures level { IfSome result (λ g. IsLevelAbove (form f.now) (form g.now)) }
    ensures ground { result ≡ None → IsGround (form f.now) }
{
    match f {
        Core::And(fs) => single_all(f, fs.as_slice()),
        Core::Or(fs) => single_any(f, fs.as_slice()),
        Core::Eq(_) => None,
        Core::Neq(_) => None,
        Core::Geq(_) => None,
        Core::Pred(_, _) => None,
        Core::NotPred(_, _) => None,
        Core::NotFun(_, _, _) => None,
        Core::Forall(_) => None,
        Core::Exists(_) => None,
    }
}

/// The formula without conjunctions and disjunctions of one formula around it.
fn inner(f: &Core) -> &Core
    ensures { form result.now ≡ atoms.inner_form (form f.now) }
{
    let mut rest = f;
    while let Some(g) = single(rest) {
        rest = g;
    }
    rest
}

/// The literal of a conjunction.
#[tactic(auto, using(crate::proofs::Quotients::members, crate::proofs::Causes::causes))]
fn all_of<'a>(f: &'a Core, fs: &[Core], ts: &Shared<Items<Term>>) -> Result<Signed<'a>, Fault>
    requires { form f.now ≡ conjunction (forms_of fs.now) }
    ensures ok { IfOk result (λ x. signed_of x ≡ atoms.literal_by (conjunction (forms_of fs.now)) ts.now) }
    ensures err { IfErr result IsTermCut }
{
    if fs.is_empty() {
        return Ok(known(true));
    }
    let literal = closure(f, ts)?;
    Ok(literal)
}

/// The literal of a disjunction.
#[tactic(auto, using(crate::proofs::Quotients::members, crate::proofs::Causes::causes))]
fn any_of<'a>(f: &'a Core, fs: &[Core], ts: &Shared<Items<Term>>) -> Result<Signed<'a>, Fault>
    requires { form f.now ≡ disjunction (forms_of fs.now) }
    ensures ok { IfOk result (λ x. signed_of x ≡ atoms.literal_by (disjunction (forms_of fs.now)) ts.now) }
    ensures err { IfErr result IsTermCut }
{
    if fs.is_empty() {
        return Ok(known(false));
    }
    let literal = closure(f, ts)?;
    Ok(literal)
}

/// The literal of the formula with the terms ts for its names.
pub(crate) fn literal_of<'a>(
    alloc: Global,
    f: &'a Core,
    ts: &Shared<Items<Term>>,
) -> Result<Signed<'a>, Fault>
    ensures ok { IfOk result (λ x. signed_of x ≡ atoms.literal_of (form f.now) ts.now) }
    ensures err { IfErr result IsTermCut }
{
    let g = inner(f);
    literal_by(alloc, g, ts)
}

fn literal_by<'a>(alloc: Global, f: &'a Core, ts: &Shared<Items<Term>>) -> Result<Signed<'a>, Fault>
    ensures ok { IfOk result (λ x. signed_of x ≡ atoms.literal_by (form f.now) ts.now) }
    ensures err { IfErr result IsTermCut }
{
    match f {
        Core::Eq(t) => {
            let u = put_in(alloc, ts.get().as_slice(), t)?;
            let literal = equation_literal(alloc, u)?;
            Ok(literal)
        }
        Core::Neq(t) => {
            let u = put_in(alloc, ts.get().as_slice(), t)?;
            let literal = equation_literal(alloc, u)?;
            Ok(other(literal))
        }
        Core::Geq(t) => {
            let u = put_in(alloc, ts.get().as_slice(), t)?;
            let literal = inequality_literal(alloc, u)?;
            Ok(literal)
        }
        Core::Pred(p, us) => predicate(alloc, *p, us.as_slice(), ts.get().as_slice(), true),
        Core::NotPred(p, us) => predicate(alloc, *p, us.as_slice(), ts.get().as_slice(), false),
        Core::And(fs) => all_of(f, fs.as_slice(), ts),
        Core::Or(fs) => any_of(f, fs.as_slice(), ts),
        Core::NotFun(_, _, _) => closure(f, ts),
        Core::Forall(_) => closure(f, ts),
        Core::Exists(_) => closure(f, ts),
    }
}
