// A formula with a name in the place of an application.

ghost use Rattle.form_naming.specs.Naming as naming;
ghost use Rattle.formula.specs.Form.{IsFormOver};
ghost use Rattle.formula.specs.Sizes.{depth};
ghost use Rattle.formula.specs.Tree.{form, forms_of};
ghost use Rattle.std.specs.Prelude.{◌≡◌, ◌+◌, ◌<◌, ◌≤◌, ◌^◌, IfOk, true};

use formula::{Core, Shared, shift};
use linear_term::{Memory, Term};
use smallvec::SmallVec;
use sqlite_items::Items;
use std::alloc::Global;

/// Whether the names of the term are above n.
fn is_above(n: u32, t: &Term) -> bool
    ensures { result ≡ naming.is_above n t.now }
{
    t.pairs().iter().all(|pair| n < pair.0)
}

/// Whether the terms are equal.
fn same_term(s: &Term, t: &Term) -> bool
    ensures { result ≡ naming.same_term s.now t.now }
{
    s.compare(t).is_eq()
}

/// Whether the lists of terms are equal.
#[tactic(auto, using(crate::proofs::Comparing::alike))]
fn same_terms(ss: &[Term], ts: &[Term]) -> bool
    ensures { result ≡ naming.same_terms ss.now ts.now }
{
    if ss.len() != ts.len() {
        return false;
    }
    for i in 0..ss.len() {
        if !same_term(&ss[i], &ts[i]) {
            return false;
        }
    }
    true
}

/// The term less the name n, which is below its names.
#[tactic(auto, using(crate::proofs::Comparing::lessening))]
fn less_name(alloc: Global, n: u32, t: &Term) -> Result<Term, Memory>
    requires { naming.is_above n t.now ≡ true }
    ensures { IfOk result (λ u. u ≡ naming.less_name n t.now) }
{
    t.know_normal();
    let mut pairs: SmallVec<(u32, i128), 4> = SmallVec::new(alloc);
    pairs.push((n, -1))?;
    pairs.extend_from_slice(t.pairs())?;
    Term::of(alloc, pairs.as_slice(), t.constant())
}

/// The terms once more.
fn copied(alloc: Global, terms: &[Term]) -> Result<Items<Term>, Memory>
    ensures { IfOk result (λ ts. ts ≡ terms.now) }
{
    let mut out = Items::new(alloc);
    for t in terms {
        out.push(t.copy()?)?;
    }
    Ok(out)
}

/// The atom: it is not u that g has at ts, with the name n for the application of f at ss.
fn atom(
    alloc: Global,
    n: u32,
    f: u32,
    ss: &[Term],
    g: u32,
    ts: &[Term],
    u: &Term,
) -> Result<Core, Memory>
    ensures { IfOk result (λ a. form a ≡ naming.atom n f ss.now g ts.now u.now) }
{
    if f == g && same_terms(ss, ts) && is_above(n, u) {
        return Ok(Core::Neq(less_name(alloc, n, u)?));
    }
    Ok(Core::NotFun(g, copied(alloc, ts)?, u.copy()?))
}

/// The formula with the name n for the application of f at ss.
#[cycle(naming)]
#[tactic(auto, using(formula::proofs::Building::formed))]
fn named(alloc: Global, n: u32, f: u32, ss: &[Term], g: &Core) -> Result<Core, Memory>
    ensures { IfOk result (λ h. form h ≡ naming.named n f ss.now (form g.now)) }
{
    match g {
        Core::Eq(_) => g.copy(alloc),
        Core::Neq(_) => g.copy(alloc),
        Core::Geq(_) => g.copy(alloc),
        Core::Pred(_, _) => g.copy(alloc),
        Core::NotPred(_, _) => g.copy(alloc),
        Core::NotFun(h, ts, u) => atom(alloc, n, f, ss, *h, ts.as_slice(), u),
        Core::And(gs) => Ok(Core::And(all_named(alloc, n, f, ss, gs.as_slice())?)),
        Core::Or(gs) => Ok(Core::Or(all_named(alloc, n, f, ss, gs.as_slice())?)),
        Core::Forall(h) => {
            let body = named(alloc, n, f, ss, h.get())?;
            Ok(Core::Forall(Shared::new(alloc, body)?))
        }
        Core::Exists(h) => {
            let body = named(alloc, n, f, ss, h.get())?;
            Ok(Core::Exists(Shared::new(alloc, body)?))
        }
    }
}

#[cycle(naming)]
fn all_named(
    alloc: Global,
    n: u32,
    f: u32,
    ss: &[Term],
    formulas: &[Core],
) -> Result<Items<Core>, Memory>
    ensures { IfOk result (λ hs. forms_of hs ≡ naming.all_named n f ss.now (forms_of formulas.now)) }
{
    let mut out = Items::new(alloc);
    for g in formulas {
        out.push(named(alloc, n, f, ss, g)?)?;
    }
    Ok(out)
}

/// The formula over n names brought under a new name n, which stands for the application of f at ss.
#[tactic(auto, using(crate::proofs::Members::below))]
pub fn renamed(alloc: Global, n: u32, f: u32, ss: &[Term], g: &Core) -> Result<Core, Memory>
    requires room { n + depth (form g.now) + 1 ≤ 2 ^ 32 }
    requires over { IsFormOver n (form g.now) }
    ensures { IfOk result (λ h. form h ≡ naming.renamed n f ss.now (form g.now)) }
{
    let under = shift(alloc, g, n, n + 1)?;
    named(alloc, n, f, ss, &under)
}

/// For all values of the name n: it is not the value of f at ss, or the body is true.
pub fn reading(alloc: Global, n: u32, f: u32, ss: &[Term], body: Core) -> Result<Core, Memory>
    ensures { IfOk result (λ h. form h ≡ naming.reading n f ss.now (form body)) }
{
    let mut members = Items::new(alloc);
    members.push(Core::NotFun(f, copied(alloc, ss)?, Term::name(alloc, n)))?;
    members.push(body)?;
    Ok(Core::Forall(Shared::new(alloc, Core::Or(members))?))
}
