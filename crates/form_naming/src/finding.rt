// Applications at arguments over the outer names, found in a formula.

ghost use Rattle.form_naming.specs.Naming as naming;
ghost use Rattle.formula.specs.Tree.{form, forms_of};
ghost use Rattle.std.specs.Prelude.{◌≡◌, IfNone, IfSome, None, Some};

use formula::Core;
use linear_term::Term;

/// Whether the names of the term are below n.
fn is_over(n: u32, t: &Term) -> bool
    ensures { result ≡ naming.is_over n t.now }
{
    t.pairs().iter().all(|pair| pair.0 < n)
}

/// Whether the names of the terms are below n.
fn are_over(n: u32, ts: &[Term]) -> bool
    ensures { result ≡ naming.are_over n ts.now }
{
    ts.iter().all(|t| is_over(n, t))
}

/// Whether the names of the term are n and above.
fn is_from(n: u32, t: &Term) -> bool
    ensures { result ≡ naming.is_from n t.now }
{
    t.pairs().iter().all(|pair| n <= pair.0)
}

/// Whether the formula has no predicates, and functions only at arguments over n, with values of other names. Takes no memory.
#[cycle(purity)]
#[tactic(auto, using(formula::proofs::Building::formed))]
pub fn is_pure_but(n: u32, f: &Core) -> bool
    ensures { result ≡ naming.is_pure_but n (form f.now) }
{
    match f {
        Core::Eq(_) => true,
        Core::Neq(_) => true,
        Core::Geq(_) => true,
        Core::Pred(_, _) => false,
        Core::NotPred(_, _) => false,
        Core::NotFun(_, ts, u) => are_over(n, ts.as_slice()) && is_from(n, u),
        Core::And(fs) => are_pure_but(n, fs.as_slice()),
        Core::Or(fs) => are_pure_but(n, fs.as_slice()),
        Core::Forall(g) => is_pure_but(n, g.get()),
        Core::Exists(g) => is_pure_but(n, g.get()),
    }
}

#[cycle(purity)]
fn are_pure_but(n: u32, formulas: &[Core]) -> bool
    ensures { result ≡ naming.are_pure_but n (forms_of formulas.now) }
{
    for f in formulas {
        if !is_pure_but(n, f) {
            return false;
        }
    }
    true
}

/// The first application at arguments over n, as its function and its arguments. Takes no memory.
#[cycle(application)]
#[tactic(auto, using(formula::proofs::Building::formed))]
pub fn application(n: u32, f: &Core) -> Option<(u32, &[Term])>
    ensures some { IfSome result (λ a. naming.application n (form f.now) ≡ Some (a.0, a.1.now)) }
    ensures none { IfNone result (naming.application n (form f.now) ≡ None) }
{
    match f {
        Core::Eq(_) => None,
        Core::Neq(_) => None,
        Core::Geq(_) => None,
        Core::Pred(_, _) => None,
        Core::NotPred(_, _) => None,
        Core::NotFun(g, ts, _) => {
            if are_over(n, ts.as_slice()) {
                return Some((*g, ts.as_slice()));
            }
            None
        }
        Core::And(fs) => application_in(n, fs.as_slice()),
        Core::Or(fs) => application_in(n, fs.as_slice()),
        Core::Forall(g) => application(n, g.get()),
        Core::Exists(g) => application(n, g.get()),
    }
}

#[cycle(application)]
fn application_in(n: u32, formulas: &[Core]) -> Option<(u32, &[Term])>
    ensures some { IfSome result (λ a. naming.application_in n (forms_of formulas.now) ≡ Some (a.0, a.1.now)) }
    ensures none { IfNone result (naming.application_in n (forms_of formulas.now) ≡ None) }
{
    for f in formulas {
        if let Some(found) = application(n, f) {
            return Some(found);
        }
    }
    None
}
