// Whether a formula speaks of few names alone.

ghost use Rattle.clause_proof.specs.Lines.{are_over, is_over};
ghost use Rattle.formula.specs.Tree.{form, forms_of};
ghost use Rattle.job_seeking.specs.Over.{are_forms_over, is_form_over};
ghost use Rattle.std.specs.Prelude.{◌≡◌, ◌+◌, true};

use formula::Core;
use linear_term::Term;

// Whether the names of the term are below n.
fn term_over(n: u32, t: &Term) -> bool
    ensures { result ≡ is_over n t.now }
{
    t.pairs().iter().all(|pair| pair.0 < n)
}

// Whether the names of the terms are below n.
fn terms_over(n: u32, ts: &[Term]) -> bool
    ensures { result ≡ are_over n ts.now }
{
    ts.iter().all(|t| term_over(n, t))
}

/// Whether the formula speaks of its first n names alone. False also where its quantifiers nest too deep to be counted.
#[cycle(names)]
#[tactic(auto, using(formula::proofs::Building::formed))]
pub(crate) fn form_over(n: u32, f: &Core) -> bool
    ensures { result ≡ true → is_form_over n (form f.now) ≡ true }
{
    match f {
        Core::Eq(t) => term_over(n, t),
        Core::Neq(t) => term_over(n, t),
        Core::Geq(t) => term_over(n, t),
        Core::Pred(_, ts) => terms_over(n, ts.as_slice()),
        Core::NotPred(_, ts) => terms_over(n, ts.as_slice()),
        Core::NotFun(_, ts, u) => terms_over(n, ts.as_slice()) && term_over(n, u),
        Core::And(fs) => forms_over(n, fs.as_slice()),
        Core::Or(fs) => forms_over(n, fs.as_slice()),
        Core::Forall(g) => below(n, g.get()),
        Core::Exists(g) => below(n, g.get()),
    }
}

// The same of a formula below a quantifier.
#[cycle(names)]
fn below(n: u32, f: &Core) -> bool
    ensures { result ≡ true → is_form_over (n + 1) (form f.now) ≡ true }
{
    match n.checked_add(1) {
        Some(m) => form_over(m, f),
        None => false,
    }
}

#[cycle(names)]
fn forms_over(n: u32, formulas: &[Core]) -> bool
    ensures { result ≡ true → are_forms_over n (forms_of formulas.now) ≡ true }
{
    for f in formulas {
        if !form_over(n, f) {
            return false;
        }
    }
    true
}
