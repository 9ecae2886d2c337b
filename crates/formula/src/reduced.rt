// What formulas of the code are by their types. These calls do nothing, and tell their callers so.

ghost use Rattle.std.specs.List.{AllByRecursion};
ghost use Rattle.linear_term.specs.Linear.{IsReduced};
ghost use Rattle.formula.specs.Reduced.{HasReducedTerms, HaveReducedTerms};
ghost use Rattle.formula.specs.Tree.{form, forms_of};

use crate::calculus::Core;
use linear_term::Term;

impl Core {
    /// The names of each term rise and no coefficient is 0: this call does nothing, and tells its caller so.
    #[cycle(reduced)]
    #[tactic(auto, using(crate::proofs::Knowing::known))]
    pub fn know_reduced(&self)
        ensures { HasReducedTerms (form self.now) }
    {
        match self {
            Core::Eq(t) => t.know_normal(),
            Core::Neq(t) => t.know_normal(),
            Core::Geq(t) => t.know_normal(),
            Core::Pred(_, ts) => know_terms(ts.as_slice()),
            Core::NotPred(_, ts) => know_terms(ts.as_slice()),
            Core::NotFun(_, ts, u) => {
                know_terms(ts.as_slice());
                u.know_normal();
            }
            Core::And(fs) => know_formulas(fs.as_slice()),
            Core::Or(fs) => know_formulas(fs.as_slice()),
            Core::Forall(f) => f.get().know_reduced(),
            Core::Exists(f) => f.get().know_reduced(),
        }
    }
}

#[cycle(reduced)]
#[tactic(auto, using(crate::proofs::Knowing::known))]
fn know_formulas(formulas: &[Core])
    ensures { HaveReducedTerms (forms_of formulas.now) }
{
    for f in formulas {
        f.know_reduced();
    }
}

#[tactic(auto, using(crate::proofs::Knowing::known))]
fn know_terms(terms: &[Term])
    ensures { AllByRecursion IsReduced terms.now }
{
    for t in terms {
        t.know_normal();
    }
}
