// Whether a name occurs in a formula.

ghost use Rattle.formula.specs.Tree.{form, forms_of};
ghost use Rattle.form_miniscope.specs.Lowering as lowering;
ghost use Rattle.std.specs.Prelude.{◌≡◌};

use formula::Core;
use linear_term::Term;

/// Whether the term has the name n.
fn has(n: u32, t: &Term) -> bool
    ensures { result ≡ lowering.has n t.now }
{
    t.pairs().iter().any(|pair| pair.0 == n)
}

/// Whether some term has it.
fn some_has(n: u32, ts: &[Term]) -> bool
    ensures { result ≡ lowering.some_has n ts.now }
{
    ts.iter().any(|t| has(n, t))
}

/// Whether the formula has the name n. Takes no memory.
#[cycle(occurrence)]
#[tactic(auto, using(formula::proofs::Building::formed))]
pub(crate) fn occurs(n: u32, f: &Core) -> bool
    ensures { result ≡ lowering.occurs n (form f.now) }
{
    match f {
        Core::Eq(t) => has(n, t),
        Core::Neq(t) => has(n, t),
        Core::Geq(t) => has(n, t),
        Core::Pred(_, ts) => some_has(n, ts.as_slice()),
        Core::NotPred(_, ts) => some_has(n, ts.as_slice()),
        Core::NotFun(_, ts, u) => has(n, u) || some_has(n, ts.as_slice()),
        Core::And(fs) => occurs_in(n, fs.as_slice()),
        Core::Or(fs) => occurs_in(n, fs.as_slice()),
        Core::Forall(g) => occurs(n, g.get()),
        Core::Exists(g) => occurs(n, g.get()),
    }
}

/// Whether some formula has it.
#[cycle(occurrence)]
pub(crate) fn occurs_in(n: u32, formulas: &[Core]) -> bool
    ensures { result ≡ lowering.occurs_in n (forms_of formulas.now) }
{
    for f in formulas {
        if occurs(n, f) {
            return true;
        }
    }
    false
}
