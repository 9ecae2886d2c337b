// A formula that lacks a name, without its place: the names above it are lowered by one.

ghost use Rattle.formula.specs.Tree.{form, forms_of};
ghost use Rattle.form_miniscope.specs.Lowering as lowering;
ghost use Rattle.std.specs.Prelude.{◌≡◌, IfOk, false, map};

use formula::{Core, Shared};
use linear_term::{Memory, Term};
use smallvec::SmallVec;
use sqlite_items::Items;
use std::alloc::Global;

/// The pair with its name less 1, where it is above n.
fn lowered_pair(n: u32, pair: &(u32, i128)) -> (u32, i128)
    ensures { result ≡ (lowering.lowered_name n pair.now.0, pair.now.1) }
{
    let mut low = *pair;
    if n < low.0 {
        low.0 -= 1;
    }
    low
}

/// The term with each name above n less 1.
#[tactic(auto, using(crate::proofs::Lowered::lowering))]
fn lower(alloc: Global, n: u32, t: &Term) -> Result<Term, Memory>
    requires { lowering.has n t.now ≡ false }
    ensures { IfOk result (λ u. u ≡ lowering.lowered n t.now) }
{
    t.know_normal();
    let mut pairs: SmallVec<(u32, i128), 4> = SmallVec::new(alloc);
    for pair in t.pairs() {
        pairs.push(lowered_pair(n, pair))?;
    }
    Term::of(alloc, pairs.as_slice(), t.constant())
}

fn lower_all(alloc: Global, n: u32, terms: &[Term]) -> Result<Items<Term>, Memory>
    requires { lowering.some_has n terms.now ≡ false }
    ensures { IfOk result (λ us. us ≡ map (lowering.lowered n) terms.now) }
{
    let mut out = Items::new(alloc);
    for t in terms {
        out.push(lower(alloc, n, t)?)?;
    }
    Ok(out)
}

/// The formula with each name above n less 1.
#[cycle(freeing)]
#[tactic(auto, using(formula::proofs::Building::formed, crate::proofs::Lowering::neither))]
pub(crate) fn freed(alloc: Global, n: u32, f: &Core) -> Result<Core, Memory>
    requires { lowering.occurs n (form f.now) ≡ false }
    ensures { IfOk result (λ g. form g ≡ lowering.freed n (form f.now)) }
{
    match f {
        Core::Eq(t) => Ok(Core::Eq(lower(alloc, n, t)?)),
        Core::Neq(t) => Ok(Core::Neq(lower(alloc, n, t)?)),
        Core::Geq(t) => Ok(Core::Geq(lower(alloc, n, t)?)),
        Core::Pred(p, ts) => Ok(Core::Pred(*p, lower_all(alloc, n, ts.as_slice())?)),
        Core::NotPred(p, ts) => Ok(Core::NotPred(*p, lower_all(alloc, n, ts.as_slice())?)),
        Core::NotFun(h, ts, u) => {
            let arguments = lower_all(alloc, n, ts.as_slice())?;
            let value = lower(alloc, n, u)?;
            Ok(Core::NotFun(*h, arguments, value))
        }
        Core::And(fs) => Ok(Core::And(all_freed(alloc, n, fs.as_slice())?)),
        Core::Or(fs) => Ok(Core::Or(all_freed(alloc, n, fs.as_slice())?)),
        Core::Forall(g) => {
            let body = freed(alloc, n, g.get())?;
            Ok(Core::Forall(Shared::new(alloc, body)?))
        }
        Core::Exists(g) => {
            let body = freed(alloc, n, g.get())?;
            Ok(Core::Exists(Shared::new(alloc, body)?))
        }
    }
}

#[cycle(freeing)]
pub(crate) fn all_freed(alloc: Global, n: u32, formulas: &[Core]) -> Result<Items<Core>, Memory>
    requires { lowering.occurs_in n (forms_of formulas.now) ≡ false }
    ensures { IfOk result (λ gs. forms_of gs ≡ lowering.all_freed n (forms_of formulas.now)) }
{
    let mut out = Items::new(alloc);
    for f in formulas {
        out.push(freed(alloc, n, f)?)?;
    }
    Ok(out)
}
