// A formula once more. Rust's `Clone` cannot refuse memory, so this is a call of its own.

ghost use Rattle.std.specs.Prelude.{◌≡◌, IfOk};

use crate::calculus::Core;
use base_budget::room_for;
use linear_term::{Memory, Term};
use sqlite_items::Items;
use std::alloc::Global;

impl Core {
    /// The same formula once more, with the body of a quantifier in common.
    #[cycle(copy)]
    pub fn copy(&self, alloc: Global) -> Result<Core, Memory>
        ensures { IfOk result (λ f. f ≡ self.now) }
    {
        match self {
            Core::Eq(t) => Ok(Core::Eq(t.copy()?)),
            Core::Neq(t) => Ok(Core::Neq(t.copy()?)),
            Core::Geq(t) => Ok(Core::Geq(t.copy()?)),
            Core::Pred(p, ts) => Ok(Core::Pred(*p, copy_terms(alloc, ts.as_slice())?)),
            Core::NotPred(p, ts) => Ok(Core::NotPred(*p, copy_terms(alloc, ts.as_slice())?)),
            Core::NotFun(f, ts, u) => Ok(Core::NotFun(
                *f,
                copy_terms(alloc, ts.as_slice())?,
                u.copy()?,
            )),
            Core::And(fs) => Ok(Core::And(copy_all(alloc, fs.as_slice())?)),
            Core::Or(fs) => Ok(Core::Or(copy_all(alloc, fs.as_slice())?)),
            Core::Forall(f) => Ok(Core::Forall(f.share()?)),
            Core::Exists(f) => Ok(Core::Exists(f.share()?)),
        }
    }
}

#[cycle(copy)]
fn copy_all(alloc: Global, formulas: &[Core]) -> Result<Items<Core>, Memory>
    ensures { IfOk result (λ fs. fs ≡ formulas.now) }
{
    let mut out = room_for(alloc, formulas.len())?;
    for f in formulas {
        out.push(f.copy(alloc)?)?;
    }
    Ok(out)
}

pub(crate) fn copy_terms(alloc: Global, terms: &[Term]) -> Result<Items<Term>, Memory>
    ensures { IfOk result (λ ts. ts ≡ terms.now) }
{
    let mut out = room_for(alloc, terms.len())?;
    for t in terms {
        out.push(t.copy()?)?;
    }
    Ok(out)
}
