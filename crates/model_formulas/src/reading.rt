// Formulas that read a value of a function.

ghost use Rattle.std.specs.Prelude.{◌≡◌, length, true, IfOk, IfSome, List};
ghost use Rattle.std.specs.List.{list_all};
ghost use Rattle.std.specs.Prelude.{nat_lt};
ghost use Rattle.linear_term.specs.Linear as linear;
ghost use Rattle.formula.specs.Tree.{form};
ghost use Rattle.model_formulas.specs.Expanded.{IsRead, are_over, is_over};

use crate::choosing::{Guard, choices};
use crate::effort::Effort;
use crate::fault::Fault;
use crate::putting::put_all;
use formula::Core;
use linear_term::Term;
use model_table::Model;
use sqlite_items::Items;
use std::alloc::Global;

/// Whether each name of the term is below n.
fn is_over(n: u32, t: &Term) -> bool
    ensures { result ≡ is_over n t.now }
{
    t.pairs().iter().all(|pair| pair.0 < n)
}

/// Whether each name of the terms is.
fn are_over(n: u32, ts: &[Term]) -> bool
    ensures { result ≡ are_over n ts.now }
{
    ts.iter().all(|t| is_over(n, t))
}

/// Whether the term is the name n.
#[tactic(auto, using(crate::proofs::Readings::names))]
fn is_name(alloc: Global, t: &Term, n: u32) -> bool
    ensures { result ≡ true → t.now ≡ linear.name n }
{
    t.compare(&Term::name(alloc, n)).is_eq()
}

/// The values of the function that the body of a for-all reads, if it reads one: in `for all u, f(ss) is not u or the rest is
/// true`, where u does not occur in ss, those of f at ss.
#[tactic(auto, using(crate::proofs::Readings::readings))]
pub(crate) fn read(
    alloc: Global,
    effort: &mut Effort,
    model: &Model,
    body: &Core,
    ts: &[Term],
) -> Result<Option<Items<Guard>>, Fault>
    ensures { IfOk result (λ o. IfSome o (IsRead model.now (form body.now) ts.now)) }
{
    let Ok(n) = u32::try_from(ts.len()) else {
        return Ok(None);
    };
    let Core::Or(members) = body else {
        return Ok(None);
    };
    let Some((first, _)) = members.as_slice().split_first() else {
        return Ok(None);
    };
    let Core::NotFun(f, us, u) = first else {
        return Ok(None);
    };
    if !is_name(alloc, u, n) {
        return Ok(None);
    }
    if !are_over(n, us.as_slice()) {
        return Ok(None);
    }
    let arguments = put_all(alloc, effort, ts, us.as_slice())?;
    Ok(Some(choices(alloc, effort, model, *f, arguments.as_slice())?))
}
