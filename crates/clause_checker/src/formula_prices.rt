// The prices of terms and of formulas: numbers in proportion to what is read and written where terms are put for names.

ghost use Rattle.clause_checker.specs.Prices as prices;
ghost use Rattle.base_budget.specs.Trace.{capped};
ghost use Rattle.formula.specs.Tree.{form, forms_of};
ghost use Rattle.std.specs.List.{slice_get};
ghost use Rattle.std.specs.Prelude.{◌≡◌, ◌+◌, ◌++◌, ◌∷◌, [], suc, sum_by, IfOk};

use crate::formulas::single;
use formula::Core;
use linear_term::{Memory, Term};
use sqlite_items::{Items, at};
use std::alloc::Global;

/// How many names the term has.
pub(crate) fn width(t: &Term) -> u64
    ensures { result ≡ prices.width t.now }
{
    t.len() as u64
}

/// One more, but for the greatest number of 64 bits.
pub(crate) fn with_one(n: u64) -> u64
    ensures { result ≡ capped (suc n) }
{
    n.saturating_add(1)
}

/// The widths of the terms.
pub(crate) fn widths(alloc: Global, ts: &[Term]) -> Result<Items<u64>, Memory>
    ensures { IfOk result (λ ws. ws ≡ prices.widths ts.now) }
{
    let mut out = Items::new(alloc);
    for t in ts {
        out.push(width(t))?;
    }
    Ok(out)
}

/// Copies of the terms.
#[tactic(auto, using(crate::proofs::Prices::pricing))]
pub(crate) fn copies_price(ts: &[Term]) -> u64
    ensures { result ≡ capped (prices.copies_price ts.now) }
{
    let mut total: u64 = 0;
    for t in ts {
        total = total.saturating_add(with_one(width(t)));
    }
    total
}

/// Copies of terms with these widths.
#[tactic(auto, using(crate::proofs::Prices::pricing))]
pub(crate) fn widths_price(ws: &[u64]) -> u64
    ensures { result ≡ capped (prices.widths_price ws.now) }
{
    let mut total: u64 = 0;
    for w in ws {
        total = total.saturating_add(with_one(*w));
    }
    total
}

/// The width of the term for the name x.
#[tactic(auto, using(crate::proofs::Prices::found))]
fn width_at(ws: &[u64], x: u32) -> u64
    ensures { result ≡ prices.or_none (slice_get ws.now x) }
{
    match at(ws, x as usize) {
        None => 0,
        Some(w) => *w,
    }
}

/// The terms for these names, one after the other.
#[tactic(auto, using(crate::proofs::Prices::pricing))]
fn names_price(ws: &[u64], pairs: &[(u32, i128)]) -> u64
    ensures { result ≡ capped (sum_by (λ p. suc (prices.or_none (slice_get ws.now p.0))) pairs.now) }
{
    let mut total: u64 = 0;
    for pair in pairs {
        total = total.saturating_add(with_one(width_at(ws, pair.0)));
    }
    total
}

/// The product, but at most the greatest number of 64 bits.
#[tactic(auto, using(crate::proofs::Prices::products))]
fn put_price(ws: &[u64], t: &Term) -> u64
    ensures { result ≡ capped (prices.put_price ws.now t.now) }
{
    with_one(width(t)).saturating_mul(with_one(names_price(ws, t.pairs())))
}

/// Terms with terms for their names.
#[tactic(auto, using(crate::proofs::Prices::pricing))]
pub(crate) fn puts_price(ws: &[u64], ts: &[Term]) -> u64
    ensures { result ≡ capped (prices.puts_price ws.now ts.now) }
{
    let mut total: u64 = 0;
    for t in ts {
        total = total.saturating_add(put_price(ws, t));
    }
    total
}

/// The terms of an atom with terms for their names.
fn atom_price(ws: &[u64], f: &Core) -> u64
    ensures { result ≡ capped (prices.atom_price ws.now (form f.now)) }
{
    match f {
        Core::Eq(t) => put_price(ws, t),
        Core::Neq(t) => put_price(ws, t),
        Core::Geq(t) => put_price(ws, t),
        Core::Pred(_, ts) => puts_price(ws, ts.as_slice()),
        Core::NotPred(_, ts) => puts_price(ws, ts.as_slice()),
        Core::And(_) => 0,
        Core::Or(_) => 0,
        Core::NotFun(_, _, _) => 0,
        Core::Forall(_) => 0,
        Core::Exists(_) => 0,
    }
}

/// The literal of a formula.
#[tactic(auto, using(crate::proofs::Prices::literals))]
pub(crate) fn literal_price(ws: &[u64], f: &Core) -> u64
    ensures { result ≡ capped (prices.literal_price ws.now (form f.now)) }
{
    let mut levels: u64 = 0;
    let mut rest = f;
    while let Some(g) = single(rest) {
        levels = with_one(levels);
        rest = g;
    }
    levels.saturating_add(with_one(atom_price(ws, rest)))
}

/// The literals of the members of a conjunction or a disjunction.
#[tactic(auto, using(crate::proofs::Prices::members))]
fn members_price(ws: &[u64], fs: &[Core]) -> u64
    ensures { result ≡ capped (prices.members_price ws.now (forms_of fs.now)) }
{
    let mut total: u64 = 0;
    for f in fs {
        total = total.saturating_add(literal_price(ws, f));
    }
    total
}

/// The terms and a new name, and a body with them.
#[tactic(auto, using(crate::proofs::Prices::adding))]
fn body_price(mut ws: Items<u64>, body: &Core) -> Result<u64, Memory>
    ensures { IfOk result (λ n. n ≡ capped (prices.widths_price ws + prices.literal_price (ws ++ 1 ∷ []) (form body.now))) }
{
    let copies = widths_price(ws.as_slice());
    ws.push(1)?;
    Ok(copies.saturating_add(literal_price(ws.as_slice(), body)))
}

/// What is made of a closure that is opened.
pub(crate) fn open_price(ws: Items<u64>, f: &Core) -> Result<u64, Memory>
    ensures { IfOk result (λ n. n ≡ capped (prices.open_price ws (form f.now))) }
{
    match f {
        Core::And(fs) => Ok(members_price(ws.as_slice(), fs.as_slice())),
        Core::Or(fs) => Ok(members_price(ws.as_slice(), fs.as_slice())),
        Core::Forall(g) => body_price(ws, g.get()),
        Core::Exists(_) => Ok(0),
        Core::Eq(_) => Ok(0),
        Core::Neq(_) => Ok(0),
        Core::Geq(_) => Ok(0),
        Core::Pred(_, _) => Ok(0),
        Core::NotPred(_, _) => Ok(0),
        Core::NotFun(_, _, _) => Ok(0),
    }
}
