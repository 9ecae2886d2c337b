// A formula or a term once more, with its names sent through a table.

ghost use Rattle.std.specs.Prelude.{◌≡◌, IfOk};
ghost use Rattle.form_typed.specs.Formula.{expression, expressions_of, formula, formulas_of};
ghost use Rattle.itp_sides.specs.Closing as closing;
ghost use Rattle.itp_sides.specs.Closing.{renamed_all, renamed_term, renamed_terms};
ghost use Rattle.pred_interpolant.specs.Copies.{sent};

use form_typed::{Typed, TypedTerm};
use linear_term::Memory;
use sqlite_items::{Boxed, Items};
use std::alloc::Global;

/// A name below the length of the table becomes its entry there, and one after it has this many more before it. No memory holds a
/// formula with so many quantifiers that a name leaves a `u32`.
fn send(table: &[u32], more: u32, x: u32) -> Result<u32, Memory>
    ensures { IfOk result (λ y. y ≡ sent table.now more x) }
{
    if (x as usize) < table.len() {
        return Ok(table[x as usize]);
    }
    match x.checked_add(more) {
        Some(y) => Ok(y),
        None => Err(Memory),
    }
}

/// The formula with its names sent through the table.
#[cycle(copy)]
pub fn renamed(alloc: Global, table: &[u32], more: u32, f: &Typed) -> Result<Typed, Memory>
    ensures { IfOk result (λ g. formula g ≡ closing.renamed (sent table.now more) (formula f.now)) }
{
    match f {
        Typed::Truth(b) => Ok(Typed::Truth(*b)),
        Typed::Rel(relation, s, t) => {
            let left = boxed_term(alloc, table, more, s)?;
            let right = renamed_one(alloc, table, more, t)?;
            Ok(Typed::Rel(*relation, left.into_inner(), right))
        }
        Typed::Pred(p, ts) => Ok(Typed::Pred(*p, all_terms(alloc, table, more, ts.as_slice())?)),
        Typed::Not(g) => Ok(Typed::Not(boxed(alloc, table, more, g.get())?)),
        Typed::And(fs) => Ok(Typed::And(all(alloc, table, more, fs.as_slice())?)),
        Typed::Or(fs) => Ok(Typed::Or(all(alloc, table, more, fs.as_slice())?)),
        Typed::Implies(g, h) => {
            let left = boxed(alloc, table, more, g.get())?;
            let right = boxed(alloc, table, more, h.get())?;
            Ok(Typed::Implies(left, right))
        }
        Typed::Iff(g, h) => {
            let left = boxed(alloc, table, more, g.get())?;
            let right = boxed(alloc, table, more, h.get())?;
            Ok(Typed::Iff(left, right))
        }
        Typed::Forall(sort, g) => Ok(Typed::Forall(*sort, boxed(alloc, table, more, g.get())?)),
        Typed::Exists(sort, g) => Ok(Typed::Exists(*sort, boxed(alloc, table, more, g.get())?)),
        Typed::Part(k, g) => Ok(Typed::Part(*k, boxed(alloc, table, more, g.get())?)),
    }
}

/// The term with its names sent through the table.
#[cycle(copy)]
fn renamed_one(alloc: Global, table: &[u32], more: u32, t: &TypedTerm) -> Result<TypedTerm, Memory>
    ensures { IfOk result (λ u. expression u ≡ renamed_term (sent table.now more) (expression t.now)) }
{
    match t {
        TypedTerm::Number(n) => Ok(TypedTerm::Number(*n)),
        TypedTerm::Name(x) => Ok(TypedTerm::Name(send(table, more, *x)?)),
        TypedTerm::Apply(f, ts) => {
            Ok(TypedTerm::Apply(*f, all_terms(alloc, table, more, ts.as_slice())?))
        }
        TypedTerm::Minus(s) => Ok(TypedTerm::Minus(boxed_term(alloc, table, more, s.get())?)),
        TypedTerm::Sum(ts) => Ok(TypedTerm::Sum(all_terms(alloc, table, more, ts.as_slice())?)),
        TypedTerm::Product(s, u) => {
            let left = boxed_term(alloc, table, more, s.get())?;
            let right = boxed_term(alloc, table, more, u.get())?;
            Ok(TypedTerm::Product(left, right))
        }
        TypedTerm::If(f, s, u) => {
            let condition = boxed(alloc, table, more, f.get())?;
            let left = boxed_term(alloc, table, more, s.get())?;
            let right = boxed_term(alloc, table, more, u.get())?;
            Ok(TypedTerm::If(condition, left, right))
        }
        TypedTerm::Abs(s) => Ok(TypedTerm::Abs(boxed_term(alloc, table, more, s.get())?)),
        TypedTerm::Min(s, u) => {
            let left = boxed_term(alloc, table, more, s.get())?;
            let right = boxed_term(alloc, table, more, u.get())?;
            Ok(TypedTerm::Min(left, right))
        }
        TypedTerm::Max(s, u) => {
            let left = boxed_term(alloc, table, more, s.get())?;
            let right = boxed_term(alloc, table, more, u.get())?;
            Ok(TypedTerm::Max(left, right))
        }
    }
}

#[cycle(copy)]
fn boxed(alloc: Global, table: &[u32], more: u32, f: &Typed) -> Result<Boxed<Typed>, Memory>
    ensures { IfOk result (λ g. formula g ≡ closing.renamed (sent table.now more) (formula f.now)) }
{
    Ok(Boxed::new(alloc, renamed(alloc, table, more, f)?)?)
}

#[cycle(copy)]
fn boxed_term(
    alloc: Global,
    table: &[u32],
    more: u32,
    t: &TypedTerm,
) -> Result<Boxed<TypedTerm>, Memory>
    ensures { IfOk result (λ u. expression u ≡ renamed_term (sent table.now more) (expression t.now)) }
{
    Ok(Boxed::new(alloc, renamed_one(alloc, table, more, t)?)?)
}

#[cycle(copy)]
fn all(alloc: Global, table: &[u32], more: u32, formulas: &[Typed]) -> Result<Items<Typed>, Memory>
    ensures { IfOk result (λ gs. formulas_of gs ≡ renamed_all (sent table.now more) (formulas_of formulas.now)) }
{
    let mut out = Items::new(alloc);
    for f in formulas {
        out.push(renamed(alloc, table, more, f)?)?;
    }
    Ok(out)
}

#[cycle(copy)]
fn all_terms(
    alloc: Global,
    table: &[u32],
    more: u32,
    terms: &[TypedTerm],
) -> Result<Items<TypedTerm>, Memory>
    ensures { IfOk result (λ us. expressions_of us ≡ renamed_terms (sent table.now more) (expressions_of terms.now)) }
{
    let mut out = Items::new(alloc);
    for t in terms {
        out.push(renamed_one(alloc, table, more, t)?)?;
    }
    Ok(out)
}
