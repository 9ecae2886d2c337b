// A formula or term once more. Rust's `Clone` cannot refuse memory, so these are calls of their own.

ghost use Rattle.std.specs.Prelude.{◌≡◌, IfOk};

use crate::typed::{Typed, TypedTerm};
use linear_term::Memory;
use sqlite_items::{Boxed, Items};
use std::alloc::Global;

impl Typed {
    /// The same formula once more.
    #[cycle(copy)]
    pub fn copy(&self, alloc: Global) -> Result<Typed, Memory>
        ensures { IfOk result (λ f. f ≡ self.now) }
    {
        match self {
            Typed::Truth(b) => Ok(Typed::Truth(*b)),
            Typed::Rel(relation, s, t) => {
                let left = copy_term(alloc, s)?;
                let right = t.copy(alloc)?;
                Ok(Typed::Rel(*relation, left.into_inner(), right))
            }
            Typed::Pred(p, ts) => Ok(Typed::Pred(*p, copy_terms(alloc, ts.as_slice())?)),
            Typed::Not(f) => Ok(Typed::Not(copy_formula(alloc, f.get())?)),
            Typed::And(fs) => Ok(Typed::And(copy_formulas(alloc, fs.as_slice())?)),
            Typed::Or(fs) => Ok(Typed::Or(copy_formulas(alloc, fs.as_slice())?)),
            Typed::Implies(f, g) => {
                let left = copy_formula(alloc, f.get())?;
                let right = copy_formula(alloc, g.get())?;
                Ok(Typed::Implies(left, right))
            }
            Typed::Iff(f, g) => {
                let left = copy_formula(alloc, f.get())?;
                let right = copy_formula(alloc, g.get())?;
                Ok(Typed::Iff(left, right))
            }
            Typed::Forall(sort, f) => Ok(Typed::Forall(*sort, copy_formula(alloc, f.get())?)),
            Typed::Exists(sort, f) => Ok(Typed::Exists(*sort, copy_formula(alloc, f.get())?)),
            Typed::Part(k, f) => Ok(Typed::Part(*k, copy_formula(alloc, f.get())?)),
        }
    }
}

impl TypedTerm {
    /// The same term once more.
    #[cycle(copy)]
    pub fn copy(&self, alloc: Global) -> Result<TypedTerm, Memory>
        ensures { IfOk result (λ t. t ≡ self.now) }
    {
        match self {
            TypedTerm::Number(n) => Ok(TypedTerm::Number(*n)),
            TypedTerm::Name(x) => Ok(TypedTerm::Name(*x)),
            TypedTerm::Apply(f, ts) => Ok(TypedTerm::Apply(*f, copy_terms(alloc, ts.as_slice())?)),
            TypedTerm::Minus(t) => Ok(TypedTerm::Minus(copy_term(alloc, t.get())?)),
            TypedTerm::Sum(ts) => Ok(TypedTerm::Sum(copy_terms(alloc, ts.as_slice())?)),
            TypedTerm::Product(s, t) => {
                let left = copy_term(alloc, s.get())?;
                let right = copy_term(alloc, t.get())?;
                Ok(TypedTerm::Product(left, right))
            }
            TypedTerm::If(f, s, t) => {
                let condition = copy_formula(alloc, f.get())?;
                let left = copy_term(alloc, s.get())?;
                let right = copy_term(alloc, t.get())?;
                Ok(TypedTerm::If(condition, left, right))
            }
            TypedTerm::Abs(t) => Ok(TypedTerm::Abs(copy_term(alloc, t.get())?)),
            TypedTerm::Min(s, t) => {
                let left = copy_term(alloc, s.get())?;
                let right = copy_term(alloc, t.get())?;
                Ok(TypedTerm::Min(left, right))
            }
            TypedTerm::Max(s, t) => {
                let left = copy_term(alloc, s.get())?;
                let right = copy_term(alloc, t.get())?;
                Ok(TypedTerm::Max(left, right))
            }
        }
    }
}

#[cycle(copy)]
fn copy_formula(alloc: Global, formula: &Typed) -> Result<Boxed<Typed>, Memory>
    ensures { IfOk result (λ f. f ≡ formula.now) }
{
    Ok(Boxed::new(alloc, formula.copy(alloc)?)?)
}

#[cycle(copy)]
fn copy_term(alloc: Global, term: &TypedTerm) -> Result<Boxed<TypedTerm>, Memory>
    ensures { IfOk result (λ t. t ≡ term.now) }
{
    Ok(Boxed::new(alloc, term.copy(alloc)?)?)
}

#[cycle(copy)]
fn copy_formulas(alloc: Global, formulas: &[Typed]) -> Result<Items<Typed>, Memory>
    ensures { IfOk result (λ fs. fs ≡ formulas.now) }
{
    let mut out = Items::new(alloc);
    for f in formulas {
        out.push(f.copy(alloc)?)?;
    }
    Ok(out)
}

#[cycle(copy)]
fn copy_terms(alloc: Global, terms: &[TypedTerm]) -> Result<Items<TypedTerm>, Memory>
    ensures { IfOk result (λ ts. ts ≡ terms.now) }
{
    let mut out = Items::new(alloc);
    for t in terms {
        out.push(t.copy(alloc)?)?;
    }
    Ok(out)
}
