// The size of a formula, counted in one pass.

ghost use Rattle.std.specs.Prelude.{◌≡◌};
ghost use Rattle.form_typed.specs.Formula.{formula, formulas_of, expression, expressions_of};
ghost use Rattle.smt_sizes.specs.Sizes as sizes;

use crate::size::{NOTHING, ONE, Size, above, beside};
use form_typed::{Typed, TypedTerm};

/// How large a formula is.
#[cycle(size)]
pub fn size_of(f: &Typed) -> Size
    ensures { result ≡ sizes.size (formula f.now) }
{
    match f {
        Typed::Truth(_) => ONE,
        Typed::Rel(_, s, t) => above(beside(term_size(s), term_size(t))),
        Typed::Pred(_, ts) => above(term_sizes(ts.as_slice())),
        Typed::Not(g) => above(size_of(g.get())),
        Typed::And(fs) => above(sizes_of(fs.as_slice())),
        Typed::Or(fs) => above(sizes_of(fs.as_slice())),
        Typed::Implies(g, h) => above(beside(size_of(g.get()), size_of(h.get()))),
        Typed::Iff(g, h) => above(beside(size_of(g.get()), size_of(h.get()))),
        Typed::Forall(_, g) => above(size_of(g.get())),
        Typed::Exists(_, g) => above(size_of(g.get())),
        Typed::Part(_, g) => above(size_of(g.get())),
    }
}

/// How large several formulas are together.
#[cycle(size)]
fn sizes_of(formulas: &[Typed]) -> Size
    ensures { result ≡ sizes.all_sizes (formulas_of formulas.now) }
{
    let mut all = NOTHING;
    let mut i = formulas.len();
    while i > 0 {
        i -= 1;
        all = beside(size_of(&formulas[i]), all);
    }
    all
}

/// How large a term is.
#[cycle(size)]
fn term_size(term: &TypedTerm) -> Size
    ensures { result ≡ sizes.term_size (expression term.now) }
{
    match term {
        TypedTerm::Number(_) => ONE,
        TypedTerm::Name(_) => ONE,
        TypedTerm::Apply(_, ts) => above(term_sizes(ts.as_slice())),
        TypedTerm::Minus(t) => above(term_size(t.get())),
        TypedTerm::Sum(ts) => above(term_sizes(ts.as_slice())),
        TypedTerm::Product(s, t) => above(beside(term_size(s.get()), term_size(t.get()))),
        TypedTerm::If(g, s, t) => {
            above(beside(
                size_of(g.get()),
                beside(term_size(s.get()), term_size(t.get())),
            ))
        }
        TypedTerm::Abs(t) => above(term_size(t.get())),
        TypedTerm::Min(s, t) => above(beside(term_size(s.get()), term_size(t.get()))),
        TypedTerm::Max(s, t) => above(beside(term_size(s.get()), term_size(t.get()))),
    }
}

/// How large several terms are together.
#[cycle(size)]
fn term_sizes(terms: &[TypedTerm]) -> Size
    ensures { result ≡ sizes.term_sizes (expressions_of terms.now) }
{
    let mut all = NOTHING;
    let mut i = terms.len();
    while i > 0 {
        i -= 1;
        all = beside(term_size(&terms[i]), all);
    }
    all
}
