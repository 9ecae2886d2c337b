// How large an encoding is, counted without building it: one pass over the formula, in which numbers stop at the greatest
// u64.

ghost use Rattle.std.specs.Prelude.{◌≡◌, length};
ghost use Rattle.form_typed.specs.Formula.{formula, formulas_of, expression, expressions_of};
ghost use Rattle.form_encoding.specs.Encoding.{bounds};
ghost use Rattle.form_encoding.specs.Extent as extents_of;
ghost use Rattle.function_encoding.specs.Counted.{counted};

use form_typed::Sort;
use formula::{Typed, TypedTerm};

/// Nodes and levels of a formula; 2^64 - 1 stands for any number from there on.
#[derive(Clone, Copy, Debug, PartialEq, Eq)]
pub struct Extent {
    pub nodes: u64,
    pub levels: u64,
}

/// That of no formula at all.
pub const NOTHING: Extent = Extent {
    nodes: 0,
    levels: 0,
};

/// That of an atom.
const LEAF: Extent = Extent {
    nodes: 1,
    levels: 1,
};

/// A formula beside others.
pub fn beside(a: Extent, b: Extent) -> Extent
    ensures { counted result ≡ extents_of.beside (counted a) (counted b) }
{
    Extent {
        nodes: a.nodes.saturating_add(b.nodes),
        levels: a.levels.max(b.levels),
    }
}

/// A node above its members.
pub fn above(a: Extent) -> Extent
    ensures { counted result ≡ extents_of.above (counted a) }
{
    let one: u64 = 1;
    Extent {
        nodes: one.saturating_add(a.nodes),
        levels: one.saturating_add(a.levels),
    }
}

/// A node above two members.
fn above_two(a: Extent, b: Extent) -> Extent
    ensures { counted result ≡ extents_of.above_two (counted a) (counted b) }
{
    above(beside(a, beside(b, NOTHING)))
}

/// A condition's two cases, with the rest in both.
fn in_both(condition: Extent, rest: Extent) -> Extent
    ensures { counted result ≡ extents_of.in_both (counted condition) (counted rest) }
{
    let case = above_two(condition, rest);
    above_two(case, case)
}

/// Formulas after the conditions of a type.
pub fn behind(sort: &Sort, e: Extent) -> Extent
    ensures { counted result ≡ extents_of.behind_atoms (length (bounds sort.now)) (counted e) }
{
    match sort {
        Sort::Int => e,
        Sort::Nat => beside(LEAF, e),
        Sort::Range(_, _) => beside(LEAF, beside(LEAF, e)),
    }
}

/// A formula in one connective with the conditions of a type, where it has any.
pub fn restricted(sort: &Sort, e: Extent) -> Extent
    ensures { counted result ≡ extents_of.restricted_extent (length (bounds sort.now)) (counted e) }
{
    match sort {
        Sort::Int => e,
        Sort::Nat => above(beside(LEAF, beside(e, NOTHING))),
        Sort::Range(_, _) => above(beside(LEAF, beside(LEAF, beside(e, NOTHING)))),
    }
}

/// The extent of the encoding of a formula, of either sign.
#[cycle(extent)]
pub fn extent_of(f: &Typed) -> Extent
    ensures { counted result ≡ extents_of.extent (formula f.now) }
{
    match f {
        Typed::Truth(_) => above(NOTHING),
        Typed::Rel(_, s, t) => extent_with(s, extent_with(t, LEAF)),
        Typed::Pred(_, ts) => extents_with(ts.as_slice(), LEAF),
        Typed::Not(g) => extent_of(g.get()),
        Typed::And(fs) => above(extents(fs.as_slice())),
        Typed::Or(fs) => above(extents(fs.as_slice())),
        Typed::Implies(g, h) => above_two(extent_of(g.get()), extent_of(h.get())),
        Typed::Iff(g, h) => in_both(extent_of(g.get()), extent_of(h.get())),
        Typed::Forall(sort, g) => above(restricted(sort, extent_of(g.get()))),
        Typed::Exists(sort, g) => above(restricted(sort, extent_of(g.get()))),
        Typed::Part(_, g) => extent_of(g.get()),
    }
}

/// Those of several formulas, beside each other.
#[cycle(extent)]
fn extents(formulas: &[Typed]) -> Extent
    ensures { counted result ≡ extents_of.extents (formulas_of formulas.now) }
{
    let mut all = NOTHING;
    let mut i = formulas.len();
    while i > 0 {
        i -= 1;
        all = beside(extent_of(&formulas[i]), all);
    }
    all
}

/// The extent of the rest, after a term.
#[cycle(extent)]
fn extent_with(term: &TypedTerm, rest: Extent) -> Extent
    ensures { counted result ≡ extents_of.extent_with (expression term.now) (counted rest) }
{
    match term {
        TypedTerm::Number(_) => rest,
        TypedTerm::Name(_) => rest,
        TypedTerm::Apply(_, ts) => extents_with(ts.as_slice(), above(above_two(LEAF, rest))),
        TypedTerm::Minus(t) => extent_with(t.get(), rest),
        TypedTerm::Sum(ts) => extents_with(ts.as_slice(), rest),
        TypedTerm::Product(s, t) => extent_with(s.get(), extent_with(t.get(), rest)),
        TypedTerm::If(g, s, t) => {
            let cases = in_both(extent_of(g.get()), rest);
            extent_with(s.get(), extent_with(t.get(), cases))
        }
        TypedTerm::Abs(t) => extent_with(t.get(), in_both(LEAF, rest)),
        TypedTerm::Min(s, t) => extent_with(s.get(), extent_with(t.get(), in_both(LEAF, rest))),
        TypedTerm::Max(s, t) => extent_with(s.get(), extent_with(t.get(), in_both(LEAF, rest))),
    }
}

/// The same after several terms, from the last one back.
#[cycle(extent)]
fn extents_with(terms: &[TypedTerm], rest: Extent) -> Extent
    ensures { counted result ≡ extents_of.extents_with (expressions_of terms.now) (counted rest) }
{
    let mut all = rest;
    let mut i = terms.len();
    while i > 0 {
        i -= 1;
        all = extent_with(&terms[i], all);
    }
    all
}
