// An S-expression once more.

ghost use Rattle.std.specs.Prelude.{◌≡◌, IfOk};

use linear_term::Memory;
use smt_lists::{Atom, AtomKind, Sexp};
use sqlite_items::Items;
use std::alloc::Global;

/// An S-expression once more.
#[cycle(copying)]
pub fn copy(alloc: Global, e: &Sexp) -> Result<Sexp, Memory>
    ensures { IfOk result (λ out. out ≡ e.now) }
{
    match e {
        Sexp::Atom(a) => Ok(Sexp::Atom(copy_atom(alloc, a)?)),
        Sexp::List(at, members) => Ok(Sexp::List(*at, copy_all(alloc, members.as_slice())?)),
    }
}

/// S-expressions once more.
#[cycle(copying)]
pub fn copy_all(alloc: Global, es: &[Sexp]) -> Result<Items<Sexp>, Memory>
    ensures { IfOk result (λ out. out ≡ es.now) }
{
    let mut out = Items::new(alloc);
    for e in es {
        out.push(copy(alloc, e)?)?;
    }
    Ok(out)
}

/// An atom once more.
pub fn copy_atom(alloc: Global, a: &Atom) -> Result<Atom, Memory>
    ensures { IfOk result (λ out. out ≡ a.now) }
{
    let kind = match &a.kind {
        AtomKind::Numeral(value) => AtomKind::Numeral(*value),
        AtomKind::LargeNumeral => AtomKind::LargeNumeral,
        AtomKind::Decimal => AtomKind::Decimal,
        AtomKind::Hash => AtomKind::Hash,
        AtomKind::StringLiteral(text) => {
            AtomKind::StringLiteral(Items::from_slice(alloc, text.as_slice())?)
        }
        AtomKind::Keyword(text) => AtomKind::Keyword(Items::from_slice(alloc, text.as_slice())?),
        AtomKind::Symbol(text) => AtomKind::Symbol(Items::from_slice(alloc, text.as_slice())?),
    };
    Ok(Atom { at: a.at, kind })
}
