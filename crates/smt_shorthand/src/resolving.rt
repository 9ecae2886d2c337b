// Commands in which Int and Bool stand in the place of sorts that come to them.

ghost use Rattle.smt_lists.specs.Expressions.{expr, exprs_of};
ghost use Rattle.smt_shorthand.specs.Resolving.{resolved, row_resolved, sort_resolved, symbol_at};
ghost use Rattle.std.specs.Prelude.{◌≡◌, IfOk, map};

use crate::copying::copy;
use crate::places::{Part, Row, behind, first};
use crate::sorts::{DefinedSort, Sense, read_sense};
use base_texts::Texts;
use linear_term::Memory;
use smt_commands::place;
use smt_lists::{Atom, AtomKind, Sexp};
use sqlite_items::Items;
use std::alloc::Global;

/// An S-expression, by its place, in which Int and Bool stand in the place of sorts that come to them.
#[cycle(resolving)]
pub fn resolve(alloc: Global, sorts: &[DefinedSort], part: Part, e: &Sexp) -> Result<Sexp, Memory>
    ensures { IfOk result (λ out. expr out ≡ resolved sorts.now part (expr e.now)) }
{
    match part {
        Part::Other => copy(alloc, e),
        Part::Sort => resolve_sort(alloc, sorts, e),
        Part::Members(row) => match e {
            Sexp::Atom(_) => copy(alloc, e),
            Sexp::List(at, members) => {
                let members = resolve_row(alloc, sorts, row, members.as_slice())?;
                Ok(Sexp::List(*at, members))
            }
        },
    }
}

/// The same for the members of a list.
#[cycle(resolving)]
fn resolve_row(
    alloc: Global,
    sorts: &[DefinedSort],
    row: Row,
    es: &[Sexp],
) -> Result<Items<Sexp>, Memory>
    ensures { IfOk result (λ out. map expr out ≡ row_resolved sorts.now row (exprs_of es.now)) }
{
    let mut out = Items::new(alloc);
    let mut row = row;
    for e in es {
        out.push(resolve(alloc, sorts, first(row), e)?)?;
        row = behind(row, e);
    }
    Ok(out)
}

/// Int or Bool in the place of a sort that comes to it.
fn resolve_sort(alloc: Global, sorts: &[DefinedSort], e: &Sexp) -> Result<Sexp, Memory>
    ensures { IfOk result (λ out. expr out ≡ sort_resolved sorts.now (expr e.now)) }
{
    match read_sense(alloc, sorts, &Texts::new(alloc), e)? {
        Sense::Int => symbol_at(alloc, place(e), b"Int".as_slice()),
        Sense::Bool => symbol_at(alloc, place(e), b"Bool".as_slice()),
        Sense::Parameter(_) | Sense::Other => copy(alloc, e),
    }
}

/// The symbol of this text, at this offset.
pub fn symbol_at(alloc: Global, at: u64, text: &[u8]) -> Result<Sexp, Memory>
    ensures { IfOk result (λ e. expr e ≡ symbol_at at text.now) }
{
    let kind = AtomKind::Symbol(Items::from_slice(alloc, text)?);
    Ok(Sexp::Atom(Atom { at, kind }))
}
