// A `let` around a term without division and around what its quotients are.

ghost use Rattle.smt_division.specs.Terms.{in_let, let_around};
ghost use Rattle.smt_division.specs.Views.{reduct_is, reducts_are};
ghost use Rattle.smt_lists.specs.Expressions.{expr};
ghost use Rattle.std.specs.Prelude.{◌≡◌, ◌++◌, IfOk, map};

use crate::closing::{Reduced, ReducedAll, headed};
use crate::copies::{copy, copy_all};
use crate::made::two;
use linear_term::Memory;
use smt_lists::Sexp;
use sqlite_items::Items;
use std::alloc::Global;

/// The word `let` with the offset of its list and of the list of its bindings.
#[derive(Clone, Copy)]
pub struct Let<'a> {
    pub at: u64,
    pub head: &'a Sexp,
    pub bindings_at: u64,
}

/// A term in a `let` of these bindings.
fn in_let(alloc: Global, outer: Let<'_>, bindings: &[Sexp], term: Sexp) -> Result<Sexp, Memory>
    ensures { IfOk result (λ e. expr e ≡ in_let outer.entry.at (expr outer.entry.head.now) outer.entry.bindings_at (map expr bindings.now) (expr term)) }
{
    let bound = Sexp::List(outer.bindings_at, copy_all(alloc, bindings)?);
    headed(alloc, outer.at, outer.head, two(alloc, bound, term)?)
}

/// Each condition in a `let` of these bindings, after others.
fn with_conditions(
    alloc: Global,
    outer: Let<'_>,
    bindings: &[Sexp],
    first: Items<Sexp>,
    more: &[Sexp],
) -> Result<Items<Sexp>, Memory>
    ensures { IfOk result (λ es. map expr es ≡ map expr first ++ map (in_let outer.entry.at (expr outer.entry.head.now) outer.entry.bindings_at (map expr bindings.now)) (map expr more.now)) }
{
    let mut conditions = first;
    for condition in more {
        let copied = copy(alloc, condition)?;
        conditions.push(in_let(alloc, outer, bindings, copied)?)?;
    }
    Ok(conditions)
}

/// A `let` of these bindings around a term.
pub fn let_around(
    alloc: Global,
    outer: Let<'_>,
    bindings: ReducedAll,
    body: Reduced,
) -> Result<Reduced, Memory>
    ensures { IfOk result (λ p. reduct_is p ≡ let_around outer.entry.at (expr outer.entry.head.now) outer.entry.bindings_at (reducts_are bindings) (reduct_is body)) }
{
    let ReducedAll {
        terms,
        mut variables,
        conditions,
    } = bindings;
    let Reduced {
        term,
        variables: more,
        conditions: inner,
    } = body;
    variables.append(more)?;
    let conditions = with_conditions(alloc, outer, terms.as_slice(), conditions, inner.as_slice())?;
    let term = in_let(alloc, outer, terms.as_slice(), term)?;
    Ok(Reduced {
        term,
        variables,
        conditions,
    })
}
