// The bound names where a term stands, and their sorts.

ghost use Rattle.smt_terms.specs.Evaluation.{names_of, texts_of};
ghost use Rattle.smt_terms.specs.Operators.{found};
ghost use Rattle.smt_terms.specs.Term.{bindings_of};
ghost use Rattle.smt_typing.specs.Bounds.{last_of, sorts_at};
ghost use Rattle.std.specs.Prelude.{◌≡◌};
ghost use Rattle.base_texts.specs.Texts.{is_among};

use smt_commands::{ScriptRefusal, Table};
use smt_terms::{Binding, Sort, Variable};

/// The bound names at a place, the innermost first.
#[derive(Clone, Copy)]
pub enum Bound<'a> {
    Nothing,
    /// Variables of the sort Int, and those around them.
    Variables(&'a [Variable], &'a Bound<'a>),
    /// The symbols that a `let` binds, with the sorts of their terms, and those around it.
    Let(&'a [Binding], &'a [Option<Sort>], &'a Bound<'a>),
}

/// A place of a term: the symbols of the script before it, and the bound names there.
#[derive(Clone, Copy)]
pub struct Site<'a> {
    pub table: &'a Table,
    pub bound: &'a Bound<'a>,
}

/// The first fault so far, and the sort of a term.
#[derive(Clone, Copy, Debug, PartialEq, Eq)]
pub struct Judged {
    pub found: Option<ScriptRefusal>,
    pub sort: Option<Sort>,
}

/// The sort of the innermost bound name of this text, if one is bound; that of a term with a fault may be none.
pub fn sort_at(bound: &Bound, text: &[u8]) -> Option<Option<Sort>>
    ensures { result ≡ found text.now (sorts_at bound.now) }
{
    match bound {
        Bound::Nothing => None,
        Bound::Variables(variables, outer) => {
            if is_variable(variables, text) {
                return Some(Some(Sort::Int));
            }
            sort_at(outer, text)
        }
        Bound::Let(bindings, sorts, outer) => {
            last_sort(sort_at(outer, text), bindings, sorts, text)
        }
    }
}

/// Whether a variable has this text.
pub fn is_variable(variables: &[Variable], text: &[u8]) -> bool
    ensures { result ≡ is_among text.now (texts_of variables.now) }
{
    for variable in variables {
        if text == variable.text.as_slice() {
            return true;
        }
    }
    false
}

/// Whether a binding binds this text.
pub fn is_binding(bindings: &[Binding], text: &[u8]) -> bool
    ensures { result ≡ is_among text.now (names_of (bindings_of bindings.now)) }
{
    for binding in bindings {
        if text == binding.text.as_slice() {
            return true;
        }
    }
    false
}

/// The sort of the last binding of this text, given that of the bound names around.
fn last_sort(
    outside: Option<Option<Sort>>,
    bindings: &[Binding],
    sorts: &[Option<Sort>],
    text: &[u8],
) -> Option<Option<Sort>>
    ensures { result ≡ last_of text.now outside (names_of (bindings_of bindings.now)) sorts.now }
{
    let mut hit = outside;
    for i in 0..bindings.len() {
        if i < sorts.len() && text == bindings[i].text.as_slice() {
            hit = Some(sorts[i]);
        }
    }
    hit
}
