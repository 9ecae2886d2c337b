// What a term becomes: a formula or a term of a problem.

ghost use Rattle.std.specs.Prelude.{◌≡◌, IfOk};
ghost use Rattle.form_typed.specs.Formula.{expression, formula};
ghost use Rattle.smt_terms.specs.Translation.{formula_in, term_in};
ghost use Rattle.smt_writing.specs.Written.{written};

use form_typed::{Typed, TypedTerm};
use linear_term::Memory;
use std::alloc::Global;

/// A formula or a term of a problem.
#[derive(Drop)]
pub enum Written {
    Formula(Typed),
    Term(TypedTerm),
}

/// The term once more; a formula counts as 0.
pub fn copy_term(alloc: Global, of: &Written) -> Result<TypedTerm, Memory>
    ensures { IfOk result (λ t. expression t ≡ term_in (written of.now)) }
{
    match of {
        Written::Formula(_) => Ok(TypedTerm::Number(0)),
        Written::Term(t) => t.copy(alloc),
    }
}

/// The formula; a term counts as false.
pub fn into_formula(of: Written) -> Typed
    ensures { formula result ≡ formula_in (written of) }
{
    match of {
        Written::Formula(f) => f,
        Written::Term(_) => Typed::Truth(false),
    }
}

/// The term; a formula counts as 0.
pub fn into_term(of: Written) -> TypedTerm
    ensures { expression result ≡ term_in (written of) }
{
    match of {
        Written::Formula(_) => TypedTerm::Number(0),
        Written::Term(t) => t,
    }
}
