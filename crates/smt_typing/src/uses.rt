// Whether a term uses a symbol.

ghost use Rattle.smt_terms.specs.Evaluation.{names_of, texts_of};
ghost use Rattle.smt_terms.specs.Term.{bindings_of, phrase, phrases_of};
ghost use Rattle.smt_typing.specs.Faults.{any_uses, bound_uses, uses};
ghost use Rattle.std.specs.Prelude.{◌≡◌};

use crate::bound::{is_binding, is_variable};
use smt_terms::{Binding, Term};

/// Whether a symbol stands in a term where nothing binds it.
#[cycle(uses)]
pub fn uses(text: &[u8], term: &Term) -> bool
    ensures { result ≡ uses text.now (phrase term.now) }
{
    match term {
        Term::Number(_, _) => false,
        Term::Large(_) => false,
        Term::Use(_, name, arguments) => {
            if text == name.text.as_slice() {
                return true;
            }
            any_uses(text, arguments.as_slice())
        }
        Term::Let(_, bindings, body) => {
            if binding_uses(text, bindings.as_slice()) {
                return true;
            }
            if is_binding(bindings.as_slice(), text) {
                return false;
            }
            uses(text, body.get())
        }
        Term::Quantified(_, _, variables, body) => {
            if is_variable(variables.as_slice(), text) {
                return false;
            }
            uses(text, body.get())
        }
        Term::Annotated(_, inner) => uses(text, inner.get()),
        Term::Ill(_) => false,
    }
}

/// Whether a symbol stands so in one of several terms.
#[cycle(uses)]
fn any_uses(text: &[u8], terms: &[Term]) -> bool
    ensures { result ≡ any_uses text.now (phrases_of terms.now) }
{
    for term in terms {
        if uses(text, term) {
            return true;
        }
    }
    false
}

/// Whether a symbol stands so in one of the terms that a `let` binds.
#[cycle(uses)]
fn binding_uses(text: &[u8], bindings: &[Binding]) -> bool
    ensures { result ≡ bound_uses text.now (bindings_of bindings.now) }
{
    for binding in bindings {
        if uses(text, &binding.term) {
            return true;
        }
    }
    false
}
