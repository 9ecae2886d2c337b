// The term that an S-expression says. Calls nest along the levels of the S-expression alone: a list is gone through in a loop.

ghost use Rattle.smt_commands.specs.Commands.{is_keyword};
ghost use Rattle.smt_commands.specs.Views.{symbol_is};
ghost use Rattle.smt_terms.specs.Term.{bound, phrase, phrases_of};
ghost use Rattle.smt_typing.specs.Reading.{are_attributes, are_proper, atom_phrase, bindings_in, bound_read, let_of, name_is, note_of, phrase_of, phrases_in, quantified_of, variable_of, variables_of};
ghost use Rattle.smt_lists.specs.Expressions.{expr, exprs_of};
ghost use Rattle.std.specs.Option.{option_map};
ghost use Rattle.std.specs.Prelude.{◌≡◌, IfOk, map};

use crate::forms::{Head, head_named};
use base_texts::Texts;
use linear_term::Memory;
use smt_commands::{Name as Symbol, is_keyword, members, place, read_sort, symbol};
use smt_lists::{Atom, AtomKind, Sexp};
use smt_terms::{Binding, Name, Sort, Term, Variable};
use sqlite_items::{Boxed, Items};
use std::alloc::Global;

/// The term that an S-expression is.
#[cycle(reading)]
pub fn read_term(alloc: Global, e: &Sexp) -> Result<Term, Memory>
    ensures { IfOk result (λ t. phrase t ≡ phrase_of (expr e.now)) }
{
    match e {
        Sexp::Atom(a) => read_atom(alloc, a),
        Sexp::List(at, members) => {
            let Some((head, rest)) = members.as_slice().split_first() else {
                return Ok(Term::Ill(*at));
            };
            let Some(name) = symbol(head) else {
                return Ok(Term::Ill(*at));
            };
            match head_named(name.text) {
                Head::Let => read_let(alloc, *at, rest),
                Head::Forall => read_quantified(alloc, *at, true, rest),
                Head::Exists => read_quantified(alloc, *at, false, rest),
                Head::Note => read_note(alloc, *at, rest),
                Head::Other => Ok(Term::Ill(*at)),
                Head::Use => Ok(Term::Use(*at, own(alloc, name)?, read_all(alloc, rest)?)),
            }
        }
    }
}

/// The terms that S-expressions are.
#[cycle(reading)]
fn read_all(alloc: Global, es: &[Sexp]) -> Result<Items<Term>, Memory>
    ensures { IfOk result (λ ts. phrases_of ts ≡ phrases_in (exprs_of es.now)) }
{
    let mut terms = Items::new(alloc);
    for e in es {
        terms.push(read_term(alloc, e)?)?;
    }
    Ok(terms)
}

/// The `let` at this offset whose word these follow.
#[cycle(reading)]
fn read_let(alloc: Global, at: u64, rest: &[Sexp]) -> Result<Term, Memory>
    ensures { IfOk result (λ t. phrase t ≡ let_of at (exprs_of rest.now)) }
{
    let Some((first, behind)) = rest.split_first() else {
        return Ok(Term::Ill(at));
    };
    let Some((body, end)) = behind.split_first() else {
        return Ok(Term::Ill(at));
    };
    if !end.is_empty() {
        return Ok(Term::Ill(at));
    }
    let Sexp::List(_, pairs) = first else {
        return Ok(Term::Ill(at));
    };
    let Some(bindings) = read_bindings(alloc, pairs.as_slice())? else {
        return Ok(Term::Ill(at));
    };
    if !are_proper(alloc, bindings.as_slice())? {
        return Ok(Term::Ill(at));
    }
    let body = Boxed::new(alloc, read_term(alloc, body)?)?;
    Ok(Term::Let(at, bindings, body))
}

/// The bindings that S-expressions are, if all are some.
#[cycle(reading)]
fn read_bindings(alloc: Global, pairs: &[Sexp]) -> Result<Option<Items<Binding>>, Memory>
    ensures { IfOk result (λ bs. option_map (map bound) bs ≡ bindings_in (exprs_of pairs.now)) }
{
    let mut bindings = Items::new(alloc);
    for pair in pairs {
        let Some(binding) = read_binding(alloc, pair)? else {
            return Ok(None);
        };
        bindings.push(binding)?;
    }
    Ok(Some(bindings))
}

/// The binding that a list of a symbol and a term is.
#[cycle(reading)]
fn read_binding(alloc: Global, pair: &Sexp) -> Result<Option<Binding>, Memory>
    ensures { IfOk result (λ b. option_map bound b ≡ bound_read (expr pair.now)) }
{
    let Sexp::List(_, members) = pair else {
        return Ok(None);
    };
    let Some((first, behind)) = members.as_slice().split_first() else {
        return Ok(None);
    };
    let Some((term, end)) = behind.split_first() else {
        return Ok(None);
    };
    let Some(name) = symbol(first) else {
        return Ok(None);
    };
    if !end.is_empty() {
        return Ok(None);
    }
    let text = Items::from_slice(alloc, name.text)?;
    let term = read_term(alloc, term)?;
    Ok(Some(Binding { text, term }))
}

/// The quantifier at this offset whose word these follow.
#[cycle(reading)]
fn read_quantified(alloc: Global, at: u64, all: bool, rest: &[Sexp]) -> Result<Term, Memory>
    ensures { IfOk result (λ t. phrase t ≡ quantified_of at all (exprs_of rest.now)) }
{
    let Some((first, behind)) = rest.split_first() else {
        return Ok(Term::Ill(at));
    };
    let Some((body, end)) = behind.split_first() else {
        return Ok(Term::Ill(at));
    };
    if !end.is_empty() {
        return Ok(Term::Ill(at));
    }
    let Some(pairs) = members(first) else {
        return Ok(Term::Ill(at));
    };
    let Some(variables) = read_variables(alloc, pairs)? else {
        return Ok(Term::Ill(at));
    };
    if variables.is_empty() {
        return Ok(Term::Ill(at));
    }
    let body = Boxed::new(alloc, read_term(alloc, body)?)?;
    Ok(Term::Quantified(at, all, variables, body))
}

/// The `!` at this offset that these follow.
#[cycle(reading)]
fn read_note(alloc: Global, at: u64, rest: &[Sexp]) -> Result<Term, Memory>
    ensures { IfOk result (λ t. phrase t ≡ note_of at (exprs_of rest.now)) }
{
    let Some((inner, attributes)) = rest.split_first() else {
        return Ok(Term::Ill(at));
    };
    if !are_attributes(attributes) {
        return Ok(Term::Ill(at));
    }
    let inner = Boxed::new(alloc, read_term(alloc, inner)?)?;
    Ok(Term::Annotated(at, inner))
}

/// The term that an atom is.
fn read_atom(alloc: Global, a: &Atom) -> Result<Term, Memory>
    ensures { IfOk result (λ t. phrase t ≡ atom_phrase a.now.at a.now.kind) }
{
    match &a.kind {
        AtomKind::Numeral(value) => Ok(Term::Number(a.at, *value)),
        AtomKind::LargeNumeral => Ok(Term::Large(a.at)),
        AtomKind::Symbol(text) => {
            let name = Name {
                at: a.at,
                text: Items::from_slice(alloc, text.as_slice())?,
            };
            Ok(Term::Use(a.at, name, Items::new(alloc)))
        }
        AtomKind::Decimal | AtomKind::Hash | AtomKind::StringLiteral(_) | AtomKind::Keyword(_) => {
            Ok(Term::Ill(a.at))
        }
    }
}

/// A symbol with its own text.
fn own(alloc: Global, name: Symbol<'_>) -> Result<Name, Memory>
    ensures { IfOk result (λ x. x ≡ name_is (symbol_is name.entry)) }
{
    Ok(Name {
        at: name.at,
        text: Items::from_slice(alloc, name.text)?,
    })
}

/// Whether a `let` may have these bindings: at least one, of different symbols.
fn are_proper(alloc: Global, bindings: &[Binding]) -> Result<bool, Memory>
    ensures { IfOk result (λ b. b ≡ are_proper (map bound bindings.now)) }
{
    if bindings.is_empty() {
        return Ok(false);
    }
    let mut seen = Texts::new(alloc);
    for binding in bindings {
        if !seen.add(alloc, binding.text.as_slice())? {
            return Ok(false);
        }
    }
    Ok(true)
}

/// The variables that S-expressions are, if all are some: lists of a symbol and of what stands for its sort.
pub fn read_variables(alloc: Global, pairs: &[Sexp]) -> Result<Option<Items<Variable>>, Memory>
    ensures { IfOk result (λ xs. xs ≡ variables_of (map expr pairs.now)) }
{
    let mut variables = Items::new(alloc);
    for pair in pairs {
        let Some(variable) = read_variable(alloc, pair)? else {
            return Ok(None);
        };
        variables.push(variable)?;
    }
    Ok(Some(variables))
}

/// The variable that a list of a symbol and of what stands for its sort is.
fn read_variable(alloc: Global, pair: &Sexp) -> Result<Option<Variable>, Memory>
    ensures { IfOk result (λ x. x ≡ variable_of (expr pair.now)) }
{
    let Some(pair) = members(pair) else {
        return Ok(None);
    };
    let Some((first, behind)) = pair.split_first() else {
        return Ok(None);
    };
    let Some((sort, end)) = behind.split_first() else {
        return Ok(None);
    };
    let Some(name) = symbol(first) else {
        return Ok(None);
    };
    if !end.is_empty() {
        return Ok(None);
    }
    let ill = match read_sort(sort) {
        Some(Sort::Int) => None,
        Some(Sort::Bool) | None => Some(place(sort)),
    };
    let text = Items::from_slice(alloc, name.text)?;
    Ok(Some(Variable { text, ill }))
}

/// Whether these are attributes: keywords, at least one, each followed by at most one S-expression that is no keyword.
fn are_attributes(es: &[Sexp]) -> bool
    ensures { result ≡ are_attributes (map expr es.now) }
{
    if es.is_empty() {
        return false;
    }
    let mut value = false;
    let mut rest = es;
    while let Some((e, behind)) = rest.split_first() {
        if is_keyword(e) {
            value = true;
        } else if value {
            value = false;
        } else {
            return false;
        }
        rest = behind;
    }
    true
}
