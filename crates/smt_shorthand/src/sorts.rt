// What sorts come to, where some are defined by others (SMT-LIB 2.6, section 4.2.3).

ghost use Rattle.base_texts.specs.Texts.{is_text};
ghost use Rattle.smt_commands.specs.Commands.{symbol_of};
ghost use Rattle.smt_lists.specs.Expressions.{expr, exprs_of};
ghost use Rattle.smt_shorthand.specs.Sorts.{alone, applied, chosen, has_other, sense_applied, sense_by, sense_named, sense_of, senses_of, sort_named};
ghost use Rattle.std.specs.Option.{option_copied};
ghost use Rattle.std.specs.Prelude.{◌≡◌, IfOk};

use base_texts::Texts;
use linear_term::Memory;
use smt_commands::symbol;
use smt_lists::Sexp;
use sqlite_items::Items;
use std::alloc::Global;

/// What a sort comes to.
#[derive(Clone, Copy, Debug, PartialEq, Eq)]
pub enum Sense {
    Int,
    Bool,
    /// The parameter at this place.
    Parameter(usize),
    /// Something else.
    Other,
}

/// A defined sort: its name, the number of its parameters, what it comes to, and the level at which it was defined.
#[derive(Drop)]
pub struct DefinedSort {
    pub text: Items<u8>,
    pub arity: usize,
    pub sense: Sense,
    pub level: u128,
}

/// What a sort comes to, under these names of parameters.
#[cycle(sensing)]
pub fn read_sense(
    alloc: Global,
    sorts: &[DefinedSort],
    parameters: &Texts,
    e: &Sexp,
) -> Result<Sense, Memory>
    ensures { IfOk result (λ s. s ≡ sense_of sorts.now parameters.now (expr e.now)) }
{
    match e {
        Sexp::Atom(_) => Ok(sense_headed(sorts, parameters, e, &[])),
        Sexp::List(_, members) => {
            let Some((head, rest)) = members.as_slice().split_first() else {
                return Ok(Sense::Other);
            };
            let arguments = read_senses(alloc, sorts, parameters, rest)?;
            Ok(sense_applied(sorts, parameters, head, arguments.as_slice()))
        }
    }
}

/// What sorts come to.
#[cycle(sensing)]
fn read_senses(
    alloc: Global,
    sorts: &[DefinedSort],
    parameters: &Texts,
    es: &[Sexp],
) -> Result<Items<Sense>, Memory>
    ensures { IfOk result (λ ss. ss ≡ senses_of sorts.now parameters.now (exprs_of es.now)) }
{
    let mut all = Items::new(alloc);
    for e in es {
        all.push(read_sense(alloc, sorts, parameters, e)?)?;
    }
    Ok(all)
}

/// What a symbol comes to, applied to what comes to these, at least one.
fn sense_applied(
    sorts: &[DefinedSort],
    parameters: &Texts,
    head: &Sexp,
    arguments: &[Sense],
) -> Sense
    ensures { result ≡ sense_applied sorts.now parameters.now (symbol_of (expr head.now)) arguments.now }
{
    if arguments.is_empty() {
        return Sense::Other;
    }
    sense_headed(sorts, parameters, head, arguments)
}

/// What a symbol comes to, applied to what comes to these.
fn sense_headed(
    sorts: &[DefinedSort],
    parameters: &Texts,
    head: &Sexp,
    arguments: &[Sense],
) -> Sense
    ensures { result ≡ sense_by sorts.now parameters.now (symbol_of (expr head.now)) arguments.now }
{
    match symbol(head) {
        Some(name) => sense_named(sorts, parameters, name.text, arguments),
        None => Sense::Other,
    }
}

/// What a name comes to, applied to what comes to these.
fn sense_named(sorts: &[DefinedSort], parameters: &Texts, text: &[u8], arguments: &[Sense]) -> Sense
    ensures { result ≡ sense_named sorts.now parameters.now text.now arguments.now }
{
    if let Some(place) = parameters.place(text) {
        return alone(Sense::Parameter(place), arguments);
    }
    if text == b"Int".as_slice() {
        return alone(Sense::Int, arguments);
    }
    if text == b"Bool".as_slice() {
        return alone(Sense::Bool, arguments);
    }
    match find_sort(sorts, text) {
        Some(sort) => applied(sort, arguments),
        None => Sense::Other,
    }
}

/// What a sort without parameters comes to, at these arguments.
fn alone(sense: Sense, arguments: &[Sense]) -> Sense
    ensures { result ≡ alone sense arguments.now }
{
    if arguments.is_empty() {
        sense
    } else {
        Sense::Other
    }
}

/// What a defined sort comes to, at these arguments.
fn applied(sort: &DefinedSort, arguments: &[Sense]) -> Sense
    ensures { result ≡ applied sort.now arguments.now }
{
    if arguments.len() != sort.arity || has_other(arguments) {
        return Sense::Other;
    }
    match sort.sense {
        Sense::Parameter(place) => match arguments.get(place) {
            Some(sense) => *sense,
            None => Sense::Other,
        },
        Sense::Int | Sense::Bool | Sense::Other => sort.sense,
    }
}

/// Whether some come to something else.
fn has_other(arguments: &[Sense]) -> bool
    ensures { result ≡ has_other arguments.now }
{
    for argument in arguments {
        if *argument == Sense::Other {
            return true;
        }
    }
    false
}

/// The defined sort of this name.
pub fn find_sort<'a>(sorts: &'a [DefinedSort], text: &[u8]) -> Option<&'a DefinedSort>
    ensures { option_copied result ≡ sort_named text.now sorts.now }
{
    for sort in sorts {
        if text == sort.text.as_slice() {
            return Some(sort);
        }
    }
    None
}
