// Terms for numbers: where an assumption fails at numbers, its instance is made at terms that have these values.

use cdcl_forms::{Definition, List, Present, Term, Terms, Vocabulary};
use cdcl_fuel::{Fault, Fuel, small};

/// A term that is x now: an argument, or else a constant, or else the number.
pub(crate) fn term_with(
    words: &mut Vocabulary,
    present: &Present<'_>,
    x: i128,
    fuel: &mut Fuel,
) -> Result<Term, Fault> {
    for a in words.applications() {
        if let Some(t) = argument_with(words, a.arguments, present, x, fuel)? {
            return Ok(t);
        }
    }
    for p in 0..words.predicates() {
        for v in words.variables_of(p) {
            let Definition::Predicate(_, arguments) = words.definition(*v as usize)? else {
                return Err(Fault::Broken);
            };
            if let Some(t) = argument_with(words, arguments, present, x, fuel)? {
                return Ok(t);
            }
        }
    }
    fuel.spend(present.values.len() as u64)?;
    match present.values.iter().position(|value| *value == x) {
        Some(c) => words.terms.name(small(c)?),
        None => Ok(Terms::number(x)),
    }
}

/// The first term of a list that is x now and no number.
fn argument_with(
    words: &Vocabulary,
    list: List,
    present: &Present<'_>,
    x: i128,
    fuel: &mut Fuel,
) -> Result<Option<Term>, Fault> {
    for t in words.terms.list(list)? {
        fuel.spend(2)?;
        if t.linear != 0 && words.terms.value(*t, present.values)? == x {
            return Ok(Some(*t));
        }
    }
    Ok(None)
}
