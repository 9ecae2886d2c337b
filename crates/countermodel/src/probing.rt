// The values of the existential constants with which a counterexample is sought.

ghost use Rattle.countermodel.specs.Probes.{nearest, probe_value, probe_values};
ghost use Rattle.std.specs.Prelude.{◌≡◌, IfOk};

use form_typed::Sort;
use linear_term::Memory;
use pri_typing::Problem;
use sqlite_items::Items;
use std::alloc::Global;

/// Of the integers from a to b, where there is one, the nearest to 0.
fn nearest(a: i128, b: i128) -> i128
    ensures { result ≡ nearest a b }
{
    if 0 < a {
        a
    } else if b < 0 {
        b
    } else {
        0
    }
}

/// The value of the type that is nearest to 0, if it has a value.
fn probe_value(sort: Sort) -> Option<i128>
    ensures { result ≡ probe_value sort }
{
    match sort {
        Sort::Int | Sort::Nat => Some(0),
        Sort::Range(a, b) => { if b < a { None } else { Some(nearest(a, b)) } }
    }
}

/// For each existential constant the value of its type that has the least absolute value; None exactly where one of their types
/// has no value.
pub fn probe(alloc: Global, p: &Problem) -> Result<Option<Items<i128>>, Memory>
    ensures { IfOk result (λ o. o ≡ probe_values p.now.existential_types) }
{
    let mut values = Items::new(alloc);
    let mut rest = p.existential_types.as_slice();
    while let Some((sort, more)) = rest.split_first() {
        match probe_value(*sort) {
            Some(v) => values.push(v)?,
            None => return Ok(None),
        }
        rest = more;
    }
    Ok(Some(values))
}
