// What operators ask of their arguments (SMT-LIB 2.6, theories Core and Ints).

ghost use Rattle.smt_commands.specs.Least.{least_from};
ghost use Rattle.smt_typing.specs.Faults.{arity_faults, kind_faults, symbol_faults, takes, wants};
ghost use Rattle.smt_typing.specs.Sorts.{operator_sort};
ghost use Rattle.std.specs.Prelude.{◌≡◌, None};

use smt_commands::{ScriptRefusal, is_unlisted, sooner};
use smt_terms::{Operator, Sort};

/// The sorts that the arguments of a symbol need to have.
#[derive(Clone, Copy, Debug, PartialEq, Eq)]
pub enum Need {
    /// Each this one, or any.
    Each(Option<Sort>),
    /// Each that of the first.
    Alike,
    /// The first Bool, and each other one that of the second.
    Branches,
}

/// The sorts that the arguments of an operator need to have.
pub fn wants(operator: Operator) -> Need
    ensures { result ≡ wants operator }
{
    match operator {
        Operator::Truth(_) => Need::Each(None),
        Operator::Not | Operator::And | Operator::Or | Operator::Xor | Operator::Implies => {
            Need::Each(Some(Sort::Bool))
        }
        Operator::Equal | Operator::Distinct => Need::Alike,
        Operator::Choose => Need::Branches,
        Operator::Compare(_) | Operator::Plus | Operator::Minus | Operator::Times | Operator::Abs =>
            Need::Each(Some(Sort::Int)),
    }
}

/// Whether an operator takes this many arguments.
pub fn takes(operator: Operator, count: usize) -> bool
    ensures { result ≡ takes operator count }
{
    match operator {
        Operator::Truth(_) => count == 0,
        Operator::Not | Operator::Abs => count == 1,
        Operator::Choose => count == 3,
        Operator::And | Operator::Or | Operator::Plus | Operator::Minus => 1 <= count,
        Operator::Xor
        | Operator::Implies
        | Operator::Equal
        | Operator::Distinct
        | Operator::Compare(_)
        | Operator::Times => 2 <= count,
    }
}

/// The sort of an operator at this many arguments, the second of which has this sort.
pub fn operator_sort(operator: Operator, count: usize, second: Option<Sort>) -> Option<Sort>
    ensures { result ≡ operator_sort operator count second }
{
    match operator {
        Operator::Choose => if count == 3 { second } else { None },
        Operator::Plus | Operator::Minus | Operator::Times | Operator::Abs => Some(Sort::Int),
        Operator::Truth(_)
        | Operator::Not
        | Operator::And
        | Operator::Or
        | Operator::Xor
        | Operator::Implies
        | Operator::Equal
        | Operator::Distinct
        | Operator::Compare(_) => Some(Sort::Bool),
    }
}

/// The first of a fault and that of a wrong number of arguments.
pub fn with_arity_fault(found: Option<ScriptRefusal>, fits: bool, at: u64) -> Option<ScriptRefusal>
    ensures { result ≡ least_from found (arity_faults fits at) }
{
    if fits {
        return found;
    }
    Some(sooner(found, ScriptRefusal::Arity(at)))
}

/// The first of a fault and that of a symbol that nothing declares.
pub fn with_unknown_fault(
    found: Option<ScriptRefusal>,
    text: &[u8],
    at: u64,
    count: usize,
) -> Option<ScriptRefusal>
    ensures { result ≡ least_from found (symbol_faults None text.now at count) }
{
    if is_unlisted(text) {
        return Some(sooner(found, ScriptRefusal::Profile(at)));
    }
    Some(sooner(found, ScriptRefusal::Undeclared(at)))
}

/// The first of a fault and that of a term of the other sort than the one that is needed.
pub fn with_kind_fault(
    found: Option<ScriptRefusal>,
    want: Option<Sort>,
    is: Option<Sort>,
    at: u64,
) -> Option<ScriptRefusal>
    ensures { result ≡ least_from found (kind_faults want is at) }
{
    match (want, is) {
        (Some(Sort::Int), Some(Sort::Bool)) => Some(sooner(found, ScriptRefusal::Kind(at))),
        (Some(Sort::Bool), Some(Sort::Int)) => Some(sooner(found, ScriptRefusal::Kind(at))),
        (Some(Sort::Int), Some(Sort::Int)) => found,
        (Some(Sort::Bool), Some(Sort::Bool)) => found,
        (Some(_), None) => found,
        (None, _) => found,
    }
}
