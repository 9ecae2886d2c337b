// Products: one argument at most may be other than built of numerals.

ghost use Rattle.smt_commands.specs.Least.{least_from};
ghost use Rattle.smt_terms.specs.Term.{phrase, phrases_of};
ghost use Rattle.smt_typing.specs.Faults.{are_numerals, is_numeral, is_sign, others, product_faults};
ghost use Rattle.std.specs.Prelude.{◌≡◌, ◌≤◌, length};

use smt_commands::{ScriptRefusal, sooner};
use smt_terms::{Operator, Term};

/// Whether a term is built of numerals, and of `+`, `-` and `*` at one argument or more, as it is written.
#[cycle(numerals)]
fn is_numeral(term: &Term) -> bool
    ensures { result ≡ is_numeral (phrase term.now) }
{
    match term {
        Term::Number(_, _) => true,
        Term::Large(_) => true,
        Term::Use(_, name, arguments) => {
            if !is_sign(name.text.as_slice()) {
                return false;
            }
            if arguments.len() == 0 {
                return false;
            }
            are_numerals(arguments.as_slice())
        }
        Term::Let(_, _, _) => false,
        Term::Quantified(_, _, _, _) => false,
        Term::Annotated(_, _) => false,
        Term::Ill(_) => false,
    }
}

/// Whether all are built so.
#[cycle(numerals)]
fn are_numerals(terms: &[Term]) -> bool
    ensures { result ≡ are_numerals (phrases_of terms.now) }
{
    for term in terms {
        if !is_numeral(term) {
            return false;
        }
    }
    true
}

/// Whether a name is `+`, `-` or `*`.
fn is_sign(text: &[u8]) -> bool
    ensures { result ≡ is_sign text.now }
{
    text == b"+".as_slice() || text == b"-".as_slice() || text == b"*".as_slice()
}

/// How many are not built so.
fn others(terms: &[Term]) -> usize
    ensures count { result ≡ others (phrases_of terms.now) }
    ensures within { result ≤ length terms.now }
{
    let mut count = 0;
    for term in terms {
        if !is_numeral(term) {
            count += 1;
        }
    }
    count
}

/// The first of a fault and that of a `*`, at this offset, with two arguments that are not built of numerals.
pub fn with_product_fault(
    found: Option<ScriptRefusal>,
    operator: Operator,
    at: u64,
    arguments: &[Term],
) -> Option<ScriptRefusal>
    ensures { result ≡ least_from found (product_faults operator at (phrases_of arguments.now)) }
{
    match operator {
        Operator::Times => {
            if 1 < others(arguments) {
                Some(sooner(found, ScriptRefusal::NonLinear(at)))
            } else {
                found
            }
        }
        Operator::Truth(_)
        | Operator::Not
        | Operator::And
        | Operator::Or
        | Operator::Xor
        | Operator::Implies
        | Operator::Equal
        | Operator::Distinct
        | Operator::Choose
        | Operator::Compare(_)
        | Operator::Plus
        | Operator::Minus
        | Operator::Abs => found,
    }
}
