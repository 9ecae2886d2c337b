// The operators by their names.

ghost use Rattle.smt_terms.specs.Operators.{operator_of};
ghost use Rattle.std.specs.Prelude.{◌≡◌};

use crate::operator::Operator;
use form_typed::Relation;

/// The operator of a name.
pub fn named_operator(text: &[u8]) -> Option<Operator>
    ensures { result ≡ operator_of text.now }
{
    if text == b"true".as_slice() {
        Some(Operator::Truth(true))
    } else if text == b"false".as_slice() {
        Some(Operator::Truth(false))
    } else if text == b"not".as_slice() {
        Some(Operator::Not)
    } else if text == b"and".as_slice() {
        Some(Operator::And)
    } else if text == b"or".as_slice() {
        Some(Operator::Or)
    } else if text == b"xor".as_slice() {
        Some(Operator::Xor)
    } else if text == b"=>".as_slice() {
        Some(Operator::Implies)
    } else if text == b"=".as_slice() {
        Some(Operator::Equal)
    } else if text == b"distinct".as_slice() {
        Some(Operator::Distinct)
    } else if text == b"ite".as_slice() {
        Some(Operator::Choose)
    } else if text == b"<".as_slice() {
        Some(Operator::Compare(Relation::Lt))
    } else if text == b"<=".as_slice() {
        Some(Operator::Compare(Relation::Leq))
    } else if text == b">".as_slice() {
        Some(Operator::Compare(Relation::Gt))
    } else if text == b">=".as_slice() {
        Some(Operator::Compare(Relation::Geq))
    } else if text == b"+".as_slice() {
        Some(Operator::Plus)
    } else if text == b"-".as_slice() {
        Some(Operator::Minus)
    } else if text == b"*".as_slice() {
        Some(Operator::Times)
    } else if text == b"abs".as_slice() {
        Some(Operator::Abs)
    } else {
        None
    }
}
