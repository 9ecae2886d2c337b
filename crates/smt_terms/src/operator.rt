// The sorts and the operators of terms.

use form_typed::Relation;

/// What a term is: an integer, or true or false.
#[derive(Clone, Copy, Debug, PartialEq, Eq)]
pub enum Sort {
    Int,
    Bool,
}

/// The operators of the theories of SMT-LIB that terms may use: Core and Ints.
#[derive(Clone, Copy, Debug, PartialEq, Eq)]
pub enum Operator {
    /// `true`, `false`
    Truth(bool),
    /// `not`
    Not,
    /// `and`
    And,
    /// `or`
    Or,
    /// `xor`, grouped to the left
    Xor,
    /// `=>`, grouped to the right
    Implies,
    /// `=` of integers or of truths
    Equal,
    /// `distinct`, by pairs
    Distinct,
    /// `ite`
    Choose,
    /// `<`, `<=`, `>` and `>=`
    Compare(Relation),
    /// `+`
    Plus,
    /// `-` of one or of several
    Minus,
    /// `*`, grouped to the left
    Times,
    /// `abs`
    Abs,
}
