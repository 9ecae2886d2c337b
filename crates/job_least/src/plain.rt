// Terms without calls, conditions, absolute values, minima and maxima, and the members of a sum.

ghost use Rattle.pri_typing.specs.WellFormed as formed;
ghost use Rattle.linear_term.specs.Range.{InRange};
ghost use Rattle.job_least.specs.Plain as plain;
ghost use Rattle.std.specs.Prelude.{◌≡◌};
ghost use Rattle.form_typed.specs.Formula.{expression, expressions_of};

use form_typed::TypedTerm;

/// Whether the term is built of numbers alone.
#[cycle(numeric)]
pub(crate) fn is_numeric(term: &TypedTerm) -> bool
    ensures { result ≡ formed.is_numeric (expression term.now) }
{
    match term {
        TypedTerm::Number(_) => true,
        TypedTerm::Name(_) => false,
        TypedTerm::Apply(_, _) => false,
        TypedTerm::Minus(t) => is_numeric(t.get()),
        TypedTerm::Sum(ts) => are_numeric(ts.as_slice()),
        TypedTerm::Product(s, t) => is_numeric(s.get()) && is_numeric(t.get()),
        TypedTerm::If(_, _, _) => false,
        TypedTerm::Abs(_) => false,
        TypedTerm::Min(_, _) => false,
        TypedTerm::Max(_, _) => false,
    }
}

#[cycle(numeric)]
fn are_numeric(terms: &[TypedTerm]) -> bool
    ensures { result ≡ formed.are_numeric (expressions_of terms.now) }
{
    for t in terms {
        if !is_numeric(t) {
            return false;
        }
    }
    true
}

/// Whether the term is without calls, conditions, absolute values, minima and maxima.
#[cycle(plain)]
pub fn is_plain(term: &TypedTerm) -> bool
    ensures { result ≡ plain.is_plain (expression term.now) }
{
    match term {
        TypedTerm::Number(_) => true,
        TypedTerm::Name(_) => true,
        TypedTerm::Apply(_, _) => false,
        TypedTerm::Minus(t) => is_plain(t.get()),
        TypedTerm::Sum(ts) => are_plain(ts.as_slice()),
        TypedTerm::Product(s, t) => is_plain(s.get()) && is_plain(t.get()),
        TypedTerm::If(_, _, _) => false,
        TypedTerm::Abs(_) => false,
        TypedTerm::Min(_, _) => false,
        TypedTerm::Max(_, _) => false,
    }
}

#[cycle(plain)]
fn are_plain(terms: &[TypedTerm]) -> bool
    ensures { result ≡ plain.are_plain (expressions_of terms.now) }
{
    for t in terms {
        if !is_plain(t) {
            return false;
        }
    }
    true
}

/// The factor of a member of a sum: −1 if it has a minus before it.
pub(crate) fn factor_of(term: &TypedTerm) -> i128
    ensures exact { result ≡ plain.factor_of (expression term.now) }
    ensures range { InRange result }
{
    match term {
        TypedTerm::Minus(_) => -1,
        TypedTerm::Number(_) => 1,
        TypedTerm::Name(_) => 1,
        TypedTerm::Apply(_, _) => 1,
        TypedTerm::Sum(_) => 1,
        TypedTerm::Product(_, _) => 1,
        TypedTerm::If(_, _, _) => 1,
        TypedTerm::Abs(_) => 1,
        TypedTerm::Min(_, _) => 1,
        TypedTerm::Max(_, _) => 1,
    }
}

/// The member of a sum without the minus before it.
pub(crate) fn without_minus(term: &TypedTerm) -> &TypedTerm
    ensures { expression result.now ≡ plain.without_minus (expression term.now) }
{
    match term {
        TypedTerm::Minus(t) => t.get(),
        TypedTerm::Number(_) => term,
        TypedTerm::Name(_) => term,
        TypedTerm::Apply(_, _) => term,
        TypedTerm::Sum(_) => term,
        TypedTerm::Product(_, _) => term,
        TypedTerm::If(_, _, _) => term,
        TypedTerm::Abs(_) => term,
        TypedTerm::Min(_, _) => term,
        TypedTerm::Max(_, _) => term,
    }
}
