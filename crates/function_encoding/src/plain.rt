// Terms without calls, conditions, absolute values, minima and maxima, and the sides of products.

ghost use Rattle.std.specs.Prelude.{◌≡◌};
ghost use Rattle.form_typed.specs.Formula.{expression, expressions_of};
ghost use Rattle.pri_typing.specs.WellFormed as formed;
ghost use Rattle.function_encoding.specs.Members as members;

use formula::TypedTerm;

/// Whether the term is built of numbers alone.
#[cycle(numeric)]
pub fn is_numeric(term: &TypedTerm) -> bool
    ensures { result ≡ formed.is_numeric (expression term.now) }
{
    match term {
        TypedTerm::Number(_) => true,
        TypedTerm::Name(_) => false,
        TypedTerm::Apply(_, _) => false,
        TypedTerm::Minus(t) => is_numeric(t.get()),
        TypedTerm::Sum(ts) => are_numeric(ts.as_slice()),
        TypedTerm::Product(s, t) => is_numeric(s.get()) && is_numeric(t.get()),
        TypedTerm::If(_, _, _) => false,
        TypedTerm::Abs(_) => false,
        TypedTerm::Min(_, _) => false,
        TypedTerm::Max(_, _) => false,
    }
}

#[cycle(numeric)]
fn are_numeric(terms: &[TypedTerm]) -> bool
    ensures { result ≡ formed.are_numeric (expressions_of terms.now) }
{
    for t in terms {
        if !is_numeric(t) {
            return false;
        }
    }
    true
}

/// Whether the member of a sum is subtracted.
pub fn is_subtracted(term: &TypedTerm) -> bool
    ensures { result ≡ members.is_subtracted (expression term.now) }
{
    match term {
        TypedTerm::Minus(_) => true,
        TypedTerm::Number(_) => false,
        TypedTerm::Name(_) => false,
        TypedTerm::Apply(_, _) => false,
        TypedTerm::Sum(_) => false,
        TypedTerm::Product(_, _) => false,
        TypedTerm::If(_, _, _) => false,
        TypedTerm::Abs(_) => false,
        TypedTerm::Min(_, _) => false,
        TypedTerm::Max(_, _) => false,
    }
}

/// The member of a sum without the minus before it.
pub fn without_minus(term: &TypedTerm) -> &TypedTerm
    ensures { expression result.now ≡ members.without_minus (expression term.now) }
{
    match term {
        TypedTerm::Minus(t) => t.get(),
        TypedTerm::Number(_) => term,
        TypedTerm::Name(_) => term,
        TypedTerm::Apply(_, _) => term,
        TypedTerm::Sum(_) => term,
        TypedTerm::Product(_, _) => term,
        TypedTerm::If(_, _, _) => term,
        TypedTerm::Abs(_) => term,
        TypedTerm::Min(_, _) => term,
        TypedTerm::Max(_, _) => term,
    }
}
