// The divisor of a literal.

ghost use Rattle.clause_set.specs.Order.{divisor_of};
ghost use Rattle.std.specs.Prelude.{◌≡◌};

use clause_set::Literal;

/// The divisor of a literal, 0 where it has none.
pub(crate) fn divisor(l: &Literal) -> i128
    ensures { result ≡ divisor_of l.now }
{
    match l {
        Literal::Eq(_) => 0,
        Literal::Geq(_) => 0,
        Literal::Div(d, _) => *d,
        Literal::NDiv(d, _) => *d,
    }
}
