// Literals of each kind with a name.

ghost use Rattle.clause_set.specs.Names.{is_divisibility, is_equation, is_indivisibility};
ghost use Rattle.std.specs.Prelude.{◌≡◌};

use super::names::mentions;
use clause_set::Literal;

/// Whether the literal is an equation with x.
pub fn is_equation(l: &Literal, x: u32) -> bool
    ensures { result ≡ is_equation x l.now }
{
    match l {
        Literal::Eq(t) => mentions(t, x),
        Literal::Geq(_) => false,
        Literal::Div(_, _) => false,
        Literal::NDiv(_, _) => false,
    }
}

/// Whether the literal is a divisibility with x.
pub fn is_divisibility(l: &Literal, x: u32) -> bool
    ensures { result ≡ is_divisibility x l.now }
{
    match l {
        Literal::Eq(_) => false,
        Literal::Geq(_) => false,
        Literal::Div(_, t) => mentions(t, x),
        Literal::NDiv(_, _) => false,
    }
}

/// Whether the literal is a negated divisibility with x.
pub fn is_indivisibility(l: &Literal, x: u32) -> bool
    ensures { result ≡ is_indivisibility x l.now }
{
    match l {
        Literal::Eq(_) => false,
        Literal::Geq(_) => false,
        Literal::Div(_, _) => false,
        Literal::NDiv(_, t) => mentions(t, x),
    }
}
