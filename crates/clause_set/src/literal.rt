// Literals over linear terms.

ghost use Rattle.clause_set.specs.Literals.{term_of};
ghost use Rattle.clause_set.specs.Order.{divisor_of};
ghost use Rattle.linear_term.specs.Order.{linear_cmp};
ghost use Rattle.std.specs.Ordering.{int_cmp, ordering_then};
ghost use Rattle.std.specs.Prelude.{◌≡◌, IfOk};

use super::order::Ordered;
use linear_term::{Memory, Term};
use std::cmp::Ordering;

/// A literal over a linear term t.
#[derive(Drop)]
pub enum Literal {
    /// t = 0.
    Eq(Term),
    /// t ≥ 0.
    Geq(Term),
    /// The divisor, from 1 to 2^127 − 1, divides t.
    Div(i128, Term),
    /// The divisor, from 1 to 2^127 − 1, does not divide t.
    NDiv(i128, Term),
}

/// The normal form of a literal.
#[derive(Drop)]
pub enum Norm {
    True,
    False,
    Lit(Literal),
}

impl Literal {
    /// The term t.
    pub fn term(&self) -> &Term
        ensures { result.now ≡ term_of self.now }
    {
        match self {
            Literal::Eq(t) => t,
            Literal::Geq(t) => t,
            Literal::Div(_, t) => t,
            Literal::NDiv(_, t) => t,
        }
    }

    /// The divisor d, 0 where there is none.
    pub fn divisor(&self) -> i128
        ensures { result ≡ divisor_of self.now }
    {
        match self {
            Literal::Eq(_) => 0,
            Literal::Geq(_) => 0,
            Literal::Div(d, _) => *d,
            Literal::NDiv(d, _) => *d,
        }
    }

    /// An equal literal, or running out of memory.
    pub fn copy(&self) -> Result<Literal, Memory>
        ensures { IfOk result (λ l. l ≡ self.now) }
    {
        match self {
            Literal::Eq(t) => Ok(Literal::Eq(t.copy()?)),
            Literal::Geq(t) => Ok(Literal::Geq(t.copy()?)),
            Literal::Div(d, t) => Ok(Literal::Div(*d, t.copy()?)),
            Literal::NDiv(d, t) => Ok(Literal::NDiv(*d, t.copy()?)),
        }
    }
}

/// By divisor, then term.
fn compare_divisibilities(d: i128, s: &Term, e: i128, t: &Term) -> Ordering
    ensures { result ≡ ordering_then (int_cmp d e) (linear_cmp s.now t.now) }
{
    match d.cmp(&e) {
        Ordering::Less => Ordering::Less,
        Ordering::Equal => s.compare(t),
        Ordering::Greater => Ordering::Greater,
    }
}

impl Ordered for Literal {
    ghost use Rattle.clause_set.specs.Order.{literal_cmp};
    ghost use Rattle.clause_set.specs.Total.{literal_cmp-equal, literal_cmp-total};

    ghost cmp = { literal_cmp };

    ghost total = { literal_cmp-total };

    ghost same = { literal_cmp-equal };

    /// By kind (Eq, Geq, Div, NDiv), then divisor, then term.
    fn compare(&self, other: &Literal) -> Ordering {
        match self {
            Literal::Eq(s) => match other {
                Literal::Eq(t) => s.compare(t),
                Literal::Geq(_) => Ordering::Less,
                Literal::Div(_, _) => Ordering::Less,
                Literal::NDiv(_, _) => Ordering::Less,
            },
            Literal::Geq(s) => match other {
                Literal::Eq(_) => Ordering::Greater,
                Literal::Geq(t) => s.compare(t),
                Literal::Div(_, _) => Ordering::Less,
                Literal::NDiv(_, _) => Ordering::Less,
            },
            Literal::Div(d, s) => match other {
                Literal::Eq(_) => Ordering::Greater,
                Literal::Geq(_) => Ordering::Greater,
                Literal::Div(e, t) => compare_divisibilities(*d, s, *e, t),
                Literal::NDiv(_, _) => Ordering::Less,
            },
            Literal::NDiv(d, s) => match other {
                Literal::Eq(_) => Ordering::Greater,
                Literal::Geq(_) => Ordering::Greater,
                Literal::Div(_, _) => Ordering::Greater,
                Literal::NDiv(e, t) => compare_divisibilities(*d, s, *e, t),
            },
        }
    }
}
