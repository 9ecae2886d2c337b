// Marks of clauses: small sets of what their literals speak of, by which most clauses are seen not to cover one another.

ghost use Rattle.clause_set.specs.Marks.{mark, mark_of, marks, mixed, shade};
ghost use Rattle.std.specs.Prelude.{◌≡◌, ◌<◌, true, false};

use super::bounds::leads_negative;
use super::literal::Literal;

/// The marks of a clause's linear forms, by the sign of their first coefficients.
#[derive(Clone, Copy, Debug, PartialEq, Eq)]
pub(crate) struct Marks {
    pub own: u128,
    pub opposite: u128,
}

/// A number below 128 with one more coefficient mixed in, whatever its sign.
fn mixed(h: u64, pair: &(u32, i128)) -> u64
    requires { h < 128 }
    ensures exact { result ≡ mixed h pair.now }
    ensures less { result < 128 }
{
    let size = (pair.1.unsigned_abs() % 128) as u64;
    (h * 35 + pair.0 as u64 + size * 9) % 128
}

/// A number below 128 that the coefficients have in common with their opposite.
#[tactic(auto, using(crate::proofs::Marking::shading))]
fn shade(pairs: &[(u32, i128)]) -> u64
    ensures exact { result ≡ shade 0 pairs.now }
    ensures less { result < 128 }
{
    let mut found = 0u64;
    for pair in pairs {
        found = mixed(found, pair);
    }
    found
}

/// The set of that number alone.
#[tactic(auto, using(crate::proofs::Marking::single))]
fn mark(pairs: &[(u32, i128)]) -> u128
    ensures { result ≡ mark pairs.now }
{
    1u128 << shade(pairs)
}

/// The marks of one literal.
fn marks_of(l: &Literal) -> Marks
    ensures own { result.own ≡ mark_of false l.now }
    ensures opposite { result.opposite ≡ mark_of true l.now }
{
    let one = mark(l.term().pairs());
    let both = Marks {
        own: one,
        opposite: one,
    };
    match l {
        Literal::Eq(_) => both,
        Literal::Geq(t) => {
            if leads_negative(t.pairs()) {
                Marks {
                    own: 0,
                    opposite: one,
                }
            } else {
                Marks {
                    own: one,
                    opposite: 0,
                }
            }
        }
        Literal::Div(_, _) => both,
        Literal::NDiv(_, _) => both,
    }
}

/// The marks of the literals together.
#[tactic(auto, using(crate::proofs::Marking::marking))]
pub(crate) fn all_marks(ls: &[Literal]) -> Marks
    ensures own { result.own ≡ marks false ls.now }
    ensures opposite { result.opposite ≡ marks true ls.now }
{
    let mut all = Marks {
        own: 0,
        opposite: 0,
    };
    for l in ls {
        let more = marks_of(l);
        all = Marks {
            own: all.own | more.own,
            opposite: all.opposite | more.opposite,
        };
    }
    all
}
