// The text of a literal over the constants of a problem.

ghost use Rattle.std.specs.Prelude.{◌≡◌, ◌++◌, length, OnOk, unsigned_abs};
ghost use Rattle.std.specs.Fmt.{decimal};
ghost use Rattle.pri_printer.specs.Names.{IsVariableBelow, LiteralNames, PairNames};
ghost use Rattle.pri_printer.specs.Printed.{constants_of};
ghost use Rattle.pri_printer.specs.Text.{divides_text, literal_text};

use crate::term::{put_number, put_term};
use clause_set::Literal;
use linear_term::{Memory, Term};
use pri_typing::Problem;
use std::alloc::Global;

fn put_divisor(alloc: Global, d: &i128, out: &mut Vec<u8>) -> Result<(), Memory>
    ensures { OnOk result (out.new.items ≡ out.old.items ++ decimal (unsigned_abs d.now)) }
{
    let divisor = *d;
    put_number(alloc, divisor.unsigned_abs(), out)
}

/// Puts a divisibility, with the name k for its quotient, after a text.
fn put_divides(
    alloc: Global,
    p: &Problem,
    k: &[u8],
    d: &i128,
    t: &Term,
    out: &mut Vec<u8>,
) -> Result<(), Memory>
    requires { PairNames (IsVariableBelow (length (constants_of p.now))) t.now.pairs }
    ensures { OnOk result (out.new.items ≡ out.old.items ++ divides_text (constants_of p.now) k.now d.now t.now) }
{
    out.extend_from_slice(b"\\exists int ")?;
    out.extend_from_slice(k)?;
    out.extend_from_slice(b"; ")?;
    put_term(alloc, p, t, out)?;
    out.extend_from_slice(b" = ")?;
    put_divisor(alloc, d, out)?;
    out.extend_from_slice(b"*")?;
    out.extend_from_slice(k)?;
    Ok(())
}

/// Puts a literal, with the name k for the quotient of a divisibility, after a text.
pub(crate) fn put_literal(
    alloc: Global,
    p: &Problem,
    k: &[u8],
    l: &Literal,
    out: &mut Vec<u8>,
) -> Result<(), Memory>
    requires { LiteralNames (IsVariableBelow (length (constants_of p.now))) l.now }
    ensures { OnOk result (out.new.items ≡ out.old.items ++ literal_text (constants_of p.now) k.now l.now) }
{
    match l {
        Literal::Eq(t) => {
            put_term(alloc, p, t, out)?;
            out.extend_from_slice(b" = 0")?;
            Ok(())
        }
        Literal::Geq(t) => {
            put_term(alloc, p, t, out)?;
            out.extend_from_slice(b" >= 0")?;
            Ok(())
        }
        Literal::Div(d, t) => put_divides(alloc, p, k, d, t, out),
        Literal::NDiv(d, t) => {
            out.extend_from_slice(b"!")?;
            put_divides(alloc, p, k, d, t, out)
        }
    }
}
