// Lines and columns of an input.

ghost use Rattle.job_dialogue.specs.Spots.{first_spot, goes_on, spot_after, spot_on};
ghost use Rattle.std.specs.Prelude.{◌≡◌, IfOk};

use linear_term::Memory;

/// A place in an input: its line and its column, each from 1 on. A byte that goes on a character takes no column.
#[derive(Clone, Copy, Debug, PartialEq, Eq)]
pub struct Spot {
    pub line: u64,
    pub column: u64,
}

/// The spot where an input begins.
pub(crate) fn first_spot() -> Spot
    ensures { result ≡ first_spot }
{
    Spot { line: 1, column: 1 }
}

/// The spot after these bytes, from a spot on.
pub(crate) fn spot_after(from: Spot, bytes: &[u8]) -> Result<Spot, Memory>
    ensures { IfOk result (λ spot. spot ≡ spot_after from bytes.now) }
{
    let mut spot = from;
    for byte in bytes {
        spot = spot_on(spot, *byte)?;
    }
    Ok(spot)
}

/// The spot after a byte.
fn spot_on(spot: Spot, byte: u8) -> Result<Spot, Memory>
    ensures { IfOk result (λ next. next ≡ spot_on spot byte) }
{
    if byte == b'\n' {
        let line = spot.line.checked_add(1).ok_or(Memory)?;
        return Ok(Spot { line, column: 1 });
    }
    if goes_on(byte) {
        return Ok(spot);
    }
    let column = spot.column.checked_add(1).ok_or(Memory)?;
    Ok(Spot {
        line: spot.line,
        column,
    })
}

/// Whether a byte goes on a character of several bytes.
fn goes_on(byte: u8) -> bool
    ensures { result ≡ goes_on byte }
{
    128 <= byte && byte < 192
}
