// What an end of the search without an answer is for its caller: nothing found, but for lack of memory.

use crate::solving::Found;
use cdcl_fuel::Fault;
use cdcl_search::Cause;
use linear_term::Memory;

/// What a search that a fault ended found.
pub(crate) fn stopped(fault: Fault) -> Result<Found, Memory> {
    match fault {
        Fault::Memory => Err(Memory),
        _ => Ok(Found::Nothing),
    }
}

/// What a search that gave up found.
pub(crate) fn gave_up(cause: Cause) -> Result<Found, Memory> {
    match cause {
        Cause::Memory => Err(Memory),
        _ => Ok(Found::Nothing),
    }
}
