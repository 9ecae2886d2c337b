// The commands of a script, where those that are short for others are written out.

ghost use Rattle.smt_lists.specs.Expressions.{expr};
ghost use Rattle.smt_shorthand.specs.Ranged.{IsNarrow, IsRangedExpr};
ghost use Rattle.smt_shorthand.specs.Writing.{is_short, written_out};
ghost use Rattle.std.specs.List.{AllByRecursion, list_any};
ghost use Rattle.std.specs.Prelude.{◌≡◌, ◌+◌, ℕ, false, IfOk, map};

use crate::defining::{defines_sort, sorts_written_out};
use crate::functions::{defines_function, functions_written_out};
use linear_term::Memory;
use smt_lists::Sexp;
use sqlite_items::Items;
use std::alloc::Global;

/// The commands of a script, where definitions of sorts and recursive definitions of functions are written out. A script without
/// them stays as it is.
pub fn written_out(alloc: Global, lists: Items<Sexp>) -> Result<Items<Sexp>, Memory>
    ensures exact { IfOk result (λ out. map expr out ≡ written_out (map expr lists)) }
    ensures same { IfOk result (λ out. list_any is_short (map expr lists) ≡ false → out ≡ lists) }
    ensures ranged { IfOk result (λ out. AllByRecursion IsRangedExpr (map expr lists) → AllByRecursion IsRangedExpr (map expr out)) }
    ensures narrow { IfOk result (λ out. (n : ℕ) → AllByRecursion (IsNarrow n) (map expr lists) → AllByRecursion (IsNarrow (n + 4)) (map expr out)) }
{
    if !some_is_short(lists.as_slice()) {
        return Ok(lists);
    }
    let resolved = sorts_written_out(alloc, lists)?;
    let out = functions_written_out(alloc, resolved)?;
    Ok(out)
}

/// Whether some command is short for others.
fn some_is_short(es: &[Sexp]) -> bool
    ensures { result ≡ list_any is_short (map expr es.now) }
{
    for e in es {
        if is_short(e) {
            return true;
        }
    }
    false
}

/// Whether a command begins as one that is short for others.
fn is_short(e: &Sexp) -> bool
    ensures { result ≡ is_short (expr e.now) }
{
    defines_sort(e) || defines_function(e)
}
