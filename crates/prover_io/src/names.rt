// The names begun, as both sources keep them.

ghost use Rattle.std.specs.List.{last_or};
ghost use Rattle.std.specs.Prelude.{◌≡◌, ◌++◌, [], ◌∷◌, map, string_bytes, None, Some, OnOk, OnErr};

use sqlite_items::Items;
use std::alloc::{AllocError, Global};

// Adds a name after those that were begun.
#[tactic(auto, using(crate::proofs::Begun::begun))]
pub(crate) fn add_name(
    alloc: Global,
    names: &mut Items<String>,
    name: &str,
) -> Result<(), AllocError>
    ensures added { OnOk result (map string_bytes names.new ≡ map string_bytes names.old ++ name.now ∷ []) }
    ensures last { OnOk result (last_or None (map string_bytes names.new) ≡ Some name.now) }
    ensures same { OnErr result (names.new ≡ names.old) }
{
    let begun = String::from_str(alloc, name)?;
    names.push(begun)?;
    Ok(())
}
