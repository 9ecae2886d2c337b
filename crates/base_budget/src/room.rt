// Lists that are made with room for what is to come.

ghost use Rattle.std.specs.Prelude.{◌≡◌, [], IfOk};

use sqlite_items::Items;
use std::alloc::{AllocError, Global};

/// A list without items that has room for `count` of them. Returns the error if memory runs out.
pub fn room_for<T>(alloc: Global, count: usize) -> Result<Items<T>, AllocError>
    ensures { IfOk result (λ xs. xs ≡ []) }
{
    Ok(Items::from_vec(Vec::with_capacity(alloc, count)?))
}
