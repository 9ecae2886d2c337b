// The sequent of a root.

ghost use Rattle.std.specs.Prelude.{◌≡◌, IfOk, [], ◌∷◌};
ghost use Rattle.sequent.specs.Sequent as q;
ghost use Rattle.formula.specs.Tree.{form};
ghost use Rattle.sequent.specs.Views.{sequent_of};

use crate::member::{Member, Sequent};
use formula::Core;
use linear_term::Memory;
use sqlite_items::Items;
use std::alloc::Global;

/// The sequent of the root alone.
pub fn start(alloc: Global, root: &Core, constants: u32) -> Result<Sequent, Memory>
    ensures { IfOk result (λ s. sequent_of s ≡ q.sequent (q.member (form root.now) constants 0 ∷ []) constants) }
{
    let mut members = Items::new(alloc);
    members.push(Member {
        formula: root.copy(alloc)?,
        over: constants,
        used: 0,
    })?;
    Ok(Sequent {
        members,
        count: constants,
    })
}
