// The commands in force, by assertion levels.

ghost use Rattle.smt_commands.specs.Marks.{are_marks};
ghost use Rattle.smt_reader.specs.Effects.{command_is};
ghost use Rattle.std.specs.Prelude.{◌≡◌, map, reverse, true};

use crate::effects::Effect;
use sqlite_items::Items;

/// The declarations, definitions and assertions in force, and how many were in force where each open level began, the innermost
/// last.
#[derive(Drop)]
pub(crate) struct Forces {
    pub(crate) effects: Items<Effect>,
    pub(crate) marks: Items<usize>,
    ghost within: { are_marks (map command_is effects) (reverse marks) ≡ true },
}
