// The new members of a premise.

ghost use Rattle.std.specs.Prelude.{◌≡◌, ◌++◌, length, OnOk};
ghost use Rattle.sequent.specs.Views.{added_members};

use crate::member::Member;
use linear_term::Memory;
use sqlite_items::Items;

/// The new members of a premise. One or two, as most rules add, need no list.
#[derive(Drop)]
pub enum Added {
    One(Member),
    Two(Member, Member),
    Many(Items<Member>),
}

impl Added {
    /// How many there are.
    pub fn len(&self) -> usize
        ensures { result ≡ length (added_members self.now) }
    {
        match self {
            Added::One(_) => 1,
            Added::Two(_, _) => 2,
            Added::Many(members) => members.len(),
        }
    }
}

/// The new members come after the others.
pub(crate) fn append(members: &mut Items<Member>, new: Added) -> Result<(), Memory>
    ensures { OnOk result (members.new ≡ members.old ++ added_members new) }
{
    match new {
        Added::One(m) => members.push(m)?,
        Added::Two(first, second) => {
            members.push(first)?;
            members.push(second)?;
        }
        Added::Many(more) => members.append(more)?,
    }
    Ok(())
}
