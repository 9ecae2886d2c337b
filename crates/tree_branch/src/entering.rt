// Premises are entered and left: the principal goes and the new members come, and all of that is undone.

ghost use Rattle.backlist.specs.History.{after, push_of};
ghost use Rattle.backlist.specs.declared.boxes.Pos.{Pos as Place};
ghost use Rattle.tree_branch.specs.Passed.{IsPassed};
ghost use Rattle.tree_branch.specs.Standing.{IsPrincipal, LeadsBack, held, members_in, premises_from, standing, undone};
ghost use Rattle.tree_branch.specs.declared.branch.Branch as declared;
ghost use Rattle.tree_branch.specs.declared.choosing.Passed.{Passed};
ghost use Rattle.sequent.specs.Views.{HasRoom, added_members};
ghost use Rattle.std.specs.List.{slice_get};
ghost use Rattle.std.specs.Prelude.{◌≡◌, ◌+◌, ◌++◌, ◌<◌, ◌≤◌, IfOk, List, OnOk, Some, length, reverse, ℕ};

use crate::branch::Branch;
use crate::principal::Principal;
use backlist::BackList;
use linear_term::Memory;
use sequent::{Added, Member, Sequent, branch, count_after};
use sqlite_items::Items;
use std::alloc::Global;

/// What leaving a premise undoes.
#[derive(Drop)]
pub struct Entered {
    /// How many new members there are, besides the change that took the principal out.
    pub(crate) pushed: usize,
    /// How many constants there were.
    pub(crate) count: u32,
}

/// The members, the last one first.
fn turned_round(alloc: Global, members: Items<Member>) -> Result<Items<Member>, Memory>
    ensures { IfOk result (λ ms. ms ≡ reverse members) }
{
    let mut left = members;
    let mut out = Items::new(alloc);
    while let Some(m) = left.pop() {
        out.push(m)?;
    }
    Ok(out)
}

/// One more member at the end of the list.
fn push(list: &mut BackList<Member>, m: Member) -> Result<(), Memory>
    ensures { OnOk result ((p : Place) × (list.new ≡ after (push_of p m) list.old)) }
{
    match list.push_back(m) {
        Ok(_) => Ok(()),
        Err(_) => Err(Memory),
    }
}

/// The members move to the end of the list, in order.
fn push_all(
    alloc: Global,
    list: &mut BackList<Member>,
    members: Items<Member>,
) -> Result<(), Memory>
    ensures behind { OnOk result ((new : List (Place × Member)) × (list.new.present ≡ list.old.present ++ new)) }
    ensures members { OnOk result (members_in list.new.present ≡ members_in list.old.present ++ members) }
    ensures changes { OnOk result (length members ≤ length list.new.earlier) }
    ensures back { OnOk result (undone (length members) list.new ≡ list.old) }
{
    let mut rest = turned_round(alloc, members)?;
    while let Some(m) = rest.pop() {
        push(list, m)?;
    }
    Ok(())
}

/// The new members of a premise move to the end of the list, in order.
fn push_new(alloc: Global, list: &mut BackList<Member>, new: Added) -> Result<(), Memory>
    ensures behind { OnOk result ((more : List (Place × Member)) × (list.new.present ≡ list.old.present ++ more)) }
    ensures members { OnOk result (members_in list.new.present ≡ members_in list.old.present ++ added_members new) }
    ensures changes { OnOk result (length (added_members new) ≤ length list.new.earlier) }
    ensures back { OnOk result (undone (length (added_members new)) list.new ≡ list.old) }
{
    match new {
        Added::One(m) => push(list, m)?,
        Added::Two(first, second) => {
            push(list, first)?;
            push(list, second)?;
        }
        Added::Many(members) => push_all(alloc, list, members)?,
    }
    Ok(())
}

impl Branch {
    /// The branch at a sequent.
    pub fn at(alloc: Global, s: Sequent) -> Result<Branch, Memory>
        ensures { IfOk result (λ b. held b ≡ s) }
    {
        let Sequent { members, count } = s;
        let mut list = BackList::new(alloc);
        push_all(alloc, &mut list, members)?;
        Ok(Branch { list, count })
    }

    /// Enters premise number i of the rule with this principal, and says what leaving it undoes. Where memory runs out
    /// the branch is of no more use.
    pub fn enter(&mut self, alloc: Global, principal: &Principal, i: u32) -> Result<Entered, Memory>
        requires principal { IsPrincipal self.old principal.now }
        requires room { HasRoom (held self.old) }
        requires within { i < length (premises_from self.old principal.now) }
        ensures premise { OnOk result (slice_get (premises_from self.old principal.now) i ≡ Some (standing self.new)) }
        ensures back { IfOk result (λ e. LeadsBack e self.new self.old) }
        ensures passed { OnOk result ((limit : ℕ) (p : Passed) → IsPassed limit self.old p → p.count ≤ principal.now.index → IsPassed limit self.new p) }
    {
        let member = self.list.get(principal.at);
        let new = branch(alloc, member, self.count, i)?;
        let entered = Entered {
            pushed: new.len(),
            count: self.count,
        };
        self.count = count_after(&member.formula, self.count);
        self.list.unlink(principal.at);
        push_new(alloc, &mut self.list, new)?;
        Ok(entered)
    }

    /// Leaves a premise: every change that entering it made is undone, and the branch is what it was before that.
    pub fn leave(&mut self, entered: Entered)
        requires { (before : declared.Branch) × LeadsBack entered self.old before }
        ensures { (before : declared.Branch) → LeadsBack entered self.old before → self.new ≡ before }
    {
        for i in 0..entered.pushed {
            self.list.undo();
        }
        self.list.undo();
        self.count = entered.count;
    }
}
