// A branch and what is read of it.

ghost use Rattle.formula.specs.Tree.{form};
ghost use Rattle.tree_branch.specs.Standing.{IsPrincipal, held, premises_from, standing};
ghost use Rattle.sequent.specs.Leaf as leaf;
ghost use Rattle.std.specs.List.{list_any, slice_get};
ghost use Rattle.std.specs.Prelude.{◌≡◌, ◌<◌, ◌^◌, IfOk, Some, length, map};

use crate::principal::Principal;
use backlist::BackList;
use formula::{Core, is_pure};
use linear_term::Memory;
use sequent::{Member, width_of};
use std::alloc::Global;

/// The sequent of the node where a search stands: its members in a list that goes back, and how many constants there are.
#[derive(Drop)]
pub struct Branch {
    pub(crate) list: BackList<Member>,
    pub(crate) count: u32,
}

impl Branch {
    /// How many constants there are.
    pub fn count(&self) -> u32
        ensures { result ≡ (standing self.now).count }
    {
        self.count
    }

    /// The principal member.
    pub fn get(&self, principal: &Principal) -> &Member
        requires { IsPrincipal self.now principal.now }
        ensures { slice_get (held self.now).members principal.now.index ≡ Some result.now }
    {
        self.list.get(principal.at)
    }

    /// How many premises the rule with this principal has.
    pub fn width(&self, principal: &Principal) -> u32
        requires principal { IsPrincipal self.now principal.now }
        requires few { length (premises_from self.now principal.now) < 2 ^ 32 }
        ensures { result ≡ length (premises_from self.now principal.now) }
    {
        width_of(self.list.get(principal.at), self.count)
    }

    /// The members, read where they lie.
    pub fn members(&self, alloc: Global) -> Result<Vec<&Member>, Memory>
        ensures { IfOk result (λ ms. map (λ m. m.now) ms.items ≡ (held self.entry.now).members) }
    {
        let mut members = Vec::with_capacity(alloc, self.list.len())?;
        let mut at = self.list.first();
        for i in 0..self.list.len() {
            if let Some(p) = at {
                members.push(self.list.get(p))?;
                at = self.list.next(p);
            }
        }
        Ok(members)
    }

    /// Whether gamma could be used on some member once more.
    pub fn has_open_member(&self) -> bool
        ensures { result ≡ list_any (λ m. leaf.is_open m.formula) (standing self.now).members }
    {
        let mut found = false;
        let mut at = self.list.first();
        for i in 0..self.list.len() {
            if let Some(p) = at {
                found = found | is_open(&self.list.get(p).formula);
                at = self.list.next(p);
            }
        }
        found
    }
}

/// Whether gamma could be used on the formula once more.
fn is_open(f: &Core) -> bool
    ensures { result ≡ leaf.is_open (form f.now) }
{
    match f {
        Core::Exists(_) => !is_pure(f),
        Core::Eq(_) => false,
        Core::Neq(_) => false,
        Core::Geq(_) => false,
        Core::Pred(_, _) => false,
        Core::NotPred(_, _) => false,
        Core::NotFun(_, _, _) => false,
        Core::And(_) => false,
        Core::Or(_) => false,
        Core::Forall(_) => false,
    }
}
