// Members, sequents and the names of the calculus.

ghost use Rattle.std.specs.Prelude.{◌≡◌, IfOk};

use formula::Core;
use linear_term::Memory;
use sqlite_items::Items;
use std::alloc::Global;

/// A formula over the first `over` constants of a sequent; `used` counts the uses of the rule gamma.
#[derive(Drop)]
pub struct Member {
    pub formula: Core,
    pub over: u32,
    pub used: u32,
}

/// Members over the constants below `count`, one of which is to be true.
#[derive(Drop)]
pub struct Sequent {
    pub members: Items<Member>,
    pub count: u32,
}

/// A rule with a principal member.
#[derive(Clone, Copy, PartialEq, Eq)]
pub enum Shape {
    Trivial,
    Alpha,
    Delta,
    Beta,
    Gamma,
}

/// A rule, with the place of its principal member.
#[derive(Clone, Copy, PartialEq, Eq)]
pub enum Pick {
    Trivial(u32),
    Alpha(u32),
    Delta(u32),
    Beta(u32),
    Gamma(u32),
    Close,
}

impl Member {
    /// The same member once more.
    pub fn copy(&self, alloc: Global) -> Result<Member, Memory>
        ensures { IfOk result (λ m. m ≡ self.now) }
    {
        Ok(Member {
            formula: self.formula.copy(alloc)?,
            over: self.over,
            used: self.used,
        })
    }
}
