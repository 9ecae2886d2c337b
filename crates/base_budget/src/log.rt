// What an elimination writes down: one entry for each rule that it applied.

ghost use Rattle.std.specs.Prelude.{◌≡◌, IfOk};

use linear_term::Memory;
use sqlite_items::Items;
use std::alloc::Global;

/// One applied elimination rule. A number is the position of a literal in the clause that the rule was applied to.
#[derive(Clone, Copy, Debug, PartialEq, Eq)]
pub enum Entry {
    /// The equation there gave the name away.
    Equation(u32),
    /// The negated divisibility there was split into the remainders that it allows.
    Apart(u32),
    /// The two divisibilities there, the first before the second, became one with the name and one without it.
    Merge(u32, u32),
    /// The only divisibility with the name was there, and was solved.
    Shift(u32),
    /// The name was bounded on one side alone.
    OneSided,
    /// The real shadow was the exact one.
    Exact,
    /// The dark shadow and its splinters.
    Dark,
}

/// The entries of an elimination, in the order in which its rules were applied.
#[derive(Debug, Drop)]
pub struct ElimLog {
    pub entries: Items<Entry>,
}

impl ElimLog {
    /// An equal log, or running out of memory.
    pub fn copy(&self, alloc: Global) -> Result<ElimLog, Memory>
        ensures { IfOk result (λ log. log ≡ self.now) }
    {
        match Items::from_slice(alloc, self.entries.as_slice()) {
            Ok(entries) => Ok(ElimLog { entries }),
            Err(_) => Err(Memory),
        }
    }
}
