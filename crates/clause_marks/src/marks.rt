// A stamp for each literal. The literals with the present stamp are in the set, so that a new stamp empties it.

ghost use Rattle.std.specs.Prelude.{◌≡◌, ◌||◌, ◌<◌, ◌≤◌, false, length, IsOk};
ghost use Rattle.std.specs.List.{slice_get};
ghost use Rattle.clause_proof.specs.declared.line.Literal.{Literal};
ghost use Rattle.clause_proof.specs.Lines.{is_literal};
ghost use Rattle.clause_marks.specs.Marked.{AreAtMost, HasSameStamps, HasStampAt, has_stamp, is_marked};

use clause_proof::Literal;
use sqlite_items::{Items, at};
use std::alloc::{AllocError, Global};

/// A set of literals.
#[derive(Drop)]
pub struct Marks {
    stamp: u32,
    positive: Items<u32>,
    negative: Items<u32>,
    ghost positives: { AreAtMost stamp positive },
    ghost negatives: { AreAtMost stamp negative },
    ghost some: { 0 < stamp },
}

/// Whether the table has the stamp at i.
#[tactic(auto, using(crate::proofs::Marking::reads))]
fn is_stamped(table: &[u32], i: u32, stamp: u32) -> bool
    ensures { result ≡ has_stamp stamp (slice_get table.now i) }
{
    match at(table, i as usize) {
        None => false,
        Some(k) => *k == stamp,
    }
}

/// The table has a place for each number below n. The new places have no stamp.
#[tactic(auto, using(crate::proofs::Marking::grows))]
fn grow(table: &mut Items<u32>, n: usize, stamp: u32) -> Result<(), AllocError>
    requires some { 0 < stamp }
    requires most { AreAtMost stamp table.old }
    ensures long { IsOk result → n ≤ length table.new }
    ensures same { HasSameStamps stamp table.old table.new }
    ensures most { AreAtMost stamp table.new }
{
    for _ in table.len()..n {
        table.push(0)?;
    }
    Ok(())
}

/// The stamp stands at i.
#[tactic(auto, using(crate::proofs::Marking::stamps))]
fn set_stamp(table: &mut Items<u32>, i: u32, stamp: u32) -> Result<(), AllocError>
    requires some { 0 < stamp }
    requires most { AreAtMost stamp table.old }
    ensures set { IsOk result → HasStampAt stamp i table.old table.new }
    ensures most { AreAtMost stamp table.new }
{
    grow(table, i as usize + 1, stamp)?;
    table.set(i as usize, stamp);
    Ok(())
}

impl Marks {
    /// The empty set.
    #[tactic(auto, using(crate::proofs::Marking::starts))]
    pub fn new(alloc: Global) -> Marks
        ensures { (l : Literal) → is_marked result.stamp result.positive result.negative l ≡ false }
    {
        Marks {
            stamp: 1,
            positive: Items::new(alloc),
            negative: Items::new(alloc),
        }
    }

    /// Whether the literal is in the set.
    #[tactic(auto, using(crate::proofs::Marking::contains))]
    pub fn contains(&self, l: Literal) -> bool
        ensures { result ≡ is_marked self.now.stamp self.now.positive self.now.negative l }
    {
        if l.positive {
            is_stamped(self.positive.as_slice(), l.variable, self.stamp)
        } else {
            is_stamped(self.negative.as_slice(), l.variable, self.stamp)
        }
    }

    /// Takes the literal in.
    #[tactic(auto, using(crate::proofs::Marking::inserts))]
    pub fn insert(&mut self, l: Literal) -> Result<(), AllocError>
        ensures { IsOk result → (k : Literal) → is_marked self.new.stamp self.new.positive self.new.negative k ≡ (is_marked self.old.stamp self.old.positive self.old.negative k || is_literal k l) }
    {
        if l.positive {
            set_stamp(&mut self.positive, l.variable, self.stamp)
        } else {
            set_stamp(&mut self.negative, l.variable, self.stamp)
        }
    }

    /// Empties the set.
    #[tactic(auto, using(crate::proofs::Marking::clears))]
    pub fn clear(&mut self, alloc: Global)
        ensures { (l : Literal) → is_marked self.new.stamp self.new.positive self.new.negative l ≡ false }
    {
        if self.stamp == u32::MAX {
            *self = Marks::new(alloc);
            return;
        }
        self.stamp += 1;
    }
}
