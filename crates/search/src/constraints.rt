// The constraints of the premises of a node.

ghost use Rattle.clause_set.specs.Dnfs.{top};
ghost use Rattle.clause_set.specs.declared.literal.Literal.{Literal};
ghost use Rattle.proof_tree.specs.Rules.{first_given};
ghost use Rattle.search.specs.Trues.{are_top};
ghost use Rattle.std.specs.Prelude.{◌≡◌, ◌++◌, ◌∷◌, ◌↔◌, [], IsTrue, OnOk, true};

use clause_set::Dnf;
use linear_term::Memory;
use sqlite_items::Items;
use std::alloc::Global;
use std::marker::Model;
use std::slice::from_ref;
use tree_branch::first;

/// Whether each of the constraints is true.
fn all_true(ds: &[Dnf]) -> bool
    ensures { result ≡ are_top ds.now }
{
    for d in ds {
        if !d.is_top() {
            return false;
        }
    }
    true
}

/// The constraints of premises, in order. One alone, as most nodes have, needs no list.
#[derive(Drop)]
pub struct Constraints {
    alone: Option<Dnf>,
    list: Items<Dnf>,
}

impl Model for Constraints {
    ghost use Rattle.clause_set.specs.declared.literal.Literal.{Literal};
    ghost use Rattle.std.specs.Prelude.{◌≡◌, ◌++◌, [], IfSome, List, option_to_list};

    ghost Value = { List (List (List Literal)) };

    ghost view = { λ c. option_to_list c.alone ++ c.list };

    ghost invariant = { λ c. IfSome c.alone (λ _. c.list ≡ []) };
}

impl Constraints {
    /// No constraint.
    pub fn new(alloc: Global) -> Constraints
        ensures { result ≡ [] }
    {
        Constraints {
            alone: None,
            list: Items::new(alloc),
        }
    }

    /// Whether there is none.
    pub fn is_empty(&self) -> bool
        ensures { IsTrue result ↔ (self.now ≡ []) }
    {
        self.alone.is_none() && self.list.is_empty()
    }

    /// One more constraint.
    pub fn push(&mut self, d: Dnf) -> Result<(), Memory>
        ensures { OnOk result (self.new ≡ self.old ++ d ∷ []) }
    {
        match self.alone.take() {
            Some(first) => {
                self.list.push(first)?;
                self.list.push(d)?;
            }
            None => {
                if self.list.is_empty() {
                    self.alone = Some(d);
                } else {
                    self.list.push(d)?;
                }
            }
        }
        Ok(())
    }

    /// All of them.
    pub fn as_slice(&self) -> &[Dnf]
        ensures { result.now ≡ self.now }
    {
        match &self.alone {
            Some(d) => from_ref(d),
            None => self.list.as_slice(),
        }
    }

    /// Whether there are some, and all of them are true.
    pub fn are_true(&self) -> bool
        ensures all { result ≡ true → are_top self.now ≡ true }
        ensures first { result ≡ true → first_given self.now ≡ top }
    {
        !self.is_empty() && all_true(self.as_slice())
    }

    /// The first one; false where there is none.
    pub fn into_first(self, alloc: Global) -> Dnf
        ensures { result ≡ first_given self }
    {
        let Constraints { alone, list } = self;
        match alone {
            Some(d) => d,
            None => first(alloc, list),
        }
    }
}
