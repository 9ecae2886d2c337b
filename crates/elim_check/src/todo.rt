// The clauses that a replay has still to do.

ghost use Rattle.clause_set.specs.Names.{has};
ghost use Rattle.elim_check.specs.Steps.{is_turn};
ghost use Rattle.std.specs.List.{list_any};
ghost use Rattle.std.specs.Prelude.{◌≡◌, ◌∷◌, ◌++◌, ◌↔◌, [], IfOk, IsTrue, MatchOption, OnOk, false, true};

use clause_set::Clause;
use elim_rules::has_name;
use sqlite_items::Items;
use std::alloc::{AllocError, Global};
use std::marker::Model;

/// The clauses that are still to do. Contracts see them from the next one on. The next one is kept last, so that the others
/// stay where they are when it is taken.
#[derive(Drop)]
pub(crate) struct Todo {
    last_first: Items<Clause>,
}

impl Model for Todo {
    ghost use Rattle.std.specs.Prelude.{List, reverse};
    ghost use Rattle.clause_set.specs.declared.literal.Literal.{Literal};

    ghost Value = { List (List Literal) };

    ghost view = { λ todo. reverse todo.last_first };
}

impl Todo {
    /// These clauses, in their order.
    pub(crate) fn of(alloc: Global, clauses: Items<Clause>) -> Result<Todo, AllocError>
        ensures { IfOk result (λ todo. todo ≡ clauses) }
    {
        if clauses.len() < 2 {
            return Ok(Todo {
                last_first: clauses,
            });
        }
        let mut todo = Todo {
            last_first: Items::new(alloc),
        };
        todo.put(clauses)?;
        Ok(todo)
    }

    /// Whether none is left.
    pub(crate) fn is_empty(&self) -> bool
        ensures { IsTrue result ↔ (self.now ≡ []) }
    {
        self.last_first.is_empty()
    }

    /// Takes the next clause.
    pub(crate) fn take(&mut self) -> Option<Clause>
        ensures { MatchOption result ((self.old ≡ []) × (self.new ≡ [])) (λ c. self.old ≡ c ∷ self.new) }
    {
        self.last_first.pop()
    }

    /// Puts clauses before those that are left.
    pub(crate) fn put(&mut self, clauses: Items<Clause>) -> Result<(), AllocError>
        ensures { OnOk result (self.new ≡ clauses ++ self.old) }
    {
        let mut rest = clauses;
        while let Some(c) = rest.pop() {
            self.last_first.push(c)?;
        }
        Ok(())
    }

    /// Whether no clause is left, or the next one has x.
    fn is_turn(&self, x: u32) -> bool
        ensures { result ≡ is_turn x self.now }
    {
        match self.last_first.as_slice().last() {
            Some(c) => has_name(c.literals(), x),
            None => true,
        }
    }

    /// Takes the next clause, if there is one and x is not in it.
    pub(crate) fn take_without(&mut self, x: u32) -> Option<Clause>
        ensures { MatchOption result ((is_turn x self.old ≡ true) × (self.new ≡ self.old)) (λ c. (list_any (has x) c ≡ false) × (self.old ≡ c ∷ self.new)) }
    {
        if self.is_turn(x) { None } else { self.take() }
    }
}
