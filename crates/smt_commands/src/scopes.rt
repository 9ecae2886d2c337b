// The symbols in force, by assertion levels.

ghost use Rattle.smt_commands.specs.Commands as form;
ghost use Rattle.smt_commands.specs.Faults.{declaration_faults};
ghost use Rattle.smt_commands.specs.Least.{IsScriptRefused, least};
ghost use Rattle.smt_commands.specs.Levels.{level_fewer, level_more, lowest, popped, pushed, with_now};
ghost use Rattle.smt_commands.specs.Marks.{are_marks};
ghost use Rattle.smt_commands.specs.Symbols.{after, is_known};
ghost use Rattle.smt_commands.specs.Views.{symbol_is};
ghost use Rattle.smt_lists.specs.Expressions.{expr};
ghost use Rattle.std.specs.Prelude.{◌≡◌, ◌++◌, ◌∷◌, [], IfErr, IfOk, None, false, length, map, reverse, true};

use crate::declaration::declare;
use crate::expressions::Name;
use crate::refusal::ScriptRefusal;
use crate::table::Table;
use linear_term::Memory;
use smt_lists::Sexp;
use smt_terms::Sort;
use sqlite_items::Items;
use std::alloc::Global;
use std::marker::Model;

/// The symbols in force, and how many were in force where each open level began, the innermost last.
#[derive(Drop)]
pub struct Scopes {
    table: Table,
    marks: Items<usize>,
    ghost within: { are_marks table.entries (reverse marks) ≡ true },
}

impl Model for Scopes {
    ghost use Rattle.smt_commands.specs.Levels.{Levels};
    ghost use Rattle.smt_commands.specs.Marks.{taken_at};
    ghost use Rattle.smt_commands.specs.declared.table.Entry.{Entry};
    ghost use Rattle.std.specs.Prelude.{List, reverse};

    ghost Value = { Levels (List Entry) };

    ghost view = { λ s. record { now = s.table.entries; below = taken_at s.table.entries (reverse s.marks) } };
}

impl Scopes {
    /// No symbol, and no open level.
    pub fn new(alloc: Global) -> Scopes
        ensures { result ≡ lowest [] }
    {
        Scopes {
            table: Table::new(alloc),
            marks: Items::new(alloc),
        }
    }

    /// The symbols in force.
    pub fn table(&self) -> &Table
        ensures { result.now.entries ≡ self.now.now }
    {
        &self.table
    }

    /// The symbols in force, where the levels no longer matter.
    pub fn into_table(self) -> Table
        ensures { result.entries ≡ self.now }
    {
        let Scopes { table, marks: _ } = self;
        table
    }

    /// How many levels are open.
    pub fn levels(&self) -> usize
        ensures { result ≡ length self.now.below }
    {
        self.marks.len()
    }

    /// The symbols after a declaration, or its first fault.
    pub fn declare(
        self,
        alloc: Global,
        name: Name<'_>,
        sorts: &[Sexp],
        sort: &Sexp,
    ) -> Result<Scopes, ScriptRefusal>
        ensures found { IfOk result (λ s. s ≡ with_now self (after self.now (form.declare (symbol_is name.entry) (map expr sorts.now) (expr sort.now)))) }
        ensures fits { IfOk result (λ s. least (declaration_faults self.now (symbol_is name.entry) (map expr sorts.now) (expr sort.now)) ≡ None) }
        ensures refused { IfErr result (λ e. IsScriptRefused e (least (declaration_faults self.now (symbol_is name.entry) (map expr sorts.now) (expr sort.now)))) }
    {
        let Scopes { table, marks } = self;
        let table = declare(alloc, table, name, sorts, sort)?;
        Ok(Scopes { table, marks })
    }

    /// The symbols after a definition.
    pub fn define(
        self,
        alloc: Global,
        text: &[u8],
        arity: u64,
        sort: Sort,
    ) -> Result<Scopes, Memory>
        requires new { is_known text.now self.now ≡ false }
        ensures { IfOk result (λ s. s ≡ with_now self (self.now ++ record { text = text.now; arity = arity; sort = sort; defined = true } ∷ [])) }
    {
        let Scopes { table, marks } = self;
        let table = table.define(alloc, text, arity, sort)?;
        Ok(Scopes { table, marks })
    }

    /// The same symbols with this many levels more.
    pub fn push(self, count: u64) -> Result<Scopes, Memory>
        ensures { IfOk result (λ s. s ≡ pushed count self) }
    {
        let mut scopes = self;
        let mut left = count;
        while left > 0 {
            scopes = scopes.push_one()?;
            left -= 1;
        }
        Ok(scopes)
    }

    // One level more.
    fn push_one(self) -> Result<Scopes, Memory>
        ensures { IfOk result (λ s. s ≡ level_more self) }
    {
        let Scopes { table, mut marks } = self;
        marks.push(table.len())?;
        Ok(Scopes { table, marks })
    }

    /// The symbols with this many levels fewer.
    pub fn pop(self, count: u64) -> Scopes
        ensures { result ≡ popped count self }
    {
        let mut scopes = self;
        let mut left = count;
        while left > 0 {
            scopes = scopes.pop_one();
            left -= 1;
        }
        scopes
    }

    // One level fewer.
    fn pop_one(self) -> Scopes
        ensures { result ≡ level_fewer self }
    {
        let Scopes { table, mut marks } = self;
        match marks.pop() {
            Some(mark) => Scopes {
                table: table.keep(mark),
                marks,
            },
            None => Scopes { table, marks },
        }
    }
}
