// The symbols that the commands of a script declare and define.

ghost use Rattle.base_limits.specs.Limits.{most_symbols};
ghost use Rattle.smt_commands.specs.Symbols.{declared_number, entry_of, is_known, texts_of};
ghost use Rattle.std.specs.Prelude.{◌≡◌, ◌<◌, ◌∷◌, ◌++◌, [], false, true, length, map, take, IfOk, option_copied};

use indexmap::IndexSet;
use linear_term::Memory;
use smt_terms::Sort;
use sqlite_items::Items;
use std::alloc::Global;

/// A symbol of a script: its text, the number of its arguments, its sort, and whether it is defined by a term.
#[derive(Drop)]
pub struct Entry {
    pub text: Items<u8>,
    pub arity: u64,
    pub sort: Sort,
    pub defined: bool,
}

/// The symbols of a script, in the order of their declarations and definitions; their texts are different.
pub struct Table {
    entries: Items<Entry>,
    texts: IndexSet<Vec<u8>>,
    declared: u64,
    ghost same_texts: { map (λ t. t.items) texts.keys ≡ texts_of entries },
    ghost counted: { declared ≡ declared_number entries },
}

impl Drop for Table {
    fn drop(self) {
        let Table {
            entries: _,
            texts: _,
            declared: _,
        } = self;
    }
}

#[tactic(auto, using(crate::proofs::Tables::tables))]
impl Table {
    /// No symbol.
    pub fn new(alloc: Global) -> Table
        ensures { result.entries ≡ [] }
    {
        Table {
            entries: Items::new(alloc),
            texts: IndexSet::new(alloc),
            declared: 0,
        }
    }

    /// Whether a symbol has this text.
    pub fn contains(&self, text: &[u8]) -> bool
        ensures { result ≡ is_known text.now self.now.entries }
    {
        self.texts.contains(text)
    }

    /// The symbol with this text.
    pub fn entry(&self, text: &[u8]) -> Option<&Entry>
        ensures { option_copied result ≡ entry_of text.now self.now.entries }
    {
        self.entries.get(self.texts.get_index_of(text)?)
    }

    /// How many symbols are declared, defined ones not counted.
    pub fn declared(&self) -> u64
        ensures { result ≡ declared_number self.now.entries }
    {
        self.declared
    }

    /// How many symbols there are.
    pub fn len(&self) -> usize
        ensures { result ≡ length self.now.entries }
    {
        self.entries.len()
    }

    /// The first ones of the symbols, this many.
    pub(crate) fn keep(self, count: usize) -> Table
        ensures { result.entries ≡ take count self.entries }
    {
        let Table {
            mut entries,
            mut texts,
            mut declared,
        } = self;
        texts.truncate(count);
        while entries.len() > count {
            if let Some(last) = entries.pop() {
                if !last.defined {
                    declared -= 1;
                }
            }
        }
        Table {
            entries,
            texts,
            declared,
        }
    }

    /// The symbols with one more that is declared.
    pub fn declare(
        self,
        alloc: Global,
        text: &[u8],
        arity: u64,
        sort: Sort,
    ) -> Result<Table, Memory>
        requires new { is_known text.now self.entries ≡ false }
        requires few { declared_number self.entries < most_symbols }
        ensures { IfOk result (λ t. t.entries ≡ self.entries ++ record { text = text.now; arity = arity; sort = sort; defined = false } ∷ []) }
    {
        let Table {
            mut entries,
            mut texts,
            declared,
        } = self;
        texts.insert(Vec::from_slice(alloc, text)?)?;
        let text = Items::from_slice(alloc, text)?;
        entries.push(Entry {
            text,
            arity,
            sort,
            defined: false,
        })?;
        Ok(Table {
            entries,
            texts,
            declared: declared + 1,
        })
    }

    /// The symbols with one more that is defined.
    pub fn define(self, alloc: Global, text: &[u8], arity: u64, sort: Sort) -> Result<Table, Memory>
        requires new { is_known text.now self.entries ≡ false }
        ensures { IfOk result (λ t. t.entries ≡ self.entries ++ record { text = text.now; arity = arity; sort = sort; defined = true } ∷ []) }
    {
        let Table {
            mut entries,
            mut texts,
            declared,
        } = self;
        texts.insert(Vec::from_slice(alloc, text)?)?;
        let text = Items::from_slice(alloc, text)?;
        entries.push(Entry {
            text,
            arity,
            sort,
            defined: true,
        })?;
        Ok(Table {
            entries,
            texts,
            declared,
        })
    }
}
