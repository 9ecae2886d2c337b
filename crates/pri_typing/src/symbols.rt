// The symbols that a file declares: each is found by its name, and has a number among the symbols of its kind.

ghost use Rattle.std.specs.Prelude.{◌≡◌, List, ℕ, IfOk, OnOk, IfErr, ◌++◌, ◌∷◌, [], map, length, Some, None, is_some, if◌then◌else◌, ◌≤◌};
ghost use Rattle.indexmap.specs.IndexMap.{insert_entry};
ghost use Rattle.pri_typing.specs.declared.declaration.Declaration.{Declaration};
ghost use Rattle.base_texts.specs.Texts.{is_text};
ghost use Rattle.pri_typing.specs.Scope.{declaration, declared_by, declarations, existentials, universals, functions, predicates, entry, rank};
ghost use Rattle.pri_typing.specs.Symbols.{entry_at, first_entry, listed, IsListed, IsKept, Extends};
ghost use Rattle.pri_typing.specs.Scope.{constants, declared_from, function_kind, symbol_of};
ghost use Rattle.std.specs.Option.{IfSome};
ghost use Rattle.pri_typing.specs.Faults.{least};
ghost use Rattle.base_limits.specs.Limits.{most_symbols};
ghost use Rattle.pri_typing.specs.Files.{declaration_faults, has_existential, own_faults};

use crate::declaration::{Declaration, Kind};
use crate::problem::{Symbol, TypeRefusal};
use crate::refusals::earlier_of;
use crate::scope::Referent;
use base_limits::MOST_SYMBOLS;
use indexmap::IndexMap;
use linear_term::Memory;
use pri_reader::{Block, Declared, Item, Name};
use sqlite_items::Items;
use std::alloc::{AllocError, Global};
use std::marker::Model;

/// A symbol: what it is declared as, and its number among the symbols of its kind.
#[derive(Clone, Copy)]
pub struct Entry {
    pub kind: Kind,
    pub number: usize,
}

/// The symbols of each kind, in the order of their declarations.
#[derive(Drop)]
pub struct Lists {
    pub existentials: Items<Items<u8>>,
    pub universals: Items<Items<u8>>,
    pub functions: Items<Symbol>,
    pub predicates: Items<Symbol>,
}

impl Lists {
    fn new(alloc: Global) -> Lists
        ensures { IsListed result [] }
    {
        Lists {
            existentials: Items::new(alloc),
            universals: Items::new(alloc),
            functions: Items::new(alloc),
            predicates: Items::new(alloc),
        }
    }

    fn add(&mut self, alloc: Global, name: &Name, kind: Kind) -> Result<(), AllocError>
        ensures { OnOk result (self.new ≡ listed kind name.now.text self.old) }
    {
        let text = Items::from_slice(alloc, name.text.as_slice())?;
        match kind {
            Kind::Existential => self.existentials.push(text)?,
            Kind::Universal => self.universals.push(text)?,
            Kind::Function(arity) => self.functions.push(Symbol { name: text, arity })?,
            Kind::Predicate(arity) => self.predicates.push(Symbol { name: text, arity })?,
        }
        Ok(())
    }

    /// How many symbols of this kind there are.
    fn rank(&self, kind: Kind) -> usize
        ensures { (ds : List Declaration) → IsListed self.now ds → result ≡ rank kind ds }
    {
        match kind {
            Kind::Existential => self.existentials.len(),
            Kind::Universal => self.universals.len(),
            Kind::Function(_) => self.functions.len(),
            Kind::Predicate(_) => self.predicates.len(),
        }
    }
}

/// Notes an entry for a text that has none yet, and says whether it has one.
fn note(
    index: &mut IndexMap<Vec<u8>, Entry>,
    alloc: Global,
    text: &[u8],
    entry: Entry,
) -> Result<bool, Memory>
    ensures known { IfOk result (λ b. b ≡ is_some (entry_at text.now index.old.entries)) }
    ensures noted { OnOk result ((t : List ℕ) → entry_at t index.new.entries ≡ first_entry (entry_at t index.old.entries) (if is_text t text.now then Some entry else None)) }
{
    if index.get(text).is_some() {
        return Ok(true);
    }
    let key = Vec::from_slice(alloc, text)?;
    index.insert(key, entry)?;
    Ok(false)
}

/// The fault of a declaration after this many others, of a name that is known or not.
fn fault_of(known: bool, before: usize, at: u64) -> Option<TypeRefusal>
    ensures { result ≡ least (own_faults known before at) }
{
    if known {
        Some(TypeRefusal::Redeclared(at))
    } else if before == MOST_SYMBOLS {
        Some(TypeRefusal::Many(at))
    } else {
        None
    }
}

/// A table to which declarations are added.
#[derive(Drop)]
pub struct Builder {
    pub declarations: Items<Declaration>,
    pub index: IndexMap<Vec<u8>, Entry>,
    pub lists: Lists,
    pub fault: Option<TypeRefusal>,
}

impl Builder {
    fn new(alloc: Global) -> Builder
        ensures kept { IsKept result }
        ensures empty { result.declarations ≡ [] }
    {
        Builder {
            declarations: Items::new(alloc),
            index: IndexMap::new(alloc),
            lists: Lists::new(alloc),
            fault: None,
        }
    }

    fn declare(&mut self, alloc: Global, name: &Name, kind: Kind) -> Result<(), Memory>
        requires { IsKept self.old }
        ensures { OnOk result (Extends self.old self.new (declaration kind name.now ∷ [])) }
    {
        let entry = Entry {
            kind,
            number: self.lists.rank(kind),
        };
        let known = note(&mut self.index, alloc, name.text.as_slice(), entry)?;
        let fault = fault_of(known, self.declarations.len(), name.at);
        self.fault = earlier_of(self.fault, fault);
        self.lists.add(alloc, name, kind)?;
        let text = Items::from_slice(alloc, name.text.as_slice())?;
        self.declarations.push(Declaration {
            at: name.at,
            text,
            kind,
        })?;
        Ok(())
    }

    fn declare_names(&mut self, alloc: Global, names: &[Declared], kind: Kind) -> Result<(), Memory>
        requires { IsKept self.old }
        ensures { OnOk result (Extends self.old self.new (map (λ n. declaration kind n.name) names.now)) }
    {
        for constant in names {
            self.declare(alloc, &constant.name, kind)?;
        }
        Ok(())
    }

    fn declare_functions(&mut self, alloc: Global, items: &[Item]) -> Result<(), Memory>
        requires { IsKept self.old }
        ensures { OnOk result (Extends self.old self.new (map (λ i. declaration (function_kind i.arity) i.name) items.now)) }
    {
        for item in items {
            self.declare(alloc, &item.name, function_of(item.arity))?;
        }
        Ok(())
    }

    fn declare_predicates(&mut self, alloc: Global, items: &[Item]) -> Result<(), Memory>
        requires { IsKept self.old }
        ensures { OnOk result (Extends self.old self.new (map (λ i. declaration (Kind.Predicate i.arity) i.name) items.now)) }
    {
        for item in items {
            self.declare(alloc, &item.name, Kind::Predicate(item.arity))?;
        }
        Ok(())
    }

    fn declare_block(&mut self, alloc: Global, block: &Block) -> Result<(), Memory>
        requires { IsKept self.old }
        ensures { OnOk result (Extends self.old self.new (declared_by block.now)) }
    {
        match block {
            Block::Universals(_, names) => {
                self.declare_names(alloc, names.as_slice(), Kind::Universal)
            }
            Block::Existentials(_, names) => {
                self.declare_names(alloc, names.as_slice(), Kind::Existential)
            }
            Block::Functions(_, items) => self.declare_functions(alloc, items.as_slice()),
            Block::Predicates(_, items) => self.declare_predicates(alloc, items.as_slice()),
            Block::Problem(_, _) => Ok(()),
            Block::Interpolant(_, _) => Ok(()),
        }
    }

    fn declare_blocks(&mut self, alloc: Global, blocks: &[Block]) -> Result<(), Memory>
        requires { IsKept self.old }
        ensures { OnOk result (Extends self.old self.new (declarations blocks.now)) }
    {
        for block in blocks {
            self.declare_block(alloc, block)?;
        }
        Ok(())
    }
}

/// A function without arguments is a universal constant.
fn function_of(arity: u32) -> Kind
    ensures { result ≡ function_kind arity }
{
    if arity == 0 {
        Kind::Universal
    } else {
        Kind::Function(arity)
    }
}

/// The symbols of a file, which contracts see as its declarations.
pub struct Symbols {
    builder: Builder,
}

impl Model for Symbols {
    ghost use Rattle.std.specs.Prelude.{List};
    ghost use Rattle.pri_typing.specs.declared.declaration.Declaration.{Declaration};
    ghost use Rattle.pri_typing.specs.Symbols.{IsKept};

    ghost Value = { List Declaration };

    ghost view = { λ s. s.builder.declarations };

    ghost invariant = { λ s. IsKept s.builder };
}

impl Drop for Symbols {
    fn drop(self) {
        let Symbols { builder: _ } = self;
    }
}

impl Symbols {
    /// The symbols that the blocks of a file declare, in order.
    pub fn of(alloc: Global, blocks: &[Block]) -> Result<Symbols, Memory>
        ensures { IfOk result (λ s. s ≡ declarations blocks.now) }
    {
        let mut builder = Builder::new(alloc);
        builder.declare_blocks(alloc, blocks)?;
        Ok(Symbols { builder })
    }

    /// The least fault of the declarations.
    pub fn fault(&self) -> Option<TypeRefusal>
        ensures { result ≡ least (declaration_faults [] self.now) }
    {
        self.builder.fault
    }

    /// Whether some constant is existential.
    pub fn has_existentials(&self) -> bool
        ensures { result ≡ has_existential self.now }
    {
        0 < self.builder.lists.existentials.len()
    }

    /// The symbols of each kind, once more.
    pub fn to_lists(&self, alloc: Global) -> Result<Lists, Memory>
        ensures { IfOk result (λ l. IsListed l self.now) }
    {
        let lists = &self.builder.lists;
        Ok(Lists {
            existentials: copy_texts(alloc, lists.existentials.as_slice())?,
            universals: copy_texts(alloc, lists.universals.as_slice())?,
            functions: copy_symbols(alloc, lists.functions.as_slice())?,
            predicates: copy_symbols(alloc, lists.predicates.as_slice())?,
        })
    }

    /// The number of constants.
    pub fn constants(&self) -> u32
        requires { length self.now ≤ most_symbols }
        ensures { result ≡ constants self.now }
    {
        self.builder.lists.existentials.len() as u32 + self.builder.lists.universals.len() as u32
    }

    /// What a symbol stands for.
    pub fn referent(&self, entry: Entry) -> Referent
        requires few { length self.now ≤ most_symbols }
        requires within { entry.number ≤ length self.now }
        ensures { result ≡ symbol_of self.now entry.kind entry.number }
    {
        let number = entry.number as u32;
        match entry.kind {
            Kind::Existential => Referent::Name(number),
            Kind::Universal => {
                Referent::Name(self.builder.lists.existentials.len() as u32 + number)
            }
            Kind::Function(arity) => Referent::Function(number, arity),
            Kind::Predicate(arity) => Referent::Predicate(number, arity),
        }
    }

    /// The first declaration of this text.
    pub fn find(&self, text: &[u8]) -> Option<Entry>
        ensures found { result ≡ declared_from [] text.now self.now }
        ensures within { IfSome result (λ e. e.number ≤ length self.now) }
    {
        self.builder.index.get(text).copied()
    }
}

/// The same texts, or running out of memory.
pub fn copy_texts(alloc: Global, texts: &[Items<u8>]) -> Result<Items<Items<u8>>, Memory>
    ensures { IfOk result (λ ts. ts ≡ texts.now) }
{
    let mut out = Items::new(alloc);
    for text in texts {
        out.push(Items::from_slice(alloc, text.as_slice())?)?;
    }
    Ok(out)
}

/// The same symbols, or running out of memory.
pub fn copy_symbols(alloc: Global, symbols: &[Symbol]) -> Result<Items<Symbol>, Memory>
    ensures { IfOk result (λ ss. ss ≡ symbols.now) }
{
    let mut out = Items::new(alloc);
    for symbol in symbols {
        out.push(Symbol {
            name: Items::from_slice(alloc, symbol.name.as_slice())?,
            arity: symbol.arity,
        })?;
    }
    Ok(out)
}
