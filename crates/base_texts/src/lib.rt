// Lists of different texts, in which a text is found by its bytes.
#![tactic(auto)]

ghost use Rattle.std.specs.Option.{IfSome};
ghost use Rattle.std.specs.Prelude.{◌≡◌, ◌<◌, ◌^◌, ◌++◌, [], length, not, position, IfOk, OnOk};
ghost use Rattle.base_texts.specs.Texts.{each_behind, is_among, is_text, misses, picked, place, with_text};

use indexmap::IndexSet;
use linear_term::Memory;
use sqlite_items::Items;
use std::alloc::{AllocError, Global};
use std::marker::Model;

/// Different texts in the order in which they were added.
pub struct Texts {
    set: IndexSet<Vec<u8>>,
}

impl Model for Texts {
    ghost use Rattle.std.specs.Prelude.{List, ℕ, map};

    ghost Value = { List (List ℕ) };

    ghost view = { λ t. map (λ k. k.items) t.set.keys };
}

impl Drop for Texts {
    fn drop(self) {
        let Texts { set: _ } = self;
    }
}

impl Texts {
    /// No text.
    pub fn new(alloc: Global) -> Texts
        ensures { result ≡ [] }
    {
        Texts {
            set: IndexSet::new(alloc),
        }
    }

    /// Adds a text, if it is not there, and says whether it is new.
    pub fn add(&mut self, alloc: Global, text: &[u8]) -> Result<bool, Memory>
        ensures is_new { IfOk result (λ b. b ≡ not (is_among text.now self.old)) }
        ensures texts { OnOk result (self.new ≡ with_text text.now self.old) }
    {
        let key = Vec::from_slice(alloc, text)?;
        Ok(self.set.insert(key)?)
    }

    /// Whether the text is there.
    pub fn contains(&self, text: &[u8]) -> bool
        ensures { result ≡ is_among text.now self.now }
    {
        self.set.contains(text)
    }

    /// The place of a text, from 0 on; none where it is not there.
    pub fn place(&self, text: &[u8]) -> Option<usize>
        ensures place { result ≡ position (is_text text.now) self.now }
        ensures within { IfSome result (λ i. i < length self.now) }
    {
        self.set.get_index_of(text)
    }

    /// How many texts there are.
    pub fn len(&self) -> usize
        ensures { result ≡ length self.now }
    {
        self.set.len()
    }

    /// The place of a text, or the number of texts where it is not there.
    pub fn number(&self, text: &[u8]) -> u32
        requires { length self.now < 2 ^ 32 }
        ensures { result ≡ place text.now self.now }
    {
        match self.place(text) {
            Some(i) => i as u32,
            None => self.len() as u32,
        }
    }

    /// Whether some text is not among those given.
    pub fn misses_some(&self, given: &Texts) -> bool
        ensures { result ≡ misses self.now given.now }
    {
        for text in self.set.as_slice() {
            if !given.contains(text.as_slice()) {
                return true;
            }
        }
        false
    }

    /// The texts once more, as a list.
    pub fn to_items(&self, alloc: Global) -> Result<Items<Items<u8>>, AllocError>
        ensures { IfOk result (λ ts. ts ≡ self.now) }
    {
        let mut out = Items::new(alloc);
        for text in self.set.as_slice() {
            out.push(Items::from_slice(alloc, text.as_slice())?)?;
        }
        Ok(out)
    }

    /// The texts that are among the others too, in their order; this many at most.
    pub fn common(&self, alloc: Global, others: &Texts, most: usize) -> Result<Texts, Memory>
        ensures { IfOk result (λ ts. ts ≡ picked others.now most [] self.now) }
    {
        let mut found = Texts::new(alloc);
        for text in self.set.as_slice() {
            if found.len() < most && others.contains(text.as_slice()) {
                found.add(alloc, text.as_slice())?;
            }
        }
        Ok(found)
    }

    /// Puts the texts, each after this label, after a text.
    pub fn put_each(&self, label: &[u8], out: &mut Vec<u8>) -> Result<(), Memory>
        ensures { OnOk result (out.new.items ≡ out.old.items ++ each_behind label.now self.now) }
    {
        for text in self.set.as_slice() {
            out.extend_from_slice(label)?;
            out.extend_from_slice(text.as_slice())?;
        }
        Ok(())
    }
}
