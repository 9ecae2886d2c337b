// The symbols of a script, with what they are declared or defined as.

ghost use Rattle.std.specs.Prelude.{◌≡◌, ◌++◌, ◌∷◌, [], IfOk, false};
ghost use Rattle.smt_names.specs.Symbols.{looked_up};
ghost use Rattle.base_texts.specs.Texts.{is_among};

use base_texts::Texts;
use linear_term::Memory;
use sqlite_items::Items;
use std::alloc::Global;

/// What a symbol is: an Int constant, a function with arguments, or a predicate, by its number among those of its kind; or a
/// defined function, by its number, with the number of its arguments.
#[derive(Clone, Copy)]
pub enum Meant {
    Constant(u32),
    Function(u32),
    Predicate(u32),
    Defined(u32, u32),
}

/// Different symbols, each with what it is; and for each defined function, which of its bound names its body uses.
#[derive(Drop)]
pub struct Symbols {
    texts: Texts,
    meant: Vec<Meant>,
    pub(crate) used: Items<Items<bool>>,
}

impl Symbols {
    /// No symbol.
    pub fn new(alloc: Global) -> Symbols
        ensures texts { result.texts ≡ [] }
        ensures meant { result.meant.items ≡ [] }
        ensures used { result.used ≡ [] }
    {
        Symbols {
            texts: Texts::new(alloc),
            meant: Vec::new(alloc),
            used: Items::new(alloc),
        }
    }

    /// What a symbol is; none where it is not there.
    pub fn get(&self, text: &[u8]) -> Option<Meant>
        ensures { result ≡ looked_up self.now text.now }
    {
        let Some(i) = self.texts.place(text) else {
            return None
        };
        if i < self.meant.len() {
            Some(self.meant[i])
        } else {
            None
        }
    }

    /// Whether a symbol is there.
    pub fn contains(&self, text: &[u8]) -> bool
        ensures { result ≡ is_among text.now self.now.texts }
    {
        self.texts.contains(text)
    }

    /// These symbols with one more, which is not among them.
    pub fn with(self, alloc: Global, text: &[u8], meant: Meant) -> Result<Symbols, Memory>
        ensures more { IfOk result (λ s. is_among text.now self.texts ≡ false → (s.texts ≡ self.texts ++ text.now ∷ []) × (s.meant.items ≡ self.meant.items ++ meant ∷ [])) }
        ensures used { IfOk result (λ s. s.used ≡ self.used) }
    {
        let Symbols {
            mut texts,
            meant: mut all,
            used,
        } = self;
        texts.add(alloc, text)?;
        all.push(meant)?;
        Ok(Symbols {
            texts,
            meant: all,
            used,
        })
    }

    /// These symbols after one definition more, whose body uses these of its bound names.
    pub(crate) fn with_used(self, used: Items<bool>) -> Result<Symbols, Memory>
        ensures texts { IfOk result (λ s. s.texts ≡ self.texts) }
        ensures meant { IfOk result (λ s. s.meant.items ≡ self.meant.items) }
        ensures used { IfOk result (λ s. s.used ≡ self.used ++ used ∷ []) }
    {
        let Symbols {
            texts,
            meant,
            used: mut all,
        } = self;
        all.push(used)?;
        Ok(Symbols {
            texts,
            meant,
            used: all,
        })
    }
}
