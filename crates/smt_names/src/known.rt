// What is known of a script after its commands so far: its symbols, and what its defined functions say.

ghost use Rattle.std.specs.Prelude.{◌≡◌, ◌+◌, ◌++◌, ◌∷◌, [], IfOk, false, length, take};
ghost use Rattle.base_texts.specs.Texts.{is_among};
ghost use Rattle.smt_terms.specs.Term.{phrase};
ghost use Rattle.smt_terms.specs.Evaluation.{Globals, defined_by};
ghost use Rattle.smt_terms.specs.Translation.{said, symbol_said};
ghost use Rattle.smt_names.specs.Body.{shape};
ghost use Rattle.smt_names.specs.Known.{Knows, declared_as, kept_as};
ghost use Rattle.smt_names.specs.Saying.{calls_of, shape_said};
ghost use Rattle.smt_names.specs.Scopes.{BoundNames, named_onto};
ghost use Rattle.smt_names.specs.Slots.{slots_onto};

use crate::body::{Body, Leaf};
use crate::resolving::{Next, resolve};
use crate::scope::{Named, Scope};
use crate::symbols::{Meant, Symbols};
use crate::uses::used_slots;
use linear_term::Memory;
use smt_terms::Term;
use sqlite_items::Items;
use std::alloc::Global;

/// What a declared symbol is: an Int constant, a function with arguments, or a predicate, by its number among those of its kind.
#[derive(Clone, Copy)]
pub enum Declared {
    Constant(u32),
    Function(u32),
    Predicate(u32),
}

/// The symbols of a script, and the bodies of its defined functions in the order of their definitions.
#[derive(Drop)]
pub struct Known {
    pub symbols: Symbols,
    pub definitions: Items<Body>,
}

fn meant(declared: Declared) -> Meant
    ensures { result ≡ kept_as declared }
{
    match declared {
        Declared::Constant(k) => Meant::Constant(k),
        Declared::Function(k) => Meant::Function(k),
        Declared::Predicate(k) => Meant::Predicate(k),
    }
}

/// The names of a defined function as the first bound names.
fn parameters<'a>(alloc: Global, names: &'a [Items<u8>]) -> Result<Next<'a>, Memory>
    ensures names { IfOk result (λ r. (outer : BoundNames) → named_onto r.names.items outer ≡ slots_onto 0 names.now outer) }
    ensures count { IfOk result (λ r. r.count ≡ length names.now) }
{
    let mut out = Vec::new(alloc);
    let mut next = 0;
    for name in names {
        out.push(Named {
            text: name.as_slice(),
            leaf: Leaf::Slot(next),
        })?;
        let Some(more) = next.checked_add(1) else {
            return Err(Memory)
        };
        next = more;
    }
    Ok(Next {
        names: out,
        count: next,
    })
}

impl Known {
    /// Before all commands.
    pub fn new(alloc: Global) -> Known
        ensures knows { Knows result [] }
        ensures texts { result.symbols.texts ≡ [] }
        ensures definitions { result.definitions ≡ [] }
    {
        Known {
            symbols: Symbols::new(alloc),
            definitions: Items::new(alloc),
        }
    }

    /// Whether a symbol is declared or defined.
    pub fn contains(&self, text: &[u8]) -> bool
        ensures { result ≡ is_among text.now self.now.symbols.texts }
    {
        self.symbols.contains(text)
    }

    /// After the declaration of a symbol that is not known yet.
    pub fn declare(self, alloc: Global, text: &[u8], declared: Declared) -> Result<Known, Memory>
        ensures knows { IfOk result (λ k. (gs : Globals) → Knows self gs → is_among text.now self.symbols.texts ≡ false → Knows k ((text.now, declared_as declared) ∷ gs)) }
        ensures texts { IfOk result (λ k. is_among text.now self.symbols.texts ≡ false → k.symbols.texts ≡ self.symbols.texts ++ text.now ∷ []) }
        ensures earlier { IfOk result (λ k. take (length self.definitions) k.definitions ≡ self.definitions) }
        ensures definitions { IfOk result (λ k. k.definitions ≡ self.definitions) }
    {
        let Known {
            symbols,
            definitions,
        } = self;
        Ok(Known {
            symbols: symbols.with(alloc, text, meant(declared))?,
            definitions,
        })
    }

    /// After the definition of a function of these names that is not known yet.
    pub fn define(
        self,
        alloc: Global,
        text: &[u8],
        names: &[Items<u8>],
        term: &Term,
    ) -> Result<Known, Memory>
        ensures knows { IfOk result (λ k. (gs : Globals) → Knows self gs → is_among text.now self.symbols.texts ≡ false
            → Knows k ((text.now, defined_by names.now (phrase term.now)) ∷ gs)) }
        ensures texts { IfOk result (λ k. is_among text.now self.symbols.texts ≡ false → k.symbols.texts ≡ self.symbols.texts ++ text.now ∷ []) }
        ensures earlier { IfOk result (λ k. take (length self.definitions) k.definitions ≡ self.definitions) }
        ensures one { IfOk result (λ k. length k.definitions ≡ length self.definitions + 1) }
    {
        let Known {
            symbols,
            mut definitions,
        } = self;
        if definitions.len() > u32::MAX as usize {
            return Err(Memory);
        }
        let number = definitions.len() as u32;
        let Next {
            names: bound,
            count,
        } = parameters(alloc, names)?;
        let scope = Scope::Names(bound.as_slice(), &Scope::Nothing);
        let body = resolve(alloc, &symbols, definitions.as_slice(), &scope, count, term)?;
        let used = used_slots(alloc, count, &body)?;
        let symbols = symbols.with(alloc, text, Meant::Defined(number, count))?;
        let symbols = symbols.with_used(used)?;
        definitions.push(body)?;
        Ok(Known {
            symbols,
            definitions,
        })
    }

    /// What a term says that uses no other symbols.
    pub fn read(&self, alloc: Global, term: &Term) -> Result<Body, Memory>
        ensures { IfOk result (λ b. (gs : Globals) → Knows self.now gs
            → shape_said (calls_of self.now.definitions) [] (shape b) ≡ said (symbol_said gs) [] (phrase term.now)) }
    {
        resolve(
            alloc,
            &self.symbols,
            self.definitions.as_slice(),
            &Scope::Nothing,
            0,
            term,
        )
    }
}
