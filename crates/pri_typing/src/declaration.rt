// Declarations of symbols.

use sqlite_items::Items;

/// What a symbol is declared as. The numbers are those of the arguments, of a function at least one.
#[derive(Clone, Copy)]
pub enum Kind {
    Existential,
    Universal,
    Function(u32),
    Predicate(u32),
}

/// A declaration of a symbol, with the offset of its name.
#[derive(Drop)]
pub struct Declaration {
    pub at: u64,
    pub text: Items<u8>,
    pub kind: Kind,
}
