// A problem as typing makes it of a file, and why there is none.

ghost use Rattle.std.specs.Prelude.{◌≡◌};

use form_typed::{Sort, Typed};
use linear_term::Memory;
use sqlite_items::Items;

/// A problem. In `formula` the name of a constant is its place among the existential constants and, after them, the
/// universal ones; a bound variable is the name after those of the formula around it.
#[derive(Drop)]
pub struct Problem {
    /// In the order of their declarations, as all four lists of names are.
    pub existentials: Items<Items<u8>>,
    /// The type of each of them, in their order.
    pub existential_types: Items<Sort>,
    /// With the functions without arguments.
    pub universals: Items<Items<u8>>,
    /// The type of each of them, in their order; that of a function without arguments is `int`.
    pub universal_types: Items<Sort>,
    /// Each with at least one argument.
    pub functions: Items<Symbol>,
    pub predicates: Items<Symbol>,
    /// The names of the parts, in the order in which the formula has them first.
    pub parts: Items<Items<u8>>,
    pub formula: Typed,
    /// In the order of their blocks.
    pub cuts: Items<Cut>,
    /// The offset of the first identifier of the formula that is applied: a predicate, or a function with arguments.
    pub first_application: Option<u64>,
}

/// A function or a predicate with the number of its arguments.
#[derive(Drop)]
pub struct Symbol {
    pub name: Items<u8>,
    pub arity: u32,
}

/// What an `\interpolant` block asks for: sets of parts, by their numbers.
#[derive(Drop)]
pub struct Cut {
    pub sets: Items<Items<u32>>,
}

/// Why a file poses no problem, with the offset of the place.
#[derive(Clone, Copy, Debug, PartialEq, Eq)]
pub enum TypeRefusal {
    /// An identifier of a formula that is neither bound nor declared.
    Undeclared(u64),
    /// A name that an earlier declaration has.
    Redeclared(u64),
    /// A use with another number of arguments than declared, 0 for constants and bound variables.
    Arity(u64),
    /// A formula where a term is needed, or a term where a formula is needed; the place is its first token.
    Kind(u64),
    /// A `*` of which neither side is built of numbers alone.
    NonLinear(u64),
    /// A part that cannot stand where it does, or a fault in the sets of an `\interpolant` block.
    Parts(u64),
    /// The 1,001st declaration.
    Many(u64),
    Memory,
}

impl From<Memory> for TypeRefusal {
    ghost use Rattle.pri_typing.specs.declared.problem.TypeRefusal.{TypeRefusal};

    ghost from_gives = { λ _ e. e ≡ TypeRefusal.Memory };

    fn from(_error: Memory) -> TypeRefusal {
        TypeRefusal::Memory
    }
}
