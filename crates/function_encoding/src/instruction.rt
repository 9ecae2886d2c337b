// The instructions of an atom.

use formula::{Relation, Typed};

/// A step in the making of an atom, over a stack of the terms that are finished so far.
#[derive(Clone, Copy)]
pub enum Instruction<'a> {
    Number(i128),
    Name(u32),
    Negate,
    /// The first of two factors is a number, or else the second.
    Multiply(bool),
    /// The second of two terms is subtracted, or added.
    Add(bool),
    /// A function, by its number, of this many arguments.
    Call(u32, usize),
    /// The first of two terms where the formula is true, else the second.
    Choose(&'a Typed),
    Absolute,
    /// The first of two terms where it stands in this relation to the second, else the second.
    Extreme(Relation),
    Relate(Relation),
    /// A predicate, by its number, with plus (true) or minus, of this many arguments.
    Predicate(bool, u32, usize),
}
