// What a problem file is read as. Formulas and terms share one grammar and so one type; typing tells them apart.

ghost use Rattle.std.specs.Prelude.{◌≡◌};

use linear_term::Memory;
use sqlite_items::{Boxed, Items};
use std::alloc::AllocError;

/// A file: its blocks, in the order in which they stand.
#[derive(Drop)]
pub struct File {
    pub blocks: Items<Block>,
}

/// A block. The number is the offset of its first token.
#[derive(Drop)]
pub enum Block {
    /// `\universalConstants`
    Universals(u64, Items<Declared>),
    /// `\existentialConstants`
    Existentials(u64, Items<Declared>),
    /// `\functions`
    Functions(u64, Items<Item>),
    /// `\predicates`
    Predicates(u64, Items<Item>),
    /// `\problem`
    Problem(u64, Expr),
    /// `\interpolant`
    Interpolant(u64, Items<NameSet>),
}

/// An identifier, with the offset of its first byte.
#[derive(Drop)]
pub struct Name {
    pub at: u64,
    pub text: Items<u8>,
}

/// A type of constants and of bound names.
#[derive(Clone, Copy, Debug, PartialEq, Eq)]
pub enum TypeName {
    /// `int`
    Int,
    /// `nat`
    Nat,
    /// `int[a, b]`, with its lower bound and its upper one.
    Range(i128, i128),
}

/// A declared constant or a bound name, with its type.
#[derive(Drop)]
pub struct Declared {
    pub sort: TypeName,
    pub name: Name,
}

/// A declared function or predicate, with the number of its arguments.
#[derive(Drop)]
pub struct Item {
    pub name: Name,
    pub arity: u32,
}

/// A set of names of an `\interpolant` block: the offset of the `;` before it, or of its first name for the first set.
#[derive(Drop)]
pub struct NameSet {
    pub at: u64,
    pub names: Items<Name>,
}

/// A formula or a term, with the offset of its first token.
#[cycle(expression)]
#[derive(Drop)]
pub struct Expr {
    pub at: u64,
    pub form: Form,
}

/// The forms of formulas and terms.
#[cycle(expression)]
#[derive(Drop)]
pub enum Form {
    Number(i128),
    Truth(bool),
    /// A name, with its arguments.
    Use(Name, Items<Expr>),
    /// An expression in parentheses.
    Group(Boxed<Expr>),
    /// `\if (..) \then (..) \else (..)`
    If(Boxed<Expr>, Boxed<Expr>, Boxed<Expr>),
    Abs(Boxed<Expr>),
    Min(Boxed<Expr>, Boxed<Expr>),
    Max(Boxed<Expr>, Boxed<Expr>),
    Minus(Boxed<Expr>),
    /// A product of two, with the offset of its `*`.
    Product(Boxed<Expr>, u64, Boxed<Expr>),
    /// A sum: its first term, and the later ones with their signs.
    Sum(Boxed<Expr>, Items<Added>),
    Compare(Comparison, Boxed<Expr>, Boxed<Expr>),
    Not(Boxed<Expr>),
    /// A quantifier, true for `\forall`, with its bound names and its body.
    Quantified(bool, Items<Declared>, Boxed<Expr>),
    /// `\part [name]`
    Part(Name, Boxed<Expr>),
    And(Items<Expr>),
    Or(Items<Expr>),
    Implies(Boxed<Expr>, Boxed<Expr>),
    Iff(Boxed<Expr>, Boxed<Expr>),
}

/// A later term of a sum, with its sign.
#[cycle(expression)]
#[derive(Drop)]
pub struct Added {
    pub minus: bool,
    pub term: Expr,
}

/// `=`, `!=`, `<`, `<=`, `>` and `>=`.
#[derive(Clone, Copy, Debug, PartialEq, Eq)]
pub enum Comparison {
    Equal,
    Unequal,
    Less,
    AtMost,
    Greater,
    AtLeast,
}

/// Why a file is not read, with the offset of the token, or the file's length where it ends too early.
#[derive(Clone, Copy, Debug, PartialEq, Eq)]
pub enum ReadRefusal {
    /// No file goes on with this token.
    Syntax(u64),
    /// A numeral above 2^127 − 1.
    Literal(u64),
    /// This token opens the 201st level.
    Deep(u64),
    Memory,
}

impl From<AllocError> for ReadRefusal {
    ghost use Rattle.pri_reader.specs.declared.tree.ReadRefusal.{ReadRefusal};

    ghost from_gives = { λ _ e. e ≡ ReadRefusal.Memory };

    fn from(_error: AllocError) -> ReadRefusal {
        ReadRefusal::Memory
    }
}

impl From<Memory> for ReadRefusal {
    ghost use Rattle.pri_reader.specs.declared.tree.ReadRefusal.{ReadRefusal};

    ghost from_gives = { λ _ e. e ≡ ReadRefusal.Memory };

    fn from(_error: Memory) -> ReadRefusal {
        ReadRefusal::Memory
    }
}
