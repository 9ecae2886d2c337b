// Why a script is refused.

/// Why a script is refused, with the offset of the token, or the text's length where it ends too early.
#[derive(Clone, Copy, Debug, PartialEq, Eq)]
pub enum ScriptRefusal {
    /// No script goes on with this token.
    Syntax(u64),
    /// A numeral above 2^127 − 1 in a term.
    Literal(u64),
    /// This `(` opens the 201st level.
    Deep(u64),
    /// A symbol that nothing before declares or defines.
    Undeclared(u64),
    /// A second declaration or definition of a symbol, or one of an operator's name.
    Redeclared(u64),
    /// A symbol or an operator with a wrong number of arguments.
    Arity(u64),
    /// A term of the wrong sort.
    Kind(u64),
    /// A product of two arguments that are no numerals.
    NonLinear(u64),
    /// The 1,001st declared symbol.
    Many(u64),
    /// Too many nodes or levels.
    Large,
    /// What this program does not take of SMT-LIB.
    Profile(u64),
    Memory,
}
