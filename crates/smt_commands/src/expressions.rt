// What an S-expression is, where a command asks for a symbol, a keyword, a string, a number of levels, or a list.

ghost use Rattle.smt_commands.specs.Commands.{is_keyword, keyword_of, levels_of, members_of, string_of, symbol_of};
ghost use Rattle.smt_commands.specs.Views.{items_of, now_of, symbol_is};
ghost use Rattle.smt_lists.specs.Expressions.{expr};
ghost use Rattle.std.specs.Option.{option_map};
ghost use Rattle.std.specs.Prelude.{◌≡◌};

use smt_lists::{AtomKind, Sexp};

/// A symbol with the offset of its first byte.
#[derive(Clone, Copy)]
pub struct Name<'a> {
    pub at: u64,
    pub text: &'a [u8],
}

/// How many levels an S-expression says.
#[tactic(auto, using(crate::proofs::Forms::views))]
pub(crate) fn levels(e: &Sexp) -> Option<u128>
    ensures exact { result ≡ levels_of (expr e.now) }
{
    match e {
        Sexp::Atom(a) => match &a.kind {
            AtomKind::Numeral(count) => Some(count.unsigned_abs()),
            AtomKind::Symbol(_)
            | AtomKind::LargeNumeral
            | AtomKind::Decimal
            | AtomKind::Hash
            | AtomKind::StringLiteral(_)
            | AtomKind::Keyword(_) => None,
        },
        Sexp::List(_, _) => None,
    }
}

/// The symbol that an S-expression is.
#[tactic(auto, using(crate::proofs::Forms::views))]
pub fn symbol(e: &Sexp) -> Option<Name<'_>>
    ensures exact { option_map symbol_is result ≡ symbol_of (expr e.now) }
{
    match e {
        Sexp::Atom(a) => match &a.kind {
            AtomKind::Symbol(text) => Some(Name {
                at: a.at,
                text: text.as_slice(),
            }),
            AtomKind::Numeral(_)
            | AtomKind::LargeNumeral
            | AtomKind::Decimal
            | AtomKind::Hash
            | AtomKind::StringLiteral(_)
            | AtomKind::Keyword(_) => None,
        },
        Sexp::List(_, _) => None,
    }
}

/// Whether an S-expression is a keyword.
pub fn is_keyword(e: &Sexp) -> bool
    ensures exact { result ≡ is_keyword (expr e.now) }
{
    keyword(e).is_some()
}

/// The keyword that an S-expression is.
#[tactic(auto, using(crate::proofs::Forms::views))]
pub(crate) fn keyword(e: &Sexp) -> Option<&[u8]>
    ensures exact { option_map now_of result ≡ keyword_of (expr e.now) }
{
    match e {
        Sexp::Atom(a) => match &a.kind {
            AtomKind::Keyword(text) => Some(text.as_slice()),
            AtomKind::Symbol(_)
            | AtomKind::Numeral(_)
            | AtomKind::LargeNumeral
            | AtomKind::Decimal
            | AtomKind::Hash
            | AtomKind::StringLiteral(_) => None,
        },
        Sexp::List(_, _) => None,
    }
}

/// What stands between the quotes of a string.
#[tactic(auto, using(crate::proofs::Forms::views))]
pub(crate) fn string_text(e: &Sexp) -> Option<&[u8]>
    ensures exact { option_map now_of result ≡ string_of (expr e.now) }
{
    match e {
        Sexp::Atom(a) => match &a.kind {
            AtomKind::StringLiteral(text) => Some(text.as_slice()),
            AtomKind::Symbol(_)
            | AtomKind::Numeral(_)
            | AtomKind::LargeNumeral
            | AtomKind::Decimal
            | AtomKind::Hash
            | AtomKind::Keyword(_) => None,
        },
        Sexp::List(_, _) => None,
    }
}

/// The members of a list.
#[tactic(auto, using(crate::proofs::Forms::views))]
pub fn members(e: &Sexp) -> Option<&[Sexp]>
    ensures exact { option_map items_of result ≡ members_of (expr e.now) }
{
    match e {
        Sexp::Atom(_) => None,
        Sexp::List(_, items) => Some(items.as_slice()),
    }
}
