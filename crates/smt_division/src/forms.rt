// The forms of terms that are told by the head of a list, and the symbols that a term may not bind where division stands in it.

ghost use Rattle.smt_division.specs.Divisors.{text_of};
ghost use Rattle.smt_division.specs.Forms.{bind_operators, binder_of, binds_operator, form_named, form_of, index_of, is_connective, is_operator, is_positive, is_relation, is_word, pair_of, single_of};
ghost use Rattle.smt_lists.specs.Expressions.{expr, exprs_of};
ghost use Rattle.smt_lists.specs.declared.tree.Sexp.{Sexp};
ghost use Rattle.std.specs.Prelude.{◌≡◌, ◌∷◌, [], MatchOption, None, Some, false};

use crate::divisors::text_of;
use smt_lists::{AtomKind, Sexp};

/// What the head of a list begins, as far as the division inside it is concerned.
#[derive(Clone, Copy, Debug, PartialEq, Eq)]
pub enum Form {
    /// `let`
    Let,
    /// `forall` and `exists`
    Quantifier,
    /// `!`
    Note,
    /// A word or an atom whose form is no term here.
    Other,
    /// A list, as `(_ divisible 3)`.
    Indexed,
    /// `div`
    Quotient,
    /// `mod`
    Remainder,
    /// A relation of terms that may be integers.
    Relation,
    /// A connective of formulas.
    Connective,
    /// `ite`
    Choice,
    /// Any other symbol, used at its arguments.
    Use,
}

/// What a symbol at the head of a list begins.
fn form_named(text: &[u8]) -> Form
    ensures { result ≡ form_named text.now }
{
    if text == b"let".as_slice() {
        Form::Let
    } else if text == b"forall".as_slice() || text == b"exists".as_slice() {
        Form::Quantifier
    } else if text == b"!".as_slice() {
        Form::Note
    } else if text == b"_".as_slice() || text == b"as".as_slice() || text == b"match".as_slice() {
        Form::Other
    } else if text == b"div".as_slice() {
        Form::Quotient
    } else if text == b"mod".as_slice() {
        Form::Remainder
    } else if is_relation(text) {
        Form::Relation
    } else if is_connective(text) {
        Form::Connective
    } else if text == b"ite".as_slice() {
        Form::Choice
    } else {
        Form::Use
    }
}

/// Whether a symbol is a relation of terms that may be integers.
fn is_relation(text: &[u8]) -> bool
    ensures { result ≡ is_relation text.now }
{
    text == b"=".as_slice()
        || text == b"distinct".as_slice()
        || text == b"<".as_slice()
        || text == b"<=".as_slice()
        || text == b">".as_slice()
        || text == b">=".as_slice()
}

/// Whether a symbol is a connective of formulas.
fn is_connective(text: &[u8]) -> bool
    ensures { result ≡ is_connective text.now }
{
    text == b"and".as_slice()
        || text == b"or".as_slice()
        || text == b"not".as_slice()
        || text == b"xor".as_slice()
        || text == b"=>".as_slice()
}

/// What the head of a list begins.
pub fn form_of(head: &Sexp) -> Form
    ensures { result ≡ form_of (expr head.now) }
{
    match head {
        Sexp::Atom(a) => match &a.kind {
            AtomKind::Symbol(text) => form_named(text.as_slice()),
            AtomKind::Numeral(_)
            | AtomKind::LargeNumeral
            | AtomKind::Decimal
            | AtomKind::Hash
            | AtomKind::StringLiteral(_)
            | AtomKind::Keyword(_) => Form::Other,
        },
        Sexp::List(_, _) => Form::Indexed,
    }
}

/// Whether a symbol stands in what is made, or is taken away.
fn is_operator(text: &[u8]) -> bool
    ensures { result ≡ is_operator text.now }
{
    text == b"div".as_slice()
        || text == b"mod".as_slice()
        || text == b"and".as_slice()
        || text == b"<=".as_slice()
        || text == b"*".as_slice()
        || text == b"+".as_slice()
        || text == b"-".as_slice()
        || text == b"=".as_slice()
}

/// Whether an expression is a list that begins with such a symbol.
fn binds_operator(e: &Sexp) -> bool
    ensures { result ≡ binds_operator (expr e.now) }
{
    let Sexp::List(_, members) = e else {
        return false;
    };
    let Some((first, _)) = members.as_slice().split_first() else {
        return false;
    };
    match text_of(first) {
        Some(text) => is_operator(text),
        None => false,
    }
}

/// Whether one of these bindings or variables is such a symbol.
pub fn bind_operators(es: &[Sexp]) -> bool
    ensures { result ≡ bind_operators (exprs_of es.now) }
{
    for e in es {
        if binds_operator(e) {
            return true;
        }
    }
    false
}

/// Whether an expression is this symbol.
pub fn is_word(word: &[u8], e: &Sexp) -> bool
    ensures { result ≡ is_word word.now (expr e.now) }
{
    match text_of(e) {
        Some(text) => text == word,
        None => false,
    }
}

/// Whether an expression is a numeral of at least 1.
fn is_positive(e: &Sexp) -> bool
    ensures { result ≡ is_positive (expr e.now) }
{
    let Sexp::Atom(a) = e else {
        return false;
    };
    match &a.kind {
        AtomKind::Numeral(n) => 0 < *n,
        AtomKind::LargeNumeral
        | AtomKind::Decimal
        | AtomKind::Hash
        | AtomKind::StringLiteral(_)
        | AtomKind::Keyword(_)
        | AtomKind::Symbol(_) => false,
    }
}

/// The two expressions. Returns None if there are not two.
pub fn pair(es: &[Sexp]) -> Option<(&Sexp, &Sexp)>
    ensures { MatchOption result (pair_of (exprs_of es.now) ≡ None) (λ p. es.now ≡ p.0.now ∷ p.1.now ∷ []) }
{
    let Some((first, behind)) = es.split_first() else {
        return None;
    };
    let Some((second, end)) = behind.split_first() else {
        return None;
    };
    if !end.is_empty() {
        return None;
    }
    Some((first, second))
}

/// The expression. Returns None if there is not one.
pub fn single(es: &[Sexp]) -> Option<&Sexp>
    ensures { MatchOption result (single_of (exprs_of es.now) ≡ None) (λ t. es.now ≡ t.now ∷ []) }
{
    let Some((first, end)) = es.split_first() else {
        return None;
    };
    if !end.is_empty() {
        return None;
    }
    Some(first)
}

/// What follows the word of a `let` or a quantifier: a list with its offset, and a term.
#[derive(Clone, Copy)]
pub struct Scope<'a> {
    pub at: u64,
    pub members: &'a [Sexp],
    pub body: &'a Sexp,
}

/// The list and the term. Returns None if there are not these two, or if an operator is bound.
pub fn binder(es: &[Sexp]) -> Option<Scope<'_>>
    ensures { MatchOption result (binder_of (exprs_of es.now) ≡ None) (λ b. (es.now ≡ Sexp.List b.at b.members.now ∷ b.body.now ∷ []) × (bind_operators (exprs_of b.members.now) ≡ false)) }
{
    let (first, body) = pair(es)?;
    match first {
        Sexp::Atom(_) => None,
        Sexp::List(at, members) => {
            let members = members.as_slice();
            if bind_operators(members) {
                return None;
            }
            Some(Scope {
                at: *at,
                members,
                body,
            })
        }
    }
}

/// The n of `(_ divisible n)`.
pub fn index_of(head: &Sexp) -> Option<&Sexp>
    ensures { MatchOption result (index_of (expr head.now) ≡ None) (λ n. index_of (expr head.now) ≡ Some (expr n.now)) }
{
    let Sexp::List(_, members) = head else {
        return None;
    };
    let Some((first, rest)) = members.as_slice().split_first() else {
        return None;
    };
    let Some((second, n)) = pair(rest) else {
        return None;
    };
    if is_word(b"_", first) && is_word(b"divisible", second) && is_positive(n) {
        return Some(n);
    }
    None
}
