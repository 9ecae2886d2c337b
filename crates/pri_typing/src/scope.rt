// What a name stands for at a site of a formula.

ghost use Rattle.std.specs.Prelude.{◌≡◌, List, ℕ, is_some, Some, None, if◌then◌else◌, length, ◌<◌, ◌≤◌, ◌^◌};
ghost use Rattle.std.specs.Option.{option_map, IfSome};
ghost use Rattle.pri_typing.specs.Sites.{IsFit, bound_texts, most_bound, last_place, scope_at};
ghost use Rattle.pri_typing.specs.Faults.{use_of};
ghost use Rattle.pri_typing.specs.Typing.{is_applied};
ghost use Rattle.pri_typing.specs.Scope.{depth_of, refers, symbol_of};
ghost use Rattle.pri_typing.specs.declared.declaration.Declaration.{Declaration};

use crate::declaration::Kind;
use crate::symbols::Symbols;
use base_texts::Texts;
use pri_reader::Declared;

/// What an expression is: a formula, or a term.
#[derive(Clone, Copy)]
pub enum Category {
    Formula,
    Term,
}

/// What a use of a name has to look like: what it is, and the number of its arguments.
#[derive(Clone, Copy)]
pub struct Use {
    pub category: Category,
    pub arity: u32,
}

/// What a name stands for: a constant or a bound variable by its number as a name of the problem's formula, and a function
/// or a predicate by its number and its arity.
#[derive(Clone, Copy)]
pub enum Referent {
    Name(u32),
    Function(u32, u32),
    Predicate(u32, u32),
}

/// The bound names at a site: those of the innermost quantifier, and those around it.
#[derive(Clone, Copy)]
pub enum BoundNames<'a> {
    Nothing,
    More(&'a [Declared], &'a BoundNames<'a>),
}

/// A site of a formula: the symbols of the file, the names of its parts, and the bound names there.
#[derive(Clone, Copy)]
pub struct Site<'a> {
    pub symbols: &'a Symbols,
    pub parts: &'a Texts,
    pub bound: &'a BoundNames<'a>,
}

fn last_found(found: Option<usize>, i: usize, is_same: bool) -> Option<usize>
    ensures { result ≡ (if is_same then Some i else found) }
{
    if is_same { Some(i) } else { found }
}

/// The last of the names that has this text.
fn last_place_of(names: &[Declared], text: &[u8]) -> Option<usize>
    ensures found { result ≡ last_place text.now names.now }
    ensures within { IfSome result (λ i. i < length names.now) }
{
    let mut found = None;
    for i in 0..names.len() {
        found = last_found(found, i, text == names[i].name.text.as_slice());
    }
    found
}

/// Whether a bound name has this text.
fn is_bound(bound: &BoundNames, text: &[u8]) -> bool
    ensures { result ≡ is_some (depth_of text.now (bound_texts bound.now)) }
{
    match bound {
        BoundNames::Nothing => false,
        BoundNames::More(names, outer) => {
            last_place_of(names, text).is_some() || is_bound(outer, text)
        }
    }
}

/// What a use of a symbol has to look like.
fn use_of_kind(kind: Kind) -> Use
    ensures { (ds : List Declaration) (n : ℕ) → result ≡ use_of (symbol_of ds kind n) }
{
    match kind {
        Kind::Existential => Use {
            category: Category::Term,
            arity: 0,
        },
        Kind::Universal => Use {
            category: Category::Term,
            arity: 0,
        },
        Kind::Function(arity) => Use {
            category: Category::Term,
            arity,
        },
        Kind::Predicate(arity) => Use {
            category: Category::Formula,
            arity,
        },
    }
}

/// What a use of this text has to look like here, if it stands for something.
pub fn use_at(site: &Site, text: &[u8]) -> Option<Use>
    ensures { result ≡ option_map use_of (refers (scope_at site.now) text.now) }
{
    if is_bound(site.bound, text) {
        return Some(Use {
            category: Category::Term,
            arity: 0,
        });
    }
    match site.symbols.find(text) {
        Some(entry) => Some(use_of_kind(entry.kind)),
        None => None,
    }
}

/// Whether a use of this text is an application here.
pub fn applies_at(site: &Site, text: &[u8]) -> bool
    ensures { result ≡ is_applied (refers (scope_at site.now) text.now) }
{
    if is_bound(site.bound, text) {
        return false;
    }
    match site.symbols.find(text) {
        Some(entry) => is_applied_kind(entry.kind),
        None => false,
    }
}

fn is_applied_kind(kind: Kind) -> bool
    ensures { (ds : List Declaration) (n : ℕ) → result ≡ is_applied (Some (symbol_of ds kind n)) }
{
    match kind {
        Kind::Existential => false,
        Kind::Universal => false,
        Kind::Function(_) => true,
        Kind::Predicate(_) => true,
    }
}

/// How many names are bound.
#[tactic(auto, using(crate::proofs::Scopes::bounding))]
fn count_bound(bound: &BoundNames) -> u32
    requires shallow { length (bound_texts bound.now) ≤ most_bound }
    ensures { result ≡ length (bound_texts bound.now) }
{
    match bound {
        BoundNames::Nothing => 0,
        BoundNames::More(names, outer) => names.len() as u32 + count_bound(outer),
    }
}

/// The number of the bound variables around the innermost one of this text.
#[tactic(auto, using(crate::proofs::Scopes::bounding))]
fn depth(bound: &BoundNames, text: &[u8]) -> Option<u32>
    requires shallow { length (bound_texts bound.now) ≤ most_bound }
    ensures { result ≡ depth_of text.now (bound_texts bound.now) }
{
    match bound {
        BoundNames::Nothing => None,
        BoundNames::More(names, outer) => {
            match last_place_of(names, text) {
                Some(i) => Some(count_bound(outer) + i as u32),
                None => depth(outer, text),
            }
        }
    }
}

/// What a name stands for.
pub fn refer(site: &Site, text: &[u8]) -> Option<Referent>
    requires { IsFit site.now }
    ensures { result ≡ refers (scope_at site.now) text.now }
{
    match depth(site.bound, text) {
        Some(depth) => Some(Referent::Name(site.symbols.constants() + depth)),
        None => {
            match site.symbols.find(text) {
                Some(entry) => Some(site.symbols.referent(entry)),
                None => None,
            }
        }
    }
}
