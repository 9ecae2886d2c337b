// The names that are bound where a term stands.

ghost use Rattle.std.specs.Prelude.{◌≡◌, if◌then◌else◌, Some};
ghost use Rattle.smt_terms.specs.Operators.{found};
ghost use Rattle.smt_names.specs.Scopes.{last_named, leaves_at};

use crate::body::Leaf;

/// A bound name with what it stands for.
#[derive(Clone, Copy)]
pub struct Named<'a> {
    pub text: &'a [u8],
    pub leaf: Leaf,
}

/// The bound names at a place.
#[derive(Clone, Copy)]
pub enum Scope<'a> {
    Nothing,
    /// These, the last one innermost, and those around them.
    Names(&'a [Named<'a>], &'a Scope<'a>),
}

fn later(found: Option<Leaf>, is_same: bool, leaf: Leaf) -> Option<Leaf>
    ensures { result ≡ (if is_same then Some leaf else found) }
{
    if is_same { Some(leaf) } else { found }
}

/// What the last one of a text stands for.
#[tactic(auto, using(crate::proofs::Finding::one_name_more))]
fn find_last(names: &[Named<'_>], text: &[u8]) -> Option<Leaf>
    ensures { result ≡ last_named text.now names.now }
{
    let mut found = None;
    for name in names {
        found = later(found, text == name.text, name.leaf);
    }
    found
}

/// What the innermost bound name of a text stands for.
pub fn find(scope: &Scope<'_>, text: &[u8]) -> Option<Leaf>
    ensures { result ≡ found text.now (leaves_at scope.now) }
{
    match scope {
        Scope::Nothing => None,
        Scope::Names(names, outer) => match find_last(names, text) {
            Some(leaf) => Some(leaf),
            None => find(outer, text),
        },
    }
}
