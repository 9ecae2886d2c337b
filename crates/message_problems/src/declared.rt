// What a file that the grammar takes declares by a name.

use pri_reader::{Block, Declared, File, Item};

/// What an expression is.
#[derive(Clone, Copy, PartialEq, Eq)]
pub(crate) enum Kind {
    Formula,
    Term,
}

/// What a name stands for.
#[derive(Clone, Copy)]
pub(crate) struct Symbol {
    pub(crate) kind: Kind,
    pub(crate) arity: usize,
}

/// What a file declares by a name.
#[derive(Clone, Copy)]
pub(crate) enum Found {
    Nothing,
    Once(Symbol),
    Twice,
}

impl Found {
    /// The same with another declaration of the name.
    fn with(self, symbol: Symbol) -> Found {
        match self {
            Found::Nothing => Found::Once(symbol),
            _ => Found::Twice,
        }
    }
}

/// What a file declares by this name.
pub(crate) fn find_symbol(file: &File, text: &[u8]) -> Found {
    let mut found = Found::Nothing;
    for block in file.blocks.as_slice() {
        match block {
            Block::Universals(_, constants) | Block::Existentials(_, constants) => {
                found = with_constants(found, constants.as_slice(), text);
            }
            Block::Functions(_, items) => {
                found = with_items(found, items.as_slice(), Kind::Term, text);
            }
            Block::Predicates(_, items) => {
                found = with_items(found, items.as_slice(), Kind::Formula, text);
            }
            Block::Problem(_, _) | Block::Interpolant(_, _) => {}
        }
    }
    found
}

/// The same with the constants of this name.
fn with_constants(found: Found, constants: &[Declared], text: &[u8]) -> Found {
    let mut found = found;
    for constant in constants {
        if constant.name.text.as_slice() == text {
            found = found.with(Symbol {
                kind: Kind::Term,
                arity: 0,
            });
        }
    }
    found
}

/// The same with the functions or predicates of this name.
fn with_items(found: Found, items: &[Item], kind: Kind, text: &[u8]) -> Found {
    let mut found = found;
    for item in items {
        if item.name.text.as_slice() == text {
            found = found.with(Symbol {
                kind,
                arity: item.arity as usize,
            });
        }
    }
    found
}

/// The place of the first declaration of a name.
pub(crate) fn first_declaration(file: &File, text: &[u8]) -> Option<u64> {
    for block in file.blocks.as_slice() {
        match block {
            Block::Universals(_, constants) | Block::Existentials(_, constants) => {
                for constant in constants.as_slice() {
                    if constant.name.text.as_slice() == text {
                        return Some(constant.name.at);
                    }
                }
            }
            Block::Functions(_, items) | Block::Predicates(_, items) => {
                for item in items.as_slice() {
                    if item.name.text.as_slice() == text {
                        return Some(item.name.at);
                    }
                }
            }
            Block::Problem(_, _) | Block::Interpolant(_, _) => {}
        }
    }
    None
}
