// The term that an expression is where some constants alone are declared.

ghost use Rattle.base_limits.specs.Limits.{most_constants};
ghost use Rattle.pri_typing.specs.Limits.{IsShallow};
ghost use Rattle.pri_typing.specs.Phrase.{phrase};
ghost use Rattle.pri_typing.specs.Problems.{unplaced};
ghost use Rattle.pri_typing.specs.Scope.{declarations};
ghost use Rattle.pri_typing.specs.Terms.{IsTypedTerm, as_declared};
ghost use Rattle.pri_typing.specs.declared.declaration.Kind.{Kind};
ghost use Rattle.std.specs.Prelude.{◌≡◌, ◌≤◌, IfOk, length, map};

use crate::build::build_term;
use crate::faults::fault;
use crate::scope::{BoundNames, Category, Site};
use crate::symbols::Symbols;
use base_texts::Texts;
use form_typed::TypedTerm;
use linear_term::Memory;
use pri_reader::{Block, Declared, Expr, Name, TypeName};
use sqlite_items::Items;
use std::alloc::Global;

/// These names, as a block declares them.
fn declare(alloc: Global, constants: &[Items<u8>]) -> Result<Items<Declared>, Memory>
    ensures { IfOk result (λ names. names ≡ map as_declared constants.now) }
{
    let mut names = Items::new(alloc);
    for constant in constants {
        let text = Items::from_slice(alloc, constant.as_slice())?;
        let name = Name { at: 0, text };
        let sort = TypeName::Int;
        names.push(Declared { sort, name })?;
    }
    Ok(names)
}

/// A block that declares these existential constants.
fn constants_block(alloc: Global, constants: &[Items<u8>]) -> Result<Items<Block>, Memory>
    ensures { IfOk result (λ blocks. declarations blocks ≡ map (unplaced Kind.Existential) constants.now) }
{
    let names = declare(alloc, constants)?;
    let mut blocks = Items::new(alloc);
    blocks.push(Block::Existentials(0, names))?;
    Ok(blocks)
}

/// The term that an expression is where these constants alone are declared; none where typing finds a fault in it.
pub fn resolve_term(
    alloc: Global,
    constants: &[Items<u8>],
    expr: &Expr,
) -> Result<Option<TypedTerm>, Memory>
    requires few { length constants.now ≤ most_constants }
    requires shallow { IsShallow 0 (phrase expr.now) }
    ensures { IfOk result (IsTypedTerm constants.now (phrase expr.now)) }
{
    let blocks = constants_block(alloc, constants)?;
    let symbols = Symbols::of(alloc, blocks.as_slice())?;
    let parts = Texts::new(alloc);
    let bound = BoundNames::Nothing;
    let here = Site {
        symbols: &symbols,
        parts: &parts,
        bound: &bound,
    };
    match fault(&here, Category::Term, expr) {
        Some(_) => Ok(None),
        None => Ok(Some(build_term(alloc, &here, expr)?)),
    }
}
