// The cuts that a file asks for.

ghost use Rattle.std.specs.Prelude.{◌≡◌, ◌<◌, ◌^◌, IfOk, OnOk, length, map, ◌++◌};
ghost use Rattle.std.specs.List.{flat_map};
ghost use Rattle.pri_typing.specs.Parts.{cut_of, cuts_in};
ghost use Rattle.base_texts.specs.Texts.{place};

use crate::problem::Cut;
use base_texts::Texts;
use linear_term::Memory;
use pri_reader::{Block, Name, NameSet};
use sqlite_items::Items;
use std::alloc::Global;

/// The numbers of the parts of these names.
fn numbers(alloc: Global, parts: &Texts, names: &[Name]) -> Result<Items<u32>, Memory>
    requires { length parts.now < 2 ^ 32 }
    ensures { IfOk result (λ ns. ns ≡ map (λ n. place n.text parts.now) names.now) }
{
    let mut out = Items::new(alloc);
    for name in names {
        out.push(parts.number(name.text.as_slice()))?;
    }
    Ok(out)
}

fn cut(alloc: Global, parts: &Texts, sets: &[NameSet]) -> Result<Cut, Memory>
    requires { length parts.now < 2 ^ 32 }
    ensures { IfOk result (λ c. c ≡ cut_of parts.now sets.now) }
{
    let mut out = Items::new(alloc);
    for set in sets {
        out.push(numbers(alloc, parts, set.names.as_slice())?)?;
    }
    Ok(Cut { sets: out })
}

/// Puts the cut that a block asks for after others.
fn push_cut(alloc: Global, out: &mut Items<Cut>, parts: &Texts, block: &Block) -> Result<(), Memory>
    requires { length parts.now < 2 ^ 32 }
    ensures { OnOk result (out.new ≡ out.old ++ cuts_in parts.now block.now) }
{
    match block {
        Block::Interpolant(_, sets) => {
            out.push(cut(alloc, parts, sets.as_slice())?)?;
            Ok(())
        }
        Block::Universals(_, _) => Ok(()),
        Block::Existentials(_, _) => Ok(()),
        Block::Functions(_, _) => Ok(()),
        Block::Predicates(_, _) => Ok(()),
        Block::Problem(_, _) => Ok(()),
    }
}

/// The cuts that the blocks ask for, in their order.
pub fn cuts(alloc: Global, parts: &Texts, blocks: &[Block]) -> Result<Items<Cut>, Memory>
    requires { length parts.now < 2 ^ 32 }
    ensures { IfOk result (λ cs. cs ≡ flat_map (cuts_in parts.now) blocks.now) }
{
    let mut out = Items::new(alloc);
    for block in blocks {
        push_cut(alloc, &mut out, parts, block)?;
    }
    Ok(out)
}
