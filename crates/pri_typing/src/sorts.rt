// The types of the constants that a file declares.

ghost use Rattle.std.specs.Prelude.{◌≡◌, IfOk, OnOk, ◌++◌, ◌∷◌, []};
ghost use Rattle.std.specs.List.{flat_map, filter_map};
ghost use Rattle.pri_typing.specs.Sorts.{existential_sorts, function_sort, sort_of, sorts_of, universal_sorts};

use form_typed::Sort;
use linear_term::Memory;
use pri_reader::{Block, Declared, Item, TypeName};
use sqlite_items::Items;
use std::alloc::Global;

/// The type that is written so.
pub fn sort_of(name: TypeName) -> Sort
    ensures { result ≡ sort_of name }
{
    match name {
        TypeName::Int => Sort::Int,
        TypeName::Nat => Sort::Nat,
        TypeName::Range(a, b) => Sort::Range(a, b),
    }
}

/// Puts the types of names after others.
#[tactic(auto, using(crate::proofs::Sorting::sorting))]
fn push_names(out: &mut Items<Sort>, names: &[Declared]) -> Result<(), Memory>
    ensures { OnOk result (out.new ≡ out.old ++ sorts_of names.now) }
{
    for constant in names {
        out.push(sort_of(constant.sort))?;
    }
    Ok(())
}

/// Puts the type of a function after others, where it is a constant.
fn push_function(out: &mut Items<Sort>, item: &Item) -> Result<(), Memory>
    ensures { OnOk result (out.new ≡ out.old ++ filter_map function_sort (item.now ∷ [])) }
{
    if item.arity == 0 {
        out.push(Sort::Int)?;
    }
    Ok(())
}

/// Puts the types of the functions that are constants after others.
#[tactic(auto, using(crate::proofs::Sorting::sorting))]
fn push_functions(out: &mut Items<Sort>, items: &[Item]) -> Result<(), Memory>
    ensures { OnOk result (out.new ≡ out.old ++ filter_map function_sort items.now) }
{
    for item in items {
        push_function(out, item)?;
    }
    Ok(())
}

/// Puts the types of the existential constants of a block after others.
#[tactic(auto, using(crate::proofs::Sorting::sorting))]
fn push_existentials(out: &mut Items<Sort>, block: &Block) -> Result<(), Memory>
    ensures { OnOk result (out.new ≡ out.old ++ existential_sorts block.now) }
{
    match block {
        Block::Existentials(_, names) => push_names(out, names.as_slice()),
        Block::Universals(_, _) => Ok(()),
        Block::Functions(_, _) => Ok(()),
        Block::Predicates(_, _) => Ok(()),
        Block::Problem(_, _) => Ok(()),
        Block::Interpolant(_, _) => Ok(()),
    }
}

/// Puts the types of the universal constants of a block after others.
#[tactic(auto, using(crate::proofs::Sorting::sorting))]
fn push_universals(out: &mut Items<Sort>, block: &Block) -> Result<(), Memory>
    ensures { OnOk result (out.new ≡ out.old ++ universal_sorts block.now) }
{
    match block {
        Block::Universals(_, names) => push_names(out, names.as_slice()),
        Block::Functions(_, items) => push_functions(out, items.as_slice()),
        Block::Existentials(_, _) => Ok(()),
        Block::Predicates(_, _) => Ok(()),
        Block::Problem(_, _) => Ok(()),
        Block::Interpolant(_, _) => Ok(()),
    }
}

/// The types of the existential constants that the blocks declare, in the order of their declarations.
#[tactic(auto, using(crate::proofs::Sorting::sorting))]
pub fn existential_types(alloc: Global, blocks: &[Block]) -> Result<Items<Sort>, Memory>
    ensures { IfOk result (λ ss. ss ≡ flat_map existential_sorts blocks.now) }
{
    let mut out = Items::new(alloc);
    for block in blocks {
        push_existentials(&mut out, block)?;
    }
    Ok(out)
}

/// The types of the universal constants that the blocks declare, in the order of their declarations.
#[tactic(auto, using(crate::proofs::Sorting::sorting))]
pub fn universal_types(alloc: Global, blocks: &[Block]) -> Result<Items<Sort>, Memory>
    ensures { IfOk result (λ ss. ss ≡ flat_map universal_sorts blocks.now) }
{
    let mut out = Items::new(alloc);
    for block in blocks {
        push_universals(&mut out, block)?;
    }
    Ok(out)
}
