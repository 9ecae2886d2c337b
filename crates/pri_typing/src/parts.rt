// What keeps the parts of a problem from being cut into sets.

ghost use Rattle.std.specs.Prelude.{◌≡◌, ◌∷◌, [], IfOk, OnOk, not, if◌then◌else◌};
ghost use Rattle.std.specs.List.{flat_map, list_any};
ghost use Rattle.pri_typing.specs.declared.problem.TypeRefusal.{TypeRefusal};
ghost use Rattle.pri_typing.specs.Faults.{earlier, least};
ghost use Rattle.pri_typing.specs.Parts.{all_components, block_faults, component_faults, cut_faults, formula_faults, is_cut, name_faults, names_of, own_name_faults, parts_at};
ghost use Rattle.pri_typing.specs.Phrase.{first_token, phrase, phrases_of};
ghost use Rattle.pri_typing.specs.Typing.{distinct_from, parts_in};

use crate::collect::collect;
use crate::problem::TypeRefusal;
use crate::refusals::earlier_of;
use base_texts::Texts;
use linear_term::Memory;
use pri_reader::{Block, Expr, Form, Name, NameSet};
use sqlite_items::Items;
use std::alloc::Global;

/// The least of the places of parts.
#[tactic(auto, using(crate::proofs::Cutting::cutting))]
fn least_part(names: &[Name]) -> Option<TypeRefusal>
    ensures { result ≡ least (parts_at names.now) }
{
    let mut least = None;
    for name in names {
        least = earlier_of(least, Some(TypeRefusal::Parts(name.at)));
    }
    least
}

/// The first part inside an expression where none can stand.
fn inner_fault(alloc: Global, expr: &Expr) -> Result<Option<TypeRefusal>, Memory>
    ensures { IfOk result (λ r. r ≡ least (parts_at (parts_in (phrase expr.now)))) }
{
    let mut parts = Items::new(alloc);
    collect(alloc, &mut parts, expr)?;
    Ok(least_part(parts.as_slice()))
}

/// The fault of a component that is neither a part nor a truth.
#[tactic(auto, using(crate::proofs::Cutting::cutting))]
fn other_fault(alloc: Global, expr: &Expr) -> Result<Option<TypeRefusal>, Memory>
    ensures { IfOk result (λ r. r ≡ least (TypeRefusal.Parts (first_token (phrase expr.now)) ∷ parts_at (parts_in (phrase expr.now)))) }
{
    let inner = inner_fault(alloc, expr)?;
    Ok(earlier_of(Some(TypeRefusal::Parts(expr.at)), inner))
}

/// The least fault of the components of a formula that stands with this sign, true for plus.
#[cycle(components)]
#[tactic(auto, using(crate::proofs::Cutting::cutting))]
pub fn formula_fault(alloc: Global, plus: bool, expr: &Expr) -> Result<Option<TypeRefusal>, Memory>
    ensures { IfOk result (λ r. r ≡ least (formula_faults plus (phrase expr.now))) }
{
    match &expr.form {
        Form::Group(inner) => formula_fault(alloc, plus, inner.get()),
        Form::Not(inner) => formula_fault(alloc, !plus, inner.get()),
        Form::Implies(left, right) => {
            if plus {
                let first = formula_fault(alloc, false, left.get())?;
                let second = formula_fault(alloc, true, right.get())?;
                Ok(earlier_of(first, second))
            } else {
                other_fault(alloc, expr)
            }
        }
        Form::Or(members) => {
            if plus {
                members_fault(alloc, true, members.as_slice())
            } else {
                other_fault(alloc, expr)
            }
        }
        Form::And(members) => {
            if plus {
                other_fault(alloc, expr)
            } else {
                members_fault(alloc, false, members.as_slice())
            }
        }
        Form::Part(_, body) => inner_fault(alloc, body.get()),
        Form::Truth(_) => Ok(None),
        Form::Number(_)
        | Form::Use(_, _)
        | Form::If(_, _, _)
        | Form::Abs(_)
        | Form::Min(_, _)
        | Form::Max(_, _)
        | Form::Minus(_)
        | Form::Product(_, _, _)
        | Form::Sum(_, _)
        | Form::Compare(_, _, _)
        | Form::Quantified(_, _, _)
        | Form::Iff(_, _) => other_fault(alloc, expr),
    }
}

#[cycle(components)]
#[tactic(auto, using(crate::proofs::Cutting::cutting))]
fn members_fault(alloc: Global, plus: bool, exprs: &[Expr]) -> Result<Option<TypeRefusal>, Memory>
    ensures { IfOk result (λ r. r ≡ least (flat_map (λ c. component_faults c.what) (all_components plus (phrases_of exprs.now)))) }
{
    let mut least = None;
    for expr in exprs {
        least = earlier_of(least, formula_fault(alloc, plus, expr)?);
    }
    Ok(least)
}

fn name_fault(known: bool, given: bool, at: u64) -> Option<TypeRefusal>
    ensures { result ≡ least (own_name_faults known given at) }
{
    if known && !given {
        None
    } else {
        Some(TypeRefusal::Parts(at))
    }
}

/// The least fault of the names of a set, after those that are given, to which they are added.
#[tactic(auto, using(crate::proofs::Cutting::naming))]
fn names_fault(
    alloc: Global,
    parts: &Texts,
    given: &mut Texts,
    names: &[Name],
) -> Result<Option<TypeRefusal>, Memory>
    ensures given { OnOk result (given.new ≡ distinct_from given.old names.now) }
    ensures fault { IfOk result (λ r. r ≡ least (name_faults parts.now given.old names.now)) }
{
    let mut fault = None;
    for name in names {
        let known = parts.contains(name.text.as_slice());
        let is_new = given.add(alloc, name.text.as_slice())?;
        fault = earlier_of(fault, name_fault(known, !is_new, name.at));
    }
    Ok(fault)
}

/// The least fault of the sets of a block whose first token is at this offset.
#[tactic(auto, using(crate::proofs::Cutting::naming))]
fn cut_fault(
    alloc: Global,
    parts: &Texts,
    existential: bool,
    at: u64,
    sets: &[NameSet],
) -> Result<Option<TypeRefusal>, Memory>
    ensures { IfOk result (λ r. r ≡ least (cut_faults parts.now existential at sets.now)) }
{
    let mut given = Texts::new(alloc);
    let mut fault = None;
    for set in sets {
        let of_set = names_fault(alloc, parts, &mut given, set.names.as_slice())?;
        fault = earlier_of(fault, of_set);
    }
    Ok(with_block_fault(fault, parts.misses_some(&given), existential, at))
}

fn with_block_fault(
    fault: Option<TypeRefusal>,
    missing: bool,
    existential: bool,
    at: u64,
) -> Option<TypeRefusal>
    ensures { result ≡ earlier (earlier fault (least (if missing then TypeRefusal.Parts at ∷ [] else []))) (least (if existential then TypeRefusal.Parts at ∷ [] else [])) }
{
    let first = earlier_of(fault, block_fault_where(missing, at));
    earlier_of(first, block_fault_where(existential, at))
}

fn block_fault_where(faulty: bool, at: u64) -> Option<TypeRefusal>
    ensures { result ≡ least (if faulty then TypeRefusal.Parts at ∷ [] else []) }
{
    if faulty {
        Some(TypeRefusal::Parts(at))
    } else {
        None
    }
}

/// The least fault of the blocks that ask for cuts.
#[tactic(auto, using(crate::proofs::Cutting::cutting))]
pub fn blocks_fault(
    alloc: Global,
    parts: &Texts,
    existential: bool,
    blocks: &[Block],
) -> Result<Option<TypeRefusal>, Memory>
    ensures { IfOk result (λ r. r ≡ least (flat_map (block_faults parts.now existential) blocks.now)) }
{
    let mut fault = None;
    for block in blocks {
        fault = earlier_of(fault, block_fault(alloc, parts, existential, block)?);
    }
    Ok(fault)
}

fn block_fault(
    alloc: Global,
    parts: &Texts,
    existential: bool,
    block: &Block,
) -> Result<Option<TypeRefusal>, Memory>
    ensures { IfOk result (λ r. r ≡ least (block_faults parts.now existential block.now)) }
{
    match block {
        Block::Interpolant(at, sets) => cut_fault(alloc, parts, existential, *at, sets.as_slice()),
        Block::Universals(_, _) => Ok(None),
        Block::Existentials(_, _) => Ok(None),
        Block::Functions(_, _) => Ok(None),
        Block::Predicates(_, _) => Ok(None),
        Block::Problem(_, _) => Ok(None),
    }
}

fn asks_cut(block: &Block) -> bool
    ensures { result ≡ is_cut block.now }
{
    match block {
        Block::Interpolant(_, _) => true,
        Block::Universals(_, _) => false,
        Block::Existentials(_, _) => false,
        Block::Functions(_, _) => false,
        Block::Predicates(_, _) => false,
        Block::Problem(_, _) => false,
    }
}

/// Whether some block asks for a cut.
pub fn asks_cuts(blocks: &[Block]) -> bool
    ensures { result ≡ list_any is_cut blocks.now }
{
    for block in blocks {
        if asks_cut(block) {
            return true;
        }
    }
    false
}
