// The problem that a file poses, or the least of its faults.

ghost use Rattle.std.specs.Prelude.{◌≡◌, ◌⊎◌, IfOk, IfErr, OnOk, None, Some, [], true};
ghost use Rattle.pri_reader.specs.Grammar.{has_problem};
ghost use Rattle.pri_typing.specs.WellFormed.{HasDistinctNames, HasIdentifiers, IsWellFormed};
ghost use Rattle.pri_typing.specs.declared.problem.TypeRefusal.{TypeRefusal};
ghost use Rattle.pri_typing.specs.declared.scope.Category.{Category};
ghost use Rattle.pri_typing.specs.Sites.{scope_at};
ghost use Rattle.pri_typing.specs.Faults.{earlier, faults, least};
ghost use Rattle.pri_typing.specs.Files.{IsTyped, declaration_faults, file_faults, has_existential, parts_faults, problem_of};
ghost use Rattle.pri_typing.specs.Limits.{IsReady, IsResolvable};
ghost use Rattle.pri_typing.specs.Phrase.{first_token, phrase};
ghost use Rattle.pri_typing.specs.Posed.{IsPosed};

use crate::applications::first_application;
use crate::build::build_formula;
use crate::collect::part_texts;
use crate::cuts::cuts;
use crate::faults::fault;
use crate::parts::{asks_cuts, blocks_fault, formula_fault};
use crate::problem::{Problem, TypeRefusal};
use crate::refusals::earlier_of;
use crate::scope::{BoundNames, Category, Site};
use crate::sorts::{existential_types, universal_types};
use crate::symbols::Symbols;
use base_texts::Texts;
use linear_term::Memory;
use pri_reader::{Block, Expr, File};
use std::alloc::Global;

/// The formula of the `\problem` block.
fn find_problem(blocks: &[Block]) -> &Expr
    requires { has_problem blocks.now ≡ true }
    ensures { phrase result.now ≡ problem_of blocks.now }
{
    for block in blocks {
        match block {
            Block::Problem(_, expr) => return expr,
            Block::Universals(_, _) => {}
            Block::Existentials(_, _) => {}
            Block::Functions(_, _) => {}
            Block::Predicates(_, _) => {}
            Block::Interpolant(_, _) => {}
        }
    }
    unreachable!()
}

/// The least fault of the parts, where some block asks for a cut.
fn parts_fault(
    alloc: Global,
    blocks: &[Block],
    parts: &Texts,
    existential: bool,
    expr: &Expr,
) -> Result<Option<TypeRefusal>, Memory>
    ensures { IfOk result (λ r. r ≡ least (parts_faults parts.now existential blocks.now (phrase expr.now))) }
{
    if !asks_cuts(blocks) {
        return Ok(None);
    }
    let own = formula_fault(alloc, true, expr)?;
    let of_blocks = blocks_fault(alloc, parts, existential, blocks)?;
    Ok(earlier_of(own, of_blocks))
}

/// The least fault of a file with this formula.
fn file_fault(
    alloc: Global,
    blocks: &[Block],
    here: &Site,
    expr: &Expr,
) -> Result<Option<TypeRefusal>, Memory>
    ensures { IfOk result (λ r. r ≡ earlier (earlier (least (declaration_faults [] here.now.symbols.now))
        (least (faults (scope_at here.now) Category.Formula (first_token (phrase expr.now)) (phrase expr.now))))
        (least (parts_faults here.now.parts.now (has_existential here.now.symbols.now) blocks.now (phrase expr.now)))) }
{
    let typed = earlier_of(here.symbols.fault(), fault(here, Category::Formula, expr));
    let existential = here.symbols.has_existentials();
    let parts = parts_fault(alloc, blocks, here.parts, existential, expr)?;
    Ok(earlier_of(typed, parts))
}

/// The problem that blocks with this formula pose.
fn resolve_problem(alloc: Global, blocks: &[Block], expr: &Expr) -> Result<Problem, TypeRefusal>
    requires limits { IsResolvable blocks.now }
    requires formula { phrase expr.now ≡ problem_of blocks.now }
    ensures typed { IfOk result (λ p. IsTyped (record { blocks = blocks.now }) p) }
    ensures sound { OnOk result (least (file_faults (record { blocks = blocks.now })) ≡ None) }
    ensures refused { IfErr result (λ r. (r ≡ TypeRefusal.Memory) ⊎ (least (file_faults (record { blocks = blocks.now })) ≡ Some r)) }
{
    let symbols = Symbols::of(alloc, blocks)?;
    let parts = part_texts(alloc, expr)?;
    let bound = BoundNames::Nothing;
    let here = Site {
        symbols: &symbols,
        parts: &parts,
        bound: &bound,
    };
    match file_fault(alloc, blocks, &here, expr)? {
        Some(refusal) => Err(refusal),
        None => Ok(pose(alloc, blocks, &here, expr)?),
    }
}

/// The problem that blocks without faults pose.
fn pose(alloc: Global, blocks: &[Block], here: &Site, expr: &Expr) -> Result<Problem, Memory>
    requires { IsReady here.now (phrase expr.now) }
    ensures { IfOk result (λ p. IsPosed here.now blocks.now (phrase expr.now) p) }
{
    let cuts = cuts(alloc, here.parts, blocks)?;
    let parts = here.parts.to_items(alloc)?;
    let of_existentials = existential_types(alloc, blocks)?;
    let of_universals = universal_types(alloc, blocks)?;
    let lists = here.symbols.to_lists(alloc)?;
    let formula = build_formula(alloc, here, expr)?;
    Ok(Problem {
        existentials: lists.existentials,
        universals: lists.universals,
        existential_types: of_existentials,
        universal_types: of_universals,
        functions: lists.functions,
        predicates: lists.predicates,
        parts,
        formula,
        cuts,
        first_application: first_application(here, expr),
    })
}

/// The problem that a file poses, or the least of its faults, by their offsets, and at one offset by their numbers. The
/// problem is well formed, and its symbols have different identifiers as names.
pub fn resolve(alloc: Global, file: &File) -> Result<Problem, TypeRefusal>
    requires { IsResolvable file.now.blocks }
    ensures typed { IfOk result (λ p. IsTyped file.now p) }
    ensures sound { OnOk result (least (file_faults file.now) ≡ None) }
    ensures refused { IfErr result (λ r. (r ≡ TypeRefusal.Memory) ⊎ (least (file_faults file.now) ≡ Some r)) }
    ensures well_formed { IfOk result IsWellFormed }
    ensures distinct { IfOk result HasDistinctNames }
    ensures identifiers { IfOk result HasIdentifiers }
{
    let blocks = file.blocks.as_slice();
    resolve_problem(alloc, blocks, find_problem(blocks))
}
