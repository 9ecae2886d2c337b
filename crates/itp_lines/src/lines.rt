// The lines of blocks.

ghost use Rattle.itp_sides.specs.Sides.{cut_of, first_sets};
ghost use Rattle.form_encoding.specs.Problems.{is_large, parts_root, problem_root};
ghost use Rattle.itp_lines.specs.Blocks.{IsBlocksText, IsLinesText, IsSeamLine, after_line, after_lines};
ghost use Rattle.itp_lines.specs.Seams.{seams_of};
ghost use Rattle.itp_lines.specs.Told.{TellsFormula};
ghost use Rattle.pred_interpolant.specs.Middle.{IsOverProblem};
ghost use Rattle.pri_typing.specs.Problems.{Holds, IsPlainlyValid, IsPure};
ghost use Rattle.pri_typing.specs.WellFormed.{HasDistinctNames, HasIdentifiers, IsWellFormed};
ghost use Rattle.std.specs.Prelude.{◌≡◌, ◌≢◌, ◌≤◌, ◌<◌, ◌^◌, ◌↔◌, ℕ, [], false, List, length, IfOk, None, OnOk};
ghost use Rattle.form_typed.specs.Truth.{Meaning};

use crate::middles::middle;
use crate::plainly::is_plainly_valid;
use crate::telling::{fault_line, middle_fault_line, typed_line, unknown_line};
use base_budget::Purse;
use interpolant::between_sides;
use linear_term::Memory;
use pred_interpolant::MiddleFormula;
use pri_lines::interpolant_line;
use pri_typing::{Cut, Problem};
use std::alloc::Global;

/// The lines of all `\interpolant` blocks of a problem that holds and whose encoding is not too large, in their order; each is
/// of work on the purse as the ones before left it. The one error is running out of memory.
pub fn interpolant_lines(alloc: Global, p: &Problem, purse: &mut Purse) -> Result<Vec<u8>, Memory>
    requires well_formed { IsWellFormed p.now }
    requires distinct { HasDistinctNames p.now }
    requires identifiers { HasIdentifiers p.now }
    requires pure { (p.now.first_application ≡ None) ↔ IsPure p.now }
    requires holds { (w : Meaning) → Holds w p.now [] }
    requires small { is_large (problem_root p.now).value ≡ false }
    requires budget { purse.old.budget < 2 ^ 32 }
    ensures { IfOk result (λ text. IsBlocksText p.now purse.old text.items) }
{
    let mut text = Vec::new(alloc);
    let cuts = p.cuts.as_slice();
    for number in 0..cuts.len() {
        let lines = block_lines(alloc, p, number, purse)?;
        text.extend_from_slice(lines.as_slice())?;
    }
    Ok(text)
}

// The lines of a block: one for each place between two of its sets.
fn block_lines(
    alloc: Global,
    p: &Problem,
    number: usize,
    purse: &mut Purse,
) -> Result<Vec<u8>, Memory>
    requires well_formed { IsWellFormed p.now }
    requires distinct { HasDistinctNames p.now }
    requires identifiers { HasIdentifiers p.now }
    requires pure { (p.now.first_application ≡ None) ↔ IsPure p.now }
    requires holds { (w : Meaning) → Holds w p.now [] }
    requires within { number < length p.now.cuts }
    requires small { (set : List ℕ) → is_large (parts_root p.now set).value ≡ false }
    requires budget { purse.old.budget < 2 ^ 32 }
    ensures lines { IfOk result (λ text. IsLinesText p.now (seams_of (cut_of p.now number)) purse.old text.items) }
    ensures left { OnOk result (purse.new ≡ after_lines p.now (seams_of (cut_of p.now number)) purse.old) }
{
    let mut text = Vec::new(alloc);
    let sets = p.cuts.as_slice()[number].sets.as_slice();
    for at in 1..sets.len() {
        let line = seam_line(alloc, p, number, at, purse)?;
        text.extend_from_slice(line.as_slice())?;
    }
    Ok(text)
}

// The line of the place after the first `at` sets of the block with this number.
fn seam_line(
    alloc: Global,
    p: &Problem,
    number: usize,
    at: usize,
    purse: &mut Purse,
) -> Result<Vec<u8>, Memory>
    requires well_formed { IsWellFormed p.now }
    requires distinct { HasDistinctNames p.now }
    requires identifiers { HasIdentifiers p.now }
    requires pure { (p.now.first_application ≡ None) ↔ IsPure p.now }
    requires holds { (w : Meaning) → Holds w p.now [] }
    requires within { number < length p.now.cuts }
    requires inside { at ≤ length (cut_of p.now number).sets }
    requires small { is_large (parts_root p.now (first_sets (cut_of p.now number) at)).value ≡ false }
    requires budget { purse.old.budget < 2 ^ 32 }
    ensures line { IfOk result (λ text. IsSeamLine p.now (record { cut = cut_of p.now number; at = at }) purse.old text.items) }
    ensures left { OnOk result (purse.new ≡ after_line p.now (record { cut = cut_of p.now number; at = at }) purse.old) }
{
    if p.first_application.is_none() {
        return pure_line(alloc, p, &p.cuts.as_slice()[number], at, purse);
    }
    if is_plainly_valid(p) {
        return unknown_line(alloc, b"plain");
    }
    middle_line(alloc, p, number, at, purse)
}

// The line of a seam of a problem without applications.
fn pure_line(
    alloc: Global,
    p: &Problem,
    cut: &Cut,
    at: usize,
    purse: &mut Purse,
) -> Result<Vec<u8>, Memory>
    requires well_formed { IsWellFormed p.now }
    requires distinct { HasDistinctNames p.now }
    requires identifiers { HasIdentifiers p.now }
    requires pure { IsPure p.now }
    requires none { p.now.first_application ≡ None }
    requires inside { at ≤ length cut.now.sets }
    requires small { is_large (parts_root p.now (first_sets cut.now at)).value ≡ false }
    requires budget { purse.old.budget < 2 ^ 32 }
    ensures line { IfOk result (λ text. IsSeamLine p.now (record { cut = cut.now; at = at }) purse.old text.items) }
    ensures left { OnOk result (purse.new ≡ after_line p.now (record { cut = cut.now; at = at }) purse.old) }
{
    match between_sides(alloc, p, cut, at, purse) {
        Ok(found) => interpolant_line(alloc, p, &found.formula),
        Err(fault) => fault_line(alloc, &fault),
    }
}

// A number as one of 32 bits; no memory holds so many things that it is none.
fn small(n: usize) -> Result<u32, Memory>
    ensures { IfOk result (λ m. m ≡ n) }
{
    if n > u32::MAX as usize {
        return Err(Memory);
    }
    Ok(n as u32)
}

// The line of a seam of a problem with applications that is not plainly valid.
fn middle_line(
    alloc: Global,
    p: &Problem,
    number: usize,
    at: usize,
    purse: &mut Purse,
) -> Result<Vec<u8>, Memory>
    requires well_formed { IsWellFormed p.now }
    requires distinct { HasDistinctNames p.now }
    requires identifiers { HasIdentifiers p.now }
    requires applied { p.now.first_application ≢ None }
    requires plain { ¬ (IsPlainlyValid p.now) }
    requires holds { (w : Meaning) → Holds w p.now [] }
    requires within { number < length p.now.cuts }
    requires inside { at ≤ length (cut_of p.now number).sets }
    requires small { is_large (parts_root p.now (first_sets (cut_of p.now number) at)).value ≡ false }
    requires budget { purse.old.budget < 2 ^ 32 }
    ensures line { IfOk result (λ text. IsSeamLine p.now (record { cut = cut_of p.now number; at = at }) purse.old text.items) }
    ensures left { OnOk result (purse.new ≡ after_line p.now (record { cut = cut_of p.now number; at = at }) purse.old) }
{
    let number = small(number)?;
    let at = small(at)?;
    match middle(alloc, p, number, at, purse) {
        Ok(found) => middle_found(alloc, p, &found.formula),
        Err(fault) => middle_fault_line(alloc, &fault),
    }
}

// The line of a formula that was found.
fn middle_found(alloc: Global, p: &Problem, found: &MiddleFormula) -> Result<Vec<u8>, Memory>
    requires well_formed { IsWellFormed p.now }
    requires distinct { HasDistinctNames p.now }
    requires identifiers { HasIdentifiers p.now }
    requires over { IsOverProblem p.now found.now }
    ensures { IfOk result (λ text. TellsFormula p.now found.now text.items) }
{
    match found {
        MiddleFormula::Arithmetic(d) => interpolant_line(alloc, p, d),
        MiddleFormula::General(f) => typed_line(alloc, p, f),
    }
}
