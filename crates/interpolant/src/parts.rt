// Interpolants of two sets of parts, and of the two sides of a cut.

ghost use Rattle.std.specs.Prelude.{◌≡◌, ◌≤◌, ◌<◌, ◌^◌, true, IfOk, IfErr, length};
ghost use Rattle.std.specs.List.{concat};
ghost use Rattle.form_typed.specs.Truth.{Meaning};
ghost use Rattle.pri_typing.specs.Problems.{IsWithoutApplication, assumed_by};
ghost use Rattle.pri_typing.specs.WellFormed.{IsWellFormed};
ghost use Rattle.clause_set.specs.Literals.{dnf_truth};
ghost use Rattle.function_encoding.specs.declared.answer.EncodeRefusal.TheVariants.{Memory};
ghost use Rattle.itp_sides.specs.Between.{IsStrongest};
ghost use Rattle.itp_sides.specs.Sides.{cut_of, first_sets, first_side, other_sets, other_side};
ghost use Rattle.interpolant.specs.Run.{AnswersInterpolant};
ghost use Rattle.interpolant.specs.Sides.{IsInterpolant};

use crate::fault::{Interpolant, InterpolantFault};
use crate::projection::project;
use base_budget::Purse;
use function_encoding::{EncodeRefusal, encode_parts, marks_of};
use pri_typing::{Cut, Problem};
use sqlite_items::Items;
use std::alloc::Global;

/// The interpolant of two sets of parts, by their numbers, of which the first has no application: what the first set assumes,
/// encoded and without quantifiers, and then without the constants that do not occur in what the second set assumes, the
/// greatest first. It is the strongest condition over what both speak of that follows from what the first set assumes, and it
/// contradicts what the second one assumes where the first does.
///
/// Refused with Encode where what the first set assumes is too large or a number of it leaves the range, and else with
/// Elim exactly where the eliminations, all on this purse, are cut; its log is that of the elimination in progress.
pub fn between_parts(
    alloc: Global,
    p: &Problem,
    first: &[u32],
    second: &[u32],
    purse: &mut Purse,
) -> Result<Interpolant, InterpolantFault>
    requires formed { IsWellFormed p.now }
    requires plain { IsWithoutApplication (assumed_by p.now first.now) }
    requires budget { purse.old.budget < 2 ^ 32 }
    ensures work { AnswersInterpolant p.now first.now second.now purse.old result purse.new }
    ensures between { IfOk result (λ i. (w : Meaning) → IsInterpolant w p.now (assumed_by p.now first.now) (assumed_by p.now second.now) i.formula) }
    ensures strongest { IfOk result (λ i. (w : Meaning) → IsStrongest w p.now (assumed_by p.now first.now) (assumed_by p.now second.now) (λ e. dnf_truth i.formula e ≡ true)) }
{
    let assumed = encode_parts(alloc, p, first)?;
    assumed.know_reduced();
    let occurring = marks_of(alloc, p, second)?;
    let marks = occurring.as_slice();
    let formula = project(alloc, &assumed, marks, purse)?;
    Ok(Interpolant { formula })
}

/// The interpolant of the first `at` sets of a cut, which have no application, and the others, as `between_parts` says.
pub fn between_sides(
    alloc: Global,
    p: &Problem,
    cut: &Cut,
    at: usize,
    purse: &mut Purse,
) -> Result<Interpolant, InterpolantFault>
    requires formed { IsWellFormed p.now }
    requires plain { IsWithoutApplication (first_side p.now cut.now at) }
    requires inside { at ≤ length cut.now.sets }
    requires budget { purse.old.budget < 2 ^ 32 }
    ensures work { AnswersInterpolant p.now (first_sets cut.now at) (other_sets cut.now at) purse.old result purse.new }
    ensures between { IfOk result (λ i. (w : Meaning) → IsInterpolant w p.now (first_side p.now cut.now at) (other_side p.now cut.now at) i.formula) }
    ensures strongest { IfOk result (λ i. (w : Meaning) → IsStrongest w p.now (first_side p.now cut.now at) (other_side p.now cut.now at) (λ e. dnf_truth i.formula e ≡ true)) }
{
    let sets = cut.sets.as_slice();
    let before = part_numbers(alloc, &sets[..at])?;
    let behind = part_numbers(alloc, &sets[at..])?;
    between_parts(alloc, p, before.as_slice(), behind.as_slice(), purse)
}

// The numbers of several sets, in their order. Running out of memory counts as the encoding's.
fn part_numbers(alloc: Global, sets: &[Items<u32>]) -> Result<Vec<u32>, EncodeRefusal>
    ensures whole { IfOk result (λ v. v.items ≡ concat sets.now) }
    ensures memory { IfErr result (λ refusal. refusal ≡ Memory) }
{
    Ok(together(alloc, sets)?)
}

/// The numbers of several sets, in their order. Returns the error if memory runs out.
pub fn together(alloc: Global, sets: &[Items<u32>]) -> Result<Vec<u32>, linear_term::Memory>
    ensures { IfOk result (λ v. v.items ≡ concat sets.now) }
{
    let mut numbers = Vec::new(alloc);
    for set in sets {
        numbers.extend_from_slice(set.as_slice())?;
    }
    Ok(numbers)
}

/// The interpolant of the first `at` sets of the cut with this number, and the others.
pub fn between_at(
    alloc: Global,
    p: &Problem,
    cut: u32,
    at: u32,
    purse: &mut Purse,
) -> Result<Interpolant, InterpolantFault>
    requires formed { IsWellFormed p.now }
    requires within { cut < length p.now.cuts }
    requires inside { at ≤ length (cut_of p.now cut).sets }
    requires plain { IsWithoutApplication (first_side p.now (cut_of p.now cut) at) }
    requires budget { purse.old.budget < 2 ^ 32 }
    ensures work { AnswersInterpolant p.now (first_sets (cut_of p.now cut) at) (other_sets (cut_of p.now cut) at) purse.old result purse.new }
    ensures between { IfOk result (λ i. (w : Meaning) → IsInterpolant w p.now (first_side p.now (cut_of p.now cut) at) (other_side p.now (cut_of p.now cut) at) i.formula) }
    ensures strongest { IfOk result (λ i. (w : Meaning) → IsStrongest w p.now (first_side p.now (cut_of p.now cut) at) (other_side p.now (cut_of p.now cut) at) (λ e. dnf_truth i.formula e ≡ true)) }
{
    let cuts = p.cuts.as_slice();
    between_sides(alloc, p, &cuts[cut as usize], at as usize, purse)
}

/// The interpolant of the first set of the cut with this number, and the others.
pub fn between(
    alloc: Global,
    p: &Problem,
    cut: u32,
    purse: &mut Purse,
) -> Result<Interpolant, InterpolantFault>
    requires formed { IsWellFormed p.now }
    requires within { cut < length p.now.cuts }
    requires inside { 1 ≤ length (cut_of p.now cut).sets }
    requires plain { IsWithoutApplication (first_side p.now (cut_of p.now cut) 1) }
    requires budget { purse.old.budget < 2 ^ 32 }
    ensures work { AnswersInterpolant p.now (first_sets (cut_of p.now cut) 1) (other_sets (cut_of p.now cut) 1) purse.old result purse.new }
    ensures between { IfOk result (λ i. (w : Meaning) → IsInterpolant w p.now (first_side p.now (cut_of p.now cut) 1) (other_side p.now (cut_of p.now cut) 1) i.formula) }
    ensures strongest { IfOk result (λ i. (w : Meaning) → IsStrongest w p.now (first_side p.now (cut_of p.now cut) 1) (other_side p.now (cut_of p.now cut) 1) (λ e. dnf_truth i.formula e ≡ true)) }
{
    between_at(alloc, p, cut, 1, purse)
}
