// The lines where there is no interpolant, and that of a formula with predicates or functions.

ghost use Rattle.function_encoding.specs.declared.answer.EncodeRefusal.TheVariants as refusal;
ghost use Rattle.interpolant.specs.declared.fault.InterpolantFault.TheVariants.{Encode};
ghost use Rattle.itp_lines.specs.Blocks.{unknown_line};
ghost use Rattle.itp_lines.specs.Told.{IsFaultText, IsMiddleCause, IsTypedLine, TellsInterpolantFault, TellsMiddleFault};
ghost use Rattle.pri_typing.specs.WellFormed.{HasDistinctNames, HasIdentifiers, IsWellFormed};
ghost use Rattle.std.specs.Prelude.{◌≡◌, ◌≢◌, IfOk};
ghost use Rattle.form_typed.specs.Formula.{formula};
ghost use Rattle.itp_printer.specs.Replaced.{with_formula};

use base_budget::ElimFault;
use form_typed::Typed;
use function_encoding::EncodeRefusal;
use interpolant::InterpolantFault;
use itp_printer::print_typed;
use linear_term::Memory;
use pred_interpolant::MiddleFault;
use pri_typing::Problem;
use std::alloc::Global;

/// The line where there is no interpolant, with the cause.
pub(crate) fn unknown_line(alloc: Global, cause: &[u8]) -> Result<Vec<u8>, Memory>
    ensures { IfOk result (λ text. text.items ≡ unknown_line cause.now) }
{
    let mut text = Vec::from_slice(alloc, b"interpolant unknown: ")?;
    text.extend_from_slice(cause)?;
    text.push(b'\n')?;
    Ok(text)
}

/// The line of a run that found none.
pub(crate) fn fault_line(alloc: Global, fault: &InterpolantFault) -> Result<Vec<u8>, Memory>
    requires { fault.now ≢ Encode refusal.Large }
    ensures { IfOk result (λ text. TellsInterpolantFault fault.now text.items) }
{
    let cause = cause(fault)?;
    unknown_line(alloc, cause)
}

/// Why a run found none.
fn cause(fault: &InterpolantFault) -> Result<&'static [u8], Memory>
    requires { fault.now ≢ Encode refusal.Large }
    ensures { IfOk result (λ text. IsFaultText fault.now text.now) }
{
    match fault {
        InterpolantFault::Elim(ElimFault::Steps(_)) => Ok(b"steps"),
        InterpolantFault::Elim(ElimFault::Overflow(_, _)) => Ok(b"overflow"),
        InterpolantFault::Elim(ElimFault::Memory) => Err(Memory),
        InterpolantFault::Encode(EncodeRefusal::Large) => unreachable!(),
        InterpolantFault::Encode(EncodeRefusal::Overflow(_)) => Ok(b"overflow"),
        InterpolantFault::Encode(EncodeRefusal::Memory) => Err(Memory),
    }
}

/// The line where no formula was found that two proofs say to stand between the sides.
pub(crate) fn middle_fault_line(alloc: Global, fault: &MiddleFault) -> Result<Vec<u8>, Memory>
    ensures { IfOk result (λ text. TellsMiddleFault fault.now text.items) }
{
    let cause = middle_cause(fault)?;
    unknown_line(alloc, cause)
}

/// Why none was found.
fn middle_cause(fault: &MiddleFault) -> Result<&'static [u8], Memory>
    ensures { IfOk result (λ text. IsMiddleCause fault.now text.now) }
{
    match fault {
        MiddleFault::Symbols => Ok(b"symbols"),
        MiddleFault::Steps => Ok(b"steps"),
        MiddleFault::Overflow(_) => Ok(b"overflow"),
        MiddleFault::Branch => Ok(b"branch"),
        MiddleFault::Large => Ok(b"large"),
        MiddleFault::Memory => Err(Memory),
    }
}

/// The line of a formula over the symbols of a problem.
pub(crate) fn typed_line(alloc: Global, p: &Problem, f: &Typed) -> Result<Vec<u8>, Memory>
    requires well_formed { IsWellFormed (with_formula p.now f.now) }
    requires distinct { HasDistinctNames p.now }
    requires identifiers { HasIdentifiers p.now }
    ensures { IfOk result (λ text. IsTypedLine p.now (formula f.now) text.items) }
{
    let printed = print_typed(alloc, p, f)?;
    let mut text = Vec::from_slice(alloc, b"interpolant: ")?;
    text.extend_from_slice(printed.as_slice())?;
    text.push(b'\n')?;
    Ok(text)
}
