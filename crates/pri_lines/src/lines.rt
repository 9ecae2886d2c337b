// The lines that print a constraint and values.

ghost use Rattle.pri_lines.specs.Lines.{AreValuedLines};
ghost use Rattle.elim_laws.specs.Whole.{AreOver};
ghost use Rattle.pri_typing.specs.WellFormed.{HasDistinctNames, HasIdentifiers, IsWellFormed};
ghost use Rattle.std.specs.Prelude.{◌≡◌, IfOk, length};

use crate::printing::constraint_line;
use clause_set::Dnf;
use linear_term::Memory;
use pri_printer::print_solution;
use pri_typing::Problem;
use std::alloc::Global;

/// A first line, and after it the lines of a constraint over the existential constants of a problem and of a value for each of
/// these. The one error is running out of memory.
pub fn valued_lines(
    alloc: Global,
    first: &[u8],
    problem: &Problem,
    constraint: &Dnf,
    solution: &[i128],
) -> Result<Vec<u8>, Memory>
    requires well_formed { IsWellFormed problem.now }
    requires distinct { HasDistinctNames problem.now }
    requires identifiers { HasIdentifiers problem.now }
    requires over { AreOver (length problem.now.existentials) constraint.now }
    requires values { length solution.now ≡ length problem.now.existentials }
    ensures { IfOk result (λ text. AreValuedLines first.now problem.now constraint.now solution.now text.items) }
{
    let constraint = constraint_line(alloc, problem, constraint)?;
    let values = print_solution(alloc, problem, solution)?;
    let mut text = Vec::from_slice(alloc, first)?;
    text.push(b'\n')?;
    text.extend_from_slice(constraint.as_slice())?;
    text.extend_from_slice(b"solution: ")?;
    text.extend_from_slice(values.as_slice())?;
    text.push(b'\n')?;
    Ok(text)
}
