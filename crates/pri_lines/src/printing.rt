// The lines of normal forms.

ghost use Rattle.base_answers.specs.Answer.{line};
ghost use Rattle.pri_lines.specs.Constraint.{IsLineOf, constraint_line, interpolant_line};
ghost use Rattle.elim_laws.specs.Whole.{AreOver};
ghost use Rattle.pri_printer.specs.Names.{DnfNames, IsVariableBelow};
ghost use Rattle.pri_printer.specs.Printed.{constants_of};
ghost use Rattle.pri_typing.specs.WellFormed.{HasDistinctNames, HasIdentifiers, IsWellFormed};
ghost use Rattle.std.specs.Prelude.{◌+◌, ◌++◌, IfOk, length};

use clause_set::Dnf;
use linear_term::Memory;
use pri_printer::print_dnf;
use pri_typing::Problem;
use std::alloc::Global;

/// The line `constraint: F` of a constraint over the existential constants of a problem. Its text is read back as the formula
/// that the constraint is. The one error is running out of memory.
pub fn constraint_line(alloc: Global, p: &Problem, d: &Dnf) -> Result<Vec<u8>, Memory>
    requires well_formed { IsWellFormed p.now }
    requires distinct { HasDistinctNames p.now }
    requires identifiers { HasIdentifiers p.now }
    requires over { AreOver (length p.now.existentials) d.now }
    ensures { IfOk result (λ text. IsLineOf constraint_line p.now d.now text.items) }
{
    labelled(alloc, b"constraint: ", p, d)
}

/// The line `interpolant: F` of an interpolant over all constants of a problem, likewise.
pub fn interpolant_line(alloc: Global, p: &Problem, d: &Dnf) -> Result<Vec<u8>, Memory>
    requires well_formed { IsWellFormed p.now }
    requires distinct { HasDistinctNames p.now }
    requires identifiers { HasIdentifiers p.now }
    requires over { AreOver (length p.now.existentials + length p.now.universals) d.now }
    ensures { IfOk result (λ text. IsLineOf interpolant_line p.now d.now text.items) }
{
    labelled(alloc, b"interpolant: ", p, d)
}

// The line of a normal form after a label.
fn labelled(alloc: Global, label: &[u8], p: &Problem, d: &Dnf) -> Result<Vec<u8>, Memory>
    requires well_formed { IsWellFormed p.now }
    requires distinct { HasDistinctNames p.now }
    requires identifiers { HasIdentifiers p.now }
    requires over { DnfNames (IsVariableBelow (length (constants_of p.now))) d.now }
    ensures { IfOk result (λ text. IsLineOf (λ x. line (label.now ++ x)) p.now d.now text.items) }
{
    let printed = print_dnf(alloc, p, d)?;
    let mut text = Vec::from_slice(alloc, label)?;
    text.extend_from_slice(printed.as_slice())?;
    text.push(b'\n')?;
    Ok(text)
}
