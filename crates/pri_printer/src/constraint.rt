// A disjunctive normal form over the constants of a problem as a formula of the problem's language.

ghost use Rattle.std.specs.Prelude.{◌≡◌, ◌↔◌, ◌++◌, All, codes, IfOk, length, List, map, OnOk, true, ℤ};
ghost use Rattle.clause_set.specs.Literals.{dnf_truth, HasDivisor};
ghost use Rattle.pri_printer.specs.Names.{ClauseNames, DnfNames, IsVariableBelow, OccursIn, SpeaksOf};
ghost use Rattle.pri_printer.specs.Printed.{constants_of, dnf_formula, dnf_text, IsWithinLimits};
ghost use Rattle.pri_printer.specs.Ranges.{IsRangedLiteral};
ghost use Rattle.pri_printer.specs.Text.{behind_each, clause_text, literal_text, normal_form_text};
ghost use Rattle.pri_typing.specs.Problems.{Says};
ghost use Rattle.pri_typing.specs.WellFormed.{HasDistinctNames, HasIdentifiers, IsWellFormed};
ghost use Rattle.form_typed.specs.Truth.{Meaning, Truth};

use crate::literal::put_literal;
use crate::quotient::free_text;
use clause_set::{Clause, Dnf, Literal};
use linear_term::Memory;
use pri_typing::Problem;
use std::alloc::Global;

/// Puts the later literals of a clause after a text.
fn put_literals(
    alloc: Global,
    p: &Problem,
    k: &[u8],
    literals: &[Literal],
    out: &mut Vec<u8>,
) -> Result<(), Memory>
    requires { ClauseNames (IsVariableBelow (length (constants_of p.now))) literals.now }
    ensures { OnOk result (out.new.items ≡ out.old.items ++ behind_each (codes " & ") (map (literal_text (constants_of p.now) k.now) literals.now)) }
{
    for literal in literals {
        out.extend_from_slice(b" & ")?;
        put_literal(alloc, p, k, literal, out)?;
    }
    Ok(())
}

/// Puts a clause after a text.
fn put_clause(
    alloc: Global,
    p: &Problem,
    k: &[u8],
    clause: &Clause,
    out: &mut Vec<u8>,
) -> Result<(), Memory>
    requires { ClauseNames (IsVariableBelow (length (constants_of p.now))) clause.now }
    ensures { OnOk result (out.new.items ≡ out.old.items ++ clause_text (constants_of p.now) k.now clause.now) }
{
    let Some((first, more)) = clause.literals().split_first() else {
        out.extend_from_slice(b"true")?;
        return Ok(());
    };
    put_literal(alloc, p, k, first, out)?;
    put_literals(alloc, p, k, more, out)
}

/// Puts the later clauses of a normal form after a text.
fn put_clauses(
    alloc: Global,
    p: &Problem,
    k: &[u8],
    clauses: &[Clause],
    out: &mut Vec<u8>,
) -> Result<(), Memory>
    requires { DnfNames (IsVariableBelow (length (constants_of p.now))) clauses.now }
    ensures { OnOk result (out.new.items ≡ out.old.items ++ behind_each (codes " | ") (map (clause_text (constants_of p.now) k.now) clauses.now)) }
{
    for clause in clauses {
        out.extend_from_slice(b" | ")?;
        put_clause(alloc, p, k, clause, out)?;
    }
    Ok(())
}

/// Puts a normal form after a text.
fn put_normal_form(
    alloc: Global,
    p: &Problem,
    k: &[u8],
    clauses: &[Clause],
    out: &mut Vec<u8>,
) -> Result<(), Memory>
    requires { DnfNames (IsVariableBelow (length (constants_of p.now))) clauses.now }
    ensures { OnOk result (out.new.items ≡ out.old.items ++ normal_form_text (constants_of p.now) k.now clauses.now) }
{
    let Some((first, more)) = clauses.split_first() else {
        out.extend_from_slice(b"false")?;
        return Ok(());
    };
    put_clause(alloc, p, k, first, out)?;
    put_clauses(alloc, p, k, more, out)
}

/// The numbers of a literal are in the range: this call does nothing, and tells its caller so.
fn know_literal(l: &Literal)
    requires { HasDivisor l.now }
    ensures { IsRangedLiteral l.now }
{
    l.term().know_normal();
}

/// The same of literals.
fn know_literals(literals: &[Literal])
    requires { All HasDivisor literals.now }
    ensures { All IsRangedLiteral literals.now }
{
    for l in literals {
        know_literal(l);
    }
}

/// The numbers of the literals of clauses are in the range: this call does nothing, and tells its caller so.
pub fn know_clauses(clauses: &[Clause])
    ensures { All (All IsRangedLiteral) clauses.now }
{
    for c in clauses {
        c.know_clause();
        know_literals(c.literals());
    }
}

/// The text of a disjunctive normal form over the constants of the problem, as a formula of the problem's language: `true`
/// for a clause without literals and `false` where there is no clause, and else `2*a - b + 1 >= 0`, `a = 0`,
/// `\exists int k0; a = 3*k0` or the same after `!`, joined by ` & ` to clauses and these by ` | `. The quotient has the
/// first of the names k0, k1, .. that no symbol of the problem has.
///
/// Read with the symbols of the problem the text says a formula that is true at values of the constants exactly where the
/// normal form is, in every interpretation, without applications and of the constants that occur in the normal form alone.
/// It is within the limits of a file. The one error is running out of memory.
pub fn print_dnf(alloc: Global, p: &Problem, d: &Dnf) -> Result<Vec<u8>, Memory>
    requires well_formed { IsWellFormed p.now }
    requires distinct { HasDistinctNames p.now }
    requires identifiers { HasIdentifiers p.now }
    requires over { DnfNames (IsVariableBelow (length (constants_of p.now))) d.now }
    ensures text { IfOk result (λ v. v.items ≡ dnf_text p.now d.now) }
    ensures says { IfOk result (λ v. Says v.items p.now (dnf_formula p.now d.now)) }
    ensures limits { IfOk result (λ v. IsWithinLimits v.items) }
    ensures truth { OnOk result ((w : Meaning) (e : List ℤ) → length e ≡ length (constants_of p.now)
        → Truth w (dnf_formula p.now d.now) e ↔ (dnf_truth d.now e ≡ true)) }
    ensures names { OnOk result (SpeaksOf (OccursIn d.now) (length (constants_of p.now)) (dnf_formula p.now d.now)) }
{
    know_clauses(d.clauses());
    let k = free_text(alloc, p)?;
    let mut out = Vec::new(alloc);
    put_normal_form(alloc, p, &k, d.clauses(), &mut out)?;
    Ok(out)
}
