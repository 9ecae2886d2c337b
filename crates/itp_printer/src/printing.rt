// A formula over the symbols of a problem as a text of the problem's language.

ghost use Rattle.std.specs.Prelude.{◌≡◌, ◌↔◌, IfOk, List, ℤ};
ghost use Rattle.pri_typing.specs.Problems.{Says};
ghost use Rattle.pri_typing.specs.WellFormed.{HasDistinctNames, HasIdentifiers, IsWellFormed};
ghost use Rattle.form_typed.specs.Formula.{formula};
ghost use Rattle.form_typed.specs.Truth.{Meaning, Truth};
ghost use Rattle.itp_printer.specs.Plain.{plain};
ghost use Rattle.itp_printer.specs.Replaced.{with_formula};
ghost use Rattle.itp_printer.specs.TypedText.{formula_text};

use crate::formulas::put_formula;
use crate::nesting::nesting_of;
use crate::numbers::variable_numbers;
use form_typed::Typed;
use linear_term::Memory;
use pri_typing::Problem;
use std::alloc::Global;

/// The text of a formula over the symbols of the problem: `\exists int v0; ((p(v0)) & (v0 = 0))`. Each operand and each
/// body stands in parentheses, so that no precedence is asked. A bound variable has the name v with a number: the d-th, for
/// one with d quantifiers around its own, of those with which no symbol is named. A part is printed as its formula, and a
/// conjunction, a disjunction or a sum of one as its member.
///
/// Read with the symbols of the problem the text says the plain form of the formula, which is true at the same integers in
/// every interpretation. The one error is running out of memory.
#[tactic(auto, using(crate::proofs::Truths::plain_same))]
pub fn print_typed(alloc: Global, p: &Problem, f: &Typed) -> Result<Vec<u8>, Memory>
    requires well_formed { IsWellFormed (with_formula p.now f.now) }
    requires distinct { HasDistinctNames p.now }
    requires identifiers { HasIdentifiers p.now }
    ensures text { IfOk result (λ v. v.items ≡ formula_text p.now 0 (formula f.now)) }
    ensures says { IfOk result (λ v. Says v.items p.now (plain (formula f.now))) }
    ensures truth { (w : Meaning) (e : List ℤ) → Truth w (plain (formula f.now)) e ↔ Truth w (formula f.now) e }
{
    let k = nesting_of(f)?;
    let numbers = variable_numbers(alloc, p, k)?;
    let mut out = Vec::new(alloc);
    put_formula(alloc, p, numbers.as_slice(), 0, f, &mut out)?;
    Ok(out)
}
