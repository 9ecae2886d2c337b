// The text of a formula below some quantifiers, one form after another.
#![tactic(auto, using(crate::proofs::Together::separating))]

ghost use Rattle.base_limits.specs.Limits.{most_constants};
ghost use Rattle.std.specs.Prelude.{◌≡◌, ◌++◌, ◌≤◌, ◌+◌, codes, false, length, map, OnOk, true};
ghost use Rattle.std.specs.List.{concat};
ghost use Rattle.pri_printer.specs.Printed.{constants_of};
ghost use Rattle.pri_typing.specs.Everywhere.{AllEverywhere, Everywhere};
ghost use Rattle.form_typed.specs.Formula.{formula, formulas_of};
ghost use Rattle.itp_printer.specs.Numbers.{AreNumbers};
ghost use Rattle.itp_printer.specs.Pieces.{joint_text, printable, separated};
ghost use Rattle.itp_printer.specs.Text.{grouped, joined_text};
ghost use Rattle.itp_printer.specs.TypedText.{formula_text, formula_texts, truth_text};

use crate::pieces::{put_binder, put_joint, put_relation, put_truth, symbol_name};
use crate::terms::{put_arguments, put_term};
use form_typed::Typed;
use linear_term::Memory;
use pri_typing::Problem;
use std::alloc::Global;

/// Puts a formula after a text.
#[cycle(printing)]
pub(crate) fn put_formula(
    alloc: Global,
    p: &Problem,
    numbers: &[u128],
    depth: usize,
    f: &Typed,
    out: &mut Vec<u8>,
) -> Result<(), Memory>
    requires few { length (constants_of p.now) ≤ most_constants }
    requires numbers { AreNumbers p.now numbers.now }
    requires depth { depth ≤ length numbers.now }
    requires fit { Everywhere (printable p.now (length numbers.now)) depth (formula f.now) }
    ensures { OnOk result (out.new.items ≡ out.old.items ++ formula_text p.now depth (formula f.now)) }
{
    match f {
        Typed::Truth(b) => put_truth(*b, out),
        Typed::Rel(r, s, t) => {
            put_term(alloc, p, numbers, depth, s, out)?;
            put_relation(*r, out)?;
            put_term(alloc, p, numbers, depth, t, out)
        }
        Typed::Pred(k, ts) => {
            out.extend_from_slice(symbol_name(p.predicates.as_slice(), *k as usize))?;
            put_arguments(alloc, p, numbers, depth, ts.as_slice(), out)
        }
        Typed::Not(g) => {
            out.push(b'!')?;
            put_grouped(alloc, p, numbers, depth, g.get(), out)
        }
        Typed::And(fs) => put_chain(alloc, p, numbers, depth, true, fs.as_slice(), out),
        Typed::Or(fs) => put_chain(alloc, p, numbers, depth, false, fs.as_slice(), out),
        Typed::Implies(g, h) => {
            put_grouped(alloc, p, numbers, depth, g.get(), out)?;
            out.extend_from_slice(b" -> ")?;
            put_grouped(alloc, p, numbers, depth, h.get(), out)
        }
        Typed::Iff(g, h) => {
            put_grouped(alloc, p, numbers, depth, g.get(), out)?;
            out.extend_from_slice(b" <-> ")?;
            put_grouped(alloc, p, numbers, depth, h.get(), out)
        }
        Typed::Forall(sort, g) => {
            put_binder(alloc, true, sort, numbers[depth], out)?;
            put_grouped(alloc, p, numbers, depth + 1, g.get(), out)
        }
        Typed::Exists(sort, g) => {
            put_binder(alloc, false, sort, numbers[depth], out)?;
            put_grouped(alloc, p, numbers, depth + 1, g.get(), out)
        }
        Typed::Part(_, g) => put_formula(alloc, p, numbers, depth, g.get(), out),
    }
}

/// Puts a formula in parentheses after a text.
#[cycle(printing)]
pub(crate) fn put_grouped(
    alloc: Global,
    p: &Problem,
    numbers: &[u128],
    depth: usize,
    f: &Typed,
    out: &mut Vec<u8>,
) -> Result<(), Memory>
    requires few { length (constants_of p.now) ≤ most_constants }
    requires numbers { AreNumbers p.now numbers.now }
    requires depth { depth ≤ length numbers.now }
    requires fit { Everywhere (printable p.now (length numbers.now)) depth (formula f.now) }
    ensures { OnOk result (out.new.items ≡ out.old.items ++ grouped (formula_text p.now depth (formula f.now))) }
{
    out.push(b'(')?;
    put_formula(alloc, p, numbers, depth, f, out)?;
    out.push(b')')?;
    Ok(())
}

/// Puts a conjunction or a disjunction after a text.
#[cycle(printing)]
fn put_chain(
    alloc: Global,
    p: &Problem,
    numbers: &[u128],
    depth: usize,
    all: bool,
    formulas: &[Typed],
    out: &mut Vec<u8>,
) -> Result<(), Memory>
    requires few { length (constants_of p.now) ≤ most_constants }
    requires numbers { AreNumbers p.now numbers.now }
    requires depth { depth ≤ length numbers.now }
    requires fit { AllEverywhere (printable p.now (length numbers.now)) depth (formulas_of formulas.now) }
    ensures { OnOk result (out.new.items ≡ out.old.items ++ joined_text (truth_text all) (joint_text all) (formula_texts p.now depth (formulas_of formulas.now))) }
{
    if formulas.is_empty() {
        return put_truth(all, out);
    }
    if formulas.len() == 1 {
        return put_only(alloc, p, numbers, depth, formulas, out);
    }
    put_members(alloc, p, numbers, depth, all, formulas, out)
}

/// Puts formulas after a text, one after the other.
#[cycle(printing)]
fn put_only(
    alloc: Global,
    p: &Problem,
    numbers: &[u128],
    depth: usize,
    formulas: &[Typed],
    out: &mut Vec<u8>,
) -> Result<(), Memory>
    requires few { length (constants_of p.now) ≤ most_constants }
    requires numbers { AreNumbers p.now numbers.now }
    requires depth { depth ≤ length numbers.now }
    requires fit { AllEverywhere (printable p.now (length numbers.now)) depth (formulas_of formulas.now) }
    ensures { OnOk result (out.new.items ≡ out.old.items ++ concat (formula_texts p.now depth (formulas_of formulas.now))) }
{
    for f in formulas {
        put_formula(alloc, p, numbers, depth, f, out)?;
    }
    Ok(())
}

/// Puts formulas in parentheses after a text, with the sign of a conjunction or a disjunction between each two.
#[cycle(printing)]
fn put_members(
    alloc: Global,
    p: &Problem,
    numbers: &[u128],
    depth: usize,
    all: bool,
    formulas: &[Typed],
    out: &mut Vec<u8>,
) -> Result<(), Memory>
    requires few { length (constants_of p.now) ≤ most_constants }
    requires numbers { AreNumbers p.now numbers.now }
    requires depth { depth ≤ length numbers.now }
    requires fit { AllEverywhere (printable p.now (length numbers.now)) depth (formulas_of formulas.now) }
    ensures { OnOk result (out.new.items ≡ out.old.items ++ separated (joint_text all) false (map grouped (formula_texts p.now depth (formulas_of formulas.now)))) }
{
    let mut started = false;
    for f in formulas {
        put_joint(all, started, out)?;
        started = true;
        put_grouped(alloc, p, numbers, depth, f, out)?;
    }
    Ok(())
}
