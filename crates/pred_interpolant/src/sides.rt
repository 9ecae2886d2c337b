// What sets of parts assume, as formulas.

ghost use Rattle.std.specs.Prelude.{◌≡◌, ◌++◌, true, IfOk, OnOk, map, nat_eq};
ghost use Rattle.std.specs.List.{filter, list_any};
ghost use Rattle.form_typed.specs.Formula.{formula, formulas_of};
ghost use Rattle.pri_typing.specs.Problems.{assumed, assumed_by};
ghost use Rattle.pri_typing.specs.WellFormed.{all_formula_components, formula_components};
ghost use Rattle.function_encoding.specs.Encoded.{is_in};

use form_typed::Typed;
use linear_term::Memory;
use pri_typing::Problem;
use sqlite_items::{Boxed, Items};
use std::alloc::Global;

/// Whether the number is one of the set.
fn contains(set: &[u32], k: u32) -> bool
    ensures { result ≡ list_any (nat_eq k) set.now }
{
    for x in set {
        if k == *x {
            return true;
        }
    }
    false
}

/// What a component with this sign assumes.
fn assumed_of(alloc: Global, plus: bool, f: &Typed) -> Result<Typed, Memory>
    ensures { IfOk result (λ g. formula g ≡ assumed (record { plus = plus; what = formula f.now })) }
{
    if plus {
        Ok(Typed::Not(Boxed::new(alloc, f.copy(alloc)?)?))
    } else {
        f.copy(alloc)
    }
}

/// What those components of a formula that stands with this sign, true for plus, assume that are parts of the set, after others.
#[cycle(side)]
fn collect(
    alloc: Global,
    plus: bool,
    f: &Typed,
    set: &[u32],
    out: &mut Items<Typed>,
) -> Result<(), Memory>
    ensures { OnOk result (map formula out.new ≡ map formula out.old ++ map assumed (filter (is_in set.now) (formula_components plus (formula f.now)))) }
{
    match f {
        Typed::Not(g) => collect(alloc, !plus, g.get(), set, out),
        Typed::Implies(g, h) => {
            if !plus {
                return Ok(());
            }
            collect(alloc, false, g.get(), set, out)?;
            collect(alloc, true, h.get(), set, out)
        }
        Typed::Or(fs) => {
            if !plus {
                return Ok(());
            }
            collect_all(alloc, true, fs.as_slice(), set, out)
        }
        Typed::And(fs) => {
            if plus {
                return Ok(());
            }
            collect_all(alloc, false, fs.as_slice(), set, out)
        }
        Typed::Part(k, _) => {
            if contains(set, *k) {
                out.push(assumed_of(alloc, plus, f)?)?;
            }
            Ok(())
        }
        Typed::Truth(_) => Ok(()),
        Typed::Rel(_, _, _) => Ok(()),
        Typed::Pred(_, _) => Ok(()),
        Typed::Iff(_, _) => Ok(()),
        Typed::Forall(_, _) => Ok(()),
        Typed::Exists(_, _) => Ok(()),
    }
}

#[cycle(side)]
fn collect_all(
    alloc: Global,
    plus: bool,
    formulas: &[Typed],
    set: &[u32],
    out: &mut Items<Typed>,
) -> Result<(), Memory>
    ensures { OnOk result (map formula out.new ≡ map formula out.old ++ map assumed (filter (is_in set.now) (all_formula_components plus (formulas_of formulas.now)))) }
{
    for f in formulas {
        collect(alloc, plus, f, set, out)?;
    }
    Ok(())
}

/// What the parts of a set assume: one flat conjunction, in the order of the file.
pub fn side(alloc: Global, p: &Problem, set: &[u32]) -> Result<Typed, Memory>
    ensures { IfOk result (λ f. formula f ≡ assumed_by p.now set.now) }
{
    let mut out = Items::new(alloc);
    collect(alloc, true, &p.formula, set, &mut out)?;
    Ok(Typed::And(out))
}
