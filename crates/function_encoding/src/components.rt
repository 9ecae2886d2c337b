// The components of a formula that are parts of a set.

ghost use Rattle.std.specs.Prelude.{◌≡◌, ◌++◌, true, IfOk, OnOk, nat_eq};
ghost use Rattle.std.specs.List.{filter, list_any};
ghost use Rattle.form_typed.specs.Formula.{formula, formulas_of};
ghost use Rattle.pri_typing.specs.WellFormed.{all_formula_components, formula_components};
ghost use Rattle.function_encoding.specs.Encoded.{all_signed, is_in};

use crate::component::Component;
use formula::Typed;
use linear_term::Memory;
use sqlite_items::Items;
use std::alloc::Global;

/// Whether the number is one of the set.
fn contains(set: &[u32], k: u32) -> bool
    ensures { result ≡ list_any (nat_eq k) set.now }
{
    for x in set {
        if k == *x {
            return true;
        }
    }
    false
}

/// Those of a formula that stands with this sign, true for plus, after others.
#[cycle(components)]
fn collect<'a>(
    plus: bool,
    f: &'a Typed,
    set: &[u32],
    out: &mut Items<Component<'a>>,
) -> Result<(), Memory>
    ensures { OnOk result (all_signed out.new ≡ all_signed out.old ++ filter (is_in set.now) (formula_components plus (formula f.now))) }
{
    match f {
        Typed::Not(g) => collect(!plus, g.get(), set, out),
        Typed::Implies(g, h) => {
            if !plus {
                return Ok(());
            }
            collect(false, g.get(), set, out)?;
            collect(true, h.get(), set, out)
        }
        Typed::Or(fs) => {
            if !plus {
                return Ok(());
            }
            collect_all(true, fs.as_slice(), set, out)
        }
        Typed::And(fs) => {
            if plus {
                return Ok(());
            }
            collect_all(false, fs.as_slice(), set, out)
        }
        Typed::Part(k, _) => {
            if contains(set, *k) {
                out.push(Component { plus, what: f })?;
            }
            Ok(())
        }
        Typed::Truth(_) => Ok(()),
        Typed::Rel(_, _, _) => Ok(()),
        Typed::Pred(_, _) => Ok(()),
        Typed::Iff(_, _) => Ok(()),
        Typed::Forall(_, _) => Ok(()),
        Typed::Exists(_, _) => Ok(()),
    }
}

#[cycle(components)]
fn collect_all<'a>(
    plus: bool,
    formulas: &'a [Typed],
    set: &[u32],
    out: &mut Items<Component<'a>>,
) -> Result<(), Memory>
    ensures { OnOk result (all_signed out.new ≡ all_signed out.old ++ filter (is_in set.now) (all_formula_components plus (formulas_of formulas.now))) }
{
    for f in formulas {
        collect(plus, f, set, out)?;
    }
    Ok(())
}

/// Those of a whole formula.
pub fn components<'a>(
    alloc: Global,
    f: &'a Typed,
    set: &[u32],
) -> Result<Items<Component<'a>>, Memory>
    ensures { IfOk result (λ cs. all_signed cs ≡ filter (is_in set.now) (formula_components true (formula f.now))) }
{
    let mut out = Items::new(alloc);
    collect(true, f, set, &mut out)?;
    Ok(out)
}
