// A formula prepared: its quantified subformulas that are pure but for applications are eliminated, from left to right.

ghost use Rattle.form_naming.specs.Naming.{is_pure_but as is_pure_for};
ghost use Rattle.formula.specs.Form.{AreFormsOver, FormTruth, IsFormOver};
ghost use Rattle.formula.specs.Sizes.{depth, depths};
ghost use Rattle.formula.specs.Tree.{form, forms_of};
ghost use Rattle.clause_root_laws.specs.Prepared.{all_prepared, attempted_pure, most_names, prepared, unquantified};
ghost use Rattle.std.specs.Prelude.{◌≡◌, ◌+◌, ◌≤◌, ◌^◌, ◌↔◌, ◌&&◌, IfOk, List, ℤ, false, length, true};
ghost use Rattle.form_typed.specs.Truth.{Meaning};

use super::attempt::attempt;
use form_naming::{application, is_pure_but, reading, renamed};
use formula::{Core, Shared, is_pure};
use linear_term::Memory;
use sqlite_items::Items;
use std::alloc::Global;

/// At most this many applications get a name before one quantified formula.
const MOST_NAMES: u32 = 64;

/// The formula f without its quantifiers, where it is pure and its elimination ends within its share of the steps; else f.
fn attempt_pure(alloc: Global, f: &Core, names: u32, left: &mut u64) -> Result<Core, Memory>
    requires room { names + depth (form f.now) ≤ 2 ^ 32 }
    requires over { IsFormOver names (form f.now) }
    ensures { IfOk result (λ g. (form g, left.new) ≡ attempted_pure names (form f.now) left.old) }
{
    if is_pure(f) {
        return attempt(alloc, f, names, left);
    }
    f.copy(alloc)
}

/// The formula with names for at most `most` of its applications at arguments over the outer names, and then attempted.
fn unquantified(
    alloc: Global,
    f: &Core,
    names: u32,
    most: u32,
    left: &mut u64,
) -> Result<Core, Memory>
    requires room { names + depth (form f.now) + most ≤ 2 ^ 32 }
    requires over { IsFormOver names (form f.now) }
    ensures { IfOk result (λ g. (form g, left.new) ≡ unquantified most names (form f.now) left.old) }
{
    if most == 0 {
        return attempt_pure(alloc, f, names, left);
    }
    match application(names, f) {
        None => attempt_pure(alloc, f, names, left),
        Some(found) => {
            let under = renamed(alloc, names, found.0, found.1, f)?;
            let body = unquantified(alloc, &under, names + 1, most - 1, left)?;
            reading(alloc, names, found.0, found.1, body)
        }
    }
}

/// Whether a for-all is attempted: it stands below a for-some, and is pure but for applications.
fn is_attempted(inside: bool, names: u32, body: &Core) -> bool
    ensures { result ≡ (inside && is_pure_for names (form body.now)) }
{
    inside && is_pure_but(names, body)
}

/// The formula with each maximal quantified subformula attempted that is pure but for applications; `inside` says whether it
/// stands below a for-some.
#[cycle(preparing)]
fn prepared(
    alloc: Global,
    f: &Core,
    inside: bool,
    names: u32,
    left: &mut u64,
) -> Result<Core, Memory>
    requires room { names + depth (form f.now) + 64 ≤ 2 ^ 32 }
    requires over { IsFormOver names (form f.now) }
    ensures { IfOk result (λ g. (form g, left.new) ≡ prepared inside names (form f.now) left.old) }
{
    match f {
        Core::Eq(_) => f.copy(alloc),
        Core::Neq(_) => f.copy(alloc),
        Core::Geq(_) => f.copy(alloc),
        Core::Pred(_, _) => f.copy(alloc),
        Core::NotPred(_, _) => f.copy(alloc),
        Core::NotFun(_, _, _) => f.copy(alloc),
        Core::And(fs) => {
            let members = prepared_all(alloc, fs.as_slice(), inside, names, left)?;
            Ok(Core::And(members))
        }
        Core::Or(fs) => {
            let members = prepared_all(alloc, fs.as_slice(), inside, names, left)?;
            Ok(Core::Or(members))
        }
        Core::Forall(g) => {
            if is_attempted(inside, names, g.get()) {
                return unquantified(alloc, f, names, MOST_NAMES, left);
            }
            let body = prepared(alloc, g.get(), inside, names + 1, left)?;
            Ok(Core::Forall(Shared::new(alloc, body)?))
        }
        Core::Exists(g) => {
            if is_pure_but(names, g.get()) {
                return unquantified(alloc, f, names, MOST_NAMES, left);
            }
            let body = prepared(alloc, g.get(), true, names + 1, left)?;
            Ok(Core::Exists(Shared::new(alloc, body)?))
        }
    }
}

#[cycle(preparing)]
fn prepared_all(
    alloc: Global,
    formulas: &[Core],
    inside: bool,
    names: u32,
    left: &mut u64,
) -> Result<Items<Core>, Memory>
    requires room { names + depths (forms_of formulas.now) + 64 ≤ 2 ^ 32 }
    requires over { AreFormsOver names (forms_of formulas.now) }
    ensures { IfOk result (λ gs. (forms_of gs, left.new) ≡ all_prepared inside names (forms_of formulas.now) left.old) }
{
    let mut out = Items::new(alloc);
    for f in formulas {
        out.push(prepared(alloc, f, inside, names, left)?)?;
    }
    Ok(out)
}

/// The root over `count` names without the quantifiers of its pure parts, as far as this many steps go: true exactly where the
/// root is. The same root and steps give the same formula.
pub fn prepare(alloc: Global, root: &Core, count: u32, steps: u64) -> Result<Core, Memory>
    requires room { count + depth (form root.now) + 64 ≤ 2 ^ 32 }
    requires over { IsFormOver count (form root.now) }
    ensures exact { IfOk result (λ f. form f ≡ (prepared false count (form root.now) steps).0) }
    ensures truth { IfOk result (λ f. (w : Meaning) (e : List ℤ) → length e ≡ count → FormTruth w (form f) e ↔ FormTruth w (form root.now) e) }
    ensures over { IfOk result (λ f. IsFormOver count (form f)) }
{
    root.know_reduced();
    let mut left = steps;
    prepared(alloc, root, false, count, &mut left)
}
