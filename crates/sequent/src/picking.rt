// Which rule a member is the principal of.

ghost use Rattle.std.specs.Prelude.{◌≡◌, Option, None, Some};
ghost use Rattle.formula.specs.Tree.{form};
ghost use Rattle.sequent.specs.Rules as calculus;
ghost use Rattle.sequent.specs.Views.{member_of};

use crate::member::{Member, Shape};
use formula::{Core, is_pure};

/// The rule whose principal has this form.
#[tactic(auto, using(crate::proofs::Shaping::shaped))]
fn shape(f: &Core) -> Option<Shape>
    ensures { result ≡ calculus.shape (form f.now) }
{
    match f {
        Core::Eq(_) => None,
        Core::Neq(_) => None,
        Core::Geq(_) => None,
        Core::Pred(_, _) => None,
        Core::NotPred(_, _) => None,
        Core::NotFun(_, _, _) => None,
        Core::And(fs) => {
            if fs.is_empty() {
                Some(Shape::Trivial)
            } else {
                Some(Shape::Beta)
            }
        }
        Core::Or(_) => Some(Shape::Alpha),
        Core::Forall(_) => Some(Shape::Delta),
        Core::Exists(_) => Some(Shape::Gamma),
    }
}

/// Whether a rule of this shape has such a principal.
pub fn takes(k: Shape, f: &Core) -> bool
    ensures { result ≡ calculus.is_shape k (calculus.shape (form f.now)) }
{
    is_shape(k, shape(f))
}

/// The rule whose canonical principal the member may be with this limit.
pub fn fits(m: &Member, limit: u32) -> Option<Shape>
    ensures { result ≡ calculus.fits limit (member_of m.now) }
{
    match shape(&m.formula) {
        None => None,
        Some(Shape::Trivial) => Some(Shape::Trivial),
        Some(Shape::Gamma) => {
            if is_pure(&m.formula) {
                None
            } else if m.used < limit {
                Some(Shape::Gamma)
            } else {
                None
            }
        }
        Some(Shape::Alpha) => if is_pure(&m.formula) {
            None
        } else {
            Some(Shape::Alpha)
        },
        Some(Shape::Delta) => if is_pure(&m.formula) {
            None
        } else {
            Some(Shape::Delta)
        },
        Some(Shape::Beta) => if is_pure(&m.formula) {
            None
        } else {
            Some(Shape::Beta)
        },
    }
}

fn is_shape(k: Shape, l: Option<Shape>) -> bool
    ensures { result ≡ calculus.is_shape k l }
{
    match (k, l) {
        (Shape::Trivial, Some(Shape::Trivial)) => true,
        (Shape::Alpha, Some(Shape::Alpha)) => true,
        (Shape::Delta, Some(Shape::Delta)) => true,
        (Shape::Beta, Some(Shape::Beta)) => true,
        (Shape::Gamma, Some(Shape::Gamma)) => true,
        _ => false,
    }
}
