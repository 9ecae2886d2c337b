// How large a formula is. Both measures stop at the greatest number of their type.

ghost use Rattle.std.specs.Prelude.{◌≡◌, ◌-◌, ◌^◌, min};
ghost use Rattle.formula.specs.Sizes as sizes_of;
ghost use Rattle.formula.specs.Tree.{form, forms_of};

use crate::calculus::Core;

/// The number of nodes: each connective, quantifier and atom is one. The greatest u64 where there are more. Takes no
/// memory.
#[cycle(size)]
#[tactic(auto, using(crate::proofs::Measuring::measured))]
pub fn size(f: &Core) -> u64
    ensures { result ≡ min (sizes_of.size (form f.now)) (2 ^ 64 - 1) }
{
    match f {
        Core::Eq(_) => 1,
        Core::Neq(_) => 1,
        Core::Geq(_) => 1,
        Core::Pred(_, _) => 1,
        Core::NotPred(_, _) => 1,
        Core::NotFun(_, _, _) => 1,
        Core::And(fs) => sizes(fs.as_slice()).saturating_add(1),
        Core::Or(fs) => sizes(fs.as_slice()).saturating_add(1),
        Core::Forall(g) => size(g.get()).saturating_add(1),
        Core::Exists(g) => size(g.get()).saturating_add(1),
    }
}

#[cycle(size)]
#[tactic(auto, using(crate::proofs::Measuring::measured))]
fn sizes(formulas: &[Core]) -> u64
    ensures { result ≡ min (sizes_of.sizes (forms_of formulas.now)) (2 ^ 64 - 1) }
{
    let mut sum: u64 = 0;
    for f in formulas {
        sum = sum.saturating_add(size(f));
    }
    sum
}

/// The most nodes on one way from the root to an atom or to a connective without members. The greatest u32 where there
/// are more. Takes no memory.
#[cycle(depth)]
#[tactic(auto, using(crate::proofs::Measuring::measured))]
pub fn depth(f: &Core) -> u32
    ensures { result ≡ min (sizes_of.depth (form f.now)) (2 ^ 32 - 1) }
{
    match f {
        Core::Eq(_) => 1,
        Core::Neq(_) => 1,
        Core::Geq(_) => 1,
        Core::Pred(_, _) => 1,
        Core::NotPred(_, _) => 1,
        Core::NotFun(_, _, _) => 1,
        Core::And(fs) => depths(fs.as_slice()).saturating_add(1),
        Core::Or(fs) => depths(fs.as_slice()).saturating_add(1),
        Core::Forall(g) => depth(g.get()).saturating_add(1),
        Core::Exists(g) => depth(g.get()).saturating_add(1),
    }
}

#[cycle(depth)]
#[tactic(auto, using(crate::proofs::Measuring::measured))]
fn depths(formulas: &[Core]) -> u32
    ensures { result ≡ min (sizes_of.depths (forms_of formulas.now)) (2 ^ 32 - 1) }
{
    let mut most: u32 = 0;
    for f in formulas {
        most = most.max(depth(f));
    }
    most
}
