// What stands in the place of a principal member, rule by rule. Two rules have no premise: trivial, for a conjunction of
// nothing, is beta with no member, and close, which has no principal, ends a branch by its closing formula.
//
//     -------------------- trivial          ------------------- close, C is what the closing formula says
//     true  ⊢  Γ, true                      C  ⊢  Γ

ghost use Rattle.std.specs.Prelude.{◌≡◌, ◌≤◌, ◌<◌, ◌^◌, ◌-◌, ◌+◌, suc, length, IfOk, Some, [], ◌∷◌};
ghost use Rattle.std.specs.List.{slice_get};
ghost use Rattle.sequent.specs.Rules as calculus;
ghost use Rattle.formula.specs.Shifts.{IsBelow};
ghost use Rattle.formula.specs.Tree.{form};
ghost use Rattle.sequent.specs.Views.{added_members, members_of};

use crate::added::Added;
use crate::alpha::alpha;
use crate::beta::beta;
use crate::delta::delta;
use crate::gamma::gamma;
use crate::member::Member;
use formula::Core;
use linear_term::Memory;
use std::alloc::Global;

/// The new members of premise number i.
#[tactic(auto, using(crate::proofs::Stepping::branched))]
pub fn branch(alloc: Global, m: &Member, count: u32, i: u32) -> Result<Added, Memory>
    requires over { m.now.over ≤ count }
    requires room { count + 1 < 2 ^ 32 }
    requires used { m.now.used + 1 < 2 ^ 32 }
    requires below { IsBelow (2 ^ 32 - (count - m.now.over)) (form m.now.formula) }
    requires within { i < length (calculus.branches count m.now.over m.now.used (form m.now.formula)) }
    ensures { IfOk result (λ ms. slice_get (calculus.branches count m.now.over m.now.used (form m.now.formula)) i ≡ Some (members_of (added_members ms))) }
{
    match &m.formula {
        Core::And(fs) => beta(alloc, fs.as_slice(), i, m.over, count),
        Core::Or(fs) => alpha(alloc, fs.as_slice(), m.over, count),
        Core::Forall(f) => Ok(Added::One(delta(alloc, f.get(), m.over, count)?)),
        Core::Exists(f) => gamma(alloc, m, f.get(), count),
        Core::Eq(_) => Err(Memory),
        Core::Neq(_) => Err(Memory),
        Core::Geq(_) => Err(Memory),
        Core::Pred(_, _) => Err(Memory),
        Core::NotPred(_, _) => Err(Memory),
        Core::NotFun(_, _, _) => Err(Memory),
    }
}

/// How many premises the rule with this principal has.
#[tactic(auto, using(crate::proofs::Stepping::branched))]
pub fn width_of(m: &Member, count: u32) -> u32
    requires { length (calculus.branches count m.now.over m.now.used (form m.now.formula)) < 2 ^ 32 }
    ensures { result ≡ length (calculus.branches count m.now.over m.now.used (form m.now.formula)) }
{
    match &m.formula {
        Core::And(fs) => fs.len() as u32,
        Core::Or(_) => 1,
        Core::Forall(_) => 1,
        Core::Exists(_) => 1,
        Core::Eq(_) => 0,
        Core::Neq(_) => 0,
        Core::Geq(_) => 0,
        Core::Pred(_, _) => 0,
        Core::NotPred(_, _) => 0,
        Core::NotFun(_, _, _) => 0,
    }
}

/// How many constants a premise has.
#[tactic(auto, using(formula::proofs::Building::formed))]
pub fn count_after(f: &Core, count: u32) -> u32
    requires { count + 1 < 2 ^ 32 }
    ensures { result ≡ calculus.count_after count (form f.now) }
{
    match f {
        Core::Forall(_) => count + 1,
        Core::Exists(_) => count + 1,
        Core::And(_) => count,
        Core::Or(_) => count,
        Core::Eq(_) => count,
        Core::Neq(_) => count,
        Core::Geq(_) => count,
        Core::Pred(_, _) => count,
        Core::NotPred(_, _) => count,
        Core::NotFun(_, _, _) => count,
    }
}
