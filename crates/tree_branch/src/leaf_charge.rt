// The charge of a leaf, which is read where its members lie. It is paid before the numbers of its closing formula are computed,
// so the size of that is read off the members.

ghost use Rattle.formula.specs.Sizes.{size};
ghost use Rattle.formula.specs.Tree.{form};
ghost use Rattle.tree_branch.specs.Pairing as pairing;
ghost use Rattle.tree_branch.specs.Pairing.{sum_of};
ghost use Rattle.pred_unify.specs.Reading.{HasKinds, behind, sequent_at};
ghost use Rattle.proof_tree.specs.Walk as walk;
ghost use Rattle.base_budget.specs.Trace.{capped};
ghost use Rattle.sequent.specs.Views.{members_of, sequent_of};
ghost use Rattle.sequent.specs.declared.member.Pick.TheVariants as pick;
ghost use Rattle.std.specs.Prelude.{◌≡◌, drop};

use super::pair_sizes::{function_pair_size, predicate_pair_size};
use formula::{Core, size};
use linear_term::Term;
use pred_unify::{Leaf, Met};
use sequent::Member;

/// The size of the pairs of a function's value with each member.
fn function_sizes(f: u32, ss: &[Term], members: &[&Member]) -> u64
    ensures { result ≡ capped (sum_of (λ m. pairing.function_pair_size f ss.now m.formula) (members_of (behind members.now))) }
{
    let mut sum: u64 = 0;
    for m in members {
        sum = sum.saturating_add(function_pair_size(f, ss, &m.formula));
    }
    sum
}

/// The size of the pairs of a negated predicate with each member from the first of these places on.
fn predicate_sizes(p: u32, ss: &[Term], members: &[&Member], first: usize) -> u64
    ensures { result ≡ capped (sum_of (λ m. pairing.predicate_pair_size p ss.now m.formula) (members_of (behind (drop first members.now)))) }
{
    let mut sum: u64 = 0;
    for i in first..members.len() {
        sum = sum.saturating_add(predicate_pair_size(p, ss, &members[i].formula));
    }
    sum
}

/// The size of the pairs of g with each member from the first of these places on, if g is a negated predicate.
fn with_predicates_size(members: &[&Member], first: usize, g: &Core) -> u64
    ensures { result ≡ capped (pairing.with_predicates_size (members_of (behind (drop first members.now))) (form g.now)) }
{
    match g {
        Core::NotPred(p, ss) => predicate_sizes(*p, ss.as_slice(), members, first),
        Core::Eq(_) => 0,
        Core::Neq(_) => 0,
        Core::Geq(_) => 0,
        Core::Pred(_, _) => 0,
        Core::NotFun(_, _, _) => 0,
        Core::And(_) => 0,
        Core::Or(_) => 0,
        Core::Forall(_) => 0,
        Core::Exists(_) => 0,
    }
}

/// The size of the pairs of g with each member, if g is a value of a function.
fn with_functions_size(members: &[&Member], g: &Core) -> u64
    ensures { result ≡ capped (pairing.with_functions_size (members_of (behind members.now)) (form g.now)) }
{
    match g {
        Core::NotFun(f, ss, _) => function_sizes(*f, ss.as_slice(), members),
        Core::Eq(_) => 0,
        Core::Neq(_) => 0,
        Core::Geq(_) => 0,
        Core::Pred(_, _) => 0,
        Core::NotPred(_, _) => 0,
        Core::And(_) => 0,
        Core::Or(_) => 0,
        Core::Forall(_) => 0,
        Core::Exists(_) => 0,
    }
}

/// The size of the pairs of each negated predicate that is met with each predicate from where it is met on.
fn all_predicates_size(met: &[Met], holding: &[&Member]) -> u64
    ensures { result ≡ capped (sum_of (λ x. pairing.with_predicates_size (members_of (behind (drop x.first holding.now))) (form x.failing.now.formula)) met.now) }
{
    let mut sum: u64 = 0;
    for x in met {
        sum = sum.saturating_add(with_predicates_size(holding, x.first, &x.failing.formula));
    }
    sum
}

/// The size of the pairs of each function's value with each later one.
fn later_values_size(members: &[&Member]) -> u64
    ensures { result ≡ capped (pairing.function_pairs_size (members_of (behind members.now))) }
{
    let mut sum: u64 = 0;
    for i in 0..members.len() {
        sum = sum.saturating_add(with_functions_size(&members[i + 1..], &members[i].formula));
    }
    sum
}

/// The size of the members.
fn sizes(members: &[&Member]) -> u64
    ensures { result ≡ capped (sum_of (λ m. size m.formula) (members_of (behind members.now))) }
{
    let mut sum: u64 = 0;
    for m in members {
        sum = sum.saturating_add(size(&m.formula));
    }
    sum
}

/// The size of the closing formula.
fn closing_size(leaf: &Leaf) -> u64
    requires { HasKinds leaf.now }
    ensures { result ≡ capped (pairing.closing_size (sequent_of (sequent_at leaf.now))) }
{
    let predicates = all_predicates_size(leaf.met.as_slice(), leaf.holding.as_slice());
    let pairs = predicates.saturating_add(later_values_size(leaf.differing.as_slice()));
    sizes(leaf.pure.as_slice())
        .saturating_add(pairs)
        .saturating_add(1)
}

/// The charge of a leaf that is closed: 1 and the size of its closing formula.
pub fn leaf_fee(leaf: &Leaf) -> u64
    requires { HasKinds leaf.now }
    ensures { result ≡ capped (walk.fee (sequent_of (sequent_at leaf.now)) pick.Close) }
{
    closing_size(leaf).saturating_add(1)
}
