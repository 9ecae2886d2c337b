// The weight of clauses, as charges count it: up to the greatest u64.

ghost use Rattle.clause_set.specs.Literals.{term_of};
ghost use Rattle.clause_set.specs.Weight.{clause_weight, weight};
ghost use Rattle.base_budget.specs.Trace.{capped};
ghost use Rattle.std.specs.Prelude.{◌≡◌, ◌+◌, ◌*◌, length};

use super::clause::Clause;

/// How many literals and monomials a clause has.
#[tactic(auto, using(crate::proofs::Weights::weights))]
pub(crate) fn clause_weight(c: &Clause) -> u64
    ensures { result ≡ capped (clause_weight c.now) }
{
    let mut sum = 0u64;
    for l in c.literals() {
        sum = sum.saturating_add(1u64.saturating_add(l.term().len() as u64));
    }
    sum
}

/// How many literals and monomials the clauses have.
#[tactic(auto, using(crate::proofs::Weights::weights))]
pub fn weight(d: &[Clause]) -> u64
    ensures { result ≡ capped (weight d.now) }
{
    let mut sum = 0u64;
    for c in d {
        sum = sum.saturating_add(clause_weight(c));
    }
    sum
}

/// The charge of a conjunction: 1, and each weight as often as there are clauses on the other side.
#[tactic(auto, using(crate::proofs::Weights::products))]
pub(crate) fn conjunction_charge(a: &[Clause], b: &[Clause]) -> u64
    ensures { result ≡ capped (1 + length b.now * weight a.now + length a.now * weight b.now) }
{
    let left = times(b.len(), weight(a));
    let right = times(a.len(), weight(b));
    1u64.saturating_add(left).saturating_add(right)
}

/// n times a capped number.
fn times(n: usize, weight: u64) -> u64
    ensures { result ≡ capped (n * weight) }
{
    (n as u64).saturating_mul(weight)
}

/// The charge of a disjunction: 1 and both weights.
pub(crate) fn disjunction_charge(a: &[Clause], b: &[Clause]) -> u64
    ensures { result ≡ capped (1 + weight a.now + weight b.now) }
{
    1u64.saturating_add(weight(a)).saturating_add(weight(b))
}

/// The charge of a negation: 1 and twice the weight.
pub(crate) fn negation_charge(c: &Clause) -> u64
    ensures { result ≡ capped (1 + 2 * clause_weight c.now) }
{
    let weight = clause_weight(c);
    1u64.saturating_add(weight).saturating_add(weight)
}

/// The charge of tidying: the square of the number of clauses.
pub(crate) fn tidying_charge(n: usize) -> u64
    ensures { result ≡ capped (n * n) }
{
    (n as u64).saturating_mul(n as u64)
}

/// The charge of tidying the clauses of two lists together.
#[tactic(auto, using(crate::proofs::Lengths::squares))]
pub(crate) fn tidying_charge_of_both(m: usize, n: usize) -> u64
    ensures { result ≡ capped ((m + n) * (m + n)) }
{
    let count = (m as u64).saturating_add(n as u64);
    count.saturating_mul(count)
}
