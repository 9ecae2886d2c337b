// The rule of a negated divisibility: d does not divide t exactly where d divides t + r for some r from 1 to d − 1, so
// the clause is split into d − 1 clauses, each with one of these remainders.

ghost use Rattle.clause_set.specs.Divisibilities.{numbers_from};
ghost use Rattle.clause_set.specs.Formed.{IsNormalized};
ghost use Rattle.clause_set.specs.Literals.{IsDivisor, term_of};
ghost use Rattle.clause_set.specs.Met.{IsMet};
ghost use Rattle.clause_set.specs.Names.{area, is_equation};
ghost use Rattle.clause_set.specs.Order.{divisor_of};
ghost use Rattle.clause_set.specs.Rules.{applies, measure, rule};
ghost use Rattle.clause_set.specs.declared.literal.Literal.TheVariants.{NDiv};
ghost use Rattle.elim_rules.specs.Congruences.{remainder_beside};
ghost use Rattle.base_budget.specs.Trace.{capped, each};
ghost use Rattle.base_budget.specs.Work.{Charged, Worked};
ghost use Rattle.base_budget.specs.declared.log.Entry.TheVariants.{Apart};
ghost use Rattle.std.specs.List.{list_any};
ghost use Rattle.std.specs.Prelude.{◌≡◌, ◌<◌, ◌+◌, ◌-◌, ◌*◌, ◌^◌, ◌↔◌, ℤ, List, [], ◌∷◌, All, false, IfOk, length, pos, Some, true, unsigned_abs};

use super::parts::divisor;
use base_budget::{Purse, StepFault};
use clause_set::{Clause, Literal};
use elim_steps::{alone, area, combining, in_form_with};
use linear_term::{Memory, Term};
use sqlite_items::Items;
use std::alloc::Global;

/// 1, and for each of the d − 1 clauses its literals, each with a place for itself and for each name.
fn charge(alloc: Global, c: &Clause, count: u128) -> Result<u64, Memory>
    ensures { IfOk result (λ n. n ≡ capped (1 + count * area (length c.now) c.now)) }
{
    let places = area(alloc, c.len() as u64, c)?;
    let clauses = count.min(u64::MAX as u128) as u64;
    Ok(clauses.saturating_mul(places).saturating_add(1))
}

/// How many remainders that are not 0 the divisor of l has.
fn remainder_count(l: &Literal) -> u128
    requires { IsDivisor (divisor_of l.now) }
    ensures exact { result ≡ unsigned_abs (divisor_of l.now) - 1 }
    ensures range { result < 2 ^ 127 }
{
    divisor(l).unsigned_abs() - 1
}

/// The clause where d divides t + r, for the negated divisibility l of t by d, with the other literals of the clause.
#[tactic(auto, using(base_budget::proofs::Charging::working))]
fn with_remainder(
    alloc: Global,
    rest: Items<Literal>,
    l: &Literal,
    r: u128,
) -> Result<Items<Clause>, StepFault>
    requires divisor { IsDivisor (divisor_of l.now) }
    requires normalized { All IsNormalized rest }
    requires remainder { r < 2 ^ 127 }
    ensures { Worked (remainder_beside rest l.now r) result }
{
    let s = combining(1, l.term(), 1, &Term::number(alloc, r as i128))?;
    let new = alone(alloc, Literal::Div(divisor(l), s))?;
    Ok(in_form_with(alloc, rest, new)?)
}

/// Copies of the literals, and room for one more.
#[tactic(auto, using(clause_set::proofs::Walks::copies))]
fn copies_with_room(alloc: Global, ls: &[Literal]) -> Result<Items<Literal>, Memory>
    ensures { IfOk result (λ copies. copies ≡ ls.now) }
{
    let room = ls.len().saturating_add(1);
    let mut out = Items::from_vec(Vec::with_capacity(alloc, room)?);
    for l in ls {
        out.push(l.copy()?)?;
    }
    Ok(out)
}

/// The clauses of the remainders from 1 to `count`: the last one is made of the other literals, the ones before it of
/// copies.
#[tactic(auto, using(base_budget::proofs::Charging::leaving))]
fn with_remainders(
    alloc: Global,
    rest: Items<Literal>,
    l: &Literal,
    count: u128,
) -> Result<Items<Clause>, StepFault>
    requires divisor { IsDivisor (divisor_of l.now) }
    requires normalized { All IsNormalized rest }
    requires remainders { count < 2 ^ 127 }
    ensures { Worked (each (remainder_beside rest l.now) (numbers_from 1 count) []) result }
{
    let mut out = Items::new(alloc);
    if count == 0 {
        return Ok(out);
    }
    let mut r = 1u128;
    while r < count {
        let copies = copies_with_room(alloc, rest.as_slice())?;
        out.append(with_remainder(alloc, copies, l, r)?)?;
        r += 1;
    }
    out.append(with_remainder(alloc, rest, l, count)?)?;
    Ok(out)
}

/// The rule of the negated divisibility at i on a clause that is handed over: clauses one of which is true exactly where
/// the clause is, at the same integers.
#[tactic(auto, using(base_budget::proofs::Charging::charging))]
pub fn apart_rule(
    alloc: Global,
    c: Clause,
    x: u32,
    i: usize,
    purse: &mut Purse,
) -> Result<Items<Clause>, StepFault>
    requires { applies x c (Apart i) ≡ true }
    ensures work { Charged (rule x c (Apart i)) purse.old result purse.new }
    ensures exact { IfOk result (λ ds. (e : List ℤ) → IsMet (c ∷ []) x e ↔ IsMet ds x e) }
    ensures nearer { list_any (is_equation x) c ≡ false → IfOk result (λ ds. All (λ d. measure x d < measure x c) ds) }
{
    c.know_clause();
    let count = remainder_count(c.get(i));
    purse.step(charge(alloc, &c, count)?)?;
    let mut rest = c.into_literals();
    let l = rest.remove(i);
    with_remainders(alloc, rest, &l, count)
}
