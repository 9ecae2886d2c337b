// The integers of a residue class between two bounds that are nearest to 0, and the nearest of several.

ghost use Rattle.linear_term.specs.Range.{InRange};
ghost use Rattle.parameter_solver.specs.Classes.{IsClass};
ghost use Rattle.base_budget.specs.Work.{Worked};
ghost use Rattle.solve_laws.specs.Best.{rank};
ghost use Rattle.solve_laws.specs.Candidates.{computed, down_from, two_between, up_from};
ghost use Rattle.solve_laws.specs.Nearest.{below_zero, is_at_least, is_at_most, nearest, not_below_zero, when};
ghost use Rattle.std.specs.Int.{int_rem_euclid};
ghost use Rattle.std.specs.Prelude.{◌≡◌, ◌≤ℤ◌, ◌<ℤ◌, ◌-ℤ◌, ◌++◌, nat_lt, neg_ℤ, pos, IfSome, OnOk};

use base_budget::StepFault;
use linear_term::{Memory, Place};
use sqlite_items::Items;
use std::alloc::Global;

/// Whether u comes before v in 0, 1, −1, 2, −2, ..
#[tactic(auto, using(crate::proofs::Nearness::ranks))]
fn comes_before(u: i128, v: i128) -> bool
    ensures { result ≡ nat_lt (rank u) (rank v) }
{
    let a = u.unsigned_abs();
    let b = v.unsigned_abs();
    a < b || (a == b && u > v)
}

/// The number that comes first; 0 where there is none.
#[tactic(auto, using(crate::proofs::Nearness::nearest_steps))]
pub(crate) fn nearest(vs: &[i128]) -> i128
    ensures { result ≡ nearest vs.now }
{
    if vs.is_empty() {
        return 0;
    }
    let mut best = vs[0];
    for i in 1..vs.len() {
        if comes_before(vs[i], best) {
            best = vs[i];
        }
    }
    best
}

/// The greater of a bound and 0.
fn not_below_zero(lo: Option<i128>) -> i128
    requires { IfSome lo (λ k. InRange k) }
    ensures exact { result ≡ not_below_zero lo }
    ensures range { InRange result }
    ensures not_negative { pos 0 ≤ℤ result }
{
    match lo {
        None => 0,
        Some(k) => k.max(0),
    }
}

/// The lesser of a bound and −1.
fn below_zero(hi: Option<i128>) -> i128
    requires { IfSome hi (λ k. InRange k) }
    ensures exact { result ≡ below_zero hi }
    ensures range { InRange result }
    ensures negative { result <ℤ pos 0 }
{
    match hi {
        None => -1,
        Some(k) => k.min(-1),
    }
}

/// Whether v is at most a bound; one that is missing forbids nothing.
pub fn is_at_most(v: i128, hi: Option<i128>) -> bool
    ensures { result ≡ is_at_most v hi }
{
    match hi {
        None => true,
        Some(k) => v <= k,
    }
}

fn is_at_least(v: i128, lo: Option<i128>) -> bool
    ensures { result ≡ is_at_least v lo }
{
    match lo {
        None => true,
        Some(k) => k <= v,
    }
}

/// How far the least number of the class from k on is from k.
#[tactic(auto, using(crate::proofs::Nearness::remainders))]
fn way_up(m: i128, r: i128, k: i128) -> i128
    requires class { IsClass m r }
    requires range { InRange k }
    requires not_negative { pos 0 ≤ℤ k }
    ensures exact { result ≡ int_rem_euclid (r -ℤ k) m }
    ensures range { InRange result }
{
    (r - k).rem_euclid(m)
}

/// How far the greatest number of the class up to k is from k. `k - r` itself may be too small for an i128.
#[tactic(auto, using(crate::proofs::Nearness::remainders))]
fn way_down(m: i128, r: i128, k: i128) -> i128
    requires class { IsClass m r }
    requires range { InRange k }
    ensures exact { result ≡ int_rem_euclid (k -ℤ r) m }
    ensures range { InRange result }
{
    (k.rem_euclid(m) - r).rem_euclid(m)
}

pub(crate) fn push_when(out: &mut Items<i128>, b: bool, v: i128) -> Result<(), Memory>
    ensures { OnOk result (out.new ≡ out.old ++ when b v) }
{
    if b { Ok(out.push(v)?) } else { Ok(()) }
}

/// A bound, or 0, and how far the next number of the class is.
fn up_from(m: i128, r: i128, lo: Option<i128>) -> Place
    requires class { IsClass m r }
    requires low { IfSome lo (λ k. InRange k) }
    ensures { result ≡ up_from m r lo }
{
    let a = not_below_zero(lo);
    let b = way_up(m, r, a);
    Place { m: 1, a, n: 1, b }
}

/// A bound, or −1, and how far the next number of the class below it is.
fn down_from(m: i128, r: i128, hi: Option<i128>) -> Place
    requires class { IsClass m r }
    requires high { IfSome hi (λ k. InRange k) }
    ensures { result ≡ down_from m r hi }
{
    let a = below_zero(hi);
    let b = way_down(m, r, a);
    Place { m: 1, a, n: -1, b }
}

/// The number m·a + n·b, which is in the range, or Overflow.
#[tactic(auto, using(crate::proofs::Computed::computing))]
fn computed(p: Place) -> Result<i128, StepFault>
    ensures { Worked (computed p) result }
{
    Ok(p.value()?)
}

/// −k.
pub(crate) fn opposite(k: i128) -> i128
    requires { InRange k }
    ensures exact { result ≡ neg_ℤ k }
    ensures range { InRange result }
{
    -k
}

/// The two numbers of the class r modulo m next to 0, those of them that are between the bounds.
#[tactic(auto, using(base_budget::proofs::Charging::working))]
pub(crate) fn two_between(
    alloc: Global,
    m: i128,
    r: i128,
    lo: Option<i128>,
    hi: Option<i128>,
) -> Result<Items<i128>, StepFault>
    requires class { IsClass m r }
    requires low { IfSome lo (λ k. InRange k) }
    requires high { IfSome hi (λ k. InRange k) }
    ensures { Worked (two_between m r lo hi) result }
{
    let up = computed(up_from(m, r, lo))?;
    let down = computed(down_from(m, r, hi))?;
    let mut out = Items::new(alloc);
    push_when(&mut out, is_at_most(up, hi), up)?;
    push_when(&mut out, is_at_least(down, lo), down)?;
    Ok(out)
}
