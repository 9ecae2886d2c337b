// The range of coefficients, and what a call of this crate refuses with.

ghost use Rattle.linear_term.specs.Range.{InRange, is_in_range, stays};
ghost use Rattle.std.specs.Prelude.{◌≡◌, IsTrue, ◌↔◌, IfSome, IfNone, IfOk, IfErr, OnOk, OnSome, ◌+ℤ◌, ◌*ℤ◌, true, false, ◌<◌, ◌^◌, unsigned_abs};

use std::alloc::{AllocError, AllocFailed};

/// Running out of memory.
#[derive(Clone, Copy, Debug, PartialEq, Eq)]
pub struct Memory;

/// A number `m·a + n·b` that leaves the range of coefficients. Its four fields are in the range; `m·a`, `n·b` or their
/// sum is not.
#[derive(Clone, Copy, Debug, PartialEq, Eq)]
pub struct Place {
    pub m: i128,
    pub a: i128,
    pub n: i128,
    pub b: i128,
}

/// Why a call on terms is refused.
#[derive(Clone, Copy, Debug, PartialEq, Eq)]
pub enum TermFault {
    /// A number leaves the range of coefficients: this one.
    Overflow(Place),
    Memory,
}

impl From<AllocError> for Memory {
    ghost from_gives = { λ _ e. e ≡ record {} };

    fn from(_error: AllocError) -> Memory {
        Memory
    }
}

impl<T: Drop> From<AllocFailed<T>> for Memory {
    ghost from_gives = { λ _ e. e ≡ record {} };

    fn from(_error: AllocFailed<T>) -> Memory {
        Memory
    }
}

impl From<Memory> for TermFault {
    ghost use Rattle.linear_term.specs.declared.range.TermFault.{TermFault};

    ghost from_gives = { λ _ e. e ≡ TermFault.Memory };

    fn from(_error: Memory) -> TermFault {
        TermFault::Memory
    }
}

impl From<AllocError> for TermFault {
    ghost use Rattle.linear_term.specs.declared.range.TermFault.{TermFault};

    ghost from_gives = { λ _ e. e ≡ TermFault.Memory };

    fn from(_error: AllocError) -> TermFault {
        TermFault::Memory
    }
}

impl<T: Drop> From<AllocFailed<T>> for TermFault {
    ghost use Rattle.linear_term.specs.declared.range.TermFault.{TermFault};

    ghost from_gives = { λ _ e. e ≡ TermFault.Memory };

    fn from(_error: AllocFailed<T>) -> TermFault {
        TermFault::Memory
    }
}

impl Place {
    /// The number m·a + n·b, or Overflow with this place where it leaves the range. Numbers of 64 bits go a short way.
    #[inline]
    #[tactic(auto, using(crate::proofs::Small::small), unfolding(crate::specs::Range::stays))]
    pub fn value(&self) -> Result<i128, TermFault>
        ensures exact { IfOk result (λ k. k ≡ (self.now.m *ℤ self.now.a) +ℤ (self.now.n *ℤ self.now.b)) }
        ensures range { IfOk result InRange }
        ensures stays { OnOk result (stays self.now ≡ true) }
        ensures overflow { IfErr result (λ fault. (fault ≡ TermFault.Overflow self.now) × (stays self.now ≡ false)) }
    {
        match self.small_value() {
            Some(value) => Ok(value),
            None => self.wide_value(),
        }
    }

    /// The number where all four are of 64 bits.
    #[inline]
    #[tactic(auto, using(crate::proofs::Small::small), unfolding(crate::specs::Range::stays))]
    pub(crate) fn small_value(&self) -> Option<i128>
        ensures exact { IfSome result (λ k. k ≡ (self.now.m *ℤ self.now.a) +ℤ (self.now.n *ℤ self.now.b)) }
        ensures range { IfSome result InRange }
        ensures stays { OnSome result (stays self.now ≡ true) }
    {
        if is_small(self.m) && is_small(self.n) && is_small(self.a) && is_small(self.b) {
            return Some(small_product(self.m, self.a) + small_product(self.n, self.b));
        }
        None
    }

    /// The number of a place with numbers of any size.
    #[cold]
    #[inline(never)]
    #[tactic(auto, unfolding(crate::specs::Range::stays))]
    pub(crate) fn wide_value(self) -> Result<i128, TermFault>
        ensures exact { IfOk result (λ k. k ≡ (self.m *ℤ self.a) +ℤ (self.n *ℤ self.b)) }
        ensures range { IfOk result InRange }
        ensures stays { OnOk result (stays self ≡ true) }
        ensures overflow { IfErr result (λ fault. (fault ≡ TermFault.Overflow self) × (stays self ≡ false)) }
    {
        let Some(left) = product(self.m, self.a) else {
            return Err(TermFault::Overflow(self));
        };
        let Some(right) = product(self.n, self.b) else {
            return Err(TermFault::Overflow(self));
        };
        let Some(value) = sum(left, right) else {
            return Err(TermFault::Overflow(self));
        };
        Ok(value)
    }
}

/// a·b for sizes below 2^63.
#[inline]
#[tactic(auto, using(crate::proofs::Small::small))]
fn small_product(a: i128, b: i128) -> i128
    requires left { unsigned_abs a < 2 ^ 63 }
    requires right { unsigned_abs b < 2 ^ 63 }
    ensures exact { result ≡ a *ℤ b }
    ensures small { unsigned_abs result < 2 ^ 126 }
{
    i128::from(narrow(a)) * i128::from(narrow(b))
}

/// The same number in 64 bits: a product of two such ones is one instruction.
#[inline]
fn narrow(n: i128) -> i64
    requires { unsigned_abs n < 2 ^ 63 }
    ensures { result ≡ n }
{
    n as i64
}

/// Whether |n| is below 2^63: two products of such numbers, and their sum, are in the range.
#[inline]
fn is_small(n: i128) -> bool
    ensures { IsTrue result → unsigned_abs n < 2 ^ 63 }
{
    -9223372036854775808 < n && n < 9223372036854775808
}

fn product(a: i128, b: i128) -> Option<i128>
    ensures exact { IfSome result (λ c. c ≡ a *ℤ b) }
    ensures range { IfSome result (λ c. is_in_range c ≡ true) }
    ensures none { IfNone result (is_in_range (a *ℤ b) ≡ false) }
{
    match a.checked_mul(b) {
        Some(c) if in_range(c) => Some(c),
        _ => None,
    }
}

fn sum(a: i128, b: i128) -> Option<i128>
    ensures exact { IfSome result (λ c. c ≡ a +ℤ b) }
    ensures range { IfSome result (λ c. is_in_range c ≡ true) }
    ensures none { IfNone result (is_in_range (a +ℤ b) ≡ false) }
{
    match a.checked_add(b) {
        Some(c) if in_range(c) => Some(c),
        _ => None,
    }
}

/// Whether n is in the range of coefficients, −(2^127 − 1) to 2^127 − 1.
pub fn in_range(n: i128) -> bool
    ensures { IsTrue result ↔ InRange n }
{
    n != i128::MIN
}
