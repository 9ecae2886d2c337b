// Linear terms: a list of names with their coefficients, names rising and no coefficient 0, and a constant.

ghost use Rattle.linear_term.specs.Range.{InRange, all_stay, IsCause};
ghost use Rattle.linear_term.specs.Linear.{coef_of, without, number, name, with_monomial, IsCoefficient, IsNormal, IsOver};
ghost use Rattle.linear_term.specs.Combination.{combination, raw_numbers};
ghost use Rattle.linear_term.specs.Order.{linear_cmp};
ghost use Rattle.std.specs.Prelude.{◌≡◌, ◌<◌, IfOk, IfErr, OnErr, OnOk, length, slice_get, Some, true, option_copied, find, filter, not, nat_eq};

use crate::merge::{Factors, Pairs, room_for};
use crate::range::{Memory, Place, TermFault};
use smallvec::SmallVec;
use std::alloc::Global;
use std::cmp::Ordering;
use std::marker::Model;

/// A linear term: names with coefficients, and a constant. Contracts see it as a `Linear`: the names rise, no
/// coefficient is 0, and all numbers are in the range of coefficients.
pub struct Term {
    pairs: Pairs,
    constant: i128,
}

impl Model for Term {
    ghost use Rattle.linear_term.specs.Linear.{Linear, IsNormal};

    ghost Value = { Linear };

    ghost view = { λ t. record { pairs = t.pairs.items; constant = t.constant } };

    ghost invariant = { λ t. IsNormal (record { pairs = t.pairs.items; constant = t.constant }) };
}

impl Drop for Term {
    fn drop(self) {
        let Term {
            pairs: _,
            constant: _,
        } = self;
    }
}

impl Term {
    /// The number n, which is in the range.
    pub fn number(alloc: Global, n: i128) -> Term
        requires { InRange n }
        ensures { result ≡ number n }
    {
        Term {
            pairs: SmallVec::new(alloc),
            constant: n,
        }
    }

    /// The name x, with coefficient 1 and constant 0.
    pub fn name(alloc: Global, x: u32) -> Term
        ensures { result ≡ name x }
    {
        let mut pairs = SmallVec::new(alloc);
        pairs.push_reserved((x, 1));
        Term { pairs, constant: 0 }
    }

    /// The term of these pairs and this constant, which are a term's in its normal form: the names rise, no coefficient
    /// is 0, and all numbers are in the range.
    pub fn of(alloc: Global, pairs: &[(u32, i128)], constant: i128) -> Result<Term, Memory>
        requires { IsNormal (record { pairs = pairs.now; constant = constant }) }
        ensures { IfOk result (λ t. t ≡ record { pairs = pairs.now; constant = constant }) }
    {
        let pairs = SmallVec::from_slice(alloc, pairs)?;
        Ok(Term { pairs, constant })
    }

    /// The names with their coefficients, in the order of names.
    pub fn pairs(&self) -> &[(u32, i128)]
        ensures { result.now ≡ self.now.pairs }
    {
        self.pairs.as_slice()
    }

    /// A term is in its normal form: this call does nothing, and tells its caller so.
    pub fn know_normal(&self)
        ensures { IsNormal self.now }
    {
        let _ = &self.constant;
    }

    /// The coefficient of the name x, 0 where x does not occur.
    pub fn coef(&self, x: u32) -> i128
        ensures exact { result ≡ coef_of self.now x }
        ensures range { InRange result }
    {
        match pair_of(self.pairs.as_slice(), x) {
            Some(pair) => pair.1,
            None => 0,
        }
    }

    /// The constant.
    pub fn constant(&self) -> i128
        ensures exact { result ≡ self.now.constant }
        ensures range { InRange result }
    {
        self.constant
    }

    /// How many names occur.
    pub fn len(&self) -> usize
        ensures { result ≡ length self.now.pairs }
    {
        self.pairs.len()
    }

    /// The i-th name with its coefficient, in the order of names, for i below `len`.
    pub fn pair(&self, i: usize) -> (u32, i128)
        requires { i < length self.now.pairs }
        ensures { slice_get self.now.pairs i ≡ Some result }
    {
        self.pairs.as_slice()[i]
    }

    /// Appends the monomial k·x, in constant time but for a growth of memory. The name x is above all names of the term,
    /// and k is in the range and not 0. At running out of memory the term stays as it was.
    #[tactic(auto, using(crate::proofs::Pushed::pushing))]
    pub fn push(&mut self, x: u32, k: i128) -> Result<(), Memory>
        requires above { IsOver x self.old }
        requires coefficient { IsCoefficient k }
        ensures ok { OnOk result (self.new ≡ with_monomial self.old x k) }
        ensures err { OnErr result (self.new ≡ self.old) }
    {
        self.pairs.push((x, k))?;
        Ok(())
    }

    /// Makes k, which is in the range, the constant.
    #[tactic(auto, using(crate::proofs::Pushed::pushing))]
    pub fn set_constant(&mut self, k: i128)
        requires { InRange k }
        ensures { self.new ≡ record self.old { constant = k } }
    {
        self.constant = k;
    }

    /// This term without the monomial of x, if it has one.
    pub fn without(&self, x: u32) -> Result<Term, Memory>
        ensures { IfOk result (λ t. t ≡ without self.now x) }
    {
        let pairs = pairs_without(*self.pairs.allocator(), self.pairs.as_slice(), x)?;
        Ok(Term {
            pairs,
            constant: self.constant,
        })
    }

    /// A term equal to this one.
    pub fn copy(&self) -> Result<Term, Memory>
        ensures { IfOk result (λ t. t ≡ self.now) }
    {
        let pairs = SmallVec::from_slice(*self.pairs.allocator(), self.pairs.as_slice())?;
        Ok(Term {
            pairs,
            constant: self.constant,
        })
    }

    /// The term m·s + n·t, for m and n in the range. Overflow comes exactly where one of the numbers
    /// m·(coefficient in s) + n·(coefficient in t), of a name of s or t or of the constants, leaves the range, and
    /// carries such a one.
    pub fn combine(m: i128, s: &Term, n: i128, t: &Term) -> Result<Term, TermFault>
        requires m_in_range { InRange m }
        requires n_in_range { InRange n }
        ensures exact { IfOk result (λ r. r ≡ combination m s.now n t.now) }
        ensures stays { OnOk result (all_stay (raw_numbers m s.now n t.now) ≡ true) }
        ensures overflow { IfErr result (λ fault. IsCause fault (raw_numbers m s.now n t.now)) }
    {
        Factors { m, n }.combined(s, t)
    }

    /// How this term compares with another one: by the lists of pairs (by name, then coefficient; a proper prefix is
    /// less), then by the constant.
    pub fn compare(&self, other: &Term) -> Ordering
        ensures { result ≡ linear_cmp self.now other.now }
    {
        self.pairs
            .as_slice()
            .cmp(&other.pairs.as_slice())
            .then(self.constant.cmp(&other.constant))
    }
}

impl Factors {
    /// The term m·s + n·t, or the first number of it that leaves the range, the constants' before the names'.
    #[tactic(auto, using(crate::proofs::Combining::combining))]
    fn combined(&self, s: &Term, t: &Term) -> Result<Term, TermFault>
        ensures exact { IfOk result (λ r. r ≡ combination self.now.m s.now self.now.n t.now) }
        ensures stays { OnOk result (all_stay (raw_numbers self.now.m s.now self.now.n t.now) ≡ true) }
        ensures overflow { IfErr result (λ fault. IsCause fault (raw_numbers self.now.m s.now self.now.n t.now)) }
    {
        let constant = self.constants(s, t).value()?;
        let mut pairs = room_for(*s.pairs.allocator(), names_of_sum(s, t))?;
        self.merge(s.pairs.as_slice(), t.pairs.as_slice(), &mut pairs)?;
        Ok(Term { pairs, constant })
    }

    /// The number of the constants of s and t.
    fn constants(&self, s: &Term, t: &Term) -> Place
        ensures { result ≡ record { m = self.now.m; a = s.now.constant; n = self.now.n; b = t.now.constant } }
    {
        Place {
            m: self.m,
            a: s.constant,
            n: self.n,
            b: t.constant,
        }
    }
}

/// How many names a sum of both has, or about as many: most have names of one of them, and a new one.
fn names_of_sum(s: &Term, t: &Term) -> usize {
    s.len().max(t.len()).saturating_add(1)
}

fn pair_of(pairs: &[(u32, i128)], x: u32) -> Option<&(u32, i128)>
    ensures { option_copied result ≡ find (λ p. nat_eq p.0 x) pairs.now }
{
    pairs.iter().find(|pair| pair.0 == x)
}

fn pairs_without(alloc: Global, pairs: &[(u32, i128)], x: u32) -> Result<Pairs, Memory>
    ensures { IfOk result (λ kept. kept.items ≡ filter (λ p. not (nat_eq p.0 x)) pairs.now) }
{
    let mut kept = room_for(alloc, pairs.len())?;
    for pair in pairs {
        if pair.0 != x {
            kept.push(*pair)?;
        }
    }
    Ok(kept)
}
