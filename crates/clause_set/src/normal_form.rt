// The normal form of a literal.

ghost use Rattle.clause_set.specs.Literals.{literal_truth, norm_truth, HasDivisor, HasDivisorNorm, IsDivisor};
ghost use Rattle.clause_set.specs.Content.{HasContent};
ghost use Rattle.clause_set.specs.Normal.{decided, denied, divided, gcd_with, is_residue, normal_divisibility, normal_equation, normal_inequality, normal_of, quotient, reduced_divisibility, reduced_equation, residue, residues, turned};
ghost use Rattle.base_integers.specs.Divides.{divides, Divides};
ghost use Rattle.linear_term.specs.Linear.{IsNormal};
ghost use Rattle.linear_term.specs.Range.{InRange};
ghost use Rattle.std.specs.Int.{int_rem_euclid};
ghost use Rattle.std.specs.List.{list_all};
ghost use Rattle.std.specs.Prelude.{◌≡◌, ◌<◌, ◌%◌, ◌<ℤ◌, ℤ, pos, unsigned_abs, [], ◌∷◌, ◌++◌, All, IfOk, OnOk, List, true};

use super::bounds::{leads_negative, negated, turned};
use super::literal::{Literal, Norm};
use linear_term::{Memory, Term, floor_div, gcd};
use std::alloc::Global;

/// The greatest common divisor of g and the coefficients.
fn gcd_with(g: i128, pairs: &[(u32, i128)]) -> i128
    requires start { InRange g }
    requires coefficients { All (λ p. InRange p.1) pairs.now }
    ensures exact { result ≡ gcd_with g pairs.now }
    ensures range { InRange result }
{
    let mut found = g;
    for pair in pairs {
        if found == 1 {
            return 1;
        }
        found = gcd(found, pair.1);
    }
    found
}

/// Whether a positive h divides k: numbers of 64 bits are divided as such.
fn divides(h: i128, k: i128) -> bool
    requires { pos 0 <ℤ h }
    ensures { result ≡ divides (unsigned_abs h) k }
{
    rest(k.unsigned_abs(), h.unsigned_abs()) == 0
}

/// m modulo a positive n: numbers of 64 bits are divided as such.
fn rest(m: u128, n: u128) -> u128
    requires { 0 < n }
    ensures { result ≡ m % n }
{
    if m < 18446744073709551616 && n < 18446744073709551616 {
        return (m as u64 % n as u64) as u128;
    }
    m % n
}

/// k modulo a positive d, from 0 to d − 1: numbers of 64 bits are divided as such.
fn remainder(k: i128, d: i128) -> i128
    requires { pos 0 <ℤ d }
    ensures { result ≡ int_rem_euclid k d }
{
    if -9223372036854775808 < k && k < 9223372036854775808 && d < 9223372036854775808 {
        return (k as i64).rem_euclid(d as i64) as i128;
    }
    k.rem_euclid(d)
}

/// Each coefficient divided by a positive g.
fn divided(alloc: Global, g: i128, pairs: &[(u32, i128)]) -> Result<Vec<(u32, i128)>, Memory>
    requires positive { pos 0 <ℤ g }
    requires coefficients { All (λ p. InRange p.1) pairs.now }
    ensures { IfOk result (λ v. v.items ≡ divided g pairs.now) }
{
    let mut out = Vec::with_capacity(alloc, pairs.len())?;
    for pair in pairs {
        out.push((pair.0, floor_div(pair.1, g)))?;
    }
    Ok(out)
}

/// The term divided by a positive g that divides its coefficients, its constant rounded down.
#[tactic(auto, using(crate::proofs::Owned::ones))]
fn quotient(alloc: Global, g: i128, t: Term) -> Result<Term, Memory>
    requires positive { pos 0 <ℤ g }
    requires divides { All (λ p. Divides g p.1) t.pairs }
    ensures { IfOk result (λ q. q ≡ quotient g t) }
{
    if g == 1 {
        return Ok(t);
    }
    t.know_normal();
    let pairs = divided(alloc, g, t.pairs())?;
    let constant = floor_div(t.constant(), g);
    Term::of(alloc, pairs.as_slice(), constant)
}

/// Whether the coefficient is from 1 to d − 1.
fn is_residue(d: i128, pair: &(u32, i128)) -> bool
    ensures { result ≡ is_residue d pair.now }
{
    0 < pair.1 && pair.1 < d
}

/// Whether the coefficients are from 1 to d − 1.
#[tactic(auto, using(crate::proofs::Walks::walks))]
fn are_residues(d: i128, pairs: &[(u32, i128)]) -> bool
    ensures { result ≡ list_all (is_residue d) pairs.now }
{
    for pair in pairs {
        if !is_residue(d, pair) {
            return false;
        }
    }
    true
}

/// The coefficients modulo a divisor d, without those that are 0.
#[tactic(auto, using(crate::proofs::Quotients::residue_steps))]
fn residues(alloc: Global, d: i128, pairs: &[(u32, i128)]) -> Result<Vec<(u32, i128)>, Memory>
    requires { pos 0 <ℤ d }
    ensures { IfOk result (λ v. v.items ≡ residues d pairs.now) }
{
    let mut out = Vec::with_capacity(alloc, pairs.len())?;
    for pair in pairs {
        push_residue(d, pair, &mut out)?;
    }
    Ok(out)
}

fn push_residue(d: i128, pair: &(u32, i128), out: &mut Vec<(u32, i128)>) -> Result<(), Memory>
    requires { pos 0 <ℤ d }
    ensures { OnOk result (out.new.items ≡ out.old.items ++ residues d (pair.now ∷ [])) }
{
    let rest = remainder(pair.1, d);
    if rest == 0 {
        return Ok(());
    }
    out.push((pair.0, rest))?;
    Ok(())
}

/// The term modulo a divisor d, whose coefficients stay as they are.
#[tactic(auto, using(crate::proofs::Owned::own_residues))]
fn with_residue(d: i128, t: Term) -> Term
    requires divisor { IsDivisor d }
    requires own { list_all (is_residue d) t.pairs ≡ true }
    ensures { result ≡ residue d t }
{
    let mut rest = t;
    let constant = remainder(rest.constant(), d);
    rest.set_constant(constant);
    rest
}

/// The term modulo a divisor d.
fn residue(alloc: Global, d: i128, t: Term) -> Result<Term, Memory>
    requires { IsDivisor d }
    ensures { IfOk result (λ r. r ≡ residue d t) }
{
    if are_residues(d, t.pairs()) {
        return Ok(with_residue(d, t));
    }
    t.know_normal();
    let pairs = residues(alloc, d, t.pairs())?;
    let constant = remainder(t.constant(), d);
    Term::of(alloc, pairs.as_slice(), constant)
}

/// The greatest common divisor of g and the coefficients of the term, which is not 0 where g is not 0 or there are any.
#[tactic(auto, using(crate::proofs::Quotients::contents))]
fn content(g: i128, t: &Term) -> i128
    requires start { InRange g }
    requires some { HasContent g t.now.pairs }
    ensures exact { result ≡ gcd_with g t.now.pairs }
    ensures positive { pos 0 <ℤ result }
    ensures divides { All (λ p. Divides result p.1) t.now.pairs }
    ensures range { InRange result }
{
    t.know_normal();
    gcd_with(g, t.pairs())
}

/// t = 0 divided by the greatest common divisor g of its coefficients.
fn reduced_equation(alloc: Global, g: i128, t: Term) -> Result<Norm, Memory>
    requires positive { pos 0 <ℤ g }
    requires divides { All (λ p. Divides g p.1) t.pairs }
    ensures { IfOk result (λ n. n ≡ reduced_equation g t) }
{
    if !divides(g, t.constant()) {
        return Ok(Norm::False);
    }
    Ok(Norm::Lit(Literal::Eq(turned_term(alloc, quotient(alloc, g, t)?)?)))
}

/// The term or its opposite: the one whose first coefficient is positive.
#[tactic(auto, using(crate::proofs::Terms::turning))]
fn turned_term(alloc: Global, t: Term) -> Result<Term, Memory>
    ensures { IfOk result (λ q. q ≡ turned t) }
{
    if !leads_negative(t.pairs()) {
        return Ok(t);
    }
    t.know_normal();
    let opposite = negated(alloc, t.pairs())?;
    turned(alloc, t.pairs(), opposite.as_slice(), t.constant())
}

/// t = 0 in normal form.
#[tactic(auto, using(crate::proofs::Quotients::contents))]
fn equation(alloc: Global, t: Term) -> Result<Norm, Memory>
    ensures { IfOk result (λ n. n ≡ normal_equation t t.pairs) }
{
    if t.pairs().is_empty() {
        return Ok(decided(t.constant() == 0));
    }
    let g = content(0, &t);
    reduced_equation(alloc, g, t)
}

fn decided(holds: bool) -> Norm
    ensures { result ≡ decided holds }
{
    if holds { Norm::True } else { Norm::False }
}

/// t ≥ 0 in normal form.
#[tactic(auto, using(crate::proofs::Quotients::contents))]
fn inequality(alloc: Global, t: Term) -> Result<Norm, Memory>
    ensures { IfOk result (λ n. n ≡ normal_inequality t t.pairs) }
{
    if t.pairs().is_empty() {
        return Ok(decided(t.constant() >= 0));
    }
    let g = content(0, &t);
    Ok(Norm::Lit(Literal::Geq(quotient(alloc, g, t)?)))
}

/// d divides r, divided by the greatest common divisor h of d and the coefficients: by 1 all stays as it is.
#[tactic(auto, using(crate::proofs::Owned::whole))]
fn reduced_divisibility(alloc: Global, h: i128, d: i128, r: Term) -> Result<Norm, Memory>
    requires divisor { IsDivisor d }
    requires positive { pos 0 <ℤ h }
    requires divides { All (λ p. Divides h p.1) r.pairs }
    ensures { IfOk result (λ n. n ≡ reduced_divisibility h d r) }
{
    if h == 1 && d != 1 {
        return Ok(Norm::Lit(Literal::Div(d, r)));
    }
    if !divides(h, r.constant()) {
        return Ok(Norm::False);
    }
    let rest = floor_div(d, h);
    if rest == 1 {
        return Ok(Norm::True);
    }
    Ok(Norm::Lit(Literal::Div(rest, quotient(alloc, h, r)?)))
}

/// d divides t in normal form.
#[tactic(auto, using(crate::proofs::Quotients::contents))]
fn divisibility(alloc: Global, d: i128, t: Term) -> Result<Norm, Memory>
    requires { IsDivisor d }
    ensures { IfOk result (λ n. n ≡ normal_divisibility d t) }
{
    let r = residue(alloc, d, t)?;
    let h = content(d, &r);
    reduced_divisibility(alloc, h, d, r)
}

/// The negation of a normal divisibility.
fn denied(norm: Norm) -> Norm
    ensures { result ≡ denied norm }
{
    match norm {
        Norm::True => Norm::False,
        Norm::False => Norm::True,
        Norm::Lit(Literal::Div(d, t)) => Norm::Lit(Literal::NDiv(d, t)),
        Norm::Lit(Literal::NDiv(d, t)) => Norm::Lit(Literal::Div(d, t)),
        Norm::Lit(Literal::Eq(t)) => Norm::Lit(Literal::Eq(t)),
        Norm::Lit(Literal::Geq(t)) => Norm::Lit(Literal::Geq(t)),
    }
}

/// The normal form of a literal.
#[tactic(auto, unfolding(crate::specs::Normal::normal_of))]
pub(crate) fn normalized(alloc: Global, l: Literal) -> Result<Norm, Memory>
    requires { HasDivisor l }
    ensures { IfOk result (λ n. n ≡ normal_of l) }
{
    match l {
        Literal::Eq(t) => equation(alloc, t),
        Literal::Geq(t) => inequality(alloc, t),
        Literal::Div(d, t) => divisibility(alloc, d, t),
        Literal::NDiv(d, t) => Ok(denied(divisibility(alloc, d, t)?)),
    }
}
