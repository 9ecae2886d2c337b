// The literals of inequalities and equations, in canonical form: atoms that say the same have one variable.

ghost use Rattle.std.specs.Prelude.{◌≡◌, ◌<ℤ◌, pos, unsigned_abs, All, IfOk, IfErr};
ghost use Rattle.base_integers.specs.Divides.{divides, Divides};
ghost use Rattle.linear_term.specs.Range.{InRange};
ghost use Rattle.clause_proof.specs.Atoms as atoms;
ghost use Rattle.clause_checker.specs.Answers.{IsTermCut};
ghost use Rattle.clause_checker.specs.Views.{signed_of};

use crate::fault::Fault;
use crate::putting::combine;
use crate::state::{Definition, Signed};
use linear_term::{Memory, Term, floor_div, gcd};
use std::alloc::Global;

/// What does not depend on the constants.
pub(crate) fn known<'a>(truth: bool) -> Signed<'a>
    ensures { signed_of result ≡ atoms.known truth }
{
    Signed {
        definition: Definition::Always,
        positive: truth,
    }
}

/// The greatest common divisor of g and the coefficients.
fn gcd_with(g: i128, pairs: &[(u32, i128)]) -> i128
    requires start { InRange g }
    requires coefficients { All (λ p. InRange p.1) pairs.now }
    ensures exact { result ≡ atoms.gcd_with g pairs.now }
    ensures range { InRange result }
{
    let mut found = g;
    for pair in pairs {
        found = gcd(found, pair.1);
    }
    found
}

/// g where it is positive, else 1.
fn positive_one(g: i128) -> i128
    ensures { result ≡ atoms.positive_one g }
{
    if 0 < g { g } else { 1 }
}

/// The greatest common divisor of the coefficients; 1 where all are 0.
#[tactic(auto, using(crate::proofs::Quotients::contents))]
fn content(t: &Term) -> i128
    ensures exact { result ≡ atoms.content t.now.pairs }
    ensures positive { pos 0 <ℤ result }
    ensures divides { All (λ p. Divides result p.1) t.now.pairs }
{
    t.know_normal();
    let g = gcd_with(0, t.pairs());
    positive_one(g)
}

/// Each coefficient divided by a positive g.
fn divided(alloc: Global, g: i128, pairs: &[(u32, i128)]) -> Result<Vec<(u32, i128)>, Memory>
    requires positive { pos 0 <ℤ g }
    requires coefficients { All (λ p. InRange p.1) pairs.now }
    ensures { IfOk result (λ v. v.items ≡ atoms.divided g pairs.now) }
{
    let mut out = Vec::with_capacity(alloc, pairs.len())?;
    for pair in pairs {
        out.push((pair.0, floor_div(pair.1, g)))?;
    }
    Ok(out)
}

/// The term divided by a positive g that divides its coefficients, its constant rounded down.
#[tactic(auto, using(crate::proofs::Quotients::ones))]
fn quotient(alloc: Global, g: i128, t: Term) -> Result<Term, Memory>
    requires positive { pos 0 <ℤ g }
    requires divides { All (λ p. Divides g p.1) t.pairs }
    ensures { IfOk result (λ q. q ≡ atoms.quotient g t) }
{
    if g == 1 {
        return Ok(t);
    }
    t.know_normal();
    let pairs = divided(alloc, g, t.pairs())?;
    let constant = floor_div(t.constant(), g);
    Term::of(alloc, pairs.as_slice(), constant)
}

/// Whether the first coefficient is negative.
#[tactic(auto, using(crate::proofs::Quotients::leading))]
fn leads_negative(pairs: &[(u32, i128)]) -> bool
    ensures { result ≡ atoms.leads_negative pairs.now }
{
    !pairs.is_empty() && pairs[0].1 < 0
}

/// t - 1.
pub(crate) fn less_one(alloc: Global, t: &Term) -> Result<Term, Fault>
    ensures ok { IfOk result (λ u. u ≡ atoms.less_one t.now) }
    ensures err { IfErr result IsTermCut }
{
    combine(1, t, 1, &Term::number(alloc, -1))
}

/// -t - 1.
pub(crate) fn opposite_less_one(alloc: Global, t: &Term) -> Result<Term, Fault>
    ensures ok { IfOk result (λ u. u ≡ atoms.opposite_less_one t.now) }
    ensures err { IfErr result IsTermCut }
{
    combine(-1, t, 1, &Term::number(alloc, -1))
}

/// -t.
fn opposite_term(alloc: Global, t: &Term) -> Result<Term, Fault>
    ensures ok { IfOk result (λ u. u ≡ atoms.opposite_term t.now) }
    ensures err { IfErr result IsTermCut }
{
    combine(-1, t, 0, &Term::number(alloc, 0))
}

/// t >= 0, by the one of both terms whose first coefficient is positive.
fn turned_inequality<'a>(alloc: Global, t: Term) -> Result<Signed<'a>, Fault>
    ensures ok { IfOk result (λ x. signed_of x ≡ atoms.turned_inequality t) }
    ensures err { IfErr result IsTermCut }
{
    if leads_negative(t.pairs()) {
        let opposite = opposite_less_one(alloc, &t)?;
        return Ok(Signed {
            definition: Definition::AtLeastZero(opposite),
            positive: false,
        });
    }
    Ok(Signed {
        definition: Definition::AtLeastZero(t),
        positive: true,
    })
}

/// The literal of t >= 0.
#[tactic(auto, using(crate::proofs::Quotients::kinds, crate::proofs::Causes::causes))]
pub(crate) fn inequality_literal<'a>(alloc: Global, t: Term) -> Result<Signed<'a>, Fault>
    ensures ok { IfOk result (λ x. signed_of x ≡ atoms.inequality_literal t) }
    ensures err { IfErr result IsTermCut }
{
    if t.pairs().is_empty() {
        return Ok(known(0 <= t.constant()));
    }
    let g = content(&t);
    let q = quotient(alloc, g, t)?;
    let literal = turned_inequality(alloc, q)?;
    Ok(literal)
}

/// t = 0, by the one of both terms whose first coefficient is positive.
fn turned_equation<'a>(alloc: Global, t: Term) -> Result<Signed<'a>, Fault>
    ensures ok { IfOk result (λ x. signed_of x ≡ atoms.turned_equation t) }
    ensures err { IfErr result IsTermCut }
{
    if leads_negative(t.pairs()) {
        let opposite = opposite_term(alloc, &t)?;
        return Ok(Signed {
            definition: Definition::IsZero(opposite),
            positive: true,
        });
    }
    Ok(Signed {
        definition: Definition::IsZero(t),
        positive: true,
    })
}

/// Whether a positive h divides k.
fn divides(h: i128, k: i128) -> bool
    requires { pos 0 <ℤ h }
    ensures { result ≡ divides (unsigned_abs h) k }
{
    k.unsigned_abs() % h.unsigned_abs() == 0
}

/// The literal of t = 0.
#[tactic(auto, using(crate::proofs::Quotients::kinds, crate::proofs::Causes::causes))]
pub(crate) fn equation_literal<'a>(alloc: Global, t: Term) -> Result<Signed<'a>, Fault>
    ensures ok { IfOk result (λ x. signed_of x ≡ atoms.equation_literal t) }
    ensures err { IfErr result IsTermCut }
{
    if t.pairs().is_empty() {
        return Ok(known(t.constant() == 0));
    }
    let g = content(&t);
    if !divides(g, t.constant()) {
        return Ok(known(false));
    }
    let q = quotient(alloc, g, t)?;
    let literal = turned_equation(alloc, q)?;
    Ok(literal)
}
