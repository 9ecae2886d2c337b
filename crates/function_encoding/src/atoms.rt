// Finished terms put together, and the atoms of relations between them.

ghost use Rattle.std.specs.Prelude.{◌≡◌, pos, negsuc};
ghost use Rattle.formula.specs.Made.{Made};
ghost use Rattle.formula.specs.Tree.{form};
ghost use Rattle.form_encoding.specs.Encoding as encoding;
ghost use Rattle.base_budget.specs.Trace.{combining};
ghost use Rattle.linear_term.specs.Linear as linear;
ghost use Rattle.function_encoding.specs.Members.{added};
ghost use Rattle.form_typed.specs.declared.typed.Relation.TheVariants.{Eq, Neq, Gt, Geq};

use formula::{Core, Relation};
use linear_term::{Term, TermFault};
use std::alloc::Global;

/// s - t.
#[tactic(auto, using(formula::proofs::Negating::combined))]
pub fn difference(s: &Term, t: &Term) -> Result<Term, TermFault>
    ensures { Made (λ u. u) (encoding.difference s.now t.now) result }
{
    Term::combine(1, s, -1, t)
}

/// s + t.
#[tactic(auto, using(formula::proofs::Negating::combined))]
fn total(s: &Term, t: &Term) -> Result<Term, TermFault>
    ensures { Made (λ u. u) (combining (pos 1) s.now (pos 1) t.now) result }
{
    Term::combine(1, s, 1, t)
}

/// The sum so far with a member, which is subtracted or added.
pub fn with_member(so_far: &Term, subtracted: bool, member: &Term) -> Result<Term, TermFault>
    ensures { Made (λ u. u) (added subtracted so_far.now member.now) result }
{
    if subtracted {
        return difference(so_far, member);
    }
    total(so_far, member)
}

/// t - 1.
#[tactic(auto, using(formula::proofs::Negating::combined))]
fn one_less(alloc: Global, t: &Term) -> Result<Term, TermFault>
    ensures { Made (λ u. u) (combining (pos 1) t.now (pos 1) (linear.number (negsuc 0))) result }
{
    Term::combine(1, t, 1, &Term::number(alloc, -1))
}

/// s - t - 1.
fn less_one(alloc: Global, s: &Term, t: &Term) -> Result<Term, TermFault>
    ensures { Made (λ u. u) (encoding.less_one s.now t.now) result }
{
    let all = difference(s, t)?;
    one_less(alloc, &all)
}

/// -t.
#[tactic(auto, using(formula::proofs::Negating::combined))]
pub fn negative(alloc: Global, t: &Term) -> Result<Term, TermFault>
    ensures { Made (λ u. u) (encoding.multiple (negsuc 0) t.now) result }
{
    Term::combine(-1, t, 0, &Term::number(alloc, 0))
}

/// The constant of s times t.
fn times(alloc: Global, s: &Term, t: &Term) -> Result<Term, TermFault>
    ensures { Made (λ u. u) (encoding.multiple (s.now).constant t.now) result }
{
    Term::combine(s.constant(), t, 0, &Term::number(alloc, 0))
}

/// s times t, of which s is a number, or else t.
pub fn product(alloc: Global, left: bool, s: &Term, t: &Term) -> Result<Term, TermFault>
    ensures { Made (λ u. u) (encoding.product_of left s.now t.now) result }
{
    if left {
        return times(alloc, s, t);
    }
    times(alloc, t, s)
}

/// s = t.
fn equal(s: &Term, t: &Term) -> Result<Core, TermFault>
    ensures { Made form (encoding.related Eq s.now t.now) result }
{
    Ok(Core::Eq(difference(s, t)?))
}

/// s != t.
fn unequal(s: &Term, t: &Term) -> Result<Core, TermFault>
    ensures { Made form (encoding.related Neq s.now t.now) result }
{
    Ok(Core::Neq(difference(s, t)?))
}

/// s >= t.
fn at_least(s: &Term, t: &Term) -> Result<Core, TermFault>
    ensures { Made form (encoding.related Geq s.now t.now) result }
{
    Ok(Core::Geq(difference(s, t)?))
}

/// s > t.
fn greater(alloc: Global, s: &Term, t: &Term) -> Result<Core, TermFault>
    ensures { Made form (encoding.related Gt s.now t.now) result }
{
    Ok(Core::Geq(less_one(alloc, s, t)?))
}

/// The atom that says that the relation holds between s and t.
pub fn related(alloc: Global, relation: Relation, s: &Term, t: &Term) -> Result<Core, TermFault>
    ensures { Made form (encoding.related relation s.now t.now) result }
{
    match relation {
        Relation::Eq => equal(s, t),
        Relation::Neq => unequal(s, t),
        Relation::Geq => at_least(s, t),
        Relation::Gt => greater(alloc, s, t),
        Relation::Leq => at_least(t, s),
        Relation::Lt => greater(alloc, t, s),
    }
}

/// The relation with plus, its opposite with minus.
pub fn signed(plus: bool, relation: Relation) -> Relation
    ensures { result ≡ encoding.signed_relation plus relation }
{
    if plus {
        return relation;
    }
    match relation {
        Relation::Eq => Relation::Neq,
        Relation::Neq => Relation::Eq,
        Relation::Lt => Relation::Geq,
        Relation::Leq => Relation::Gt,
        Relation::Gt => Relation::Leq,
        Relation::Geq => Relation::Lt,
    }
}
