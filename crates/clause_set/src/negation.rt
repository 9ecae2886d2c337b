// The negations of literals, clauses and disjunctions.

ghost use Rattle.clause_set.specs.Clauses.{clauses_of};
ghost use Rattle.clause_set.specs.Dnfs.{conjunction, denied_clauses, denied_literal, joined, negated_clause, negated_literal, negation, tidying};
ghost use Rattle.clause_set.specs.Literals.{dnf_truth, HasDivisor};
ghost use Rattle.linear_term.specs.Linear.{number};
ghost use Rattle.base_budget.specs.Trace.{combining};
ghost use Rattle.base_budget.specs.Work.{Charged, Worked};
ghost use Rattle.std.specs.Prelude.{◌≡◌, [], ◌∷◌, pos, negsuc, IfOk, List, not, ℤ};

use super::clause::Clause;
use super::clauses::{found, is_top, joined, know_clauses, know_forms};
use super::dnf::{Dnf, charged_tidied};
use super::literal::Literal;
use super::weight::{conjunction_charge, negation_charge};
use base_budget::{Purse, StepFault};
use linear_term::{Memory, Term};
use sqlite_items::Items;
use std::alloc::Global;

/// −t − 1.
#[tactic(auto, using(base_budget::proofs::Charging::combinations))]
fn below(alloc: Global, t: &Term) -> Result<Term, StepFault>
    ensures { Worked (combining (negsuc 0) t.now (pos 1) (number (negsuc 0))) result }
{
    match Term::combine(-1, t, 1, &Term::number(alloc, -1)) {
        Ok(term) => Ok(term),
        Err(fault) => Err(StepFault::from(fault)),
    }
}

/// t − 1.
#[tactic(auto, using(base_budget::proofs::Charging::combinations))]
fn above(alloc: Global, t: &Term) -> Result<Term, StepFault>
    ensures { Worked (combining (pos 1) t.now (pos 1) (number (negsuc 0))) result }
{
    match Term::combine(1, t, 1, &Term::number(alloc, -1)) {
        Ok(term) => Ok(term),
        Err(fault) => Err(StepFault::from(fault)),
    }
}

/// The clauses of one literal: its normal form alone, none where it is false by itself.
pub fn literal_clauses(alloc: Global, l: Literal) -> Result<Items<Clause>, Memory>
    requires { HasDivisor l }
    ensures { IfOk result (λ cs. cs ≡ clauses_of ((l ∷ []) ∷ [])) }
{
    let mut literals = Items::new(alloc);
    literals.push(l)?;
    found(alloc, Clause::of(alloc, literals)?)
}

/// The clauses of two literals, each by itself.
#[tactic(auto, using(crate::proofs::Charges::clauses_of_two))]
fn two_clauses(alloc: Global, l: Literal, m: Literal) -> Result<Items<Clause>, Memory>
    requires first { HasDivisor l }
    requires second { HasDivisor m }
    ensures { IfOk result (λ cs. cs ≡ clauses_of ((l ∷ []) ∷ (m ∷ []) ∷ [])) }
{
    let mut both = literal_clauses(alloc, l)?;
    both.append(literal_clauses(alloc, m)?)?;
    Ok(both)
}

/// t ≥ 0 is false where −t − 1 ≥ 0.
#[tactic(auto, using(crate::proofs::Charges::works))]
fn negated_bound(alloc: Global, t: &Term) -> Result<Items<Clause>, StepFault>
    ensures { Worked (negated_literal (Literal.Geq t.now)) result }
{
    let less = below(alloc, t)?;
    Ok(literal_clauses(alloc, Literal::Geq(less))?)
}

/// t = 0 is false where −t − 1 ≥ 0 or t − 1 ≥ 0.
#[tactic(auto, using(crate::proofs::Charges::works))]
fn negated_equation(alloc: Global, t: &Term) -> Result<Items<Clause>, StepFault>
    ensures { Worked (negated_literal (Literal.Eq t.now)) result }
{
    let less = below(alloc, t)?;
    let more = above(alloc, t)?;
    Ok(two_clauses(alloc, Literal::Geq(less), Literal::Geq(more))?)
}

/// The opposite of a divisibility.
fn denied_copy(l: &Literal) -> Result<Literal, Memory>
    requires { HasDivisor l.now }
    ensures exact { IfOk result (λ m. m ≡ denied_literal l.now) }
    ensures divisor { IfOk result HasDivisor }
{
    match l {
        Literal::Div(d, t) => Ok(Literal::NDiv(*d, t.copy()?)),
        Literal::NDiv(d, t) => Ok(Literal::Div(*d, t.copy()?)),
        Literal::Eq(_) => l.copy(),
        Literal::Geq(_) => l.copy(),
    }
}

#[tactic(auto, using(crate::proofs::Charges::works))]
fn negated_divisibility(alloc: Global, l: &Literal) -> Result<Items<Clause>, StepFault>
    requires { HasDivisor l.now }
    ensures { Worked (denied_clauses l.now) result }
{
    let opposite = denied_copy(l)?;
    Ok(literal_clauses(alloc, opposite)?)
}

/// The negation of a literal, as clauses, one of which is true where it is not; with its raw numbers.
pub fn negated_literal(alloc: Global, l: &Literal) -> Result<Items<Clause>, StepFault>
    requires { HasDivisor l.now }
    ensures { Worked (negated_literal l.now) result }
{
    match l {
        Literal::Eq(t) => negated_equation(alloc, t),
        Literal::Geq(t) => negated_bound(alloc, t),
        Literal::Div(_, _) => negated_divisibility(alloc, l),
        Literal::NDiv(_, _) => negated_divisibility(alloc, l),
    }
}

/// The conjunction of a and other clauses, which are handed over.
#[tactic(auto, using(crate::proofs::Charges::charges))]
fn conjoin_with(
    alloc: Global,
    a: &Dnf,
    b: Items<Clause>,
    purse: &mut Purse,
) -> Result<Dnf, StepFault>
    ensures { Charged (conjunction a.now b) purse.old result purse.new }
{
    purse.step(conjunction_charge(a.clauses(), b.as_slice()))?;
    charged_joined_with(alloc, a, b, purse)
}

#[tactic(auto, using(crate::proofs::Across::trivial, crate::proofs::Charges::charges))]
fn charged_joined_with(
    alloc: Global,
    a: &Dnf,
    b: Items<Clause>,
    purse: &mut Purse,
) -> Result<Dnf, StepFault>
    ensures { Charged (tidying (joined a.now b)) purse.old result purse.new }
{
    if is_top(a.clauses()) {
        know_forms(b.as_slice());
        return charged_tidied(alloc, b, purse);
    }
    let all = joined(alloc, a.clauses(), b.as_slice())?;
    charged_tidied(alloc, all, purse)
}

/// The negation of a clause: the negations of its literals.
#[tactic(auto, using(crate::proofs::Charges::loops))]
fn negated_clause(alloc: Global, c: &Clause, purse: &mut Purse) -> Result<Items<Clause>, StepFault>
    ensures { Charged (negated_clause c.now) purse.old result purse.new }
{
    purse.step(negation_charge(c))?;
    c.know_clause();
    let mut out = Items::new(alloc);
    for l in c.literals() {
        out.append(negated_literal(alloc, l)?)?;
    }
    Ok(out)
}

/// The negation of a: starting with true, the negation of each of its clauses in turn, joined by a conjunction.
#[tactic(auto, using(crate::proofs::Truths::answers))]
pub fn not(alloc: Global, a: &Dnf, purse: &mut Purse) -> Result<Dnf, StepFault>
    ensures charged { Charged (negation a.now) purse.old result purse.new }
    ensures truth { IfOk result (λ d. (e : List ℤ) → dnf_truth d e ≡ not (dnf_truth a.now e)) }
{
    know_clauses(a.clauses());
    negated_clauses(alloc, a.clauses(), purse)
}

#[tactic(auto, using(crate::proofs::Charges::loops))]
fn negated_clauses(alloc: Global, cs: &[Clause], purse: &mut Purse) -> Result<Dnf, StepFault>
    ensures { Charged (negation cs.now) purse.old result purse.new }
{
    let mut out = Dnf::top(alloc)?;
    for c in cs {
        let negated = negated_clause(alloc, c, purse)?;
        out = conjoin_with(alloc, &out, negated, purse)?;
    }
    Ok(out)
}
