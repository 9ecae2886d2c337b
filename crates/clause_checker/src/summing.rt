// Sum: a weighted sum of what the falsities of literals say is absurd (Farkas, 1902). Since literals are canonical, with
// constants rounded (Chvatal, Edmonds polytopes and a hierarchy of combinatorial problems, 1973), a cut is such a sum.

ghost use Rattle.std.specs.Prelude.{◌≡◌, ◌∷◌, [], map, pos, true, IfOk, IfErr};
ghost use Rattle.std.specs.List.{slice_get};
ghost use Rattle.linear_term.specs.Linear as linear;
ghost use Rattle.clause_proof.specs.Clauses as q;
ghost use Rattle.clause_proof.specs.Atoms as atoms;
ghost use Rattle.clause_proof.specs.Lines as lines;
ghost use Rattle.clause_checker.specs.Answers.{Does, IsTermCut, IsRefusedOrCut};
ghost use Rattle.clause_checker.specs.Views.{definition_of, definitions_of, signed_of, state_of};

use crate::canonical::{equation_literal, inequality_literal, opposite_less_one};
use crate::charging::coefficient;
use crate::fault::Fault;
use crate::opening::one;
use crate::putting::{combine, copy};
use crate::standing::same_definition;
use crate::state::{Definition, Signed, State};
use clause_proof::{Factor, Literal};
use linear_term::Term;
use sqlite_items::{Items, at};
use std::alloc::Global;

/// What the falsity of the definition, or of its negation, says of a term: it is 0, or at least 0.
#[tactic(auto, using(crate::proofs::Doing::doing, crate::proofs::Causes::causes))]
fn fact_of(alloc: Global, d: &Definition, positive: bool) -> Result<(Term, bool), Fault>
    ensures does { Does (λ x. x) (lines.fact_of (definition_of d.now) positive) result }
    ensures cause { IfErr result IsRefusedOrCut }
{
    match d {
        Definition::AtLeastZero(t) => {
            if positive {
                let opposite = opposite_less_one(alloc, t)?;
                Ok((opposite, false))
            } else {
                let same = copy(t)?;
                Ok((same, false))
            }
        }
        Definition::IsZero(t) => {
            if positive {
                Err(Fault::Refused)
            } else {
                let same = copy(t)?;
                Ok((same, true))
            }
        }
        Definition::Always => Err(Fault::Refused),
        Definition::Predicate(_, _) => Err(Fault::Refused),
        Definition::Closure(_, _) => Err(Fault::Refused),
    }
}

/// What the falsity of the literal says.
#[tactic(auto, using(crate::proofs::Opens::found_ones, crate::proofs::Causes::causes))]
fn fact_at(alloc: Global, definitions: &[Definition], l: Literal) -> Result<(Term, bool), Fault>
    ensures does { Does (λ x. x) (lines.fact_at (definitions_of definitions.now) l) result }
    ensures cause { IfErr result IsRefusedOrCut }
{
    match at(definitions, l.variable as usize) {
        None => Err(Fault::Refused),
        Some(d) => fact_of(alloc, d, l.positive),
    }
}

/// u, and k times the fact. An inequality has no negative multiplier.
#[tactic(auto, using(crate::proofs::Doing::doing, crate::proofs::Causes::causes))]
fn with_fact(k: i128, u: &(Term, bool), fact: &(Term, bool)) -> Result<(Term, bool), Fault>
    ensures does { Does (λ x. x) (lines.with_fact k u.now fact.now) result }
    ensures cause { IfErr result IsRefusedOrCut }
{
    if !fact.1 && k < 0 {
        return Err(Fault::Refused);
    }
    let by = coefficient(k)?;
    let sum = combine(1, &u.0, by, &fact.0)?;
    Ok((sum, u.1 && fact.1))
}

/// u, and the weighted fact of the literal.
#[tactic(auto, using(crate::proofs::Doing::doing, crate::proofs::Causes::causes))]
fn with_factor(
    alloc: Global,
    definitions: &[Definition],
    u: &(Term, bool),
    x: Factor,
) -> Result<(Term, bool), Fault>
    ensures does { Does (λ x. x) (lines.found (lines.fact_at (definitions_of definitions.now) x.literal) (lines.with_fact x.by u.now)) result }
    ensures cause { IfErr result IsRefusedOrCut }
{
    let fact = fact_at(alloc, definitions, x.literal)?;
    with_fact(x.by, u, &fact)
}

/// The weighted sum of the facts.
#[tactic(auto, using(crate::proofs::Sums::sums, crate::proofs::Doing::does_cut, crate::proofs::Causes::causes))]
fn sum_of(
    alloc: Global,
    definitions: &[Definition],
    factors: &[Factor],
) -> Result<(Term, bool), Fault>
    ensures does { Does (λ x. x) (lines.sum_of (definitions_of definitions.now) factors.now (linear.number (pos 0), true)) result }
    ensures cause { IfErr result IsRefusedOrCut }
{
    let mut sum = (Term::number(alloc, 0), true);
    for x in factors {
        sum = with_factor(alloc, definitions, &sum, *x)?;
    }
    Ok(sum)
}

/// Whether the literal is false.
fn is_absurd(x: &Signed) -> bool
    ensures { result ≡ lines.is_absurd (signed_of x.now) }
{
    !x.positive && same_definition(&x.definition, &Definition::Always)
}

/// The literal of a fact.
fn literal_of_fact<'a>(alloc: Global, u: (Term, bool)) -> Result<Signed<'a>, Fault>
    ensures ok { IfOk result (λ x. signed_of x ≡ lines.literal_of_fact u) }
    ensures err { IfErr result IsTermCut }
{
    let (t, exact) = u;
    if exact {
        equation_literal(alloc, t)
    } else {
        inequality_literal(alloc, t)
    }
}

/// The literals of the factors.
fn literals(alloc: Global, factors: &[Factor]) -> Result<Items<Literal>, Fault>
    ensures ok { IfOk result (λ c. c ≡ map (λ x. x.literal) factors.now) }
    ensures err { IfErr result IsTermCut }
{
    let mut out = Items::new(alloc);
    for x in factors {
        out.push(x.literal)?;
    }
    Ok(out)
}

/// One more clause.
#[tactic(auto, using(crate::proofs::Sums::clause_added, crate::proofs::Doing::does_cut, crate::proofs::Causes::causes))]
pub(crate) fn add_clause(state: &mut State, clause: Items<Literal>) -> Result<(), Fault>
    ensures does { Does (λ u. state_of state.new) (lines.extended (state_of state.old) (lines.clauses_of (state_of state.old) (clause ∷ []))) result }
    ensures cause { IfErr result IsRefusedOrCut }
{
    state.clauses.push(Some(clause))?;
    Ok(())
}

/// What a sum adds.
#[tactic(auto, using(crate::proofs::Sums::summing, crate::proofs::Causes::causes))]
pub(crate) fn sum(alloc: Global, state: &mut State, factors: &[Factor]) -> Result<(), Fault>
    ensures does { Does (λ u. state_of state.new) (lines.found (lines.summed (state_of state.old) factors.now) (lines.extended (state_of state.old))) result }
    ensures cause { IfErr result IsRefusedOrCut }
{
    let total = sum_of(alloc, state.definitions.as_slice(), factors)?;
    let x = literal_of_fact(alloc, total)?;
    if !is_absurd(&x) {
        return Err(Fault::Refused);
    }
    let clause = literals(alloc, factors)?;
    add_clause(state, clause)
}
