// Pairs: equal arguments have equal values, for two applications of one function or of one predicate (Ackermann, Solvable
// cases of the decision problem, 1954).

ghost use Rattle.std.specs.Prelude.{◌≡◌, ◌∷◌, ◌++◌, [], pos, negsuc, length, map, IfErr};
ghost use Rattle.std.specs.List.{slice_get};
ghost use Rattle.linear_term.specs.Linear as linear;
ghost use Rattle.linear_term.specs.Combination.{combination};
ghost use Rattle.clause_proof.specs.Atoms as atoms;
ghost use Rattle.clause_proof.specs.Lines as lines;
ghost use Rattle.clause_checker.specs.Answers.{Does, IsRefusedOrCut};
ghost use Rattle.clause_checker.specs.Views.{definition_of, definitions_of, equation_at, predicate_of, state_of};

use crate::canonical::equation_literal;
use crate::fault::Fault;
use crate::opening::{negative, one, positive, with_opposites};
use crate::putting::{combine, copied};
use crate::reading::application_at;
use crate::standing::stand;
use crate::state::{Definition, State};
use clause_proof::{Application, Literal};
use linear_term::Term;
use sqlite_items::{Items, at};
use std::alloc::Global;

/// The equation s = t, by its literal.
#[tactic(auto, using(crate::proofs::Stands::single, crate::proofs::Causes::causes))]
fn stand_equation<'a>(
    alloc: Global,
    definitions: &mut Items<Definition<'a>>,
    s: &Term,
    t: &Term,
    m: Literal,
) -> Result<(), Fault>
    ensures does { Does (λ u. definitions_of definitions.new) (lines.stand (definitions_of definitions.old) (atoms.equation_literal (combination (pos 1) s.now (negsuc 0) t.now)) m) result }
    ensures cause { IfErr result IsRefusedOrCut }
{
    let difference = combine(1, s, -1, t)?;
    let x = equation_literal(alloc, difference)?;
    stand(definitions, x, m)
}

/// The equation of arguments number i, by literal number i.
#[tactic(auto, using(crate::proofs::Stands::items, crate::proofs::Causes::causes))]
fn stand_equation_at<'a>(
    alloc: Global,
    definitions: &mut Items<Definition<'a>>,
    ss: &[Term],
    ts: &[Term],
    literals: &[Literal],
    i: usize,
) -> Result<(), Fault>
    ensures does { Does (λ u. definitions_of definitions.new) (equation_at ss.now ts.now literals.now i (definitions_of definitions.old)) result }
    ensures cause { IfErr result IsRefusedOrCut }
{
    match at(ss, i) {
        None => Err(Fault::Refused),
        Some(s) => match at(ts, i) {
            None => Err(Fault::Refused),
            Some(t) => match at(literals, i) {
                None => Err(Fault::Refused),
                Some(m) => stand_equation(alloc, definitions, s, t, *m),
            },
        },
    }
}

/// The equations of the arguments, each by its literal.
#[tactic(auto, using(crate::proofs::Pairs::walking, crate::proofs::Causes::causes))]
fn stand_equations<'a>(
    alloc: Global,
    definitions: &mut Items<Definition<'a>>,
    ss: &[Term],
    ts: &[Term],
    literals: &[Literal],
) -> Result<(), Fault>
    requires { length ss.now ≡ length ts.now }
    ensures does { Does (λ u. definitions_of definitions.new) (lines.stand_all (definitions_of definitions.old) (lines.equations ss.now ts.now) literals.now) result }
    ensures cause { IfErr result IsRefusedOrCut }
{
    for i in 0..ss.len() {
        stand_equation_at(alloc, definitions, ss, ts, literals, i)?;
    }
    if ss.len() < literals.len() {
        return Err(Fault::Refused);
    }
    Ok(())
}

/// The equations of the constants and of the arguments of two applications.
#[tactic(auto, using(crate::proofs::Stands::two, crate::proofs::Causes::causes))]
fn stand_pair<'a>(
    alloc: Global,
    definitions: &mut Items<Definition<'a>>,
    x: &Application,
    y: &Application,
    es: &[Literal],
    r: Literal,
) -> Result<(), Fault>
    requires { length x.now.terms ≡ length y.now.terms }
    ensures does { Does (λ u. definitions_of definitions.new) (lines.stand_all (definitions_of definitions.old) (atoms.equation_literal (combination (pos 1) (linear.name x.now.constant) (negsuc 0) (linear.name y.now.constant)) ∷ lines.equations x.now.terms y.now.terms) (r ∷ es.now)) result }
    ensures cause { IfErr result IsRefusedOrCut }
{
    let c = Term::name(alloc, x.constant);
    let d = Term::name(alloc, y.constant);
    stand_equation(alloc, definitions, &c, &d, r)?;
    stand_equations(
        alloc,
        definitions,
        x.terms.as_slice(),
        y.terms.as_slice(),
        es,
    )
}

/// What two applications of one function add.
#[tactic(auto, using(crate::proofs::Pairs::pairs, crate::proofs::Causes::causes))]
pub(crate) fn pair(
    alloc: Global,
    state: &mut State,
    a: u32,
    b: u32,
    es: &[Literal],
    r: Literal,
) -> Result<(), Fault>
    ensures does { Does (λ u. state_of state.new) (lines.found (lines.found (slice_get state.old.applications a) (λ x. lines.found (slice_get state.old.applications b) (lines.paired (state_of state.old) es.now r x))) (lines.extended (state_of state.old))) result }
    ensures cause { IfErr result IsRefusedOrCut }
{
    let clauses = one(alloc, with_opposites(alloc, &[r], es)?)?;
    let x = application_at(state.applications.as_slice(), a)?;
    let y = application_at(state.applications.as_slice(), b)?;
    if x.function != y.function {
        return Err(Fault::Refused);
    }
    if x.terms.len() != y.terms.len() {
        return Err(Fault::Refused);
    }
    stand_pair(alloc, &mut state.definitions, x, y, es, r)?;
    state.clauses.append(clauses)?;
    Ok(())
}

/// The predicate and the terms of a definition.
#[tactic(auto, using(crate::proofs::Doing::doing, crate::proofs::Causes::causes))]
fn predicate_terms(alloc: Global, d: &Definition) -> Result<(u32, Items<Term>), Fault>
    ensures does { Does (λ x. x) (predicate_of (definition_of d.now)) result }
    ensures cause { IfErr result IsRefusedOrCut }
{
    match d {
        Definition::Predicate(p, ts) => {
            let terms = copied(alloc, ts.as_slice())?;
            Ok((*p, terms))
        }
        Definition::Always => Err(Fault::Refused),
        Definition::AtLeastZero(_) => Err(Fault::Refused),
        Definition::IsZero(_) => Err(Fault::Refused),
        Definition::Closure(_, _) => Err(Fault::Refused),
    }
}

/// The predicate and the terms of variable number i.
#[tactic(auto, using(crate::proofs::Opens::found_ones, crate::proofs::Causes::causes))]
fn predicate_at(
    alloc: Global,
    definitions: &[Definition],
    i: u32,
) -> Result<(u32, Items<Term>), Fault>
    ensures does { Does (λ x. x) (lines.found (slice_get (definitions_of definitions.now) i) predicate_of) result }
    ensures cause { IfErr result IsRefusedOrCut }
{
    match at(definitions, i as usize) {
        None => Err(Fault::Refused),
        Some(d) => predicate_terms(alloc, d),
    }
}

/// Where the arguments are equal, variable number i implies variable number j.
#[tactic(auto, using(crate::proofs::Opens::extending, crate::proofs::Causes::causes))]
fn pair_terms(
    alloc: Global,
    state: &mut State,
    i: u32,
    j: u32,
    es: &[Literal],
    ss: &[Term],
    ts: &[Term],
) -> Result<(), Fault>
    requires { length ss.now ≡ length ts.now }
    ensures does { Does (λ u. state_of state.new) (lines.extended (state_of state.old) (lines.adding (lines.equations ss.now ts.now) es.now ((lines.negative i ∷ lines.positive j ∷ map lines.opposite es.now) ∷ []) state.old.count)) result }
    ensures cause { IfErr result IsRefusedOrCut }
{
    let clause = with_opposites(alloc, &[negative(i), positive(j)], es)?;
    let clauses = one(alloc, clause)?;
    stand_equations(alloc, &mut state.definitions, ss, ts, es)?;
    state.clauses.append(clauses)?;
    Ok(())
}

/// What two variables of one predicate add.
#[tactic(auto, using(crate::proofs::Pairs::predicate_pairs, crate::proofs::Causes::causes))]
pub(crate) fn predicate_pair(
    alloc: Global,
    state: &mut State,
    i: u32,
    j: u32,
    es: &[Literal],
) -> Result<(), Fault>
    ensures does { Does (λ u. state_of state.new) (lines.found (lines.found (slice_get (state_of state.old).definitions i) (λ c. lines.found (slice_get (state_of state.old).definitions j) (lines.predicates_paired (state_of state.old) i j es.now c))) (lines.extended (state_of state.old))) result }
    ensures cause { IfErr result IsRefusedOrCut }
{
    let (p, ss) = predicate_at(alloc, state.definitions.as_slice(), i)?;
    let (q, ts) = predicate_at(alloc, state.definitions.as_slice(), j)?;
    if p != q {
        return Err(Fault::Refused);
    }
    if ss.len() != ts.len() {
        return Err(Fault::Refused);
    }
    pair_terms(alloc, state, i, j, es, ss.as_slice(), ts.as_slice())
}
