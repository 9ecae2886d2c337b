// Open: the members of a conjunction or a disjunction, by clauses of one direction (Plaisted and Greenbaum, A
// structure-preserving clause form translation, 1986), or the body of a for-all at a new constant (Skolem, 1920). Apply: a
// new constant for the value of a function.

ghost use Rattle.std.specs.Prelude.{◌≡◌, ◌∷◌, ◌++◌, [], ◌<◌, ◌^◌, suc, map, Some, IfOk, IfErr};
ghost use Rattle.std.specs.List.{slice_get};
ghost use Rattle.linear_term.specs.Linear as linear;
ghost use Rattle.formula.specs.Form as tree;
ghost use Rattle.formula.specs.Tree.{form, forms_of};
ghost use Rattle.clause_proof.specs.Atoms as atoms;
ghost use Rattle.clause_proof.specs.Lines as lines;
ghost use Rattle.clause_checker.specs.Answers.{Does, HasCause, IsTermCut, IsRefusedOrCut};
ghost use Rattle.clause_checker.specs.Views.{definition_of, definitions_of, inner_of, pair_up, signed_of, state_of};

use crate::fault::Fault;
use crate::formulas::literal_of;
use crate::putting::{are_over, copied};
use crate::standing::{stand, stand_members, stand_one};
use crate::state::{Definition, Signed, State};
use clause_proof::{Application, Literal};
use formula::{Core, Shared};
use linear_term::Term;
use sqlite_items::{Items, at};
use std::alloc::Global;

pub(crate) fn positive(i: u32) -> Literal
    ensures { result ≡ lines.positive i }
{
    Literal {
        variable: i,
        positive: true,
    }
}

pub(crate) fn negative(i: u32) -> Literal
    ensures { result ≡ lines.negative i }
{
    Literal {
        variable: i,
        positive: false,
    }
}

pub(crate) fn opposite(l: Literal) -> Literal
    ensures { result ≡ lines.opposite l }
{
    Literal {
        variable: l.variable,
        positive: !l.positive,
    }
}

/// The first literals, and the opposites of the others.
pub(crate) fn with_opposites(
    alloc: Global,
    first: &[Literal],
    ms: &[Literal],
) -> Result<Items<Literal>, Fault>
    ensures ok { IfOk result (λ c. c ≡ first.now ++ map lines.opposite ms.now) }
    ensures err { IfErr result IsTermCut }
{
    let mut out = Items::from_slice(alloc, first)?;
    for m in ms {
        out.push(opposite(*m))?;
    }
    Ok(out)
}

/// For each of these literals: variable number i is true, or it is false.
pub(crate) fn each_false(
    alloc: Global,
    i: u32,
    ms: &[Literal],
) -> Result<Items<Option<Items<Literal>>>, Fault>
    ensures ok { IfOk result (λ cs. cs ≡ map Some (lines.each_false i ms.now)) }
    ensures err { IfErr result IsTermCut }
{
    let mut out = Items::new(alloc);
    for m in ms {
        let clause = Items::from_slice(alloc, &[positive(i), opposite(*m)])?;
        out.push(Some(clause))?;
    }
    Ok(out)
}

/// The clause alone.
pub(crate) fn one(
    alloc: Global,
    clause: Items<Literal>,
) -> Result<Items<Option<Items<Literal>>>, Fault>
    ensures ok { IfOk result (λ cs. cs ≡ Some clause ∷ []) }
    ensures err { IfErr result IsTermCut }
{
    let mut out = Items::new(alloc);
    out.push(Some(clause))?;
    Ok(out)
}

/// The formula and the terms of a closure.
#[tactic(auto, using(crate::proofs::Doing::doing, crate::proofs::Causes::causes))]
fn as_closure<'a>(d: &Definition<'a>) -> Result<(&'a Core, Shared<Items<Term>>), Fault>
    ensures does { Does inner_of (lines.as_closure (definition_of d.now) pair_up) result }
    ensures cause { IfErr result IsRefusedOrCut }
{
    match d {
        Definition::Closure(f, ts) => {
            let shared = ts.share()?;
            Ok((*f, shared))
        }
        Definition::Always => Err(Fault::Refused),
        Definition::AtLeastZero(_) => Err(Fault::Refused),
        Definition::IsZero(_) => Err(Fault::Refused),
        Definition::Predicate(_, _) => Err(Fault::Refused),
    }
}

/// The formula and the terms of variable number i.
#[tactic(auto, using(crate::proofs::Opens::found_ones, crate::proofs::Doing::doing, crate::proofs::Causes::causes))]
pub(crate) fn closure_at<'a>(
    definitions: &[Definition<'a>],
    i: u32,
) -> Result<(&'a Core, Shared<Items<Term>>), Fault>
    ensures does { Does inner_of (lines.found (slice_get (definitions_of definitions.now) i) (λ d. lines.as_closure d pair_up)) result }
    ensures cause { IfErr result IsRefusedOrCut }
{
    match at(definitions, i as usize) {
        None => Err(Fault::Refused),
        Some(d) => as_closure(d),
    }
}

/// A conjunction: it is true, or some member is false.
#[tactic(auto, using(crate::proofs::Opens::extending, crate::proofs::Causes::causes))]
fn open_all<'a>(
    alloc: Global,
    state: &mut State<'a>,
    i: u32,
    fs: &'a [Core],
    ts: &Shared<Items<Term>>,
    ms: &[Literal],
) -> Result<(), Fault>
    ensures does { Does (λ u. state_of state.new) (lines.extended (state_of state.old) (lines.adding (lines.members (forms_of fs.now) ts.now) ms.now (lines.some_false i ms.now ∷ []) state.old.count)) result }
    ensures cause { IfErr result IsRefusedOrCut }
{
    let clause = with_opposites(alloc, &[positive(i)], ms)?;
    let clauses = one(alloc, clause)?;
    stand_members(alloc, &mut state.definitions, fs, ts, ms)?;
    state.clauses.append(clauses)?;
    Ok(())
}

/// A disjunction: it is true, or each member is false.
#[tactic(auto, using(crate::proofs::Opens::extending, crate::proofs::Causes::causes))]
fn open_each<'a>(
    alloc: Global,
    state: &mut State<'a>,
    i: u32,
    fs: &'a [Core],
    ts: &Shared<Items<Term>>,
    ms: &[Literal],
) -> Result<(), Fault>
    ensures does { Does (λ u. state_of state.new) (lines.extended (state_of state.old) (lines.adding (lines.members (forms_of fs.now) ts.now) ms.now (lines.each_false i ms.now) state.old.count)) result }
    ensures cause { IfErr result IsRefusedOrCut }
{
    let clauses = each_false(alloc, i, ms)?;
    stand_members(alloc, &mut state.definitions, fs, ts, ms)?;
    state.clauses.append(clauses)?;
    Ok(())
}

/// The terms, and one more.
pub(crate) fn with_term(alloc: Global, ts: &[Term], t: Term) -> Result<Shared<Items<Term>>, Fault>
    ensures ok { IfOk result (λ us. us ≡ ts.now ++ t ∷ []) }
    ensures err { IfErr result IsTermCut }
{
    let mut out = copied(alloc, ts)?;
    out.push(t)?;
    Ok(Shared::new(alloc, out)?)
}

/// One literal, which the list is to have alone.
#[tactic(auto, using(crate::proofs::Opens::alone, crate::proofs::Causes::causes))]
fn stand_alone<'a>(
    definitions: &mut Items<Definition<'a>>,
    x: Signed<'a>,
    ms: &[Literal],
) -> Result<(), Fault>
    ensures does { Does (λ u. definitions_of definitions.new) (lines.stand_all (definitions_of definitions.old) (signed_of x.entry ∷ []) ms.now) result }
    ensures cause { IfErr result IsRefusedOrCut }
{
    if ms.len() != 1 {
        return Err(Fault::Refused);
    }
    match at(ms, 0) {
        None => Err(Fault::Refused),
        Some(m) => stand_one(definitions, x, *m),
    }
}

/// A for-all: it is true, or its body is false at the new constant.
#[tactic(auto, using(crate::proofs::Opens::extending, crate::proofs::Causes::causes))]
fn open_body<'a>(
    alloc: Global,
    state: &mut State<'a>,
    i: u32,
    body: &'a Core,
    ts: &Shared<Items<Term>>,
    ms: &[Literal],
) -> Result<(), Fault>
    ensures does { Does (λ u. state_of state.new) (lines.extended (state_of state.old) (lines.adding (atoms.literal_of (form body.now) (ts.now ++ linear.name state.old.count ∷ []) ∷ []) ms.now (lines.each_false i ms.now) (suc state.old.count))) result }
    ensures cause { IfErr result (HasCause state.old.count) }
{
    if state.count == u32::MAX {
        return Err(Fault::Room);
    }
    let clauses = each_false(alloc, i, ms)?;
    let terms = with_term(alloc, ts.get().as_slice(), Term::name(alloc, state.count))?;
    let x = literal_of(alloc, body, &terms)?;
    stand_alone(&mut state.definitions, x, ms)?;
    state.clauses.append(clauses)?;
    state.count += 1;
    Ok(())
}

/// What a closure adds.
#[tactic(auto, using(crate::proofs::Doing::doing, crate::proofs::Causes::causes))]
fn open_closure<'a>(
    alloc: Global,
    state: &mut State<'a>,
    i: u32,
    f: &'a Core,
    ts: &Shared<Items<Term>>,
    ms: &[Literal],
) -> Result<(), Fault>
    ensures does { Does (λ u. state_of state.new) (lines.found (lines.opened (state_of state.old) i ms.now (form f.now) ts.now) (lines.extended (state_of state.old))) result }
    ensures cause { IfErr result (HasCause state.old.count) }
{
    match f {
        Core::And(fs) => open_all(alloc, state, i, fs.as_slice(), ts, ms),
        Core::Or(fs) => open_each(alloc, state, i, fs.as_slice(), ts, ms),
        Core::Forall(g) => open_body(alloc, state, i, g.get(), ts, ms),
        Core::Exists(_) => Err(Fault::Refused),
        Core::Eq(_) => Err(Fault::Refused),
        Core::Neq(_) => Err(Fault::Refused),
        Core::Geq(_) => Err(Fault::Refused),
        Core::Pred(_, _) => Err(Fault::Refused),
        Core::NotPred(_, _) => Err(Fault::Refused),
        Core::NotFun(_, _, _) => Err(Fault::Refused),
    }
}

/// What opening variable number i adds.
#[tactic(auto, using(crate::proofs::Opens::closures, crate::proofs::Causes::causes))]
pub(crate) fn open<'a>(
    alloc: Global,
    state: &mut State<'a>,
    i: u32,
    ms: &[Literal],
) -> Result<(), Fault>
    ensures does { Does (λ u. state_of state.new) (lines.found (lines.closure_at (state_of state.old) i (lines.opened (state_of state.old) i ms.now)) (lines.extended (state_of state.old))) result }
    ensures cause { IfErr result (HasCause state.old.count) }
{
    let (f, ts) = closure_at(state.definitions.as_slice(), i)?;
    open_closure(alloc, state, i, f, &ts, ms)
}

/// Variable number i is true where this formula with these terms is.
#[tactic(auto, using(crate::proofs::Opens::extending, crate::proofs::Causes::causes))]
pub(crate) fn implied_by<'a>(
    alloc: Global,
    state: &mut State<'a>,
    i: u32,
    m: Literal,
    f: &'a Core,
    ts: &Shared<Items<Term>>,
) -> Result<(), Fault>
    ensures does { Does (λ u. state_of state.new) (lines.extended (state_of state.old) (lines.adding (atoms.literal_of (form f.now) ts.now ∷ []) (m ∷ []) (lines.each_false i (m ∷ [])) state.old.count)) result }
    ensures cause { IfErr result IsRefusedOrCut }
{
    let x = literal_of(alloc, f, ts)?;
    let clauses = each_false(alloc, i, &[m])?;
    stand_one(&mut state.definitions, x, m)?;
    state.clauses.append(clauses)?;
    Ok(())
}

/// A new constant is the value of a function at the terms.
#[tactic(auto, using(crate::proofs::Opens::applying, crate::proofs::Causes::causes))]
pub(crate) fn apply<'a>(
    alloc: Global,
    state: &mut State<'a>,
    f: u32,
    ts: &[Term],
) -> Result<(), Fault>
    ensures does { Does (λ u. state_of state.new) (lines.found (lines.applied (state_of state.old) f ts.now) (lines.extended (state_of state.old))) result }
    ensures cause { IfErr result (HasCause state.old.count) }
{
    if !are_over(state.count as usize, ts) {
        return Err(Fault::Refused);
    }
    if state.count == u32::MAX {
        return Err(Fault::Room);
    }
    let terms = copied(alloc, ts)?;
    state.applications.push(Application {
        function: f,
        terms,
        constant: state.count,
    })?;
    state.count += 1;
    Ok(())
}
