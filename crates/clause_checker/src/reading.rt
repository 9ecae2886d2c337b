// Instance and read: closures that are true where another is.

ghost use Rattle.std.specs.Prelude.{◌≡◌, ◌∷◌, [], length, map, IfOk, IfErr};
ghost use Rattle.linear_term.specs.Linear as linear;
ghost use Rattle.formula.specs.Tree.{form, forms_of};
ghost use Rattle.clause_proof.specs.Atoms as atoms;
ghost use Rattle.clause_proof.specs.Lines as lines;
ghost use Rattle.clause_checker.specs.Answers.{Does, IsTermCut, IsRefusedOrCut};
ghost use Rattle.std.specs.List.{slice_get};
ghost use Rattle.clause_checker.specs.Views.{body_at, inner_of, read_at, state_of};

use crate::fault::Fault;
use crate::opening::{closure_at, implied_by, with_term};
use crate::putting::{are_over, copy, is_name, put_all, same_terms};
use crate::state::State;
use clause_proof::{Application, Literal};
use formula::{Core, Shared};
use linear_term::Term;
use sqlite_items::{Items, at};
use std::alloc::Global;

/// The body of a for-some.
#[tactic(auto, using(crate::proofs::Doing::doing, crate::proofs::Causes::causes))]
fn body_of<'a>(f: &'a Core) -> Result<&'a Core, Fault>
    ensures does { Does (λ g. form g.now) (body_at (form f.now)) result }
    ensures cause { IfErr result IsRefusedOrCut }
{
    match f {
        Core::Exists(g) => Ok(g.get()),
        Core::And(_) => Err(Fault::Refused),
        Core::Or(_) => Err(Fault::Refused),
        Core::Forall(_) => Err(Fault::Refused),
        Core::Eq(_) => Err(Fault::Refused),
        Core::Neq(_) => Err(Fault::Refused),
        Core::Geq(_) => Err(Fault::Refused),
        Core::Pred(_, _) => Err(Fault::Refused),
        Core::NotPred(_, _) => Err(Fault::Refused),
        Core::NotFun(_, _, _) => Err(Fault::Refused),
    }
}

/// The body of a for-some, as deep as there are terms, with these.
#[tactic(auto, using(crate::proofs::Readings::bodies_ones, crate::proofs::Doing::does_cut, crate::proofs::Causes::causes))]
fn bodies<'a>(
    alloc: Global,
    us: &[Term],
    f: &'a Core,
    ts: Shared<Items<Term>>,
) -> Result<(&'a Core, Shared<Items<Term>>), Fault>
    ensures does { Does inner_of (lines.bodies us.now (form f.now) ts) result }
    ensures cause { IfErr result IsRefusedOrCut }
{
    let mut body = f;
    let mut terms = ts;
    for u in us {
        body = body_of(body)?;
        let same = copy(u)?;
        terms = with_term(alloc, terms.get().as_slice(), same)?;
    }
    Ok((body, terms))
}

/// What an instance of a closure adds.
#[tactic(auto, using(crate::proofs::Readings::instances, crate::proofs::Causes::causes))]
fn instance_of<'a>(
    alloc: Global,
    state: &mut State<'a>,
    i: u32,
    us: &[Term],
    m: Literal,
    f: &'a Core,
    ts: Shared<Items<Term>>,
) -> Result<(), Fault>
    ensures does { Does (λ u. state_of state.new) (lines.found (lines.instanced (state_of state.old) i us.now m (form f.now) ts) (lines.extended (state_of state.old))) result }
    ensures cause { IfErr result IsRefusedOrCut }
{
    if !are_over(state.count as usize, us) {
        return Err(Fault::Refused);
    }
    let (body, terms) = bodies(alloc, us, f, ts)?;
    implied_by(alloc, state, i, m, body, &terms)
}

/// What an instance of variable number i adds.
#[tactic(auto, using(crate::proofs::Opens::closures, crate::proofs::Causes::causes))]
pub(crate) fn instance<'a>(
    alloc: Global,
    state: &mut State<'a>,
    i: u32,
    us: &[Term],
    m: Literal,
) -> Result<(), Fault>
    ensures does { Does (λ u. state_of state.new) (lines.found (lines.closure_at (state_of state.old) i (lines.instanced (state_of state.old) i us.now m)) (lines.extended (state_of state.old))) result }
    ensures cause { IfErr result IsRefusedOrCut }
{
    let (f, ts) = closure_at(state.definitions.as_slice(), i)?;
    instance_of(alloc, state, i, us, m, f, ts)
}

/// Whether the application is of the function at these terms with the terms ts put in, for the next name u.
fn reads(
    alloc: Global,
    x: &Application,
    f: u32,
    ss: &[Term],
    n: usize,
    ts: &[Term],
    u: &Term,
) -> Result<bool, Fault>
    ensures ok { IfOk result (λ b. b ≡ lines.reads x.now f ss.now n ts.now u.now) }
    ensures err { IfErr result IsTermCut }
{
    let args = put_all(alloc, ts, ss)?;
    Ok(
        x.function == f
            && (are_over(n, ss)
                && (same_terms(args.as_slice(), x.terms.as_slice()) && is_name(alloc, u, n))),
    )
}

/// Whether the formula says that the function of the application has another value than the next name.
fn reads_atom(alloc: Global, x: &Application, ts: &[Term], f: &Core) -> Result<bool, Fault>
    ensures ok { IfOk result (λ b. b ≡ lines.reads_atom x.now ts.now (form f.now)) }
    ensures err { IfErr result IsTermCut }
{
    match f {
        Core::NotFun(h, ss, u) => {
            let b = reads(alloc, x, *h, ss.as_slice(), ts.len(), ts, u)?;
            Ok(b)
        }
        Core::Exists(_) => Ok(false),
        Core::And(_) => Ok(false),
        Core::Or(_) => Ok(false),
        Core::Forall(_) => Ok(false),
        Core::Eq(_) => Ok(false),
        Core::Neq(_) => Ok(false),
        Core::Geq(_) => Ok(false),
        Core::Pred(_, _) => Ok(false),
        Core::NotPred(_, _) => Ok(false),
    }
}

/// The second of two members, where the first one reads the application.
#[tactic(auto, using(crate::proofs::Readings::seconds, crate::proofs::Causes::causes))]
fn second_form<'a>(
    alloc: Global,
    x: &Application,
    ts: &[Term],
    fs: &'a [Core],
) -> Result<&'a Core, Fault>
    ensures does { Does (λ g. form g.now) (lines.second_form (lines.reads_atom x.now ts.now) (forms_of fs.now)) result }
    ensures cause { IfErr result IsRefusedOrCut }
{
    if fs.len() != 2 {
        return Err(Fault::Refused);
    }
    match at(fs, 0) {
        None => Err(Fault::Refused),
        Some(a) => match at(fs, 1) {
            None => Err(Fault::Refused),
            Some(b) => {
                let reading = reads_atom(alloc, x, ts, a)?;
                if reading { Ok(b) } else { Err(Fault::Refused) }
            }
        },
    }
}

#[tactic(auto, using(crate::proofs::Doing::doing, crate::proofs::Causes::causes))]
fn second_of<'a>(
    alloc: Global,
    x: &Application,
    ts: &[Term],
    f: &'a Core,
) -> Result<&'a Core, Fault>
    ensures does { Does (λ g. form g.now) (lines.second_of (lines.reads_atom x.now ts.now) (form f.now)) result }
    ensures cause { IfErr result IsRefusedOrCut }
{
    match f {
        Core::Or(fs) => second_form(alloc, x, ts, fs.as_slice()),
        Core::And(_) => Err(Fault::Refused),
        Core::Forall(_) => Err(Fault::Refused),
        Core::Exists(_) => Err(Fault::Refused),
        Core::Eq(_) => Err(Fault::Refused),
        Core::Neq(_) => Err(Fault::Refused),
        Core::Geq(_) => Err(Fault::Refused),
        Core::Pred(_, _) => Err(Fault::Refused),
        Core::NotPred(_, _) => Err(Fault::Refused),
        Core::NotFun(_, _, _) => Err(Fault::Refused),
    }
}

/// What is left of a formula that reads the application.
#[tactic(auto, using(crate::proofs::Doing::doing, crate::proofs::Causes::causes))]
fn read_one<'a>(alloc: Global, x: &Application, ts: &[Term], f: &'a Core) -> Result<&'a Core, Fault>
    ensures does { Does (λ g. form g.now) (lines.read_one x.now ts.now (form f.now)) result }
    ensures cause { IfErr result IsRefusedOrCut }
{
    match f {
        Core::Forall(g) => second_of(alloc, x, ts, g.get()),
        Core::And(_) => Err(Fault::Refused),
        Core::Or(_) => Err(Fault::Refused),
        Core::Exists(_) => Err(Fault::Refused),
        Core::Eq(_) => Err(Fault::Refused),
        Core::Neq(_) => Err(Fault::Refused),
        Core::Geq(_) => Err(Fault::Refused),
        Core::Pred(_, _) => Err(Fault::Refused),
        Core::NotPred(_, _) => Err(Fault::Refused),
        Core::NotFun(_, _, _) => Err(Fault::Refused),
    }
}

/// Application number i.
#[tactic(auto, using(crate::proofs::Readings::applications, crate::proofs::Causes::causes))]
pub(crate) fn application_at(applications: &[Application], i: u32) -> Result<&Application, Fault>
    ensures does { Does (λ x. x.now) (slice_get applications.now i) result }
    ensures cause { IfErr result IsRefusedOrCut }
{
    match at(applications, i as usize) {
        None => Err(Fault::Refused),
        Some(x) => Ok(x),
    }
}

/// What is left of a formula that reads application number b, with the terms for its names.
#[tactic(auto, using(crate::proofs::Readings::steps, crate::proofs::Causes::causes))]
fn read_step<'a>(
    alloc: Global,
    applications: &[Application],
    b: u32,
    f: &'a Core,
    ts: &Shared<Items<Term>>,
) -> Result<(&'a Core, Shared<Items<Term>>), Fault>
    ensures does { Does inner_of (read_at applications.now b (form f.now) ts.now) result }
    ensures cause { IfErr result IsRefusedOrCut }
{
    let x = application_at(applications, b)?;
    let g = read_one(alloc, x, ts.get().as_slice(), f)?;
    let terms = with_term(alloc, ts.get().as_slice(), Term::name(alloc, x.constant))?;
    Ok((g, terms))
}

/// What is left of a formula that reads these applications in turn.
#[tactic(auto, using(crate::proofs::Readings::reading_ones, crate::proofs::Causes::causes))]
fn read_all<'a>(
    alloc: Global,
    applications: &[Application],
    bs: &[u32],
    f: &'a Core,
    ts: Shared<Items<Term>>,
) -> Result<(&'a Core, Shared<Items<Term>>), Fault>
    ensures does { Does inner_of (lines.read_all applications.now bs.now (form f.now) ts) result }
    ensures cause { IfErr result IsRefusedOrCut }
{
    let mut rest = f;
    let mut terms = ts;
    for b in bs {
        let (g, us) = read_step(alloc, applications, *b, rest, &terms)?;
        rest = g;
        terms = us;
    }
    Ok((rest, terms))
}

/// What reading adds.
#[tactic(auto, using(crate::proofs::Readings::readings, crate::proofs::Causes::causes))]
fn read_of<'a>(
    alloc: Global,
    state: &mut State<'a>,
    i: u32,
    bs: &[u32],
    m: Literal,
    f: &'a Core,
    ts: Shared<Items<Term>>,
) -> Result<(), Fault>
    ensures does { Does (λ u. state_of state.new) (lines.found (lines.found (lines.read_all state.old.applications bs.now (form f.now) ts) (lines.implied_by (state_of state.old) i m)) (lines.extended (state_of state.old))) result }
    ensures cause { IfErr result IsRefusedOrCut }
{
    let (rest, terms) = read_all(alloc, state.applications.as_slice(), bs, f, ts)?;
    implied_by(alloc, state, i, m, rest, &terms)
}

/// What is left of variable number i that reads these applications in turn.
#[tactic(auto, using(crate::proofs::Opens::closures, crate::proofs::Causes::causes))]
pub(crate) fn read<'a>(
    alloc: Global,
    state: &mut State<'a>,
    i: u32,
    bs: &[u32],
    m: Literal,
) -> Result<(), Fault>
    ensures does { Does (λ u. state_of state.new) (lines.found (lines.closure_at (state_of state.old) i (λ f ts. lines.found (lines.read_all state.old.applications bs.now f ts) (lines.implied_by (state_of state.old) i m))) (lines.extended (state_of state.old))) result }
    ensures cause { IfErr result IsRefusedOrCut }
{
    let (f, ts) = closure_at(state.definitions.as_slice(), i)?;
    read_of(alloc, state, i, bs, m, f, ts)
}
