// A check of a proof, line by line.

ghost use Rattle.std.specs.Prelude.{◌≡◌, map, IfOk, IfErr};
ghost use Rattle.linear_term.specs.Linear as linear;
ghost use Rattle.formula.specs.Tree.{form};
ghost use Rattle.clause_proof.specs.Lines as lines;
ghost use Rattle.clause_proof.specs.Proofs as proofs;
ghost use Rattle.clause_checker.specs.Answers.{Does, HasCause, IsCausedBy, IsTermCut, IsRefusedOrCut, PaysPrice};
ghost use Rattle.clause_checker.specs.Prices.{price, start_price};
ghost use Rattle.clause_checker.specs.Views.{state_of};

use crate::charging::{coefficient, pay};
use crate::congruence::{pair, predicate_pair};
use crate::fault::Fault;
use crate::formulas::literal_of;
use crate::line_prices::{line_price, root_price};
use crate::opening::{apply, one, open, opposite, positive};
use crate::pairing::{divide, equation, inequality, predicate, split};
use crate::reading::{instance, read};
use crate::resolving::{delete, resolve};
use crate::standing::stand_one;
use crate::state::{Definition, State};
use crate::summing::sum;
use base_budget::Purse;
use clause_marks::Marks;
use clause_proof::{Line, Literal};
use formula::{Core, Shared};
use linear_term::Term;
use sqlite_items::{Items, at};
use std::alloc::Global;

/// The state with what the line adds.
#[tactic(auto, using(crate::proofs::Checks::putting, crate::proofs::Causes::causes))]
fn put<'a>(
    alloc: Global,
    marks: &mut Marks,
    state: &mut State<'a>,
    line: &Line,
) -> Result<(), Fault>
    ensures does { Does (λ u. state_of state.new) (lines.found (lines.added (state_of state.old) line.now) (lines.extended (state_of state.old))) result }
    ensures cause { IfErr result (HasCause state.old.count) }
{
    match line {
        Line::Open(i, ms) => open(alloc, state, *i, ms.as_slice()),
        Line::Apply(f, ts) => apply(alloc, state, *f, ts.as_slice()),
        Line::Read(i, bs, m) => read(alloc, state, *i, bs.as_slice(), *m),
        Line::Instance(i, us, m) => instance(alloc, state, *i, us.as_slice(), *m),
        Line::Inequality(t) => inequality(alloc, state, t),
        Line::Equation(t) => equation(alloc, state, t),
        Line::Predicate(p, ts) => predicate(alloc, state, *p, ts.as_slice()),
        Line::Split(i, g, h) => split(alloc, state, *i, *g, *h),
        Line::Sum(factors) => sum(alloc, state, factors.as_slice()),
        Line::Pair(a, b, es, r) => pair(alloc, state, *a, *b, es.as_slice(), *r),
        Line::PredicatePair(i, j, es) => predicate_pair(alloc, state, *i, *j, es.as_slice()),
        Line::Divide(d, t, g, h) => divide(alloc, state, *d, t, *g, *h),
        Line::Resolve(clause, hints) => resolve(
            alloc,
            marks,
            state,
            clause.as_slice(),
            hints.as_slice(),
        ),
        Line::Delete(_) => Err(Fault::Refused),
    }
}

/// The state after the line.
#[tactic(auto, using(crate::proofs::Checks::stepping, crate::proofs::Causes::causes))]
fn follow<'a>(
    alloc: Global,
    marks: &mut Marks,
    state: &mut State<'a>,
    line: &Line,
) -> Result<(), Fault>
    ensures does { Does (λ u. state_of state.new) (lines.after (state_of state.old) line.now) result }
    ensures cause { IfErr result (HasCause state.old.count) }
{
    match line {
        Line::Delete(hints) => {
            delete(&mut state.clauses, hints.as_slice());
            Ok(())
        }
        _ => put(alloc, marks, state, line),
    }
}

/// PaysPrice the price of the line, and makes the state after it. Steps comes exactly where the price passes the budget; Overflow names a
/// number that leaves the range; Room comes where each number of 32 bits has a constant. After a fault the state is not to be used again.
#[tactic(auto, using(crate::proofs::Paying::paying, crate::proofs::Causes::causes))]
pub fn step<'a>(
    alloc: Global,
    purse: &mut Purse,
    marks: &mut Marks,
    state: &mut State<'a>,
    line: &Line,
) -> Result<(), Fault>
    ensures does { Does (λ u. state_of state.new) (lines.after (state_of state.old) line.now) result }
    ensures pays { PaysPrice (price (state_of state.old) line.now) purse.old purse.new result }
    ensures cause { IfErr result (IsCausedBy state.old.count) }
{
    pay(purse, line_price(alloc, state, line)?)?;
    follow(alloc, marks, state, line)
}

/// The numbers as terms.
fn number_terms(alloc: Global, ks: &[i128]) -> Result<Items<Term>, Fault>
    ensures ok { IfOk result (λ ts. ts ≡ map linear.number ks.now) }
    ensures err { IfErr result IsTermCut }
{
    let mut out = Items::new(alloc);
    for k in ks {
        out.push(Term::number(alloc, coefficient(*k)?))?;
    }
    Ok(out)
}

/// The start without its price.
#[tactic(auto, using(crate::proofs::Checks::beginning, crate::proofs::Causes::causes))]
fn first_state<'a>(
    alloc: Global,
    root: &'a Core,
    ks: &[i128],
    m: Literal,
) -> Result<State<'a>, Fault>
    ensures does { Does state_of (proofs.start (form root.now) ks.now m) result }
    ensures cause { IfErr result IsRefusedOrCut }
{
    let terms = Shared::new(alloc, number_terms(alloc, ks)?)?;
    let x = literal_of(alloc, root, &terms)?;
    let mut definitions = Items::new(alloc);
    definitions.push(Definition::Always)?;
    let mut clauses = one(alloc, Items::from_slice(alloc, &[positive(0)])?)?;
    clauses.push(Some(Items::from_slice(alloc, &[opposite(m)])?))?;
    stand_one(&mut definitions, x, m)?;
    Ok(State {
        definitions,
        clauses,
        applications: Items::new(alloc),
        count: 0,
    })
}

/// PaysPrice the price of the start, and makes it: the root at the numbers is false, and the literal stands for it. Cuts come as at `step`.
#[tactic(auto, using(crate::proofs::Paying::paying, crate::proofs::Causes::causes))]
pub fn begin<'a>(
    alloc: Global,
    purse: &mut Purse,
    root: &'a Core,
    ks: &[i128],
    m: Literal,
) -> Result<State<'a>, Fault>
    ensures does { Does state_of (proofs.start (form root.now) ks.now m) result }
    ensures pays { PaysPrice (start_price (form root.now) ks.now) purse.old purse.new result }
    ensures cause { IfErr result (IsCausedBy 0) }
{
    pay(purse, root_price(alloc, root, ks)?)?;
    first_state(alloc, root, ks, m)
}

/// Whether the last clause is there and empty, so that the lines before it are a proof.
#[tactic(auto, using(crate::proofs::Checks::ending))]
pub fn ends_empty(clauses: &[Option<Items<Literal>>]) -> bool
    ensures { result ≡ proofs.ends_empty clauses.now }
{
    if clauses.is_empty() {
        return false;
    }
    match at(clauses, clauses.len() - 1) {
        Some(Some(clause)) => clause.is_empty(),
        Some(None) => false,
        None => false,
    }
}
