// The price of a line: what its check charges, before anything of it is made. It is in proportion to what the line reads and writes.

ghost use Rattle.base_budget.specs.Trace.{capped};
ghost use Rattle.clause_checker.specs.Prices as prices;
ghost use Rattle.clause_checker.specs.Views.{body_at, definition_of, definitions_of, form_is, pair_is, parts_are, state_of};
ghost use Rattle.formula.specs.Tree.{form, forms_of};
ghost use Rattle.std.specs.List.{slice_get};
ghost use Rattle.std.specs.Option.{option_map};
ghost use Rattle.std.specs.Prelude.{◌≡◌, ◌+◌, ℤ, List, length, sum_by, IfOk};

use crate::formula_prices::{
    copies_price, literal_price, open_price, puts_price, width, widths, widths_price, with_one,
};
use crate::state::{Definition, State};
use clause_proof::{Application, Factor, Line, Literal};
use formula::Core;
use linear_term::{Memory, Term};
use sqlite_items::{Items, at};
use std::alloc::Global;

/// The arguments of an application that the formula reads.
fn arguments_price(ws: &[u64], f: &Core) -> u64
    ensures { result ≡ capped (prices.arguments_price ws.now (form f.now)) }
{
    match f {
        Core::NotFun(_, ts, _) => puts_price(ws, ts.as_slice()),
        Core::And(_) => 0,
        Core::Or(_) => 0,
        Core::Forall(_) => 0,
        Core::Exists(_) => 0,
        Core::Eq(_) => 0,
        Core::Neq(_) => 0,
        Core::Geq(_) => 0,
        Core::Pred(_, _) => 0,
        Core::NotPred(_, _) => 0,
    }
}

/// The two members, if there are two.
#[tactic(auto, using(crate::proofs::Prices::two_ones))]
fn two(fs: &[Core]) -> Option<(&Core, &Core)>
    ensures { option_map pair_is result ≡ prices.two_forms (forms_of fs.now) }
{
    if fs.len() != 2 {
        return None;
    }
    match at(fs, 0) {
        None => None,
        Some(f) => match at(fs, 1) {
            None => None,
            Some(g) => Some((f, g)),
        },
    }
}

/// The two members of a disjunction.
fn two_members(f: &Core) -> Option<(&Core, &Core)>
    ensures { option_map pair_is result ≡ prices.two_members (form f.now) }
{
    match f {
        Core::Or(fs) => two(fs.as_slice()),
        Core::And(_) => None,
        Core::Forall(_) => None,
        Core::Exists(_) => None,
        Core::Eq(_) => None,
        Core::Neq(_) => None,
        Core::Geq(_) => None,
        Core::Pred(_, _) => None,
        Core::NotPred(_, _) => None,
        Core::NotFun(_, _, _) => None,
    }
}

/// The two members of a disjunction under a for-all.
fn reading(f: &Core) -> Option<(&Core, &Core)>
    ensures { option_map pair_is result ≡ prices.reading_of (form f.now) }
{
    match f {
        Core::Forall(g) => two_members(g.get()),
        Core::And(_) => None,
        Core::Or(_) => None,
        Core::Exists(_) => None,
        Core::Eq(_) => None,
        Core::Neq(_) => None,
        Core::Geq(_) => None,
        Core::Pred(_, _) => None,
        Core::NotPred(_, _) => None,
        Core::NotFun(_, _, _) => None,
    }
}

/// A closure that reads as many applications as there are numbers.
#[tactic(auto, using(crate::proofs::Prices::reads))]
fn read_price(mut ws: Items<u64>, bs: &[u32], f: &Core) -> Result<u64, Memory>
    ensures { IfOk result (λ n. n ≡ capped (prices.read_price ws bs.now (form f.now))) }
{
    let mut total: u64 = 0;
    let mut rest = f;
    for _ in bs {
        match reading(rest) {
            None => return Ok(total),
            Some((first, second)) => {
                let copies = with_one(widths_price(ws.as_slice()));
                let arguments = arguments_price(ws.as_slice(), first);
                total = total.saturating_add(copies.saturating_add(arguments));
                ws.push(1)?;
                rest = second;
            }
        }
    }
    Ok(total.saturating_add(literal_price(ws.as_slice(), rest)))
}

/// The body of a for-some.
fn body(f: &Core) -> Option<&Core>
    ensures { option_map form_is result ≡ body_at (form f.now) }
{
    match f {
        Core::Exists(g) => Some(g.get()),
        Core::And(_) => None,
        Core::Or(_) => None,
        Core::Forall(_) => None,
        Core::Eq(_) => None,
        Core::Neq(_) => None,
        Core::Geq(_) => None,
        Core::Pred(_, _) => None,
        Core::NotPred(_, _) => None,
        Core::NotFun(_, _, _) => None,
    }
}

/// An instance of a closure at the terms.
#[tactic(auto, using(crate::proofs::Prices::instances))]
fn instance_price(mut ws: Items<u64>, us: &[Term], f: &Core) -> Result<u64, Memory>
    ensures { IfOk result (λ n. n ≡ capped (prices.instance_price ws us.now (form f.now))) }
{
    let mut total: u64 = 0;
    let mut rest = f;
    for u in us {
        let Some(inner) = body(rest) else {
            return Ok(total);
        };
        let copies = with_one(width(u)).saturating_add(widths_price(ws.as_slice()));
        total = total.saturating_add(copies);
        ws.push(width(u))?;
        rest = inner;
    }
    Ok(total.saturating_add(literal_price(ws.as_slice(), rest)))
}

/// The formula and the terms of a closure.
fn parts<'a>(d: &'a Definition<'a>) -> Option<(&'a Core, &'a [Term])>
    ensures { option_map parts_are result ≡ prices.closure_parts (definition_of d.now) }
{
    match d {
        Definition::Closure(f, ts) => Some((*f, ts.get().as_slice())),
        Definition::Always => None,
        Definition::AtLeastZero(_) => None,
        Definition::IsZero(_) => None,
        Definition::Predicate(_, _) => None,
    }
}

/// The formula and the terms of variable number i.
#[tactic(auto, using(crate::proofs::Prices::found))]
fn closure_at<'a>(definitions: &'a [Definition<'a>], i: u32) -> Option<(&'a Core, &'a [Term])>
    ensures { option_map parts_are result ≡ prices.found_parts (slice_get (definitions_of definitions.now) i) }
{
    match at(definitions, i as usize) {
        None => None,
        Some(d) => parts(d),
    }
}

/// What a closure is opened to.
fn opened(alloc: Global, x: Option<(&Core, &[Term])>) -> Result<u64, Memory>
    ensures { IfOk result (λ n. n ≡ capped (prices.priced (option_map parts_are x.entry) (λ p. prices.open_price (prices.widths p.1) p.0))) }
{
    match x {
        None => Ok(0),
        Some((f, ts)) => open_price(widths(alloc, ts)?, f),
    }
}

/// What a closure leaves where it reads applications.
fn read(alloc: Global, x: Option<(&Core, &[Term])>, bs: &[u32]) -> Result<u64, Memory>
    ensures { IfOk result (λ n. n ≡ capped (prices.priced (option_map parts_are x.entry) (λ p. prices.read_price (prices.widths p.1) bs.now p.0))) }
{
    match x {
        None => Ok(0),
        Some((f, ts)) => read_price(widths(alloc, ts)?, bs, f),
    }
}

/// An instance of a closure at the terms.
fn instance(alloc: Global, x: Option<(&Core, &[Term])>, us: &[Term]) -> Result<u64, Memory>
    ensures { IfOk result (λ n. n ≡ capped (prices.priced (option_map parts_are x.entry) (λ p. prices.instance_price (prices.widths p.1) us.now p.0))) }
{
    match x {
        None => Ok(0),
        Some((f, ts)) => instance_price(widths(alloc, ts)?, us, f),
    }
}

/// The terms of an atom.
fn definition_price(d: &Definition) -> u64
    ensures { result ≡ capped (prices.definition_price (definition_of d.now)) }
{
    match d {
        Definition::AtLeastZero(t) => with_one(width(t)),
        Definition::IsZero(t) => with_one(width(t)),
        Definition::Predicate(_, ts) => copies_price(ts.as_slice()),
        Definition::Always => 0,
        Definition::Closure(_, _) => 0,
    }
}

/// The terms of variable number i.
#[tactic(auto, using(crate::proofs::Prices::found))]
fn terms_price(definitions: &[Definition], i: u32) -> u64
    ensures { result ≡ capped (prices.priced (slice_get (definitions_of definitions.now) i) prices.definition_price) }
{
    match at(definitions, i as usize) {
        None => 0,
        Some(d) => definition_price(d),
    }
}

/// The terms of the literals of a sum.
#[tactic(auto, using(crate::proofs::Prices::pricing))]
fn facts_price(definitions: &[Definition], factors: &[Factor]) -> u64
    ensures { result ≡ capped (prices.facts_price (definitions_of definitions.now) factors.now) }
{
    let mut total: u64 = 0;
    for x in factors {
        total = total.saturating_add(terms_price(definitions, x.literal.variable));
    }
    with_one(total)
}

/// The terms of application number i.
#[tactic(auto, using(crate::proofs::Prices::found))]
fn application_price(applications: &[Application], i: u32) -> u64
    ensures { result ≡ capped (prices.priced (slice_get applications.now i) prices.application_price) }
{
    match at(applications, i as usize) {
        None => 0,
        Some(x) => copies_price(x.terms.as_slice()),
    }
}

/// The literals of a clause; none where it is deleted.
fn clause_price(clause: &Option<Items<Literal>>) -> u64
    ensures { result ≡ prices.clause_price clause.now }
{
    match clause {
        None => 0,
        Some(literals) => literals.len() as u64,
    }
}

/// The literals of clause number h.
#[tactic(auto, using(crate::proofs::Prices::found))]
fn clause_price_at(clauses: &[Option<Items<Literal>>], h: u32) -> u64
    ensures { result ≡ prices.priced (slice_get clauses.now h) prices.clause_price }
{
    match at(clauses, h as usize) {
        None => 0,
        Some(clause) => clause_price(clause),
    }
}

/// The clauses named by a resolution.
#[tactic(auto, using(crate::proofs::Prices::pricing))]
fn hints_price(clauses: &[Option<Items<Literal>>], hints: &[u32]) -> u64
    ensures { result ≡ capped (prices.hints_price clauses.now hints.now) }
{
    let mut total: u64 = 0;
    for h in hints {
        total = total.saturating_add(with_one(clause_price_at(clauses, *h)));
    }
    total
}

/// What the line says, without the line itself.
#[tactic(auto, using(crate::proofs::Prices::adding))]
fn content_price(alloc: Global, state: &State, line: &Line) -> Result<u64, Memory>
    ensures { IfOk result (λ n. n ≡ capped (prices.content_price (state_of state.now) line.now)) }
{
    let definitions = state.definitions.as_slice();
    match line {
        Line::Open(i, ms) => {
            let made = opened(alloc, closure_at(definitions, *i))?;
            Ok((ms.len() as u64).saturating_add(made))
        }
        Line::Apply(_, ts) => Ok(copies_price(ts.as_slice())),
        Line::Read(i, bs, _) => read(alloc, closure_at(definitions, *i), bs.as_slice()),
        Line::Instance(i, us, _) => instance(alloc, closure_at(definitions, *i), us.as_slice()),
        Line::Inequality(t) => Ok(width(t)),
        Line::Equation(t) => Ok(width(t)),
        Line::Predicate(_, ts) => Ok(copies_price(ts.as_slice())),
        Line::Split(i, _, _) => Ok(terms_price(definitions, *i)),
        Line::Sum(xs) => {
            let facts = facts_price(definitions, xs.as_slice());
            Ok((xs.len() as u64).saturating_mul(facts))
        }
        Line::Pair(a, b, es, _) => {
            let applications = state.applications.as_slice();
            let first = (es.len() as u64).saturating_add(application_price(applications, *a));
            Ok(first.saturating_add(application_price(applications, *b)))
        }
        Line::PredicatePair(i, j, es) => {
            let first = (es.len() as u64).saturating_add(terms_price(definitions, *i));
            Ok(first.saturating_add(terms_price(definitions, *j)))
        }
        Line::Divide(_, t, _, _) => Ok(width(t)),
        Line::Resolve(clause, hints) => {
            let named = hints_price(state.clauses.as_slice(), hints.as_slice());
            Ok((clause.len() as u64).saturating_add(named))
        }
        Line::Delete(hints) => Ok(hints.len() as u64),
    }
}

/// What the check of the line charges.
pub(crate) fn line_price(alloc: Global, state: &State, line: &Line) -> Result<u64, Memory>
    ensures { IfOk result (λ n. n ≡ prices.price (state_of state.now) line.now) }
{
    Ok(with_one(content_price(alloc, state, line)?))
}

/// What the check of the start charges.
#[tactic(auto, using(crate::proofs::Prices::starting))]
pub(crate) fn root_price(alloc: Global, root: &Core, ks: &[i128]) -> Result<u64, Memory>
    ensures { IfOk result (λ n. n ≡ prices.start_price (form root.now) ks.now) }
{
    let mut ws = Items::new(alloc);
    for _ in ks {
        ws.push(0)?;
    }
    let literal = literal_price(ws.as_slice(), root);
    Ok(with_one((ks.len() as u64).saturating_add(literal)))
}
