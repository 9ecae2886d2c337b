// The kernels: each answers how many monomials it wrote in all, or how many steps an elimination charged.

ghost use Rattle.clause_set.specs.Literals.{HasDivisor};
ghost use Rattle.std.specs.Prelude.{All, IfOk};

use super::eliminations::{Whole, eliminations};
use base_budget::{Purse, StepFault};
use clause_set::{Clause, Dnf, Literal, and, copy_literals};
use linear_term::Term;
use omega_elim::{is_bounded, project};
use sqlite_items::Items;
use std::alloc::Global;

/// What is timed.
#[derive(Clone, Copy, Debug, PartialEq, Eq)]
pub enum Kernel {
    /// 2·s + 3·t of two terms with this many monomials each, of which all but one have the same name.
    Combine(u16),
    /// The conjunction of a normal form of this many clauses with one of two clauses.
    And(u16),
    /// Putting this many clauses into a normal form.
    Tidy(u16),
    /// The shadow of this many lower and as many upper bounds of a name, over 8 names.
    Shadow(u16),
    /// The clause of the literals of two clauses with this many each, which are in form.
    Join(u16),
    /// The elimination of this many names.
    Eliminate(Whole, u16),
}

/// Runs a kernel this many times.
pub fn run(alloc: Global, kernel: Kernel, times: u32) -> Result<u64, StepFault> {
    match kernel {
        Kernel::Combine(size) => combine(alloc, size, times),
        Kernel::And(size) => conjoin(alloc, size, times),
        Kernel::Tidy(size) => tidy(alloc, size, times),
        Kernel::Shadow(size) => shadow(alloc, size, times),
        Kernel::Join(size) => join(alloc, size, times),
        Kernel::Eliminate(whole, names) => eliminations(alloc, whole, names, times),
    }
}

/// A term of this many monomials with rising names from `first` on.
fn wide(alloc: Global, first: u16, size: u16) -> Result<Term, StepFault> {
    let mut term = Term::number(alloc, 1);
    for i in 0..size {
        let name = Term::name(alloc, u32::from(first) + u32::from(i));
        term = Term::combine(1, &term, 3, &name)?;
    }
    Ok(term)
}

fn combine(alloc: Global, size: u16, times: u32) -> Result<u64, StepFault> {
    let s = wide(alloc, 0, size)?;
    let t = wide(alloc, 1, size)?;
    let mut written: u64 = 0;
    for _ in 0..times {
        let sum = Term::combine(2, &s, 3, &t)?;
        written = written.saturating_add(sum.len() as u64);
    }
    Ok(written)
}

/// The clause x_i ≥ i, x_(i + 1) ≥ x_i.
fn clause(alloc: Global, i: u16) -> Result<Option<Clause>, StepFault> {
    let x = Term::name(alloc, u32::from(i));
    let next = Term::name(alloc, u32::from(i) + 1);
    let bound = Term::combine(1, &x, -1, &Term::number(alloc, i128::from(i)))?;
    let order = Term::combine(1, &next, -1, &x)?;
    let mut literals = Items::new(alloc);
    literals.push(Literal::Geq(bound))?;
    literals.push(Literal::Geq(order))?;
    Ok(Clause::of(alloc, literals)?)
}

/// This many clauses, each with two literals of its own.
fn clauses(alloc: Global, size: u16) -> Result<Items<Clause>, StepFault> {
    let mut all = Items::new(alloc);
    for i in 0..size {
        if let Some(clause) = clause(alloc, i)? {
            all.push(clause)?;
        }
    }
    Ok(all)
}

/// The monomials of a normal form.
fn monomials(d: &Dnf) -> u64 {
    clause_monomials(d.clauses())
}

fn clause_monomials(clauses: &[Clause]) -> u64 {
    let mut count: u64 = 0;
    for clause in clauses {
        count = count.saturating_add(literal_monomials(clause.literals()));
    }
    count
}

fn literal_monomials(literals: &[Literal]) -> u64 {
    let mut count: u64 = 0;
    for literal in literals {
        count = count.saturating_add(literal.term().len() as u64);
    }
    count
}

fn conjoin(alloc: Global, size: u16, times: u32) -> Result<u64, StepFault> {
    let mut purse = Purse::new(u64::MAX);
    let many = Dnf::tidy(alloc, clauses(alloc, size)?, &mut purse)?;
    let two = Dnf::tidy(alloc, clauses(alloc, 2)?, &mut purse)?;
    let mut written: u64 = 0;
    for _ in 0..times {
        let both = and(alloc, &many, &two, &mut purse)?;
        written = written.saturating_add(monomials(&both));
    }
    Ok(written)
}

fn tidy(alloc: Global, size: u16, times: u32) -> Result<u64, StepFault> {
    let mut purse = Purse::new(u64::MAX);
    let mut written: u64 = 0;
    for _ in 0..times {
        let tidied = Dnf::tidy(alloc, clauses(alloc, size)?, &mut purse)?;
        written = written.saturating_add(monomials(&tidied));
    }
    Ok(written)
}

/// a·x_0 + x_1 + .. + x_7 + i·x_own ≥ 0.
fn bound(alloc: Global, a: i8, own: u32, i: u16) -> Result<Literal, StepFault>
    ensures { IfOk result HasDivisor }
{
    let first = Term::name(alloc, 0);
    let mut term = Term::combine(
        i128::from(a),
        &first,
        i128::from(i),
        &Term::name(alloc, own),
    )?;
    for name in 1..8 {
        term = Term::combine(1, &term, 1, &Term::name(alloc, name))?;
    }
    Ok(Literal::Geq(term))
}

/// This many lower bounds and as many upper bounds of x_0.
#[tactic(auto, using(elim_rules::proofs::Results::pushing))]
fn bounds(alloc: Global, size: u16) -> Result<Items<Literal>, StepFault>
    ensures { IfOk result (λ ls. All HasDivisor ls) }
{
    let mut out = Items::new(alloc);
    for i in 0..size {
        out.push(bound(alloc, 1, 1, i)?)?;
        out.push(bound(alloc, -2, 2, i)?)?;
    }
    Ok(out)
}

fn shadow(alloc: Global, size: u16, times: u32) -> Result<u64, StepFault> {
    let mut written: u64 = 0;
    let Some(c) = Clause::of(alloc, bounds(alloc, size)?)? else {
        return Ok(written);
    };
    if !is_bounded(&c, 0) {
        return Ok(written);
    }
    let mut purse = Purse::new(u64::MAX);
    for _ in 0..times {
        let (_, found) = project(alloc, &c, 0, &mut purse)?;
        written = written.saturating_add(clause_monomials(found.as_slice()));
    }
    Ok(written)
}

/// x_i + 3·x_(i + 1) + 1 ≥ 0.
fn joint(alloc: Global, i: u32) -> Result<Literal, StepFault>
    ensures { IfOk result HasDivisor }
{
    let next = Term::name(alloc, i.saturating_add(1));
    let sum = Term::combine(1, &Term::name(alloc, i), 3, &next)?;
    let term = Term::combine(1, &sum, 1, &Term::number(alloc, 1))?;
    Ok(Literal::Geq(term))
}

/// This many literals, of every other name from `first` on.
#[tactic(auto, using(elim_rules::proofs::Results::pushing))]
fn joints(alloc: Global, first: u32, size: u16) -> Result<Items<Literal>, StepFault>
    ensures { IfOk result (λ ls. All HasDivisor ls) }
{
    let mut out = Items::new(alloc);
    for i in 0..size {
        let place = u32::from(i).saturating_mul(2);
        out.push(joint(alloc, first.saturating_add(place))?)?;
    }
    Ok(out)
}

fn joined(alloc: Global, c: &Clause, d: &Clause) -> Result<u64, StepFault> {
    c.know_clause();
    d.know_clause();
    let mut literals = copy_literals(alloc, c.literals())?;
    literals.append(copy_literals(alloc, d.literals())?)?;
    match Clause::of(alloc, literals)? {
        Some(both) => Ok(literal_monomials(both.literals())),
        None => Ok(0),
    }
}

fn join(alloc: Global, size: u16, times: u32) -> Result<u64, StepFault> {
    let mut written: u64 = 0;
    let Some(even) = Clause::of(alloc, joints(alloc, 0, size)?)? else {
        return Ok(written);
    };
    let Some(odd) = Clause::of(alloc, joints(alloc, 1, size)?)? else {
        return Ok(written);
    };
    for _ in 0..times {
        written = written.saturating_add(joined(alloc, &even, &odd)?);
    }
    Ok(written)
}
