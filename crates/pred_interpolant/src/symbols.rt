// The predicates and functions of a formula, by marks, and how those of two formulas stand to each other.

ghost use Rattle.std.specs.Prelude.{◌≡◌, ◌↔◌, ◌+◌, ◌*◌, cond, true, false, IfOk, IsTrue, replicate, length};
ghost use Rattle.form_typed.specs.Formula.{expression, expressions_of, formula, formulas_of};
ghost use Rattle.pri_typing.specs.WellFormed.{IsWellFormed};
ghost use Rattle.function_encoding.specs.Marks.{with_mark};
ghost use Rattle.itp_sides.specs.Sides.{case_between};
ghost use Rattle.itp_sides.specs.Symbols.{symbols_in, symbols_in_all, symbols_in_term, symbols_in_terms};
ghost use Rattle.pred_interpolant.specs.Fit.{IsFitFormula};
ghost use Rattle.pred_interpolant.specs.Marks.{AreSymbolMarks, AreUnset, AreMarkedWithin, case_chosen, noted, symbol_place};

use form_typed::{Typed, TypedTerm};
use pri_typing::Problem;
use std::alloc::{AllocError, Global};

/// Marks the symbols in a formula.
#[cycle(marks)]
#[tactic(auto, using(crate::proofs::Marking::marking))]
fn mark_formula(f: &Typed, marks: &mut [bool])
    ensures { marks.new ≡ noted marks.old (symbols_in (formula f.now)) }
{
    match f {
        Typed::Truth(_) => {}
        Typed::Rel(_, s, t) => {
            mark_term(s, marks);
            mark_term(t, marks);
        }
        Typed::Pred(k, ts) => {
            mark_symbol(true, *k, marks);
            mark_terms(ts.as_slice(), marks);
        }
        Typed::Not(g) => mark_formula(g.get(), marks),
        Typed::And(fs) => mark_formulas(fs.as_slice(), marks),
        Typed::Or(fs) => mark_formulas(fs.as_slice(), marks),
        Typed::Implies(g, h) => {
            mark_formula(g.get(), marks);
            mark_formula(h.get(), marks);
        }
        Typed::Iff(g, h) => {
            mark_formula(g.get(), marks);
            mark_formula(h.get(), marks);
        }
        Typed::Forall(_, g) => mark_formula(g.get(), marks),
        Typed::Exists(_, g) => mark_formula(g.get(), marks),
        Typed::Part(_, g) => mark_formula(g.get(), marks),
    }
}

#[cycle(marks)]
#[tactic(auto, using(crate::proofs::Marking::marking))]
fn mark_formulas(formulas: &[Typed], marks: &mut [bool])
    ensures { marks.new ≡ noted marks.old (symbols_in_all (formulas_of formulas.now)) }
{
    for f in formulas {
        mark_formula(f, marks);
    }
}

/// Marks the symbols in a term.
#[cycle(marks)]
#[tactic(auto, using(crate::proofs::Marking::marking))]
fn mark_term(t: &TypedTerm, marks: &mut [bool])
    ensures { marks.new ≡ noted marks.old (symbols_in_term (expression t.now)) }
{
    match t {
        TypedTerm::Number(_) => {}
        TypedTerm::Name(_) => {}
        TypedTerm::Apply(k, ts) => {
            mark_symbol(false, *k, marks);
            mark_terms(ts.as_slice(), marks);
        }
        TypedTerm::Minus(s) => mark_term(s.get(), marks),
        TypedTerm::Sum(ts) => mark_terms(ts.as_slice(), marks),
        TypedTerm::Product(s, u) => {
            mark_term(s.get(), marks);
            mark_term(u.get(), marks);
        }
        TypedTerm::If(f, s, u) => {
            mark_formula(f.get(), marks);
            mark_term(s.get(), marks);
            mark_term(u.get(), marks);
        }
        TypedTerm::Abs(s) => mark_term(s.get(), marks),
        TypedTerm::Min(s, u) => {
            mark_term(s.get(), marks);
            mark_term(u.get(), marks);
        }
        TypedTerm::Max(s, u) => {
            mark_term(s.get(), marks);
            mark_term(u.get(), marks);
        }
    }
}

#[cycle(marks)]
#[tactic(auto, using(crate::proofs::Marking::marking))]
fn mark_terms(terms: &[TypedTerm], marks: &mut [bool])
    ensures { marks.new ≡ noted marks.old (symbols_in_terms (expressions_of terms.now)) }
{
    for t in terms {
        mark_term(t, marks);
    }
}

/// Marks a symbol; one without a mark is passed over.
fn mark_symbol(predicate: bool, k: u32, marks: &mut [bool])
    ensures { marks.new ≡ with_mark marks.old (symbol_place (predicate, k)) }
{
    let place = if predicate {
        2 * (k as usize)
    } else {
        2 * (k as usize) + 1
    };
    if place < marks.len() {
        marks[place] = true;
    }
}

/// This many marks, none of them set.
fn no_marks(alloc: Global, n: usize) -> Result<Vec<bool>, AllocError>
    ensures { IfOk result (λ marks. marks.items ≡ replicate n false) }
{
    vec![in alloc; false; n]
}

/// A mark for each symbol of the problem, set where it stands in the formula.
fn symbols_of(alloc: Global, p: &Problem, f: &Typed) -> Result<Vec<bool>, AllocError>
    requires { IsWellFormed p.now }
    ensures { IfOk result (λ marks. AreSymbolMarks p.now (formula f.now) marks.items) }
{
    let mut marks = no_marks(alloc, 2 * (p.predicates.len() + p.functions.len()))?;
    mark_formula(f, &mut marks);
    Ok(marks)
}

/// Whether no mark is set.
fn are_unset(marks: &[bool]) -> bool
    ensures { IsTrue result ↔ AreUnset marks.now }
{
    for i in 0..marks.len() {
        if marks[i] {
            return false;
        }
    }
    true
}

/// Whether each mark of the first list is one of the second.
fn are_within(first: &[bool], second: &[bool]) -> bool
    requires { length second.now ≡ length first.now }
    ensures { IsTrue result ↔ AreMarkedWithin first.now second.now }
{
    for i in 0..first.len() {
        if first[i] && !second[i] {
            return false;
        }
    }
    true
}

/// Which formula stands between two others.
#[derive(Clone, Copy, Debug, PartialEq, Eq)]
pub enum Choice {
    /// The first has no symbol: a normal form.
    Arithmetic,
    /// All symbols of the first stand in the second: the first.
    First,
    /// All symbols of the second stand in the first: the negation of the second.
    Second,
    Neither,
}

/// Which formula stands between two others over the symbols of the problem.
pub fn choose(
    alloc: Global,
    p: &Problem,
    first: &Typed,
    second: &Typed,
) -> Result<Choice, AllocError>
    requires formed { IsWellFormed p.now }
    requires first { IsFitFormula p.now (formula first.now) }
    requires second { IsFitFormula p.now (formula second.now) }
    ensures { IfOk result (λ c. case_chosen c ≡ case_between (formula first.now) (formula second.now)) }
{
    let own = symbols_of(alloc, p, first)?;
    let others = symbols_of(alloc, p, second)?;
    if are_unset(&own) {
        Ok(Choice::Arithmetic)
    } else if are_within(&own, &others) {
        Ok(Choice::First)
    } else if are_within(&others, &own) {
        Ok(Choice::Second)
    } else {
        Ok(Choice::Neither)
    }
}
