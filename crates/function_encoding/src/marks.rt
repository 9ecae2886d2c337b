// The names that stand in formulas, by marks.

ghost use Rattle.std.specs.Prelude.{◌≡◌, true, false, nat_eq, IfOk, replicate};
ghost use Rattle.std.specs.List.{list_any};
ghost use Rattle.form_typed.specs.Formula.{expression, expressions_of, formula, formulas_of};
ghost use Rattle.pri_typing.specs.Problems.{assumed_by};
ghost use Rattle.pri_typing.specs.WellFormed.{IsWellFormed, all_formula_components, formula_components};
ghost use Rattle.form_encoding.specs.Problems.{constants};
ghost use Rattle.function_encoding.specs.Marks as names;
ghost use Rattle.form_encoding.specs.Occurrences.{names_in, names_in_all, names_in_term, names_in_terms};
ghost use Rattle.function_encoding.specs.Marks.{AreMarks, marked, names_of_parts};

use form_typed::{Typed, TypedTerm};
use pri_typing::Problem;
use std::alloc::{AllocError, Global};

/// Marks the names in a formula.
#[cycle(marks)]
#[tactic(auto, using(crate::proofs::Marking::marking))]
fn mark_formula(f: &Typed, marks: &mut [bool])
    ensures { marks.new ≡ marked marks.old (names_in (formula f.now)) }
{
    match f {
        Typed::Truth(_) => {}
        Typed::Rel(_, s, t) => {
            mark_term(s, marks);
            mark_term(t, marks);
        }
        Typed::Pred(_, ts) => mark_terms(ts.as_slice(), marks),
        Typed::Not(g) => mark_formula(g.get(), marks),
        Typed::And(fs) => mark_formulas(fs.as_slice(), marks),
        Typed::Or(fs) => mark_formulas(fs.as_slice(), marks),
        Typed::Implies(g, h) => {
            mark_formula(g.get(), marks);
            mark_formula(h.get(), marks);
        }
        Typed::Iff(g, h) => {
            mark_formula(g.get(), marks);
            mark_formula(h.get(), marks);
        }
        Typed::Forall(_, g) => mark_formula(g.get(), marks),
        Typed::Exists(_, g) => mark_formula(g.get(), marks),
        Typed::Part(_, g) => mark_formula(g.get(), marks),
    }
}

#[cycle(marks)]
#[tactic(auto, using(crate::proofs::Marking::marking))]
fn mark_formulas(formulas: &[Typed], marks: &mut [bool])
    ensures { marks.new ≡ marked marks.old (names_in_all (formulas_of formulas.now)) }
{
    for f in formulas {
        mark_formula(f, marks);
    }
}

/// Marks the names in a term.
#[cycle(marks)]
#[tactic(auto, using(crate::proofs::Marking::marking))]
fn mark_term(t: &TypedTerm, marks: &mut [bool])
    ensures { marks.new ≡ marked marks.old (names_in_term (expression t.now)) }
{
    match t {
        TypedTerm::Number(_) => {}
        TypedTerm::Name(x) => mark_name(*x, marks),
        TypedTerm::Apply(_, ts) => mark_terms(ts.as_slice(), marks),
        TypedTerm::Minus(s) => mark_term(s.get(), marks),
        TypedTerm::Sum(ts) => mark_terms(ts.as_slice(), marks),
        TypedTerm::Product(s, u) => {
            mark_term(s.get(), marks);
            mark_term(u.get(), marks);
        }
        TypedTerm::If(f, s, u) => {
            mark_formula(f.get(), marks);
            mark_term(s.get(), marks);
            mark_term(u.get(), marks);
        }
        TypedTerm::Abs(s) => mark_term(s.get(), marks),
        TypedTerm::Min(s, u) => {
            mark_term(s.get(), marks);
            mark_term(u.get(), marks);
        }
        TypedTerm::Max(s, u) => {
            mark_term(s.get(), marks);
            mark_term(u.get(), marks);
        }
    }
}

#[cycle(marks)]
#[tactic(auto, using(crate::proofs::Marking::marking))]
fn mark_terms(terms: &[TypedTerm], marks: &mut [bool])
    ensures { marks.new ≡ marked marks.old (names_in_terms (expressions_of terms.now)) }
{
    for t in terms {
        mark_term(t, marks);
    }
}

/// Marks a name; one without a mark, as that of a bound variable, is passed over.
fn mark_name(x: u32, marks: &mut [bool])
    ensures { marks.new ≡ names.with_mark marks.old x }
{
    if (x as usize) < marks.len() {
        marks[x as usize] = true;
    }
}

/// Whether the number is one of the set.
fn contains(set: &[u32], k: u32) -> bool
    ensures { result ≡ list_any (nat_eq k) set.now }
{
    set.iter().any(|x| k == *x)
}

/// Marks the names in those components of a formula, which stands with this sign, that are parts of the set.
#[cycle(side)]
#[tactic(auto, using(crate::proofs::Marking::parting))]
fn mark_parts(plus: bool, f: &Typed, set: &[u32], marks: &mut [bool])
    ensures { marks.new ≡ marked marks.old (names_of_parts set.now (formula_components plus (formula f.now))) }
{
    match f {
        Typed::Not(g) => mark_parts(!plus, g.get(), set, marks),
        Typed::Implies(g, h) => {
            if plus {
                mark_parts(false, g.get(), set, marks);
                mark_parts(true, h.get(), set, marks);
            }
        }
        Typed::Or(fs) => {
            if plus {
                mark_all_parts(true, fs.as_slice(), set, marks);
            }
        }
        Typed::And(fs) => {
            if !plus {
                mark_all_parts(false, fs.as_slice(), set, marks);
            }
        }
        Typed::Part(k, g) => {
            if contains(set, *k) {
                mark_formula(g.get(), marks);
            }
        }
        Typed::Truth(_) => {}
        Typed::Rel(_, _, _) => {}
        Typed::Pred(_, _) => {}
        Typed::Iff(_, _) => {}
        Typed::Forall(_, _) => {}
        Typed::Exists(_, _) => {}
    }
}

#[cycle(side)]
#[tactic(auto, using(crate::proofs::Marking::parting))]
fn mark_all_parts(plus: bool, formulas: &[Typed], set: &[u32], marks: &mut [bool])
    ensures { marks.new ≡ marked marks.old (names_of_parts set.now (all_formula_components plus (formulas_of formulas.now))) }
{
    for f in formulas {
        mark_parts(plus, f, set, marks);
    }
}

/// This many marks, none of them set.
fn no_marks(alloc: Global, n: usize) -> Result<Vec<bool>, AllocError>
    ensures { IfOk result (λ marks. marks.items ≡ replicate n false) }
{
    vec![in alloc; false; n]
}

/// A mark for each constant of the problem, set where it occurs in what the parts of the set assume.
pub fn marks_of(alloc: Global, p: &Problem, set: &[u32]) -> Result<Vec<bool>, AllocError>
    requires { IsWellFormed p.now }
    ensures { IfOk result (λ marks. AreMarks (constants p.now) (assumed_by p.now set.now) marks.items) }
{
    let mut marks = no_marks(alloc, p.existentials.len() + p.universals.len())?;
    mark_parts(true, &p.formula, set, &mut marks);
    Ok(marks)
}
