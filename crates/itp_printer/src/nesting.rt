// How many quantifiers of a formula stand one inside the other.

ghost use Rattle.std.specs.Prelude.{◌≡◌, ◌+◌, IfOk};
ghost use Rattle.form_typed.specs.Formula.{expression, expressions_of, formula, formulas_of};
ghost use Rattle.itp_printer.specs.Numbers as numbers;

use form_typed::{Typed, TypedTerm};
use linear_term::Memory;

/// The next number. No memory holds a formula with so many quantifiers that there is none.
fn one_more(k: u32) -> Result<u32, Memory>
    ensures { IfOk result (λ n. n ≡ k + 1) }
{
    k.checked_add(1).ok_or(Memory)
}

/// The most quantifiers of a formula that stand one inside the other.
#[cycle(nesting)]
pub(crate) fn nesting_of(f: &Typed) -> Result<u32, Memory>
    ensures { IfOk result (λ k. k ≡ numbers.nesting (formula f.now)) }
{
    match f {
        Typed::Truth(_) => Ok(0),
        Typed::Rel(_, s, t) => Ok(term_nesting(s)?.max(term_nesting(t)?)),
        Typed::Pred(_, ts) => terms_nesting(ts.as_slice()),
        Typed::Not(g) => nesting_of(g.get()),
        Typed::And(fs) => all_nesting(fs.as_slice()),
        Typed::Or(fs) => all_nesting(fs.as_slice()),
        Typed::Implies(g, h) => Ok(nesting_of(g.get())?.max(nesting_of(h.get())?)),
        Typed::Iff(g, h) => Ok(nesting_of(g.get())?.max(nesting_of(h.get())?)),
        Typed::Forall(_, g) => one_more(nesting_of(g.get())?),
        Typed::Exists(_, g) => one_more(nesting_of(g.get())?),
        Typed::Part(_, g) => nesting_of(g.get()),
    }
}

/// The most of several formulas.
#[cycle(nesting)]
fn all_nesting(formulas: &[Typed]) -> Result<u32, Memory>
    ensures { IfOk result (λ k. k ≡ numbers.all_nesting (formulas_of formulas.now)) }
{
    let mut most = 0;
    for f in formulas {
        let one = nesting_of(f)?;
        most = most.max(one);
    }
    Ok(most)
}

/// The most of a term.
#[cycle(nesting)]
fn term_nesting(term: &TypedTerm) -> Result<u32, Memory>
    ensures { IfOk result (λ k. k ≡ numbers.term_nesting (expression term.now)) }
{
    match term {
        TypedTerm::Number(_) => Ok(0),
        TypedTerm::Name(_) => Ok(0),
        TypedTerm::Apply(_, ts) => terms_nesting(ts.as_slice()),
        TypedTerm::Minus(t) => term_nesting(t.get()),
        TypedTerm::Sum(ts) => terms_nesting(ts.as_slice()),
        TypedTerm::Product(s, t) => Ok(term_nesting(s.get())?.max(term_nesting(t.get())?)),
        TypedTerm::If(f, s, t) => {
            let sides = term_nesting(s.get())?.max(term_nesting(t.get())?);
            Ok(nesting_of(f.get())?.max(sides))
        }
        TypedTerm::Abs(t) => term_nesting(t.get()),
        TypedTerm::Min(s, t) => Ok(term_nesting(s.get())?.max(term_nesting(t.get())?)),
        TypedTerm::Max(s, t) => Ok(term_nesting(s.get())?.max(term_nesting(t.get())?)),
    }
}

/// The most of several terms.
#[cycle(nesting)]
fn terms_nesting(terms: &[TypedTerm]) -> Result<u32, Memory>
    ensures { IfOk result (λ k. k ≡ numbers.terms_nesting (expressions_of terms.now)) }
{
    let mut most = 0;
    for t in terms {
        let one = term_nesting(t)?;
        most = most.max(one);
    }
    Ok(most)
}
