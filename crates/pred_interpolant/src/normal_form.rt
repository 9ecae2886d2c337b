// A disjunctive normal form as a formula of the problem's language: the one that its text says.

ghost use Rattle.std.specs.Prelude.{◌≡◌, ◌++◌, IfOk, OnOk, All, map, cond, length, unsigned_abs, pos, [], ◌∷◌};
ghost use Rattle.std.specs.Ordering.{int_eq};
ghost use Rattle.form_typed.specs.Formula.{expression, formula};
ghost use Rattle.clause_set.specs.Literals.{HasDivisor};
ghost use Rattle.elim_laws.specs.Whole.{AreOver};
ghost use Rattle.linear_term.specs.Range.{InRange};
ghost use Rattle.pri_typing.specs.WellFormed.{IsWellFormed};
ghost use Rattle.pri_printer.specs.Formulas as forms;
ghost use Rattle.pri_printer.specs.Formulas.{clause_formula, divides_formula, first_value, later, later_part, literal_formula, normal_form_formula, sum_value, summand_value, term_value};
ghost use Rattle.pri_printer.specs.Printed.{dnf_formula};
ghost use Rattle.pri_printer.specs.Summands as summands;
ghost use Rattle.pri_printer.specs.Summands.{monomial};
ghost use Rattle.form_encoding.specs.Problems.{constants};
ghost use Rattle.pred_interpolant.specs.Fit.{IsFitFormula};

use clause_set::{Clause, Dnf, Literal};
use form_typed::{Relation, Sort, Typed, TypedTerm};
use linear_term::{Memory, Term};
use pri_printer::know_clauses;
use pri_typing::Problem;
use sqlite_items::{Boxed, Items};
use std::alloc::Global;

/// The absolute value of a coefficient.
fn absolute(k: i128) -> i128
    requires { InRange k }
    ensures { result ≡ pos (unsigned_abs k) }
{
    k.unsigned_abs() as i128
}

/// The absolute value of a number times a name; 1 times a name is the name.
fn product(alloc: Global, pair: &(u32, i128)) -> Result<TypedTerm, Memory>
    requires { InRange pair.now.1 }
    ensures { IfOk result (λ t. expression t ≡ summand_value (monomial pair.now).1) }
{
    let (x, k) = *pair;
    let n = absolute(k);
    if n == 1 {
        return Ok(TypedTerm::Name(x));
    }
    Ok(TypedTerm::Product(
        Boxed::new(alloc, TypedTerm::Number(n))?,
        Boxed::new(alloc, TypedTerm::Name(x))?,
    ))
}

/// The same less: minus stands with the number.
fn less_product(alloc: Global, pair: &(u32, i128)) -> Result<TypedTerm, Memory>
    requires { InRange pair.now.1 }
    ensures { IfOk result (λ t. expression t ≡ forms.less_summand (monomial pair.now).1) }
{
    let (x, k) = *pair;
    let n = absolute(k);
    if n == 1 {
        return Ok(TypedTerm::Minus(Boxed::new(alloc, TypedTerm::Name(x))?));
    }
    let number = Boxed::new(alloc, TypedTerm::Number(n))?;
    Ok(TypedTerm::Product(
        Boxed::new(alloc, TypedTerm::Minus(number))?,
        Boxed::new(alloc, TypedTerm::Name(x))?,
    ))
}

/// The first monomial of a sum.
fn first_term(alloc: Global, pair: &(u32, i128)) -> Result<TypedTerm, Memory>
    requires { InRange pair.now.1 }
    ensures { IfOk result (λ t. expression t ≡ first_value (monomial pair.now)) }
{
    if pair.1 < 0 {
        less_product(alloc, pair)
    } else {
        product(alloc, pair)
    }
}

/// A later monomial of a sum.
fn later_term(alloc: Global, pair: &(u32, i128)) -> Result<TypedTerm, Memory>
    requires { InRange pair.now.1 }
    ensures { IfOk result (λ t. expression t ≡ later (later_part (monomial pair.now))) }
{
    if pair.1 < 0 {
        Ok(TypedTerm::Minus(Boxed::new(alloc, product(alloc, pair)?)?))
    } else {
        product(alloc, pair)
    }
}

/// A number alone: minus and its absolute value where it is below 0.
fn alone(alloc: Global, k: i128) -> Result<TypedTerm, Memory>
    requires { InRange k }
    ensures { IfOk result (λ t. expression t ≡ first_value (summands.constant k)) }
{
    let size = absolute(k);
    if k < 0 {
        Ok(TypedTerm::Minus(Boxed::new(alloc, TypedTerm::Number(size))?))
    } else {
        Ok(TypedTerm::Number(size))
    }
}

/// Puts later monomials after others.
fn put_later(alloc: Global, pairs: &[(u32, i128)], out: &mut Items<TypedTerm>) -> Result<(), Memory>
    requires { All (λ pair. InRange pair.1) pairs.now }
    ensures { OnOk result (map expression out.new ≡ map expression out.old ++ map later (map later_part (map monomial pairs.now))) }
{
    for pair in pairs {
        out.push(later_term(alloc, pair)?)?;
    }
    Ok(())
}

/// Puts the number of a linear term after its monomials, if it is not 0.
fn put_constant(alloc: Global, k: i128, out: &mut Items<TypedTerm>) -> Result<(), Memory>
    requires { InRange k }
    ensures { OnOk result (map expression out.new ≡ map expression out.old ++ map later (map later_part (cond (int_eq k (pos 0)) [] (summands.constant k ∷ [])))) }
{
    if k != 0 {
        out.push(alone(alloc, k)?)?;
    }
    Ok(())
}

/// A monomial with others and a number as a sum; a sum of one member is that member.
fn sum_of(
    alloc: Global,
    first: &(u32, i128),
    more: &[(u32, i128)],
    k: i128,
) -> Result<TypedTerm, Memory>
    requires first { InRange first.now.1 }
    requires more { All (λ pair. InRange pair.1) more.now }
    requires constant { InRange k }
    ensures { IfOk result (λ u. expression u ≡ sum_value (summands.summands (first.now ∷ more.now) k)) }
{
    let mut rest = Items::new(alloc);
    put_later(alloc, more, &mut rest)?;
    put_constant(alloc, k, &mut rest)?;
    let head = first_term(alloc, first)?;
    if rest.is_empty() {
        return Ok(head);
    }
    let mut members = Items::new(alloc);
    members.push(head)?;
    members.append(rest)?;
    Ok(TypedTerm::Sum(members))
}

/// The numbers of a term are in the range: this call does nothing, and tells its caller so.
fn know_ranged(t: &Term)
    ensures pairs { All (λ pair. InRange pair.1) t.now.pairs }
    ensures constant { InRange t.now.constant }
{
    t.know_normal();
}

/// A linear term as a sum.
fn sum(alloc: Global, t: &Term) -> Result<TypedTerm, Memory>
    ensures { IfOk result (λ u. expression u ≡ term_value t.now) }
{
    know_ranged(t);
    let k = t.constant();
    match t.pairs().split_first() {
        Some((first, more)) => sum_of(alloc, first, more, k),
        None => alone(alloc, k),
    }
}

/// A term that is a divisor times some integer, which is the name n.
fn divided(alloc: Global, n: u32, d: i128, t: &Term) -> Result<Typed, Memory>
    requires { InRange d }
    ensures { IfOk result (λ f. formula f ≡ divides_formula n d t.now) }
{
    let divisor = Boxed::new(alloc, TypedTerm::Number(absolute(d)))?;
    let quotient = Boxed::new(alloc, TypedTerm::Name(n))?;
    let total = sum(alloc, t)?;
    let equal = Typed::Rel(Relation::Eq, total, TypedTerm::Product(divisor, quotient));
    Ok(Typed::Exists(Sort::Int, Boxed::new(alloc, equal)?))
}

/// A literal, with the name n for the quotient of a divisibility.
fn literal(alloc: Global, n: u32, l: &Literal) -> Result<Typed, Memory>
    requires { HasDivisor l.now }
    ensures { IfOk result (λ f. formula f ≡ literal_formula n l.now) }
{
    match l {
        Literal::Eq(t) => Ok(Typed::Rel(Relation::Eq, sum(alloc, t)?, TypedTerm::Number(0))),
        Literal::Geq(t) => Ok(Typed::Rel(Relation::Geq, sum(alloc, t)?, TypedTerm::Number(0))),
        Literal::Div(d, t) => divided(alloc, n, *d, t),
        Literal::NDiv(d, t) => {
            let one = divided(alloc, n, *d, t)?;
            Ok(Typed::Not(Boxed::new(alloc, one)?))
        }
    }
}

/// Several literals.
fn literals(alloc: Global, n: u32, ls: &[Literal]) -> Result<Items<Typed>, Memory>
    requires { All HasDivisor ls.now }
    ensures { IfOk result (λ fs. map formula fs ≡ map (literal_formula n) ls.now) }
{
    let mut out = Items::new(alloc);
    for l in ls {
        out.push(literal(alloc, n, l)?)?;
    }
    Ok(out)
}

/// A clause: one literal is itself.
fn clause(alloc: Global, n: u32, c: &Clause) -> Result<Typed, Memory>
    ensures { IfOk result (λ f. formula f ≡ clause_formula n c.now) }
{
    c.know_clause();
    let ls = c.literals();
    if ls.is_empty() {
        return Ok(Typed::Truth(true));
    }
    if ls.len() == 1 {
        return literal(alloc, n, &ls[0]);
    }
    Ok(Typed::And(literals(alloc, n, ls)?))
}

/// Several clauses.
fn clauses(alloc: Global, n: u32, cs: &[Clause]) -> Result<Items<Typed>, Memory>
    ensures { IfOk result (λ fs. map formula fs ≡ map (clause_formula n) cs.now) }
{
    let mut out = Items::new(alloc);
    for c in cs {
        out.push(clause(alloc, n, c)?)?;
    }
    Ok(out)
}

/// Clauses as their disjunction: one is itself.
fn normal_form(alloc: Global, n: u32, cs: &[Clause]) -> Result<Typed, Memory>
    ensures { IfOk result (λ f. formula f ≡ normal_form_formula n cs.now) }
{
    if cs.is_empty() {
        return Ok(Typed::Truth(false));
    }
    if cs.len() == 1 {
        return clause(alloc, n, &cs[0]);
    }
    Ok(Typed::Or(clauses(alloc, n, cs)?))
}

/// A normal form over the constants of the problem as the formula that its text says.
pub fn dnf_as_formula(alloc: Global, p: &Problem, d: &Dnf) -> Result<Typed, Memory>
    requires formed { IsWellFormed p.now }
    requires over { AreOver (constants p.now) d.now }
    ensures is { IfOk result (λ f. formula f ≡ dnf_formula p.now d.now) }
    ensures fit { IfOk result (λ f. IsFitFormula p.now (formula f)) }
{
    know_clauses(d.clauses());
    let n = p.existentials.len() as u32 + p.universals.len() as u32;
    normal_form(alloc, n, d.clauses())
}
