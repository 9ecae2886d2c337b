// The formula or the term that an expression says, with every name resolved to its number.

ghost use Rattle.std.specs.Prelude.{◌≡◌, List, ℕ, IfOk, ◌∷◌, []};
ghost use Rattle.form_typed.specs.Formula.{and_expression, compares, expression, expressions_of, formula, formulas_of};
ghost use Rattle.pri_typing.specs.Sites.{IsFit, scope_at};
ghost use Rattle.pri_typing.specs.Limits.{AddendsAreReady, AreReady, IsReady, IsReadyUnder};
ghost use Rattle.pri_typing.specs.Phrase.{addends_of, phrase, phrases_of};
ghost use Rattle.base_texts.specs.Texts.{place};
ghost use Rattle.pri_typing.specs.Scope.{inside, refers};
ghost use Rattle.pri_typing.specs.Sorts.{sorts_of};
ghost use Rattle.pri_typing.specs.Typing.{members, quantifiers, relation_of, says, signed, signed_terms, terms, use_says, use_value, value};

use crate::scope::{BoundNames, Referent, Site, refer};
use crate::sorts::sort_of;
use form_typed::{Relation, Sort, Typed, TypedTerm};
use linear_term::Memory;
use pri_reader::{Added, Comparison, Declared, Expr, Form, Name};
use sqlite_items::{Boxed, Items};
use std::alloc::Global;

fn relation(comparison: Comparison) -> Relation
    ensures { result ≡ relation_of comparison }
{
    match comparison {
        Comparison::Equal => Relation::Eq,
        Comparison::Unequal => Relation::Neq,
        Comparison::Less => Relation::Lt,
        Comparison::AtMost => Relation::Leq,
        Comparison::Greater => Relation::Gt,
        Comparison::AtLeast => Relation::Geq,
    }
}

/// A use as a formula. What is no predicate says `false`; typing refuses it.
fn use_formula(referent: Option<Referent>, arguments: Items<TypedTerm>) -> Typed
    ensures { formula result ≡ use_says referent (expressions_of arguments) }
{
    match referent {
        Some(Referent::Predicate(p, _)) => Typed::Pred(p, arguments),
        Some(Referent::Name(_)) => Typed::Truth(false),
        Some(Referent::Function(_, _)) => Typed::Truth(false),
        None => Typed::Truth(false),
    }
}

/// A use as a term. What is no term says 0; typing refuses it.
fn use_term(referent: Option<Referent>, arguments: Items<TypedTerm>) -> TypedTerm
    ensures { expression result ≡ use_value referent (expressions_of arguments) }
{
    match referent {
        Some(Referent::Name(x)) => TypedTerm::Name(x),
        Some(Referent::Function(f, _)) => TypedTerm::Apply(f, arguments),
        Some(Referent::Predicate(_, _)) => TypedTerm::Number(0),
        None => TypedTerm::Number(0),
    }
}

/// The number of a part.
fn part_number(here: &Site, name: &Name) -> u32
    requires { IsFit here.now }
    ensures { result ≡ place name.now.text here.now.parts.now }
{
    here.parts.number(name.text.as_slice())
}

fn quantifier(all: bool, sort: Sort, body: Boxed<Typed>) -> Typed
    ensures { formula result ≡ quantifiers all (sort ∷ []) (formula body) }
{
    if all {
        Typed::Forall(sort, body)
    } else {
        Typed::Exists(sort, body)
    }
}

/// The formula under a quantifier for each of these names, the first outermost.
fn quantify(alloc: Global, all: bool, names: &[Declared], body: Typed) -> Result<Typed, Memory>
    ensures { IfOk result (λ f. formula f ≡ quantifiers all (sorts_of names.now) (formula body)) }
{
    let mut quantified = body;
    let mut outer = names;
    while let Some((last, rest)) = outer.split_last() {
        quantified = quantifier(all, sort_of(last.sort), Boxed::new(alloc, quantified)?);
        outer = rest;
    }
    Ok(quantified)
}

/// The formula that an expression says.
#[cycle(build)]
pub fn build_formula(alloc: Global, here: &Site, expr: &Expr) -> Result<Typed, Memory>
    requires { IsReady here.now (phrase expr.now) }
    ensures { IfOk result (λ f. formula f ≡ says (scope_at here.now) (phrase expr.now)) }
{
    match &expr.form {
        Form::Truth(b) => Ok(Typed::Truth(*b)),
        Form::Use(name, arguments) => {
            let terms = build_terms(alloc, here, arguments.as_slice())?;
            Ok(use_formula(refer(here, name.text.as_slice()), terms))
        }
        Form::Group(inner) => build_formula(alloc, here, inner.get()),
        Form::Compare(sign, left, right) => {
            build_comparison(alloc, here, *sign, left.get(), right.get())
        }
        Form::Not(inner) => Ok(Typed::Not(boxed_formula(alloc, here, inner.get())?)),
        Form::Quantified(all, names, body) => {
            build_quantified(alloc, here, *all, names.as_slice(), body.get())
        }
        Form::Part(name, body) => {
            Ok(Typed::Part(
                part_number(here, name),
                boxed_formula(alloc, here, body.get())?,
            ))
        }
        Form::And(members) => Ok(Typed::And(build_members(alloc, here, members.as_slice())?)),
        Form::Or(members) => Ok(Typed::Or(build_members(alloc, here, members.as_slice())?)),
        Form::Implies(left, right) => {
            let (left, right) = boxed_formulas(alloc, here, left.get(), right.get())?;
            Ok(Typed::Implies(left, right))
        }
        Form::Iff(left, right) => {
            let (left, right) = boxed_formulas(alloc, here, left.get(), right.get())?;
            Ok(Typed::Iff(left, right))
        }
        Form::Number(_)
        | Form::If(_, _, _)
        | Form::Abs(_)
        | Form::Min(_, _)
        | Form::Max(_, _)
        | Form::Minus(_)
        | Form::Product(_, _, _)
        | Form::Sum(_, _) => Ok(Typed::Truth(false)),
    }
}

/// The term that an expression says.
#[cycle(build)]
pub fn build_term(alloc: Global, here: &Site, expr: &Expr) -> Result<TypedTerm, Memory>
    requires { IsReady here.now (phrase expr.now) }
    ensures { IfOk result (λ t. expression t ≡ value (scope_at here.now) (phrase expr.now)) }
{
    match &expr.form {
        Form::Number(n) => Ok(TypedTerm::Number(*n)),
        Form::Use(name, arguments) => {
            let terms = build_terms(alloc, here, arguments.as_slice())?;
            Ok(use_term(refer(here, name.text.as_slice()), terms))
        }
        Form::Group(inner) => build_term(alloc, here, inner.get()),
        Form::If(condition, yes, no) => {
            let condition = boxed_formula(alloc, here, condition.get())?;
            let (yes, no) = boxed_terms(alloc, here, yes.get(), no.get())?;
            Ok(TypedTerm::If(condition, yes, no))
        }
        Form::Abs(inner) => Ok(TypedTerm::Abs(boxed_term(alloc, here, inner.get())?)),
        Form::Min(left, right) => {
            let (left, right) = boxed_terms(alloc, here, left.get(), right.get())?;
            Ok(TypedTerm::Min(left, right))
        }
        Form::Max(left, right) => {
            let (left, right) = boxed_terms(alloc, here, left.get(), right.get())?;
            Ok(TypedTerm::Max(left, right))
        }
        Form::Minus(inner) => Ok(TypedTerm::Minus(boxed_term(alloc, here, inner.get())?)),
        Form::Product(left, _, right) => {
            let (left, right) = boxed_terms(alloc, here, left.get(), right.get())?;
            Ok(TypedTerm::Product(left, right))
        }
        Form::Sum(first, more) => {
            let first = boxed_term(alloc, here, first.get())?;
            Ok(TypedTerm::Sum(build_sum(alloc, here, more.as_slice(), first)?))
        }
        Form::Truth(_)
        | Form::Compare(_, _, _)
        | Form::Not(_)
        | Form::Quantified(_, _, _)
        | Form::Part(_, _)
        | Form::And(_)
        | Form::Or(_)
        | Form::Implies(_, _)
        | Form::Iff(_, _) => Ok(TypedTerm::Number(0)),
    }
}

#[cycle(build)]
fn boxed_formula(alloc: Global, here: &Site, expr: &Expr) -> Result<Boxed<Typed>, Memory>
    requires { IsReady here.now (phrase expr.now) }
    ensures { IfOk result (λ f. formula f ≡ says (scope_at here.now) (phrase expr.now)) }
{
    Ok(Boxed::new(alloc, build_formula(alloc, here, expr)?)?)
}

/// The formulas that two expressions say, each by itself on the heap.
#[cycle(build)]
fn boxed_formulas(
    alloc: Global,
    here: &Site,
    left: &Expr,
    right: &Expr,
) -> Result<(Boxed<Typed>, Boxed<Typed>), Memory>
    requires left { IsReady here.now (phrase left.now) }
    requires right { IsReady here.now (phrase right.now) }
    ensures { IfOk result (λ fs. (formula fs.0 ≡ says (scope_at here.now) (phrase left.now)) × (formula fs.1 ≡ says (scope_at here.now) (phrase right.now))) }
{
    let left = boxed_formula(alloc, here, left)?;
    Ok((left, boxed_formula(alloc, here, right)?))
}

#[cycle(build)]
fn boxed_term(alloc: Global, here: &Site, expr: &Expr) -> Result<Boxed<TypedTerm>, Memory>
    requires { IsReady here.now (phrase expr.now) }
    ensures { IfOk result (λ t. expression t ≡ value (scope_at here.now) (phrase expr.now)) }
{
    Ok(Boxed::new(alloc, build_term(alloc, here, expr)?)?)
}

/// The terms that two expressions say, each by itself on the heap.
#[cycle(build)]
fn boxed_terms(
    alloc: Global,
    here: &Site,
    left: &Expr,
    right: &Expr,
) -> Result<(Boxed<TypedTerm>, Boxed<TypedTerm>), Memory>
    requires left { IsReady here.now (phrase left.now) }
    requires right { IsReady here.now (phrase right.now) }
    ensures { IfOk result (λ ts. (expression ts.0 ≡ value (scope_at here.now) (phrase left.now)) × (expression ts.1 ≡ value (scope_at here.now) (phrase right.now))) }
{
    let left = boxed_term(alloc, here, left)?;
    Ok((left, boxed_term(alloc, here, right)?))
}

/// The comparison of two terms.
#[cycle(build)]
fn build_comparison(
    alloc: Global,
    here: &Site,
    sign: Comparison,
    left: &Expr,
    right: &Expr,
) -> Result<Typed, Memory>
    requires left { IsReady here.now (phrase left.now) }
    requires right { IsReady here.now (phrase right.now) }
    ensures { IfOk result (λ f. formula f ≡ compares (relation_of sign) (value (scope_at here.now) (phrase left.now)) (value (scope_at here.now) (phrase right.now))) }
{
    let left = boxed_term(alloc, here, left)?;
    let right = build_term(alloc, here, right)?;
    Ok(Typed::Rel(relation(sign), left.into_inner(), right))
}

/// The formula of a quantifier that binds these names.
#[cycle(build)]
fn build_quantified(
    alloc: Global,
    here: &Site,
    all: bool,
    names: &[Declared],
    body: &Expr,
) -> Result<Typed, Memory>
    requires { IsReadyUnder here.now names.now (phrase body.now) }
    ensures { IfOk result (λ f. formula f ≡ quantifiers all (sorts_of names.now) (says (inside names.now (scope_at here.now)) (phrase body.now))) }
{
    let bound = BoundNames::More(names, here.bound);
    let inner = Site {
        symbols: here.symbols,
        parts: here.parts,
        bound: &bound,
    };
    let formula = build_formula(alloc, &inner, body)?;
    quantify(alloc, all, names, formula)
}

#[cycle(build)]
fn build_members(alloc: Global, here: &Site, exprs: &[Expr]) -> Result<Items<Typed>, Memory>
    requires { AreReady here.now (phrases_of exprs.now) }
    ensures { IfOk result (λ fs. formulas_of fs ≡ members (scope_at here.now) (phrases_of exprs.now)) }
{
    let mut out = Items::new(alloc);
    for expr in exprs {
        out.push(build_formula(alloc, here, expr)?)?;
    }
    Ok(out)
}

#[cycle(build)]
fn build_terms(alloc: Global, here: &Site, exprs: &[Expr]) -> Result<Items<TypedTerm>, Memory>
    requires { AreReady here.now (phrases_of exprs.now) }
    ensures { IfOk result (λ ts. expressions_of ts ≡ terms (scope_at here.now) (phrases_of exprs.now)) }
{
    let mut out = Items::new(alloc);
    for expr in exprs {
        out.push(build_term(alloc, here, expr)?)?;
    }
    Ok(out)
}

/// The members of a sum.
#[cycle(build)]
fn build_sum(
    alloc: Global,
    here: &Site,
    more: &[Added],
    first: Boxed<TypedTerm>,
) -> Result<Items<TypedTerm>, Memory>
    requires { AddendsAreReady here.now (addends_of more.now) }
    ensures { IfOk result (λ ts. expressions_of ts ≡ and_expression (expression first) (signed_terms (scope_at here.now) (addends_of more.now))) }
{
    let mut out = Items::new(alloc);
    out.push(first.into_inner())?;
    for added in more {
        out.push(build_signed(alloc, here, added.minus, &added.term)?)?;
    }
    Ok(out)
}

/// A later term of a sum with its sign.
#[cycle(build)]
fn build_signed(alloc: Global, here: &Site, minus: bool, expr: &Expr) -> Result<TypedTerm, Memory>
    requires { IsReady here.now (phrase expr.now) }
    ensures { IfOk result (λ t. expression t ≡ signed minus (value (scope_at here.now) (phrase expr.now))) }
{
    if minus {
        Ok(TypedTerm::Minus(boxed_term(alloc, here, expr)?))
    } else {
        build_term(alloc, here, expr)
    }
}
