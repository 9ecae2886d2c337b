// The least fault of a formula or a term: what is undeclared, has another number of arguments, is of the other category, or is
// no linear product.

ghost use Rattle.std.specs.Prelude.{◌≡◌, ◌++◌, List, ℕ};
ghost use Rattle.pri_typing.specs.Sites.{scope_at};
ghost use Rattle.pri_typing.specs.Faults.{addend_faults, all_faults, earlier, are_numerals, faults, is_numeral, least, needs, product_faults, use_faults};
ghost use Rattle.pri_typing.specs.Phrase.{addends_of, first_token, phrase, phrases_of};
ghost use Rattle.pri_typing.specs.Scope.{refers};

use crate::problem::TypeRefusal;
use crate::refusals::earlier_of;
use crate::scope::{BoundNames, Category, Site, use_at};
use pri_reader::{Added, Expr, Form, Name};

/// A formula where a term is needed, or a term where a formula is needed.
fn kind_fault(want: Category, is: Category, at: u64) -> Option<TypeRefusal>
    ensures { result ≡ least (needs want is at) }
{
    match (want, is) {
        (Category::Formula, Category::Formula) => None,
        (Category::Term, Category::Term) => None,
        (Category::Formula, Category::Term) => Some(TypeRefusal::Kind(at)),
        (Category::Term, Category::Formula) => Some(TypeRefusal::Kind(at)),
    }
}

/// The fault of a use of a name with this many arguments, whose first token is at this offset.
fn use_fault(
    site: &Site,
    want: Category,
    at: u64,
    name: &Name,
    arguments: usize,
) -> Option<TypeRefusal>
    ensures { result ≡ least (use_faults want at name.now.at arguments (refers (scope_at site.now) name.now.text)) }
{
    match use_at(site, name.text.as_slice()) {
        None => Some(TypeRefusal::Undeclared(name.at)),
        Some(stands) => {
            let kind = kind_fault(want, stands.category, at);
            if arguments == stands.arity as usize {
                kind
            } else {
                earlier_of(Some(TypeRefusal::Arity(name.at)), kind)
            }
        }
    }
}

/// Whether an expression is built of numbers, sums, minus, products and parentheses alone.
#[cycle(numerals)]
fn is_built_of_numbers(expr: &Expr) -> bool
    ensures { result ≡ is_numeral (phrase expr.now) }
{
    match &expr.form {
        Form::Number(_) => true,
        Form::Group(inner) => is_built_of_numbers(inner.get()),
        Form::Minus(inner) => is_built_of_numbers(inner.get()),
        Form::Product(left, _, right) => {
            is_built_of_numbers(left.get()) && is_built_of_numbers(right.get())
        }
        Form::Sum(first, more) => {
            is_built_of_numbers(first.get()) && are_built_of_numbers(more.as_slice())
        }
        Form::Truth(_)
        | Form::Use(_, _)
        | Form::If(_, _, _)
        | Form::Abs(_)
        | Form::Min(_, _)
        | Form::Max(_, _)
        | Form::Compare(_, _, _)
        | Form::Not(_)
        | Form::Quantified(_, _, _)
        | Form::Part(_, _)
        | Form::And(_)
        | Form::Or(_)
        | Form::Implies(_, _)
        | Form::Iff(_, _) => false,
    }
}

#[cycle(numerals)]
fn are_built_of_numbers(terms: &[Added]) -> bool
    ensures { result ≡ are_numerals (addends_of terms.now) }
{
    for added in terms {
        if !is_built_of_numbers(&added.term) {
            return false;
        }
    }
    true
}

/// The fault of a `*` between these two sides.
fn product_fault(left: &Expr, star: u64, right: &Expr) -> Option<TypeRefusal>
    ensures { result ≡ least (product_faults (phrase left.now) star (phrase right.now)) }
{
    if is_built_of_numbers(left) || is_built_of_numbers(right) {
        None
    } else {
        Some(TypeRefusal::NonLinear(star))
    }
}

/// The least fault of an expression where one of this category is needed. Its first token, with the parentheses around it, is
/// at this offset.
#[cycle(faults)]
#[tactic(auto, using(crate::proofs::Faulting::faulting))]
fn fault_at(site: &Site, want: Category, at: u64, expr: &Expr) -> Option<TypeRefusal>
    ensures { result ≡ least (faults (scope_at site.now) want at (phrase expr.now)) }
{
    let term = kind_fault(want, Category::Term, at);
    let formula = kind_fault(want, Category::Formula, at);
    match &expr.form {
        Form::Number(_) => term,
        Form::Truth(_) => formula,
        Form::Use(name, arguments) => {
            earlier_of(
                use_fault(site, want, at, name, arguments.len()),
                faults_of(site, Category::Term, arguments.as_slice()),
            )
        }
        Form::Group(inner) => fault_at(site, want, at, inner.get()),
        Form::If(condition, yes, no) => {
            let test = with_one(site, term, Category::Formula, condition.get());
            with_two(site, test, Category::Term, yes.get(), no.get())
        }
        Form::Abs(inner) => with_one(site, term, Category::Term, inner.get()),
        Form::Min(left, right) => { with_two(site, term, Category::Term, left.get(), right.get()) }
        Form::Max(left, right) => { with_two(site, term, Category::Term, left.get(), right.get()) }
        Form::Minus(inner) => with_one(site, term, Category::Term, inner.get()),
        Form::Product(left, star, right) => {
            let own = earlier_of(term, product_fault(left.get(), *star, right.get()));
            with_two(site, own, Category::Term, left.get(), right.get())
        }
        Form::Sum(first, more) => {
            earlier_of(
                with_one(site, term, Category::Term, first.get()),
                faults_of_terms(site, more.as_slice()),
            )
        }
        Form::Compare(_, left, right) => {
            with_two(site, formula, Category::Term, left.get(), right.get())
        }
        Form::Not(inner) => with_one(site, formula, Category::Formula, inner.get()),
        Form::Quantified(_, names, body) => {
            let bound = BoundNames::More(names.as_slice(), site.bound);
            let inside = Site {
                symbols: site.symbols,
                parts: site.parts,
                bound: &bound,
            };
            with_one(&inside, formula, Category::Formula, body.get())
        }
        Form::Part(_, body) => with_one(site, formula, Category::Formula, body.get()),
        Form::And(members) => {
            earlier_of(
                formula,
                faults_of(site, Category::Formula, members.as_slice()),
            )
        }
        Form::Or(members) => {
            earlier_of(
                formula,
                faults_of(site, Category::Formula, members.as_slice()),
            )
        }
        Form::Implies(left, right) => {
            with_two(site, formula, Category::Formula, left.get(), right.get())
        }
        Form::Iff(left, right) => {
            with_two(site, formula, Category::Formula, left.get(), right.get())
        }
    }
}

/// The least fault of an expression where one of this category is needed.
#[cycle(faults)]
#[tactic(auto, using(crate::proofs::Faulting::faulting))]
pub fn fault(site: &Site, want: Category, expr: &Expr) -> Option<TypeRefusal>
    ensures { result ≡ least (faults (scope_at site.now) want (first_token (phrase expr.now)) (phrase expr.now)) }
{
    fault_at(site, want, expr.at, expr)
}

#[cycle(faults)]
#[tactic(auto, using(crate::proofs::Faulting::faulting))]
fn with_one(
    site: &Site,
    own: Option<TypeRefusal>,
    category: Category,
    operand: &Expr,
) -> Option<TypeRefusal>
    ensures { result ≡ earlier own (least (faults (scope_at site.now) category (first_token (phrase operand.now)) (phrase operand.now))) }
{
    earlier_of(own, fault(site, category, operand))
}

/// The least of a fault and those of two operands of this category.
#[cycle(faults)]
#[tactic(auto, using(crate::proofs::Faulting::faulting))]
fn with_two(
    site: &Site,
    own: Option<TypeRefusal>,
    category: Category,
    left: &Expr,
    right: &Expr,
) -> Option<TypeRefusal>
    ensures { result ≡ earlier (earlier own (least (faults (scope_at site.now) category (first_token (phrase left.now)) (phrase left.now))))
        (least (faults (scope_at site.now) category (first_token (phrase right.now)) (phrase right.now))) }
{
    let first = with_one(site, own, category, left);
    with_one(site, first, category, right)
}

#[cycle(faults)]
#[tactic(auto, using(crate::proofs::Faulting::faulting))]
fn faults_of(site: &Site, category: Category, exprs: &[Expr]) -> Option<TypeRefusal>
    ensures { result ≡ least (all_faults (scope_at site.now) category (phrases_of exprs.now)) }
{
    let mut least = None;
    for expr in exprs {
        least = earlier_of(least, fault(site, category, expr));
    }
    least
}

#[cycle(faults)]
#[tactic(auto, using(crate::proofs::Faulting::faulting))]
fn faults_of_terms(site: &Site, terms: &[Added]) -> Option<TypeRefusal>
    ensures { result ≡ least (addend_faults (scope_at site.now) (addends_of terms.now)) }
{
    let mut least = None;
    for added in terms {
        least = earlier_of(least, fault(site, Category::Term, &added.term));
    }
    least
}
