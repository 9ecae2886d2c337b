// The first application of a formula.

ghost use Rattle.std.specs.Prelude.{◌≡◌, ◌++◌, Option};
ghost use Rattle.std.specs.Option.{option_or};
ghost use Rattle.pri_typing.specs.Sites.{scope_at};
ghost use Rattle.pri_typing.specs.Phrase.{addends_of, phrase, phrases_of};
ghost use Rattle.pri_typing.specs.Scope.{refers};
ghost use Rattle.pri_typing.specs.Typing.{addend_applications, all_applications, applications, first_of, is_applied};

use crate::scope::{BoundNames, Site, applies_at};
use pri_reader::{Added, Expr, Form};

fn first_some(a: Option<u64>, b: Option<u64>) -> Option<u64>
    ensures { result ≡ option_or a b }
{
    match a {
        Some(at) => Some(at),
        None => b,
    }
}

/// The offset of the first identifier of an expression that stands for a function or a predicate.
#[cycle(applications)]
#[tactic(auto, using(crate::proofs::Collecting::applying))]
pub fn first_application(here: &Site, expr: &Expr) -> Option<u64>
    ensures { result ≡ first_of (applications (scope_at here.now) (phrase expr.now)) }
{
    match &expr.form {
        Form::Number(_) => None,
        Form::Truth(_) => None,
        Form::Use(name, arguments) => {
            if applies_at(here, name.text.as_slice()) {
                Some(name.at)
            } else {
                first_of_all(here, arguments.as_slice())
            }
        }
        Form::Group(inner) => first_application(here, inner.get()),
        Form::If(condition, yes, no) => {
            let first = first_of_two(here, condition.get(), yes.get());
            first_some(first, first_application(here, no.get()))
        }
        Form::Abs(inner) => first_application(here, inner.get()),
        Form::Minus(inner) => first_application(here, inner.get()),
        Form::Sum(first, more) => {
            let before = first_application(here, first.get());
            first_some(before, first_of_terms(here, more.as_slice()))
        }
        Form::Not(inner) => first_application(here, inner.get()),
        Form::Quantified(_, names, body) => {
            let bound = BoundNames::More(names.as_slice(), here.bound);
            let inside = Site {
                symbols: here.symbols,
                parts: here.parts,
                bound: &bound,
            };
            first_application(&inside, body.get())
        }
        Form::Part(_, body) => first_application(here, body.get()),
        Form::And(members) => first_of_all(here, members.as_slice()),
        Form::Or(members) => first_of_all(here, members.as_slice()),
        Form::Min(left, right) => first_of_two(here, left.get(), right.get()),
        Form::Max(left, right) => first_of_two(here, left.get(), right.get()),
        Form::Product(left, _, right) => first_of_two(here, left.get(), right.get()),
        Form::Compare(_, left, right) => first_of_two(here, left.get(), right.get()),
        Form::Implies(left, right) => first_of_two(here, left.get(), right.get()),
        Form::Iff(left, right) => first_of_two(here, left.get(), right.get()),
    }
}

/// The offset of the first such identifier of one expression, or else of the other.
#[cycle(applications)]
#[tactic(auto, using(crate::proofs::Collecting::applying))]
fn first_of_two(here: &Site, left: &Expr, right: &Expr) -> Option<u64>
    ensures { result ≡ first_of (applications (scope_at here.now) (phrase left.now) ++ applications (scope_at here.now) (phrase right.now)) }
{
    let first = first_application(here, left);
    first_some(first, first_application(here, right))
}

#[cycle(applications)]
#[tactic(auto, using(crate::proofs::Collecting::applying))]
fn first_of_all(here: &Site, exprs: &[Expr]) -> Option<u64>
    ensures { result ≡ first_of (all_applications (scope_at here.now) (phrases_of exprs.now)) }
{
    let mut first = None;
    for expr in exprs {
        first = first_some(first, first_application(here, expr));
    }
    first
}

#[cycle(applications)]
#[tactic(auto, using(crate::proofs::Collecting::applying))]
fn first_of_terms(here: &Site, terms: &[Added]) -> Option<u64>
    ensures { result ≡ first_of (addend_applications (scope_at here.now) (addends_of terms.now)) }
{
    let mut first = None;
    for added in terms {
        first = first_some(first, first_application(here, &added.term));
    }
    first
}
