// The parts of an expression, in the order in which they are written.

ghost use Rattle.std.specs.Prelude.{◌≡◌, ◌++◌, ◌∷◌, [], OnOk, IfOk};
ghost use Rattle.pri_typing.specs.Phrase.{addends_of, phrase, phrases_of};
ghost use Rattle.pri_typing.specs.Typing.{addend_parts, all_parts, distinct_from, part_names, parts_in};

use base_texts::Texts;
use linear_term::Memory;
use pri_reader::{Added, Expr, Form, Name};
use sqlite_items::Items;
use std::alloc::Global;

/// A part that begins at this offset, put after others.
fn push_part(alloc: Global, out: &mut Items<Name>, at: u64, name: &Name) -> Result<(), Memory>
    ensures { OnOk result (out.new ≡ out.old ++ record { at = at; text = name.now.text } ∷ []) }
{
    let text = Items::from_slice(alloc, name.text.as_slice())?;
    out.push(Name { at, text })?;
    Ok(())
}

/// Puts the parts of an expression after others.
#[cycle(collect)]
#[tactic(auto, using(crate::proofs::Collecting::collecting))]
pub fn collect(alloc: Global, out: &mut Items<Name>, expr: &Expr) -> Result<(), Memory>
    ensures { OnOk result (out.new ≡ out.old ++ parts_in (phrase expr.now)) }
{
    match &expr.form {
        Form::Number(_) => Ok(()),
        Form::Truth(_) => Ok(()),
        Form::Use(_, arguments) => collect_all(alloc, out, arguments.as_slice()),
        Form::Group(inner) => collect(alloc, out, inner.get()),
        Form::If(condition, yes, no) => {
            collect_two(alloc, out, condition.get(), yes.get())?;
            collect(alloc, out, no.get())
        }
        Form::Abs(inner) => collect(alloc, out, inner.get()),
        Form::Minus(inner) => collect(alloc, out, inner.get()),
        Form::Sum(first, more) => {
            collect(alloc, out, first.get())?;
            collect_terms(alloc, out, more.as_slice())
        }
        Form::Not(inner) => collect(alloc, out, inner.get()),
        Form::Quantified(_, _, body) => collect(alloc, out, body.get()),
        Form::Part(name, body) => {
            push_part(alloc, out, expr.at, name)?;
            collect(alloc, out, body.get())
        }
        Form::And(members) => collect_all(alloc, out, members.as_slice()),
        Form::Or(members) => collect_all(alloc, out, members.as_slice()),
        Form::Min(left, right) => collect_two(alloc, out, left.get(), right.get()),
        Form::Max(left, right) => collect_two(alloc, out, left.get(), right.get()),
        Form::Product(left, _, right) => collect_two(alloc, out, left.get(), right.get()),
        Form::Compare(_, left, right) => collect_two(alloc, out, left.get(), right.get()),
        Form::Implies(left, right) => collect_two(alloc, out, left.get(), right.get()),
        Form::Iff(left, right) => collect_two(alloc, out, left.get(), right.get()),
    }
}

/// Puts the parts of one expression and of the next after others.
#[cycle(collect)]
#[tactic(auto, using(crate::proofs::Collecting::collecting))]
fn collect_two(
    alloc: Global,
    out: &mut Items<Name>,
    left: &Expr,
    right: &Expr,
) -> Result<(), Memory>
    ensures { OnOk result (out.new ≡ out.old ++ parts_in (phrase left.now) ++ parts_in (phrase right.now)) }
{
    collect(alloc, out, left)?;
    collect(alloc, out, right)
}

#[cycle(collect)]
#[tactic(auto, using(crate::proofs::Collecting::collecting))]
fn collect_all(alloc: Global, out: &mut Items<Name>, exprs: &[Expr]) -> Result<(), Memory>
    ensures { OnOk result (out.new ≡ out.old ++ all_parts (phrases_of exprs.now)) }
{
    for expr in exprs {
        collect(alloc, out, expr)?;
    }
    Ok(())
}

#[cycle(collect)]
#[tactic(auto, using(crate::proofs::Collecting::collecting))]
fn collect_terms(alloc: Global, out: &mut Items<Name>, terms: &[Added]) -> Result<(), Memory>
    ensures { OnOk result (out.new ≡ out.old ++ addend_parts (addends_of terms.now)) }
{
    for added in terms {
        collect(alloc, out, &added.term)?;
    }
    Ok(())
}

/// The names of the parts of an expression, each once.
pub fn part_texts(alloc: Global, expr: &Expr) -> Result<Texts, Memory>
    ensures { IfOk result (λ ts. ts ≡ part_names (phrase expr.now)) }
{
    let mut parts = Items::new(alloc);
    collect(alloc, &mut parts, expr)?;
    texts_of(alloc, parts.as_slice())
}

/// The texts of the names, each once.
#[tactic(auto, using(crate::proofs::Collecting::distinct))]
fn texts_of(alloc: Global, names: &[Name]) -> Result<Texts, Memory>
    ensures { IfOk result (λ ts. ts ≡ distinct_from [] names.now) }
{
    let mut texts = Texts::new(alloc);
    for name in names {
        texts.add(alloc, name.text.as_slice())?;
    }
    Ok(texts)
}
