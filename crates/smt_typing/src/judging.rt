// The first fault of a term, and its sort, in one walk over it. Calls nest along the levels of the term alone.

ghost use Rattle.smt_commands.specs.Least.{least_from};
ghost use Rattle.smt_terms.specs.Term.{bindings_of, first_byte, phrase, phrases_of};
ghost use Rattle.smt_typing.specs.Bounds.{bound_at, judged, symbols_at};
ghost use Rattle.smt_typing.specs.Faults.{alike_faults, bound_faults, each_faults, faults, ill_faults, term_faults, variable_faults};
ghost use Rattle.smt_typing.specs.Judging.{argument_faults, operator_faults, quantifier_faults, used_faults, used_sort};
ghost use Rattle.smt_typing.specs.Sorts.{bound_sorts, first_of, operator_sort, second_of, sorts_in, term_sort};
ghost use Rattle.std.specs.Prelude.{◌≡◌, IfOk, Some, length};

use crate::bound::{Bound, Judged, Site, sort_at};
use crate::numerals::with_product_fault;
use crate::operators::{
    Need, operator_sort, takes, wants, with_arity_fault, with_kind_fault, with_unknown_fault,
};
use linear_term::Memory;
use smt_commands::{ScriptRefusal, sooner};
use smt_terms::{Binding, Name, Operator, Sort, Term, Variable, named_operator};
use sqlite_items::Items;
use std::alloc::Global;

/// The first fault so far, and the sorts of the terms that a `let` binds.
#[derive(Drop)]
struct BoundSorts {
    found: Option<ScriptRefusal>,
    sorts: Items<Option<Sort>>,
}

/// The first of a fault and those of a term of which this sort is needed, and its sort.
#[cycle(judging)]
pub fn judge_needed(
    alloc: Global,
    site: &Site,
    found: Option<ScriptRefusal>,
    want: Option<Sort>,
    term: &Term,
) -> Result<Judged, Memory>
    ensures { IfOk result (λ j. j ≡ judged found (term_faults (symbols_at site.now) (bound_at site.now) want (phrase term.now)) (term_sort (symbols_at site.now) (bound_at site.now) (phrase term.now))) }
{
    let judged = judge(alloc, site, found, term)?;
    Ok(Judged {
        found: with_kind_fault(judged.found, want, judged.sort, first_byte(term)),
        sort: judged.sort,
    })
}

/// The first of a fault and those of a term, and its sort.
#[cycle(judging)]
fn judge(
    alloc: Global,
    site: &Site,
    found: Option<ScriptRefusal>,
    term: &Term,
) -> Result<Judged, Memory>
    ensures { IfOk result (λ j. j ≡ judged found (faults (symbols_at site.now) (bound_at site.now) (phrase term.now)) (term_sort (symbols_at site.now) (bound_at site.now) (phrase term.now))) }
{
    match term {
        Term::Number(_, _) => Ok(Judged {
            found,
            sort: Some(Sort::Int),
        }),
        Term::Large(at) => Ok(Judged {
            found: Some(sooner(found, ScriptRefusal::Literal(*at))),
            sort: Some(Sort::Int),
        }),
        Term::Use(_, name, arguments) => judge_use(alloc, site, found, name, arguments.as_slice()),
        Term::Let(_, bindings, body) => {
            let outside = judge_bindings(alloc, site, found, bindings.as_slice())?;
            let bound = Bound::Let(bindings.as_slice(), outside.sorts.as_slice(), site.bound);
            let inside = Site {
                table: site.table,
                bound: &bound,
            };
            judge(alloc, &inside, outside.found, body.get())
        }
        Term::Quantified(_, _, variables, body) => {
            judge_quantified(alloc, site, found, variables.as_slice(), body.get())
        }
        Term::Annotated(_, inner) => judge(alloc, site, found, inner.get()),
        Term::Ill(at) => Ok(Judged {
            found: Some(sooner(found, ScriptRefusal::Profile(*at))),
            sort: None,
        }),
    }
}

/// The first of a fault and those of a symbol at its arguments, and its sort: that of a bound name, else of an operator, else
/// of a symbol of the script.
#[cycle(judging)]
fn judge_use(
    alloc: Global,
    site: &Site,
    found: Option<ScriptRefusal>,
    name: &Name,
    arguments: &[Term],
) -> Result<Judged, Memory>
    ensures { IfOk result (λ j. j ≡ judged found (used_faults (symbols_at site.now) (bound_at site.now) name.now (phrases_of arguments.now)) (used_sort (symbols_at site.now) (bound_at site.now) name.now (phrases_of arguments.now))) }
{
    if let Some(sort) = sort_at(site.bound, name.text.as_slice()) {
        let found = with_arity_fault(found, arguments.len() == 0, name.at);
        let found = judge_each(alloc, site, found, None, arguments)?;
        return Ok(Judged { found, sort });
    }
    if let Some(operator) = named_operator(name.text.as_slice()) {
        return judge_operator(alloc, site, found, operator, name.at, arguments);
    }
    if let Some(entry) = site.table.entry(name.text.as_slice()) {
        let found = with_arity_fault(found, arguments.len() as u64 == entry.arity, name.at);
        let found = judge_each(alloc, site, found, Some(Sort::Int), arguments)?;
        return Ok(Judged {
            found,
            sort: Some(entry.sort),
        });
    }
    let found = with_unknown_fault(found, name.text.as_slice(), name.at, arguments.len());
    let found = judge_each(alloc, site, found, None, arguments)?;
    Ok(Judged { found, sort: None })
}

/// The first of a fault and those of an operator, whose name is at this offset, at its arguments, and its sort.
#[cycle(judging)]
fn judge_operator(
    alloc: Global,
    site: &Site,
    found: Option<ScriptRefusal>,
    operator: Operator,
    at: u64,
    arguments: &[Term],
) -> Result<Judged, Memory>
    ensures { IfOk result (λ j. j ≡ judged found (operator_faults (symbols_at site.now) (bound_at site.now) operator at (phrases_of arguments.now))
        (operator_sort operator (length arguments.now) (second_of (sorts_in (symbols_at site.now) (bound_at site.now) (phrases_of arguments.now))))) }
{
    let found = with_arity_fault(found, takes(operator, arguments.len()), at);
    let found = with_product_fault(found, operator, at, arguments);
    let judged = judge_arguments(alloc, site, found, wants(operator), arguments)?;
    Ok(Judged {
        found: judged.found,
        sort: operator_sort(operator, arguments.len(), judged.sort),
    })
}

/// The first of a fault and those of arguments of which these sorts are needed; and the sort of the second one, where it
/// matters.
#[cycle(judging)]
fn judge_arguments(
    alloc: Global,
    site: &Site,
    found: Option<ScriptRefusal>,
    need: Need,
    arguments: &[Term],
) -> Result<Judged, Memory>
    ensures found { IfOk result (λ j. j.found ≡ least_from found (argument_faults (symbols_at site.now) (bound_at site.now) need (phrases_of arguments.now))) }
    ensures sort { IfOk result (λ j. need ≡ Need.Branches → j.sort ≡ second_of (sorts_in (symbols_at site.now) (bound_at site.now) (phrases_of arguments.now))) }
{
    match need {
        Need::Each(want) => Ok(Judged {
            found: judge_each(alloc, site, found, want, arguments)?,
            sort: None,
        }),
        Need::Alike => judge_alike(alloc, site, found, arguments),
        Need::Branches => {
            let Some((condition, branches)) = arguments.split_first() else {
                return Ok(Judged { found, sort: None });
            };
            let judged = judge_needed(alloc, site, found, Some(Sort::Bool), condition)?;
            judge_alike(alloc, site, judged.found, branches)
        }
    }
}

/// The first of a fault and those of terms of which each needs this sort, or any.
#[cycle(judging)]
fn judge_each(
    alloc: Global,
    site: &Site,
    found: Option<ScriptRefusal>,
    want: Option<Sort>,
    terms: &[Term],
) -> Result<Option<ScriptRefusal>, Memory>
    ensures { IfOk result (λ f. f ≡ least_from found (each_faults (symbols_at site.now) (bound_at site.now) want (phrases_of terms.now))) }
{
    let mut found = found;
    for term in terms {
        found = judge_needed(alloc, site, found, want, term)?.found;
    }
    Ok(found)
}

/// The first of a fault and those of terms of which each needs the sort of the first, and that sort.
#[cycle(judging)]
fn judge_alike(
    alloc: Global,
    site: &Site,
    found: Option<ScriptRefusal>,
    terms: &[Term],
) -> Result<Judged, Memory>
    ensures { IfOk result (λ j. j ≡ judged found (alike_faults (symbols_at site.now) (bound_at site.now) (phrases_of terms.now)) (first_of (sorts_in (symbols_at site.now) (bound_at site.now) (phrases_of terms.now)))) }
{
    let Some((first, rest)) = terms.split_first() else {
        return Ok(Judged { found, sort: None });
    };
    let judged = judge(alloc, site, found, first)?;
    let sort = judged.sort;
    let mut found = judged.found;
    for term in rest {
        found = judge_needed(alloc, site, found, sort, term)?.found;
    }
    Ok(Judged { found, sort })
}

/// The first of a fault and those of the terms that a `let` binds, and their sorts.
#[cycle(judging)]
fn judge_bindings(
    alloc: Global,
    site: &Site,
    found: Option<ScriptRefusal>,
    bindings: &[Binding],
) -> Result<BoundSorts, Memory>
    ensures found { IfOk result (λ b. b.found ≡ least_from found (bound_faults (symbols_at site.now) (bound_at site.now) (bindings_of bindings.now))) }
    ensures sorts { IfOk result (λ b. b.sorts ≡ bound_sorts (symbols_at site.now) (bound_at site.now) (bindings_of bindings.now)) }
{
    let mut found = found;
    let mut sorts = Items::new(alloc);
    for binding in bindings {
        let judged = judge(alloc, site, found, &binding.term)?;
        found = judged.found;
        sorts.push(judged.sort)?;
    }
    Ok(BoundSorts { found, sorts })
}

/// The first of a fault and those of a quantifier, and its sort.
#[cycle(judging)]
fn judge_quantified(
    alloc: Global,
    site: &Site,
    found: Option<ScriptRefusal>,
    variables: &[Variable],
    body: &Term,
) -> Result<Judged, Memory>
    ensures { IfOk result (λ j. j ≡ judged found (quantifier_faults (symbols_at site.now) (bound_at site.now) variables.now (phrase body.now)) (Some Sort.Bool)) }
{
    let found = with_variable_faults(found, variables);
    let bound = Bound::Variables(variables, site.bound);
    let inside = Site {
        table: site.table,
        bound: &bound,
    };
    let judged = judge_needed(alloc, &inside, found, Some(Sort::Bool), body)?;
    Ok(Judged {
        found: judged.found,
        sort: Some(Sort::Bool),
    })
}

/// The first of a fault and those of what stands for the sorts of variables.
fn with_variable_faults(
    found: Option<ScriptRefusal>,
    variables: &[Variable],
) -> Option<ScriptRefusal>
    ensures { result ≡ least_from found (variable_faults variables.now) }
{
    let mut found = found;
    for variable in variables {
        found = with_ill_fault(found, variable.ill);
    }
    found
}

/// The first of a fault and that at this offset, if there is one.
fn with_ill_fault(found: Option<ScriptRefusal>, ill: Option<u64>) -> Option<ScriptRefusal>
    ensures { result ≡ least_from found (ill_faults ill) }
{
    match ill {
        Some(at) => Some(sooner(found, ScriptRefusal::Profile(at))),
        None => found,
    }
}

/// The offset of the first byte of a term.
fn first_byte(term: &Term) -> u64
    ensures { result ≡ first_byte (phrase term.now) }
{
    match term {
        Term::Number(at, _) => *at,
        Term::Large(at) => *at,
        Term::Use(at, _, _) => *at,
        Term::Let(at, _, _) => *at,
        Term::Quantified(at, _, _, _) => *at,
        Term::Annotated(at, _) => *at,
        Term::Ill(at) => *at,
    }
}
