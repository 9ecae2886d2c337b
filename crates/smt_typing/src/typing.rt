// The reader of terms that the walk over commands asks.

ghost use Rattle.smt_commands.specs.Least.{least_from};
ghost use Rattle.smt_commands.specs.declared.refusal.ScriptRefusal.TheVariants as r;
ghost use Rattle.smt_terms.specs.Evaluation.{texts_of};
ghost use Rattle.smt_terms.specs.Term.{phrase};
ghost use Rattle.smt_typing.specs.Faults.{names_in, uses};
ghost use Rattle.smt_lists.specs.Expressions.{expr};
ghost use Rattle.std.specs.Prelude.{◌≡◌, ◌∷◌, ◌&&◌, [], IfOk, map, not, if◌then◌else◌};
ghost use Rattle.base_texts.specs.Texts.{is_among};

use crate::bound::{Bound, Site, is_variable};
use crate::judging::judge_needed;
use crate::reading::{read_term, read_variables};
use crate::terms::{Head, Terms};
use crate::uses::uses;
use linear_term::Memory;
use smt_commands::{ScriptRefusal, Table, sooner};
use smt_lists::Sexp;
use smt_terms::{Sort, Term, Variable};
use sqlite_items::Items;
use std::alloc::Global;

/// The reader of terms: an S-expression is read as a term, and refused for its first fault.
#[derive(Clone, Copy, Debug)]
pub struct Typing;

impl Terms for Typing {
    ghost use Rattle.smt_typing.specs.Faults.{script_faults, script_uses};

    ghost faults = { script_faults };

    ghost occurs = { script_uses };

    fn with_faults(
        &self,
        alloc: Global,
        found: Option<ScriptRefusal>,
        table: &Table,
        sort: Sort,
        e: &Sexp,
    ) -> Result<Option<ScriptRefusal>, Memory> {
        let term = read_term(alloc, e)?;
        let site = Site {
            table,
            bound: &Bound::Nothing,
        };
        Ok(judge_needed(alloc, &site, found, Some(sort), &term)?.found)
    }

    fn with_body_faults(
        &self,
        alloc: Global,
        found: Option<ScriptRefusal>,
        table: &Table,
        head: Head<'_>,
        e: &Sexp,
    ) -> Result<Option<ScriptRefusal>, Memory> {
        let variables = argument_variables(alloc, head.arguments)?;
        let term = read_term(alloc, e)?;
        let found = with_use_fault(found, head.at, head.text, variables.as_slice(), &term);
        let bound = Bound::Variables(variables.as_slice(), &Bound::Nothing);
        let site = Site {
            table,
            bound: &bound,
        };
        Ok(judge_needed(alloc, &site, found, head.sort, &term)?.found)
    }
}

/// The arguments of a definition as variables. What is no list of them is not of the form of a definition.
pub fn argument_variables(alloc: Global, arguments: &[Sexp]) -> Result<Items<Variable>, Memory>
    ensures { IfOk result (λ xs. texts_of xs ≡ names_in (map expr arguments.now)) }
{
    match read_variables(alloc, arguments)? {
        Some(variables) => Ok(variables),
        None => Ok(Items::new(alloc)),
    }
}

/// The first of a fault and that of a definition, at this offset, whose term uses its symbol.
fn with_use_fault(
    found: Option<ScriptRefusal>,
    at: u64,
    text: &[u8],
    arguments: &[Variable],
    term: &Term,
) -> Option<ScriptRefusal>
    ensures { result ≡ least_from found (if not (is_among text.now (texts_of arguments.now)) && uses text.now (phrase term.now) then r.Profile at ∷ [] else []) }
{
    if is_variable(arguments, text) {
        return found;
    }
    if !uses(text, term) {
        return found;
    }
    Some(sooner(found, ScriptRefusal::Profile(at)))
}
