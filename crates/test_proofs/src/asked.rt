// The formulas of the rows.

ghost use Rattle.formula.specs.Tree.{form};
ghost use Rattle.formula.specs.Form.{and_form, disjunction, existential, holds, no_form};
ghost use Rattle.test_proofs.specs.Asked.{asked_constants, asked_form};
ghost use Rattle.linear_term.specs.Linear.{name};
ghost use Rattle.std.specs.Prelude.{◌≡◌, ◌∷◌, [], IfOk};

use formula::{Core, Shared};
use linear_term::{Memory, Term};
use sqlite_items::Items;
use std::alloc::Global;

/// A formula that a proof is asked of.
#[derive(Clone, Copy)]
pub(crate) enum Asked {
    /// Predicate 0 holds somewhere: of one member, so that each use of the quantifier brings a disjunction.
    Somewhere,
    /// The formula that is true: a conjunction of nothing.
    Truth,
}

impl Asked {
    /// How many constants the formula has.
    pub(crate) fn constants(self) -> u32
        ensures { result ≡ asked_constants self }
    {
        match self {
            Asked::Somewhere | Asked::Truth => 0,
        }
    }

    /// The formula.
    #[tactic(auto, using(formula::proofs::Building::formed))]
    pub(crate) fn root(self, alloc: Global) -> Result<Core, Memory>
        ensures { IfOk result (λ f. form f ≡ asked_form self) }
    {
        match self {
            Asked::Somewhere => somewhere(alloc),
            Asked::Truth => Ok(Core::And(Items::new(alloc))),
        }
    }
}

#[tactic(auto, using(formula::proofs::Building::formed))]
fn somewhere(alloc: Global) -> Result<Core, Memory>
    ensures { IfOk result (λ f. form f ≡ existential (disjunction (and_form (holds 0 (name 0 ∷ [])) no_form))) }
{
    let mut terms = Items::new(alloc);
    terms.push(Term::name(alloc, 0))?;
    let mut members = Items::new(alloc);
    members.push(Core::Pred(0, terms))?;
    Ok(Core::Exists(Shared::new(alloc, Core::Or(members))?))
}
