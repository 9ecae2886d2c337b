// Formulas of the calculus put together.

ghost use Rattle.std.specs.Prelude.{◌≡◌, cond, map, IfOk, List, [], ◌∷◌};
ghost use Rattle.linear_term.specs.Linear as linear;
ghost use Rattle.formula.specs.Form.{differs, fails, holds};
ghost use Rattle.formula.specs.Tree.{form, forms_of};
ghost use Rattle.form_encoding.specs.Encoding as encoding;

use formula::{Core, Shared};
use linear_term::{Memory, Term};
use sqlite_items::Items;
use std::alloc::Global;

/// The conjunction with plus, the disjunction with minus.
#[tactic(auto, using(formula::proofs::Building::formed))]
pub fn junction(plus: bool, members: Items<Core>) -> Core
    ensures { form result ≡ encoding.junction plus (forms_of members) }
{
    if plus {
        return Core::And(members);
    }
    Core::Or(members)
}

/// For all with plus, for some with minus.
pub fn quantified(alloc: Global, plus: bool, body: Core) -> Result<Core, Memory>
    ensures { IfOk result (λ f. form f ≡ encoding.quantified plus (form body)) }
{
    let body = Shared::new(alloc, body)?;
    if plus {
        return Ok(Core::Forall(body));
    }
    Ok(Core::Exists(body))
}

/// The case that the function has at these terms another value than the name n, alone in a list.
#[tactic(auto, using(formula::proofs::Building::formed))]
pub fn other_value(
    alloc: Global,
    function: u32,
    terms: Items<Term>,
    n: u32,
) -> Result<Items<Core>, Memory>
    ensures { IfOk result (λ cases. map form cases ≡ differs function terms (linear.name n) ∷ []) }
{
    let graph = Core::NotFun(function, terms, Term::name(alloc, n));
    let mut cases = Items::new(alloc);
    cases.push(graph)?;
    Ok(cases)
}

/// The predicate at the terms with plus, its negation with minus.
#[tactic(auto, using(formula::proofs::Building::formed))]
pub fn signed_predicate(plus: bool, p: u32, terms: Items<Term>) -> Core
    ensures { form result ≡ cond plus (holds p terms) (fails p terms) }
{
    if plus {
        return Core::Pred(p, terms);
    }
    Core::NotPred(p, terms)
}
