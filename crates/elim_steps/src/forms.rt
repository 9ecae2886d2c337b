// Conjunctions of literals, put into form.

ghost use Rattle.clause_set.specs.Clauses.{clause_of, clauses_of, found};
ghost use Rattle.clause_set.specs.Formed.{IsNormalized};
ghost use Rattle.clause_set.specs.Literals.{HasDivisor};
ghost use Rattle.std.specs.Prelude.{◌≡◌, [], ◌∷◌, ◌++◌, All, IfOk, OnOk};

use clause_set::{Clause, Literal, copy_literals};
use linear_term::Memory;
use sqlite_items::Items;
use std::alloc::Global;

/// The clauses of conjunctions, without those that are found to be false.
#[tactic(auto, using(clause_set::proofs::Walks::walks))]
pub fn clauses(alloc: Global, ds: &[Items<Literal>]) -> Result<Items<Clause>, Memory>
    requires { All (λ d. All HasDivisor d) ds.now }
    ensures { IfOk result (λ cs. cs ≡ clauses_of ds.now) }
{
    let mut out = Items::new(alloc);
    for d in ds {
        let literals = copy_literals(alloc, d.as_slice())?;
        push_found(Clause::of(alloc, literals)?, &mut out)?;
    }
    Ok(out)
}

/// The clause of one conjunction, unless it is found to be false.
#[tactic(auto, using(crate::proofs::Works::one_form))]
pub fn in_form(alloc: Global, ls: Items<Literal>) -> Result<Items<Clause>, Memory>
    requires { All HasDivisor ls }
    ensures { IfOk result (λ cs. cs ≡ clauses_of (ls ∷ [])) }
{
    let mut out = Items::new(alloc);
    push_found(Clause::of(alloc, ls)?, &mut out)?;
    Ok(out)
}

/// The clause of literals that are in normal form and of others beside them, unless it is found to be false.
#[tactic(auto, using(crate::proofs::Works::one_form))]
pub fn in_form_with(
    alloc: Global,
    kept: Items<Literal>,
    more: Items<Literal>,
) -> Result<Items<Clause>, Memory>
    requires kept { All IsNormalized kept }
    requires divisors { All HasDivisor more }
    ensures { IfOk result (λ cs. cs ≡ clauses_of ((kept ++ more) ∷ [])) }
{
    let mut out = Items::new(alloc);
    push_found(Clause::with(alloc, kept, more)?, &mut out)?;
    Ok(out)
}

fn push_found(c: Option<Clause>, out: &mut Items<Clause>) -> Result<(), Memory>
    ensures { OnOk result (out.new ≡ out.old ++ found c) }
{
    match c {
        Some(clause) => Ok(out.push(clause)?),
        None => Ok(()),
    }
}

/// One literal alone.
pub fn alone(alloc: Global, l: Literal) -> Result<Items<Literal>, Memory>
    ensures { IfOk result (λ ls. ls ≡ l ∷ []) }
{
    let mut out = Items::new(alloc);
    out.push(l)?;
    Ok(out)
}
