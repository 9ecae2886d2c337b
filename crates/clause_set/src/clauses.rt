// Lists of clauses: copies, and the conjunctions of each with each.

ghost use Rattle.clause_set.specs.Clause.{IsClause};
ghost use Rattle.clause_set.specs.Clauses.{clause_of, found};
ghost use Rattle.clause_set.specs.Dnfs.{is_top, joined, joined_with, top};
ghost use Rattle.clause_set.specs.Literals.{AreLiterals};
ghost use Rattle.std.specs.Prelude.{◌≡◌, ◌++◌, All, IfOk, IsTrue, OnOk};

use super::clause::Clause;
use base_budget::room_for;
use linear_term::Memory;
use sqlite_items::Items;
use std::alloc::Global;

/// The same clauses, or running out of memory.
#[tactic(auto, using(crate::proofs::Walks::copies))]
pub(crate) fn copy_clauses(alloc: Global, cs: &[Clause]) -> Result<Items<Clause>, Memory>
    ensures { IfOk result (λ copy. copy ≡ cs.now) }
{
    let mut out = room_for(alloc, cs.len())?;
    for c in cs {
        out.push(c.copy(alloc)?)?;
    }
    Ok(out)
}

/// The literals of clauses are literals: this call does nothing, and tells its caller so.
pub(crate) fn know_clauses(cs: &[Clause])
    ensures { AreLiterals cs.now }
{
    for c in cs {
        c.know_clause();
    }
}

/// The clauses are normal forms: this call does nothing, and tells its caller so.
pub(crate) fn know_forms(cs: &[Clause])
    ensures { All IsClause cs.now }
{
    for c in cs {
        c.know_clause();
    }
}

/// Whether the clauses are those of the disjunction that is true.
#[tactic(auto, using(crate::proofs::Across::trivial))]
pub(crate) fn is_top(cs: &[Clause]) -> bool
    ensures top { IsTrue result → cs.now ≡ top }
    ensures exact { result ≡ is_top cs.now }
{
    let Some((c, rest)) = cs.split_first() else {
        return false;
    };
    c.len() == 0 && rest.is_empty()
}

/// The conjunctions of each clause of a with each of b, those of a outermost, without false ones.
#[tactic(auto, using(crate::proofs::Walks::walks))]
pub(crate) fn joined(alloc: Global, a: &[Clause], b: &[Clause]) -> Result<Items<Clause>, Memory>
    ensures { IfOk result (λ all. all ≡ joined a.now b.now) }
{
    let mut out = Items::new(alloc);
    for c in a {
        push_joined_with(alloc, c, b, &mut out)?;
    }
    Ok(out)
}

/// Puts the conjunctions of c with each of d after the others, without false ones.
#[tactic(auto, using(crate::proofs::Walks::walks))]
fn push_joined_with(
    alloc: Global,
    c: &Clause,
    d: &[Clause],
    out: &mut Items<Clause>,
) -> Result<(), Memory>
    ensures { OnOk result (out.new ≡ out.old ++ joined_with c.now d.now) }
{
    for e in d {
        push_joined(alloc, c, e, out)?;
    }
    Ok(())
}

/// Puts the conjunction of c and e after the others, unless it is found to be false.
fn push_joined(alloc: Global, c: &Clause, e: &Clause, out: &mut Items<Clause>) -> Result<(), Memory>
    ensures { OnOk result (out.new ≡ out.old ++ found (clause_of (c.now ++ e.now))) }
{
    match Clause::of_both(alloc, c, e)? {
        Some(clause) => Ok(out.push(clause)?),
        None => Ok(()),
    }
}

/// The clause alone; none where there is none.
pub(crate) fn found(alloc: Global, c: Option<Clause>) -> Result<Items<Clause>, Memory>
    ensures { IfOk result (λ cs. cs ≡ found c) }
{
    let mut out = Items::new(alloc);
    match c {
        Some(clause) => {
            out.push(clause)?;
            Ok(out)
        }
        None => Ok(out),
    }
}
