// Clauses: conjunctions of literals in normal form.

ghost use Rattle.clause_set.specs.Clause.{IsClause};
ghost use Rattle.clause_set.specs.Clauses.{clause_of, is_false, literals_of};
ghost use Rattle.clause_set.specs.Dnfs.{covers};
ghost use Rattle.clause_set.specs.Formed.{IsNormalized};
ghost use Rattle.clause_set.specs.Literals.{answer_truth, clause_truth, HasDivisor, IsLiteral, literal_truth, norm_truth};
ghost use Rattle.clause_set.specs.Normal.{normal_of};
ghost use Rattle.std.specs.List.{flat_map, list_any};
ghost use Rattle.std.specs.Prelude.{◌≡◌, ◌<◌, ◌++◌, [], All, cond, false, IfOk, length, List, None, OnOk, slice_get, Some, ℤ};

use super::beside::beside;
use super::compact::compact;
use super::conjoined::conjoined;
use super::literal::{Literal, Norm};
use super::marks::{Marks, all_marks};
use super::normal_form::normalized;
use super::order::{Ordered, compare_slices};
use base_budget::room_for;
use linear_term::Memory;
use sqlite_items::Items;
use std::alloc::Global;
use std::cmp::Ordering;
use std::marker::Model;

/// The normal form of a literal, whose divisor is from 1 to 2^127 − 1. It is true at the same integers.
pub fn normal(alloc: Global, l: Literal) -> Result<Norm, Memory>
    requires { HasDivisor l }
    ensures form { IfOk result (λ n. n ≡ normal_of l) }
    ensures truth { IfOk result (λ n. (e : List ℤ) → norm_truth n e ≡ literal_truth l e) }
{
    l.term().know_normal();
    normalized(alloc, l)
}

/// A conjunction of literals in normal form: each linear form has its tightest bounds, no literal is true or false by
/// itself, and the literals are sorted, each once. Contracts see it as the list of its literals; their marks are kept with
/// them.
pub struct Clause {
    literals: Items<Literal>,
    marks: Marks,
}

impl Model for Clause {
    ghost use Rattle.std.specs.Prelude.{List};
    ghost use Rattle.clause_set.specs.declared.literal.Literal.{Literal};
    ghost use Rattle.clause_set.specs.Marks.{IsMarked};

    ghost Value = { List Literal };

    ghost view = { λ c. c.literals };

    ghost invariant = { λ c. IsMarked c.literals c.marks.own c.marks.opposite };
}

impl Drop for Clause {
    fn drop(self) {
        let Clause {
            literals: _,
            marks: _,
        } = self;
    }
}

/// The terms of literals are in normal form: this call does nothing, and tells its caller so.
#[tactic(auto, using(crate::proofs::NormalTruth::known))]
fn know_literals(ls: &[Literal])
    requires { All HasDivisor ls.now }
    ensures literals { All IsLiteral ls.now }
    ensures divisors { All HasDivisor ls.now }
{
    for l in ls {
        l.term().know_normal();
    }
}

fn is_false(n: &Norm) -> bool
    ensures { result ≡ is_false n.now }
{
    match n {
        Norm::True => false,
        Norm::False => true,
        Norm::Lit(_) => false,
    }
}

fn push_literal(n: Norm, out: &mut Items<Literal>) -> Result<(), Memory>
    ensures { OnOk result (out.new ≡ out.old ++ literals_of n) }
{
    match n {
        Norm::True => Ok(()),
        Norm::False => Ok(()),
        Norm::Lit(l) => Ok(out.push(l)?),
    }
}

/// The normal literals of a conjunction without those that are true; none where one is false.
#[tactic(auto, using(crate::proofs::Walks::walks))]
fn normal_literals(alloc: Global, ls: &[Literal]) -> Result<Option<Items<Literal>>, Memory>
    requires { All HasDivisor ls.now }
    ensures { IfOk result (λ answer. answer ≡ cond (list_any (λ l. is_false (normal_of l)) ls.now) None (Some (flat_map (λ l. literals_of (normal_of l)) ls.now))) }
{
    let mut out = room_for(alloc, ls.len())?;
    for l in ls {
        let n = normalized(alloc, l.copy()?)?;
        if is_false(&n) {
            return Ok(None);
        }
        push_literal(n, &mut out)?;
    }
    Ok(Some(out))
}

impl Clause {
    /// The clause without literals, which is true.
    #[tactic(auto, using(crate::proofs::Canonical::true_clauses))]
    pub(crate) fn without_literals(alloc: Global) -> Clause
        ensures { result ≡ [] }
    {
        let marks = Marks {
            own: 0,
            opposite: 0,
        };
        Clause {
            literals: Items::new(alloc),
            marks,
        }
    }

    /// The clause of a conjunction of literals, whose divisors are from 1 to 2^127 − 1: true at the same integers; none
    /// where the conjunction is found to be false.
    pub fn of(alloc: Global, ls: Items<Literal>) -> Result<Option<Clause>, Memory>
        requires { All HasDivisor ls }
        ensures form { IfOk result (λ c. c ≡ clause_of ls) }
        ensures truth { IfOk result (λ c. (e : List ℤ) → answer_truth c e ≡ clause_truth ls e) }
    {
        know_literals(ls.as_slice());
        let Some(literals) = clause_literals(alloc, ls.as_slice())? else {
            return Ok(None);
        };
        know_literals(literals.as_slice());
        let marks = all_marks(literals.as_slice());
        Ok(Some(Clause { literals, marks }))
    }

    /// The clause of literals that are in normal form, and of others beside them: true at the same integers; none where
    /// that is found to be false. Those in normal form are kept as they are, and it takes least time where they are sorted.
    #[tactic(auto, using(crate::proofs::Joining::joined))]
    pub fn with(
        alloc: Global,
        kept: Items<Literal>,
        more: Items<Literal>,
    ) -> Result<Option<Clause>, Memory>
        requires kept { All IsNormalized kept }
        requires divisors { All HasDivisor more }
        ensures form { IfOk result (λ c. c ≡ clause_of (kept ++ more)) }
    {
        know_literals(kept.as_slice());
        know_literals(more.as_slice());
        let Some(literals) = beside(alloc, kept, more)? else {
            return Ok(None);
        };
        know_literals(literals.as_slice());
        let marks = all_marks(literals.as_slice());
        Ok(Some(Clause { literals, marks }))
    }

    /// The conjunction of two clauses, whose literals are in normal form already; none where it is found to be false.
    #[tactic(auto, using(crate::proofs::Merging::conjunctions))]
    pub(crate) fn of_both(alloc: Global, c: &Clause, d: &Clause) -> Result<Option<Clause>, Memory>
        ensures { IfOk result (λ both. both ≡ clause_of (c.now ++ d.now)) }
    {
        c.know_clause();
        d.know_clause();
        let Some(literals) = conjoined(alloc, c.literals(), d.literals())? else {
            return Ok(None);
        };
        know_literals(literals.as_slice());
        let marks = all_marks(literals.as_slice());
        Ok(Some(Clause { literals, marks }))
    }

    /// A clause is a normal form: this call does nothing, and tells its caller so.
    pub fn know_clause(&self)
        ensures { IsClause self.now }
    {
        let _ = &self.literals;
    }

    /// How many literals it has.
    pub fn len(&self) -> usize
        ensures { result ≡ length self.now }
    {
        self.literals.len()
    }

    /// The i-th literal, for i below `len`.
    pub fn get(&self, i: usize) -> &Literal
        requires { i < length self.now }
        ensures { slice_get self.now i ≡ Some result.now }
    {
        &self.literals.as_slice()[i]
    }

    /// The literals in their order.
    pub fn literals(&self) -> &[Literal]
        ensures { result.now ≡ self.now }
    {
        self.literals.as_slice()
    }

    /// The literals in their order, handed over.
    pub fn into_literals(self) -> Items<Literal>
        ensures exact { result ≡ self }
        ensures clause { IsClause result }
    {
        self.know_clause();
        let Clause { literals, marks: _ } = self;
        literals
    }

    /// Whether its marks are among those of another clause: where they are not, it does not cover that one.
    #[tactic(auto, using(crate::proofs::Marking::apart))]
    pub(crate) fn may_cover(&self, other: &Clause) -> bool
        ensures { result ≡ false → covers self.now other.now ≡ false }
    {
        let (m, n) = (self.marks, other.marks);
        if m.own & n.own != m.own {
            return false;
        }
        m.opposite & n.opposite == m.opposite
    }

    /// An equal clause, or running out of memory.
    pub fn copy(&self, alloc: Global) -> Result<Clause, Memory>
        ensures { IfOk result (λ c. c ≡ self.now) }
    {
        let literals = copy_literals(alloc, self.literals.as_slice())?;
        Ok(Clause {
            literals,
            marks: self.marks,
        })
    }
}

/// The literals of the clause of a conjunction.
#[tactic(auto, unfolding(crate::specs::Clauses::clause_of))]
fn clause_literals(alloc: Global, ls: &[Literal]) -> Result<Option<Items<Literal>>, Memory>
    requires { All HasDivisor ls.now }
    ensures { IfOk result (λ c. c ≡ clause_of ls.now) }
{
    match normal_literals(alloc, ls)? {
        Some(literals) => compact(alloc, literals),
        None => Ok(None),
    }
}

/// The same literals, or running out of memory.
#[tactic(auto, using(crate::proofs::Walks::copies))]
pub fn copy_literals(alloc: Global, ls: &[Literal]) -> Result<Items<Literal>, Memory>
    ensures { IfOk result (λ copy. copy ≡ ls.now) }
{
    let mut out = room_for(alloc, ls.len())?;
    for l in ls {
        out.push(l.copy()?)?;
    }
    Ok(out)
}

impl Ordered for Clause {
    ghost use Rattle.clause_set.specs.Order.{clause_cmp};
    ghost use Rattle.clause_set.specs.Total.{clause_cmp-equal, clause_cmp-total};

    ghost cmp = { clause_cmp };

    ghost total = { clause_cmp-total };

    ghost same = { clause_cmp-equal };

    /// As lists of literals; a proper prefix is less.
    fn compare(&self, other: &Clause) -> Ordering {
        compare_slices(self.literals.as_slice(), other.literals.as_slice())
    }
}
