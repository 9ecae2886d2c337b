// Disjunctive normal forms: disjunctions of clauses, and charged operations on them.

ghost use Rattle.clause_set.specs.Clause.{IsDnf};
ghost use Rattle.clause_set.specs.Dnfs.{conjunction, disjunction, is_top, joined, tidied, tidying, top};
ghost use Rattle.linear_term.specs.declared.range.Place.{Place};
ghost use Rattle.clause_set.specs.Literals.{dnf_truth};
ghost use Rattle.base_budget.specs.Work.{Charged};
ghost use Rattle.std.specs.Prelude.{◌≡◌, ◌≢◌, ◌<◌, ◌++◌, ◌&&◌, ◌||◌, [], IfOk, length, List, slice_get, Some, ℤ};

use super::clause::Clause;
use super::clauses::{copy_clauses, is_top, joined, know_clauses, know_forms};
use super::covering::{tidied_both, tidied_into, uncovered};
use super::order::sort_once;
use super::weight::{
    conjunction_charge, disjunction_charge, tidying_charge, tidying_charge_of_both,
};
use base_budget::{Purse, StepFault};
use linear_term::Memory;
use sqlite_items::Items;
use std::alloc::Global;
use std::marker::Model;

/// A disjunction of clauses, sorted, each once, none covered by another one. Contracts see it as the list of its
/// clauses, each the list of its literals.
pub struct Dnf {
    clauses: Items<Clause>,
}

impl Model for Dnf {
    ghost use Rattle.std.specs.Prelude.{List};
    ghost use Rattle.clause_set.specs.declared.literal.Literal.{Literal};
    ghost use Rattle.clause_set.specs.Clause.{IsDnf};

    ghost Value = { List (List Literal) };

    ghost view = { λ d. d.clauses };

    ghost invariant = { λ d. IsDnf d.clauses };
}

impl Drop for Dnf {
    fn drop(self) {
        let Dnf { clauses: _ } = self;
    }
}

impl Dnf {
    /// The disjunction that is true: one clause without literals.
    #[tactic(auto, using(crate::proofs::Canonical::dnfs))]
    pub fn top(alloc: Global) -> Result<Dnf, Memory>
        ensures { IfOk result (λ d. d ≡ top) }
    {
        let mut clauses = Items::new(alloc);
        clauses.push(Clause::without_literals(alloc))?;
        Ok(Dnf { clauses })
    }

    /// The disjunction that is false: no clause.
    #[tactic(auto, using(crate::proofs::Canonical::dnfs))]
    pub fn bottom(alloc: Global) -> Dnf
        ensures { result ≡ [] }
    {
        Dnf {
            clauses: Items::new(alloc),
        }
    }

    /// Whether this is the disjunction that is true: one clause without literals.
    pub fn is_top(&self) -> bool
        ensures { result ≡ is_top self.now }
    {
        is_top(self.clauses())
    }

    /// The clauses are in form: this call does nothing, and tells its caller so.
    pub fn know_dnf(&self)
        ensures { IsDnf self.now }
    {
        let _ = &self.clauses;
    }

    /// How many clauses it has.
    pub fn len(&self) -> usize
        ensures { result ≡ length self.now }
    {
        self.clauses.len()
    }

    /// The i-th clause, for i below `len`.
    pub fn get(&self, i: usize) -> &Clause
        requires { i < length self.now }
        ensures { slice_get self.now i ≡ Some result.now }
    {
        &self.clauses.as_slice()[i]
    }

    /// The clauses in their order.
    pub fn clauses(&self) -> &[Clause]
        ensures { result.now ≡ self.now }
    {
        self.clauses.as_slice()
    }

    /// Its clauses in their order, handed over.
    pub fn into_clauses(self) -> Items<Clause>
        ensures { result ≡ self }
    {
        let Dnf { clauses } = self;
        clauses
    }

    /// An equal disjunction, or running out of memory.
    #[tactic(auto, using(crate::proofs::Canonical::dnfs))]
    pub fn copy(&self, alloc: Global) -> Result<Dnf, Memory>
        ensures { IfOk result (λ d. d ≡ self.now) }
    {
        let clauses = copy_clauses(alloc, self.clauses.as_slice())?;
        Ok(Dnf { clauses })
    }

    /// The clauses sorted, each once, without those that another one covers: true where one of them is. It charges the
    /// square of their number, and never answers Overflow.
    #[tactic(auto, using(crate::proofs::Ranges::tidying_never, crate::proofs::Truths::answers))]
    pub fn tidy(alloc: Global, cs: Items<Clause>, purse: &mut Purse) -> Result<Dnf, StepFault>
        ensures charged { Charged (tidying cs) purse.old result purse.new }
        ensures in_range { (p : Place) → result ≢ Err (StepFault.Overflow p) }
        ensures truth { IfOk result (λ d. (e : List ℤ) → dnf_truth d e ≡ dnf_truth cs e) }
    {
        charged_tidied(alloc, cs, purse)
    }

    /// The same without a charge, for work that is charged as a whole.
    #[tactic(auto, using(crate::proofs::Truths::answers, crate::proofs::Canonical::dnfs))]
    pub fn tidied(alloc: Global, cs: Items<Clause>) -> Result<Dnf, Memory>
        ensures form { IfOk result (λ d. d ≡ tidied cs) }
        ensures truth { IfOk result (λ d. (e : List ℤ) → dnf_truth d e ≡ dnf_truth cs e) }
    {
        let clauses = tidied(alloc, cs)?;
        Ok(Dnf { clauses })
    }

    /// The tidy form of two tidy lists together.
    #[tactic(auto, using(crate::proofs::Canonical::dnfs))]
    fn of_both(alloc: Global, a: &[Clause], b: &[Clause]) -> Result<Dnf, Memory>
        requires left { IsDnf a.now }
        requires right { IsDnf b.now }
        ensures { IfOk result (λ d. d ≡ tidied (a.now ++ b.now)) }
    {
        let clauses = tidied_both(alloc, a, b)?;
        Ok(Dnf { clauses })
    }

    /// The tidy form of two disjunctions together: where one is true or false, it is one of them.
    #[tactic(auto, using(crate::proofs::Canonical::dnfs, crate::proofs::Across::decided))]
    fn of_both_into(alloc: Global, a: Dnf, b: Dnf) -> Result<Dnf, Memory>
        ensures { IfOk result (λ d. d ≡ tidied (a ++ b)) }
    {
        a.know_dnf();
        b.know_dnf();
        if a.len() == 0 {
            return Ok(b);
        }
        if b.len() == 0 {
            return Ok(a);
        }
        if is_top(a.clauses()) {
            return Ok(a);
        }
        if is_top(b.clauses()) {
            return Ok(b);
        }
        let clauses = tidied_into(alloc, a.into_clauses(), b.into_clauses())?;
        Ok(Dnf { clauses })
    }

    /// An equal disjunction: tidying leaves it as it is.
    #[tactic(auto, using(crate::proofs::Across::trivial))]
    fn tidy_copy(&self, alloc: Global) -> Result<Dnf, Memory>
        ensures { IfOk result (λ d. d ≡ tidied self.now) }
    {
        self.know_dnf();
        self.copy(alloc)
    }
}

#[tactic(auto, using(crate::proofs::Charges::charges))]
pub(crate) fn charged_tidied(
    alloc: Global,
    cs: Items<Clause>,
    purse: &mut Purse,
) -> Result<Dnf, StepFault>
    ensures { Charged (tidying cs) purse.old result purse.new }
{
    purse.step(tidying_charge(cs.len()))?;
    Ok(Dnf::tidied(alloc, cs)?)
}

/// The clauses in tidy form.
#[tactic(auto, using(crate::proofs::Canonical::few), unfolding(crate::specs::Dnfs::tidied))]
fn tidied(alloc: Global, cs: Items<Clause>) -> Result<Items<Clause>, Memory>
    ensures { IfOk result (λ d. d ≡ tidied cs) }
{
    if cs.len() < 2 {
        return Ok(cs);
    }
    let sorted = sort_once(alloc, cs)?;
    uncovered(alloc, sorted)
}

/// The disjunction of a and b. It charges 1 and both weights, and then tidies; it never answers Overflow.
#[tactic(auto, using(crate::proofs::Ranges::disjunction_never, crate::proofs::Truths::answers))]
pub fn or(alloc: Global, a: &Dnf, b: &Dnf, purse: &mut Purse) -> Result<Dnf, StepFault>
    ensures charged { Charged (disjunction a.now b.now) purse.old result purse.new }
    ensures in_range { (p : Place) → result ≢ Err (StepFault.Overflow p) }
    ensures truth { IfOk result (λ d. (e : List ℤ) → dnf_truth d e ≡ (dnf_truth a.now e || dnf_truth b.now e)) }
{
    a.know_dnf();
    b.know_dnf();
    disjoin(alloc, a.clauses(), b.clauses(), purse)
}

#[tactic(auto, using(crate::proofs::Charges::charges))]
fn disjoin(alloc: Global, a: &[Clause], b: &[Clause], purse: &mut Purse) -> Result<Dnf, StepFault>
    requires left { IsDnf a.now }
    requires right { IsDnf b.now }
    ensures { Charged (disjunction a.now b.now) purse.old result purse.new }
{
    purse.step(disjunction_charge(a, b))?;
    charged_both(alloc, a, b, purse)
}

/// Two tidy lists tidied together.
#[tactic(auto, using(crate::proofs::Charges::charges, crate::proofs::Lengths::lengths))]
fn charged_both(
    alloc: Global,
    a: &[Clause],
    b: &[Clause],
    purse: &mut Purse,
) -> Result<Dnf, StepFault>
    requires left { IsDnf a.now }
    requires right { IsDnf b.now }
    ensures { Charged (tidying (a.now ++ b.now)) purse.old result purse.new }
{
    purse.step(tidying_charge_of_both(a.len(), b.len()))?;
    Ok(Dnf::of_both(alloc, a, b)?)
}

/// The same as `or`, of disjunctions that are handed over: their clauses are not copied where all stay.
#[tactic(auto, using(crate::proofs::Ranges::disjunction_never, crate::proofs::Truths::answers))]
pub fn or_into(alloc: Global, a: Dnf, b: Dnf, purse: &mut Purse) -> Result<Dnf, StepFault>
    ensures charged { Charged (disjunction a b) purse.old result purse.new }
    ensures in_range { (p : Place) → result ≢ Err (StepFault.Overflow p) }
    ensures truth { IfOk result (λ d. (e : List ℤ) → dnf_truth d e ≡ (dnf_truth a e || dnf_truth b e)) }
{
    disjoin_into(alloc, a, b, purse)
}

#[tactic(auto, using(crate::proofs::Charges::charges))]
fn disjoin_into(alloc: Global, a: Dnf, b: Dnf, purse: &mut Purse) -> Result<Dnf, StepFault>
    ensures { Charged (disjunction a b) purse.old result purse.new }
{
    purse.step(disjunction_charge(a.clauses(), b.clauses()))?;
    charged_into(alloc, a, b, purse)
}

#[tactic(auto, using(crate::proofs::Charges::charges, crate::proofs::Lengths::lengths))]
fn charged_into(alloc: Global, a: Dnf, b: Dnf, purse: &mut Purse) -> Result<Dnf, StepFault>
    ensures { Charged (tidying (a ++ b)) purse.old result purse.new }
{
    purse.step(tidying_charge_of_both(a.len(), b.len()))?;
    Ok(Dnf::of_both_into(alloc, a, b)?)
}

/// The conjunction of a and b. It charges 1, and each weight as often as there are clauses on the other side, and then
/// tidies; it never answers Overflow.
#[tactic(auto, using(crate::proofs::Ranges::conjunction_never, crate::proofs::Truths::answers))]
pub fn and(alloc: Global, a: &Dnf, b: &Dnf, purse: &mut Purse) -> Result<Dnf, StepFault>
    ensures charged { Charged (conjunction a.now b.now) purse.old result purse.new }
    ensures in_range { (p : Place) → result ≢ Err (StepFault.Overflow p) }
    ensures truth { IfOk result (λ d. (e : List ℤ) → dnf_truth d e ≡ (dnf_truth a.now e && dnf_truth b.now e)) }
{
    know_clauses(a.clauses());
    know_clauses(b.clauses());
    conjoin(alloc, a, b, purse)
}

#[tactic(auto, using(crate::proofs::Charges::charges))]
fn conjoin(alloc: Global, a: &Dnf, b: &Dnf, purse: &mut Purse) -> Result<Dnf, StepFault>
    ensures { Charged (conjunction a.now b.now) purse.old result purse.new }
{
    purse.step(conjunction_charge(a.clauses(), b.clauses()))?;
    charged_joined(alloc, a, b, purse)
}

/// The conjunctions of the clauses, tidied: where one side is true, it is the other one.
#[tactic(auto, using(crate::proofs::Across::trivial, crate::proofs::Charges::charges))]
fn charged_joined(alloc: Global, a: &Dnf, b: &Dnf, purse: &mut Purse) -> Result<Dnf, StepFault>
    ensures { Charged (tidying (joined a.now b.now)) purse.old result purse.new }
{
    if is_top(a.clauses()) {
        know_forms(b.clauses());
        return charged_copy(alloc, b, purse);
    }
    if is_top(b.clauses()) {
        know_forms(a.clauses());
        return charged_copy(alloc, a, purse);
    }
    let all = joined(alloc, a.clauses(), b.clauses())?;
    charged_tidied(alloc, all, purse)
}

/// What is tidy, tidied.
#[tactic(auto, using(crate::proofs::Charges::charges))]
fn charged_copy(alloc: Global, d: &Dnf, purse: &mut Purse) -> Result<Dnf, StepFault>
    ensures { Charged (tidying d.now) purse.old result purse.new }
{
    purse.step(tidying_charge(d.len()))?;
    Ok(d.tidy_copy(alloc)?)
}
