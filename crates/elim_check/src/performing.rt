// The rule that an entry names.

ghost use Rattle.clause_set.specs.Rules.{applies, rule};
ghost use Rattle.base_budget.specs.Work.{Charged};
ghost use Rattle.base_budget.specs.declared.log.Entry.TheVariants.{Dark, Exact};
ghost use Rattle.std.specs.Prelude.{◌≡◌, true};

use base_budget::{Entry, Purse, StepFault};
use clause_set::Clause;
use elim_rules::{
    Side, apart_rule, dark, equation_rule, exact, literals_on, merge_rule, one_sided, shift_rule,
};
use sqlite_items::Items;
use std::alloc::Global;

/// What the exact shadow leaves.
#[tactic(auto, using(base_budget::proofs::Charging::charging, crate::proofs::Entries::entries))]
fn by_exact_shadow(
    alloc: Global,
    c: &Clause,
    x: u32,
    purse: &mut Purse,
) -> Result<Items<Clause>, StepFault>
    ensures { Charged (rule x c.now Exact) purse.old result purse.new }
{
    let lows = literals_on(alloc, c.literals(), x, Side::Lower)?;
    let ups = literals_on(alloc, c.literals(), x, Side::Upper)?;
    exact(alloc, c, x, lows.as_slice(), ups.as_slice(), purse)
}

/// What the dark shadow and its splinters leave.
#[tactic(auto, using(base_budget::proofs::Charging::charging, crate::proofs::Entries::entries))]
fn by_dark_shadow(
    alloc: Global,
    c: &Clause,
    x: u32,
    purse: &mut Purse,
) -> Result<Items<Clause>, StepFault>
    requires { applies x c.now Dark ≡ true }
    ensures { Charged (rule x c.now Dark) purse.old result purse.new }
{
    let lows = literals_on(alloc, c.literals(), x, Side::Lower)?;
    let ups = literals_on(alloc, c.literals(), x, Side::Upper)?;
    dark(alloc, c, x, lows.as_slice(), ups.as_slice(), purse)
}

/// What the rule of the entry leaves of c, to which it applies. The literals that it leaves as they are are moved.
#[tactic(auto, using(crate::proofs::Entries::entries))]
pub(crate) fn perform(
    alloc: Global,
    c: Clause,
    x: u32,
    entry: Entry,
    purse: &mut Purse,
) -> Result<Items<Clause>, StepFault>
    requires { applies x c entry ≡ true }
    ensures { Charged (rule x c entry) purse.old result purse.new }
{
    match entry {
        Entry::Equation(i) => equation_rule(alloc, c, x, i as usize, purse),
        Entry::Apart(i) => apart_rule(alloc, c, x, i as usize, purse),
        Entry::Merge(i, j) => merge_rule(alloc, c, x, i as usize, j as usize, purse),
        Entry::Shift(i) => shift_rule(alloc, c, x, i as usize, purse),
        Entry::OneSided => one_sided(alloc, &c, x, purse),
        Entry::Exact => by_exact_shadow(alloc, &c, x, purse),
        Entry::Dark => by_dark_shadow(alloc, &c, x, purse),
    }
}
