// Where the rules apply: the tests that a caller makes before it performs one.

ghost use Rattle.clause_set.specs.Names.{is_divisibility, is_equation, is_indivisibility};
ghost use Rattle.clause_set.specs.Rules.{applies, passes};
ghost use Rattle.base_budget.specs.declared.log.Entry.TheVariants.{Apart, Equation, Merge, Shift};
ghost use Rattle.std.specs.List.{list_any};
ghost use Rattle.std.specs.Prelude.{◌≡◌, ◌||◌, count_by, slice_get};

use clause_set::{Clause, Literal};
use elim_steps::{is_divisibility, is_equation, is_indivisibility};

/// Whether literal i of c is an equation with x: `equation_rule` applies.
#[tactic(auto, using(crate::proofs::Placing::places))]
pub fn has_equation_at(c: &Clause, x: u32, i: usize) -> bool
    ensures { result ≡ applies x c.now (Equation i) }
{
    i < c.len() && is_equation(c.get(i), x)
}

/// Whether literal i of c is a negated divisibility with x: `apart_rule` applies.
#[tactic(auto, using(crate::proofs::Placing::places))]
pub fn has_indivisibility_at(c: &Clause, x: u32, i: usize) -> bool
    ensures { result ≡ applies x c.now (Apart i) }
{
    i < c.len() && is_indivisibility(c.get(i), x)
}

/// Whether literal i of c is a divisibility with x.
#[tactic(auto, using(crate::proofs::Placing::places))]
fn has_divisibility_at(c: &Clause, x: u32, i: usize) -> bool
    ensures { result ≡ passes (is_divisibility x) (slice_get c.now i) }
{
    i < c.len() && is_divisibility(c.get(i), x)
}

/// Whether i is below j and both literals of c are divisibilities with x: `merge_rule` applies.
#[tactic(auto, using(crate::proofs::Placing::places))]
pub fn has_divisibilities_at(c: &Clause, x: u32, i: usize, j: usize) -> bool
    ensures { result ≡ applies x c.now (Merge i j) }
{
    i < j && has_divisibility_at(c, x, i) && has_divisibility_at(c, x, j)
}

/// How many literals are divisibilities with x.
#[tactic(auto, using(crate::proofs::Placing::counting))]
fn divisibility_count(ls: &[Literal], x: u32) -> usize
    ensures { result ≡ count_by (is_divisibility x) ls.now }
{
    let mut count = 0;
    for l in ls {
        if is_divisibility(l, x) {
            count += 1;
        }
    }
    count
}

/// Whether a literal is an equation or a negated divisibility with x.
#[tactic(auto, using(clause_set::proofs::Walks::walks))]
fn has_others(ls: &[Literal], x: u32) -> bool
    ensures { result ≡ list_any (λ l. is_equation x l || is_indivisibility x l) ls.now }
{
    for l in ls {
        if is_equation(l, x) || is_indivisibility(l, x) {
            return true;
        }
    }
    false
}

/// Whether literal i of c is the only divisibility with x, where no equation and no negated divisibility has x:
/// `shift_rule` applies.
#[tactic(auto, using(crate::proofs::Placing::places))]
pub fn has_only_divisibility_at(c: &Clause, x: u32, i: usize) -> bool
    ensures { result ≡ applies x c.now (Shift i) }
{
    has_divisibility_at(c, x, i)
        && divisibility_count(c.literals(), x) == 1
        && !has_others(c.literals(), x)
}
