// The clauses that a node gives, read.

ghost use Rattle.clause_set.specs.Formed.{IsFormed};
ghost use Rattle.clause_set.specs.Literals.{HasDivisor};
ghost use Rattle.std.specs.Prelude.{◌≡◌, All, IfOk};
ghost use Rattle.model_trees.specs.Walk as w;

use clause_set::{Dnf, Literal};
use elim_steps::clauses;
use linear_term::Memory;
use sqlite_items::Items;
use std::alloc::Global;

/// The divisor of a literal as clauses have them is one that a clause can take: this call does nothing, and tells its caller so.
fn know_divisor(l: &Literal)
    requires { IsFormed l.now }
    ensures { HasDivisor l.now }
{
    let _ = l.divisor();
}

/// The same of the literals of a clause.
fn know_divisors(ls: &[Literal])
    requires { All IsFormed ls.now }
    ensures { All HasDivisor ls.now }
{
    for l in ls {
        know_divisor(l);
    }
}

/// The same of all clauses.
fn know_all_divisors(ds: &[Items<Literal>])
    requires { All (λ d. All IsFormed d) ds.now }
    ensures { All (λ d. All HasDivisor d) ds.now }
{
    for d in ds {
        know_divisors(d.as_slice());
    }
}

/// The clauses that a node gives, in form.
pub fn read(alloc: Global, gives: &[Items<Literal>]) -> Result<Dnf, Memory>
    requires { All (λ c. All IsFormed c) gives.now }
    ensures { IfOk result (λ d. d ≡ w.read gives.now) }
{
    know_all_divisors(gives);
    Dnf::tidied(alloc, clauses(alloc, gives)?)
}
