// The literal that is being read, and what stands before it.

ghost use Rattle.proof_constraint.specs.Machine as spec;
ghost use Rattle.proof_constraint.specs.Ranges.{IsRising};
ghost use Rattle.linear_term.specs.Linear.{number};
ghost use Rattle.linear_term.specs.Range.{InRange};
ghost use Rattle.std.specs.Prelude.{◌≡◌, ◌≢◌, ◌≤◌, ◌<◌, ◌^◌, ◌++◌, ◌∷◌, [], pos, None, OnOk};

use clause_set::Literal;
use linear_term::{Memory, Term};
use sqlite_items::Items;
use std::alloc::Global;
use std::mem;

/// The divisor that begins a literal, and whether it is said not to divide.
#[derive(Clone, Copy)]
pub struct Divisor {
    pub size: i128,
    pub negated: bool,
}

/// A literal that is being read, and what stands before it.
#[derive(Drop)]
pub struct Draft {
    pub clauses: Items<Items<Literal>>,
    pub literals: Items<Literal>,
    pub divisor: Option<Divisor>,
    /// What is read of its term; the constant comes last.
    pub sum: Term,
    /// The least name that may come.
    pub least: u64,
}

/// n or -n.
pub fn signed(minus: bool, n: u128) -> i128
    requires { n < 2 ^ 127 }
    ensures exact { result ≡ spec.signed minus n }
    ensures range { InRange result }
{
    let n = n as i128;
    if minus { -n } else { n }
}

impl Draft {
    /// Nothing is read.
    pub fn new(alloc: Global) -> Draft
        ensures { result ≡ spec.opened [] [] None }
    {
        Draft {
            clauses: Items::new(alloc),
            literals: Items::new(alloc),
            divisor: None,
            sum: Term::number(alloc, 0),
            least: 0,
        }
    }

    /// Begins a literal, of which nothing but its divisor is read.
    pub(crate) fn begin(&mut self, alloc: Global, divisor: Option<Divisor>)
        ensures { self.new ≡ spec.opened self.old.clauses self.old.literals divisor }
    {
        self.divisor = divisor;
        self.sum = Term::number(alloc, 0);
        self.least = 0;
    }

    /// The term goes on by a name above all that came, with its coefficient.
    pub(crate) fn add_name(&mut self, minus: bool, n: u128, name: u32) -> Result<(), Memory>
        requires open { IsRising self.old }
        requires above { self.old.least ≤ name }
        requires small { n < 2 ^ 127 }
        requires some { n ≢ 0 }
        ensures { OnOk result (self.new ≡ spec.with_pair self.old minus n name) }
    {
        self.sum.push(name, signed(minus, n))?;
        self.least = u64::from(name) + 1;
        Ok(())
    }

    /// The term ends by its constant, and the literal with it: its divisor divides the term, or is said not to.
    pub(crate) fn end_divided(
        &mut self,
        alloc: Global,
        divisor: Divisor,
        constant: i128,
    ) -> Result<(), Memory>
        requires { InRange constant }
        ensures { OnOk result (self.new ≡ record self.old { literals = self.old.literals ++ spec.divided divisor (spec.sum_of self.old constant) ∷ []; sum = number (pos 0) }) }
    {
        let mut sum = mem::replace(&mut self.sum, Term::number(alloc, 0));
        sum.set_constant(constant);
        self.literals.push(if divisor.negated {
            Literal::NDiv(divisor.size, sum)
        } else {
            Literal::Div(divisor.size, sum)
        })?;
        Ok(())
    }

    /// The literal ends: its term is compared with 0.
    pub(crate) fn end_compared(&mut self, alloc: Global, bound: bool) -> Result<(), Memory>
        ensures { OnOk result (self.new ≡ record self.old { literals = self.old.literals ++ spec.compared bound self.old.sum ∷ []; sum = number (pos 0) }) }
    {
        let sum = mem::replace(&mut self.sum, Term::number(alloc, 0));
        self.literals.push(if bound {
            Literal::Geq(sum)
        } else {
            Literal::Eq(sum)
        })?;
        Ok(())
    }

    /// The clause ends.
    pub(crate) fn end_clause(&mut self, alloc: Global) -> Result<(), Memory>
        ensures { OnOk result (self.new ≡ record self.old { clauses = self.old.clauses ++ self.old.literals ∷ []; literals = [] }) }
    {
        let literals = mem::replace(&mut self.literals, Items::new(alloc));
        self.clauses.push(literals)?;
        Ok(())
    }
}
