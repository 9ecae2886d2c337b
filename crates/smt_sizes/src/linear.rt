// Weights that depend on other weights: a constant, and a factor for each of them.

ghost use Rattle.std.specs.Prelude.{◌≡◌, IfOk};
ghost use Rattle.smt_sizes.specs.Linear.{added, kept, start, sum};

use crate::weight::{NODE, NOTHING, Weight, plus, times};
use linear_term::Memory;
use std::alloc::Global;

/// A weight and this many of each of some others.
#[derive(Drop)]
pub struct Linear {
    pub constant: Weight,
    pub uses: Vec<Weight>,
}

impl Linear {
    /// A constant.
    pub(crate) fn new(alloc: Global, constant: Weight) -> Linear
        ensures { sum result ≡ start constant }
    {
        Linear {
            constant,
            uses: Vec::new(alloc),
        }
    }

    /// With one factor more, and a constant with it.
    pub(crate) fn keep(self, constant: Weight, factor: Weight) -> Result<Linear, Memory>
        ensures { IfOk result (λ l. sum l ≡ kept constant factor (sum self)) }
    {
        let Linear {
            constant: before,
            mut uses,
        } = self;
        uses.push(factor)?;
        Ok(Linear {
            constant: plus(before, constant),
            uses,
        })
    }

    /// With one factor more, for a formula (true) or a term that is wanted where one is given: another counts as one node.
    pub(crate) fn add(
        self,
        wanted: bool,
        given: bool,
        constant: Weight,
        factor: Weight,
    ) -> Result<Linear, Memory>
        ensures { IfOk result (λ l. sum l ≡ added wanted given constant factor (sum self)) }
    {
        if given == wanted {
            self.keep(plus(constant, NOTHING), factor)
        } else {
            self.keep(plus(constant, times(factor, NODE)), NOTHING)
        }
    }
}
