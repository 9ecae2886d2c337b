// What a search shows of its present model, and the instances that it is told.

use crate::terms::List;
use crate::vocabulary::{Lit, negated};
use cdcl_fuel::{Fault, at};

/// A present model. All literals that clauses need have a value, and all constants.
#[derive(Clone, Copy)]
pub struct Present<'a> {
    /// 1 true, -1 false, 0 open, by literal.
    pub truth: &'a [i8],
    /// Whether some clause needs the literal, by literal.
    pub needed: &'a [bool],
    /// The values of the constants.
    pub values: &'a [i128],
}

/// An instance of an Exists closure that is false: its body, as deep as there are terms, is false too.
#[derive(Clone, Copy)]
pub struct Instance {
    pub variable: u32,
    pub terms: List,
    pub generation: u32,
}

impl<'a> Present<'a> {
    #[inline]
    pub fn is_true(&self, l: Lit) -> Result<bool, Fault> {
        Ok(at(self.truth, l as usize)? == 1)
    }

    /// Whether the literal is true and some clause needs it.
    #[inline]
    pub fn holds(&self, l: Lit) -> Result<bool, Fault> {
        Ok(at(self.truth, l as usize)? == 1 && at(self.needed, l as usize)?)
    }

    /// Whether the literal is false and some clause needs its negation.
    #[inline]
    pub fn fails(&self, l: Lit) -> Result<bool, Fault> {
        self.holds(negated(l))
    }
}
