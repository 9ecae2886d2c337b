// Who looks at quantifiers: an advisor is told of each for-some closure that is opened, and is asked where all clauses hold.

use cdcl_forms::{Instance, Present, Vocabulary};
use cdcl_fuel::{Fault, Fuel};

/// What is to be done about the for-some closures that are false.
#[derive(Clone, Copy, Debug, PartialEq, Eq)]
pub enum Advice {
    /// New instances were told.
    Again,
    /// They all hold in the present model.
    Model,
    /// There is nothing more to do.
    Stuck,
}

/// What a search asks about quantifiers.
pub trait Advisor {
    /// A for-some closure was opened: the variable that stands for it.
    fn register(
        &mut self,
        words: &mut Vocabulary,
        variable: u32,
        fuel: &mut Fuel,
    ) -> Result<(), Fault>;

    /// What to do where all clauses hold in the present model, whose values are whole. New instances are put after `out`.
    fn advise(
        &mut self,
        words: &mut Vocabulary,
        present: Present<'_>,
        fuel: &mut Fuel,
        out: &mut Vec<Instance>,
    ) -> Result<Advice, Fault>;
}
