// What commands do to those in force.

ghost use Rattle.smt_commands.specs.Levels.{level_fewer, level_more, lowest, popped, pushed, with_now};
ghost use Rattle.smt_reader.specs.Effects.{command_is};
ghost use Rattle.smt_reader.specs.Forces.{force};
ghost use Rattle.std.specs.Prelude.{◌≡◌, ◌++◌, ◌∷◌, [], IfOk, map, take};

use crate::effects::Effect;
use crate::forces::Forces;
use linear_term::Memory;
use sqlite_items::Items;
use std::alloc::Global;

impl Forces {
    /// Nothing is in force, and no level is open.
    pub(crate) fn new(alloc: Global) -> Forces
        ensures { force result ≡ lowest [] }
    {
        Forces {
            effects: Items::new(alloc),
            marks: Items::new(alloc),
        }
    }

    /// What is in force.
    pub(crate) fn effects(&self) -> &[Effect]
        ensures { map command_is result.now ≡ (force self.now).now }
    {
        self.effects.as_slice()
    }

    /// One command more in force.
    pub(crate) fn add(self, effect: Effect) -> Result<Forces, Memory>
        ensures { IfOk result (λ f. force f ≡ with_now (force self) ((force self).now ++ command_is effect ∷ [])) }
    {
        let Forces { mut effects, marks } = self;
        effects.push(effect)?;
        Ok(Forces { effects, marks })
    }

    /// This many levels more.
    pub(crate) fn push(self, count: u128) -> Result<Forces, Memory>
        ensures { IfOk result (λ f. force f ≡ pushed count (force self)) }
    {
        let mut forces = self;
        let mut left = count;
        while left > 0 {
            forces = forces.push_one()?;
            left -= 1;
        }
        Ok(forces)
    }

    // One level more.
    fn push_one(self) -> Result<Forces, Memory>
        ensures { IfOk result (λ f. force f ≡ level_more (force self)) }
    {
        let Forces { effects, mut marks } = self;
        marks.push(effects.len())?;
        Ok(Forces { effects, marks })
    }

    /// This many levels fewer.
    pub(crate) fn pop(self, count: u128) -> Forces
        ensures { force result ≡ popped count (force self) }
    {
        let mut forces = self;
        let mut left = count;
        while left > 0 {
            forces = forces.pop_one();
            left -= 1;
        }
        forces
    }

    // One level fewer.
    fn pop_one(self) -> Forces
        ensures { force result ≡ level_fewer (force self) }
    {
        let Forces { effects, mut marks } = self;
        let Some(mark) = marks.pop() else {
            return Forces { effects, marks };
        };
        let effects = first_ones(effects, mark);
        Forces { effects, marks }
    }
}

// The first ones of some, this many.
fn first_ones(effects: Items<Effect>, count: usize) -> Items<Effect>
    ensures { result ≡ take count effects }
{
    let mut effects = effects;
    while effects.len() > count {
        let _last = effects.pop();
    }
    effects
}
