// What is left to look at where all clauses are true: whole values, congruence, and quantifiers.

use crate::advisor::{Advice, Advisor};
use crate::engine::Search;
use cdcl_forms::{Definition, Instance, Present};
use cdcl_fuel::{Fault, at};
use cdcl_state::State;

/// What a final check finds.
pub(crate) enum Final {
    Again,
    Model,
    Stuck,
}

/// Whether arithmetic or congruence made clauses.
fn changed(state: &mut State) -> Result<bool, Fault> {
    if state.arithmetic_changed()? {
        return Ok(true);
    }
    state.take_values()?;
    state.congruence()
}

impl<Q: Advisor + Drop> Search<Q> {
    pub(crate) fn final_check(&mut self) -> Result<Final, Fault> {
        if changed(&mut self.state)? {
            return Ok(Final::Again);
        }
        self.quantified()
    }

    /// Tells the advisor of all for-some closures that were opened.
    pub(crate) fn register_all(&mut self) -> Result<(), Fault> {
        for i in 0..self.state.to_register.len() {
            let v = at(&self.state.to_register, i)?;
            self.advisor
                .register(&mut self.state.knowledge.words, v, &mut self.state.fuel)?;
        }
        self.state.to_register.clear();
        Ok(())
    }

    /// Whether the for-some closures that are false hold in the present model, or instances of them were made.
    fn quantified(&mut self) -> Result<Final, Fault> {
        let mut found: Vec<Instance> = Vec::new(self.state.alloc);
        let advice = self.advised(&mut found)?;
        for x in found.as_slice() {
            self.count(*x)?;
            self.state.instance(*x)?;
        }
        Ok(match advice {
            Advice::Again => Final::Again,
            Advice::Model => Final::Model,
            Advice::Stuck => Final::Stuck,
        })
    }

    /// Counts an instance, in all and of its quantifier.
    fn count(&mut self, instance: Instance) -> Result<(), Fault> {
        self.instances = self.instances.saturating_add(1);
        let variable = instance.variable as usize;
        match self.state.knowledge.words.definition(variable)? {
            Definition::Closure(formula, _) => self.tally.add(formula),
            _ => Ok(()),
        }
    }

    /// What the advisor says of the present model.
    fn advised(&mut self, found: &mut Vec<Instance>) -> Result<Advice, Fault> {
        let present = Present {
            truth: self.state.sat.trail.value.as_slice(),
            needed: self.state.sat.needed.as_slice(),
            values: self.state.values.as_slice(),
        };
        self.advisor.advise(
            &mut self.state.knowledge.words,
            present,
            &mut self.state.fuel,
            found,
        )
    }
}
