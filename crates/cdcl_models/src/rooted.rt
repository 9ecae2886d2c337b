// The truth of a root in a finite model, at values of the names of its first for-alls: what a judge of models need not be asked.

use crate::evaluating::Evaluator;
use crate::tables::Model;
use cdcl_forms::{Node, Vocabulary};
use cdcl_fuel::{Fault, Fuel};
use formula::Core;
use std::alloc::Global;

/// A root, and what evaluates it below its first for-alls.
#[derive(Drop)]
pub struct RootTruth {
    words: Vocabulary,
    evaluator: Evaluator,
    /// What stands below the first for-alls.
    body: u32,
    universals: u32,
    values: Vec<i128>,
}

impl RootTruth {
    /// A root over this many names of its own. None where it does not begin with this many for-alls.
    pub fn new(
        alloc: Global,
        root: &Core,
        names: u32,
        universals: u32,
    ) -> Result<Option<RootTruth>, Fault> {
        let words = Vocabulary::new(alloc, root, names)?;
        let mut body = words.tree.root;
        for _ in 0..universals {
            match words.tree.node(body)? {
                Node::Forall(inner) => body = inner,
                _ => return Ok(None),
            }
        }
        Ok(Some(RootTruth {
            words,
            evaluator: Evaluator::new(alloc, true),
            body,
            universals,
            values: Vec::new(alloc),
        }))
    }

    /// Whether the root is seen to be true in the model, where its own names have these values, and the names of its first for-alls
    /// those of the first constants; a constant that the model does not have is 0.
    pub fn is_true(&mut self, model: &Model, own: &[i128], fuel: &mut Fuel) -> Result<bool, Fault> {
        self.values.clear();
        for k in 0..self.universals {
            self.values.push(match model.constants.get(k as usize) {
                Some(x) => *x,
                None => 0,
            })?;
        }
        let values = self.values.as_slice();
        let truth = self
            .evaluator
            .truth(&self.words, model, self.body, own, values, fuel)?;
        Ok(truth == Some(true))
    }
}
