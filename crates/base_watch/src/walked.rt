// What the rounds of a canonical run did.

/// What the rounds of a canonical run did. Each number stays at 2^64 - 1 where it would pass that.
#[derive(Clone, Copy, Debug, PartialEq, Eq)]
pub struct Walked {
    /// The nodes that were entered, leaves among them.
    pub nodes: u64,
    /// The leaves that were entered.
    pub leaves: u64,
    /// The constraints of nodes that took an elimination of a rule or more.
    pub eliminations: u64,
    /// The steps that were charged after a leaf was entered and before the next node was: for closing it, and for constraints.
    pub constraint_steps: u64,
    // The steps up to the node that was entered last, and whether that is a leaf.
    entered: u64,
    in_leaf: bool,
}

impl Walked {
    /// Nothing.
    pub fn new() -> Walked {
        Walked {
            nodes: 0,
            leaves: 0,
            eliminations: 0,
            constraint_steps: 0,
            entered: 0,
            in_leaf: false,
        }
    }

    /// A node is entered after these steps of the run.
    pub fn enter(&mut self, steps: u64) {
        self.pass(steps);
        self.nodes = self.nodes.saturating_add(1);
    }

    /// A leaf is entered after these steps of the run.
    pub fn enter_leaf(&mut self, steps: u64) {
        self.enter(steps);
        self.leaves = self.leaves.saturating_add(1);
        self.in_leaf = true;
    }

    /// The constraint of a node was made by an elimination of this many rules.
    pub fn eliminate(&mut self, rules: u64) {
        if rules > 0 {
            self.eliminations = self.eliminations.saturating_add(1);
        }
    }

    /// The run came to these steps. Those since a leaf was entered belong to it.
    pub fn pass(&mut self, steps: u64) {
        if self.in_leaf {
            let more = steps.saturating_sub(self.entered);
            self.constraint_steps = self.constraint_steps.saturating_add(more);
        }
        self.entered = steps;
        self.in_leaf = false;
    }
}
