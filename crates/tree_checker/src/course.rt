// Where a check is.

ghost use Rattle.base_budget.specs.Trace.{back, enter};
ghost use Rattle.std.specs.Prelude.{◌≡◌, ◌+◌, ◌<◌, ◌^◌};
ghost use Rattle.tree_checker.specs.Hand.{at_node};

/// Where a check is: the node at hand, and how many nodes were entered.
#[derive(Clone, Copy)]
pub struct Course {
    pub hand: u64,
    pub nodes: u64,
}

impl Course {
    /// Before the root.
    pub fn new() -> Course
        ensures { result ≡ record { hand = 0; nodes = 0 } }
    {
        Course { hand: 0, nodes: 0 }
    }

    /// A node is entered: its number.
    pub fn enter(&mut self) -> u64
        requires { self.old.nodes + 1 < 2 ^ 64 }
        ensures number { result ≡ self.old.nodes }
        ensures hand { self.new.hand ≡ at_node self.old.hand (enter self.old.nodes) }
        ensures nodes { self.new.nodes ≡ self.old.nodes + 1 }
    {
        let number = self.nodes;
        self.hand = number;
        self.nodes += 1;
        number
    }

    /// The check is back at a node.
    pub fn back(&mut self, number: u64)
        ensures hand { self.new.hand ≡ at_node self.old.hand (back number) }
        ensures nodes { self.new.nodes ≡ self.old.nodes }
    {
        self.hand = number;
    }

    /// The check is after the last node, at the conclusion.
    pub fn conclude(&mut self)
        ensures hand { self.new.hand ≡ at_node self.old.hand (enter self.old.nodes) }
        ensures nodes { self.new.nodes ≡ self.old.nodes }
    {
        self.hand = self.nodes;
    }
}
