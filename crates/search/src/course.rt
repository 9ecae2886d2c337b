// Where a run over trees is.

ghost use Rattle.base_budget.specs.Trace.{back, enter, new_log, round};
ghost use Rattle.search.specs.Course.{cause_of, cut_at, noted};
ghost use Rattle.search.specs.Outcomes.{no_course};
ghost use Rattle.std.specs.Prelude.{◌≡◌, ◌+◌, ◌<◌, ◌^◌, [], ℕ};

use base_budget::{ElimFault, ElimLog, StepFault};
use sqlite_items::Items;
use std::alloc::Global;

/// Where a run over trees is: its round, the nodes entered in the round, and the log of the elimination in progress.
#[derive(Drop)]
pub struct Course {
    pub round: u32,
    pub nodes: u64,
    pub log: ElimLog,
}

fn no_log(alloc: Global) -> ElimLog
    ensures { result.entries ≡ [] }
{
    ElimLog {
        entries: Items::new(alloc),
    }
}

impl Course {
    /// Before the first round.
    pub fn new(alloc: Global) -> Course
        ensures { result ≡ no_course }
    {
        Course {
            round: 0,
            nodes: 0,
            log: no_log(alloc),
        }
    }

    /// A log begins.
    pub fn begin_log(&mut self, alloc: Global)
        ensures { self.new ≡ noted self.old new_log }
    {
        self.log = no_log(alloc);
    }

    /// The round with this limit begins.
    pub fn begin_round(&mut self, limit: u32, alloc: Global)
        ensures { self.new ≡ noted self.old (round limit) }
    {
        self.round = limit;
        self.nodes = 0;
        self.log = no_log(alloc);
    }

    /// A node is entered.
    pub fn enter(&mut self, alloc: Global)
        requires { self.old.nodes + 1 < 2 ^ 64 }
        ensures { (n : ℕ) → self.new ≡ noted self.old (enter n) }
    {
        self.nodes += 1;
        self.log = no_log(alloc);
    }

    /// The run is back at a node.
    pub fn back(&mut self, alloc: Global)
        ensures { (n : ℕ) → self.new ≡ noted self.old (back n) }
    {
        self.log = no_log(alloc);
    }

    /// The elimination in progress was cut.
    pub fn cut(&mut self, fault: ElimFault) -> StepFault
        ensures cause { result ≡ cause_of fault }
        ensures place { self.new ≡ cut_at self.old fault }
    {
        match fault {
            ElimFault::Steps(log) => {
                self.log = log;
                StepFault::Steps
            }
            ElimFault::Overflow(log, place) => {
                self.log = log;
                StepFault::Overflow(place)
            }
            ElimFault::Memory => StepFault::Memory,
        }
    }
}
