// What a proof says, and where a search that found none stood.

use base_budget::ElimLog;
use linear_term::Place;
use sqlite_items::Items;

/// What a proof says: these values of the existential constants satisfy its constraint, or nothing does.
#[derive(Drop)]
pub enum Verdict {
    Valid(Items<i128>),
    Invalid,
}

/// Why a search ended without a proof.
#[derive(Clone, Copy)]
pub enum Why {
    /// A charge passed the budget.
    Steps,
    /// A number that was computed left the range.
    Overflow(Place),
    /// A branch would have got a node on the 2,001st level.
    Branch,
}

/// Where a search stood: its round, the nodes entered in that round, the entries of the elimination in progress, and all
/// that it charged.
#[derive(Drop)]
pub struct Run {
    pub round: u32,
    pub nodes: u64,
    pub log: ElimLog,
    pub spent: u64,
}
