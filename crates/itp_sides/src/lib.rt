// The sides of a cut: what the sets before a place assume and what the others do, the strongest and the weakest formula between
// them over what both speak of, and how those of neighbouring places follow from one another.
#![tactic(auto)]

mod laws;

pub use laws::{agreement_law, closing_law, neighbours_law, sequence_law, sides_law, standing_law};
