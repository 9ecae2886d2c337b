// The job `find`: some values of the existential constants at which the problem of a file holds, with a clause proof of that, or that
// there are none. Where the clause search finds neither, it answers as `solve` does by the canonical run.
#![tactic(auto)]

mod finding;
mod laws;
mod telling;

pub use finding::answer;
pub use laws::{causes_law, meaning_law};
