// Whether a finite model and values of the universal constants are a counterexample to a problem without existential constants:
// the judge of what an untrusted search finds. And what a judgement of an encoded problem says of the problem.
#![tactic(auto)]

mod below;
mod judge;
mod laws;
mod shape;

pub use judge::is_counterexample;
pub use laws::refuting_law;
