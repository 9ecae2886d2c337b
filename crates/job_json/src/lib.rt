// One object of JSON in place of an answer's text: its members are made of the lines of the text, and after them stand the status
// and the messages.
#![tactic(auto)]

mod answer;
mod counterexample;
mod message;
mod object;
mod refusal;
mod script;
mod sink;
mod statistics;
mod text;
mod values;

pub use sink::{Head, JsonSink};
