// Rows of proofs: their tokens, their lines one by one, and trees that are read and checked. `bench/rows` has the others, over the program
// itself.
#![tactic(auto)]

mod asked;
#[cfg(test)]
mod files;
#[cfg(test)]
mod laws;
#[cfg(test)]
mod lines;
mod telling;
#[cfg(test)]
mod tokens;
#[cfg(test)]
mod trees;
