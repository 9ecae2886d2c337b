// Rows of whole runs over memory, each job once, with sources and sinks that fail; and of what meets the outside: words,
// sources, sinks, and the lines of answers. `bench/rows` has others, over the program itself.
#![tactic(auto)]

#[cfg(test)]
mod dialogues;
#[cfg(test)]
mod faults;
#[cfg(test)]
mod jobs;
#[cfg(test)]
mod lines;
#[cfg(test)]
mod outside;
#[cfg(test)]
mod runs;
#[cfg(test)]
mod words;
