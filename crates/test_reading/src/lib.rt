// Rows of what is read, refused and encoded: problem files with their tokens and encodings, whose expected forms were written
// by hand; and scripts, with the sizes of their terms. `bench/rows` has others, over the program itself.
#![tactic(auto)]

#[cfg(test)]
mod at_limits;
#[cfg(test)]
mod file_tokens;
#[cfg(test)]
mod files;
#[cfg(test)]
mod forms;
#[cfg(test)]
mod models;
#[cfg(test)]
mod problems;
#[cfg(test)]
mod script_sizes;
#[cfg(test)]
mod script_tokens;
#[cfg(test)]
mod scripts;
#[cfg(test)]
mod shorthand;
#[cfg(test)]
mod shown;
