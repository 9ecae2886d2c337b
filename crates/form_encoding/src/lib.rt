// What a problem is in the formulas of the calculus: the encoding as a definition, and what it keeps. Functions become
// relations, conditions of terms become cases, and connectives go by their sign (Rümmer, A constraint sequent calculus
// for first-order logic with linear integer arithmetic, 2008). The laws are the contracts of functions with nothing to do;
// the crate above has the code.
#![tactic(auto)]

mod laws;

pub use laws::{
    atom_law, body_law, encoding_law, extent_law, names_law, parts_law, plain_law, problem_law,
    purity_law, types_law,
};
