// What is proved of a formula between two sides.

use function_encoding::Encoded;
use pred_interpolant::MiddleFormula;
use proof_tree::Tree;

/// An encoded formula with the proof that it is valid.
#[derive(Drop)]
pub struct Proved {
    pub encoded: Encoded,
    pub tree: Tree,
}

/// What stands between two sides of a cut, with the proofs that it does.
#[derive(Drop)]
pub struct Middle {
    pub formula: MiddleFormula,
    /// That it follows from the first side.
    pub below: Proved,
    /// That it contradicts the second.
    pub above: Proved,
}
