// Laws of the elimination rules: for equations and divisibilities (Cooper 1972), and for a name that only inequalities bound
// (Pugh 1992). Each rule is exact, and brings a clause nearer to being without the name. They speak of definitions alone, and
// the crates that perform or check the rules cite them.
#![tactic(auto)]

mod bounds;
mod divisions;
mod equation_rules;
mod shadow_rules;

pub use bounds::{dark_shadow_law, exact_shadow_law, one_sided_law, real_shadow_law, splinter_law};
pub use divisions::{bezout_law, divisibility_law, merged_law, remainder_law, solvable_law};
pub use equation_rules::{
    apart_rule_law, equation_rule_law, merge_rule_law, shift_rule_law, unused_law,
};
pub use shadow_rules::{dark_rule_law, exact_rule_law, one_sided_rule_law};
