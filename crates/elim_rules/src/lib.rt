// The rules that take a name out of a clause (Cooper 1972; Pugh 1992), performed: each with its charge and its raw numbers,
// where a log or a solver says that it applies, and the tests of where it does. The solvers that choose a rule, and the
// checker of logs that reads one, stand on this crate and not on one another.
#![tactic(auto)]

mod apart;
mod applying;
mod dark_shadow;
mod equation;
mod exact_shadow;
mod merge;
mod numbers;
mod one_side;
mod parts;
mod shadow;
mod shift;
mod sides;
mod splinter;

pub use apart::apart_rule;
pub use applying::{
    has_divisibilities_at, has_equation_at, has_indivisibility_at, has_only_divisibility_at,
};
pub use dark_shadow::dark;
pub use equation::equation_rule;
pub use exact_shadow::exact;
pub use merge::merge_rule;
pub use one_side::one_sided;
pub use shift::shift_rule;
pub use sides::{
    Side, all_units, bounds_alone, has_name, has_unit, is_lower, is_upper, literals_on,
};
pub use splinter::splinter_count;
