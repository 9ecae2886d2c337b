// Decimal numerals: what digits are worth, and that a number reads back from its digits.
#![tactic(auto)]

mod laws;
mod reading;

pub use laws::decimal_law;
pub use reading::numeral;
