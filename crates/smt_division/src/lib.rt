// Division by a numeral in scripts: terms with `div`, `mod` and `divisible` become terms that speak of quotients.
#![tactic(auto)]

mod closing;
mod commands;
mod copies;
mod divisors;
mod forms;
mod laws;
mod lets;
mod made;
mod terms;

pub use commands::without_division;
pub use laws::quotient_law;
