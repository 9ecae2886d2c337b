// What every elimination rule does by the way: it counts the names of the clause for its charge, computes terms with
// their raw numbers, and puts its results into form.
#![tactic(auto)]

mod charges;
mod forms;
mod kinds;
mod names;
mod numbers;

pub use charges::{area, whole_charge};
pub use forms::{alone, clauses, in_form, in_form_with};
pub use kinds::{is_divisibility, is_equation, is_indivisibility};
pub use names::mentions;
pub use numbers::{combining, computing};
