// The laws of texts: of proofs, and of what is printed of problems.

use itp_printer::{plain_law, variable_law};
use pred_interpolant::fault_law;
use pri_printer::{constraint_law, quotient_law};
use proof_constraint::given_law;
use proof_file::{holds_one_law, refused_law};
use proof_tokens::{
    charges_law, cutting_law, part_law, said_law, spelling_law, values_law, written_law,
};

#[test]
fn laws_of_texts_are_proved() {
    spelling_law();
    cutting_law();
    charges_law();
    written_law();
    said_law();
    part_law();
    values_law();
    given_law();
    holds_one_law();
    refused_law();
    constraint_law();
    quotient_law();
    variable_law();
    plain_law();
    fault_law();
}
