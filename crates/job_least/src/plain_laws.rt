// What the test of plain terms says.

ghost use Rattle.form_encoding.specs.Plain.{IsPlain};
ghost use Rattle.job_least.specs.Plain.{is_plain};
ghost use Rattle.std.specs.Prelude.{◌≡◌, ◌↔◌, true};
ghost use Rattle.form_typed.specs.Formula.{Expression};

/// The test is met by the terms without calls, conditions, absolute values, minima and maxima, and by no others.
#[tactic(auto, using(crate::proofs::Linears::plain_where))]
pub fn plain_law()
    ensures { (t : Expression) → (is_plain t ≡ true) ↔ IsPlain t }
{}
