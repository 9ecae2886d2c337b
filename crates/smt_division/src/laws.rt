// What the condition that is made of a quotient says.

ghost use Rattle.smt_division.specs.Division.{IsDivision, IsQuotient};
ghost use Rattle.std.specs.Int.{int_div_euclid};
ghost use Rattle.std.specs.Prelude.{ℤ, pos, Bool, true, ◌≡◌, ◌≢◌, ◌↔◌, ◌-ℤ◌, ◌*ℤ◌};

/// For n ≠ 0 one integer, and only one, meets the condition of a quotient of v by n. It is Euclid's quotient, with v − n·q as
/// the remainder. So some quotient has a property exactly where Euclid's has it.
#[tactic(auto, using(crate::proofs::Euclid::quotient_is, crate::proofs::Euclid::quotient_only, crate::proofs::Euclid::division_is, crate::proofs::Euclid::quotient_some))]
pub fn quotient_law()
    ensures quotient { (v : ℤ) (n : ℤ) → n ≢ pos 0 → IsQuotient v n (int_div_euclid v n) }
    ensures only { (v : ℤ) (n : ℤ) (p : ℤ) (q : ℤ) → n ≢ pos 0 → IsQuotient v n p → IsQuotient v n q → p ≡ q }
    ensures division { (v : ℤ) (n : ℤ) (q : ℤ) → n ≢ pos 0 → IsQuotient v n q → IsDivision v n q (v -ℤ (n *ℤ q)) }
    ensures some { (v : ℤ) (n : ℤ) (holds : ℤ → Bool) → n ≢ pos 0 → ((q : ℤ) × IsQuotient v n q × (holds q ≡ true)) ↔ (holds (int_div_euclid v n) ≡ true) }
{}
