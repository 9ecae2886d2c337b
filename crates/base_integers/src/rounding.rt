// Laws of division rounded down, of residues, and of the numbers of one residue next to a bound.

ghost use Rattle.base_integers.specs.Divides.{divides, IsCongruent};
ghost use Rattle.base_integers.specs.Floor.{IsFloor};
ghost use Rattle.base_integers.specs.Residue.{IsResidue, least_from, greatest_to};
ghost use Rattle.std.specs.Int.{int_div_euclid, int_rem_euclid};
ghost use Rattle.std.specs.Prelude.{ℕ, ◌<◌, true, ℤ, pos, ◌≡◌, ◌↔◌, ◌+ℤ◌, ◌*ℤ◌, ◌≤ℤ◌, ◌<ℤ◌};

/// For a positive b, `int_div_euclid a b` is the floor of a / b, and the only one: x·b ≤ a exactly where x is at most it, and x·b + a ≥ 0
/// exactly where x plus it is at least 0.
pub fn floor_law()
    ensures floor { (a : ℤ) (b : ℤ) → pos 0 <ℤ b → IsFloor a b (int_div_euclid a b) }
    ensures only { (a : ℤ) (b : ℤ) (q : ℤ) (r : ℤ) → pos 0 <ℤ b → IsFloor a b q → IsFloor a b r → q ≡ r }
    ensures multiples { (a : ℤ) (b : ℤ) (x : ℤ) → pos 0 <ℤ b → ((x *ℤ b) ≤ℤ a) ↔ (x ≤ℤ int_div_euclid a b) }
    ensures exact { (q : ℤ) (b : ℤ) → pos 0 <ℤ b → int_div_euclid (q *ℤ b) b ≡ q }
    ensures sum { (x : ℤ) (a : ℤ) (b : ℤ) → pos 0 <ℤ b → int_div_euclid ((x *ℤ b) +ℤ a) b ≡ x +ℤ int_div_euclid a b }
    ensures sign { (x : ℤ) (a : ℤ) (b : ℤ) → pos 0 <ℤ b
        → (pos 0 ≤ℤ ((x *ℤ b) +ℤ a)) ↔ (pos 0 ≤ℤ (x +ℤ int_div_euclid a b)) }
{}

/// For a positive d, `int_rem_euclid a d` is the residue of a, the only one, and what the floor leaves of a.
pub fn residue_law()
    ensures residue { (d : ℤ) (a : ℤ) → pos 0 <ℤ d → IsResidue d a (int_rem_euclid a d) }
    ensures only { (d : ℤ) (a : ℤ) (r : ℤ) (s : ℤ) → pos 0 <ℤ d → IsResidue d a r → IsResidue d a s → r ≡ s }
    ensures divides { (d : ℕ) (a : ℤ) → 0 < d → (divides d a ≡ true) ↔ (int_rem_euclid a (pos d) ≡ pos 0) }
    ensures rest { (a : ℤ) (d : ℤ) → pos 0 <ℤ d → a ≡ (int_div_euclid a d *ℤ d) +ℤ int_rem_euclid a d }
{}

/// For a positive d, `least_from d r lo` is the least number from lo on that is congruent to r modulo d, and
/// `greatest_to d r hi` the greatest one up to hi.
pub fn next_law()
    ensures from { (d : ℤ) (r : ℤ) (lo : ℤ) → pos 0 <ℤ d → lo ≤ℤ least_from d r lo }
    ensures from_congruent { (d : ℤ) (r : ℤ) (lo : ℤ) → pos 0 <ℤ d → IsCongruent d (least_from d r lo) r }
    ensures least { (d : ℤ) (r : ℤ) (lo : ℤ) (y : ℤ) → pos 0 <ℤ d → lo ≤ℤ y → IsCongruent d y r → least_from d r lo ≤ℤ y }
    ensures to { (d : ℤ) (r : ℤ) (hi : ℤ) → pos 0 <ℤ d → greatest_to d r hi ≤ℤ hi }
    ensures to_congruent { (d : ℤ) (r : ℤ) (hi : ℤ) → pos 0 <ℤ d → IsCongruent d (greatest_to d r hi) r }
    ensures greatest { (d : ℤ) (r : ℤ) (hi : ℤ) (y : ℤ) → pos 0 <ℤ d → y ≤ℤ hi → IsCongruent d y r → y ≤ℤ greatest_to d r hi }
{}
