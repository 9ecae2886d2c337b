// Laws of divisibility, of congruences and of the greatest common divisor.

ghost use Rattle.base_integers.specs.Divides.{Divides, divides, IsCongruent};
ghost use Rattle.base_integers.specs.Gcd.{gcd, IsGcdOf, IsSumOfMultiples};
ghost use Rattle.std.specs.Prelude.{ℕ, ◌*◌, ◌<◌, ℤ, pos, ◌≡◌, ◌≢◌, ◌↔◌, ◌+ℤ◌, ◌-ℤ◌, ◌*ℤ◌, ◌<ℤ◌, unsigned_abs, true};

/// A divisor of two numbers divides their sum and difference and each multiple; divisors of divisors are divisors; and
/// `divides` tells whether a natural number divides an integer.
pub fn divides_law()
    ensures sum { (d : ℤ) (a : ℤ) (b : ℤ) → Divides d a → Divides d b → Divides d (a +ℤ b) }
    ensures difference { (d : ℤ) (a : ℤ) (b : ℤ) → Divides d a → Divides d b → Divides d (a -ℤ b) }
    ensures multiple { (d : ℤ) (m : ℤ) (a : ℤ) → Divides d a → Divides d (m *ℤ a) }
    ensures product { (d : ℤ) (a : ℤ) (m : ℤ) → Divides d a → Divides (d *ℤ m) (a *ℤ m) }
    ensures transitive { (c : ℤ) (d : ℤ) (z : ℤ) → Divides c d → Divides d z → Divides c z }
    ensures scaled { (d : ℕ) (m : ℕ) (a : ℤ) → 0 < m → divides (d * m) (a *ℤ pos m) ≡ divides d a }
    ensures test { (d : ℕ) (z : ℤ) → (divides d z ≡ true) ↔ Divides (pos d) z }
{}

/// Congruence modulo d is an equivalence that sums and multiples keep, and d divides what is congruent to a multiple.
pub fn congruence_law()
    ensures reflexive { (d : ℤ) (a : ℤ) → IsCongruent d a a }
    ensures symmetric { (d : ℤ) (a : ℤ) (b : ℤ) → IsCongruent d a b → IsCongruent d b a }
    ensures transitive { (d : ℤ) (a : ℤ) (b : ℤ) (c : ℤ) → IsCongruent d a b → IsCongruent d b c → IsCongruent d a c }
    ensures sum { (d : ℤ) (a : ℤ) (b : ℤ) (x : ℤ) (y : ℤ) → IsCongruent d a b → IsCongruent d x y → IsCongruent d (a +ℤ x) (b +ℤ y) }
    ensures multiple { (d : ℤ) (m : ℤ) (a : ℤ) (b : ℤ) → IsCongruent d a b → IsCongruent d (m *ℤ a) (m *ℤ b) }
    ensures test { (d : ℕ) (a : ℤ) (b : ℤ) → IsCongruent (pos d) a b → divides d a ≡ divides d b }
    ensures divides { (d : ℤ) (a : ℤ) (b : ℤ) → IsCongruent d a b → Divides d b → Divides d a }
{}

/// `gcd a b` is the greatest common divisor, and the only one that is not negative: it divides both, and what divides
/// both divides it.
pub fn gcd_law()
    ensures greatest { (a : ℤ) (b : ℤ) → IsGcdOf a b (gcd a b) }
    ensures only { (a : ℤ) (b : ℤ) (g : ℤ) → IsGcdOf a b g → g ≡ gcd a b }
    ensures left { (a : ℤ) (b : ℤ) → Divides (gcd a b) a }
    ensures right { (a : ℤ) (b : ℤ) → Divides (gcd a b) b }
    ensures common { (a : ℤ) (b : ℤ) (d : ℤ) → Divides d a → Divides d b → Divides d (gcd a b) }
    ensures commutative { (a : ℤ) (b : ℤ) → gcd a b ≡ gcd b a }
    ensures zero { (a : ℤ) → gcd a (pos 0) ≡ pos (unsigned_abs a) }
    ensures positive { (a : ℤ) (b : ℤ) → a ≢ pos 0 → pos 0 <ℤ gcd a b }
{}

/// The greatest common divisor is p·a + q·b for some p and q (Bézout).
pub fn gcd_sum_law()
    ensures { (a : ℤ) (b : ℤ) → IsSumOfMultiples a b (gcd a b) }
{}

/// What divides b·c and has no divisor in common with b divides c (Euclid).
pub fn coprime_law()
    ensures { (a : ℤ) (b : ℤ) (c : ℤ) → gcd a b ≡ pos 1 → Divides a (b *ℤ c) → Divides a c }
{}
