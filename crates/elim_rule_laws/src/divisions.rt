// The theorems on integers after the rules: when an equation or a divisibility holds for some integer, and for which.

ghost use Rattle.clause_set.specs.Bezout.{bezout, Bezout};
ghost use Rattle.clause_set.specs.Equations.{size_of};
ghost use Rattle.elim_rule_laws.specs.Divisions.{HasRemainder, IsBezout, IsSolution};
ghost use Rattle.base_integers.specs.Divides.{divides, Divides};
ghost use Rattle.std.specs.Prelude.{ℕ, ℤ, pos, ◌≡◌, ◌↔◌, ◌<◌, ◌+ℤ◌, ◌-ℤ◌, ◌*ℤ◌, ◌<ℤ◌, false};

/// a·x + s = 0 holds for some integer x exactly where |a| divides s.
pub fn solvable_law()
    ensures { (a : ℤ) (s : ℤ) → ((x : ℤ) × ((a *ℤ x) +ℤ s ≡ pos 0)) ↔ Divides (size_of a) s }
{}

/// d does not divide t exactly where it divides t + r for some r from 1 to d − 1.
pub fn remainder_law()
    ensures { (d : ℕ) (t : ℤ) → 0 < d → (divides d t ≡ false) ↔ HasRemainder d t }
{}

/// Bézout: for positive a and b, `bezout a b` has their greatest common divisor g as p·a + q·b, with the least p that is
/// not negative; and it is the only one that has.
pub fn bezout_law()
    ensures is { (a : ℤ) (b : ℤ) → pos 0 <ℤ a → pos 0 <ℤ b → IsBezout a b (bezout a b) }
    ensures only { (a : ℤ) (b : ℤ) (z : Bezout) → pos 0 <ℤ a → pos 0 <ℤ b → IsBezout a b z → z ≡ bezout a b }
{}

/// For positive d1, d2, a1 and a2 with (g, p, q) = bezout(a1·d2, a2·d1): d1 divides a1·x + t1 and d2 divides a2·x + t2
/// exactly where d1·d2 divides g·x + p·d2·t1 + q·d1·t2, and g divides a2·t1 − a1·t2.
pub fn merged_law()
    ensures { (d1 : ℤ) (d2 : ℤ) (a1 : ℤ) (a2 : ℤ) (t1 : ℤ) (t2 : ℤ) (x : ℤ) (z : Bezout)
        → pos 0 <ℤ d1 → pos 0 <ℤ d2 → pos 0 <ℤ a1 → pos 0 <ℤ a2 → z ≡ bezout (a1 *ℤ d2) (a2 *ℤ d1)
        → (Divides d1 ((a1 *ℤ x) +ℤ t1) × Divides d2 ((a2 *ℤ x) +ℤ t2))
        ↔ (Divides (d1 *ℤ d2) ((z.g *ℤ x) +ℤ (((z.p *ℤ d2) *ℤ t1) +ℤ ((z.q *ℤ d1) *ℤ t2))) × Divides z.g ((a2 *ℤ t1) -ℤ (a1 *ℤ t2))) }
{}

/// For positive b and d with (g, u, _) = bezout(b, d): d divides b·x + t exactly where g divides t and x is
/// −u·t/g + k·d/g for some integer k.
pub fn divisibility_law()
    ensures { (b : ℤ) (d : ℤ) (t : ℤ) (x : ℤ) → pos 0 <ℤ b → pos 0 <ℤ d
        → Divides d ((b *ℤ x) +ℤ t) ↔ (Divides (bezout b d).g t × IsSolution d (bezout b d) t x) }
{}
