// What the definitions of this crate mean, each law by a function with an empty body.

ghost use Rattle.linear_term.specs.Linear.{Linear, coef_of, value_of, number, name, mentions, with_monomial, without, IsNormal, IsOver, IsReduced};
ghost use Rattle.linear_term.specs.Combination.{combination, raw_numbers};
ghost use Rattle.base_integers.specs.Entry.{entry, put};
ghost use Rattle.linear_term.specs.Range.{InRange, Stays, IsPlace, stays, all_stay};
ghost use Rattle.linear_term.specs.Order.{linear_cmp};
ghost use Rattle.linear_term.specs.declared.range.Place.{Place};
ghost use Rattle.std.specs.Cmp.{IsTotalOrder};
ghost use Rattle.std.specs.declared.cmp.Ordering.TheVariants.{Equal};
ghost use Rattle.std.specs.Prelude.{◌≡◌, ℕ, ℤ, List, ◌+ℤ◌, ◌*ℤ◌, ◌<◌, ◌≤◌, ◌≢◌, ◌↔◌, All, pos, true, false};

/// `combination m s n t` is m·s + n·t: so is its value at every list of integers, and so is each coefficient.
pub fn combination_law()
    ensures value { (m : ℤ) (s : Linear) (n : ℤ) (t : Linear) (e : List ℤ)
        → value_of (combination m s n t) e ≡ (m *ℤ value_of s e) +ℤ (n *ℤ value_of t e) }
    ensures coefficient { (m : ℤ) (s : Linear) (n : ℤ) (t : Linear) (x : ℕ)
        → coef_of (combination m s n t) x ≡ (m *ℤ coef_of s x) +ℤ (n *ℤ coef_of t x) }
{}

/// The combination of terms in normal form is in normal form, as long as its numbers stay in the range.
pub fn combination_is_normal_law()
    ensures { (m : ℤ) (s : Linear) (n : ℤ) (t : Linear) → IsNormal s → IsNormal t → all_stay (raw_numbers m s n t) ≡ true
        → IsNormal (combination m s n t) }
{}

/// A term is its coefficient of x times x and the term without x: so is its value at e, and its value where x becomes
/// v. What stands at x does not count for the term without x.
pub fn without_law()
    ensures value { (t : Linear) (x : ℕ) (e : List ℤ)
        → value_of t e ≡ (coef_of t x *ℤ entry e x) +ℤ value_of (without t x) e }
    ensures put { (t : Linear) (x : ℕ) (e : List ℤ) (v : ℤ)
        → value_of t (put e x v) ≡ (coef_of t x *ℤ v) +ℤ value_of (without t x) e }
    ensures free { (t : Linear) (x : ℕ) (e : List ℤ) (v : ℤ)
        → value_of (without t x) (put e x v) ≡ value_of (without t x) e }
    ensures coefficient { (t : Linear) (x : ℕ) → coef_of (without t x) x ≡ pos 0 }
    ensures others { (t : Linear) (x : ℕ) (y : ℕ) → x ≢ y → coef_of (without t x) y ≡ coef_of t y }
    ensures normal { (t : Linear) (x : ℕ) → IsNormal t → IsNormal (without t x) }
{}

/// A name that does not occur: its coefficient is 0, its entry does not count, and the term is the term without it.
/// In a reduced term a name with the coefficient 0 does not occur, and in a term over n no name from n on does.
pub fn unmentioned_law()
    ensures without { (t : Linear) (x : ℕ) → mentions t x ≡ false → without t x ≡ t }
    ensures value { (t : Linear) (x : ℕ) (e : List ℤ) (v : ℤ) → mentions t x ≡ false → value_of t (put e x v) ≡ value_of t e }
    ensures coefficient { (t : Linear) (x : ℕ) → mentions t x ≡ false → coef_of t x ≡ pos 0 }
    ensures zero { (t : Linear) (x : ℕ) → IsReduced t → coef_of t x ≡ pos 0 → mentions t x ≡ false }
    ensures over { (n : ℕ) (x : ℕ) (t : Linear) → IsOver n t → n ≤ x → mentions t x ≡ false }
{}

/// A combination has no other names than its two terms.
pub fn names_law()
    ensures unmentioned { (m : ℤ) (s : Linear) (n : ℤ) (t : Linear) (x : ℕ) → mentions s x ≡ false → mentions t x ≡ false
        → mentions (combination m s n t) x ≡ false }
    ensures over { (k : ℕ) (m : ℤ) (s : Linear) (n : ℤ) (t : Linear) → IsOver k s → IsOver k t → IsOver k (combination m s n t) }
{}

/// A term with one more monomial: its value is the sum of both, and its names are those of both.
pub fn monomial_law()
    ensures value { (t : Linear) (x : ℕ) (k : ℤ) (e : List ℤ) → value_of (with_monomial t x k) e ≡ value_of t e +ℤ (k *ℤ entry e x) }
    ensures over { (n : ℕ) (t : Linear) (x : ℕ) (k : ℤ) → IsOver n t → x < n → IsOver n (with_monomial t x k) }
{}

/// A reduced term is determined by its coefficients and its constant.
pub fn same_law()
    ensures { (s : Linear) (t : Linear) → IsReduced s → IsReduced t → ((x : ℕ) → coef_of s x ≡ coef_of t x)
        → s.constant ≡ t.constant → s ≡ t }
{}

/// Normal terms are reduced, and so are combinations of reduced terms and what is left without a name.
pub fn reduced_law()
    ensures normal { (t : Linear) → IsNormal t → IsReduced t }
    ensures combination { (m : ℤ) (s : Linear) (n : ℤ) (t : Linear) → IsReduced s → IsReduced t → IsReduced (combination m s n t) }
    ensures without { (t : Linear) (x : ℕ) → IsReduced t → IsReduced (without t x) }
{}

/// The order of terms is total, and only equal terms are equal in it.
pub fn term_order_law()
    ensures total { IsTotalOrder linear_cmp }
    ensures equal { (s : Linear) (t : Linear) → linear_cmp s t ≡ Equal → s ≡ t }
{}

/// `stays` tells whether both products and their sum are in the range, `all_stay` whether that is so of each number.
pub fn stays_law()
    ensures stays { (p : Place) → (stays p ≡ true) ↔ Stays p.m p.a p.n p.b }
    ensures all { (ps : List Place) → (all_stay ps ≡ true) ↔ All (λ p. stays p ≡ true) ps }
{}

/// The numbers of a combination have fields in the range.
pub fn raw_numbers_law()
    ensures { (m : ℤ) (s : Linear) (n : ℤ) (t : Linear) → InRange m → InRange n → IsNormal s → IsNormal t
        → All IsPlace (raw_numbers m s n t) }
{}

/// The value of a number is the number, and that of a name is the entry at it.
pub fn atoms_law()
    ensures number { (k : ℤ) (e : List ℤ) → value_of (number k) e ≡ k }
    ensures name { (x : ℕ) (e : List ℤ) → value_of (name x) e ≡ entry e x }
    ensures coefficient { (x : ℕ) → coef_of (name x) x ≡ pos 1 }
    ensures no_coefficient { (k : ℤ) (x : ℕ) → coef_of (number k) x ≡ pos 0 }
{}
