// Laws of sums, products and the order of the integers.

ghost use Rattle.std.specs.Prelude.{ℤ, pos, ◌≡◌, ◌+ℤ◌, ◌-ℤ◌, ◌*ℤ◌, neg_ℤ, ◌≤ℤ◌, ◌<ℤ◌};

/// Products are distributive over sums and differences, associative, and carry signs out.
pub fn ring_law()
    ensures left { (m : ℤ) (a : ℤ) (b : ℤ) → m *ℤ (a +ℤ b) ≡ (m *ℤ a) +ℤ (m *ℤ b) }
    ensures right { (a : ℤ) (b : ℤ) (m : ℤ) → (a +ℤ b) *ℤ m ≡ (a *ℤ m) +ℤ (b *ℤ m) }
    ensures left_difference { (m : ℤ) (a : ℤ) (b : ℤ) → m *ℤ (a -ℤ b) ≡ (m *ℤ a) -ℤ (m *ℤ b) }
    ensures right_difference { (a : ℤ) (b : ℤ) (m : ℤ) → (a -ℤ b) *ℤ m ≡ (a *ℤ m) -ℤ (b *ℤ m) }
    ensures associative { (a : ℤ) (b : ℤ) (c : ℤ) → (a *ℤ b) *ℤ c ≡ a *ℤ (b *ℤ c) }
    ensures sign { (a : ℤ) (b : ℤ) → neg_ℤ a *ℤ b ≡ neg_ℤ (a *ℤ b) }
{}

/// A product by a positive factor keeps the order, and gives it back. Between two multiples next to each other lies no
/// third one.
pub fn order_law()
    ensures at_most { (x : ℤ) (y : ℤ) (k : ℤ) → pos 0 ≤ℤ k → x ≤ℤ y → (x *ℤ k) ≤ℤ (y *ℤ k) }
    ensures below { (x : ℤ) (y : ℤ) (k : ℤ) → pos 0 <ℤ k → x <ℤ y → (x *ℤ k) <ℤ (y *ℤ k) }
    ensures at_most_back { (x : ℤ) (y : ℤ) (k : ℤ) → pos 0 <ℤ k → (x *ℤ k) ≤ℤ (y *ℤ k) → x ≤ℤ y }
    ensures below_back { (x : ℤ) (y : ℤ) (k : ℤ) → pos 0 ≤ℤ k → (x *ℤ k) <ℤ (y *ℤ k) → x <ℤ y }
    ensures cancels { (x : ℤ) (y : ℤ) (k : ℤ) → pos 0 <ℤ k → x *ℤ k ≡ y *ℤ k → x ≡ y }
    ensures between { (x : ℤ) (y : ℤ) (k : ℤ) → pos 0 <ℤ k → (x *ℤ k) <ℤ ((y *ℤ k) +ℤ k) → x ≤ℤ y }
{}
