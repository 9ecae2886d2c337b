// When an integer lies between lower bounds b·x + s ≥ 0 and upper bounds −a·x + α ≥ 0 with positive a and b (Pugh 1992,
// the Omega test: real, exact and dark shadow, and splinters).

ghost use Rattle.elim_rule_laws.specs.Bounds.{Bound, IsPositive, HasUnitFactor, MeetsLower, MeetsUpper, IsBetween, InRealShadow, InDarkShadow, IsOnSplinter};
ghost use Rattle.std.specs.Prelude.{ℤ, ◌≤ℤ◌, ◌⊎◌, List, All};

/// Bounds of one side are always met by some integer.
pub fn one_sided_law()
    ensures lower { (ls : List Bound) → All IsPositive ls → (x : ℤ) × All (MeetsLower x) ls }
    ensures upper { (us : List Bound) → All IsPositive us → (x : ℤ) × All (MeetsUpper x) us }
{}

/// Where an integer lies between the bounds, the real shadow b·α + a·s ≥ 0 holds for each pair of them.
pub fn real_shadow_law()
    ensures { (ls : List Bound) (us : List Bound) (x : ℤ) → All IsPositive ls → All IsPositive us → IsBetween ls us x → InRealShadow ls us }
{}

/// Where the coefficients of the lower bounds, or those of the upper bounds, are all 1, the real shadow is exact: an
/// integer lies between the bounds.
pub fn exact_shadow_law()
    ensures lower { (ls : List Bound) (us : List Bound) → All HasUnitFactor ls → All IsPositive us → InRealShadow ls us → (x : ℤ) × IsBetween ls us x }
    ensures upper { (ls : List Bound) (us : List Bound) → All IsPositive ls → All HasUnitFactor us → InRealShadow ls us → (x : ℤ) × IsBetween ls us x }
{}

/// In the dark shadow, b·α + a·s − (a − 1)(b − 1) ≥ 0 for each pair, an integer lies between the bounds.
pub fn dark_shadow_law()
    ensures { (ls : List Bound) (us : List Bound) → All IsPositive ls → All IsPositive us → InDarkShadow ls us → (x : ℤ) × IsBetween ls us x }
{}

/// An integer between the bounds, outside the dark shadow, is on a splinter: for some lower bound b·x + s = i with
/// 0 ≤ i ≤ (A·b − A − b)/A, where no a is above A.
pub fn splinter_law()
    ensures { (ls : List Bound) (us : List Bound) (a : ℤ) (x : ℤ) → All IsPositive ls → All IsPositive us → All (λ u. u.factor ≤ℤ a) us
        → IsBetween ls us x → InDarkShadow ls us ⊎ IsOnSplinter a ls x }
{}
