// Greatest common divisors and quotients of coefficients.

ghost use Rattle.base_integers.specs.Gcd.{gcd as gcd_of};
ghost use Rattle.base_integers.specs.Floor.{IsFloor};
ghost use Rattle.linear_term.specs.Range.{InRange};
ghost use Rattle.linear_term.specs.Cross.{Crosses};
ghost use Rattle.std.specs.Int.{IsGcd, int_div_euclid};
ghost use Rattle.std.specs.Prelude.{◌≡◌, ◌<◌, pos, ◌≤ℤ◌, ◌<ℤ◌, ◌+ℤ◌, ◌*ℤ◌};

/// The greatest common divisor of a and b, which are in the range: not negative, and 0 for 0 and 0.
pub fn gcd(a: i128, b: i128) -> i128
    requires a_in_range { InRange a }
    requires b_in_range { InRange b }
    ensures exact { result ≡ gcd_of a b }
    ensures range { InRange result }
{
    greatest_divisor(a.unsigned_abs(), b.unsigned_abs()) as i128
}

/// Euclid's algorithm by remainders of 64 bits.
fn small_divisor(a: u64, b: u64) -> u64
    ensures { IsGcd a b result }
{
    let (mut x, mut y) = (a, b);
    while y != 0 {
        (x, y) = (y, x % y);
    }
    x
}

/// Euclid's algorithm by remainders: numbers of 64 bits are divided as such.
fn greatest_divisor(a: u128, b: u128) -> u128
    ensures { IsGcd a b result }
{
    if a < 18446744073709551616 && b < 18446744073709551616 {
        return small_divisor(a as u64, b as u64) as u128;
    }
    let (mut x, mut y) = (a, b);
    while y != 0 {
        (x, y) = (y, x % y);
    }
    x
}

/// a divided by a positive b, rounded down: numbers of 64 bits are divided as such.
fn rounded_down(a: i128, b: i128) -> i128
    requires { pos 0 <ℤ b }
    ensures { result ≡ int_div_euclid a b }
{
    if -9223372036854775808 < a && a < 9223372036854775808 && b < 9223372036854775808 {
        return (a as i64).div_euclid(b as i64) as i128;
    }
    a.div_euclid(b)
}

/// The greatest integer q with q·b ≤ a, for a in the range and a positive b.
pub fn floor_div(a: i128, b: i128) -> i128
    requires a_in_range { InRange a }
    requires b_positive { pos 0 <ℤ b }
    ensures exact { result ≡ int_div_euclid a b }
    ensures floor { IsFloor a b result }
    ensures range { InRange result }
{
    rounded_down(a, b)
}

/// (g, p, q) for positive a and b: g is their greatest common divisor, g = p·a + q·b, and 0 ≤ p < b/g.
/// p and q are the coefficients of Bézout with the least p that is not negative.
pub fn bezout(a: i128, b: i128) -> (i128, i128, i128)
    requires a_positive { pos 0 <ℤ a }
    requires b_positive { pos 0 <ℤ b }
    ensures divisor { result.0 ≡ gcd_of a b }
    ensures sum { result.0 ≡ (result.1 *ℤ a) +ℤ (result.2 *ℤ b) }
    ensures least { (pos 0 ≤ℤ result.1) × ((result.1 *ℤ result.0) <ℤ b) }
{
    let cross = cross_sizes(a.unsigned_abs(), b.unsigned_abs());
    if cross.p == 0 {
        return (cross.g as i128, 0, 1);
    }
    (cross.g as i128, cross.p as i128, -(cross.n as i128))
}

/// The greatest common divisor g of two numbers, and p and n with g = p·a − n·b, or p = 0 where g is b.
#[derive(Clone, Copy)]
pub struct Cross {
    pub g: u128,
    pub p: u128,
    pub n: u128,
}

/// Euclid's algorithm with the factors of its result.
fn cross_sizes(a: u128, b: u128) -> Cross
    requires { 0 < b }
    ensures { Crosses a b result }
{
    let rest = a % b;
    if rest == 0 {
        return Cross { g: b, p: 0, n: 0 };
    }
    let below = cross_sizes(b, rest);
    if below.p == 0 {
        return Cross {
            g: rest,
            p: 1,
            n: a / b,
        };
    }
    let p = b / below.g - below.n;
    Cross {
        g: below.g,
        p,
        n: p * (a / b) + (rest / below.g - below.p),
    }
}
