// Divisors, their multiples and quotients at worked values and at both ends of the range.

use linear_term::{bezout, floor_div, gcd, in_range};

const MOST: i128 = i128::MAX;

const LEAST: i128 = -MOST;

#[test]
fn numbers(rt: HostRuntime) {
    for (a, b, want) in [
        (6, 4, 2),
        (0, 0, 0),
        (0, -5, 5),
        (-12, 18, 6),
        (MOST, LEAST, MOST),
        (MOST, 2, 1),
    ] {
        assert!(&rt; in_range(a) && in_range(b) && gcd(a, b) == want);
    }
    for (a, b, want) in [
        (6, 4, (2, 1, -1)),
        (2, 5, (1, 3, -1)),
        (4, 2, (2, 0, 1)),
        (MOST, 1, (1, 0, 1)),
        (1, MOST, (1, 1, 0)),
        (MOST, MOST, (MOST, 0, 1)),
    ] {
        assert!(&rt; 0 < a && 0 < b && bezout(a, b) == want);
    }
    for (a, b, want) in [
        (7, 2, 3),
        (-7, 2, -4),
        (-8, 2, -4),
        (LEAST, 1, LEAST),
        (LEAST, MOST, -1),
        (MOST, MOST, 1),
        (-1, MOST, -1),
    ] {
        assert!(&rt; in_range(a) && 0 < b && floor_div(a, b) == want);
    }
}
