// Fractions, checked.

use cdcl_fuel::{Fault, add, floor_div, gcd, gcd_of_words, mul};
use std::cmp::Ordering;

/// A number n / d, with d above 0, in lowest terms.
#[derive(Clone, Copy, Debug, PartialEq, Eq)]
pub struct Ratio {
    pub n: i128,
    pub d: i128,
}

impl Ratio {
    #[inline(always)]
    pub fn whole(n: i128) -> Ratio {
        Ratio { n, d: 1 }
    }

    #[inline(always)]
    pub fn is_whole(self) -> bool {
        self.d == 1
    }

    pub fn reduced(n: i128, d: i128) -> Result<Ratio, Fault> {
        if d == 1 {
            return Ok(Ratio { n, d });
        }
        if d == -1 {
            return Ok(Ratio {
                n: n.checked_neg().ok_or(Fault::Overflow)?,
                d: 1,
            });
        }
        if let Ok(x) = i64::try_from(n)
            && let Ok(y) = i64::try_from(d)
        {
            return Ratio::reduced_words(x, y);
        }
        let g = gcd(n, d)?;
        let g = if d < 0 {
            g.checked_neg().ok_or(Fault::Overflow)?
        } else {
            g
        };
        let n = n.checked_div(g).ok_or(Fault::Broken)?;
        let d = d.checked_div(g).ok_or(Fault::Broken)?;
        Ok(Ratio { n, d })
    }

    /// The same of numbers of 64 bits, which are divided much faster.
    fn reduced_words(n: i64, d: i64) -> Result<Ratio, Fault> {
        let g = i64::try_from(gcd_of_words(n.unsigned_abs(), d.unsigned_abs())).map_err(
            |_| Fault::Overflow,
        )?;
        let g = if d < 0 {
            g.checked_neg().ok_or(Fault::Overflow)?
        } else {
            g
        };
        let n = n.checked_div(g).ok_or(Fault::Overflow)?;
        let d = d.checked_div(g).ok_or(Fault::Overflow)?;
        Ok(Ratio {
            n: i128::from(n),
            d: i128::from(d),
        })
    }

    /// The greatest whole number that is not above it.
    pub fn floor(self) -> Result<i128, Fault> {
        floor_div(self.n, self.d)
    }

    #[inline(always)]
    pub fn plus(self, o: Ratio) -> Result<Ratio, Fault> {
        if self.d == 1 && o.d == 1 {
            return Ok(Ratio {
                n: add(self.n, o.n)?,
                d: 1,
            });
        }
        if self.d == o.d {
            return Ratio::reduced(add(self.n, o.n)?, self.d);
        }
        let n = add(mul(self.n, o.d)?, mul(o.n, self.d)?)?;
        Ratio::reduced(n, mul(self.d, o.d)?)
    }

    /// Times p / q.
    #[inline(always)]
    pub fn times(self, p: i64, q: i64) -> Result<Ratio, Fault> {
        let n = mul(self.n, i128::from(p))?;
        if q == 1 && self.d == 1 {
            return Ok(Ratio { n, d: 1 });
        }
        if q == -1 && self.d == 1 {
            return Ok(Ratio {
                n: n.checked_neg().ok_or(Fault::Overflow)?,
                d: 1,
            });
        }
        Ratio::reduced(n, mul(self.d, i128::from(q))?)
    }

    /// How it compares with a whole number.
    #[inline(always)]
    pub fn versus(self, v: i128) -> Result<Ordering, Fault> {
        if self.d == 1 {
            return Ok(self.n.cmp(&v));
        }
        Ok(self.n.cmp(&mul(v, self.d)?))
    }
}
