// Nodes and levels within the limits of a script.

ghost use Rattle.std.specs.Prelude.{◌≡◌};
ghost use Rattle.smt_sizes.specs.Size.{above, beside};

use base_limits::{MOST_LEVELS, MOST_NODES};

/// How large something is.
#[derive(Clone, Copy, Debug, PartialEq, Eq)]
pub enum Size {
    /// More nodes or more levels than a script may have.
    Large,
    /// Nodes and levels.
    Fits(u64, u64),
}

/// That of nothing at all.
pub const NOTHING: Size = Size::Fits(0, 0);

/// That of a single node.
pub const ONE: Size = Size::Fits(1, 1);

/// One thing beside others.
pub fn beside(a: Size, b: Size) -> Size
    ensures { result ≡ beside a b }
{
    match a {
        Size::Large => Size::Large,
        Size::Fits(n, l) => match b {
            Size::Large => Size::Large,
            Size::Fits(m, k) => {
                if n <= MOST_NODES && m <= MOST_NODES - n {
                    Size::Fits(n + m, l.max(k))
                } else {
                    Size::Large
                }
            }
        },
    }
}

/// A node above others.
pub fn above(of: Size) -> Size
    ensures { result ≡ above of }
{
    match of {
        Size::Large => Size::Large,
        Size::Fits(n, l) => {
            if n < MOST_NODES && l < MOST_LEVELS {
                Size::Fits(n + 1, l + 1)
            } else {
                Size::Large
            }
        }
    }
}
