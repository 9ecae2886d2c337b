// The principal of the rule that comes first, found member by member.

ghost use Rattle.tree_branch.specs.Choosing as choice;
ghost use Rattle.tree_branch.specs.Standing.{rule_at};
ghost use Rattle.std.specs.Prelude.{◌≡◌, nat_lt};

use backlist::Pos;
use sequent::{Pick, Shape};

/// The principal of a rule: the rule, which member it is, counted from 0, and where that lies in the list.
#[derive(Drop)]
pub struct Principal {
    pub shape: Shape,
    pub index: u32,
    pub at: Pos,
}

impl Principal {
    /// The rule with the number of its principal.
    pub fn rule(&self) -> Pick
        ensures { result ≡ rule_at self.now.shape self.now.index }
    {
        match self.shape {
            Shape::Trivial => Pick::Trivial(self.index),
            Shape::Alpha => Pick::Alpha(self.index),
            Shape::Delta => Pick::Delta(self.index),
            Shape::Beta => Pick::Beta(self.index),
            Shape::Gamma => Pick::Gamma(self.index),
        }
    }
}

fn rank(k: Shape) -> u8
    ensures { result ≡ choice.rank k }
{
    match k {
        Shape::Trivial => 0,
        Shape::Alpha => 1,
        Shape::Delta => 2,
        Shape::Beta => 3,
        Shape::Gamma => 4,
    }
}

/// The better of the best principal so far and a later member: the one whose rule comes first, and of two alike the earlier.
pub(crate) fn better(
    best: Option<Principal>,
    fit: Option<Shape>,
    index: u32,
    at: Pos,
) -> Option<Principal>
    ensures { result ≡ choice.better best fit index at }
{
    let Some(shape) = fit else {
        return best;
    };
    let later = Principal { shape, index, at };
    match best {
        None => Some(later),
        Some(first) => {
            if rank(shape) < rank(first.shape) {
                Some(later)
            } else {
                Some(first)
            }
        }
    }
}
