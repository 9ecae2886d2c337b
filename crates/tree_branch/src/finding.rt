// The principal of a rule that is given: its place, found by one pass along the list, without memory.

ghost use Rattle.backlist.specs.Walk.{IsWalk};
ghost use Rattle.tree_branch.specs.Choosing as choice;
ghost use Rattle.tree_branch.specs.Standing.{IsPrincipal, held, rule_at, standing};
ghost use Rattle.sequent.specs.Rules as calculus;
ghost use Rattle.std.specs.Prelude.{◌≡◌, ◌&&◌, IfNone, IfSome, None, is_some, slice_get};

use crate::branch::Branch;
use crate::principal::Principal;
use backlist::Pos;
use sequent::{Pick, Shape, takes};

impl Branch {
    /// Where member number `index` lies in the list.
    fn place_of(&self, index: u32) -> Option<Pos>
        ensures some { (shape : Shape) → IfSome result (λ at. IsPrincipal self.now (choice.principal shape index at)) }
        ensures none { IfNone result (slice_get (held self.now).members index ≡ None) }
    {
        let mut at = self.list.first();
        for i in 0..index {
            match at {
                Some(p) => at = self.list.next(p),
                None => return None,
            }
        }
        at
    }

    /// Member number `index`, where a rule of this shape has it as its principal.
    fn taken_by(&self, shape: Shape, index: u32) -> Option<Principal>
        ensures fits { is_some result ≡ calculus.has_shape (standing self.now) shape index }
        ensures rule { IfSome result (λ p. rule_at p.shape p.index ≡ rule_at shape index) }
        ensures principal { IfSome result (λ p. IsPrincipal self.now p) }
    {
        let at = self.place_of(index)?;
        if takes(shape, &self.list.get(at).formula) {
            Some(Principal { shape, index, at })
        } else {
            None
        }
    }

    /// The principal of this rule; none where the rule does not apply, and of close, which has none.
    pub fn principal_of(&self, rule: Pick) -> Option<Principal>
        ensures applies { is_some result ≡ (calculus.applies (standing self.now) rule && is_some (calculus.place rule)) }
        ensures rule { IfSome result (λ p. rule_at p.shape p.index ≡ rule) }
        ensures principal { IfSome result (λ p. IsPrincipal self.now p) }
    {
        match rule {
            Pick::Trivial(i) => self.taken_by(Shape::Trivial, i),
            Pick::Alpha(i) => self.taken_by(Shape::Alpha, i),
            Pick::Delta(i) => self.taken_by(Shape::Delta, i),
            Pick::Beta(i) => self.taken_by(Shape::Beta, i),
            Pick::Gamma(i) => self.taken_by(Shape::Gamma, i),
            Pick::Close => None,
        }
    }
}
