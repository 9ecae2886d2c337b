// The changes that are not undone yet, for proofs alone: it takes no space, and its calls do nothing.
ghost use Rattle.std.specs.Prelude.{◌≡◌, List as Seq, [], ◌∷◌, Some, None};
ghost use base.Fml.{ftrue};
ghost use Rattle.backlist.specs.History.{Change, push_of, unlink_of};

use crate::boxes::Pos;
use std::marker::{Model, PhantomData};

/// The changes of a list, the last one first.
pub struct Log<T> {
    mark: PhantomData<*mut T>,
    ghost changes: { Seq (Change T) },
}

impl<T> Model for Log<T> {
    ghost also_owns = { λ _. ftrue };
}

impl<T> Log<T> {
    pub(crate) fn new() -> Log<T>
        ensures { result.changes ≡ [] }
    {
        Log { mark: PhantomData }
    }

    pub(crate) fn pushed(&mut self, p: Pos, v: &T)
        ensures { self.new.changes ≡ push_of p v.now ∷ self.old.changes }
    {}

    pub(crate) fn unlinked(&mut self, p: Pos)
        ensures { self.new.changes ≡ unlink_of p ∷ self.old.changes }
    {}

    pub(crate) fn undone(&mut self)
        requires { (c : Change T) × (cs : Seq (Change T)) × (self.old.changes ≡ c ∷ cs) }
        ensures { (c : Change T) × (self.old.changes ≡ c ∷ self.new.changes) }
    {}

    pub(crate) fn close(self) {
        let Log { mark: _ } = self;
    }
}
