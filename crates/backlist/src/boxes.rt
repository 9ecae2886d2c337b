// Boxed values, each named by the place where it lies. The only raw pointers of the crate.
ghost use Rattle.std.specs.Prelude.{◌≡◌, List as Seq, [], ◌∷◌, Some, IsSome, ◌<◌};
ghost use Rattle.std.specs.Borrow.{sem};
ghost use Rattle.std.specs.Mem.{type_size};
ghost use Rattle.backlist.specs.Cells.{Cell, cell, find, IsFresh};
ghost use Rattle.backlist.specs.Ownership.{cells_own, cells_lent};

use crate::loose::Loose;
use std::alloc::Global;
use std::marker::{Model, PhantomData};

/// The place of one value. It owns nothing.
pub struct Pos {
    pub(crate) at: *mut u8,
}

impl Clone for Pos {
    ghost use Rattle.std.specs.Prelude.{⊤};

    ghost is_clone = { λ x y. y ≡ x };

    ghost is_infallible = { λ _. ⊤ };

    fn clone(&self) -> Result<Pos, std::alloc::AllocError> {
        Ok(*self)
    }
}

impl Copy for Pos {}

/// The owner of the boxes. It takes no space.
pub struct Boxes<N> {
    mark: PhantomData<*mut N>,
    ghost cells: { Seq (Cell N) },
}

impl<N> Model for Boxes<N> {
    ghost also_owns = { λ b. cells_own N.row b.cells };

    ghost also_shares = { λ b _ κ. cells_lent N.row b.cells κ };
}

impl<N> Boxes<N> {
    ghost use Rattle.backlist.specs.Lends.{lends_value};

    pub(crate) fn new() -> Boxes<N>
        ensures { result.cells ≡ [] }
    {
        Boxes { mark: PhantomData }
    }

    pub(crate) fn get(&self, p: Pos) -> &N
        requires { IsSome (find p.at self.now.cells) }
        ensures { find p.at self.now.cells ≡ Some result.now }
    {
        unsafe { &*(p.at as *mut N) }
    }

    /// Keeps a value, whose place is new.
    pub(crate) fn put(&mut self, value: Loose<N, Global>) -> Pos
        requires sized { 0 < type_size N.row }
        ensures cells { self.new.cells ≡ cell result.at value.value ∷ self.old.cells }
        ensures fresh { IsFresh result.at self.old.cells }
    {
        let Loose { at, alloc: _ } = value;
        Pos { at: at as *mut u8 }
    }

    /// Gives up the value that came last.
    pub(crate) fn take(&mut self, alloc: Global, p: Pos) -> Loose<N, Global>
        requires { (n : N) × (rest : Seq (Cell N)) × (self.old.cells ≡ cell p.at n ∷ rest) }
        ensures { self.old.cells ≡ cell p.at result.value ∷ self.new.cells }
    {
        Loose {
            at: p.at as *mut N,
            alloc,
        }
    }

    pub(crate) fn get_mut(&mut self, p: Pos) -> &mut N
        requires { IsSome (find p.at self.old.cells) }
        ensures* writes_back { sem 𝓛 (lends_value N.row self.entry p.at result) }
        ensures value { find p.at self.old.cells ≡ Some result.now }
    {
        unsafe { &mut *(p.at as *mut N) }
    }

    /// No box is left.
    pub(crate) fn close(self)
        requires { self.cells ≡ [] }
    {
        let Boxes { mark: _ } = self;
    }
}
