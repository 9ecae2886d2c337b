// What the size of a formula says.

ghost use Rattle.std.specs.Prelude.{◌≡◌, ◌↔◌, ◌<◌, ◌⊎◌};
ghost use Rattle.form_typed.specs.Formula.{Formula, Formulas};
ghost use Rattle.smt_sizes.specs.declared.size.Size.TheVariants.{Large, Fits};
ghost use Rattle.smt_sizes.specs.Extent.{all_extent, extent, IsTooLarge};
ghost use Rattle.smt_sizes.specs.Sizes.{all_sizes, size};

/// A formula is large exactly where it has more than 1,000,000 nodes or more than 2,000 levels, each formula and each term in it
/// being one node that opens one level; otherwise its size is its nodes and levels. Formulas are large together exactly where all of
/// them have more than 1,000,000 nodes, or one has more than 2,000 levels.
pub fn size_law()
    ensures large { (f : Formula) → (size f ≡ Large) ↔ IsTooLarge (extent f) }
    ensures together { (fs : Formulas) → (all_sizes fs ≡ Large) ↔ IsTooLarge (all_extent fs) }
    ensures fits { (f : Formula) → ¬ (IsTooLarge (extent f)) → size f ≡ Fits (extent f).nodes (extent f).levels }
{}
