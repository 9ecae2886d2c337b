// What formulas of the code are by their types. This call does nothing, and tells its caller so.

ghost use Rattle.formula.specs.Tree.{form};
ghost use Rattle.quant_elim.specs.Knowing.{IsKnown};

use formula::Core;

/// A formula is one of Presburger arithmetic where it has no predicate and no function.
pub(crate) fn know_terms(f: &Core)
    ensures { IsKnown (form f.now) }
{
    f.know_reduced();
}
