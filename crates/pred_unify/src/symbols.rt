// Symbols of predicates and functions.

ghost use Rattle.std.specs.Prelude.{◌≡◌};
ghost use Rattle.pred_unify.specs.Pairs as pair;

use linear_term::Term;

/// Whether both are the same symbol at as many arguments.
pub(crate) fn alike(p: u32, ss: &[Term], q: u32, ts: &[Term]) -> bool
    ensures { result ≡ pair.alike p ss.now q ts.now }
{
    p == q && ss.len() == ts.len()
}
