// What sequents of the code are by their types. This call does nothing, and tells its caller so.

ghost use Rattle.sequent.specs.Views.{sequent_of};
ghost use Rattle.proof_tree.specs.Reduced.{IsReducedSequent};

use sequent::Sequent;

/// The names of each term rise and no coefficient is 0: this call does nothing, and tells its caller so.
#[tactic(auto, using(crate::proofs::Knowing::known))]
pub fn know_reduced(s: &Sequent)
    ensures { IsReducedSequent (sequent_of s.now) }
{
    for m in s.members.as_slice() {
        m.formula.know_reduced();
    }
}
