// What the definition of the fault that counts means.

ghost use Rattle.smt_commands.specs.Least.{IsLeastFault, least};
ghost use Rattle.smt_commands.specs.declared.refusal.ScriptRefusal.{ScriptRefusal};
ghost use Rattle.std.specs.Prelude.{◌≡◌, [], List, None, Some};

/// The fault that counts is one of all, and none of them has a lesser offset, nor a lesser number at its offset; none counts
/// exactly where there is none.
#[tactic(auto, using(crate::proofs::Least::least_is, crate::proofs::Least::none_found))]
pub fn least_law()
    ensures least { (faults : List ScriptRefusal) (e : ScriptRefusal) → least faults ≡ Some e → IsLeastFault e faults }
    ensures none { (faults : List ScriptRefusal) → least faults ≡ None → faults ≡ [] }
{}
