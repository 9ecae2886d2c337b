// A script or a refusal, as the contract of a function with nothing to do.

ghost use Rattle.pri_typing.specs.declared.problem.Problem.{Problem};
ghost use Rattle.smt_reader.specs.Commands.{script_terms};
ghost use Rattle.smt_commands.specs.declared.refusal.ScriptRefusal.{ScriptRefusal};
ghost use Rattle.smt_reader.specs.Scripts.{RefusesScript};
ghost use Rattle.smt_reader.specs.Poses.{IsLargeScript, IsScriptOf};
ghost use Rattle.std.specs.Prelude.{◌≡◌, ◌≢◌, List, ℕ};

/// A text that is a script, too large or not, has no fault of its tokens, commands and terms; it is not both too large and not; and
/// a text has one such fault at most that comes first.
pub fn one_law()
    ensures taken { (bytes : List ℕ) (ps : List Problem) (e : ScriptRefusal) → IsScriptOf bytes ps → RefusesScript script_terms bytes e → e ≡ ScriptRefusal.Memory }
    ensures large { (bytes : List ℕ) (e : ScriptRefusal) → IsLargeScript bytes → RefusesScript script_terms bytes e → e ≡ ScriptRefusal.Memory }
    ensures apart { (bytes : List ℕ) (ps : List Problem) → IsScriptOf bytes ps → ¬ (IsLargeScript bytes) }
    ensures first { (bytes : List ℕ) (a b : ScriptRefusal) → RefusesScript script_terms bytes a → RefusesScript script_terms bytes b
        → a ≢ ScriptRefusal.Memory → b ≢ ScriptRefusal.Memory → a ≡ b }
{}
