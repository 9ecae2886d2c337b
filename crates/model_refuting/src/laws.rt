// What it means that an encoding is false in a model, as the contract of a function with nothing to do.

ghost use Rattle.std.specs.Prelude.{◌≡◌, ◌++◌, length, true, List, [], ℤ};
ghost use Rattle.form_encoding.specs.Problems.{body, problem_root};
ghost use Rattle.form_typed.specs.Sorts.{AreValuesOf};
ghost use Rattle.model_check.specs.Judged.{SaysFalse};
ghost use Rattle.model_refuting.specs.Refuting.{FitsSymbols, IsModelCounterexample};
ghost use Rattle.model_table.specs.Models.{meaning_of};
ghost use Rattle.model_table.specs.declared.model.Model.{Model};
ghost use Rattle.pri_typing.specs.Problems.{Holds, IsRefuted};
ghost use Rattle.pri_typing.specs.WellFormed.{IsWellFormed};
ghost use Rattle.pri_typing.specs.declared.problem.Problem.{Problem};

/// Where an encoded problem is false in a model at values of its existential constants, the problem does not hold there in the
/// model's interpretation. Where its body is false at values of all constants, those of the universal ones being of their types,
/// a model that fits the symbols is a counterexample. One to a problem without existential constants refutes the problem.
pub fn refuting_law()
    ensures root { (p : Problem) (m : Model) (e : List ℤ) → IsWellFormed p → length e ≡ length p.existentials
        → SaysFalse true (meaning_of m) (problem_root p).value e → ¬ (Holds (meaning_of m) p e) }
    ensures body { (p : Problem) (m : Model) (e us : List ℤ) → IsWellFormed p → length e ≡ length p.existentials → length us ≡ length p.universals
        → AreValuesOf p.universal_types us → FitsSymbols p m → SaysFalse true (meaning_of m) (body p).value (e ++ us) → IsModelCounterexample p e m us }
    ensures refuted { (p : Problem) (m : Model) (us : List ℤ) → p.existentials ≡ [] → IsModelCounterexample p [] m us → IsRefuted p }
{}
