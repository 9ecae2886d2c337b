// What the definitions of a response mean, as the contract of a function with nothing to do.

ghost use Rattle.model_table.specs.Models.{truth_at, value_at};
ghost use Rattle.model_table.specs.declared.model.FunctionModel.{FunctionModel};
ghost use Rattle.model_table.specs.declared.model.Model.{Model};
ghost use Rattle.model_table.specs.declared.model.PredicateModel.{PredicateModel};
ghost use Rattle.pri_typing.specs.declared.problem.Problem.{Problem};
ghost use Rattle.pri_typing.specs.declared.problem.Symbol.{Symbol};
ghost use Rattle.smt_models.specs.Defined.{HasAt, TakesTruths, TakesValues};
ghost use Rattle.smt_models.specs.Models.{constant_definition, definitions, function_definition, predicate_definition};
ghost use Rattle.smt_models.specs.Values.{truth_by};
ghost use Rattle.smt_terms.specs.Operators.{integer, truth};
ghost use Rattle.std.specs.List.{slice_get};
ghost use Rattle.std.specs.Prelude.{◌≡◌, ◌<◌, ◌++◌, ◌^◌, ℕ, ℤ, List, [], length, map};

/// The definitions of a response say what the model does. A constant has its value, and a function or a predicate has, at all
/// integers, the value or the truth that its table says. Each symbol has one definition, in the order of the declarations.
pub fn definitions_law()
    ensures constant { (x : List ℕ) (v : ℤ) → HasAt (constant_definition x v) [] (integer v) }
    ensures function { (y : Symbol) (ts : List FunctionModel) (f : ℕ) (xs : List ℤ) → TakesValues y (slice_get ts f) → length xs ≡ y.arity → y.arity < 2 ^ 32
        → HasAt (function_definition y (slice_get ts f)) (map integer xs) (integer (value_at ts f xs)) }
    ensures predicate { (y : Symbol) (ts : List PredicateModel) (q : ℕ) (xs : List ℤ) → TakesTruths y (slice_get ts q) → length xs ≡ y.arity → y.arity < 2 ^ 32
        → HasAt (predicate_definition y (slice_get ts q)) (map integer xs) (truth (truth_at ts q xs)) }
    ensures names { (p : Problem) (m : Model) (us : List ℤ) → length us ≡ length p.universals
        → map (λ d. d.name) (definitions p m us) ≡ p.universals ++ (map (λ y. y.name) p.functions ++ map (λ y. y.name) p.predicates) }
{}

/// A value that a response shows of a predicate without arguments is the truth that the model says.
pub fn values_law()
    ensures { (ts : List PredicateModel) (k : ℕ) → truth_by (slice_get ts k) ≡ truth_at ts k [] }
{}
