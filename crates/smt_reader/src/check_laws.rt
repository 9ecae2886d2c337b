// What the checks of a script are, each law the contract of a function with nothing to do.

ghost use Rattle.pri_typing.specs.WellFormed.{IsWellFormed};
ghost use Rattle.pri_typing.specs.declared.problem.Problem.{Problem};
ghost use Rattle.smt_reader.specs.Commands.{DoesFew, acts_of, script_terms};
ghost use Rattle.smt_reader.specs.Formed.{IsFormedCheck};
ghost use Rattle.smt_reader.specs.Order.{all_faults};
ghost use Rattle.smt_reader.specs.Read.{read_as};
ghost use Rattle.smt_shorthand.specs.Writing.{written_out};
ghost use Rattle.smt_reader.specs.Poses.{checks_in};
ghost use Rattle.smt_reader.specs.Posed.{IsCheckPosed, MeansSatisfiable, MeansUnsatisfiable};
ghost use Rattle.smt_commands.specs.Faults.{refusal_of};
ghost use Rattle.smt_commands.specs.Least.{least};
ghost use Rattle.smt_commands.specs.Levels.{lowest};
ghost use Rattle.smt_lists.specs.Grammar.{IsScriptText};
ghost use Rattle.smt_terms.specs.Scripts.{Command, State};
ghost use Rattle.smt_lists.specs.Expressions.{expr};
ghost use Rattle.smt_lists.specs.declared.tree.Sexp.{Sexp};
ghost use Rattle.std.specs.Prelude.{◌≡◌, ◌+◌, List, [], ℕ, None, All, length, map};

/// Where a text is a script whose commands and terms have no fault, at each of its checks few symbols are declared, and the
/// formula is sound: its numbers are in the range, its names are constants and bound variables, its functions and predicates
/// are declared with this many arguments, its sums have members, and its products are linear.
#[tactic(auto, using(crate::proofs::Texts::text_checks))]
pub fn checks_law()
    ensures { (bytes : List ℕ) (lists : List Sexp) → IsScriptText bytes lists → refusal_of script_terms (read_as lists) ≡ None
        → All IsFormedCheck (checks_in (read_as lists)) }
{}

/// A declared or defined symbol of a script, where what is short is written out, has at most four arguments more than the text has bytes.
#[tactic(auto, using(crate::proofs::Sizes::text_few))]
pub fn sizes_law()
    ensures { (bytes : List ℕ) (lists : List Sexp) → IsScriptText bytes lists → All (DoesFew (length bytes + 4)) (acts_of (written_out (map expr lists))) }
{}

/// The refusal of a script, no command of which is short for others or divides, is the least of all faults of its commands up to an `exit`, though
/// only those of the first command that has any are looked at: the offsets of lists rise.
#[tactic(auto, using(crate::proofs::Rising::refusal_least))]
pub fn refusal_law()
    ensures { (bytes : List ℕ) (lists : List Sexp) → IsScriptText bytes lists → read_as lists ≡ map expr lists
        → refusal_of script_terms (read_as lists) ≡ least (all_faults script_terms (lowest []) (read_as lists)) }
{}

/// The problem of a check with few symbols and a sound formula is well formed.
pub fn problem_law()
    ensures { (s : State) (p : Problem) → IsFormedCheck s → IsCheckPosed s p → IsWellFormed p }
{}

/// Where the problem of a question holds in an interpretation, no integers of the Int constants satisfy its assertions there;
/// where it is refuted, some finite interpretation and some integers satisfy them.
pub fn answers_law()
    ensures unsatisfiable { (cs : List Command) (p : Problem) → MeansUnsatisfiable cs p }
    ensures satisfiable { (cs : List Command) (p : Problem) → MeansSatisfiable cs p }
{}
