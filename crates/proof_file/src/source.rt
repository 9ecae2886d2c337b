// The lines of a proof as a checker takes them, one by one, wherever they come from: a text, or a tree in memory.

ghost use Rattle.proof_file.specs.Told.{KeepsLog, TellsLine};
ghost use Rattle.proof_tree.specs.declared.node.Conclusion.{Conclusion};
ghost use Rattle.base_budget.specs.declared.log.ElimLog.{ElimLog};
ghost use Rattle.std.specs.Prelude.{◌≡◌, ◌∷◌, [], IfErr, IfOk, List, None};
ghost use Rattle.proof_grammar.specs.declared.lines.TextLine.{TextLine};

use base_budget::ElimLog;
use clause_set::Literal;
use linear_term::Memory;
use proof_tree::Conclusion;
use sequent::Pick;
use sqlite_items::Items;
use std::alloc::Global;

/// A line of the tree of a proof, or the end of the tree.
#[derive(Drop)]
pub enum Line {
    /// The rule of a node, with the number of its premises.
    Row(Pick, u32),
    /// The log of a node has come.
    Log,
    /// The constraint of a node.
    Gives(Items<Items<Literal>>),
    /// The conclusion has come.
    End,
}

/// Lines of a proof that come one after another: those of its tree, and then its conclusion.
pub trait ProofLines {
    // These lines are still to come.
    ghost coming: { Self → List TextLine → Type 0 };

    // The log that came last.
    ghost log_of: { Self → ElimLog };

    // The conclusion, once it has come.
    ghost end_of: { Self → Conclusion };

    /// The line that comes next; none after the end, where nothing changes. Nor does anything at running out of memory.
    fn next(&mut self, alloc: Global) -> Result<Option<Line>, Memory>
        ensures line { (l : TextLine) (ls : List TextLine) → coming self.old (l ∷ ls) → IfOk result (λ x. TellsLine x (log_of self.new) (end_of self.new) l × coming self.new ls) }
        ensures log { IfOk result (λ x. KeepsLog x (log_of self.old) (log_of self.new)) }
        ensures end { coming self.old [] → IfOk result (λ x. (x ≡ None) × (self.new ≡ self.old)) }
        ensures memory { IfErr result (λ _. self.new ≡ self.old) };

    /// The log that came last.
    fn log(&self) -> &ElimLog
        ensures { result.now ≡ log_of self.now };

    /// The conclusion, once it has come.
    fn conclusion(&self) -> &Conclusion
        ensures { result.now ≡ end_of self.now };
}
