// The lines of a tree in memory, one by one. Each node that was begun has a frame: what is still to come of it.

ghost use Rattle.clause_set.specs.declared.literal.Literal.{Literal};
ghost use Rattle.proof_file.specs.Told.{KeepsLog, TellsLine};
ghost use Rattle.proof_tree.specs.Views.{proof_of};
ghost use Rattle.proof_tree.specs.declared.node.Conclusion as tree;
ghost use Rattle.base_budget.specs.declared.log.ElimLog as logs;
ghost use Rattle.std.specs.Option.{option_copied};
ghost use Rattle.std.specs.Prelude.{◌≡◌, ◌++◌, ◌∷◌, [], IfErr, IfOk, List, None, Some};
ghost use Rattle.tree_checker.specs.Frames.{IsLineTold, all_due, below, due, ends, row_line, still_due};
ghost use Rattle.tree_checker.specs.Told as told;
ghost use Rattle.tree_checker.specs.Told.{told_lines};
ghost use Rattle.proof_grammar.specs.Lines.{last_lines};
ghost use Rattle.proof_grammar.specs.declared.lines.TextLine.{TextLine};
ghost use Rattle.proof_grammar.specs.declared.lines.TextLine.TheVariants as w;

use crate::nodes::eliminates;
use base_budget::ElimLog;
use clause_set::Literal;
use linear_term::Memory;
use proof_file::{Line, ProofLines};
use proof_tree::{Conclusion, Node, Tree, copy_clauses};
use sequent::Pick;
use sqlite_items::Items;
use std::alloc::Global;

/// What is still to come of a node: trees of its premises, its log, if there is one, and its constraint.
#[derive(Clone, Copy)]
struct Frame<'a> {
    rest: &'a [Node],
    log: Option<&'a ElimLog>,
    gives: &'a [Items<Literal>],
}

/// Where the lines of a tree are: before its root, within a node, before its conclusion or after that.
#[derive(Clone, Copy)]
enum Stage<'a> {
    Root,
    Within(Frame<'a>),
    End,
    Done,
}

/// The lines of a tree that are still to come. The logs and the conclusion are the tree's own.
#[derive(Drop)]
pub struct TreeLines<'a> {
    tree: &'a Tree,
    log: &'a ElimLog,
    stage: Stage<'a>,
    /// The nodes round the one at hand, the innermost one last.
    outer: Items<Frame<'a>>,
}

/// How many premises a row tells.
fn told_width(rule: Pick, premises: usize, log: &ElimLog) -> u32
    ensures { result ≡ told.told_width rule premises log.now.entries }
{
    let has_right_log = eliminates(rule) || log.entries.is_empty();
    if has_right_log && premises < u32::MAX as usize {
        premises as u32
    } else {
        u32::MAX
    }
}

/// The row of a node.
fn row(node: &Node) -> Line
    ensures { (log : logs.ElimLog) (c : tree.Conclusion) → TellsLine (Some result) log c (row_line (proof_of node.now)) }
{
    let premises = told_width(node.rule, node.children.len(), &node.log);
    Line::Row(node.rule, premises)
}

/// The log that comes, where the rule eliminates.
fn log_of<'a>(rule: Pick, log: &'a ElimLog) -> Option<&'a ElimLog>
    ensures { (d : List (List Literal)) → ends (option_copied result) d ≡ last_lines rule log.now.entries d }
{
    if eliminates(rule) { Some(log) } else { None }
}

/// What comes of a node after its row.
fn behind_row<'a>(node: &'a Node) -> Frame<'a>
    ensures { due result ≡ below (proof_of node.now) }
{
    Frame {
        rest: node.children.as_slice(),
        log: log_of(node.rule, &node.log),
        gives: node.gives.as_slice(),
    }
}

impl<'a> TreeLines<'a> {
    /// Before the root of the tree.
    pub fn new(alloc: Global, tree: &'a Tree) -> TreeLines<'a>
        ensures { told_lines (proof_of tree.now.root) ++ w.End tree.now.conclusion ∷ [] ≡ still_due result.stage result.tree.now result.outer }
    {
        TreeLines {
            tree,
            log: &tree.root.log,
            stage: Stage::Root,
            outer: Items::new(alloc),
        }
    }

    /// The root is begun: its row.
    fn begin(&mut self) -> Line
        ensures told { (log : logs.ElimLog) (c : tree.Conclusion) → IsLineTold (told_lines (proof_of self.old.tree.now.root) ++ (all_due self.old.outer ++ w.End self.old.tree.now.conclusion ∷ [])) (Some result) log c (still_due self.new.stage self.new.tree.now self.new.outer) }
        ensures kept { (self.new.tree ≡ self.old.tree) × (self.new.log ≡ self.old.log) }
    {
        let root = &self.tree.root;
        self.stage = Stage::Within(behind_row(root));
        row(root)
    }

    /// A node is done, and the one round it goes on; the end, where there is none.
    fn leave(&mut self)
        ensures due { still_due self.new.stage self.new.tree.now self.new.outer ≡ all_due self.old.outer ++ w.End self.old.tree.now.conclusion ∷ [] }
        ensures kept { (self.new.tree ≡ self.old.tree) × (self.new.log ≡ self.old.log) }
    {
        match self.outer.pop() {
            Some(frame) => self.stage = Stage::Within(frame),
            None => self.stage = Stage::End,
        }
    }

    /// The trees of a node's premises have come: its log, where it is still to come, or else its constraint.
    fn end(&mut self, alloc: Global, frame: Frame<'a>) -> Result<Line, Memory>
        requires { frame.rest.now ≡ [] }
        ensures told { IfOk result (λ x. (c : tree.Conclusion) → IsLineTold (ends (option_copied frame.entry.log) frame.entry.gives.now ++ (all_due self.old.outer ++ w.End self.old.tree.now.conclusion ∷ [])) (Some x) self.new.log.now c (still_due self.new.stage self.new.tree.now self.new.outer)) }
        ensures tree { self.new.tree ≡ self.old.tree }
        ensures log { IfOk result (λ x. KeepsLog (Some x) self.old.log.now self.new.log.now) }
        ensures memory { IfErr result (λ _. self.new ≡ self.old) }
    {
        match frame.log {
            Some(log) => {
                self.log = log;
                self.stage = Stage::Within(Frame {
                    rest: frame.rest,
                    log: None,
                    gives: frame.gives,
                });
                Ok(Line::Log)
            }
            None => {
                let gives = copy_clauses(alloc, frame.gives)?;
                self.leave();
                Ok(Line::Gives(gives))
            }
        }
    }

    /// The node at hand goes on: with the tree of a premise, or with its end.
    fn go_on(&mut self, alloc: Global, frame: Frame<'a>) -> Result<Line, Memory>
        ensures told { IfOk result (λ x. (c : tree.Conclusion) → IsLineTold (due frame.entry ++ (all_due self.old.outer ++ w.End self.old.tree.now.conclusion ∷ [])) (Some x) self.new.log.now c (still_due self.new.stage self.new.tree.now self.new.outer)) }
        ensures tree { self.new.tree ≡ self.old.tree }
        ensures log { IfOk result (λ x. KeepsLog (Some x) self.old.log.now self.new.log.now) }
        ensures memory { IfErr result (λ _. self.new ≡ self.old) }
    {
        match frame.rest.split_first() {
            Some((first, rest)) => {
                self.outer.push(Frame {
                    rest,
                    log: frame.log,
                    gives: frame.gives,
                })?;
                self.stage = Stage::Within(behind_row(first));
                Ok(row(first))
            }
            None => self.end(alloc, frame),
        }
    }
}

impl<'a> ProofLines for TreeLines<'a> {
    ghost use Rattle.proof_file.specs.Told.{KeepsLog, TellsLine};
    ghost use Rattle.std.specs.Prelude.{◌≡◌, ◌∷◌, [], IfErr, IfOk, List, None};
    ghost use Rattle.tree_checker.specs.Frames.{still_due};
    ghost use Rattle.proof_grammar.specs.declared.lines.TextLine.{TextLine};

    ghost coming = { λ s ls. ls ≡ still_due s.stage s.tree.now s.outer };

    ghost log_of = { λ s. s.log.now };

    ghost end_of = { λ s. s.tree.now.conclusion };

    fn next(&mut self, alloc: Global) -> Result<Option<Line>, Memory>
        ensures line { (l : TextLine) (ls : List TextLine) → l ∷ ls ≡ still_due self.old.stage self.old.tree.now self.old.outer → IfOk result (λ x. TellsLine x self.new.log.now self.new.tree.now.conclusion l × (ls ≡ still_due self.new.stage self.new.tree.now self.new.outer)) }
        ensures log { IfOk result (λ x. KeepsLog x self.old.log.now self.new.log.now) }
        ensures end { [] ≡ still_due self.old.stage self.old.tree.now self.old.outer → IfOk result (λ x. (x ≡ None) × (self.new ≡ self.old)) }
        ensures memory { IfErr result (λ _. self.new ≡ self.old) }
    {
        match self.stage {
            Stage::Root => Ok(Some(self.begin())),
            Stage::Within(frame) => Ok(Some(self.go_on(alloc, frame)?)),
            Stage::End => {
                self.stage = Stage::Done;
                Ok(Some(Line::End))
            }
            Stage::Done => Ok(None),
        }
    }

    fn log(&self) -> &ElimLog
        ensures { result.now ≡ self.now.log.now }
    {
        self.log
    }

    fn conclusion(&self) -> &Conclusion
        ensures { result.now ≡ self.now.tree.now.conclusion }
    {
        &self.tree.conclusion
    }
}
