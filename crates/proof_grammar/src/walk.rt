// What a text of lines still owes: the rules that are open, and where the text stands.

ghost use Rattle.base_limits.specs.Limits.{branch_limit};
ghost use Rattle.std.specs.Prelude.{◌≡◌, ◌≤◌, ◌+◌, ◌∷◌, ◌++◌, [], List, ℕ, MatchOption, OnErr, OnOk};
ghost use Rattle.proof_tree.specs.Walk.{eliminates};
ghost use Rattle.proof_grammar.specs.Owed.{last_owed, nodes_owed, owes, Pays, Shallow, tree_owed};
ghost use Rattle.proof_grammar.specs.Walks.{IsInner, open_owed, owed_of};
ghost use Rattle.proof_grammar.specs.declared.lines.Owed.{Owed};
ghost use Rattle.proof_grammar.specs.declared.lines.Owed.TheVariants as o;

use crate::lines::{Owed, TextLine};
use linear_term::Memory;
use sequent::Pick;
use sqlite_items::Items;
use std::alloc::Global;

/// A rule whose node is not at its end: how many of its premises are still to come, their level, and whether its log
/// has come.
#[derive(Clone, Copy)]
pub struct Open {
    pub rule: Pick,
    pub left: u32,
    pub below: u32,
    pub logged: bool,
}

/// Where a text stands after its opening: before the tree, in it after a rule, before the conclusion, or at its end.
#[derive(Clone, Copy)]
pub enum Place {
    Root,
    Inside(Open),
    End,
    Done,
}

/// What a text still owes: the innermost open rule stands in the place, the others below it, the outermost first.
#[derive(Drop)]
pub struct Walk {
    pub place: Place,
    pub outer: Items<Open>,
    /// How many parts the text has.
    pub parts: usize,
}

/// A rule that was just read, on this level.
fn opened(rule: Pick, count: u32, level: u32) -> Open
    requires { level ≤ branch_limit }
    ensures { (parts : ℕ) → open_owed parts result ≡ nodes_owed parts count (level + 1) ++ last_owed parts rule }
{
    Open {
        rule,
        left: count,
        below: level + 1,
        logged: false,
    }
}

/// Whether the rule eliminates, so that its node has a log.
fn eliminates(rule: Pick) -> bool
    ensures { result ≡ eliminates rule }
{
    match rule {
        Pick::Delta(_) | Pick::Gamma(_) | Pick::Close => true,
        Pick::Trivial(_) | Pick::Alpha(_) | Pick::Beta(_) => false,
    }
}

/// The line that an open rule owes first, in a text of this many parts.
fn next_of(node: Open, parts: usize) -> Owed
    ensures { (os : List Owed) × (open_owed parts node ≡ result ∷ os) }
{
    if node.left > 0 {
        return Owed::Node(node.below, parts);
    }
    if node.logged {
        return Owed::Gives;
    }
    if eliminates(node.rule) {
        return Owed::Log(parts);
    }
    Owed::Gives
}

impl Walk {
    /// After the opening of a text of this many parts.
    pub fn new(alloc: Global, parts: usize) -> Walk
        ensures owed { owed_of result ≡ tree_owed parts }
        ensures parts { result.parts ≡ parts }
    {
        Walk {
            place: Place::Root,
            outer: Items::new(alloc),
            parts,
        }
    }

    /// The line that is owed first; none at the end of the text.
    pub fn owed(&self) -> Option<Owed>
        ensures { MatchOption result (owed_of self.now ≡ []) (λ x. (os : List Owed) × (owed_of self.now ≡ x ∷ os)) }
    {
        match self.place {
            Place::Root => Some(Owed::Node(1, self.parts)),
            Place::Inside(node) => Some(next_of(node, self.parts)),
            Place::End => Some(Owed::End(self.parts)),
            Place::Done => None,
        }
    }

    /// The line that begins a node has come.
    pub(crate) fn enter(&mut self, level: u32, rule: Pick, count: u32) -> Result<(), Memory>
        requires { level ≤ branch_limit }
        ensures ok { OnOk result ((m : ℕ) (os : List Owed) → owed_of self.old ≡ o.Node level m ∷ os → owed_of self.new ≡ nodes_owed m count (level + 1) ++ last_owed m rule ++ os) }
        ensures parts { OnOk result (self.new.parts ≡ self.old.parts) }
        ensures err { OnErr result (self.new ≡ self.old) }
    {
        let Place::Inside(node) = self.place else {
            self.place = Place::Inside(opened(rule, count, level));
            return Ok(());
        };
        let rest = Open {
            rule: node.rule,
            left: node.left.saturating_sub(1),
            below: node.below,
            logged: node.logged,
        };
        self.outer.push(rest)?;
        self.place = Place::Inside(opened(rule, count, level));
        Ok(())
    }

    /// The log of a node has come.
    pub(crate) fn note(&mut self)
        ensures owed { (m : ℕ) (os : List Owed) → owed_of self.old ≡ o.Log m ∷ os → owed_of self.new ≡ os }
        ensures parts { self.new.parts ≡ self.old.parts }
    {
        if let Place::Inside(node) = self.place {
            self.place = Place::Inside(Open {
                rule: node.rule,
                left: node.left,
                below: node.below,
                logged: true,
            });
        }
    }

    /// The constraint of a node has come.
    pub(crate) fn leave(&mut self)
        ensures owed { (os : List Owed) → owed_of self.old ≡ o.Gives ∷ os → owed_of self.new ≡ os }
        ensures parts { self.new.parts ≡ self.old.parts }
    {
        let Some(node) = self.outer.pop() else {
            self.place = Place::End;
            return;
        };
        self.place = Place::Inside(node);
    }

    /// The conclusion has come.
    fn end(&mut self)
        ensures owed { (m : ℕ) (os : List Owed) → owed_of self.old ≡ o.End m ∷ os → owed_of self.new ≡ os }
        ensures parts { self.new.parts ≡ self.old.parts }
    {
        self.place = Place::Done;
    }

    /// The line that is owed first has come. At running out of memory nothing changes.
    pub fn pay(&mut self, owed: Owed, line: &TextLine) -> Result<(), Memory>
        requires { Pays Shallow owed line.now }
        ensures ok { OnOk result ((os : List Owed) → owed_of self.old ≡ owed ∷ os → owed_of self.new ≡ owes owed line.now ++ os) }
        ensures inner { OnOk result ((os : List Owed) → owed_of self.old ≡ owed ∷ os → IsInner line.now) }
        ensures parts { OnOk result (self.new.parts ≡ self.old.parts) }
        ensures err { OnErr result (self.new ≡ self.old) }
    {
        match line {
            TextLine::Row(rule, count) => {
                let Owed::Node(level, _) = owed else {
                    return Ok(());
                };
                self.enter(level, *rule, *count)
            }
            TextLine::Log(_) | TextLine::LogOf(_) => {
                self.note();
                Ok(())
            }
            TextLine::Gives(_) => {
                self.leave();
                Ok(())
            }
            TextLine::End(_) | TextLine::EndOf(_) => {
                self.end();
                Ok(())
            }
            TextLine::Head(_) | TextLine::Parts(_) | TextLine::Part(_) | TextLine::Charges(_) => {
                Ok(())
            }
        }
    }
}
