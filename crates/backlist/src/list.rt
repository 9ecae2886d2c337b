// A doubly linked list whose changes are undone in reverse order without memory.
ghost use Rattle.std.specs.Prelude.{◌≡◌, ◌<◌, List as Seq, [], ◌∷◌, ◌++◌, Some, None, length, IfOk, IfErr, true, false};
ghost use Rattle.backlist.specs.Cells.{find, update};
ghost use Rattle.backlist.specs.Trail.{IsEnd, next_cells, prev_cells, end_after};
ghost use Rattle.backlist.specs.History.{replay, after, unlink_of, push_of, IsIn, AtItem, IsNewIn, back};
ghost use Rattle.backlist.specs.Links.{first_place};

use crate::boxes::{Boxes, Pos};
use crate::log::Log;
use crate::loose::Loose;
use std::alloc::{AllocError, Global};
use std::marker::Model;

/// One item with its links: in the list, and in the order of the changes.
#[derive(Drop)]
pub struct Node<T> {
    pub(crate) value: T,
    pub(crate) prev: Option<Pos>,
    pub(crate) next: Option<Pos>,
    // What was changed last before this item was pushed, and before it was unlinked.
    pub(crate) pushed_after: Option<Pos>,
    pub(crate) away: bool,
    pub(crate) unlinked_after: Option<Pos>,
}

pub(crate) fn set_next<T>(
    nodes: &mut Boxes<Node<T>>,
    first: &mut Option<Pos>,
    at: Option<Pos>,
    to: Option<Pos>,
)
    requires { IsEnd nodes.old.cells at }
    ensures nodes { nodes.new.cells ≡ next_cells at to nodes.old.cells }
    ensures first { first.new ≡ end_after at to first.old }
{
    match at {
        None => *first = to,
        Some(p) => {
            let n = nodes.get_mut(p);
            n.next = to;
        }
    }
}

pub(crate) fn set_prev<T>(
    nodes: &mut Boxes<Node<T>>,
    last: &mut Option<Pos>,
    at: Option<Pos>,
    to: Option<Pos>,
)
    requires { IsEnd nodes.old.cells at }
    ensures nodes { nodes.new.cells ≡ prev_cells at to nodes.old.cells }
    ensures last { last.new ≡ end_after at to last.old }
{
    match at {
        None => *last = to,
        Some(p) => {
            let n = nodes.get_mut(p);
            n.prev = to;
        }
    }
}

pub(crate) fn mark<T>(nodes: &mut Boxes<Node<T>>, p: Pos, away: bool, after: Option<Pos>)
    requires { IsEnd nodes.old.cells (Some p) }
    ensures { nodes.new.cells ≡ update p.at (λ n. record n { away = away; unlinked_after = after }) nodes.old.cells }
{
    let n = nodes.get_mut(p);
    n.away = away;
    n.unlinked_after = after;
}

/// A doubly linked list over raw pointers. A contract sees its present list and the stack of earlier lists.
pub struct BackList<T> {
    nodes: Boxes<Node<T>>,
    log: Log<T>,
    alloc: Global,
    first: Option<Pos>,
    last: Option<Pos>,
    // The node that was changed last.
    top: Option<Pos>,
    len: usize,
}

impl<T> Model for BackList<T> {
    ghost use Rattle.backlist.specs.History.{History, replay};

    ghost Value = { History T };

    ghost use Rattle.backlist.specs.Trail.{IsTrail};
    ghost use Rattle.std.specs.Prelude.{length, ◌≡◌, ◌<◌};

    ghost view = { λ a. replay a.log.changes };

    ghost invariant = { λ a. IsTrail a.log.changes (record { cells = a.nodes.cells; first = a.first; last = a.last; top = a.top }) × (a.len ≡ length (replay a.log.changes).present) };
}

impl<T> BackList<T> {
    /// No item, and no earlier list. It takes no memory.
    pub fn new(alloc: Global) -> BackList<T>
        ensures empty { result ≡ replay [] }
    {
        BackList {
            nodes: Boxes::new(),
            log: Log::new(),
            alloc,
            first: None,
            last: None,
            top: None,
            len: 0,
        }
    }

    /// How many items are in the list. Takes no memory.
    pub fn len(&self) -> usize
        ensures length { result ≡ length self.now.present }
    {
        self.len
    }

    /// The place of the first item, if there is one. Takes no memory.
    pub fn first(&self) -> Option<Pos>
        ensures first { result ≡ first_place self.now.present }
    {
        self.first
    }

    /// The place of the item after the one at p, if there is one. Takes no memory.
    pub fn next(&self, p: Pos) -> Option<Pos>
        requires { IsIn p self.now.present }
        ensures next { AtItem p self.now.present (λ xs v ys. result ≡ first_place ys) }
    {
        let node = self.nodes.get(p);
        node.next
    }

    /// The item at p. Takes no memory.
    pub fn get(&self, p: Pos) -> &T
        requires { IsIn p self.now.present }
        ensures value { AtItem p self.now.present (λ xs v ys. result.now ≡ v) }
    {
        let n = self.nodes.get(p);
        &n.value
    }

    /// Takes the item at p out of the list, and keeps it for `undo`. Takes no memory and cannot be refused.
    pub fn unlink(&mut self, p: Pos)
        requires { IsIn p self.old.present }
        ensures unlinked { self.new ≡ after (unlink_of p) self.old }
        ensures others { AtItem p self.old.present (λ xs v ys. self.new.present ≡ xs ++ ys) }
    {
        let n = self.nodes.get(p);
        let prev = n.prev;
        let next = n.next;
        set_next(&mut self.nodes, &mut self.first, prev, next);
        set_prev(&mut self.nodes, &mut self.last, next, prev);
        mark(&mut self.nodes, p, true, self.top);
        self.top = Some(p);
        self.len -= 1;
        self.log.unlinked(p);
    }

    /// Makes the latest earlier list the present one. It takes no memory and cannot fail.
    pub fn undo(&mut self)
    where
        T: Drop,
        requires { 0 < length self.old.earlier }
        ensures undone { self.new ≡ back self.old }
    {
        if let Some(p) = self.top {
            let n = self.nodes.get(p);
            let prev = n.prev;
            let next = n.next;
            if n.away {
                let top = n.unlinked_after;
                mark(&mut self.nodes, p, false, None);
                set_prev(&mut self.nodes, &mut self.last, next, Some(p));
                set_next(&mut self.nodes, &mut self.first, prev, Some(p));
                self.top = top;
                self.len += 1;
                self.log.undone();
            } else {
                let top = n.pushed_after;
                set_next(&mut self.nodes, &mut self.first, prev, None);
                let node = self.nodes.take(self.alloc, p);
                self.last = prev;
                self.top = top;
                self.len -= 1;
                self.log.undone();
                drop(node.into_box());
            }
        }
    }

    /// Adds v at the end, at a place where no item is or was, and answers the place. Running out of memory, also where the list has
    /// as many items as a usize counts, hands v back and changes nothing.
    pub fn push_back(&mut self, v: T) -> Result<Pos, (T, AllocError)>
    where
        T: Drop,
        ensures pushed { IfOk result (λ p. self.new ≡ after (push_of p v) self.old) }
        ensures fresh { IfOk result (λ p. IsNewIn p self.old) }
        ensures refused { IfErr result (λ e. (e.0 ≡ v) × (self.new ≡ self.old)) }
    {
        if self.len == usize::MAX {
            return Err((v, AllocError));
        }
        let node = Node {
            value: v,
            prev: self.last,
            next: None,
            pushed_after: self.top,
            away: false,
            unlinked_after: None,
        };
        match Box::new(self.alloc, node) {
            Ok(block) => {
                let p = self.nodes.put(Loose::of(block));
                set_next(&mut self.nodes, &mut self.first, self.last, Some(p));
                self.last = Some(p);
                self.top = Some(p);
                self.len += 1;
                let n = self.nodes.get(p);
                self.log.pushed(p, &n.value);
                Ok(p)
            }
            Err(refused) => {
                let node = refused.value;
                Err((node.value, AllocError))
            }
        }
    }

    fn has_earlier(&self) -> bool
        ensures some { result ≡ true → 0 < length self.now.earlier }
        ensures none { result ≡ false → self.now.earlier ≡ [] }
    {
        self.top.is_some()
    }
}

// Undoing every change frees every node, those that are unlinked too.
impl<T: Drop> Drop for BackList<T> {
    fn drop(mut self) {
        while self.has_earlier() {
            self.undo();
        }
        let BackList {
            nodes,
            log,
            alloc: _,
            first: _,
            last: _,
            top: _,
            len: _,
        } = self;
        nodes.close();
        log.close();
    }
}
