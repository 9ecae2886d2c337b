// The root's formulas, each by its number, with what is known of them without their names' terms.

use crate::terms::{List, Monomial, Term, Terms};
use cdcl_fuel::{Fault, at, put, small};
use formula::Core;
use std::alloc::Global;

/// Where members stand in the list of all members.
#[derive(Clone, Copy)]
pub struct Span {
    pub start: u32,
    pub count: u32,
}

/// A formula, by the numbers of its parts. Terms are over the names 0, 1, .. of the quantifiers around it.
#[derive(Clone, Copy)]
pub enum Node {
    Equation(Term),
    Disequation(Term),
    Inequality(Term),
    Predicate(u32, List),
    NotPredicate(u32, List),
    /// The function has another value than the term.
    OtherValue(u32, List, Term),
    And(Span),
    Or(Span),
    Forall(u32),
    Exists(u32),
    /// For all u: f(s) is not u, or the rest. So the rest holds at the value of f(s), as its next name.
    Read(u32, List, u32),
}

/// What is known of a formula: how many names it is over, its size, and whether it has neither predicates nor functions.
#[derive(Clone, Copy)]
pub struct Info {
    pub depth: u32,
    pub size: u32,
    pub is_pure: bool,
}

#[derive(Drop)]
pub struct Tree {
    pub alloc: Global,
    nodes: Vec<Node>,
    infos: Vec<Info>,
    members: Vec<u32>,
    pub root: u32,
}

/// The greatest depth of a root.
const DEEPEST: u32 = 5000;

impl Tree {
    /// The formulas of a root over this many names.
    pub fn new(alloc: Global, terms: &mut Terms, root: &Core, names: u32) -> Result<Tree, Fault> {
        let mut tree = Tree {
            alloc,
            nodes: Vec::new(alloc),
            infos: Vec::new(alloc),
            members: Vec::new(alloc),
            root: 0,
        };
        tree.root = tree.take(terms, root, names, DEEPEST)?;
        Ok(tree)
    }

    #[inline]
    pub fn node(&self, n: u32) -> Result<Node, Fault> {
        at(&self.nodes, n as usize)
    }

    #[inline]
    pub fn info(&self, n: u32) -> Result<Info, Fault> {
        at(&self.infos, n as usize)
    }

    #[inline]
    pub fn member(&self, span: Span, i: u32) -> Result<u32, Fault> {
        if i >= span.count {
            return Err(Fault::Broken);
        }
        let n = span.start.checked_add(i).ok_or(Fault::Broken)?;
        at(&self.members, n as usize)
    }

    fn add(&mut self, node: Node, info: Info) -> Result<u32, Fault> {
        let n = small(self.nodes.len())?;
        self.nodes.push(node)?;
        self.infos.push(info)?;
        Ok(n)
    }

    fn atom(&mut self, node: Node, depth: u32, is_pure: bool) -> Result<u32, Fault> {
        self.add(
            node,
            Info {
                depth,
                size: 1,
                is_pure,
            },
        )
    }

    /// The number of a formula over this many names, in which there is room for this many levels.
    fn take(
        &mut self,
        terms: &mut Terms,
        core: &Core,
        depth: u32,
        room: u32,
    ) -> Result<u32, Fault> {
        if room == 0 {
            return Err(Fault::Overflow);
        }
        match shape_of(core) {
            Shape::Members(ms, is_and) => {
                let span = self.reserve(ms.len())?;
                let mut info = Info {
                    depth,
                    size: 1,
                    is_pure: true,
                };
                let mut place = span.start as usize;
                for m in ms {
                    let n = self.take(terms, m, depth, room - 1)?;
                    put(&mut self.members, place, n)?;
                    place = place.saturating_add(1);
                    info = with_part(info, self.info(n)?);
                }
                self.add(
                    if is_and {
                        Node::And(span)
                    } else {
                        Node::Or(span)
                    },
                    info,
                )
            }
            Shape::Quantified(g, is_forall) => {
                let below = depth.checked_add(1).ok_or(Fault::Overflow)?;
                let body = self.take(terms, g, below, room - 1)?;
                self.quantified(terms, body, is_forall, depth)
            }
            Shape::Leaf => self.leaf(terms, core, depth),
        }
    }

    fn leaf(&mut self, terms: &mut Terms, core: &Core, depth: u32) -> Result<u32, Fault> {
        match core {
            Core::Eq(t) => {
                let t = term(self.alloc, terms, t)?;
                self.atom(Node::Equation(t), depth, true)
            }
            Core::Neq(t) => {
                let t = term(self.alloc, terms, t)?;
                self.atom(Node::Disequation(t), depth, true)
            }
            Core::Geq(t) => {
                let t = term(self.alloc, terms, t)?;
                self.atom(Node::Inequality(t), depth, true)
            }
            Core::Pred(p, ts) => {
                let list = list(self.alloc, terms, ts.as_slice())?;
                self.atom(Node::Predicate(*p, list), depth, false)
            }
            Core::NotPred(p, ts) => {
                let list = list(self.alloc, terms, ts.as_slice())?;
                self.atom(Node::NotPredicate(*p, list), depth, false)
            }
            Core::NotFun(f, ts, t) => {
                let list = list(self.alloc, terms, ts.as_slice())?;
                let t = term(self.alloc, terms, t)?;
                self.atom(Node::OtherValue(*f, list, t), depth, false)
            }
            _ => Err(Fault::Broken),
        }
    }

    fn reserve(&mut self, count: usize) -> Result<Span, Fault> {
        let start = small(self.members.len())?;
        for _ in 0..count {
            self.members.push(0)?;
        }
        Ok(Span {
            start,
            count: small(count)?,
        })
    }

    fn quantified(
        &mut self,
        terms: &Terms,
        body: u32,
        is_forall: bool,
        depth: u32,
    ) -> Result<u32, Fault> {
        let part = self.info(body)?;
        let info = Info {
            depth,
            size: part.size.saturating_add(1),
            is_pure: part.is_pure,
        };
        if !is_forall {
            return self.add(Node::Exists(body), info);
        }
        let reading = self.reading(terms, body, depth)?;
        self.add(reading.unwrap_or(Node::Forall(body)), info)
    }

    /// What the body of a for-all over this many names reads, if it does.
    fn reading(&self, terms: &Terms, body: u32, depth: u32) -> Result<Option<Node>, Fault> {
        let Node::Or(span) = self.node(body)? else {
            return Ok(None);
        };
        if span.count != 2 {
            return Ok(None);
        }
        let Node::OtherValue(f, list, t) = self.node(self.member(span, 0)?)? else {
            return Ok(None);
        };
        let own = match terms.pairs(t.linear)? {
            [p] => t.constant == 0 && p.name == depth && p.factor == 1,
            _ => false,
        };
        for s in terms.list(list)? {
            if let Some(x) = terms.last_name(s.linear)?
                && x >= depth
            {
                return Ok(None);
            }
        }
        let rest = self.member(span, 1)?;
        Ok(if own {
            Some(Node::Read(f, list, rest))
        } else {
            None
        })
    }
}

/// What a formula is made of.
enum Shape<'a> {
    Members(&'a [Core], bool),
    Quantified(&'a Core, bool),
    Leaf,
}

fn shape_of(core: &Core) -> Shape<'_> {
    match core {
        Core::And(ms) => Shape::Members(ms.as_slice(), true),
        Core::Or(ms) => Shape::Members(ms.as_slice(), false),
        Core::Forall(g) => Shape::Quantified(g.get(), true),
        Core::Exists(g) => Shape::Quantified(g.get(), false),
        _ => Shape::Leaf,
    }
}

fn with_part(info: Info, part: Info) -> Info {
    Info {
        depth: info.depth,
        size: info.size.saturating_add(part.size),
        is_pure: info.is_pure && part.is_pure,
    }
}

fn term(alloc: Global, terms: &mut Terms, t: &linear_term::Term) -> Result<Term, Fault> {
    let mut pairs: Vec<Monomial> = Vec::with_capacity(alloc, t.pairs().len())?;
    for p in t.pairs() {
        pairs.push(Monomial {
            name: p.0,
            factor: p.1,
        })?;
    }
    let linear = terms.linear(pairs.as_slice())?;
    let constant = t.constant();
    Ok(Term { linear, constant })
}

fn list(alloc: Global, terms: &mut Terms, ts: &[linear_term::Term]) -> Result<List, Fault> {
    let mut out: Vec<Term> = Vec::with_capacity(alloc, ts.len())?;
    for t in ts {
        out.push(term(alloc, terms, t)?)?;
    }
    terms.list_of(out.as_slice())
}
