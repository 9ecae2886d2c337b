// Opening of closures: clauses that say what follows where a closure is false (Plaisted and Greenbaum, A structure-preserving
// clause form translation, 1986).

use crate::state::State;
use cdcl_forms::{Definition, Instance, List, Lit, Node, Span, literal, negated};
use cdcl_fuel::{Fault, at};

impl State {
    /// Opens all closures that are new.
    pub fn open_all(&mut self) -> Result<(), Fault> {
        for _ in 0..u64::MAX {
            let Some(v) = self.to_open.pop() else {
                return Ok(());
            };
            self.open(v)?;
        }
        Err(Fault::Steps)
    }

    /// The clauses of one closure.
    fn open(&mut self, v: u32) -> Result<(), Fault> {
        self.fuel.spend(5)?;
        self.knowledge.words.generation = self.knowledge.words.generation_of(v as usize)?;
        let Definition::Closure(node, list) = self.knowledge.words.definition(v as usize)? else {
            return Err(Fault::Broken);
        };
        match self.knowledge.words.tree.node(node)? {
            Node::And(span) => self.open_and(v, span, list),
            Node::Or(span) => self.open_or(v, span, list),
            Node::Forall(body) => self.open_forall(v, body, list),
            Node::Read(_, _, _) => self.open_read(v, node, list),
            Node::Exists(body) => self.open_exists(v, body, list),
            _ => Err(Fault::Broken),
        }
    }

    /// The literal of a formula of the root with terms for its names.
    fn member(&mut self, node: u32, list: List) -> Result<Lit, Fault> {
        let x = self.knowledge.words.formula(node, list)?;
        self.literal(x)
    }

    /// The literals of all members of a formula.
    fn members(&mut self, span: Span, list: List) -> Result<Vec<Lit>, Fault> {
        let mut members: Vec<Lit> = Vec::with_capacity(self.alloc, span.count as usize)?;
        for i in 0..span.count {
            self.fuel.spend(2)?;
            let node = self.knowledge.words.tree.member(span, i)?;
            let l = self.member(node, list)?;
            members.push(l)?;
        }
        Ok(members)
    }

    /// It is true, or some member is false.
    fn open_and(&mut self, v: u32, span: Span, list: List) -> Result<(), Fault> {
        let mut members = self.members(span, list)?;
        let id = self.knowledge.log.open_and(v, members.as_slice())?;
        for m in members.iter_mut() {
            *m = negated(*m);
        }
        members.push(literal(v, true)?)?;
        self.input(members.as_slice(), id)
    }

    /// It is true, or each member is false.
    fn open_or(&mut self, v: u32, span: Span, list: List) -> Result<(), Fault> {
        let members = self.members(span, list)?;
        let mut id = self.knowledge.log.open_or(v, members.as_slice())?;
        let own = literal(v, true)?;
        for m in members.as_slice() {
            self.input(&[own, negated(*m)], id)?;
            id = id.checked_add(1).ok_or(Fault::Overflow)?;
        }
        Ok(())
    }

    /// It is true, or its body is false at a new constant.
    fn open_forall(&mut self, v: u32, body: u32, list: List) -> Result<(), Fault> {
        let c = self.knowledge.words.constant()?;
        let name = self.knowledge.words.terms.name(c)?;
        let list = self.knowledge.words.terms.extended(list, name)?;
        let member = self.member(body, list)?;
        let id = self.knowledge.log.open_forall(v, member)?;
        self.input(&[literal(v, true)?, negated(member)], id)
    }

    /// It is true, or what is left after all readings is false at the values of the applications.
    fn open_read(&mut self, v: u32, node: u32, list: List) -> Result<(), Fault> {
        let (mut node, mut list) = (node, list);
        let mut applications: Vec<u32> = Vec::new(self.alloc);
        for _ in 0..u64::MAX {
            let Node::Read(function, arguments, rest) = self.knowledge.words.tree.node(node)? else {
                break;
            };
            let a = self.read(function, arguments, list)?;
            applications.push(a)?;
            list = self.with_value(list, a)?;
            node = rest;
        }
        let member = self.member(node, list)?;
        let id = self.knowledge.log.read(v, applications.as_slice(), member)?;
        self.input(&[literal(v, true)?, negated(member)], id)
    }

    /// The application that one reading stands for.
    fn read(&mut self, function: u32, arguments: List, list: List) -> Result<u32, Fault> {
        self.fuel.spend(3)?;
        let arguments = self.knowledge.words.terms.put_in_all(arguments, list)?;
        self.apply(function, arguments)
    }

    /// The list with the value of an application after it.
    fn with_value(&mut self, list: List, a: u32) -> Result<List, Fault> {
        let c = self.knowledge.words.application(a)?.constant;
        let name = self.knowledge.words.terms.name(c)?;
        self.knowledge.words.terms.extended(list, name)
    }

    /// The application of a function to terms, which the log learns of where it is new.
    fn apply(&mut self, function: u32, arguments: List) -> Result<u32, Fault> {
        let known = self.knowledge.words.apply(function, arguments)?;
        if known.is_new {
            self.knowledge.log.apply(known.number)?;
        }
        Ok(known.number)
    }

    /// Takes in an instance, with all closures that are new in it.
    pub fn instance(&mut self, x: Instance) -> Result<(), Fault> {
        self.knowledge.words.generation = x.generation;
        self.instance_of(x.variable, x.terms)?;
        self.open_all()
    }

    /// The body of a false for-some at terms is false.
    pub(crate) fn instance_of(&mut self, v: u32, terms: List) -> Result<(), Fault> {
        let Definition::Closure(node, own) = self.knowledge.words.definition(v as usize)? else {
            return Err(Fault::Broken);
        };
        let (mut node, mut list) = (node, own);
        let n = self.knowledge.words.terms.list(terms)?.len();
        self.fuel.spend(20)?;
        for i in 0..n {
            let Node::Exists(body) = self.knowledge.words.tree.node(node)? else {
                return Err(Fault::Broken);
            };
            let t = at(self.knowledge.words.terms.list(terms)?, i)?;
            list = self.knowledge.words.terms.extended(list, t)?;
            node = body;
        }
        let member = self.member(node, list)?;
        let id = self.knowledge.log.instance(v, terms, member)?;
        self.input(&[literal(v, true)?, negated(member)], id)
    }
}
