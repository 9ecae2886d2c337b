// The pure formula that a formula is in a finite model: predicates and functions become cases over the rows of their tables
// (Ge and de Moura, Complete instantiation for quantified formulas in satisfiability modulo theories, 2009).

use crate::formulas::{
    Members, constant, disequation, equation, inequality, is_false, is_true, minus, number, plus,
    quantified,
};
use crate::tables::Model;
use cdcl_forms::{List, Node, Span, Vocabulary};
use cdcl_fuel::{Fault, Fuel, at, mul, near, sub};
use formula::Core;
use linear_term::Term;
use std::alloc::Global;

/// What a node, and a number of a row that is compared, costs.
const NODE: u64 = 8;

const NUMBER: u64 = 4;

/// How deep a formula may be.
const DEEPEST: u32 = 5000;

/// A name that has none of these values, which rise.
#[derive(Drop)]
pub struct Outside {
    pub name: u32,
    pub values: Vec<i128>,
}

/// Makes a pure formula of a formula in a model.
#[derive(Drop)]
pub struct Purifier {
    alloc: Global,
    /// The terms of the names that stand around.
    names: Vec<Term>,
    /// The next name that is bound.
    next: u32,
    outside: Option<Outside>,
}

impl Purifier {
    /// For a formula whose names have these values, and after them are this many free names.
    pub fn new(
        alloc: Global,
        values: &[i128],
        free: u32,
        outside: Option<Outside>,
    ) -> Result<Purifier, Fault> {
        let mut names = Vec::with_capacity(alloc, values.len())?;
        for x in values {
            names.push(number(alloc, *x)?)?;
        }
        for x in 0..free {
            names.push(Term::name(alloc, x))?;
        }
        Ok(Purifier {
            alloc,
            names,
            next: free,
            outside,
        })
    }

    /// The pure formula over the free names that the formula is in the model.
    pub fn purify(
        &mut self,
        words: &Vocabulary,
        model: &Model,
        node: u32,
        fuel: &mut Fuel,
    ) -> Result<Core, Fault> {
        self.formula(words, model, node, DEEPEST, fuel)
    }

    #[cycle(purifying)]
    fn formula(
        &mut self,
        words: &Vocabulary,
        model: &Model,
        node: u32,
        room: u32,
        fuel: &mut Fuel,
    ) -> Result<Core, Fault> {
        let Some(room) = room.checked_sub(1) else {
            return Err(Fault::Overflow);
        };
        fuel.spend(NODE)?;
        match words.tree.node(node)? {
            Node::And(span) => self.members(words, model, span, true, room, fuel),
            Node::Or(span) => self.members(words, model, span, false, room, fuel),
            Node::Read(function, arguments, rest) => self.read(
                words, model, function, arguments, rest, room, fuel,
            ),
            Node::Forall(body) => {
                let body = self.under_name(words, model, body, room, fuel)?;
                quantified(self.alloc, body, true)
            }
            Node::Exists(body) => {
                let body = self.under_name(words, model, body, room, fuel)?;
                quantified(self.alloc, body, false)
            }
            atom => self.atom(words, model, atom, fuel),
        }
    }

    #[cycle(purifying)]
    fn members(
        &mut self,
        words: &Vocabulary,
        model: &Model,
        span: Span,
        is_and: bool,
        room: u32,
        fuel: &mut Fuel,
    ) -> Result<Core, Fault> {
        let Some(room) = room.checked_sub(1) else {
            return Err(Fault::Overflow);
        };
        let mut members = Members::new(self.alloc, is_and);
        for i in 0..span.count {
            if members.decided {
                break;
            }
            let member = words.tree.member(span, i)?;
            members.push(self.formula(words, model, member, room, fuel)?)?;
        }
        Ok(members.finish())
    }

    /// The body of a quantifier, whose name is the next bound one.
    #[cycle(purifying)]
    fn under_name(
        &mut self,
        words: &Vocabulary,
        model: &Model,
        body: u32,
        room: u32,
        fuel: &mut Fuel,
    ) -> Result<Core, Fault> {
        let Some(room) = room.checked_sub(1) else {
            return Err(Fault::Overflow);
        };
        let name = self.next;
        self.next = name.checked_add(1).ok_or(Fault::Overflow)?;
        self.names.push(Term::name(self.alloc, name))?;
        let made = self.formula(words, model, body, room, fuel)?;
        let _name = self.names.pop();
        self.next = name;
        Ok(made)
    }

    /// What reads a value: the rest at the value of each row that the arguments may be, and at the default elsewhere.
    #[cycle(purifying)]
    fn read(
        &mut self,
        words: &Vocabulary,
        model: &Model,
        function: u32,
        arguments: List,
        rest: u32,
        room: u32,
        fuel: &mut Fuel,
    ) -> Result<Core, Fault> {
        let Some(room) = room.checked_sub(1) else {
            return Err(Fault::Overflow);
        };
        let Some(table) = model.functions.get(function as usize) else {
            return self.at_value(words, model, rest, 0, room, fuel);
        };
        let terms = self.terms(words, arguments)?;
        let mut cases = Members::new(self.alloc, false);
        let mut apart = Members::new(self.alloc, true);
        for i in 0..table.rows.len() {
            let row = table.rows.row(i)?;
            let value = at(&table.values, i)?;
            let other = self.compared(terms.as_slice(), row, false, fuel)?;
            if is_false(&other) {
                return self.at_value(words, model, rest, value, room, fuel);
            }
            if is_true(&other) || value == table.default {
                continue;
            }
            let mut case = Members::new(self.alloc, true);
            case.push(self.compared(terms.as_slice(), row, true, fuel)?)?;
            case.push(self.at_value(words, model, rest, value, room, fuel)?)?;
            cases.push(case.finish())?;
            apart.push(other)?;
        }
        apart.push(self.at_value(words, model, rest, table.default, room, fuel)?)?;
        cases.push(apart.finish())?;
        Ok(cases.finish())
    }

    /// A formula whose last name has a value.
    #[cycle(purifying)]
    fn at_value(
        &mut self,
        words: &Vocabulary,
        model: &Model,
        rest: u32,
        value: i128,
        room: u32,
        fuel: &mut Fuel,
    ) -> Result<Core, Fault> {
        let Some(room) = room.checked_sub(1) else {
            return Err(Fault::Overflow);
        };
        self.names.push(number(self.alloc, value)?)?;
        let made = self.formula(words, model, rest, room, fuel)?;
        let _name = self.names.pop();
        Ok(made)
    }

    fn atom(
        &mut self,
        words: &Vocabulary,
        model: &Model,
        atom: Node,
        fuel: &mut Fuel,
    ) -> Result<Core, Fault> {
        match atom {
            Node::Equation(t) => Ok(equation(self.alloc, self.term(words, t)?)),
            Node::Disequation(t) => Ok(disequation(self.alloc, self.term(words, t)?)),
            Node::Inequality(t) => Ok(inequality(self.alloc, self.term(words, t)?)),
            Node::Predicate(p, arguments) => self.predicate(words, model, p, arguments, true, fuel),
            Node::NotPredicate(p, arguments) => self.predicate(
                words, model, p, arguments, false, fuel,
            ),
            _ => Err(Fault::Overflow),
        }
    }

    /// Whether a predicate has the truth at the terms: at the rows where it is not as elsewhere, or at none of them.
    fn predicate(
        &mut self,
        words: &Vocabulary,
        model: &Model,
        p: u32,
        arguments: List,
        truth: bool,
        fuel: &mut Fuel,
    ) -> Result<Core, Fault> {
        let Some(table) = model.predicates.get(p as usize) else {
            return Ok(constant(self.alloc, !truth));
        };
        let among = table.default != truth;
        let terms = self.terms(words, arguments)?;
        let mut members = Members::new(self.alloc, !among);
        for i in 0..table.rows.len() {
            if members.decided {
                break;
            }
            if at(&table.truths, i)? != table.default {
                members.push(self.compared(terms.as_slice(), table.rows.row(i)?, among, fuel)?)?;
            }
        }
        Ok(members.finish())
    }

    /// Whether the terms are the numbers of a row, or whether one of them is another.
    fn compared(
        &self,
        terms: &[Term],
        row: &[i128],
        same: bool,
        fuel: &mut Fuel,
    ) -> Result<Core, Fault> {
        let mut members = Members::new(self.alloc, same);
        for i in 0..row.len() {
            if members.decided {
                break;
            }
            fuel.spend(NUMBER)?;
            let t = near(terms, i)?;
            let x = at(row, i)?;
            if self.is_never(t, x)? {
                members.push(constant(self.alloc, !same))?;
                continue;
            }
            let difference = minus(self.alloc, t, x)?;
            members.push(if same {
                equation(self.alloc, difference)
            } else {
                disequation(self.alloc, difference)
            })?;
        }
        Ok(members.finish())
    }

    /// Whether the term cannot be the number, since its name is outside of the values that it would have.
    fn is_never(&self, t: &Term, x: i128) -> Result<bool, Fault> {
        let Some(outside) = &self.outside else {
            return Ok(false);
        };
        let [pair] = t.pairs() else {
            return Ok(false);
        };
        if pair.0 != outside.name || pair.1 != 1 && pair.1 != -1 {
            return Ok(false);
        }
        let Ok(difference) = sub(x, t.constant()) else {
            return Ok(false);
        };
        let value = mul(difference, pair.1)?;
        Ok(outside.values.contains(&value))
    }

    /// The term at the terms of the names around.
    fn term(&self, words: &Vocabulary, t: cdcl_forms::Term) -> Result<Term, Fault> {
        let mut sum = number(self.alloc, t.constant)?;
        for m in words.terms.pairs(t.linear)? {
            sum = plus(&sum, m.factor, near(&self.names, m.name as usize)?)?;
        }
        Ok(sum)
    }

    fn terms(&self, words: &Vocabulary, arguments: List) -> Result<Vec<Term>, Fault> {
        let list = words.terms.list(arguments)?;
        let mut out = Vec::with_capacity(self.alloc, list.len())?;
        for t in list {
            out.push(self.term(words, *t)?)?;
        }
        Ok(out)
    }
}
