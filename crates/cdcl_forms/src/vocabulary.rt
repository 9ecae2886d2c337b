// All variables with what they stand for, all constants and all applications. Equal ones have one number.

use crate::atoms::{Definition, Fact, Signed, constant, equation, fact_of, inequality, literal_of};
use crate::interner::Interner;
use crate::terms::{List, Term, Terms, words};
use crate::tree::Tree;
use cdcl_fuel::{Fault, at, near_mut};
use formula::Core;
use std::alloc::Global;

/// Twice the variable, and one more where it is negated.
pub type Lit = u32;

/// The literal that is always true.
pub const TRUE: Lit = 0;

/// The other literal of its variable.
#[inline]
pub fn negated(l: Lit) -> Lit {
    l ^ 1
}

/// The variable of a literal.
#[inline]
pub fn variable(l: Lit) -> usize {
    (l / 2) as usize
}

/// The literal of a variable.
#[inline]
pub fn literal(v: u32, positive: bool) -> Result<Lit, Fault> {
    let l = v.checked_mul(2).ok_or(Fault::Overflow)?;
    Ok(if positive { l } else { l | 1 })
}

/// The value of a function at terms, by a constant.
#[derive(Clone, Copy)]
pub struct Application {
    pub function: u32,
    pub arguments: List,
    pub constant: u32,
    pub generation: u32,
}

/// The number of something, and whether it was made just now.
#[derive(Clone, Copy)]
pub struct Known {
    pub number: u32,
    pub is_new: bool,
}

#[derive(Drop)]
pub struct Vocabulary {
    alloc: Global,
    pub terms: Terms,
    pub tree: Tree,
    /// What each variable stands for. Variable 0 is always true.
    definitions: Vec<Definition>,
    /// How many instances within one another each variable came from.
    generations: Vec<u32>,
    applications: Vec<Application>,
    /// The applications of each function.
    by_function: Vec<Vec<u32>>,
    /// The variables of each predicate.
    by_predicate: Vec<Vec<u32>>,
    variables: Interner<u64>,
    readings: Interner<u64>,
    constants: u32,
    /// The generation of what is made now.
    pub generation: u32,
}

fn bucket(alloc: Global, lists: &mut Vec<Vec<u32>>, i: u32, n: u32) -> Result<(), Fault> {
    for _ in lists.len()..(i as usize).saturating_add(1) {
        lists.push(Vec::new(alloc))?;
    }
    near_mut(lists, i as usize)?.push(n)?;
    Ok(())
}

fn key(d: Definition) -> [u64; 4] {
    match d {
        Definition::Always => [0, 0, 0, 0],
        Definition::AtLeastZero(t) => {
            let (low, high) = words(t.constant);
            [1, u64::from(t.linear), low, high]
        }
        Definition::IsZero(t) => {
            let (low, high) = words(t.constant);
            [2, u64::from(t.linear), low, high]
        }
        Definition::Predicate(p, list) => [3, u64::from(p), u64::from(list), 0],
        Definition::Closure(node, list) => [4, u64::from(node), u64::from(list), 0],
    }
}

impl Vocabulary {
    /// The root's formulas and terms, over this many names, and the variable that is always true.
    pub fn new(alloc: Global, root: &Core, names: u32) -> Result<Vocabulary, Fault> {
        let mut terms = Terms::new(alloc)?;
        let tree = Tree::new(alloc, &mut terms, root, names)?;
        let mut vocabulary = Vocabulary {
            alloc,
            terms,
            tree,
            definitions: Vec::new(alloc),
            generations: Vec::new(alloc),
            applications: Vec::new(alloc),
            by_function: Vec::new(alloc),
            by_predicate: Vec::new(alloc),
            variables: Interner::new(alloc),
            readings: Interner::new(alloc),
            constants: 0,
            generation: 0,
        };
        let _always = vocabulary.variable_of(Definition::Always)?;
        Ok(vocabulary)
    }

    /// How many variables there are.
    pub fn len(&self) -> usize {
        self.definitions.len()
    }

    /// How many constants there are.
    pub fn constants(&self) -> u32 {
        self.constants
    }

    /// A new constant.
    pub fn constant(&mut self) -> Result<u32, Fault> {
        let c = self.constants;
        self.constants = c.checked_add(1).ok_or(Fault::Overflow)?;
        Ok(c)
    }

    #[inline]
    pub fn definition(&self, v: usize) -> Result<Definition, Fault> {
        at(&self.definitions, v)
    }

    #[inline]
    pub fn generation_of(&self, v: usize) -> Result<u32, Fault> {
        at(&self.generations, v)
    }

    pub fn applications(&self) -> &[Application] {
        self.applications.as_slice()
    }

    #[inline]
    pub fn application(&self, a: u32) -> Result<Application, Fault> {
        at(&self.applications, a as usize)
    }

    /// How many functions, by their greatest number, have applications.
    pub fn functions(&self) -> usize {
        self.by_function.len()
    }

    /// The applications of a function.
    pub fn applications_of(&self, function: usize) -> &[u32] {
        match self.by_function.get(function) {
            Some(list) => list.as_slice(),
            None => &[],
        }
    }

    /// How many predicates, by their greatest number, have variables.
    pub fn predicates(&self) -> usize {
        self.by_predicate.len()
    }

    /// The variables of a predicate.
    pub fn variables_of(&self, predicate: usize) -> &[u32] {
        match self.by_predicate.get(predicate) {
            Some(list) => list.as_slice(),
            None => &[],
        }
    }

    /// The variable of a definition, which is new if none stands for it.
    pub fn variable_of(&mut self, d: Definition) -> Result<Known, Fault> {
        let number = self.variables.intern(&key(d))?;
        if (number as usize) < self.definitions.len() {
            return Ok(Known {
                number,
                is_new: false,
            });
        }
        self.definitions.push(d)?;
        self.generations.push(self.generation)?;
        if let Definition::Predicate(p, _) = d {
            bucket(self.alloc, &mut self.by_predicate, p, number)?;
        }
        Ok(Known {
            number,
            is_new: true,
        })
    }

    /// The variable of a definition, if there is one.
    pub fn find(&self, d: Definition) -> Result<Option<u32>, Fault> {
        self.variables.find(&key(d))
    }

    /// The application of a function to terms, which is new, with a new constant, if there is none.
    pub fn apply(&mut self, function: u32, arguments: List) -> Result<Known, Fault> {
        let number = self
            .readings
            .intern(&[u64::from(function), u64::from(arguments)])?;
        if (number as usize) < self.applications.len() {
            return Ok(Known {
                number,
                is_new: false,
            });
        }
        let constant = self.constant()?;
        self.applications.push(Application {
            function,
            arguments,
            constant,
            generation: self.generation,
        })?;
        bucket(self.alloc, &mut self.by_function, function, number)?;
        Ok(Known {
            number,
            is_new: true,
        })
    }

    /// The application of a function to terms, if there is one.
    pub fn applied(&self, function: u32, arguments: List) -> Result<Option<u32>, Fault> {
        self.readings
            .find(&[u64::from(function), u64::from(arguments)])
    }

    /// What t >= 0 is.
    pub fn inequality(&mut self, t: Term) -> Result<Signed, Fault> {
        inequality(&mut self.terms, t)
    }

    /// What t = 0 is.
    pub fn equation(&mut self, t: Term) -> Result<Signed, Fault> {
        equation(&mut self.terms, t)
    }

    /// What a formula is, with the terms of a list for its names.
    pub fn formula(&mut self, node: u32, list: List) -> Result<Signed, Fault> {
        literal_of(&mut self.terms, &self.tree, node, list)
    }

    /// What is always true.
    pub fn always(truth: bool) -> Signed {
        constant(truth)
    }

    /// What the truth of a literal says of a term.
    pub fn fact(&mut self, l: Lit) -> Result<Option<Fact>, Fault> {
        let d = self.definition(variable(l))?;
        fact_of(&mut self.terms, d, l % 2 == 0)
    }

    /// The present arguments' values, with the constants' values.
    pub fn values_of(&self, list: List, values: &[i128], out: &mut Vec<i128>) -> Result<(), Fault> {
        out.clear();
        for t in self.terms.list(list)? {
            out.push(self.terms.value(*t, values)?)?;
        }
        Ok(())
    }
}
