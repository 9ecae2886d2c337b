// How large asserted terms become: counted by hand, and the same as what is written out.

use linear_term::Memory;
use smt_lists::lists;
use smt_names::{Declared, Known};
use smt_reader::{Effect, Step, read_step};
use smt_sizes::{Forms, Size, size_of};
use smt_terms::{Term, Variable};
use smt_typing::command_in;
use smt_writing::write_formula;
use sqlite_items::Items;
use std::alloc::Global;
use std::test::Fail;

/// A script after some of its commands.
#[derive(Drop)]
struct Script {
    known: Known,
    forms: Forms,
    constants: u32,
}

/// The names of variables.
fn names(alloc: Global, variables: &[Variable]) -> Result<Items<Items<u8>>, Memory> {
    let mut all = Items::new(alloc);
    for variable in variables {
        all.push(Items::from_slice(alloc, variable.text.as_slice())?)?;
    }
    Ok(all)
}

impl Script {
    fn declare(self, alloc: Global, text: &[u8]) -> Result<Script, Memory> {
        let declared = Declared::Constant(self.constants);
        Ok(Script {
            known: self.known.declare(alloc, text, declared)?,
            forms: self.forms,
            constants: self.constants.saturating_add(1),
        })
    }

    fn define(
        self,
        alloc: Global,
        text: &[u8],
        names: &[Items<u8>],
        term: &Term,
    ) -> Result<Script, Memory> {
        let known = self.known.define(alloc, text, names, term)?;
        let count = names.len().min(u32::MAX as usize) as u32;
        let forms = self
            .forms
            .define(alloc, known.definitions.as_slice(), count)?;
        Ok(Script {
            known,
            forms,
            constants: self.constants,
        })
    }

    /// The script after one command more.
    fn behind(self, alloc: Global, effect: &Effect) -> Result<Script, Memory> {
        match effect {
            Effect::Declare(text, _, _) => self.declare(alloc, text.as_slice()),
            Effect::Define(text, variables, _, term) => {
                let names = names(alloc, variables.as_slice())?;
                self.define(alloc, text.as_slice(), names.as_slice(), term)
            }
            Effect::Claim(_) => Ok(self),
        }
    }

    /// The size of what a term is written out to.
    fn written(&self, alloc: Global, term: &Term) -> Result<Size, Memory> {
        let body = self.known.read(alloc, term)?;
        let definitions = self.known.definitions.as_slice();
        let formula = write_formula(alloc, definitions, self.constants, &body)?;
        Ok(size_of(&formula))
    }

    /// The size of a term, as it is counted.
    fn counted(&self, alloc: Global, term: &Term) -> Result<Size, Memory> {
        let body = self.known.read(alloc, term)?;
        self.forms
            .size(alloc, self.known.definitions.as_slice(), &body)
    }
}

/// The sizes of the asserted terms of a script, counted or of what they are written out to.
fn sizes(alloc: Global, text: &str, written: bool) -> Result<Vec<Size>, Memory> {
    let mut all = Vec::new(alloc);
    let Ok(read) = lists(alloc, text.as_bytes()) else {
        return Ok(all);
    };
    let mut script = Script {
        known: Known::new(alloc),
        forms: Forms::new(alloc),
        constants: 0,
    };
    for list in read.as_slice() {
        let Some(command) = command_in(list) else {
            continue;
        };
        let Some(Step::Does(effect)) = read_step(alloc, command)? else {
            continue;
        };
        if let Effect::Claim(term) = &effect {
            let size = if written {
                script.written(alloc, term)?
            } else {
                script.counted(alloc, term)?
            };
            all.push(size)?;
        }
        script = script.behind(alloc, &effect)?;
    }
    Ok(all)
}

/// After these commands x is a constant, and three functions are defined.
const BEFORE: &str =
    "(declare-const x Int)(define-fun twice ((x Int)) Int (+ x x))(define-fun none ((x Int)) Int 0)(define-fun same ((x Int) (y Int)) Bool (= x y))";

#[test]
fn sizes_are_those_of_what_is_written(rt: HostRuntime) -> Result<(), Fail> {
    let alloc = rt.alloc();
    let rows: [(&str, u64, u64); 22] = [
        ("true", 1, 1),
        ("(and true false true)", 4, 2),
        ("(and (= x 1))", 3, 2),
        ("(< x 1 x)", 7, 3),
        ("(= x 1 x x)", 10, 3),
        ("(= (= x 1) (= x 2) (= x 3))", 15, 4),
        ("(distinct x 1 x)", 10, 3),
        ("(distinct (= x 1) (= x 2))", 8, 4),
        ("(distinct (= x 1) (= x 2) (= x 3))", 25, 5),
        ("(not (= x 1))", 4, 3),
        ("(ite (= x 1) (= x 2) (= x 3))", 15, 4),
        ("(=> (= x 1) (= x 2) (= x 3))", 11, 4),
        ("(xor (= x 1) (= x 2) (= x 3))", 13, 6),
        ("(= (- x 1 2) (* 2 3 x))", 12, 4),
        ("(= (ite (= x 1) x 2) (abs x) (+ x))", 14, 5),
        ("(forall ((y Int) (z Int)) (= y z))", 5, 4),
        ("(let ((y (+ x 1))) (< y y))", 7, 3),
        ("(let ((y (+ x 1))) (< x 1))", 3, 2),
        ("(= (twice (+ x 1)) 0)", 9, 4),
        ("(= (none (+ x 1)) 0)", 3, 2),
        ("(same (+ x 1) x)", 5, 3),
        ("(same (twice x) (none x))", 5, 3),
    ];
    let mut text = String::from_str(alloc, BEFORE)?;
    for (term, _, _) in rows.as_slice() {
        for part in ["(assert ", *term, ")"] {
            text.push_str(part)?;
        }
    }
    for written in [true, false] {
        let all = sizes(alloc, text.as_str(), written)?;
        assert!(rt; all.len() == rows.len());
        for (size, (_, nodes, levels)) in all.as_slice().iter().zip(rows.as_slice()) {
            assert!(rt; *size == Size::Fits(*nodes, *levels));
        }
    }
    Ok(())
}
