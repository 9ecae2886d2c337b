// How much the defined functions of a script write, and how large an asserted term becomes.

ghost use Rattle.std.specs.Prelude.{◌≡◌, ◌-◌, ℕ, [], IfOk, length, replicate, take, false};
ghost use Rattle.smt_sizes.specs.Sizes.{size};
ghost use Rattle.smt_terms.specs.Translation.{formula_in};
ghost use Rattle.smt_names.specs.Body.{shape};
ghost use Rattle.smt_names.specs.Saying.{calls_of, shape_said};
ghost use Rattle.smt_sizes.specs.Forms.{Describes};
ghost use Rattle.smt_sizes.specs.Shapes.{AreForms, IsForm, shape_weighed, weighing_of};

use crate::kinds::kind;
use crate::linear::Linear;
use crate::size::Size;
use crate::walking::{blank, walk};
use crate::weight::{NODE, NOTHING, UNIT, fitted, plus};
use linear_term::Memory;
use smt_names::Body;
use std::alloc::Global;

/// How much a defined function writes, a formula or a term, at arguments that are terms.
#[derive(Drop)]
pub struct Form {
    pub is_formula: bool,
    pub linear: Linear,
}

/// The bodies of defined functions, and how much they write.
#[derive(Clone, Copy)]
pub struct Defined<'a> {
    pub bodies: &'a [Body],
    pub forms: &'a [Form],
}

/// How much each of the defined functions of a script writes.
#[derive(Drop)]
pub struct Forms {
    forms: Vec<Form>,
}

/// This many terms.
fn terms(alloc: Global, count: u32) -> Result<Vec<bool>, Memory>
    ensures { IfOk result (λ bs. bs.items ≡ replicate count false) }
{
    let mut out = Vec::new(alloc);
    for _ in 0..count {
        out.push(false)?;
    }
    Ok(out)
}

/// How much a body writes at this many terms.
fn form_of(
    alloc: Global,
    defined: &Defined<'_>,
    parameters: u32,
    body: &Body,
) -> Result<Form, Memory>
    ensures { IfOk result (λ f. AreForms defined.now.forms.now defined.now.bodies.now → IsForm f (λ xs. shape_weighed (weighing_of defined.now.bodies.now) xs (shape body.now))) }
{
    let mut scope = terms(alloc, parameters)?;
    let is_formula = kind(alloc, defined, &mut scope, body)?;
    let none = blank(alloc, parameters as usize)?;
    let linear = walk(alloc, defined, &mut scope, none, UNIT, body)?;
    Ok(Form { is_formula, linear })
}

impl Forms {
    /// Of no defined function.
    pub fn new(alloc: Global) -> Forms
        ensures { Describes result [] }
    {
        Forms {
            forms: Vec::new(alloc),
        }
    }

    /// After one definition more: the last one of these, over this many arguments.
    pub fn define(
        self,
        alloc: Global,
        definitions: &[Body],
        parameters: u32,
    ) -> Result<Forms, Memory>
        ensures { IfOk result (λ f. Describes self (take (length definitions.now - 1) definitions.now) → Describes f definitions.now) }
    {
        let Forms { mut forms } = self;
        let n = definitions.len();
        if n == 0 {
            return Ok(Forms { forms });
        }
        let last = n - 1;
        let before = Defined {
            bodies: &definitions[..last],
            forms: forms.as_slice(),
        };
        let one = form_of(alloc, &before, parameters, &definitions[last])?;
        forms.push(one)?;
        Ok(Forms { forms })
    }

    /// How large the formula becomes that an asserted term is written out to, whose body this is over these defined functions.
    pub fn size(&self, alloc: Global, definitions: &[Body], body: &Body) -> Result<Size, Memory>
        ensures { IfOk result (λ s. Describes self.now definitions.now → (n : ℕ) → s ≡ size (formula_in (shape_said (calls_of definitions.now) [] (shape body.now) n))) }
    {
        let mut scope = Vec::new(alloc);
        let defined = Defined {
            bodies: definitions,
            forms: self.forms.as_slice(),
        };
        if !kind(alloc, &defined, &mut scope, body)? {
            return Ok(fitted(NODE));
        }
        let none = Linear::new(alloc, NOTHING);
        let linear = walk(alloc, &defined, &mut scope, none, UNIT, body)?;
        Ok(fitted(plus(linear.constant, NOTHING)))
    }
}
