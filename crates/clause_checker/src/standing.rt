// What literals stand for: a known variable that says the same, or the next new one.

ghost use Rattle.std.specs.Prelude.{◌≡◌, ◌∷◌, [], map, IfErr};
ghost use Rattle.std.specs.List.{slice_get};
ghost use Rattle.formula.specs.Tree.{form, forms_of};
ghost use Rattle.clause_proof.specs.Atoms as atoms;
ghost use Rattle.clause_proof.specs.Lines as lines;
ghost use Rattle.clause_checker.specs.Answers.{Does, IsRefusedOrCut};
ghost use Rattle.clause_checker.specs.Views.{definition_of, definitions_of, known_so, member_at, signed_of};

use crate::fault::Fault;
use crate::formulas::literal_of;
use crate::putting::{same_term, same_terms};
use crate::state::{Definition, Signed};
use clause_proof::Literal;
use formula::{Core, Shared};
use linear_term::Term;
use sqlite_items::{Items, at};
use std::alloc::Global;

/// Whether the definitions are one, as far as they are compared: formulas are not.
pub(crate) fn same_definition(c: &Definition, d: &Definition) -> bool
    ensures { result ≡ atoms.same_definition (definition_of c.now) (definition_of d.now) }
{
    match c {
        Definition::Always => match d {
            Definition::Always => true,
            Definition::AtLeastZero(_) => false,
            Definition::IsZero(_) => false,
            Definition::Predicate(_, _) => false,
            Definition::Closure(_, _) => false,
        },
        Definition::AtLeastZero(s) => match d {
            Definition::AtLeastZero(t) => same_term(s, t),
            Definition::Always => false,
            Definition::IsZero(_) => false,
            Definition::Predicate(_, _) => false,
            Definition::Closure(_, _) => false,
        },
        Definition::IsZero(s) => match d {
            Definition::IsZero(t) => same_term(s, t),
            Definition::Always => false,
            Definition::AtLeastZero(_) => false,
            Definition::Predicate(_, _) => false,
            Definition::Closure(_, _) => false,
        },
        Definition::Predicate(p, ss) => match d {
            Definition::Predicate(q, ts) => *p == *q && same_terms(ss.as_slice(), ts.as_slice()),
            Definition::Always => false,
            Definition::AtLeastZero(_) => false,
            Definition::IsZero(_) => false,
            Definition::Closure(_, _) => false,
        },
        Definition::Closure(_, _) => false,
    }
}

/// Whether variable number i stands for the definition.
#[tactic(auto, using(crate::proofs::Stands::known))]
fn is_known(definitions: &[Definition], i: u32, d: &Definition) -> bool
    ensures { result ≡ known_so (slice_get (definitions_of definitions.now) i) (definition_of d.now) }
{
    match at(definitions, i as usize) {
        None => false,
        Some(c) => same_definition(c, d),
    }
}

/// The definitions, with that of the literal if it is new.
#[tactic(auto, using(crate::proofs::Stands::standing, crate::proofs::Causes::causes))]
pub(crate) fn stand<'a>(
    definitions: &mut Items<Definition<'a>>,
    x: Signed<'a>,
    m: Literal,
) -> Result<(), Fault>
    ensures does { Does (λ u. definitions_of definitions.new) (lines.stand (definitions_of definitions.old) (signed_of x.entry) m) result }
    ensures cause { IfErr result IsRefusedOrCut }
{
    let Signed {
        definition,
        positive,
    } = x;
    if positive != m.positive {
        return Err(Fault::Refused);
    }
    if m.variable as usize == definitions.len() {
        definitions.push(definition)?;
        return Ok(());
    }
    if is_known(definitions.as_slice(), m.variable, &definition) {
        return Ok(());
    }
    Err(Fault::Refused)
}

/// The same of one literal alone, as a list.
#[tactic(auto, using(crate::proofs::Stands::one, crate::proofs::Causes::causes))]
pub(crate) fn stand_one<'a>(
    definitions: &mut Items<Definition<'a>>,
    x: Signed<'a>,
    m: Literal,
) -> Result<(), Fault>
    ensures does { Does (λ u. definitions_of definitions.new) (lines.stand_all (definitions_of definitions.old) (signed_of x.entry ∷ []) (m ∷ [])) result }
    ensures cause { IfErr result IsRefusedOrCut }
{
    stand(definitions, x, m)
}

/// The same of two.
#[tactic(auto, using(crate::proofs::Stands::two, crate::proofs::Causes::causes))]
pub(crate) fn stand_two<'a>(
    definitions: &mut Items<Definition<'a>>,
    x: Signed<'a>,
    y: Signed<'a>,
    m: Literal,
    n: Literal,
) -> Result<(), Fault>
    ensures does { Does (λ u. definitions_of definitions.new) (lines.stand_all (definitions_of definitions.old) (signed_of x.entry ∷ signed_of y.entry ∷ []) (m ∷ n ∷ [])) result }
    ensures cause { IfErr result IsRefusedOrCut }
{
    stand(definitions, x, m)?;
    stand_one(definitions, y, n)
}

/// A member with the terms ts for its names.
#[tactic(auto, using(crate::proofs::Stands::single, crate::proofs::Causes::causes))]
fn stand_member<'a>(
    alloc: Global,
    definitions: &mut Items<Definition<'a>>,
    f: &'a Core,
    ts: &Shared<Items<Term>>,
    m: Literal,
) -> Result<(), Fault>
    ensures does { Does (λ u. definitions_of definitions.new) (lines.stand (definitions_of definitions.old) (atoms.literal_of (form f.now) ts.now) m) result }
    ensures cause { IfErr result IsRefusedOrCut }
{
    let x = literal_of(alloc, f, ts)?;
    stand(definitions, x, m)
}

/// Member number i with the terms ts for its names, by literal number i.
#[tactic(auto, using(crate::proofs::Stands::items, crate::proofs::Causes::causes))]
fn stand_at<'a>(
    alloc: Global,
    definitions: &mut Items<Definition<'a>>,
    fs: &'a [Core],
    ts: &Shared<Items<Term>>,
    literals: &[Literal],
    i: usize,
) -> Result<(), Fault>
    ensures does { Does (λ u. definitions_of definitions.new) (member_at fs.now ts.now literals.now i (definitions_of definitions.old)) result }
    ensures cause { IfErr result IsRefusedOrCut }
{
    match at(fs, i) {
        None => Err(Fault::Refused),
        Some(f) => match at(literals, i) {
            None => Err(Fault::Refused),
            Some(m) => stand_member(alloc, definitions, f, ts, *m),
        },
    }
}

/// The members with the terms ts for their names, each by its literal.
#[tactic(auto, using(crate::proofs::Stands::walking, crate::proofs::Causes::causes))]
pub(crate) fn stand_members<'a>(
    alloc: Global,
    definitions: &mut Items<Definition<'a>>,
    fs: &'a [Core],
    ts: &Shared<Items<Term>>,
    literals: &[Literal],
) -> Result<(), Fault>
    ensures does { Does (λ u. definitions_of definitions.new) (lines.stand_all (definitions_of definitions.old) (lines.members (forms_of fs.now) ts.now) literals.now) result }
    ensures cause { IfErr result IsRefusedOrCut }
{
    for i in 0..fs.len() {
        stand_at(alloc, definitions, fs, ts, literals, i)?;
    }
    if fs.len() < literals.len() {
        return Err(Fault::Refused);
    }
    Ok(())
}
