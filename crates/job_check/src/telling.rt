// How it is told what a check of a proof found.

ghost use Rattle.base_answers.specs.Answer.{answer_of};
ghost use Rattle.job_check.specs.Told.{IsFitting, IsCheckedValid, TellsClauseFault, TellsFault, TellsVerdict};
ghost use Rattle.linear_term.specs.Range.{InRange};
ghost use Rattle.model_trees.specs.Walk.{point};
ghost use Rattle.std.specs.List.{AllByRecursion};
ghost use Rattle.elim_laws.specs.Whole.{AreOver};
ghost use Rattle.pri_typing.specs.WellFormed.{HasDistinctNames, HasIdentifiers, IsWellFormed};
ghost use Rattle.std.specs.Prelude.{◌≡◌, ◌<◌, ◌^◌, IfOk, length};

use base_answers::status::VALID;
use base_answers::{Output, refused_proof, say};
use clause_file::ClauseFault;
use clause_set::Dnf;
use linear_term::Memory;
use model_trees::point;
use pri_lines::valued_lines;
use pri_typing::Problem;
use proof_tree::Verdict;
use std::alloc::Global;
use tree_checker::{Checked, TextFault};

/// The answer that a proof is accepted.
pub fn tell_accepted(alloc: Global, problem: &Problem, checked: &Checked) -> Result<Output, Memory>
    requires well_formed { IsWellFormed problem.now }
    requires distinct { HasDistinctNames problem.now }
    requires identifiers { HasIdentifiers problem.now }
    requires fitting { IsFitting problem.now checked.now }
    ensures { IfOk result (λ output. TellsVerdict problem.now checked.now.constraint checked.now.verdict (answer_of output)) }
{
    match &checked.verdict {
        Verdict::Valid(values) => { valid(alloc, problem, &checked.constraint, values.as_slice()) }
        Verdict::Invalid => say(alloc, VALID, b"CHECKED INVALID"),
    }
}

// The answer that a proof of validity is accepted, with its constraint and values where the problem has existential constants.
fn valid(
    alloc: Global,
    problem: &Problem,
    constraint: &Dnf,
    values: &[i128],
) -> Result<Output, Memory>
    requires well_formed { IsWellFormed problem.now }
    requires distinct { HasDistinctNames problem.now }
    requires identifiers { HasIdentifiers problem.now }
    requires over { AreOver (length problem.now.existentials) constraint.now }
    requires values { length values.now ≡ length problem.now.existentials }
    ensures { IfOk result (λ output. IsCheckedValid problem.now constraint.now values.now (answer_of output)) }
{
    if problem.existentials.is_empty() {
        return say(alloc, VALID, b"CHECKED VALID");
    }
    let text = valued_lines(alloc, b"CHECKED VALID", problem, constraint, values)?;
    Ok(Output {
        status: VALID,
        text,
    })
}

/// The answer that a proof is refused.
pub fn tell_refused(alloc: Global, fault: TextFault) -> Result<Output, Memory>
    ensures { IfOk result (λ output. TellsFault fault (answer_of output)) }
{
    match fault {
        TextFault::Syntax(at) => refused_proof(alloc, b"Syntax at ", at),
        TextFault::Deep(at) => refused_proof(alloc, b"Deep at ", at),
        TextFault::Node(n) => refused_proof(alloc, b"node ", n),
        TextFault::Range(n, _) => refused_proof(alloc, b"range ", n),
        TextFault::Cost(n) => refused_proof(alloc, b"cost ", n),
        TextFault::Memory => Err(Memory),
    }
}

/// The answer that a clause proof is accepted: the problem holds where each existential constant has its value.
pub fn tell_shown(alloc: Global, problem: &Problem, values: &[i128]) -> Result<Output, Memory>
    requires well_formed { IsWellFormed problem.now }
    requires distinct { HasDistinctNames problem.now }
    requires identifiers { HasIdentifiers problem.now }
    requires range { AllByRecursion InRange values.now }
    requires few { length values.now < 2 ^ 32 }
    requires values { length values.now ≡ length problem.now.existentials }
    ensures { IfOk result (λ output. IsCheckedValid problem.now (point values.now) values.now (answer_of output)) }
{
    let constraint = point(alloc, values)?;
    valid(alloc, problem, &constraint, values)
}

/// The answer that a clause proof is refused.
pub fn tell_clause_fault(alloc: Global, fault: ClauseFault) -> Result<Output, Memory>
    ensures { IfOk result (λ output. TellsClauseFault fault (answer_of output)) }
{
    match fault {
        ClauseFault::Syntax(at) => refused_proof(alloc, b"Syntax at ", at),
        ClauseFault::Line(n) => refused_proof(alloc, b"line ", n),
        ClauseFault::Range(n) => refused_proof(alloc, b"range ", n),
        ClauseFault::Cost(n) => refused_proof(alloc, b"cost ", n),
        ClauseFault::Memory => Err(Memory),
    }
}
