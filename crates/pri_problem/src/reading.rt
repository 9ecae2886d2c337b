// The problem that the bytes of a file pose.

ghost use Rattle.pri_problem.specs.Answers.{Poses};
ghost use Rattle.pri_problem.specs.Faults.{RefusesFile};
ghost use Rattle.pri_problem.specs.Reads.{IsFileOf};
ghost use Rattle.pri_problem.specs.Cuttable.{IsCuttable};
ghost use Rattle.pri_typing.specs.Limits.{IsResolvable};
ghost use Rattle.pri_typing.specs.WellFormed.{HasDistinctNames, HasIdentifiers, IsWellFormed};
ghost use Rattle.std.specs.Prelude.{◌<◌, ◌^◌, ℕ, List, length, IfOk, IfErr};

use crate::fault::FileFault;
use pri_reader::{File, read};
use pri_typing::{Problem, resolve};
use std::alloc::Global;

/// The problem that the bytes of a file pose, of which there is at most one, well formed, its symbols with different
/// identifiers as names, with cuts only where it has no existential constants; or their first refusal.
pub fn read_problem(alloc: Global, bytes: &[u8]) -> Result<Problem, FileFault>
    requires { length bytes.now < 2 ^ 32 }
    ensures posed { IfOk result (Poses bytes.now) }
    ensures well_formed { IfOk result IsWellFormed }
    ensures distinct { IfOk result HasDistinctNames }
    ensures identifiers { IfOk result HasIdentifiers }
    ensures cuts { IfOk result IsCuttable }
    ensures refused { IfErr result (RefusesFile bytes.now) }
{
    match read(alloc, bytes) {
        Ok(file) => file_problem(alloc, &file),
        Err(refusal) => Err(FileFault::Reading(refusal)),
    }
}

// The problem that a file poses, for any bytes that are this file.
fn file_problem(alloc: Global, file: &File) -> Result<Problem, FileFault>
    requires { IsResolvable file.now.blocks }
    ensures posed { (bytes : List ℕ) → IsFileOf bytes file.now → IfOk result (Poses bytes) }
    ensures well_formed { IfOk result IsWellFormed }
    ensures distinct { IfOk result HasDistinctNames }
    ensures identifiers { IfOk result HasIdentifiers }
    ensures refused { (bytes : List ℕ) → IsFileOf bytes file.now → IfErr result (RefusesFile bytes) }
{
    match resolve(alloc, file) {
        Ok(problem) => Ok(problem),
        Err(refusal) => Err(FileFault::Typing(refusal)),
    }
}
