// What each job answers, from its files; nothing is put yet.

ghost use Rattle.base_answers.specs.Answer.{answer_of, long_answer};
ghost use Rattle.base_answers.specs.Files.{AnswersSource, most_of_file, most_of_proof};
ghost use Rattle.job_elim.specs.Eliminated.{IsEliminated};
ghost use Rattle.job_words.specs.Jobs.{check, files_of, task_of};
ghost use Rattle.job_least.specs.Leasts.{IsLeastAnswer};
ghost use Rattle.base_limits.specs.Limits.{most_budget};
ghost use Rattle.prover_io.specs.Outside.{BeginsFront, Broke, GrowsAtMost, Rose};
ghost use Rattle.prover_io.specs.declared.whole.ReadFault.{ReadFault};
ghost use Rattle.prover_job.specs.Runs.{AnswersTask, AnswersWithProof, AreBegun, BrokeAt, IsJobFile, IsSmallTask, most_moved};
ghost use Rattle.prover_job.specs.declared.tasks.Stop.{Stop};
ghost use Rattle.job_find.specs.Found.{IsFoundIn};
ghost use Rattle.job_smt.specs.Answered.{IsSmtAnswer};
ghost use Rattle.job_decide.specs.Decided.{IsDecidedAs};
ghost use Rattle.std.specs.Prelude.{◌≡◌, ◌≢◌, ◌+◌, ◌<◌, ◌≤◌, ◌^◌, ◌++◌, length, IfOk, IsErrOf, OnOk, Some, [], ◌∷◌};

use base_answers::status::FILE_TOO_LONG;
use base_answers::{Output, ProofForm, say};
use base_watch::Watch;
use job_words::Job;
use linear_term::Memory;
use prover_io::{ReadFault, Source, read_all};
use std::alloc::Global;

// How many bytes a problem's file has at most.
const FILE: u64 = 1_048_576;

// How many bytes a proof's file has at most.
const PROOF: u64 = 67_108_864;

/// Why a job has no answer.
#[derive(Clone, Copy, Debug, PartialEq, Eq)]
pub(crate) enum Stop {
    /// The source failed.
    Source,
    Memory,
}

impl From<Memory> for Stop {
    ghost use Rattle.prover_job.specs.declared.tasks.Stop.{Stop};

    ghost from_gives = { λ _ e. e ≡ Stop.Memory };

    fn from(_error: Memory) -> Stop {
        Stop::Memory
    }
}

/// What a job answers.
pub(crate) fn job_output<S: Source, X: Watch>(
    alloc: Global,
    source: &mut S,
    job: &Job,
    watch: &mut X,
) -> Result<Output, Stop>
    requires { IsSmallTask (task_of job.now) }
    ensures answered { IfOk result (λ output. AnswersTask (S.bytes_of source.old) (task_of job.now) (answer_of output)) }
    ensures rose { IsErrOf result Stop.Source → Rose (S.faults source.old) (S.faults source.new) }
    ensures broke { IsErrOf result Stop.Source → BrokeAt (task_of job.now) (S.at source.new) (S.broken source.new) }
    ensures begun { files_of (task_of job.now) ≢ [] → ¬ (IsErrOf result Stop.Memory) → IsJobFile (task_of job.now) (S.at source.new) }
    ensures listed { OnOk result (AreBegun (S.bytes_of source.old) (task_of job.now) (S.names source.old) (S.names source.new)) }
    ensures front { BeginsFront (files_of (task_of job.now)) (S.names source.old) (S.names source.new) }
    ensures moved { GrowsAtMost (S.moved source.old) (S.moved source.new) (most_moved (task_of job.now)) }
    ensures unread { files_of (task_of job.now) ≡ [] → source.new ≡ source.old }
{
    match job {
        Job::Solve {
            file,
            budget,
            asked,
            calculus,
            shows,
        } => solve_output(
            alloc,
            source,
            file.as_str(),
            *budget,
            *asked,
            *calculus,
            *shows,
            watch,
        ),
        Job::Check { file, proof } => check_output(alloc, source, file.as_str(), proof.as_str()),
        Job::Elim { file, budget } => elim_output(alloc, source, file.as_str(), *budget, watch),
        Job::Find {
            file,
            budget,
            proves,
        } => find_output(alloc, source, file.as_str(), *budget, *proves, watch),
        Job::Smt { file, budget } => smt_output(alloc, source, file.as_str(), *budget, watch),
        Job::Least { file, term, budget } => least_output(
            alloc,
            source,
            file.as_str(),
            term.as_str(),
            *budget,
            watch,
        ),
        Job::Drill { count, budget } => Ok(job_decide::drilled(alloc, *count, *budget, watch)?),
    }
}

// What `solve` answers to a file, with the proof in the form that is asked for, if one is.
fn solve_output<S: Source, X: Watch>(
    alloc: Global,
    source: &mut S,
    file: &str,
    budget: u64,
    asked: Option<ProofForm>,
    calculus: bool,
    shows: bool,
    watch: &mut X,
) -> Result<Output, Stop>
    requires { budget ≤ most_budget }
    ensures answered { IfOk result (λ output. AnswersSource most_of_file (IsDecidedAs calculus shows asked budget) (S.bytes_of source.old file.now) (answer_of output)) }
    ensures rose { IsErrOf result Stop.Source → Rose (S.faults source.old) (S.faults source.new) }
    ensures broke { IsErrOf result Stop.Source → Broke (Some file.now) (S.at source.new) (S.broken source.new) }
    ensures begun { ¬ (IsErrOf result Stop.Memory) → S.at source.new ≡ Some file.now }
    ensures listed { OnOk result (S.names source.new ≡ S.names source.old ++ file.now ∷ []) }
    ensures front { BeginsFront (file.now ∷ []) (S.names source.old) (S.names source.new) }
    ensures moved { GrowsAtMost (S.moved source.old) (S.moved source.new) (most_of_file + 1) }
{
    match read_all(alloc, source, file, FILE) {
        Ok(bytes) => Ok(job_decide::answer(
            alloc,
            bytes.as_slice(),
            budget,
            asked,
            calculus,
            shows,
            watch,
        )?),
        Err(fault) => unread(alloc, fault),
    }
}

// What `elim` answers to a file.
fn elim_output<S: Source, X: Watch>(
    alloc: Global,
    source: &mut S,
    file: &str,
    budget: u64,
    watch: &mut X,
) -> Result<Output, Stop>
    requires { budget < 2 ^ 32 }
    ensures answered { IfOk result (λ output. AnswersSource most_of_file (IsEliminated budget) (S.bytes_of source.old file.now) (answer_of output)) }
    ensures rose { IsErrOf result Stop.Source → Rose (S.faults source.old) (S.faults source.new) }
    ensures broke { IsErrOf result Stop.Source → Broke (Some file.now) (S.at source.new) (S.broken source.new) }
    ensures begun { ¬ (IsErrOf result Stop.Memory) → S.at source.new ≡ Some file.now }
    ensures listed { OnOk result (S.names source.new ≡ S.names source.old ++ file.now ∷ []) }
    ensures front { BeginsFront (file.now ∷ []) (S.names source.old) (S.names source.new) }
    ensures moved { GrowsAtMost (S.moved source.old) (S.moved source.new) (most_of_file + 1) }
{
    match read_all(alloc, source, file, FILE) {
        Ok(bytes) => Ok(job_elim::answer(alloc, bytes.as_slice(), budget, watch)?),
        Err(fault) => unread(alloc, fault),
    }
}

// What `find` answers to a file, with the proof where one is asked for.
fn find_output<S: Source, X: Watch>(
    alloc: Global,
    source: &mut S,
    file: &str,
    budget: u64,
    proves: bool,
    watch: &mut X,
) -> Result<Output, Stop>
    requires { budget ≤ most_budget }
    ensures answered { IfOk result (λ output. AnswersSource most_of_file (IsFoundIn proves budget) (S.bytes_of source.old file.now) (answer_of output)) }
    ensures rose { IsErrOf result Stop.Source → Rose (S.faults source.old) (S.faults source.new) }
    ensures broke { IsErrOf result Stop.Source → Broke (Some file.now) (S.at source.new) (S.broken source.new) }
    ensures begun { ¬ (IsErrOf result Stop.Memory) → S.at source.new ≡ Some file.now }
    ensures listed { OnOk result (S.names source.new ≡ S.names source.old ++ file.now ∷ []) }
    ensures front { BeginsFront (file.now ∷ []) (S.names source.old) (S.names source.new) }
    ensures moved { GrowsAtMost (S.moved source.old) (S.moved source.new) (most_of_file + 1) }
{
    match read_all(alloc, source, file, FILE) {
        Ok(bytes) => Ok(job_find::answer(alloc, bytes.as_slice(), budget, proves, watch)?),
        Err(fault) => unread(alloc, fault),
    }
}

// What `smt` answers to a file.
fn smt_output<S: Source, X: Watch>(
    alloc: Global,
    source: &mut S,
    file: &str,
    budget: u64,
    watch: &mut X,
) -> Result<Output, Stop>
    requires { budget ≤ most_budget }
    ensures answered { IfOk result (λ output. AnswersSource most_of_file (IsSmtAnswer budget) (S.bytes_of source.old file.now) (answer_of output)) }
    ensures rose { IsErrOf result Stop.Source → Rose (S.faults source.old) (S.faults source.new) }
    ensures broke { IsErrOf result Stop.Source → Broke (Some file.now) (S.at source.new) (S.broken source.new) }
    ensures begun { ¬ (IsErrOf result Stop.Memory) → S.at source.new ≡ Some file.now }
    ensures listed { OnOk result (S.names source.new ≡ S.names source.old ++ file.now ∷ []) }
    ensures front { BeginsFront (file.now ∷ []) (S.names source.old) (S.names source.new) }
    ensures moved { GrowsAtMost (S.moved source.old) (S.moved source.new) (most_of_file + 1) }
{
    match read_all(alloc, source, file, FILE) {
        Ok(bytes) => Ok(job_smt::answer(alloc, bytes.as_slice(), budget, watch)?),
        Err(fault) => unread(alloc, fault),
    }
}

// What `least` answers to a file and a term.
fn least_output<S: Source, X: Watch>(
    alloc: Global,
    source: &mut S,
    file: &str,
    term: &str,
    budget: u64,
    watch: &mut X,
) -> Result<Output, Stop>
    requires { budget < 2 ^ 32 }
    ensures answered { IfOk result (λ output. AnswersSource most_of_file (IsLeastAnswer term.now budget) (S.bytes_of source.old file.now) (answer_of output)) }
    ensures rose { IsErrOf result Stop.Source → Rose (S.faults source.old) (S.faults source.new) }
    ensures broke { IsErrOf result Stop.Source → Broke (Some file.now) (S.at source.new) (S.broken source.new) }
    ensures begun { ¬ (IsErrOf result Stop.Memory) → S.at source.new ≡ Some file.now }
    ensures listed { OnOk result (S.names source.new ≡ S.names source.old ++ file.now ∷ []) }
    ensures front { BeginsFront (file.now ∷ []) (S.names source.old) (S.names source.new) }
    ensures moved { GrowsAtMost (S.moved source.old) (S.moved source.new) (most_of_file + 1) }
{
    match read_all(alloc, source, file, FILE) {
        Ok(bytes) => Ok(job_least::answer(
            alloc,
            bytes.as_slice(),
            term.as_bytes(),
            budget,
            watch,
        )?),
        Err(fault) => unread(alloc, fault),
    }
}

// What `check` answers to a problem's file and a proof's file.
fn check_output<S: Source>(
    alloc: Global,
    source: &mut S,
    file: &str,
    proof: &str,
) -> Result<Output, Stop>
    ensures answered { IfOk result (λ output. AnswersTask (S.bytes_of source.old) (check file.now proof.now) (answer_of output)) }
    ensures rose { IsErrOf result Stop.Source → Rose (S.faults source.old) (S.faults source.new) }
    ensures broke { IsErrOf result Stop.Source → BrokeAt (check file.now proof.now) (S.at source.new) (S.broken source.new) }
    ensures begun { ¬ (IsErrOf result Stop.Memory) → IsJobFile (check file.now proof.now) (S.at source.new) }
    ensures listed { OnOk result (AreBegun (S.bytes_of source.old) (check file.now proof.now) (S.names source.old) (S.names source.new)) }
    ensures front { BeginsFront (file.now ∷ proof.now ∷ []) (S.names source.old) (S.names source.new) }
    ensures moved { GrowsAtMost (S.moved source.old) (S.moved source.new) (most_moved (check file.now proof.now)) }
{
    match read_all(alloc, source, file, FILE) {
        Ok(bytes) => proof_output(alloc, source, bytes.as_slice(), proof),
        Err(fault) => unread(alloc, fault),
    }
}

// What `check` answers to the bytes of a problem's file, and to a proof's file.
fn proof_output<S: Source>(
    alloc: Global,
    source: &mut S,
    bytes: &[u8],
    proof: &str,
) -> Result<Output, Stop>
    requires { length bytes.now < 2 ^ 32 }
    ensures answered { IfOk result (λ output. AnswersWithProof (S.bytes_of source.old proof.now) bytes.now (answer_of output)) }
    ensures rose { IsErrOf result Stop.Source → Rose (S.faults source.old) (S.faults source.new) }
    ensures broke { IsErrOf result Stop.Source → Broke (Some proof.now) (S.at source.new) (S.broken source.new) }
    ensures begun { ¬ (IsErrOf result Stop.Memory) → S.at source.new ≡ Some proof.now }
    ensures listed { OnOk result (S.names source.new ≡ S.names source.old ++ proof.now ∷ []) }
    ensures front { BeginsFront (proof.now ∷ []) (S.names source.old) (S.names source.new) }
    ensures moved { GrowsAtMost (S.moved source.old) (S.moved source.new) (most_of_proof + 1) }
{
    match read_all(alloc, source, proof, PROOF) {
        Ok(text) => Ok(job_check::answer(alloc, bytes, text.as_slice())?),
        Err(fault) => unread(alloc, fault),
    }
}

// The answer where a file is not held: that it is too long.
fn unread(alloc: Global, fault: ReadFault) -> Result<Output, Stop>
    ensures long { IfOk result (λ output. (fault ≡ ReadFault.Long) × (answer_of output ≡ long_answer)) }
    ensures failed { IsErrOf result Stop.Source → fault ≡ ReadFault.Failed }
    ensures memory { ¬ (IsErrOf result Stop.Memory) → fault ≢ ReadFault.Memory }
{
    match fault {
        ReadFault::Failed => Err(Stop::Source),
        ReadFault::Long => Ok(say(alloc, FILE_TOO_LONG, b"refused: file too long")?),
        ReadFault::Memory => Err(Stop::Memory),
    }
}
