// The top call: the words, then the files of their job, then its answer, then the text of the answer.

ghost use Rattle.base_answers.specs.Answer.{IsStatus, words_answer};
ghost use Rattle.base_answers.specs.Outside.{Meets};
ghost use Rattle.base_answers.specs.declared.form.ProofForm.{ProofForm};
ghost use Rattle.job_words.specs.Jobs.{Task, check, drill, eliminate, files_of, find_values, minimise, run_script, solve, task_of};
ghost use Rattle.job_decide.specs.Causes.{IsCausedAs};
ghost use Rattle.job_find.specs.Causes.{IsFindCaused};
ghost use Rattle.job_smt.specs.Causes.{SmtCauses};
ghost use Rattle.prover_io.specs.Outside.{BeginsFront, GrowsAtMost, Rose};
ghost use Rattle.prover_job.specs.Runs.{AnswersTask, AreBegun, AskFor, AskForNoFile, AskForNothing, BrokeAt, IsCheckCaused, IsDrillCaused, IsElimCaused, IsJobFile, IsLeastCaused, IsSmallTask, MeetsFile, SaysChecked, SaysConstraint, SaysFound, SaysLeast, SaysNowhere, SaysRefuted, SaysScript, SaysScriptBefore, SaysUnfound, SaysValid, most_moved};
ghost use Rattle.std.specs.Prelude.{◌≡◌, ◌≢◌, ◌⊎◌, ℕ, Bool, List, [], Option};

use crate::tasks::{Stop, job_output};
use base_answers::put_answer;
use base_answers::status::{NO_MEMORY, SOURCE_FAILED, WORDS_REFUSED};
use base_watch::Watch;
use form_typed::World;
use job_words::{Job, WordsFault, job, words_law};
use prover_io::{Sink, Source};
use std::alloc::Global;

/// Does the job that the words ask for, and answers the exit status: 0 valid, or the constraint is made, or values are
/// found, or the proof is accepted, or the least value is found or there is none, or each check of the script is answered; 1 invalid, or
/// the problem holds nowhere; 2 unknown, or a check of the script is; 3 the file is refused; 4 the proof is refused;
/// 5 the words ask for no job; 6 the source failed; 7 the sink failed; 8 no memory; 9 the file or the proof's file is
/// too long. `drill` answers as `solve` does to the problem that it makes. The interpretation has no call, so what is promised in
/// it is promised in every one. Who watches is told of the searches on the way; nothing of the answer hangs on that.
///
/// The first clauses say which answer is put, the next ones what it means in the interpretation, then where each answer
/// comes, and the last ones what the run did to its files and its sink.
pub fn run<S: Source, K: Sink, W: World, X: Watch>(
    alloc: Global,
    words: &[String],
    source: &mut S,
    sink: &mut K,
    world: &W,
    watch: &mut X,
) -> u8
    ensures answered { (task : Task) → AskFor words.now task
        → Meets (AnswersTask (S.bytes_of source.old) task) result (K.taken sink.old) (K.taken sink.new) }
    ensures no_job { AskForNothing words.now
        → Meets (λ answer. answer ≡ words_answer) result (K.taken sink.old) (K.taken sink.new) }
    ensures words_refused { result ≡ 5 → AskForNothing words.now }
    ensures valid { (file : List ℕ) (budget : ℕ) (asked : Option ProofForm) (calculus shows : Bool)
        → AskFor words.now (solve file budget asked calculus shows)
        → result ≡ 0
        → SaysValid (W.meaning world.now) asked (S.bytes_of source.old file) (K.taken sink.old) (K.taken sink.new) }
    ensures refuted { (file : List ℕ) (budget : ℕ) (asked : Option ProofForm) (calculus shows : Bool)
        → AskFor words.now (solve file budget asked calculus shows)
        → result ≡ 1 → SaysRefuted shows asked (S.bytes_of source.old file) (K.taken sink.old) (K.taken sink.new) }
    ensures checked { (file proof : List ℕ) → AskFor words.now (check file proof) → result ≡ 0
        → SaysChecked (W.meaning world.now) (S.bytes_of source.old file) (K.taken sink.old) (K.taken sink.new) }
    ensures constraint { (file : List ℕ) (budget : ℕ) → AskFor words.now (eliminate file budget) → result ≡ 0
        → SaysConstraint (W.meaning world.now) (S.bytes_of source.old file) (K.taken sink.old) (K.taken sink.new) }
    ensures found { (file : List ℕ) (budget : ℕ) (proves : Bool) → AskFor words.now (find_values file budget proves) → result ≡ 0
        → SaysFound (W.meaning world.now) proves (S.bytes_of source.old file) (K.taken sink.old) (K.taken sink.new) }
    ensures unfound { (file : List ℕ) (budget : ℕ) (proves : Bool) → AskFor words.now (find_values file budget proves) → result ≡ 1
        → SaysUnfound proves (S.bytes_of source.old file) (K.taken sink.old) (K.taken sink.new) }
    ensures scripted { (file : List ℕ) (budget : ℕ) → AskFor words.now (run_script file budget)
        → (result ≡ 0) ⊎ (result ≡ 2)
        → SaysScript (W.meaning world.now) (S.bytes_of source.old file) (K.taken sink.old) (K.taken sink.new) }
    ensures scripted_before { (file : List ℕ) (budget : ℕ) → AskFor words.now (run_script file budget) → result ≡ 3
        → SaysScriptBefore (W.meaning world.now) (S.bytes_of source.old file) (K.taken sink.old) (K.taken sink.new) }
    ensures minimised { (file term : List ℕ) (budget : ℕ) → AskFor words.now (minimise file term budget) → result ≡ 0
        → SaysLeast (W.meaning world.now) term (S.bytes_of source.old file) (K.taken sink.old) (K.taken sink.new) }
    ensures nowhere { (file term : List ℕ) (budget : ℕ) → AskFor words.now (minimise file term budget) → result ≡ 1
        → SaysNowhere (W.meaning world.now) (S.bytes_of source.old file) }
    ensures solve_causes { (file : List ℕ) (budget : ℕ) (asked : Option ProofForm) (calculus shows : Bool)
        → AskFor words.now (solve file budget asked calculus shows)
        → MeetsFile (IsCausedAs calculus shows asked budget) (S.bytes_of source.old file)
        result (K.taken sink.old) (K.taken sink.new) }
    ensures elim_causes { (file : List ℕ) (budget : ℕ) → AskFor words.now (eliminate file budget)
        → MeetsFile (IsElimCaused budget) (S.bytes_of source.old file)
        result (K.taken sink.old) (K.taken sink.new) }
    ensures find_causes { (file : List ℕ) (budget : ℕ) (proves : Bool) → AskFor words.now (find_values file budget proves)
        → MeetsFile (IsFindCaused proves budget) (S.bytes_of source.old file)
        result (K.taken sink.old) (K.taken sink.new) }
    ensures least_causes { (file term : List ℕ) (budget : ℕ) → AskFor words.now (minimise file term budget)
        → MeetsFile (IsLeastCaused (W.meaning world.now) term budget) (S.bytes_of source.old file)
        result (K.taken sink.old) (K.taken sink.new) }
    ensures check_causes { (file proof : List ℕ) → AskFor words.now (check file proof)
        → MeetsFile (IsCheckCaused (S.bytes_of source.old proof)) (S.bytes_of source.old file)
        result (K.taken sink.old) (K.taken sink.new) }
    ensures smt_causes { (file : List ℕ) (budget : ℕ) → AskFor words.now (run_script file budget)
        → MeetsFile (SmtCauses budget) (S.bytes_of source.old file)
        result (K.taken sink.old) (K.taken sink.new) }
    ensures drilled { (count budget : ℕ) → AskFor words.now (drill count budget)
        → Meets (IsDrillCaused (W.meaning world.now) budget count) result (K.taken sink.old) (K.taken sink.new) }
    ensures status { IsStatus result }
    ensures unread { AskForNoFile words.now → source.new ≡ source.old }
    ensures begun { (task : Task) → AskFor words.now task → files_of task ≢ [] → result ≢ 8
        → IsJobFile task (S.at source.new) }
    ensures listed { (task : Task) → AskFor words.now task → result ≢ 6 → result ≢ 8
        → AreBegun (S.bytes_of source.old) task (S.names source.old) (S.names source.new) }
    ensures front { (task : Task) → AskFor words.now task
        → BeginsFront (files_of task) (S.names source.old) (S.names source.new) }
    ensures moved { (task : Task) → AskFor words.now task
        → GrowsAtMost (S.moved source.old) (S.moved source.new) (most_moved task) }
    ensures source_failed { result ≡ 6 → Rose (S.faults source.old) (S.faults source.new) }
    ensures named { result ≡ 6
        → (task : Task) × AskFor words.now task × BrokeAt task (S.at source.new) (S.broken source.new) }
    ensures sink_failed { result ≡ 7 → Rose (K.faults sink.old) (K.faults sink.new) }
    ensures no_fault { result ≢ 7 → K.faults sink.new ≡ K.faults sink.old }
    ensures silent { (result ≡ 6) ⊎ (result ≡ 8) → sink.new ≡ sink.old }
{
    words_law();
    match job(alloc, words) {
        Ok(job) => do_job(alloc, source, sink, &job, watch),
        Err(WordsFault::Words) => put_answer(sink, WORDS_REFUSED, b"refused words\n"),
        Err(WordsFault::Memory) => NO_MEMORY,
    }
}

// Does a job, and answers the exit status.
fn do_job<S: Source, K: Sink, X: Watch>(
    alloc: Global,
    source: &mut S,
    sink: &mut K,
    job: &Job,
    watch: &mut X,
) -> u8
    requires { IsSmallTask (task_of job.now) }
    ensures answered { Meets (AnswersTask (S.bytes_of source.old) (task_of job.now))
        result (K.taken sink.old) (K.taken sink.new) }
    ensures begun { files_of (task_of job.now) ≢ [] → result ≢ 8 → IsJobFile (task_of job.now) (S.at source.new) }
    ensures listed { result ≢ 6 → result ≢ 8
        → AreBegun (S.bytes_of source.old) (task_of job.now) (S.names source.old) (S.names source.new) }
    ensures front { BeginsFront (files_of (task_of job.now)) (S.names source.old) (S.names source.new) }
    ensures moved { GrowsAtMost (S.moved source.old) (S.moved source.new) (most_moved (task_of job.now)) }
    ensures unread { files_of (task_of job.now) ≡ [] → source.new ≡ source.old }
    ensures source_failed { result ≡ 6 → Rose (S.faults source.old) (S.faults source.new) }
    ensures named { result ≡ 6 → BrokeAt (task_of job.now) (S.at source.new) (S.broken source.new) }
    ensures sink_failed { result ≡ 7 → Rose (K.faults sink.old) (K.faults sink.new) }
    ensures no_fault { result ≢ 7 → K.faults sink.new ≡ K.faults sink.old }
    ensures silent { (result ≡ 6) ⊎ (result ≡ 8) → sink.new ≡ sink.old }
    ensures words { result ≢ 5 }
    ensures status { IsStatus result }
{
    match job_output(alloc, source, job, watch) {
        Ok(output) => put_answer(sink, output.status, output.text.as_slice()),
        Err(Stop::Source) => SOURCE_FAILED,
        Err(Stop::Memory) => NO_MEMORY,
    }
}
