//! What a job writes for an input.
ghost use Rattle.std.specs.Prelude.{◌≡◌, ℕ, false, List, [], Ok, IfErr};
ghost use Rattle.text_lines.specs.Writing.{line_text};
ghost use Rattle.cover_problem.specs.Reading.{problem_of};
ghost use Rattle.poly_texts.specs.Reading.{puzzle_of};
ghost use Rattle.x_snapshot.specs.Judged.{snapshot_of};
ghost use Rattle.part_sums.specs.Joining.{join_of};
ghost use Rattle.lab_pool.specs.declared.fault.PoolFault.{PoolFault};
ghost use Rattle.polylab_engine.specs.declared.job.Job.{Job};
ghost use Rattle.polylab_engine.specs.declared.job.Job.TheVariants as jobs;
ghost use Rattle.polylab_engine.specs.Jobs.{takes_commands};
ghost use Rattle.polylab_engine.specs.Outcome.{refusal_words, cover_refusal, puzzle_refusal, place_refusal, snapshot_refusal, joined_of};
ghost use Rattle.polylab_engine.specs.Outcome.{packable, packed_of, job_outcome, listing_of, output_of, HasOutcome, Finds};
ghost use Rattle.polylab_engine.specs.Refusals.{IsNoTextOf, NoPool, cover_faults, puzzle_faults, pool_faults};
ghost use Rattle.shared_words.specs.Answers.{ReturnsItems};

use crate::classes::count_classes;
use crate::cover::{count_covers, covers, first_covers};
use crate::job::{CoverJob, Job, PuzzleJob};
use crate::packed::{count, first_packings, options, solve};
use crate::resumption::resume;
use crate::up_to::{count_up_to, options_up_to, solve_up_to};
use crate::workers::Workers;
use cover_problem::{CoverFault, Problem, read_cover};
use debug_language::write_snapshot_fault;
use debug_script::JobFault;
use part_sums::{Counted, join};
use poly_place::{Compiled, PlaceFault, compile};
use poly_texts::{Puzzle, PuzzleFault, read_puzzle};
use std::alloc::{AllocError, Global};
use text_lines::{TextRefusal, write_number, write_word};
use x_snapshot::{Snapshot, read_snapshot};

/// Why there is no text to write.
#[derive(Drop)]
pub enum NoText {
    /// The input is refused by this line.
    Refused(Vec<u8>),
    /// The job could not be done.
    Fault(JobFault),
}

impl From<JobFault> for NoText {
    ghost use Rattle.polylab_engine.specs.declared.answer.NoText.TheVariants as no_texts;

    ghost from_gives = { λ fault e. e ≡ no_texts.Fault fault };

    fn from(fault: JobFault) -> NoText {
        NoText::Fault(fault)
    }
}

impl From<AllocError> for NoText {
    ghost use Rattle.polylab_engine.specs.declared.answer.NoText.TheVariants as no_texts;
    ghost use Rattle.debug_script.specs.declared.fault.JobFault.TheVariants as faults;

    ghost from_gives = { λ _ e. e ≡ no_texts.Fault faults.OutOfMemory };

    fn from(_e: AllocError) -> NoText {
        NoText::Fault(JobFault::OutOfMemory)
    }
}

/// What makes the text that a job writes.
pub trait Answering {
    // It can be asked about the job, and what it answers is right.
    ghost ready: { Self → Job → Type 0 };

    // The faults of workers with which it may end the job for an input.
    ghost refuses: { Self → Job → List ℕ → PoolFault → Type 0 };

    /// What the job writes for an input, which is let go.
    fn answer(&self, alloc: Global, job: Job, input: Vec<u8>) -> Result<Vec<u8>, NoText>
        requires { ready self.now job }
        ensures outcome { HasOutcome result (job_outcome job input.items) }
        ensures why { IfErr result (IsNoTextOf (refuses self.now job input.items)) };
}

/// What a job writes for an input, where no commands follow the input's text. The bytes of the text are let go before anything is
/// searched.
#[tactic(auto, unfolding(crate::specs::Outcome::job_outcome))]
pub fn text_for<W: Workers>(
    alloc: Global,
    job: Job,
    workers: &W,
    input: Vec<u8>,
) -> Result<Vec<u8>, NoText>
    requires ready { W.ready workers.now }
    requires whole { takes_commands job ≡ false }
    ensures outcome { HasOutcome result (job_outcome job input.items) }
    ensures why { IfErr result (IsNoTextOf (pool_faults job (W.refuses workers.now) input.items)) }
{
    match job {
        Job::Cover(job) => {
            let problem = taken_problem(alloc, input)?;
            cover_text::<W>(alloc, workers, job, &problem)
        }
        Job::Puzzle(job) => {
            let puzzle = taken_puzzle(alloc, input)?;
            puzzle_text::<W>(alloc, workers, job, &puzzle)
        }
        Job::Resume { steps, list } => {
            let snapshot = snapshot_in(alloc, input)?;
            Ok(resume(
                alloc,
                workers.table(),
                workers.cache(),
                steps,
                list,
                snapshot,
            )?)
        }
        Job::Join(counted) => joined_text(alloc, counted, &input),
    }
}

/// The problem of a text, which is let go.
fn taken_problem(alloc: Global, text: Vec<u8>) -> Result<Problem, NoText>
    ensures { Finds result (problem_of text.items) (λ f. cover_refusal f.0 f.1) }
{
    problem_in(alloc, &text)
}

/// The problem of a text, or the refusal of the text.
pub fn problem_in(alloc: Global, text: &[u8]) -> Result<Problem, NoText>
    ensures { Finds result (problem_of text.now) (λ f. cover_refusal f.0 f.1) }
{
    match read_cover(alloc, text) {
        Ok(problem) => Ok(problem),
        Err(CoverFault::Fault { fault, line }) => {
            let (number, name) = (fault.number(), fault.name());
            Err(NoText::Refused(refusal(alloc, "cover", number, name, line)?))
        }
        Err(CoverFault::OutOfMemory) => Err(NoText::Fault(JobFault::OutOfMemory)),
    }
}

/// The puzzle of a text, which is let go.
fn taken_puzzle(alloc: Global, text: Vec<u8>) -> Result<Puzzle, NoText>
    ensures { Finds result (puzzle_of text.items) (λ f. puzzle_refusal f.0 f.1) }
{
    puzzle_in(alloc, &text)
}

/// The puzzle of a text, or the refusal of the text.
pub fn puzzle_in(alloc: Global, text: &[u8]) -> Result<Puzzle, NoText>
    ensures { Finds result (puzzle_of text.now) (λ f. puzzle_refusal f.0 f.1) }
{
    match read_puzzle(alloc, text) {
        Ok(puzzle) => Ok(puzzle),
        Err(PuzzleFault::Fault { fault, line }) => {
            let (number, name) = (fault.number(), fault.name());
            Err(NoText::Refused(refusal(alloc, "puzzle", number, name, line)?))
        }
        Err(PuzzleFault::OutOfMemory) => Err(NoText::Fault(JobFault::OutOfMemory)),
    }
}

/// The puzzle with its problem, or its refusal where that is past the limits.
pub fn compiled_of<'p>(alloc: Global, puzzle: &'p Puzzle) -> Result<Compiled<'p>, NoText>
    ensures { Finds result (packable puzzle.now) (λ _. place_refusal) }
{
    match compile(alloc, puzzle) {
        Ok(compiled) => Ok(compiled),
        // A puzzle is within its own limits; what it compiles to has others, and no line of the text is to blame.
        Err(PlaceFault::TooManyOptions) => {
            let line = Vec::from_slice(alloc, b"refused place 1 TooManyOptions\n")?;
            Err(NoText::Refused(line))
        }
        Err(PlaceFault::OutOfMemory) => Err(NoText::Fault(JobFault::OutOfMemory)),
    }
}

/// The snapshot of a text, which is let go, or the refusal of the text.
fn snapshot_in(alloc: Global, text: Vec<u8>) -> Result<Snapshot, NoText>
    ensures { Finds result (snapshot_of text.items) snapshot_refusal }
{
    match read_snapshot(alloc, &text) {
        Ok(snapshot) => Ok(snapshot),
        Err(fault) => {
            let mut line = Vec::new(alloc);
            write_snapshot_fault(&mut line, fault)?;
            Err(NoText::Refused(line))
        }
    }
}

/// The lines of the sum of a text's parts, or the refusal of the text.
fn joined_text(alloc: Global, counted: Counted, text: &[u8]) -> Result<Vec<u8>, NoText>
    ensures text { HasOutcome result (joined_of (join_of counted text.now)) }
    ensures why { IfErr result (IsNoTextOf NoPool) }
{
    match join(alloc, text, counted) {
        Ok(lines) => Ok(lines),
        Err(TextRefusal::Fault { fault, line }) => {
            let (number, name) = (fault.number(), fault.name());
            Err(NoText::Refused(refusal(alloc, "join", number, name, line)?))
        }
        Err(TextRefusal::OutOfMemory) => Err(NoText::Fault(JobFault::OutOfMemory)),
    }
}

/// What the job writes of a problem.
fn cover_text<W: Workers>(
    alloc: Global,
    workers: &W,
    job: CoverJob,
    problem: &Problem,
) -> Result<Vec<u8>, NoText>
    requires ready { W.ready workers.now }
    requires whole { takes_commands (jobs.Cover job) ≡ false }
    ensures text { HasOutcome result (Ok (listing_of job [] problem.now)) }
    ensures why { (input : List ℕ) → IfErr result (IsNoTextOf (cover_faults job (W.refuses workers.now) input)) }
{
    match job {
        CoverJob::List => Ok(covers::<W>(alloc, workers, problem)?),
        CoverJob::Count => Ok(count_covers::<W>(alloc, workers, problem)?),
        CoverJob::First(first) => Ok(first_covers(alloc, problem, workers.table(), first)?),
        // Commands follow the text of `debug`, as `whole` says.
        CoverJob::Debug => unreachable!(),
    }
}

/// What the job writes of a puzzle, or the refusal of a puzzle whose problem is past the limits.
fn puzzle_text<W: Workers>(
    alloc: Global,
    workers: &W,
    job: PuzzleJob,
    puzzle: &Puzzle,
) -> Result<Vec<u8>, NoText>
    requires ready { W.ready workers.now }
    requires whole { takes_commands (jobs.Puzzle job) ≡ false }
    ensures text { HasOutcome result (packed_of (output_of job []) (Ok puzzle.now)) }
    ensures why { (input : List ℕ) → IfErr result (IsNoTextOf (puzzle_faults job (W.refuses workers.now) input)) }
{
    let compiled = compiled_of(alloc, puzzle)?;
    packed_text::<W>(alloc, workers, job, &compiled)
}

/// What the job writes of a puzzle whose problem is within the limits.
fn packed_text<W: Workers>(
    alloc: Global,
    workers: &W,
    job: PuzzleJob,
    compiled: &Compiled<'_>,
) -> Result<Vec<u8>, NoText>
    requires ready { W.ready workers.now }
    requires whole { takes_commands (jobs.Puzzle job) ≡ false }
    ensures text { HasOutcome result (Ok (output_of job [] compiled.now)) }
    ensures why { (input : List ℕ) → IfErr result (IsNoTextOf (puzzle_faults job (W.refuses workers.now) input)) }
{
    match job {
        PuzzleJob::Solve => Ok(solve::<W>(alloc, workers, compiled)?),
        PuzzleJob::First(first) => { Ok(first_packings(alloc, compiled, workers.table(), first)?) }
        PuzzleJob::Count => Ok(count::<W>(alloc, workers, compiled)?),
        PuzzleJob::Classes => Ok(count_classes::<W>(alloc, workers, compiled)?),
        PuzzleJob::Options => Ok(options(alloc, compiled)?),
        PuzzleJob::SolveUpTo(group) => Ok(solve_up_to::<W>(alloc, workers, compiled, group)?),
        PuzzleJob::CountUpTo(group) => Ok(count_up_to::<W>(alloc, workers, compiled, group)?),
        PuzzleJob::OptionsUpTo(group) => Ok(options_up_to(alloc, compiled, group)?),
        // As for `cover_text`.
        PuzzleJob::Debug => unreachable!(),
    }
}

/// The line that refuses a text.
fn refusal(
    alloc: Global,
    text: &str,
    number: u8,
    name: &str,
    line: u64,
) -> Result<Vec<u8>, AllocError>
    ensures { ReturnsItems result (line_text (refusal_words text.now number name.now line)) }
{
    let mut bytes = Vec::from_slice(alloc, b"refused")?;
    write_word(&mut bytes, text)?;
    write_number(&mut bytes, number)?;
    write_word(&mut bytes, name)?;
    write_word(&mut bytes, "line")?;
    write_number(&mut bytes, line)?;
    bytes.push(b'\n')?;
    Ok(bytes)
}
