//! From the input's bytes to the output's.
ghost use Rattle.std.specs.Prelude.{◌≡◌, false, IfErr};
ghost use Rattle.std.specs.Thread.{IsSync};
ghost use Rattle.byte_streams.specs.Stream.{Takes};
ghost use Rattle.shared_words.specs.Answers.{Returns};
ghost use Rattle.polylab_engine.specs.Jobs.{takes_commands};
ghost use Rattle.polylab_engine.specs.Outcome.{debug_outcome, no_memory, HasOutcome};
ghost use Rattle.polylab_engine.specs.Output.{whole_report};
ghost use Rattle.debug_script.specs.Refusals.{MayRefuse, IsWantOrPool};
ghost use Rattle.polylab_engine.specs.Refusals.{IsNoTextOf, IsEndingOf, MayEndBy, MayOfInput, TellsAtFour, pool_faults};
ghost use Rattle.polylab_engine.specs.Ending.{EndsRun, IsTold, IsProgramRun, status_of};

use crate::answer::{Answering, NoText};
use crate::debugger::replies_for;
use crate::fault::pool_line;
use crate::job::{Job, TextKind};
use crate::report::Report;
use crate::search::search_together;
use crate::workers::{Alone, Team, Together};
use byte_streams::{InputFault, Sink, Source, read_whole, write_whole};
use cover_problem::{Lists, Problem};
use debug_script::JobFault;
use lab_pool::{Gate, PoolFault};
use std::alloc::Global;
use std::sync::Wait;
use std::thread::Threads;

/// How a run ended.
#[derive(Drop)]
pub enum RunEnding {
    /// All was written.
    Written,
    /// The input was refused by this line.
    Refused(Vec<u8>),
    /// There was not enough memory.
    OutOfMemory,
    /// The workers did not finish.
    Pool(PoolFault),
    /// The reader failed, or its input goes on past the limit.
    Unread,
    /// The writer failed.
    Unwritten,
}

impl From<JobFault> for RunEnding {
    ghost use Rattle.polylab_engine.specs.Ending.{ending_of};

    ghost from_gives = { λ fault ending. ending ≡ ending_of fault };

    fn from(fault: JobFault) -> RunEnding {
        match fault {
            JobFault::OutOfMemory => RunEnding::OutOfMemory,
            JobFault::Pool(fault) => RunEnding::Pool(fault),
        }
    }
}

/// The exit status of a run that ended so.
fn status(ending: &RunEnding) -> u8
    ensures { result ≡ status_of ending.now }
{
    match ending {
        RunEnding::Written => 0,
        RunEnding::Refused(_) => 3,
        RunEnding::OutOfMemory | RunEnding::Pool(_) => 4,
        RunEnding::Unread | RunEnding::Unwritten => 5,
    }
}

/// Writes a line. That this fails changes nothing.
fn tell<F: Sink>(faults: &mut F, line: &[u8])
    ensures { Takes (F.stream faults.old) (F.stream faults.new) line.now }
{
    // There is nobody else to tell, and the exit status says it too.
    let _ = write_whole(faults, line);
}

/// Tells how the run ended.
fn tell_ending<F: Sink>(faults: &mut F, ending: &RunEnding)
    ensures { IsTold ending.now (F.stream faults.old) (F.stream faults.new) }
{
    match ending {
        RunEnding::Written => {}
        RunEnding::Refused(line) => tell(faults, line),
        RunEnding::OutOfMemory => tell(faults, b"refused memory\n"),
        RunEnding::Pool(fault) => tell(faults, pool_line(*fault)),
        RunEnding::Unread => tell(faults, b"refused input\n"),
        RunEnding::Unwritten => tell(faults, b"refused output\n"),
    }
}

/// Reads the whole input, does the job, and writes the whole output.
fn work<A: Answering, I: Source, O: Sink>(
    alloc: Global,
    job: Job,
    answers: &A,
    reader: &mut I,
    writer: &mut O,
) -> RunEnding
    requires { A.ready answers.now job }
    ensures ends { EndsRun I.stream O.stream job reader.old reader.new writer.old writer.new result }
    ensures why { IsEndingOf (MayOfInput (A.refuses answers.now job) (I.stream reader.old)) result }
{
    let bytes = match read_whole(alloc, reader) {
        Ok(bytes) => bytes,
        Err(InputFault::OutOfMemory) => return RunEnding::OutOfMemory,
        Err(_) => return RunEnding::Unread,
    };
    match answers.answer(alloc, job, bytes) {
        // Nothing is written before the whole answer is there, so that no fault leaves half of it.
        Ok(text) => match write_whole(writer, &text) {
            Ok(()) => RunEnding::Written,
            Err(_) => RunEnding::Unwritten,
        },
        Err(NoText::Refused(line)) => RunEnding::Refused(line),
        Err(NoText::Fault(fault)) => RunEnding::from(fault),
    }
}

/// Reads the whole input, does the job, writes the whole output, and answers the exit status: 0, 3, 4 or 5. One line
/// goes to `faults` where it isn't 0; the line is whole unless `faults` failed.
///
/// What is written at status 0 is a function of the job and of the bytes read (`job_outcome`), and it lists exactly the
/// exact covers of the input's problem, or the packings of its puzzle, each once, in path order, or tells how many
/// these are, or what the search of its snapshot comes to from there on. It is the same for every number of workers
/// and every gate; a gate sees the acts of workers who share a search. At 3 and 4 nothing is written. `IsProgramRun` of
/// `specs/Ending.antt` says all this, fact by fact.
fn run<A: Answering, I: Source, O: Sink, F: Sink>(
    alloc: Global,
    job: Job,
    answers: &A,
    reader: &mut I,
    writer: &mut O,
    faults: &mut F,
) -> u8
    requires { A.ready answers.now job }
    ensures run { IsProgramRun job (I.stream reader.old) (I.stream reader.new) (O.stream writer.old) (O.stream writer.new)
        (F.stream faults.old) (F.stream faults.new) result }
    ensures why { TellsAtFour result F.stream (MayOfInput (A.refuses answers.now job) (I.stream reader.old)) faults.old faults.new }
{
    let ending = work(alloc, job, answers, reader, writer);
    tell_ending(faults, &ending);
    status(&ending)
}

/// A run by one worker, which returns. The debugger's commands may ask for more workers, so it takes none.
pub fn run_alone<I: Source, O: Sink, F: Sink>(
    alloc: Global,
    job: Job,
    worker: &Alone,
    reader: &mut I,
    writer: &mut O,
    faults: &mut F,
) -> u8
    requires { takes_commands job ≡ false }
    ensures run { IsProgramRun job (I.stream reader.old) (I.stream reader.new) (O.stream writer.old) (O.stream writer.new)
        (F.stream faults.old) (F.stream faults.new) result }
    ensures memory { result ≡ 4 → Takes (F.stream faults.old) (F.stream faults.new) no_memory }
{
    run(alloc, job, worker, reader, writer, faults)
}

/// A run by workers who share its search, or as commands ask for them.
pub fn run_together<R: Threads + Wait + Sync, G: Gate, I: Source, O: Sink, F: Sink>(
    alloc: Global,
    job: Job,
    crew: &Team<'_, R, G>,
    reader: &mut I,
    writer: &mut O,
    faults: &mut F,
) -> u8
    ensures run { IsProgramRun job (I.stream reader.old) (I.stream reader.new) (O.stream writer.old) (O.stream writer.new)
        (F.stream faults.old) (F.stream faults.new) result }
    ensures why { TellsAtFour result F.stream (MayOfInput (pool_faults job (MayRefuse crew.now.count)) (I.stream reader.old))
        faults.old faults.new }
{
    // Only here is it known that the threads may wait: `run` calls the closures by their contracts, and stays a call that returns.
    let search = |alloc: Global, problem: &Problem, keeps: bool| -> Result<Report<Lists>, JobFault>
        requires threads { IsSync R.row }
        requires gate { IsSync G.row }
        ensures report { Returns result (whole_report keeps problem.now) }
        ensures why { IfErr result (IsWantOrPool (MayRefuse crew.entry.now.count)) }
    { search_together(alloc, crew, problem, keeps) };
    let replies = |alloc: Global, kind: TextKind, input: &[u8]| -> Result<Vec<u8>, NoText>
        requires threads { IsSync R.row }
        requires gate { IsSync G.row }
        ensures outcome { HasOutcome result (debug_outcome kind input.now) }
        ensures why { IfErr result (IsNoTextOf (MayEndBy input.now)) }
    { replies_for(crew.rt, alloc, kind, input, crew.gate) };
    run(
        alloc,
        job,
        &Together {
            table: crew.table,
            count: crew.count,
            search,
            replies,
        },
        reader,
        writer,
        faults,
    )
}
