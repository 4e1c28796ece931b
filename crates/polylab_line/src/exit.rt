//! The exit status of the program.
ghost use Rattle.std.specs.Prelude.{◌≡◌, true};
ghost use Rattle.byte_streams.specs.Stream.{Takes};
ghost use Rattle.polylab_engine.specs.Ending.{IsProgramRun};
ghost use Rattle.polylab_engine.specs.Outcome.{no_memory};
ghost use Rattle.polylab_engine.specs.Refusals.{MayOfInput, TellsAtFour, pool_faults};
ghost use Rattle.debug_script.specs.Refusals.{MayRefuse};
ghost use Rattle.polylab_line.specs.Line.{TellsNoJob, is_alone, status_of};

use crate::line::{LineFault, Request};
use byte_streams::{Sink, Source, write_whole};
use lab_pool::Gate;
use polylab_engine::{Alone, Team, run_alone, run_together};
use std::alloc::Global;
use std::sync::Wait;
use std::thread::Threads;

/// Writes a text. That this fails changes nothing.
fn write<S: Sink>(sink: &mut S, text: &[u8])
    ensures { Takes (S.stream sink.old) (S.stream sink.new) text.now }
{
    // Nowhere is left to tell it: the status says why there is no job.
    let _ = write_whole(sink, text);
}

/// Tells why there is no job, and answers the exit status: a text of help goes to the writer, all else to the faults.
pub fn tell_no_job<O: Sink, F: Sink>(fault: &LineFault, writer: &mut O, faults: &mut F) -> u8
    ensures status { result ≡ status_of fault.now }
    ensures told { TellsNoJob fault.now O.stream F.stream writer.old writer.new faults.old faults.new }
{
    match fault {
        LineFault::Help(text) => write(writer, text.as_bytes()),
        LineFault::Usage(text) => write(faults, text.as_bytes()),
        LineFault::OutOfMemory => write(faults, b"refused memory\n"),
    }
    fault.status()
}

/// How many bytes these megabytes are.
fn bytes_in(megabytes: u32) -> usize {
    megabytes as usize * 1_000_000
}

/// Does a job that one worker does without threads, and answers the exit status: 0, 3, 4 or 5. It returns.
pub fn do_alone<I: Source, O: Sink, F: Sink>(
    alloc: Global,
    asked: Request,
    reader: &mut I,
    writer: &mut O,
    faults: &mut F,
) -> u8
    requires { is_alone asked ≡ true }
    ensures run { IsProgramRun asked.job (I.stream reader.old) (I.stream reader.new) (O.stream writer.old) (O.stream writer.new)
        (F.stream faults.old) (F.stream faults.new) result }
    ensures memory { result ≡ 4 → Takes (F.stream faults.old) (F.stream faults.new) no_memory }
{
    let worker = Alone {
        table: asked.table,
        cache: asked.cache.map(bytes_in),
    };
    run_alone(alloc, asked.job, &worker, reader, writer, faults)
}

/// Where workers on threads are, and by what each is seen.
#[derive(Drop)]
pub struct Threading<'a, R, G> {
    pub rt: &'a R,
    pub gate: &'a G,
}

/// Does a job by as many workers as were asked for, or as its commands ask for, and answers the exit status: 0, 3, 4 or 5. It waits for
/// the workers.
pub fn do_together<R: Threads + Wait + Sync, G: Gate, I: Source, O: Sink, F: Sink>(
    threading: &Threading<'_, R, G>,
    alloc: Global,
    asked: Request,
    reader: &mut I,
    writer: &mut O,
    faults: &mut F,
) -> u8
    ensures run { IsProgramRun asked.job (I.stream reader.old) (I.stream reader.new) (O.stream writer.old) (O.stream writer.new)
        (F.stream faults.old) (F.stream faults.new) result }
    ensures why { TellsAtFour result F.stream (MayOfInput (pool_faults asked.job (MayRefuse asked.workers)) (I.stream reader.old))
        faults.old faults.new }
{
    let crew = Team {
        rt: threading.rt,
        gate: threading.gate,
        count: asked.workers,
        table: asked.table,
    };
    run_together(alloc, asked.job, &crew, reader, writer, faults)
}
