//! What one worker's act makes of the book and of its seat.
ghost use Rattle.std.specs.Prelude.{◌≡◌, ◌≤◌, ℕ, length, IfOk, OnErr};
ghost use Rattle.shared_words.specs.Workers.{IsWorker};
ghost use Rattle.lab_book.specs.Book.{BookValue};
ghost use Rattle.lab_history.specs.declared.fault.BookFault.TheVariants as faults;
ghost use Rattle.lab_world.specs.declared.event.Act.TheVariants as acts;
ghost use Rattle.lab_world.specs.declared.event.WorldReply.TheVariants as replies;
ghost use Rattle.lab_world.specs.World.{Turned, IsSeat, IsInHistory, turn_of, lease_act, end_act, Acts, AnyActs, ActsAside, ActsAlone};

use crate::event::{Act, Target, WorldReply};
use crate::fault::WorkerFault;
use crate::worker::{Wanted, Worker};
use cover_problem::Table;
use lab_book::{Book, BookFault, Ending};
use std::alloc::{AllocError, Global};
use x_branches::RunnerFault;
use x_steps::{Event, Refused};

/// The reply to a call that the book refused: the index of its entry. Out of memory, the book has none.
fn refused(index: u64, fault: &BookFault) -> Result<WorldReply, AllocError>
    ensures reply { IfOk result (λ r. r ≡ replies.Book index) }
    ensures not_out_of_memory { IfOk result (λ r. fault.now ≡ faults.OutOfMemory → ⊥) }
    ensures memory { OnErr result (fault.now ≡ faults.OutOfMemory) }
{
    match fault {
        // Such a call left no entry, so there is no index to answer.
        BookFault::OutOfMemory => Err(AllocError),
        _ => Ok(WorldReply::Book(index)),
    }
}

/// The reply to what the runner refused. Out of memory, there is none.
fn not_done(fault: RunnerFault) -> Result<WorldReply, AllocError>
    ensures reply { IfOk result (λ r. r ≡ replies.Runner fault) }
    ensures not_out_of_memory { IfOk result (λ r. fault ≡ RunnerFault.OutOfMemory → ⊥) }
    ensures memory { OnErr result (fault ≡ RunnerFault.OutOfMemory) }
{
    match fault {
        RunnerFault::OutOfMemory => Err(AllocError),
        _ => Ok(WorldReply::Runner(fault)),
    }
}

/// The index of the entry that comes next.
fn next_index(book: &Book<'_>) -> u64
    ensures { result ≡ length book.now.history }
{
    book.history().len() as u64
}

/// A step.
fn step<T: Table>(seat: &mut Option<Worker<'_, T>>) -> Result<WorldReply, AllocError>
    ensures turned { ActsAlone result Act.Step seat.old seat.new }
    ensures unchanged { OnErr result (seat.new ≡ seat.old) }
{
    let Some(worker) = seat else {
        return Ok(WorldReply::Idle);
    };
    match worker.step() {
        Ok(event) => Ok(WorldReply::Event(event)),
        Err(fault) => not_done(fault),
    }
}

/// A step back.
fn back<T: Table>(seat: &mut Option<Worker<'_, T>>) -> WorldReply
    ensures { (b : BookValue) (w : ℕ) → Turned (turn_of b seat.old w Act.Back) result b seat.new }
{
    let Some(worker) = seat else {
        return WorldReply::Idle;
    };
    // No memory is asked for: its path only gets shorter.
    match worker.back() {
        Ok(()) => WorldReply::Event(Event::Moved),
        Err(fault) => WorldReply::Runner(fault),
    }
}

/// A tile is leased by its id.
fn lease<'p, T: Table>(
    alloc: Global,
    book: &mut Book<'p>,
    seat: &mut Option<Worker<'p, T>>,
    w: u8,
    id: u64,
    wanted: Wanted,
) -> Result<WorldReply, AllocError>
    requires { IsWorker w }
    ensures turned { Acts result w (lease_act wanted id) book.old book.new seat.old seat.new }
    ensures book { OnErr result (book.new ≡ book.old) }
    ensures unchanged { OnErr result (seat.new ≡ seat.old) }
{
    if seat.is_some() {
        return Ok(WorldReply::Busy);
    }
    // Read before the call, whose entry will stand there.
    let index = next_index(book);
    match Worker::lease_wanted(alloc, book, w, id, wanted) {
        Ok(worker) => {
            *seat = Some(worker);
            Ok(WorldReply::Book(index))
        }
        Err(fault) => refused(index, &fault),
    }
}

/// The first tile that waits is leased, if one does.
fn lease_any<'p, T: Table>(
    alloc: Global,
    book: &mut Book<'p>,
    seat: &mut Option<Worker<'p, T>>,
    w: u8,
) -> Result<WorldReply, AllocError>
    requires { IsWorker w }
    ensures turned { Acts result w Act.LeaseAny book.old book.new seat.old seat.new }
    ensures book { OnErr result (book.new ≡ book.old) }
    ensures unchanged { OnErr result (seat.new ≡ seat.old) }
{
    if seat.is_some() {
        return Ok(WorldReply::Busy);
    }
    let index = next_index(book);
    // That none waits has an entry too, and the seat stays empty.
    *seat = Worker::lease_any(alloc, book, w)?;
    Ok(WorldReply::Book(index))
}

/// What was walked is posted.
fn post<'p, T: Table>(
    book: &mut Book<'p>,
    seat: &mut Option<Worker<'p, T>>,
    w: u8,
) -> Result<WorldReply, AllocError>
    requires { IsSeat book.old w seat.old }
    ensures turned { Acts result w Act.Post book.old book.new seat.old seat.new }
    ensures book { OnErr result (book.new ≡ book.old) }
    ensures unchanged { OnErr result (seat.new ≡ seat.old) }
{
    let index = next_index(book);
    let Some(worker) = seat else {
        return Ok(WorldReply::Idle);
    };
    // A worker in its seat holds its tile, so no problems are compared.
    match worker.post_held(book) {
        Ok(_) => Ok(WorldReply::Book(index)),
        Err(fault) => refused(index, &fault),
    }
}

/// What was posted last is taken out, and walked again.
fn retract<'p, T: Table>(
    book: &mut Book<'p>,
    seat: &mut Option<Worker<'p, T>>,
    w: u8,
) -> Result<WorldReply, AllocError>
    requires { IsSeat book.old w seat.old }
    ensures turned { Acts result w Act.Retract book.old book.new seat.old seat.new }
    ensures book { OnErr result (book.new ≡ book.old) }
    ensures unchanged { OnErr result (seat.new ≡ seat.old) }
{
    let index = next_index(book);
    let Some(worker) = seat else {
        return Ok(WorldReply::Idle);
    };
    match worker.retract(book) {
        Ok(()) => Ok(WorldReply::Book(index)),
        // The runner refuses for unposted steps alone, never for want of memory.
        Err(WorkerFault::Runner(fault)) => Ok(WorldReply::Runner(fault)),
        Err(WorkerFault::Book(fault)) => refused(index, &fault),
    }
}

/// The tile is split at an option of a level.
fn split<'p, T: Table>(
    book: &mut Book<'p>,
    seat: &mut Option<Worker<'p, T>>,
    w: u8,
    level: usize,
    option: u32,
) -> Result<WorldReply, AllocError>
    requires { IsSeat book.old w seat.old }
    ensures turned { Acts result w (acts.Split level option) book.old book.new seat.old seat.new }
    ensures book { OnErr result (book.new ≡ book.old) }
    ensures unchanged { OnErr result (seat.new ≡ seat.old) }
{
    let index = next_index(book);
    let Some(worker) = seat else {
        return Ok(WorldReply::Idle);
    };
    match worker.split(book, level, option) {
        Ok(_) => Ok(WorldReply::Book(index)),
        Err(WorkerFault::Runner(fault)) => not_done(fault),
        Err(WorkerFault::Book(fault)) => refused(index, &fault),
    }
}

/// The tile is given up.
fn end<'p, T: Table>(
    book: &mut Book<'p>,
    seat: &mut Option<Worker<'p, T>>,
    ending: Ending,
) -> Result<WorldReply, AllocError>
    ensures turned { AnyActs result (end_act ending) book.old book.new seat.old seat.new }
    ensures book { OnErr result (book.new ≡ book.old) }
    ensures unchanged { OnErr result (seat.new ≡ seat.old) }
{
    let index = next_index(book);
    // The call spends the lease, so the worker leaves its seat for it.
    let Some(worker) = seat.take() else {
        return Ok(WorldReply::Idle);
    };
    let Refused { fault, given } = match worker.end(book, ending) {
        Ok(()) => return Ok(WorldReply::Book(index)),
        Err(refused) => refused,
    };
    // Refused, it sits down again with all that it walked.
    *seat = Some(given);
    refused(index, &fault)
}

/// A tile goes back to one of its marks.
fn put_back(book: &mut Book<'_>, w: u8, id: u64, target: &Target) -> Result<WorldReply, AllocError>
    requires { IsWorker w }
    ensures turned { ActsAside result w (acts.PutBack id target.now) book.old book.new }
    ensures book { OnErr result (book.new ≡ book.old) }
{
    let index = next_index(book);
    let state = target.state();
    match book.put_back(w, id, state) {
        Ok(()) => Ok(WorldReply::Book(index)),
        Err(fault) => refused(index, &fault),
    }
}

/// A tile is asked to stop.
fn request_stop(book: &mut Book<'_>, w: u8, id: u64) -> Result<WorldReply, AllocError>
    requires { IsWorker w }
    ensures turned { ActsAside result w (acts.RequestStop id) book.old book.new }
    ensures book { OnErr result (book.new ≡ book.old) }
{
    let index = next_index(book);
    match book.request_stop(w, id) {
        Ok(()) => Ok(WorldReply::Book(index)),
        Err(fault) => refused(index, &fault),
    }
}

/// One act of worker w.
fn perform<'p, T: Table>(
    alloc: Global,
    book: &mut Book<'p>,
    seat: &mut Option<Worker<'p, T>>,
    w: u8,
    act: &Act,
) -> Result<WorldReply, AllocError>
    requires small { IsWorker w }
    requires seat { IsSeat book.old w seat.old }
    ensures turned { Acts result w act.now book.old book.new seat.old seat.new }
    ensures book { OnErr result (book.new ≡ book.old) }
    ensures unchanged { OnErr result (seat.new ≡ seat.old) }
{
    match act {
        Act::Step => step(seat),
        Act::Back => Ok(back(seat)),
        Act::Lease(id) => lease(alloc, book, seat, w, *id, Wanted::Waiting),
        Act::LeaseAny => lease_any(alloc, book, seat, w),
        Act::TakeHeld(id) => lease(alloc, book, seat, w, *id, Wanted::Held),
        Act::Post => post(book, seat, w),
        Act::Split { level, option } => split(book, seat, w, *level, *option),
        Act::Retract => retract(book, seat, w),
        Act::Park => end(book, seat, Ending::Park),
        Act::Abandon => end(book, seat, Ending::Abandon),
        Act::Close => end(book, seat, Ending::Close),
        // These two are about any tile, and leave the seat alone.
        Act::PutBack { id, state } => put_back(book, w, *id, state),
        Act::RequestStop(id) => request_stop(book, w, *id),
    }
}

/// One act of worker w, which has this seat of the book. Out of memory, nothing has changed. Many steps at once are `Worker::walk`.
pub fn take_turn<'p, T: Table>(
    alloc: Global,
    book: &mut Book<'p>,
    seat: &mut Option<Worker<'p, T>>,
    w: u8,
    act: &Act,
) -> Result<WorldReply, AllocError>
    requires small { IsWorker w }
    requires seat { IsSeat book.old w seat.old }
    ensures turned { Acts result w act.now book.old book.new seat.old seat.new }
    ensures book { OnErr result (book.new ≡ book.old) }
    ensures unchanged { OnErr result (seat.new ≡ seat.old) }
    ensures seat { IsSeat book.new w seat.new }
    ensures noted { IfOk result (IsInHistory book.new) }
    ensures same_problem { book.new.problem ≡ book.old.problem }
{
    // Tells that the tiles part the branch, on which the seat's clause rests.
    book.is_sound();
    perform(alloc, book, seat, w, act)
}
