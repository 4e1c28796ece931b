//! Workers over a desk.
ghost use Rattle.std.specs.Prelude.{◌≡◌, ◌<◌, ◌≤◌, ◌↔◌, ◌+◌, [], None, IfOk, IfErr, OnOk, IsTrue};
ghost use Rattle.std.specs.Prelude.{length, vec_len, vec_capacity};
ghost use Rattle.shared_words.specs.Workers.{IsWorkerCount};
ghost use Rattle.cover_problem.specs.Answers.{IfRefused};
ghost use Rattle.x_steps.specs.StateValue.{start};
ghost use Rattle.x_branches.specs.Branch.{whole_run};
ghost use Rattle.lab_book.specs.Book.{waiting_in, leased_in, new_book};
ghost use Rattle.lab_book.specs.Posted.{AllClosed};
ghost use Rattle.lab_book_laws.specs.AlikeBooks.{held_tiles};
ghost use Rattle.lab_book_laws.specs.Searched.{IsSearched};
ghost use Rattle.lab_pool.specs.Pool.{GoesOn, GivenBack, OnlyHeld, IfFault, IfGiven, NoneAt, SomeAt, FaultWhere, IsBadCount};

use crate::fault::PoolFault;
use crate::gate::Gate;
use crate::station::Crew;
use crate::verdict::{answer, mismatch, refuse, settle};
use crate::worker::work;
use cover_problem::{Problem, Table};
use lab_book::Book;
use lab_desk::{Blank, Desk, Desking, Seat};
use lab_tickets::{TicketSeat, tickets};
use shared_words::MOST_WORKERS;
use std::alloc::Global;
use std::marker::Brand;
use std::sync::Wait;
use std::sync::atomic::{AtomicBool, Ordering};
use std::thread;
use std::thread::{JoinHandle, Scope, Threads};
use x_steps::Refused;

/// Starts a thread for each seat but the first, whose worker runs here. Answers the threads that were started, and whether one was
/// refused.
fn start_all<
    's,
    'a: 's,
    'p: 's,
    'e: 's,
    'f: 's,
    E,
    T: Table + Send + Sync + 's,
    L: Desking + Send + Sync,
    R: Wait + Sync,
    G: Gate,
>(
    scope: &Scope<'s, E>,
    crew: &'a Crew<'a, 'p, L, R, G>,
    seats: &'e mut [Seat<L>],
    lanes: &'f mut [TicketSeat],
    threads: Vec<JoinHandle<()>>,
) -> (Vec<JoinHandle<()>>, bool)
    requires lanes { length lanes.old ≡ length seats.old }
    requires none { threads.items ≡ [] }
    requires room { length seats.old ≤ vec_capacity threads + 1 }
    ensures { IsTrue result.1 ↔ vec_len result.0 + 1 < length seats.old }
{
    let mut threads = threads;
    let Some((first, others)) = seats.split_first_mut() else {
        return (threads, false);
    };
    let Some((lane, other_lanes)) = lanes.split_first_mut() else {
        return (threads, false);
    };
    let mut refused = false;
    'starting: for (seat, lane) in others.iter_mut().zip(other_lanes.iter_mut()) {
        // A refused thread is no failure yet: the other workers do its part.
        match scope.spawn(move || work::<T, L, R, G>(crew, seat, lane)) {
            Ok(thread) => threads.push_reserved(thread),
            Err(_) => refused = true,
        }
    }
    // The calling thread works too, so that one worker needs no thread at all.
    work::<T, L, R, G>(crew, first, lane);
    (threads, refused)
}

/// Runs a worker at each seat. Answers whether a thread was refused.
fn run_seats<T: Table + Send + Sync, L: Desking + Send + Sync, R: Threads + Wait + Sync, G: Gate>(
    crew: &Crew<'_, '_, L, R, G>,
    seats: &mut [Seat<L>],
    lanes: &mut [TicketSeat],
    threads: Vec<JoinHandle<()>>,
) -> bool
    requires lanes { length lanes.old ≡ length seats.old }
    requires none { threads.items ≡ [] }
    requires room { length seats.old ≤ vec_capacity threads + 1 }
    ensures { IsTrue result → 1 < length seats.old }
{
    // Threads lent by a scope have ended when it returns: desk and seats are free again.
    let (_, refused) = thread::scope(
        thread::scope_env(),
        crew.rt,
        |scope|
            requires lanes { length lanes.now ≡ length seats.now }
            requires none { threads.items ≡ [] }
            requires room { length seats.now ≤ vec_capacity threads + 1 }
            ensures { IsTrue result.1 → 1 < length seats.entry.now }
        { start_all::<_, T, L, R, G>(scope, crew, seats, lanes, threads) },
    );
    refused
}

/// Finishes a book by a desk of this name.
fn run_at<'p, T: Table + Send + Sync, L: Desking + Send + Sync, R: Threads + Wait + Sync, G: Gate>(
    rt: &R,
    alloc: Global,
    blank: Blank,
    book: Book<'p>,
    workers: u8,
    gate: &G,
) -> Result<Book<'p>, Refused<PoolFault, Option<Book<'p>>>>
    requires name { blank.name ≡ L.table }
    requires parts { (blank.parts ≡ L.parts) × (blank.parts ≡ workers) }
    requires workers { IsWorkerCount workers }
    requires opening { book.history ≡ L.opening }
    requires whole { book.problem ≡ L.whole }
    requires part { book.branch ≡ L.part }
    requires begin { book.first ≡ L.begin }
    requires free { leased_in book.tiles ≡ 0 }
    requires waits { 0 < waiting_in book.tiles }
    ensures on { IfOk result (λ b. GoesOn book.entry b) }
    ensures finished { IfOk result (λ b. AllClosed b.tiles) }
    ensures searched { IfOk result (λ b. IsSearched book.entry b) }
    ensures given_back { IfGiven result (λ b. GivenBack book.entry b) }
    ensures none_back { IfErr result (λ r. r.given ≡ None ↔ (r.fault ≡ PoolFault.Mismatch)) }
    ensures workers { IfErr result (λ r. r.fault ≡ PoolFault.BadWorkerCount → ⊥) }
    ensures held { IfFault result PoolFault.Held (λ b. IsSearched book.entry b) }
    ensures some_held { IfRefused result PoolFault.Held (held_tiles book.entry.tiles ≡ [] → ⊥) }
    ensures memory { IfFault result PoolFault.OutOfMemory (λ b. 0 < waiting_in b.tiles) }
    ensures threads { IfFault result PoolFault.NoThread (λ b. 0 < waiting_in b.tiles) }
    ensures several { IfRefused result PoolFault.NoThread (1 < workers) }
{
    // The pool answers for the entries from here on.
    let from = book.history().len();
    let Ok(mut lanes) = tickets(alloc, workers) else {
        return Err(refuse(PoolFault::OutOfMemory, book));
    };
    // Room for all handles now: no thread may start whose handle can't be kept.
    let Ok(threads) = Vec::with_capacity(alloc, workers as usize - 1) else {
        return Err(refuse(PoolFault::OutOfMemory, book));
    };
    // Last, since the blank is spent here: what was refused before gives the book back.
    let (desk, mut seats) = match Desk::<L>::new(alloc, blank, book, workers) {
        Ok(made) => made,
        Err((_, book)) => return Err(refuse(PoolFault::OutOfMemory, book)),
    };
    let memory = AtomicBool::new(false);
    let crew = Crew {
        rt,
        alloc,
        desk: &desk,
        gate,
        memory: &memory,
    };
    let refused = run_seats::<T, L, R, G>(
        &crew,
        seats.as_mut_slice(),
        lanes.as_mut_slice(),
        threads,
    );
    // A lock tells nothing of what threads did under it: the seats' notes tell it.
    let Ok(book) = desk.finish(seats) else {
        return Err(mismatch());
    };
    book.is_sound();
    answer(book, from, memory.load(Ordering::SeqCst), refused)
}

/// Finishes a book with so many workers, each with a table of its own. The first runs here: one worker starts no thread. Tiles
/// that are held are left as they are, and all others are closed; where none waits, no worker runs.
pub fn run_pool_on<'p, T: Table + Send + Sync, R: Threads + Wait + Sync, G: Gate>(
    rt: &R,
    alloc: Global,
    book: Book<'p>,
    workers: u32,
    gate: &G,
) -> Result<Book<'p>, Refused<PoolFault, Option<Book<'p>>>>
    requires free { leased_in book.tiles ≡ 0 }
    ensures workers { OnOk result (IsWorkerCount workers) }
    ensures on { IfOk result (λ b. GoesOn book.entry b) }
    ensures finished { IfOk result (λ b. AllClosed b.tiles) }
    ensures none_held { OnOk result (held_tiles book.entry.tiles ≡ []) }
    ensures searched { IfOk result (λ b. IsSearched book.entry b) }
    ensures bad_workers { FaultWhere result PoolFault.BadWorkerCount (IsBadCount workers) }
    ensures given_back { IfGiven result (λ b. GivenBack book.entry b) }
    ensures none_back { IfErr result (λ r. r.given ≡ None ↔ (r.fault ≡ PoolFault.Mismatch)) }
    ensures held { IfFault result PoolFault.Held (λ b. OnlyHeld book.entry b) }
    ensures held_searched { IfFault result PoolFault.Held (λ b. IsSearched book.entry b) }
    ensures some_held { IfRefused result PoolFault.Held (held_tiles book.entry.tiles ≡ [] → ⊥) }
    ensures memory { IfFault result PoolFault.OutOfMemory (λ b. 0 < waiting_in b.tiles) }
    ensures threads { IfFault result PoolFault.NoThread (λ b. 0 < waiting_in b.tiles) }
    ensures several { IfRefused result PoolFault.NoThread (1 < workers) }
{
    if workers == 0 || workers > MOST_WORKERS {
        return Err(refuse(PoolFault::BadWorkerCount, book));
    }
    // Before anything grows or starts: there is nothing to search.
    if book.waiting() == 0 {
        return settle(book);
    }
    let Ok(blank) = Blank::new(alloc, workers as u8) else {
        return Err(refuse(PoolFault::OutOfMemory, book));
    };
    // A desk's name is made here, and no caller has to choose one.
    run_at::<T, Brand, R, G>(rt, alloc, blank, book, workers as u8, gate)
}

/// Searches the whole run of a problem with so many workers, each with a table of its own. Where it doesn't finish, the book comes back
/// as far as it is, with no tile leased: none comes back for a bad number of workers, at a mismatch, and where there was no memory for one.
pub fn run_pool<'p, T: Table + Send + Sync, R: Threads + Wait + Sync, G: Gate>(
    rt: &R,
    alloc: Global,
    problem: &'p Problem,
    workers: u32,
    gate: &G,
) -> Result<Book<'p>, Refused<PoolFault, Option<Book<'p>>>>
    ensures workers { OnOk result (IsWorkerCount workers) }
    ensures problem { IfOk result (λ b. b.problem ≡ problem.now) }
    ensures on { IfOk result (λ b. GoesOn (new_book problem.now whole_run start) b) }
    ensures finished { IfOk result (λ b. AllClosed b.tiles) }
    ensures bad_workers { FaultWhere result PoolFault.BadWorkerCount (IsBadCount workers) }
    ensures never_held { IfErr result (λ r. r.fault ≡ PoolFault.Held → ⊥) }
    ensures given_back { IfGiven result (λ b. GivenBack (new_book problem.now whole_run start) b) }
    ensures none_at_bad_workers { NoneAt result PoolFault.BadWorkerCount }
    ensures none_at_mismatch { NoneAt result PoolFault.Mismatch }
    ensures some_at_no_thread { SomeAt result PoolFault.NoThread }
    ensures memory { IfFault result PoolFault.OutOfMemory (λ b. 0 < waiting_in b.tiles) }
    ensures threads { IfFault result PoolFault.NoThread (λ b. 0 < waiting_in b.tiles) }
    ensures several { IfRefused result PoolFault.NoThread (1 < workers) }
{
    if workers == 0 || workers > MOST_WORKERS {
        return Err(Refused {
            fault: PoolFault::BadWorkerCount,
            given: None,
        });
    }
    let Ok(book) = Book::new(alloc, problem) else {
        return Err(Refused {
            fault: PoolFault::OutOfMemory,
            given: None,
        });
    };
    run_pool_on::<T, R, G>(rt, alloc, book, workers, gate)
}
