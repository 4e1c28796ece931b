//! Workers are made where they lease a tile.
ghost use Rattle.std.specs.Prelude.{◌≡◌, ◌≤◌, ◌<◌, length, Some, None, Err, IsErr, IfOk, IfErr, IfSome, OnOk, OnErr};
ghost use Rattle.shared_words.specs.Workers.{IsWorker};
ghost use Rattle.shared_words.specs.Answers.{Returns};
ghost use Rattle.lab_book.specs.Tiling.{tile_at, IsTiling};
ghost use Rattle.lab_book.specs.Book.{book_step, first_waiting};
ghost use Rattle.lab_book.specs.Calls.{Refuses, Leases};
ghost use Rattle.lab_history.specs.declared.entry.Call.TheVariants as calls;
ghost use Rattle.lab_world.specs.Worker.{HoldsTile, StandsAtFirst, leased_by, is_wanted, wanted_place, lease_call, runner_on};

use crate::worker::Worker;
use cover_problem::Table;
use lab_book::{Book, BookFault, Lease, Leased, Status};
use std::alloc::{AllocError, Global};
use x_branches::Runner;

/// How a tile stands that is leased by its id.
#[derive(Clone, Copy)]
pub(crate) enum Wanted {
    Waiting,
    Held,
}

/// How the tile at a place stands.
fn status_at(book: &Book<'_>, place: usize) -> Status
    requires { place < length book.now.tiles }
    ensures { result ≡ (tile_at book.now.tiles place).status }
{
    book.tiles()[place].status()
}

/// Whether a tile stands so.
fn is_wanted(wanted: Wanted, status: Status) -> bool
    ensures { result ≡ is_wanted wanted status }
{
    match wanted {
        Wanted::Waiting => status.is_waiting(),
        Wanted::Held => status.is_held(),
    }
}

/// The place of the tile with an id, if it stands so.
fn wanted_place(book: &Book<'_>, wanted: Wanted, id: u64) -> Option<usize>
    ensures { result ≡ wanted_place wanted book.now.tiles id }
{
    let Some(place) = book.place(id) else {
        return None;
    };
    if is_wanted(wanted, status_at(book, place)) {
        Some(place)
    } else {
        None
    }
}

/// Leases the tile with an id from the book.
fn asked<'p>(book: &mut Book<'p>, w: u8, id: u64, wanted: Wanted) -> Result<Leased<'p>, BookFault>
    requires { IsWorker w }
    ensures made { IfOk result (Leases book.old book.new w (lease_call wanted id)) }
    ensures refused { IfErr result (Refuses book.old book.new w (lease_call wanted id)) }
{
    match wanted {
        Wanted::Waiting => book.lease(w, id),
        Wanted::Held => book.take_held(w, id),
    }
}

/// The place of the first tile that waits.
fn first_waiting(book: &Book<'_>) -> Option<usize>
    ensures { result ≡ first_waiting book.now.tiles }
{
    book.tiles()
        .iter()
        .position(|tile| tile.status().is_waiting())
}

/// The runner of the tile at a place, at the tile's mark.
fn runner_of<'p, T: Table>(
    alloc: Global,
    book: &Book<'p>,
    place: usize,
) -> Result<Runner<'p, T>, AllocError>
    requires { place < length book.now.tiles }
    ensures tiling { IsTiling book.now.problem book.now.branch book.now.first book.now.tiles }
    ensures runner { Returns result (runner_on book.now place) }
{
    let tile = &book.tiles()[place];
    let table = T::new(alloc, book.problem())?;
    let branch = tile.branch().copy()?;
    match Runner::new(alloc, book.problem(), table, branch, tile.mark()) {
        Ok(runner) => Ok(runner),
        // A tile's mark is on its branch: only memory can be refused.
        Err(_) => Err(AllocError),
    }
}

/// Why a tile isn't leased.
fn refusal(answer: Result<Leased<'_>, BookFault>) -> BookFault
    requires { IsErr answer }
    ensures { answer.entry ≡ Err result }
{
    match answer {
        Ok(leased) => {
            // A lease has to be spent, even where there can be none.
            lease_of(leased).discard();
            unreachable!()
        }
        Err(fault) => fault,
    }
}

/// No tile is leased.
fn none_leased(answer: Option<Leased<'_>>)
    requires { answer ≡ None }
{
    if let Some(leased) = answer {
        lease_of(leased).discard();
    }
}

/// The lease alone.
fn lease_of(leased: Leased<'_>) -> Lease
    ensures { result ≡ leased.entry.lease }
{
    let Leased {
        lease,
        branch: _,
        mark: _,
        waiting: _,
    } = leased;
    lease
}

impl<'p, T: Table> Worker<'p, T> {
    /// Leases the tile with an id for worker w. Table and runner are made before the lease is asked for, where the tile stands so;
    /// where it doesn't, the book refuses with its entry: where no tile has the id (1), then where it doesn't stand so (2).
    pub(crate) fn lease_wanted(
        alloc: Global,
        book: &mut Book<'p>,
        w: u8,
        id: u64,
        wanted: Wanted,
    ) -> Result<Worker<'p, T>, BookFault>
        requires { IsWorker w }
        ensures book { OnOk result (book.new ≡ book_step book.old w (lease_call wanted id)) }
        ensures worker { IfOk result (λ x. Some x ≡ leased_by book.old w (lease_call wanted id)) }
        ensures holds { IfOk result (λ x. HoldsTile book.new x) }
        ensures refused { IfErr result (Refuses book.old book.new w (lease_call wanted id)) }
    {
        let Some(place) = wanted_place(book, wanted, id) else {
            // The book is asked all the same, so that its refusal has an entry.
            return Err(refusal(asked(book, w, id, wanted)));
        };
        // Before the lease: without memory for a runner no tile is leased in vain.
        let Ok(runner) = runner_of(alloc, book, place) else {
            return Err(BookFault::OutOfMemory);
        };
        let leased = match asked(book, w, id, wanted) {
            Ok(leased) => leased,
            Err(fault) => return Err(fault),
        };
        Ok(Worker {
            lease: lease_of(leased),
            runner,
        })
    }

    /// Leases the tile with an id for worker w. Table and runner are made before the lease is asked for, where the tile waits;
    /// where it doesn't, the book refuses with its entry: where no tile has the id (1), then where it doesn't wait (2).
    pub fn lease(
        alloc: Global,
        book: &mut Book<'p>,
        w: u8,
        id: u64,
    ) -> Result<Worker<'p, T>, BookFault>
        requires { IsWorker w }
        ensures book { OnOk result (book.new ≡ book_step book.old w (calls.Lease id)) }
        ensures worker { IfOk result (λ x. Some x ≡ leased_by book.old w (calls.Lease id)) }
        ensures holds { IfOk result (λ x. HoldsTile book.new x) }
        ensures refused { IfErr result (λ f. Refuses book.old book.new w (calls.Lease id) f) }
    {
        Worker::lease_wanted(alloc, book, w, id, Wanted::Waiting)
    }

    /// The same for a tile that is held.
    pub fn take_held(
        alloc: Global,
        book: &mut Book<'p>,
        w: u8,
        id: u64,
    ) -> Result<Worker<'p, T>, BookFault>
        requires { IsWorker w }
        ensures book { OnOk result (book.new ≡ book_step book.old w (calls.TakeHeld id)) }
        ensures worker { IfOk result (λ x. Some x ≡ leased_by book.old w (calls.TakeHeld id)) }
        ensures holds { IfOk result (λ x. HoldsTile book.new x) }
        ensures refused { IfErr result (λ f. Refuses book.old book.new w (calls.TakeHeld id) f) }
    {
        Worker::lease_wanted(alloc, book, w, id, Wanted::Held)
    }

    /// Leases the first tile that waits, or answers None where none does, which makes no table. Out of memory, nothing has changed.
    pub fn lease_any(
        alloc: Global,
        book: &mut Book<'p>,
        w: u8,
    ) -> Result<Option<Worker<'p, T>>, AllocError>
        requires { IsWorker w }
        ensures book { OnOk result (book.new ≡ book_step book.old w calls.LeaseAny) }
        ensures worker { IfOk result (λ x. x ≡ leased_by book.old w calls.LeaseAny) }
        ensures holds { IfOk result (λ x. IfSome x (HoldsTile book.new)) }
        ensures unchanged { OnErr result (book.new ≡ book.old) }
    {
        let Some(place) = first_waiting(book) else {
            // Asked all the same: that none waits is noted.
            none_leased(book.lease_any(w)?);
            return Ok(None);
        };
        // Before the lease here too.
        let runner = runner_of(alloc, book, place)?;
        let worker = Worker::lease_with(book, w, runner)?;
        Ok(Some(worker))
    }

    /// Leases the first tile that waits, by a runner that stands at its mark: no table is made, and no path is walked. Out of memory,
    /// the book is as it was.
    pub fn lease_with(
        book: &mut Book<'p>,
        w: u8,
        runner: Runner<'p, T>,
    ) -> Result<Worker<'p, T>, AllocError>
        requires small { IsWorker w }
        requires first { StandsAtFirst book.old runner }
        ensures book { OnOk result (book.new ≡ book_step book.old w calls.LeaseAny) }
        ensures worker { IfOk result (λ x. Some x ≡ leased_by book.old w calls.LeaseAny) }
        ensures holds { IfOk result (λ x. HoldsTile book.new x) }
        ensures unchanged { OnErr result (book.new ≡ book.old) }
    {
        book.is_sound();
        let Some(leased) = book.lease_any(w)? else {
            unreachable!()
        };
        Ok(Worker {
            lease: lease_of(leased),
            runner,
        })
    }
}
