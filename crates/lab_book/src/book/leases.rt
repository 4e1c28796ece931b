//! Leases are given.
ghost use Rattle.std.specs.Prelude.{◌≡◌, ◌≤◌, ◌<◌, false, length, IfOk, IfErr, OnErr, IfSome};
ghost use Rattle.shared_words.specs.Workers.{IsWorker};
ghost use Rattle.x_steps.specs.StateView.{state_value};
ghost use Rattle.lab_book.specs.Tile.{is_leased, mark_of};
ghost use Rattle.lab_book.specs.Tiling.{tile_at};
ghost use Rattle.lab_book.specs.Book.{outcome, lent, cut_path};
ghost use Rattle.lab_book.specs.Calls.{Made, Refuses, any_reply, CanBeSearched, Leases};

use crate::book::Book;
use crate::lease::{Lease, Leased};
use crate::status::Status;
use crate::tile::Tile;
use lab_history::{BookFault, Call, Entry, Grant, Path, Reply};
use std::alloc::{AllocError, Global};
use x_branches::{Branch, Cut};
use x_steps::Mark;

/// The choices of a cut, if there is one.
fn path_of(alloc: Global, cut: &Option<Cut<'_>>) -> Result<Option<Path>, AllocError>
    ensures { IfOk result (λ path. path ≡ cut_path cut.now) }
{
    match cut {
        Some(cut) => Ok(Some(Path::of(alloc, cut.path())?)),
        None => Ok(None),
    }
}

/// What a worker is given of a tile: its branch, and its mark.
fn copied<'p>(tile: &Tile<'p>) -> Result<(Branch<'p>, Mark), AllocError>
    ensures branch { IfOk result (λ c. c.0 ≡ tile.now.branch) }
    ensures mark { IfOk result (λ c. c.1 ≡ mark_of tile.now) }
{
    let branch = tile.branch().copy()?;
    let mark = tile.own_mark().copy()?;
    Ok((branch, mark))
}

impl<'p> Book<'p> {
    /// The reply to a lease of the tile at a place.
    fn lent_reply(&self, w: u8, i: usize) -> Result<Reply, AllocError>
        requires { i < length self.now.tiles }
        ensures { IfOk result (λ r. r ≡ (lent self.now w i).reply) }
    {
        let tile = self.tiles.tile(i);
        let alloc = *tile.mark().path.allocator();
        let lo = path_of(alloc, tile.lo())?;
        let hi = path_of(alloc, tile.hi())?;
        let mark = tile.own_mark().copy()?;
        let id = tile.id();
        // That of the entry which comes next and holds this reply.
        let index = self.history.len();
        // The reply is made while the tile still waits or is held, and tells how many wait once it is leased.
        let waiting = self.tiles.waiting_beside(i);
        Ok(Reply::Leased {
            lease: Grant {
                id,
                worker: w,
                index,
            },
            lo,
            hi,
            mark,
            waiting,
        })
    }

    /// Leases the tile at a place, and keeps room for the entry that gives it up.
    fn lend(&mut self, w: u8, i: usize, call: Call) -> Result<Leased<'p>, BookFault>
        requires within { i < length self.old.tiles }
        requires free { is_leased (tile_at self.old.tiles i).status ≡ false }
        requires outcome { outcome self.old w call ≡ lent self.old w i }
        ensures made { IfOk result (Leases self.old self.new w call) }
        ensures can_start { IfOk result (CanBeSearched self.old.problem) }
        ensures worker { IfOk result (λ r. r.lease.worker ≡ w) }
        ensures refused { IfErr result (λ f. (f ≡ BookFault.OutOfMemory) × (self.new ≡ self.old)) }
    {
        // All memory is taken before the tile changes: a lease is given whole, or nothing has happened.
        let Ok((branch, mark)) = copied(self.tiles.tile(i)) else {
            return Err(BookFault::OutOfMemory);
        };
        let Ok(reply) = self.lent_reply(w, i) else {
            return Err(BookFault::OutOfMemory);
        };
        let entry = Entry {
            worker: w,
            call,
            reply,
        };
        // Room for this entry and for the one that ends the lease: a tile can always be given up.
        let Ok(()) = self.history.keep(2) else {
            return Err(BookFault::OutOfMemory);
        };
        let index = self.history.len();
        let id = self.tiles.tile(i).id();
        let lease = Grant {
            id,
            worker: w,
            index,
        };
        // Whoever was asked to stop has given the tile up, so the new worker is not asked.
        self.tiles
            .settle(i, Status::Leased { worker: w, index }, false);
        let waiting = self.tiles.waiting();
        self.history.add(entry);
        Ok(Leased {
            lease: Lease::of(lease),
            branch,
            mark,
            waiting,
        })
    }

    /// Leases the tile with an id, which has to wait. Refused where no tile has it (1), then where it doesn't wait (2).
    pub fn lease(&mut self, w: u8, id: u64) -> Result<Leased<'p>, BookFault>
        requires { IsWorker w }
        ensures made { IfOk result (Leases self.old self.new w (Call.Lease id)) }
        ensures can_start { IfOk result (CanBeSearched self.old.problem) }
        ensures worker { IfOk result (λ r. r.lease.worker ≡ w) }
        ensures refused { IfErr result (λ f. Refuses self.old self.new w (Call.Lease id) f) }
    {
        let i = match self.tiles.waiting_place(id) {
            Ok(i) => i,
            Err(fault) => return Err(self.refuse(w, Call::Lease(id), fault)),
        };
        self.lend(w, i, Call::Lease(id))
    }

    /// Leases the first tile that waits, or answers None where none does.
    pub fn lease_any(&mut self, w: u8) -> Result<Option<Leased<'p>>, AllocError>
        requires { IsWorker w }
        ensures made { IfOk result (λ r. Made self.old self.new w Call.LeaseAny (any_reply r)) }
        ensures can_start { IfOk result (λ r. IfSome r (CanBeSearched self.old.problem)) }
        ensures worker { IfOk result (λ r. IfSome r (λ l. l.lease.worker ≡ w)) }
        ensures unchanged { OnErr result (self.new ≡ self.old) }
    {
        // That none waits is an answer and gets its entry; it is no refusal.
        let Some(i) = self.tiles.next_waiting() else {
            let entry = Entry {
                worker: w,
                call: Call::LeaseAny,
                reply: Reply::NoneWaits,
            };
            self.history.keep(1)?;
            self.history.add(entry);
            return Ok(None);
        };
        match self.lend(w, i, Call::LeaseAny) {
            Ok(leased) => Ok(Some(leased)),
            // The tile waits, so nothing but memory can have been wanting.
            Err(_) => Err(AllocError),
        }
    }

    /// Leases the tile with an id, which has to be held: it isn't asked to stop any more. Refused where no tile has the id (1), then
    /// where it isn't held (2).
    pub fn take_held(&mut self, w: u8, id: u64) -> Result<Leased<'p>, BookFault>
        requires { IsWorker w }
        ensures made { IfOk result (Leases self.old self.new w (Call.TakeHeld id)) }
        ensures can_start { IfOk result (CanBeSearched self.old.problem) }
        ensures worker { IfOk result (λ r. r.lease.worker ≡ w) }
        ensures refused { IfErr result (λ f. Refuses self.old self.new w (Call.TakeHeld id) f) }
    {
        let i = match self.tiles.held_place(id) {
            Ok(i) => i,
            Err(fault) => return Err(self.refuse(w, Call::TakeHeld(id), fault)),
        };
        self.lend(w, i, Call::TakeHeld(id))
    }
}
