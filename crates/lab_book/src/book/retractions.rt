//! Tiles are asked to stop, and what was posted is taken out again.
ghost use Rattle.std.specs.Prelude.{◌≡◌, ◌≤◌, ◌<◌, true, Ok, Err, IfOk, IfErr, OnOk, length};
ghost use Rattle.shared_words.specs.Workers.{IsWorker};
ghost use Rattle.x_steps.specs.StateView.{state_value};
ghost use Rattle.lab_history.specs.declared.entry.Reply.TheVariants as replies;
ghost use Rattle.lab_book.specs.Tile.{is_leased, is_free};
ghost use Rattle.lab_book.specs.Tiling.{tile_at};
ghost use Rattle.lab_book.specs.Book.{retract_fault, back_place};
ghost use Rattle.lab_book.specs.Calls.{Made, Refuses, RefusesBy, ReturnsTo, Finds, Retracts, OutOfMemoryOr, back_to};

use crate::book::Book;
use crate::lease::Lease;
use lab_history::{BookFault, Call, Entry, Grant, Reply};
use std::alloc::AllocError;
use x_branches::Stretch;
use x_steps::{Mark, State};

/// The two states of a stretch, as the history keeps them.
fn ends_of(stretch: &Stretch<'_>) -> Result<(Mark, Mark), AllocError>
    ensures from { IfOk result (λ marks. marks.0 ≡ stretch.now.from) }
    ensures to { IfOk result (λ marks. marks.1 ≡ stretch.now.to) }
{
    let from = stretch.from_mark().copy()?;
    let to = stretch.to_mark().copy()?;
    Ok((from, to))
}

impl<'p> Book<'p> {
    /// Asks the worker of a tile to stop: a tile that waits is held from now on. Refused where no tile has the id (1), then where it
    /// is closed (2).
    pub fn request_stop(&mut self, w: u8, id: u64) -> Result<(), BookFault>
        requires { IsWorker w }
        ensures made { OnOk result (Made self.old self.new w (Call.RequestStop id) replies.Done) }
        ensures refused { IfErr result (λ f. Refuses self.old self.new w (Call.RequestStop id) f) }
    {
        let i = match self.tiles.open_place(id) {
            Ok(i) => i,
            Err(fault) => return Err(self.refuse(w, Call::RequestStop(id), fault)),
        };
        let entry = Entry {
            worker: w,
            call: Call::RequestStop(id),
            reply: Reply::Done,
        };
        let Ok(()) = self.history.keep(1) else {
            return Err(BookFault::OutOfMemory);
        };
        // A tile that waits has no worker who could be told at the next post, so it is held at once.
        let status = self.tiles.tile(i).status().asked();
        self.tiles.settle(i, status, true);
        self.history.add(entry);
        Ok(())
    }

    /// The place of the tile whose last stretch is taken out.
    fn retract_place(&self, lease: Grant) -> Result<usize, BookFault>
        ensures place { Finds result self.now.tiles lease retract_fault }
        ensures within { IfOk result (λ i. i < length self.now.tiles) }
        ensures leased { IfOk result (λ i. is_leased (tile_at self.now.tiles i).status ≡ true) }
        ensures some { IfOk result (λ i. 0 < length (tile_at self.now.tiles i).stretches) }
    {
        let i = match self.tiles.leased_place(lease) {
            Ok(i) => i,
            Err(fault) => return Err(fault),
        };
        if self.tiles.tile(i).stretches().is_empty() {
            Err(BookFault::NothingToRetract)
        } else {
            Ok(i)
        }
    }

    /// Takes the last posted stretch of the leased tile out: the tile's mark is then where it began. Refused where no tile has the
    /// lease's id (1), where the lease isn't its current one (3), and where nothing was posted (9).
    pub fn retract(&mut self, lease: &Lease) -> Result<Stretch<'p>, BookFault>
        ensures made { IfOk result (Retracts self.old self.new lease.now) }
        ensures problem { IfOk result (λ x. x.problem ≡ self.old.problem) }
        ensures refused { IfErr result (RefusesBy self.old self.new lease.now Call.Retract) }
    {
        let lease = lease.grant();
        let i = match self.retract_place(lease) {
            Ok(i) => i,
            Err(fault) => return Err(self.refuse(lease.worker, Call::Retract(lease), fault)),
        };
        // Opened while the tile has it: what is taken out is whole, or it stays.
        let Ok((stretch, mark)) = self.tiles.tile(i).last() else {
            return Err(BookFault::OutOfMemory);
        };
        // Copies for the entry, since the stretch itself goes to the caller.
        let Ok((from, to)) = ends_of(&stretch) else {
            return Err(BookFault::OutOfMemory);
        };
        let entry = Entry {
            worker: lease.worker,
            call: Call::Retract(lease),
            reply: Reply::Retracted { from, to },
        };
        let Ok(()) = self.history.keep(1) else {
            return Err(BookFault::OutOfMemory);
        };
        self.tiles.retract(i, mark);
        self.history.add(entry);
        Ok(stretch)
    }

    /// The place of the tile that goes back to a state, and how many stretches it keeps.
    fn mark_place(&self, id: u64, state: &State) -> Result<(usize, usize), BookFault>
        ensures place { IfOk result (λ x. back_place self.now.tiles id state.now ≡ Ok x.0) }
        ensures within { IfOk result (λ x. x.0 < length self.now.tiles) }
        ensures free { IfOk result (λ x. is_free (tile_at self.now.tiles x.0).status ≡ true) }
        ensures kept { IfOk result
            (λ x. ReturnsTo (tile_at self.now.tiles x.0) (state_value state.now) x.1) }
        ensures refused { IfErr result
            (λ f. OutOfMemoryOr f (back_place self.now.tiles id state.now ≡ Err f)) }
    {
        let Some(i) = self.tiles.place(id) else {
            return Err(BookFault::UnknownBranch);
        };
        let tile = self.tiles.tile(i);
        // A worker who has the tile walks on from its mark, so it isn't moved meanwhile.
        if !tile.status().is_free() {
            return Err(BookFault::NotWaiting);
        }
        match tile.mark_place(state) {
            Ok(Some(count)) => Ok((i, count)),
            Ok(None) => Err(BookFault::NotAMark),
            Err(_) => Err(BookFault::OutOfMemory),
        }
    }

    /// A tile that waits or is held goes back to the first of its marks that is a state: the stretches after it are taken out.
    /// Refused where no tile has the id (1), where it is leased or closed (2), and where the state is none of its marks (7).
    pub fn put_back(&mut self, w: u8, id: u64, state: &State) -> Result<(), BookFault>
        requires { IsWorker w }
        ensures made { OnOk result (Made self.old self.new w (back_to id state.now) replies.Done) }
        ensures refused { IfErr result (Refuses self.old self.new w (back_to id state.now)) }
    {
        // First, since a refusal is noted with the state too.
        let Ok(copy) = Mark::of(state) else {
            return Err(BookFault::OutOfMemory);
        };
        let call = Call::PutBack { id, state: copy };
        let (i, count) = match self.mark_place(id, state) {
            Ok(found) => found,
            Err(fault) => return Err(self.refuse(w, call, fault)),
        };
        // Before room is kept: then nothing that was kept has to be given up again.
        let Ok(mark) = self.tiles.tile(i).mark_after(count) else {
            return Err(BookFault::OutOfMemory);
        };
        let entry = Entry {
            worker: w,
            call,
            reply: Reply::Done,
        };
        let Ok(()) = self.history.keep(1) else {
            return Err(BookFault::OutOfMemory);
        };
        self.tiles.put_back(i, count, mark);
        self.history.add(entry);
        Ok(())
    }
}
