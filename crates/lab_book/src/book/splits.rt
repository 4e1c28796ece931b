//! Tiles are split.
ghost use Rattle.std.specs.Prelude.{◌≡◌, ◌<◌, true, None, length, IfOk, IfErr, OnErr};
ghost use Rattle.cover_problem.specs.Problem.{is_same};
ghost use Rattle.x_branches.specs.Cut.{cut_state};
ghost use Rattle.x_steps.specs.StateView.{state_value};
ghost use Rattle.lab_history.specs.declared.entry.Call.TheVariants as calls;
ghost use Rattle.lab_history.specs.declared.entry.Reply.TheVariants as replies;
ghost use Rattle.lab_book.specs.Tile.{is_leased};
ghost use Rattle.lab_book.specs.Tiling.{tile_at};
ghost use Rattle.lab_book.specs.Book.{outcome, split, ended_tile, split_fault};
ghost use Rattle.lab_book.specs.Calls.{Made, Splits, SplitRefused, Doubted, Finds, RefusedIf, split_of};

use crate::book::{Book, out_of_memory};
use crate::lease::Lease;
use crate::tile::Tile;
use lab_history::{BookFault, Call, Entry, Grant, Path, Reply};
use std::alloc::{AllocError, Global};
use std::cmp::Ordering;
use x_branches::{Cut, run_order};
use x_steps::{Refused, State};

/// A split, as the history keeps it, and the tile that it takes.
fn copied<'p>(
    alloc: Global,
    lease: Grant,
    cut: &Cut<'p>,
    same: bool,
) -> Result<(Call, Tile<'p>), AllocError>
    ensures call { IfOk result (λ c. c.0 ≡ calls.Split lease cut.now.path same) }
    ensures tail { IfOk result (λ c. c.1 ≡ ended_tile cut.now) }
{
    let path = Path::of(alloc, cut.path())?;
    // Made while nothing has changed: parting the tile then takes no memory.
    let tail = Tile::ended(alloc, cut)?;
    Ok((Call::Split { lease, path, same }, tail))
}

impl<'p> Book<'p> {
    /// What stands against a split of the tile at a place, whose lease is the right one, at a cut with this state.
    fn against_split(&self, i: usize, cut: &Cut<'_>, state: &State, same: bool) -> Option<BookFault>
        requires within { i < length self.now.tiles }
        requires same { same ≡ is_same cut.now.problem self.now.problem }
        requires state { state_value state.now ≡ cut_state cut.now.path }
        ensures { Doubted result (split_fault self.now cut.now same (tile_at self.now.tiles i)) }
    {
        if !same {
            return Some(BookFault::ForeignProblem);
        }
        // For the proof: its state is one of the run, and so can be compared.
        cut.is_sound();
        let tile = self.tiles.tile(i);
        // Both strictly: a cut at the mark or at the end would leave one of the two nothing to search.
        let Ordering::Less = run_order(tile.mark(), state) else {
            return Some(BookFault::NotAfterMark);
        };
        let Ordering::Less = run_order(state, tile.end()) else {
            return Some(BookFault::BeyondEnd);
        };
        None
    }

    /// The place of the tile that is split at a cut with this state.
    fn split_place(
        &self,
        lease: Grant,
        cut: &Cut<'_>,
        state: &State,
        same: bool,
    ) -> Result<usize, BookFault>
        requires same { same ≡ is_same cut.now.problem self.now.problem }
        requires state { state_value state.now ≡ cut_state cut.now.path }
        ensures place { Finds result self.now.tiles lease (split_fault self.now cut.now same) }
        ensures within { IfOk result (λ i. i < length self.now.tiles) }
        ensures leased { IfOk result (λ i. is_leased (tile_at self.now.tiles i).status ≡ true) }
        ensures fine { IfOk result
            (λ i. split_fault self.now cut.now same (tile_at self.now.tiles i) ≡ None) }
    {
        let i = match self.tiles.leased_place(lease) {
            Ok(i) => i,
            Err(fault) => return Err(fault),
        };
        match self.against_split(i, cut, state, same) {
            Some(fault) => Err(fault),
            None => Ok(i),
        }
    }

    /// Splits the tile at a place.
    fn commit_split(
        &mut self,
        w: u8,
        i: usize,
        call: Call,
        cut: Cut<'p>,
        tail: Tile<'p>,
    ) -> Result<u64, Cut<'p>>
        requires within { i < length self.old.tiles }
        requires leased { is_leased (tile_at self.old.tiles i).status ≡ true }
        requires same { cut.problem ≡ self.old.problem }
        requires fine { split_fault self.old cut true (tile_at self.old.tiles i) ≡ None }
        requires tail { tail ≡ ended_tile cut }
        requires outcome { outcome self.old w call ≡ split self.old cut.path i }
        ensures made { IfOk result (λ id. Made self.old self.new w call (replies.Split id)) }
        ensures unchanged { OnErr result (self.new ≡ self.old) }
        ensures given_back { IfErr result (λ c. c ≡ cut.entry) }
    {
        cut.is_sound();
        // Before the tiles change: a split is never undone, so its entry must not fail.
        let Ok(()) = self.history.keep(1) else {
            return Err(cut);
        };
        let id = match self.tiles.split(i, cut, tail) {
            Ok(id) => id,
            Err(cut) => {
                self.history.give_up();
                return Err(cut);
            }
        };
        self.history.add(Entry {
            worker: w,
            call,
            reply: Reply::Split(id),
        });
        Ok(id)
    }

    /// Ends the tile that is leased at a cut; a tile that waits goes on from there, and its id comes back: the number of tiles
    /// before. What was posted stays before the cut. Refused where no tile has the lease's id (1), where the lease isn't its current
    /// one (3), where the cut is another problem's (4), where it isn't after the mark (5), and where it isn't before the tile's
    /// end (6); the cut comes back.
    pub fn split(&mut self, lease: &Lease, cut: Cut<'p>) -> Result<u64, Refused<BookFault, Cut<'p>>>
        ensures made { IfOk result (λ id. Splits self.old self.new lease.now cut.entry id) }
        ensures refused { RefusedIf result (SplitRefused self.old self.new lease.now cut.entry) }
        ensures given_back { IfErr result (λ r. r.given ≡ cut.entry) }
    {
        let same = cut.problem().same(self.problem);
        self.split_compared(lease, cut, same)
    }

    /// The same as `split`, with the answer of the comparison of the cut's problem and the book's: it goes over both, and a caller
    /// that shares the book can make it before.
    pub fn split_compared(
        &mut self,
        lease: &Lease,
        cut: Cut<'p>,
        same: bool,
    ) -> Result<u64, Refused<BookFault, Cut<'p>>>
        requires { same ≡ is_same cut.problem self.old.problem }
        ensures made { IfOk result (λ id. Splits self.old self.new lease.now cut.entry id) }
        ensures refused { RefusedIf result (SplitRefused self.old self.new lease.now cut.entry) }
        ensures given_back { IfErr result (λ r. r.given ≡ cut.entry) }
    {
        let lease = lease.grant();
        let alloc = *self.first.state().path.allocator();
        let Ok((call, tail)) = copied(alloc, lease, &cut, same) else {
            return Err(out_of_memory(cut));
        };
        // The new tile, as it is made, ends at the cut: so its end is the cut's state, and no other is made.
        let i = match self.split_place(lease, &cut, tail.end(), same) {
            Ok(i) => i,
            Err(fault) => return Err(self.hand_back(lease.worker, call, fault, cut)),
        };
        match self.commit_split(lease.worker, i, call, cut, tail) {
            Ok(id) => Ok(id),
            Err(cut) => Err(out_of_memory(cut)),
        }
    }
}
