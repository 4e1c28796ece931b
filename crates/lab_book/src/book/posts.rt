//! Stretches are posted.
ghost use Rattle.std.specs.Prelude.{◌≡◌, ◌<◌, true, None, length, IfOk, IfErr, OnErr};
ghost use Rattle.cover_problem.specs.Problem.{is_same};
ghost use Rattle.lab_history.specs.declared.entry.Call.TheVariants as calls;
ghost use Rattle.lab_book.specs.Tile.{is_leased};
ghost use Rattle.lab_book.specs.Tiling.{tile_at};
ghost use Rattle.lab_book.specs.Book.{outcome, posted, post_fault};
ghost use Rattle.lab_book.specs.Calls.{Made, Posts, PostRefused, Doubted, posted_reply, post_of, Finds, RefusedIf};

use crate::book::{Book, out_of_memory};
use crate::lease::{Lease, Posted};
use crate::tiles::stale;
use lab_history::{BookFault, Call, Entry, Grant, Reply};
use std::alloc::AllocError;
use std::cmp::Ordering;
use x_branches::{Stretch, run_order};
use x_steps::{Mark, Refused};

/// A post, as the history keeps it.
fn post_call(lease: Grant, stretch: &Stretch<'_>, same: bool) -> Result<Call, AllocError>
    ensures { IfOk result (λ call. call ≡ calls.Post lease stretch.now.from stretch.now.to same) }
{
    let from = stretch.from_mark().copy()?;
    let to = stretch.to_mark().copy()?;
    Ok(Call::Post {
        lease,
        from,
        to,
        same,
    })
}

impl<'p> Book<'p> {
    /// What stands against a post to the tile at a place, whose lease is the right one.
    fn against_post(&self, i: usize, stretch: &Stretch<'_>, same: bool) -> Option<BookFault>
        requires within { i < length self.now.tiles }
        requires same { same ≡ is_same stretch.now.problem self.now.problem }
        ensures { Doubted result (post_fault self.now stretch.now same (tile_at self.now.tiles i)) }
    {
        // First of all: states of two problems say nothing of each other.
        if !same {
            return Some(BookFault::ForeignProblem);
        }
        let tile = self.tiles.tile(i);
        // A gap or an overlap is told with the mark, from which the worker can walk again.
        if !stretch.from().same(tile.mark()) {
            return Some(stale(tile));
        }
        // A stretch may reach the end of the tile; it must not pass it.
        match run_order(tile.end(), stretch.to()) {
            Ordering::Less => Some(BookFault::BeyondEnd),
            _ => None,
        }
    }

    /// The place of the tile that a stretch is posted to.
    fn post_place(
        &self,
        lease: Grant,
        stretch: &Stretch<'_>,
        same: bool,
    ) -> Result<usize, BookFault>
        requires { same ≡ is_same stretch.now.problem self.now.problem }
        ensures place { Finds result self.now.tiles lease (post_fault self.now stretch.now same) }
        ensures within { IfOk result (λ i. i < length self.now.tiles) }
        ensures leased { IfOk result (λ i. is_leased (tile_at self.now.tiles i).status ≡ true) }
        ensures fine { IfOk result (λ i.
            post_fault self.now stretch.now same (tile_at self.now.tiles i) ≡ None) }
    {
        let i = match self.tiles.leased_place(lease) {
            Ok(i) => i,
            Err(fault) => return Err(fault),
        };
        match self.against_post(i, stretch, same) {
            Some(fault) => Err(fault),
            None => Ok(i),
        }
    }

    /// Adds a stretch to the tile at a place.
    fn commit_post(
        &mut self,
        w: u8,
        i: usize,
        call: Call,
        stretch: Stretch<'p>,
    ) -> Result<Posted, Stretch<'p>>
        requires within { i < length self.old.tiles }
        requires leased { is_leased (tile_at self.old.tiles i).status ≡ true }
        requires same { stretch.problem ≡ self.old.problem }
        requires fine { post_fault self.old stretch true (tile_at self.old.tiles i) ≡ None }
        requires outcome { outcome self.old w call ≡ posted self.old stretch.from stretch.to i }
        ensures made { IfOk result (λ r. Made self.old self.new w call (posted_reply r)) }
        ensures unchanged { OnErr result (self.new ≡ self.old) }
        ensures given_back { IfErr result (λ s. s ≡ stretch.entry) }
    {
        // For the proof: its states are of the problem's run, so the tile stays one.
        stretch.is_sound();
        self.count_calls();
        // Before the tile changes: its entry must not fail then.
        let Ok(()) = self.history.keep(1) else {
            return Err(stretch);
        };
        if let Err(stretch) = self.tiles.add(i, stretch) {
            // The tile is as it was, so the room goes back too.
            self.history.give_up();
            return Err(stretch);
        }
        let stop = self.tiles.tile(i).stop();
        let waiting = self.tiles.waiting();
        self.history.add(Entry {
            worker: w,
            call,
            reply: Reply::Posted { stop, waiting },
        });
        Ok(Posted { stop, waiting })
    }

    /// Adds a stretch to the tile that is leased: the tile's mark is then the stretch's end. Refused where no tile has the lease's
    /// id (1), where the lease isn't its current one (3), where the stretch is another problem's (4), where it doesn't begin at
    /// the mark (3), and where it ends after the tile (6); the stretch comes back.
    pub fn post(
        &mut self,
        lease: &Lease,
        stretch: Stretch<'p>,
    ) -> Result<Posted, Refused<BookFault, Stretch<'p>>>
        ensures made { IfOk result (λ r. Posts self.old self.new lease.now stretch.entry r) }
        ensures refused { RefusedIf result (PostRefused self.old self.new lease.now stretch.entry) }
        ensures given_back { IfErr result (λ r. r.given ≡ stretch.entry) }
    {
        let same = stretch.problem().same(self.problem);
        self.post_compared(lease, stretch, same)
    }

    /// The same as `post`, with the answer of the comparison of the stretch's problem and the book's: it goes over both, and a
    /// caller that shares the book can make it before.
    pub fn post_compared(
        &mut self,
        lease: &Lease,
        stretch: Stretch<'p>,
        same: bool,
    ) -> Result<Posted, Refused<BookFault, Stretch<'p>>>
        requires { same ≡ is_same stretch.problem self.old.problem }
        ensures made { IfOk result (λ r. Posts self.old self.new lease.now stretch.entry r) }
        ensures refused { RefusedIf result (PostRefused self.old self.new lease.now stretch.entry) }
        ensures given_back { IfErr result (λ r. r.given ≡ stretch.entry) }
    {
        let lease = lease.grant();
        let Ok(call) = post_call(lease, &stretch, same) else {
            return Err(out_of_memory(stretch));
        };
        let i = match self.post_place(lease, &stretch, same) {
            Ok(i) => i,
            Err(fault) => return Err(self.hand_back(lease.worker, call, fault, stretch)),
        };
        match self.commit_post(lease.worker, i, call, stretch) {
            Ok(posted) => Ok(posted),
            Err(stretch) => Err(out_of_memory(stretch)),
        }
    }
}
