//! What workers walked is posted at a desk, and their tiles are split.
ghost use Rattle.std.specs.Prelude.{◌≡◌, IfErr};
ghost use Rattle.cover_problem.specs.Problem.{is_same};
ghost use Rattle.lab_desk.specs.Record.{NotesPost, NotesPostFault, NotesSplit, NotesSplitFault, held_in};

use crate::desk::{Desk, Desking};
use crate::locked::{Locked, follow};
use crate::seat::Seat;
use lab_book::{BookFault, Lease, Posted};
use std::marker::Brand;
use std::sync::Wait;
use x_branches::{Cut, Stretch};
use x_steps::Refused;

impl<'p, L: Desking> Locked<'p, L> {
    /// Posts a stretch.
    fn post_compared(
        &mut self,
        seat: &mut Seat<L>,
        lease: &Lease,
        stretch: Stretch<'p>,
        same: bool,
    ) -> Result<Posted, Refused<BookFault, Stretch<'p>>>
        requires worker { lease.now.worker ≡ seat.old.number }
        requires same { same ≡ is_same stretch.problem L.whole }
        ensures noted { NotesPost L.whole seat.old seat.new lease.now stretch.entry result }
        ensures refused { NotesPostFault L.whole seat.old seat.new lease.now stretch.entry result }
        ensures given_back { IfErr result (λ r. r.given ≡ stretch.entry) }
        ensures held { held_in seat.new.notes ≡ held_in seat.old.notes }
        ensures room { seat.new.kept ≡ seat.old.kept }
        ensures number { seat.new.number ≡ seat.old.number }
    {
        called!(
            self,
            seat,
            |book, _number| book.post_compared(lease, stretch, same)
        )
    }

    /// Splits the tile that is leased.
    fn split_compared(
        &mut self,
        seat: &mut Seat<L>,
        lease: &Lease,
        cut: Cut<'p>,
        same: bool,
    ) -> Result<u64, Refused<BookFault, Cut<'p>>>
        requires worker { lease.now.worker ≡ seat.old.number }
        requires same { same ≡ is_same cut.problem L.whole }
        ensures noted { NotesSplit L.whole seat.old seat.new lease.now cut.entry result }
        ensures refused { NotesSplitFault L.whole seat.old seat.new lease.now cut.entry result }
        ensures given_back { IfErr result (λ r. r.given ≡ cut.entry) }
        ensures held { held_in seat.new.notes ≡ held_in seat.old.notes }
        ensures room { seat.new.kept ≡ seat.old.kept }
        ensures number { seat.new.number ≡ seat.old.number }
    {
        called!(
            self,
            seat,
            |book, _number| book.split_compared(lease, cut, same)
        )
    }
}

impl<'p, L: Desking> Desk<'p, L> {
    /// Posts a stretch, as the book does.
    pub fn post<R: Wait>(
        &self,
        rt: &R,
        seat: &mut Seat<L>,
        lease: &Lease,
        stretch: Stretch<'p>,
    ) -> Result<Posted, Refused<BookFault, Stretch<'p>>>
        requires { lease.now.worker ≡ seat.old.number }
        ensures noted { NotesPost L.whole seat.old seat.new lease.now stretch.entry result }
        ensures refused { NotesPostFault L.whole seat.old seat.new lease.now stretch.entry result }
        ensures given_back { IfErr result (λ r. r.given ≡ stretch.entry) }
        ensures held { held_in seat.new.notes ≡ held_in seat.old.notes }
        ensures room { seat.new.kept ≡ seat.old.kept }
        ensures number { seat.new.number ≡ seat.old.number }
    {
        // Compared before the lock is taken: it takes a while, and the others wait for the lock.
        let same = stretch.problem().same(self.problem);
        self.post_compared(rt, seat, lease, stretch, same)
    }

    /// The same, with the answer of the comparison of the stretch's problem and the desk's: who knows that
    /// they are the same compares nothing.
    pub fn post_compared<R: Wait>(
        &self,
        rt: &R,
        seat: &mut Seat<L>,
        lease: &Lease,
        stretch: Stretch<'p>,
        same: bool,
    ) -> Result<Posted, Refused<BookFault, Stretch<'p>>>
        requires worker { lease.now.worker ≡ seat.old.number }
        requires same { same ≡ is_same stretch.problem L.whole }
        ensures noted { NotesPost L.whole seat.old seat.new lease.now stretch.entry result }
        ensures refused { NotesPostFault L.whole seat.old seat.new lease.now stretch.entry result }
        ensures given_back { IfErr result (λ r. r.given ≡ stretch.entry) }
        ensures held { held_in seat.new.notes ≡ held_in seat.old.notes }
        ensures room { seat.new.kept ≡ seat.old.kept }
        ensures number { seat.new.number ≡ seat.old.number }
    {
        self.lock.lock(rt).post_compared(seat, lease, stretch, same)
    }

    /// Splits the tile that is leased, as the book does.
    pub fn split<R: Wait>(
        &self,
        rt: &R,
        seat: &mut Seat<L>,
        lease: &Lease,
        cut: Cut<'p>,
    ) -> Result<u64, Refused<BookFault, Cut<'p>>>
        requires { lease.now.worker ≡ seat.old.number }
        ensures noted { NotesSplit L.whole seat.old seat.new lease.now cut.entry result }
        ensures refused { NotesSplitFault L.whole seat.old seat.new lease.now cut.entry result }
        ensures given_back { IfErr result (λ r. r.given ≡ cut.entry) }
        ensures held { held_in seat.new.notes ≡ held_in seat.old.notes }
        ensures room { seat.new.kept ≡ seat.old.kept }
        ensures number { seat.new.number ≡ seat.old.number }
    {
        // Compared outside the lock, as a stretch's.
        let same = cut.problem().same(self.problem);
        self.split_compared(rt, seat, lease, cut, same)
    }

    /// The same, with the answer of the comparison of the cut's problem and the desk's.
    pub fn split_compared<R: Wait>(
        &self,
        rt: &R,
        seat: &mut Seat<L>,
        lease: &Lease,
        cut: Cut<'p>,
        same: bool,
    ) -> Result<u64, Refused<BookFault, Cut<'p>>>
        requires worker { lease.now.worker ≡ seat.old.number }
        requires same { same ≡ is_same cut.problem L.whole }
        ensures noted { NotesSplit L.whole seat.old seat.new lease.now cut.entry result }
        ensures refused { NotesSplitFault L.whole seat.old seat.new lease.now cut.entry result }
        ensures given_back { IfErr result (λ r. r.given ≡ cut.entry) }
        ensures held { held_in seat.new.notes ≡ held_in seat.old.notes }
        ensures room { seat.new.kept ≡ seat.old.kept }
        ensures number { seat.new.number ≡ seat.old.number }
    {
        let id = self.lock.lock(rt).split_compared(seat, lease, cut, same);
        // A tile waits now, for which some worker may wait.
        self.changed.notify_all();
        id
    }
}
