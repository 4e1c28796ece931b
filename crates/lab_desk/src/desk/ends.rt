//! Leases are ended at a desk.
ghost use Rattle.std.specs.Prelude.{◌≡◌, ◌-◌, true, IfErr, OnErr, OnOk, IsOk};
ghost use Rattle.lab_history.specs.declared.entry.Call.TheVariants as calls;
ghost use Rattle.lab_desk.specs.Record.{NotesDone, NotesRefused, HoldsOthers, ends_lease, holds};
ghost use Rattle.lab_history.specs.Ending.{call_of_end, is_at_mark};

use crate::desk::{Desk, Desking};
use crate::locked::{Locked, follow};
use crate::seat::Seat;
use lab_book::{BookFault, Ending, Lease};
use std::marker::Brand;
use std::sync::Wait;
use x_steps::Refused;

impl<'p, L: Desking> Locked<'p, L> {
    /// Ends a lease so.
    fn end(
        &mut self,
        seat: &mut Seat<L>,
        lease: Lease,
        ending: Ending,
    ) -> Result<(), Refused<BookFault, Lease>>
        requires { lease.worker ≡ seat.old.number }
        ensures noted { NotesDone seat.old seat.new (call_of_end ending lease) result }
        ensures refused { NotesRefused seat.old seat.new (call_of_end ending lease) result }
        ensures given_back { IfErr result (λ r. r.given ≡ lease) }
        ensures current { is_at_mark ending ≡ true → holds seat.old.notes lease ≡ true → IsOk result }
        ensures held { HoldsOthers seat.old seat.new lease result }
        ensures room { OnOk result (seat.new.kept ≡ seat.old.kept - 1) }
        ensures room_stays { OnErr result (seat.new.kept ≡ seat.old.kept) }
        ensures number { seat.new.number ≡ seat.old.number }
    {
        called!(self, seat, |book, _number| book.end(lease, ending))
    }
}

impl<'p, L: Desking> Desk<'p, L> {
    /// Ends a lease, as the book does: its tile is parked, abandoned or closed. A park or an abandon of a
    /// lease that the seat holds is never refused, whoever else called; nor is memory taken for it.
    pub fn end<R: Wait>(
        &self,
        rt: &R,
        seat: &mut Seat<L>,
        lease: Lease,
        ending: Ending,
    ) -> Result<(), Refused<BookFault, Lease>>
        requires { lease.worker ≡ seat.old.number }
        ensures noted { NotesDone seat.old seat.new (call_of_end ending lease) result }
        ensures refused { NotesRefused seat.old seat.new (call_of_end ending lease) result }
        ensures given_back { IfErr result (λ r. r.given ≡ lease) }
        ensures current { is_at_mark ending ≡ true → holds seat.old.notes lease ≡ true → IsOk result }
        ensures held { HoldsOthers seat.old seat.new lease result }
        ensures room { OnOk result (seat.new.kept ≡ seat.old.kept - 1) }
        ensures room_stays { OnErr result (seat.new.kept ≡ seat.old.kept) }
        ensures number { seat.new.number ≡ seat.old.number }
    {
        let done = self.lock.lock(rt).end(seat, lease, ending);
        // Its tile waits again, or with it the last leased one is gone: who waits has to look.
        self.changed.notify_all();
        done
    }

    /// Parks the tile that is leased, as the book does. A lease that the seat holds is never
    /// refused, whoever else called; nor is memory taken for it.
    pub fn park<R: Wait>(
        &self,
        rt: &R,
        seat: &mut Seat<L>,
        lease: Lease,
    ) -> Result<(), Refused<BookFault, Lease>>
        requires { lease.worker ≡ seat.old.number }
        ensures noted { NotesDone seat.old seat.new (calls.Park lease) result }
        ensures refused { NotesRefused seat.old seat.new (calls.Park lease) result }
        ensures given_back { IfErr result (λ r. r.given ≡ lease) }
        ensures current { holds seat.old.notes lease ≡ true → IsOk result }
        ensures held { HoldsOthers seat.old seat.new lease result }
        ensures room { OnOk result (seat.new.kept ≡ seat.old.kept - 1) }
        ensures room_stays { OnErr result (seat.new.kept ≡ seat.old.kept) }
        ensures number { seat.new.number ≡ seat.old.number }
    {
        self.end(rt, seat, lease, Ending::Park)
    }

    /// Gives the tile up that is leased, as the book does. A lease that the seat holds is never
    /// refused, whoever else called; nor is memory taken for it.
    pub fn abandon<R: Wait>(
        &self,
        rt: &R,
        seat: &mut Seat<L>,
        lease: Lease,
    ) -> Result<(), Refused<BookFault, Lease>>
        requires { lease.worker ≡ seat.old.number }
        ensures noted { NotesDone seat.old seat.new (calls.Abandon lease) result }
        ensures refused { NotesRefused seat.old seat.new (calls.Abandon lease) result }
        ensures given_back { IfErr result (λ r. r.given ≡ lease) }
        ensures current { holds seat.old.notes lease ≡ true → IsOk result }
        ensures held { HoldsOthers seat.old seat.new lease result }
        ensures room { OnOk result (seat.new.kept ≡ seat.old.kept - 1) }
        ensures room_stays { OnErr result (seat.new.kept ≡ seat.old.kept) }
        ensures number { seat.new.number ≡ seat.old.number }
    {
        self.end(rt, seat, lease, Ending::Abandon)
    }

    /// Closes the tile that is leased, as the book does.
    pub fn close<R: Wait>(
        &self,
        rt: &R,
        seat: &mut Seat<L>,
        lease: Lease,
    ) -> Result<(), Refused<BookFault, Lease>>
        requires { lease.worker ≡ seat.old.number }
        ensures noted { NotesDone seat.old seat.new (calls.Close lease) result }
        ensures refused { NotesRefused seat.old seat.new (calls.Close lease) result }
        ensures given_back { IfErr result (λ r. r.given ≡ lease) }
        ensures held { HoldsOthers seat.old seat.new lease result }
        ensures room { OnOk result (seat.new.kept ≡ seat.old.kept - 1) }
        ensures room_stays { OnErr result (seat.new.kept ≡ seat.old.kept) }
        ensures number { seat.new.number ≡ seat.old.number }
    {
        self.end(rt, seat, lease, Ending::Close)
    }
}
