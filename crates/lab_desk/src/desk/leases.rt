//! Tiles are leased at a desk.
ghost use Rattle.std.specs.Prelude.{◌≡◌, ◌+◌, IfOk, IfErr, OnErr, OnOk, IfSome};
ghost use Rattle.lab_history.specs.declared.entry.Call.TheVariants as calls;
ghost use Rattle.lab_book.specs.Calls.{CanBeSearched};
ghost use Rattle.lab_desk.specs.Record.{NotesLease, NotesAnyLease, NotesFault, KeepsRoomFor, HoldsLease, HoldsAnyLease};

use crate::desk::{Desk, Desking};
use crate::locked::{Locked, follow};
use crate::seat::Seat;
use lab_book::{BookFault, Leased};
use std::alloc::AllocError;
use std::marker::Brand;
use std::sync::Wait;

impl<'p, L: Desking> Locked<'p, L> {
    /// Leases the tile with an id.
    fn lease(&mut self, seat: &mut Seat<L>, id: u64) -> Result<Leased<'p>, BookFault>
        ensures noted { NotesLease seat.old seat.new (calls.Lease id) result }
        ensures refused { NotesFault seat.old seat.new (calls.Lease id) result }
        ensures can_start { IfOk result (CanBeSearched L.whole) }
        ensures worker { IfOk result (λ r. r.lease.worker ≡ seat.old.number) }
        ensures held { HoldsLease seat.old seat.new result }
        ensures room { OnOk result (seat.new.kept ≡ seat.old.kept + 1) }
        ensures room_stays { OnErr result (seat.new.kept ≡ seat.old.kept) }
        ensures number { seat.new.number ≡ seat.old.number }
    {
        called!(self, seat, |book, number| book.lease(*number, id))
    }

    /// Leases the held tile with an id.
    fn take_held(&mut self, seat: &mut Seat<L>, id: u64) -> Result<Leased<'p>, BookFault>
        ensures noted { NotesLease seat.old seat.new (calls.TakeHeld id) result }
        ensures refused { NotesFault seat.old seat.new (calls.TakeHeld id) result }
        ensures can_start { IfOk result (CanBeSearched L.whole) }
        ensures worker { IfOk result (λ r. r.lease.worker ≡ seat.old.number) }
        ensures held { HoldsLease seat.old seat.new result }
        ensures room { OnOk result (seat.new.kept ≡ seat.old.kept + 1) }
        ensures room_stays { OnErr result (seat.new.kept ≡ seat.old.kept) }
        ensures number { seat.new.number ≡ seat.old.number }
    {
        called!(self, seat, |book, number| book.take_held(*number, id))
    }

    /// Leases the first tile that waits, if there is one.
    fn lease_any(&mut self, seat: &mut Seat<L>) -> Result<Option<Leased<'p>>, AllocError>
        ensures noted { NotesAnyLease seat.old seat.new result }
        ensures unchanged { OnErr result (seat.new.notes ≡ seat.old.notes) }
        ensures can_start { IfOk result (λ r. IfSome r (CanBeSearched L.whole)) }
        ensures worker { IfOk result (λ r. IfSome r (λ l. l.lease.worker ≡ seat.old.number)) }
        ensures held { HoldsAnyLease seat.old seat.new result }
        ensures room { IfOk result (λ r. KeepsRoomFor r seat.old seat.new) }
        ensures room_stays { OnErr result (seat.new.kept ≡ seat.old.kept) }
        ensures number { seat.new.number ≡ seat.old.number }
    {
        called!(self, seat, |book, number| book.lease_any(*number))
    }
}

impl<'p, L: Desking> Desk<'p, L> {
    /// Leases the tile with an id, as the book does.
    pub fn lease<R: Wait>(
        &self,
        rt: &R,
        seat: &mut Seat<L>,
        id: u64,
    ) -> Result<Leased<'p>, BookFault>
        ensures noted { NotesLease seat.old seat.new (calls.Lease id) result }
        ensures refused { NotesFault seat.old seat.new (calls.Lease id) result }
        ensures can_start { IfOk result (CanBeSearched L.whole) }
        ensures worker { IfOk result (λ r. r.lease.worker ≡ seat.old.number) }
        ensures held { HoldsLease seat.old seat.new result }
        ensures room { OnOk result (seat.new.kept ≡ seat.old.kept + 1) }
        ensures room_stays { OnErr result (seat.new.kept ≡ seat.old.kept) }
        ensures number { seat.new.number ≡ seat.old.number }
    {
        self.lock.lock(rt).lease(seat, id)
    }

    /// Leases the held tile with an id, as the book does.
    pub fn take_held<R: Wait>(
        &self,
        rt: &R,
        seat: &mut Seat<L>,
        id: u64,
    ) -> Result<Leased<'p>, BookFault>
        ensures noted { NotesLease seat.old seat.new (calls.TakeHeld id) result }
        ensures refused { NotesFault seat.old seat.new (calls.TakeHeld id) result }
        ensures can_start { IfOk result (CanBeSearched L.whole) }
        ensures worker { IfOk result (λ r. r.lease.worker ≡ seat.old.number) }
        ensures held { HoldsLease seat.old seat.new result }
        ensures room { OnOk result (seat.new.kept ≡ seat.old.kept + 1) }
        ensures room_stays { OnErr result (seat.new.kept ≡ seat.old.kept) }
        ensures number { seat.new.number ≡ seat.old.number }
    {
        self.lock.lock(rt).take_held(seat, id)
    }

    /// Waits while no tile waits and some tile is leased, and then leases the first that waits, if
    /// there is one.
    pub fn lease_next<R: Wait>(
        &self,
        rt: &R,
        seat: &mut Seat<L>,
    ) -> Result<Option<Leased<'p>>, AllocError>
        ensures noted { NotesAnyLease seat.old seat.new result }
        ensures unchanged { OnErr result (seat.new.notes ≡ seat.old.notes) }
        ensures can_start { IfOk result (λ r. IfSome r (CanBeSearched L.whole)) }
        ensures worker { IfOk result (λ r. IfSome r (λ l. l.lease.worker ≡ seat.old.number)) }
        ensures held { HoldsAnyLease seat.old seat.new result }
        ensures room { IfOk result (λ r. KeepsRoomFor r seat.old seat.new) }
        ensures room_stays { OnErr result (seat.new.kept ≡ seat.old.kept) }
        ensures number { seat.new.number ≡ seat.old.number }
    {
        // A leased tile may yet be split or given up, so with one there is something to wait for.
        let mut locked = self.changed.wait_while(rt, self.lock.lock(rt), |locked| {
            locked.book.waiting() == 0 && locked.book.leased() > 0
        });
        locked.lease_any(seat)
    }
}
