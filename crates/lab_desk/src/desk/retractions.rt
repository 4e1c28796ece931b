//! Tiles are asked to stop and put back at a desk, and stretches are taken out again.
ghost use Rattle.std.specs.Prelude.{◌≡◌};
ghost use Rattle.lab_history.specs.declared.entry.Call.TheVariants as calls;
ghost use Rattle.lab_book.specs.Calls.{back_to};
ghost use Rattle.lab_desk.specs.Record.{NotesDone, NotesFault, NotesRetract, held_in};

use crate::desk::{Desk, Desking};
use crate::locked::{Locked, follow};
use crate::seat::Seat;
use lab_book::{BookFault, Lease};
use std::marker::Brand;
use std::sync::Wait;
use x_branches::Stretch;
use x_steps::State;

impl<'p, L: Desking> Locked<'p, L> {
    /// Asks the worker of a tile to stop.
    fn request_stop(&mut self, seat: &mut Seat<L>, id: u64) -> Result<(), BookFault>
        ensures noted { NotesDone seat.old seat.new (calls.RequestStop id) result }
        ensures refused { NotesFault seat.old seat.new (calls.RequestStop id) result }
        ensures held { held_in seat.new.notes ≡ held_in seat.old.notes }
        ensures room { seat.new.kept ≡ seat.old.kept }
        ensures number { seat.new.number ≡ seat.old.number }
    {
        called!(self, seat, |book, number| book.request_stop(*number, id))
    }

    /// Puts a tile back to one of its marks.
    fn put_back(&mut self, seat: &mut Seat<L>, id: u64, state: &State) -> Result<(), BookFault>
        ensures noted { NotesDone seat.old seat.new (back_to id state.now) result }
        ensures refused { NotesFault seat.old seat.new (back_to id state.now) result }
        ensures held { held_in seat.new.notes ≡ held_in seat.old.notes }
        ensures room { seat.new.kept ≡ seat.old.kept }
        ensures number { seat.new.number ≡ seat.old.number }
    {
        called!(self, seat, |book, number| book.put_back(*number, id, state))
    }

    /// Takes the last posted stretch out.
    fn retract(&mut self, seat: &mut Seat<L>, lease: &Lease) -> Result<Stretch<'p>, BookFault>
        requires worker { lease.now.worker ≡ seat.old.number }
        ensures noted { NotesRetract seat.old seat.new lease.now result }
        ensures refused { NotesFault seat.old seat.new (calls.Retract lease.now) result }
        ensures held { held_in seat.new.notes ≡ held_in seat.old.notes }
        ensures room { seat.new.kept ≡ seat.old.kept }
        ensures number { seat.new.number ≡ seat.old.number }
    {
        called!(self, seat, |book, _number| book.retract(lease))
    }
}

impl<'p, L: Desking> Desk<'p, L> {
    /// Asks the worker of a tile to stop, as the book does.
    pub fn request_stop<R: Wait>(
        &self,
        rt: &R,
        seat: &mut Seat<L>,
        id: u64,
    ) -> Result<(), BookFault>
        ensures noted { NotesDone seat.old seat.new (calls.RequestStop id) result }
        ensures refused { NotesFault seat.old seat.new (calls.RequestStop id) result }
        ensures held { held_in seat.new.notes ≡ held_in seat.old.notes }
        ensures room { seat.new.kept ≡ seat.old.kept }
        ensures number { seat.new.number ≡ seat.old.number }
    {
        self.lock.lock(rt).request_stop(seat, id)
    }

    /// Puts a tile back to one of its marks, as the book does.
    pub fn put_back<R: Wait>(
        &self,
        rt: &R,
        seat: &mut Seat<L>,
        id: u64,
        state: &State,
    ) -> Result<(), BookFault>
        ensures noted { NotesDone seat.old seat.new (back_to id state.now) result }
        ensures refused { NotesFault seat.old seat.new (back_to id state.now) result }
        ensures held { held_in seat.new.notes ≡ held_in seat.old.notes }
        ensures room { seat.new.kept ≡ seat.old.kept }
        ensures number { seat.new.number ≡ seat.old.number }
    {
        self.lock.lock(rt).put_back(seat, id, state)
    }

    /// Takes the last posted stretch out, as the book does.
    pub fn retract<R: Wait>(
        &self,
        rt: &R,
        seat: &mut Seat<L>,
        lease: &Lease,
    ) -> Result<Stretch<'p>, BookFault>
        requires worker { lease.now.worker ≡ seat.old.number }
        ensures noted { NotesRetract seat.old seat.new lease.now result }
        ensures refused { NotesFault seat.old seat.new (calls.Retract lease.now) result }
        ensures held { held_in seat.new.notes ≡ held_in seat.old.notes }
        ensures room { seat.new.kept ≡ seat.old.kept }
        ensures number { seat.new.number ≡ seat.old.number }
    {
        self.lock.lock(rt).retract(seat, lease)
    }
}
