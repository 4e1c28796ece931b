//! Where a worker calls: the desk and the gate that all share, and its own seat and deque.
ghost use Rattle.std.specs.Prelude.{◌≡◌, true, IfErr, OnErr, IsOk};
ghost use Rattle.lab_history.specs.Ending.{call_of_end, is_at_mark};
ghost use Rattle.lab_book.specs.Calls.{CanBeSearched};
ghost use Rattle.lab_desk.specs.Record.{NotesDone, held_in, holds};
ghost use Rattle.lab_pool.specs.Worker.{Abandons, IfLeased, IsLeasedTo, KeepsSeat};

use crate::gate::{Gate, GateCall};
use lab_book::{BookFault, Ending, Lease, Leased, Posted};
use lab_desk::{Desk, Desking, Seat};
use lab_tickets::TicketSeat;
use std::alloc::{AllocError, Global};
use std::sync::Wait;
use std::sync::atomic::{AtomicBool, Ordering};
use x_branches::{Cut, Stretch};
use x_steps::Refused;

/// An act at a station, before and after which the gate is told.
macro_rules! gated {
    ($station:expr, $call:expr, $act:expr) => {{
        let number = $station.seat.number();
        $station.crew.gate.before(number, $call);
        let answer = $act;
        $station.crew.gate.after(number, $call);
        answer
    }};
}

/// What the workers of a pool share.
#[derive(Drop)]
pub(crate) struct Crew<'a, 'p, L: Desking, R, G> {
    pub rt: &'a R,
    pub alloc: Global,
    pub desk: &'a Desk<'p, L>,
    pub gate: &'a G,
    /// Whether a worker ran out of memory.
    pub memory: &'a AtomicBool,
}

/// A worker's place in a pool: what all share, its seat at the desk, and its deque of tickets.
#[derive(Drop)]
pub(crate) struct Station<'a, 'p, L: Desking, R, G> {
    pub crew: &'a Crew<'a, 'p, L, R, G>,
    pub seat: &'a mut Seat<L>,
    pub lane: &'a mut TicketSeat,
}

impl<'p, L: Desking, R: Wait, G: Gate> Station<'_, 'p, L, R, G> {
    /// Notes that memory ran out.
    pub fn lacks_memory(&mut self)
        ensures { self.new.seat.now ≡ self.old.seat.now }
    {
        self.crew.memory.store(true, Ordering::SeqCst);
    }

    /// Leases the tile of a ticket; None where it doesn't wait any more.
    fn lease(&mut self, id: u64) -> Result<Option<Leased<'p>>, AllocError>
        ensures leased { IfLeased result (IsLeasedTo self.new.seat.now) }
        ensures can_start { IfLeased result (CanBeSearched L.whole) }
        ensures number { self.new.seat.now.number ≡ self.old.seat.now.number }
    {
        let leased = gated!(
            self,
            GateCall::Lease,
            self.crew.desk.lease(self.crew.rt, self.seat, id)
        );
        match leased {
            Ok(leased) => Ok(Some(leased)),
            Err(BookFault::OutOfMemory) => Err(AllocError),
            // Tickets aren't taken back: by now another worker may have leased the tile.
            Err(_) => Ok(None),
        }
    }

    /// Leases by a ticket of its own deque.
    fn lease_own(&mut self) -> Result<Option<Leased<'p>>, AllocError>
        ensures leased { IfLeased result (IsLeasedTo self.new.seat.now) }
        ensures can_start { IfLeased result (CanBeSearched L.whole) }
        ensures number { self.new.seat.now.number ≡ self.old.seat.now.number }
    {
        let rt = self.crew.rt;
        // Its own tickets first: nobody else is in the way there, but for a thief.
        'popping: for _ in rt.forever() {
            let Some(id) = self.lane.pop() else {
                return Ok(None);
            };
            if let Some(leased) = self.lease(id)? {
                return Ok(Some(leased));
            }
        }
        Ok(None)
    }

    /// A ticket of the deque of another number, if there is such a seat.
    fn steal(&mut self, from: u8) -> Option<u64>
        ensures { self.new.seat.now ≡ self.old.seat.now }
    {
        // Desk and deques are made with equal numbers, which no contract here tells.
        if from == self.lane.number() || from >= self.lane.seats() {
            return None;
        }
        self.lane.steal(from)
    }

    /// Leases by a ticket of another worker's deque: each is tried once, from the next number round.
    fn lease_stolen(&mut self) -> Result<Option<Leased<'p>>, AllocError>
        ensures leased { IfLeased result (IsLeasedTo self.new.seat.now) }
        ensures can_start { IfLeased result (CanBeSearched L.whole) }
        ensures number { self.new.seat.now.number ≡ self.old.seat.now.number }
    {
        let number = self.seat.number();
        let seats = self.crew.desk.seats();
        // Each worker begins at another deque, so that they don't all steal from one.
        'stealing: for from in (number + 1..seats).chain(0..number) {
            let Some(id) = self.steal(from) else {
                continue;
            };
            self.crew.gate.after(number, GateCall::Steal);
            if let Some(leased) = self.lease(id)? {
                return Ok(Some(leased));
            }
        }
        Ok(None)
    }

    /// Leases the first tile that waits, and waits for one while some is leased.
    fn lease_waiting(&mut self) -> Result<Option<Leased<'p>>, AllocError>
        ensures leased { IfLeased result (IsLeasedTo self.new.seat.now) }
        ensures can_start { IfLeased result (CanBeSearched L.whole) }
        ensures number { self.new.seat.now.number ≡ self.old.seat.now.number }
    {
        gated!(
            self,
            GateCall::Lease,
            self.crew.desk.lease_next(self.crew.rt, self.seat)
        )
    }

    /// Leases a tile: by a ticket of its own, by one that is stolen, or the next that waits; None where
    /// none waits and none is leased.
    pub fn next_tile(&mut self) -> Result<Option<Leased<'p>>, AllocError>
        ensures leased { IfLeased result (IsLeasedTo self.new.seat.now) }
        ensures can_start { IfLeased result (CanBeSearched L.whole) }
        ensures number { self.new.seat.now.number ≡ self.old.seat.now.number }
    {
        if let Some(leased) = self.lease_own()? {
            return Ok(Some(leased));
        }
        if let Some(leased) = self.lease_stolen()? {
            return Ok(Some(leased));
        }
        self.lease_waiting()
    }

    /// Splits a tile.
    pub fn split(&mut self, lease: &Lease, cut: Cut<'p>) -> Result<u64, Refused<BookFault, Cut<'p>>>
        requires worker { lease.now.worker ≡ self.old.seat.now.number }
        requires own { cut.problem ≡ L.whole }
        ensures seat { KeepsSeat self.old.seat.now self.new.seat.now }
    {
        let desk = self.crew.desk;
        gated!(
            self,
            GateCall::Split,
            desk.split_compared(self.crew.rt, self.seat, lease, cut, true)
        )
    }

    /// Posts a stretch.
    pub fn post(
        &mut self,
        lease: &Lease,
        stretch: Stretch<'p>,
    ) -> Result<Posted, Refused<BookFault, Stretch<'p>>>
        requires worker { lease.now.worker ≡ self.old.seat.now.number }
        requires own { stretch.problem ≡ L.whole }
        ensures seat { KeepsSeat self.old.seat.now self.new.seat.now }
    {
        let desk = self.crew.desk;
        gated!(
            self,
            GateCall::Post,
            desk.post_compared(self.crew.rt, self.seat, lease, stretch, true)
        )
    }

    /// Ends a lease.
    pub fn end(&mut self, lease: Lease, ending: Ending) -> Result<(), Refused<BookFault, Lease>>
        requires { lease.worker ≡ self.old.seat.now.number }
        ensures noted { NotesDone self.old.seat.now self.new.seat.now (call_of_end ending lease) result }
        ensures given_back { IfErr result (λ r. r.given ≡ lease) }
        ensures current { is_at_mark ending ≡ true → holds self.old.seat.now.notes lease ≡ true → IsOk result }
        ensures held { OnErr result (held_in self.new.seat.now.notes ≡ held_in self.old.seat.now.notes) }
        ensures number { self.new.seat.now.number ≡ self.old.seat.now.number }
    {
        let desk = self.crew.desk;
        gated!(
            self,
            GateCall::End,
            desk.end(self.crew.rt, self.seat, lease, ending)
        )
    }

    /// Gives a tile up. A lease that the seat holds is given up, whoever else called, and never let go.
    pub fn give_up(&mut self, lease: Lease)
        requires { lease.worker ≡ self.old.seat.now.number }
        ensures abandoned { holds self.old.seat.now.notes lease ≡ true → Abandons self.new.seat.now lease }
        ensures number { self.new.seat.now.number ≡ self.old.seat.now.number }
    {
        let Err(refused) = self.crew.desk.abandon(self.crew.rt, self.seat, lease) else {
            return;
        };
        // Only one that it doesn't hold is refused: there is nothing to give up.
        refused.given.discard();
    }
}
