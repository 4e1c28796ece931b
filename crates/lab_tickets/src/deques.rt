//! A seat's own deque, and what it has of another seat's.
ghost use Rattle.std.specs.Prelude.{◌≡◌, [], IfOk};
ghost use Rattle.crossbeam_deque.specs.Handles.{view, IsPassOf, stealer_deque, stealer_flavor, worker_view, worker_deque, worker_port, worker_flavor};
ghost use Rattle.lab_tickets.specs.Rule.{tally};
ghost use Rattle.lab_tickets.specs.TicketView.{TakesTicket};
ghost use Rattle.lab_tickets.specs.Own.{PushesTicket, RefusesTicket, PopsTicket, StealsFrom};

use crate::rule::{Pushing, Taking, Tally, TicketRule};
use crossbeam_deque::{Pass, Stealer, Worker};
use std::alloc::{AllocError, Global};

/// How many tickets a new deque has room for before it grows.
const FIRST_ROOM: usize = 64;

/// A deque that its seat owns, out of which the oldest ticket comes first.
#[derive(Drop)]
pub struct OwnDeque {
    pub(crate) worker: Worker<u64, Global, Tally, TicketRule>,
    ghost first: { worker_port worker ≡ 0 },
    ghost oldest_first: { worker_flavor worker ≡ 0 },
}

impl OwnDeque {
    /// A deque with nothing in it.
    pub fn new(alloc: Global) -> Result<OwnDeque, AllocError>
        ensures { IfOk result (λ d. worker_view d.worker ≡ tally [] []) }
    {
        // First in, first out, at both ends: owner and thieves take the ticket that waits the longest.
        let worker = Worker::<u64, Global, Tally, TicketRule>::fifo_as(alloc, FIRST_ROOM)?;
        Ok(OwnDeque { worker })
    }

    /// Adds a ticket, or hands it back where the deque can't grow.
    pub fn push(&mut self, id: u64) -> Result<(), u64>
        ensures same { worker_deque self.new.worker ≡ worker_deque self.old.worker }
        ensures pushed { PushesTicket result self.old.worker self.new.worker id }
        ensures refused { RefusesTicket result self.old.worker self.new.worker id }
    {
        self.worker.push_as::<Pushing>(id)
    }

    /// Takes the oldest ticket out.
    pub fn pop(&mut self) -> Option<u64>
        ensures same { worker_deque self.new.worker ≡ worker_deque self.old.worker }
        ensures taken { PopsTicket result self.old.worker self.new.worker }
    {
        self.worker.pop_as::<Taking>()
    }

    /// What another seat needs to steal from this deque.
    pub fn other(&self) -> Result<OtherDeque, AllocError>
        ensures deque { IfOk result (λ d. StealsFrom d.stealer self.now.worker) }
        ensures untouched { IfOk result (λ d. view d.pass ≡ tally [] []) }
    {
        // The pass belongs to one seat: what this seat steals is noted there as taken.
        let stealer = self.worker.stealer()?;
        let pass = stealer.pass();
        Ok(OtherDeque { stealer, pass })
    }
}

/// A deque of another seat, from which this one steals.
#[derive(Drop)]
pub struct OtherDeque {
    pub(crate) stealer: Stealer<u64, Global, Tally, TicketRule>,
    pub(crate) pass: Pass<u64, Tally>,
    ghost of: { IsPassOf (stealer_deque stealer) pass },
    ghost oldest_first: { stealer_flavor stealer ≡ 0 },
}

impl OtherDeque {
    /// Takes the oldest ticket out, unless the deque is empty or another seat was faster.
    pub fn steal(&mut self) -> Option<u64>
        ensures same { self.new.stealer ≡ self.old.stealer }
        ensures taken { TakesTicket result (view self.old.pass) (view self.new.pass) }
    {
        // An empty deque and a faster seat answer alike: who looks for work asks the next seat.
        self.stealer.steal_as::<Taking>(&mut self.pass).success()
    }
}
