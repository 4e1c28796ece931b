//! A seat: its own deque, and those of the other seats.
ghost use Rattle.std.specs.Prelude.{◌≡◌, ◌≢◌, ◌<◌, ◌≤◌, ◌+◌, [], map, vec_len, IfOk};
ghost use Rattle.shared_words.specs.Workers.{most_workers};
ghost use Rattle.lab_tickets.specs.Rule.{tally};
ghost use Rattle.lab_tickets.specs.Deques.{tally_of, source, joined};
ghost use Rattle.lab_tickets.specs.TicketView.{TicketView, lone_seat, pushed, popped, stolen, place_among, seat_count, TakesAs, HandsBack};

use crate::deques::{OtherDeque, OwnDeque};
use std::alloc::{AllocError, Global};
use std::marker::Model;

/// A seat. Contracts see its number, and what it pushed and took, deque by deque (`TicketView`).
#[derive(Drop)]
pub struct TicketSeat {
    number: u8,
    own: OwnDeque,
    // Kept, so that stealing takes no memory.
    others: Vec<OtherDeque>,
}

impl Model for TicketSeat {
    ghost use Rattle.std.specs.Prelude.{map, ◌≤◌, ◌<◌, vec_len};
    ghost use Rattle.shared_words.specs.Workers.{most_workers};
    ghost use Rattle.crossbeam_deque.specs.Handles.{worker_view, worker_deque};
    ghost use Rattle.lab_tickets.specs.Deques.{tally_of, source};
    ghost use Rattle.lab_tickets.specs.TicketView.{TicketView};

    ghost Value = { TicketView };

    ghost view = { λ s. record {
      number = s.number;
      own = worker_view s.own.worker;
      others = map tally_of s.others.items;
      deque = (worker_deque s.own.worker).0;
      deques = map source s.others.items;
    } };

    ghost invariant = { λ s. (s.number ≤ vec_len s.others) × (vec_len s.others < most_workers) };
}

impl TicketSeat {
    /// A seat that is the only one.
    pub(crate) fn alone(alloc: Global) -> Result<TicketSeat, AllocError>
        ensures { IfOk result (λ s. s ≡ lone_seat s.deque) }
    {
        let own = OwnDeque::new(alloc)?;
        Ok(TicketSeat {
            number: 0,
            own,
            others: Vec::new(alloc),
        })
    }

    /// What another seat needs to steal from this one.
    pub(crate) fn other(&self) -> Result<OtherDeque, AllocError>
        ensures deque { IfOk result (λ d. source d ≡ self.now.deque) }
        ensures untouched { IfOk result (λ d. tally_of d ≡ tally [] []) }
    {
        self.own.other()
    }

    /// Gives it its number, and the deques from which it steals.
    pub(crate) fn join(&mut self, number: u8, others: Vec<OtherDeque>)
        requires { (number ≤ vec_len others) × (vec_len others < most_workers) }
        ensures { self.new ≡ joined self.old number others.items }
    {
        self.number = number;
        self.others = others;
    }

    /// The seat's number, from 0.
    pub fn number(&self) -> u8
        ensures number { result ≡ self.now.number }
        ensures below { self.now.number < seat_count self.now }
    {
        self.number
    }

    /// How many seats there are, this one with the others.
    pub fn seats(&self) -> u8
        ensures seats { result ≡ seat_count self.now }
        ensures most { seat_count self.now ≤ most_workers }
    {
        // There are at most 32 seats.
        self.others.len() as u8 + 1
    }

    /// Adds a ticket to the seat's own deque, or hands it back where the deque can't grow.
    pub fn push(&mut self, id: u64) -> Result<(), u64>
        ensures pushed { IfOk result (λ _. self.new ≡ pushed self.old id) }
        ensures refused { HandsBack result id self.old self.new }
    {
        self.own.push(id)
    }

    /// Takes the oldest ticket out of the seat's own deque.
    pub fn pop(&mut self) -> Option<u64>
        ensures { TakesAs result self.old self.new (popped self.old) }
    {
        self.own.pop()
    }

    /// Takes the oldest ticket out of another seat's deque, unless that is empty or a third seat was
    /// faster.
    pub fn steal(&mut self, from: u8) -> Option<u64>
        requires other { from ≢ self.old.number }
        requires seat { from < seat_count self.old }
        ensures { TakesAs result self.old self.new (stolen self.old from) }
    {
        let at = place_of(self.number, from, self.others.len());
        let other = &mut self.others[at];
        other.steal()
    }
}

/// The place of the seat `from` among the others of the seat `number`.
fn place_of(number: u8, from: u8, others: usize) -> usize
    requires other { from ≢ number }
    requires seat { (from ≤ others) × (number ≤ others) }
    ensures place { result ≡ place_among number from }
    ensures below { result < others }
{
    // The seat itself is left out, so those behind it stand one place lower.
    if from < number {
        from as usize
    } else {
        from as usize - 1
    }
}
