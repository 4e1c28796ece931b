//! What the seats know of one deque together, and the two things that they do.
use crossbeam_deque::protocol::{Outcome, Protocol};
use std::collections::LinkedList;

/// What a seat has pushed to one deque, and what it took from it. No value of it is ever made.
pub struct Tally {
    /// The tickets that the seat pushed, in order.
    pub pushed: LinkedList<u64>,
    /// The tickets that the seat took, in order.
    pub taken: LinkedList<u64>,
}

/// Each ticket stands among the owner's pushed ones as often as in the deque and among those that any seat
/// took, together.
pub struct TicketRule;

impl Protocol<u64, Tally> for TicketRule {
    ghost use Rattle.std.specs.Prelude.{[]};
    ghost use Rattle.lab_tickets.specs.Rule.{tally, Balanced};

    ghost holds = { Balanced };

    ghost first = { tally [] [] };

    ghost guest = { tally [] [] };
}

/// Tickets join those that the owner pushed.
pub struct Pushing;

impl Outcome<u64, Tally> for Pushing {
    ghost use Rattle.std.specs.Prelude.{◌≡◌, ◌++◌};
    ghost use Rattle.lab_tickets.specs.Rule.{tally};

    ghost then = { λ v xs w. w ≡ tally (v.pushed ++ xs) v.taken };
}

/// Tickets join those that a seat took.
pub struct Taking;

impl Outcome<u64, Tally> for Taking {
    ghost use Rattle.std.specs.Prelude.{◌≡◌, ◌++◌};
    ghost use Rattle.lab_tickets.specs.Rule.{tally};

    ghost then = { λ v xs w. w ≡ tally v.pushed (v.taken ++ xs) };
}
