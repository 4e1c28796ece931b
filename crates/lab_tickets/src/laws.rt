//! What the rule of a deque says of its tickets: each a function that does nothing, whose contract is the law.
ghost use Rattle.std.specs.Prelude.{◌≡◌, ◌≤◌, ◌+◌};
ghost use Rattle.lab_tickets.specs.Rule.{times, times_pushed, times_taken, EachTicket, EachTicketOfEmpty};

/// No ticket was taken that the owner had not pushed.
pub fn none_is_invented()
    ensures { EachTicket (λ xs ts x. times_pushed x ts ≡ 0 → times_taken x ts ≡ 0) }
{}

/// A ticket that was pushed once was taken at most once, by whichever seat, and is then no more in the deque.
pub fn none_is_taken_twice()
    ensures { EachTicket (λ xs ts x. times_pushed x ts ≡ 1 → times x xs + times_taken x ts ≤ 1) }
{}

/// Of an empty deque each ticket was taken as often as it was pushed.
pub fn none_is_lost()
    ensures { EachTicketOfEmpty (λ ts x. times_taken x ts ≡ times_pushed x ts) }
{}
