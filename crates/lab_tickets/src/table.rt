//! All seats, made together.
ghost use Rattle.std.specs.Prelude.{◌≡◌, ◌<◌, ◌≤◌, ◌-◌, map, IfOk, vec_len};
ghost use Rattle.shared_words.specs.Workers.{most_workers, IsWorkerCount};
ghost use Rattle.lab_tickets.specs.Deques.{tally_of, sources};
ghost use Rattle.lab_tickets.specs.TicketView.{blanks, other_deques, with_joined, AreFresh};

use crate::deques::OtherDeque;
use crate::seat::TicketSeat;
use std::alloc::{AllocError, Global};

/// The deques of all seats but the one of this number.
fn others_of(
    alloc: Global,
    seats: &Vec<TicketSeat>,
    number: usize,
) -> Result<Vec<OtherDeque>, AllocError>
    requires { number < vec_len seats.now }
    ensures tallies { IfOk result (λ v. map tally_of v.items ≡ blanks (vec_len seats.now - 1)) }
    ensures sources { IfOk result (λ v. sources v.items ≡ other_deques number seats.now.items) }
{
    let mut others = Vec::new(alloc);
    for j in 0..seats.len() {
        // A seat has nothing to steal from itself.
        if j != number {
            let other = seats[j].other()?;
            others.push(other)?;
        }
    }
    Ok(others)
}

/// Gives a seat its number, and the deques of the others.
fn seat_among(alloc: Global, seats: &mut Vec<TicketSeat>, number: u8) -> Result<(), AllocError>
    requires number { number < vec_len seats.old }
    requires seats { vec_len seats.old ≤ most_workers }
    ensures { IfOk result (λ _. seats.new.items ≡ with_joined number seats.old.items) }
{
    let others = others_of(alloc, seats, number as usize)?;
    // Only now, since all seats are read while the others' deques are gathered.
    let seat = &mut seats[number as usize];
    seat.join(number, others);
    Ok(())
}

/// So many seats, each with a deque of its own, which steal from the deques of the others.
pub fn tickets(alloc: Global, n: u8) -> Result<Vec<TicketSeat>, AllocError>
    requires { IsWorkerCount n }
    ensures count { IfOk result (λ v. vec_len v ≡ n) }
    ensures fresh { IfOk result (λ v. AreFresh n v.items) }
{
    let mut seats = Vec::new(alloc);
    // All deques are made before any seat gets what it needs to steal from them.
    for number in 0..n {
        seats.push(TicketSeat::alone(alloc)?)?;
    }
    for k in 0..n {
        seat_among(alloc, &mut seats, k)?;
    }
    Ok(seats)
}
