//! Seats that push, pop and steal in one thread.
use lab_tickets::{TicketSeat, tickets};
use std::test::Fail;

/// Steals from another seat; nothing where there is no such other seat.
fn stolen(seats: &mut [TicketSeat], by: u8, from: u8) -> Option<u64> {
    let seat = seats.get_mut(by as usize)?;
    if from == seat.number() || from >= seat.seats() {
        return None;
    }
    seat.steal(from)
}

/// Whether a seat took the ticket.
fn gave(seats: &mut [TicketSeat], by: u8, id: u64) -> bool {
    match seats.get_mut(by as usize) {
        Some(seat) => seat.push(id).is_ok(),
        None => false,
    }
}

/// What a seat pops.
fn popped(seats: &mut [TicketSeat], by: u8) -> Option<u64> {
    seats.get_mut(by as usize)?.pop()
}

/// What is asked of a row of seats: a push to a seat's deque, a pop of a seat, a steal by a seat from another.
enum Act {
    Push(u8, u64),
    Pop(u8),
    Steal(u8, u8),
}

/// What an act answers; a push answers the ticket.
fn answer(seats: &mut [TicketSeat], act: &Act) -> Option<u64> {
    match *act {
        Act::Push(by, id) => { if gave(seats, by, id) { Some(id) } else { None } }
        Act::Pop(by) => popped(seats, by),
        Act::Steal(by, from) => stolen(seats, by, from),
    }
}

/// Acts one after another on three seats, and what each answers.
static ACTS: [(Act, Option<u64>); 20] = [
    (Act::Pop(0), None),
    (Act::Steal(1, 0), None),
    (Act::Steal(0, 2), None),
    (Act::Push(0, 5), Some(5)),
    (Act::Push(0, 3), Some(3)),
    (Act::Push(0, 9), Some(9)),
    (Act::Push(2, 4), Some(4)),
    (Act::Pop(1), None),
    (Act::Steal(0, 1), None),
    (Act::Pop(0), Some(5)),
    (Act::Steal(1, 0), Some(3)),
    (Act::Steal(1, 2), Some(4)),
    (Act::Steal(0, 2), None),
    (Act::Push(0, 9), Some(9)),
    (Act::Steal(2, 0), Some(9)),
    (Act::Pop(0), Some(9)),
    (Act::Pop(0), None),
    (Act::Steal(2, 0), None),
    (
        Act::Push(1, 18_446_744_073_709_551_615),
        Some(18_446_744_073_709_551_615),
    ),
    (Act::Pop(1), Some(18_446_744_073_709_551_615)),
];

/// Whether each act is answered as the table says.
fn are_answered(seats: &mut [TicketSeat]) -> bool {
    let mut right = true;
    for (act, wanted) in ACTS.iter() {
        let answered = answer(seats, act);
        right = right && answered == *wanted;
    }
    right
}

#[test]
fn the_oldest_ticket_comes_first(rt: HostRuntime) -> Result<(), Fail> {
    let mut seats = tickets(rt.alloc(), 3)?;
    assert!(rt; are_answered(&mut seats));
    Ok(())
}

/// Whether each seat steals from each other one what that pushed, pops what it pushed itself, and nothing more.
fn each_from_each(seats: &mut [TicketSeat], n: u8) -> bool {
    let mut right = true;
    for by in 0..n {
        for from in 0..n {
            let id = by as u64 * 100 + from as u64;
            right = right && gave(seats, from, id);
            let taken = if by == from {
                popped(seats, by)
            } else {
                stolen(seats, by, from)
            };
            right = right && taken == Some(id) && popped(seats, from).is_none();
        }
    }
    right
}

/// Whether the seats are numbered from 0 to n, and each knows how many there are.
fn are_numbered(seats: &[TicketSeat], n: u8) -> bool {
    let mut right = seats.len() == n as usize;
    for (place, seat) in seats.iter().enumerate() {
        right = right && seat.number() as usize == place && seat.seats() == n;
    }
    right
}

#[test]
fn one_seat_has_no_other(rt: HostRuntime) -> Result<(), Fail> {
    let mut seats = tickets(rt.alloc(), 1)?;
    assert!(rt; are_numbered(&seats, 1) && each_from_each(&mut seats, 1));
    Ok(())
}

#[test]
fn each_of_32_seats_steals_from_each(rt: HostRuntime) -> Result<(), Fail> {
    let mut seats = tickets(rt.alloc(), 32)?;
    assert!(rt; are_numbered(&seats, 32) && each_from_each(&mut seats, 32));
    Ok(())
}
