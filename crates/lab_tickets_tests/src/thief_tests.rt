//! One seat pushes, and two others steal at the same time, each on a thread of its own.
use lab_tickets::{TicketSeat, tickets};
use std::alloc::{AllocError, Global};
use std::sync::atomic::{AtomicU64, Ordering};
use std::test::Fail;
use std::thread;
use std::thread::Threads;

/// How many tickets are pushed, in bursts of 20: the numbers from 1 on.
const TICKETS: u64 = 1_000;

/// How often a thief looks at most before it gives up.
const LOOKS: u64 = 1_000_000_000;

/// A seat with the tickets that it took, and whether a push was refused.
#[derive(Drop)]
struct Lane {
    seat: TicketSeat,
    taken: Vec<u64>,
    is_refused: bool,
}

/// Notes what was taken, and counts it.
fn note(lane: &mut Lane, id: u64, count: &AtomicU64) {
    if lane.taken.push(id).is_err() {
        lane.is_refused = true;
    }
    let _before = count.fetch_add(1, Ordering::SeqCst);
}

/// Pushes the tickets of a burst, and takes back five of the deque.
fn burst(lane: &mut Lane, first: u64, count: &AtomicU64) {
    for id in 0..20u64 {
        if lane.seat.push(first.wrapping_add(id)).is_err() {
            lane.is_refused = true;
        }
    }
    for _ in 0..5 {
        if let Some(id) = lane.seat.pop() {
            note(lane, id, count);
        }
    }
}

/// Pushes all tickets, burst by burst.
fn give(lane: &mut Lane, count: &AtomicU64) {
    for number in 0..50u64 {
        burst(lane, number.wrapping_mul(20).wrapping_add(1), count);
    }
}

/// A ticket of the first seat's deque.
fn from_first(seat: &mut TicketSeat) -> Option<u64> {
    if seat.number() == 0 {
        return None;
    }
    seat.steal(0)
}

/// Steals until all tickets are taken.
fn take(lane: &mut Lane, count: &AtomicU64) {
    for _ in 0..LOOKS {
        if count.load(Ordering::SeqCst) >= TICKETS {
            return;
        }
        match from_first(&mut lane.seat) {
            Some(id) => note(lane, id, count),
            None => thread::yield_now(),
        }
    }
}

/// The first lane gives, and the others take.
fn work(lane: &mut Lane, count: &AtomicU64) {
    if lane.seat.number() == 0 {
        give(lane, count);
    } else {
        take(lane, count);
    }
}

/// Three lanes, none of which has taken anything.
fn lanes(alloc: Global) -> Result<Vec<Lane>, AllocError> {
    let mut lanes = Vec::new(alloc);
    for seat in tickets(alloc, 3)? {
        lanes.push(Lane {
            seat,
            taken: Vec::new(alloc),
            is_refused: false,
        })?;
    }
    Ok(lanes)
}

/// All lanes at once, each on a thread.
fn run_all<R: Threads + Sync>(rt: &R, lanes: &mut [Lane], count: &AtomicU64) {
    thread::for_each_mut(rt, lanes, 3, &|_, lane: &mut Lane| work(lane, count));
}

/// What all lanes took, in order as numbers.
fn all_taken(alloc: Global, lanes: &[Lane]) -> Result<Vec<u64>, AllocError> {
    let mut all = Vec::new(alloc);
    for lane in lanes.iter() {
        all.extend_from_slice(&lane.taken)?;
    }
    all.sort()?;
    Ok(all)
}

/// The numbers from 1 on.
fn all_numbers(alloc: Global) -> Result<Vec<u64>, AllocError> {
    let mut numbers = Vec::new(alloc);
    for number in 0..TICKETS {
        numbers.push(number + 1)?;
    }
    Ok(numbers)
}

#[test]
fn each_ticket_is_taken_once(rt: HostRuntime) -> Result<(), Fail> {
    let mut lanes = lanes(rt.alloc())?;
    let count = AtomicU64::new(0);
    run_all(&rt, &mut lanes, &count);
    assert!(rt; !lanes.iter().any(|lane| lane.is_refused));
    assert_eq!(rt; all_taken(rt.alloc(), &lanes)?, all_numbers(rt.alloc())?);
    Ok(())
}
