//! A seat of a desk that waits for a tile, on a thread of its own, while the other one ends the only tile.
ghost use Rattle.std.specs.Prelude.{◌≡◌};

use drawn_books::{is_ended, lease_in};
use lab_book::Lease;
use lab_desk::{Desk, Desking, Seat};
use std::sync::Wait;
use std::sync::atomic::{AtomicBool, Ordering};
use std::thread;
use std::thread::Threads;

/// How often a seat looks at most whether the other one is so far.
const TURNS: u64 = 10_000_000;

/// How often it looks away then, so that the other one waits.
const MORE: u64 = 2_000;

/// How the tile is ended.
#[derive(Clone, Copy)]
pub enum End {
    /// It is parked, and waits.
    Park,
    /// It is parked on demand, and is held.
    Stop,
    /// It is abandoned, and waits.
    Abandon,
}

/// How far the two seats are.
#[derive(Drop)]
struct Progress {
    is_leased: AtomicBool,
    is_asked_for: AtomicBool,
}

/// Looks until this is so, or the turns run out.
fn look(flag: &AtomicBool) {
    for _ in 0..TURNS {
        if flag.load(Ordering::SeqCst) {
            return;
        }
        thread::yield_now();
    }
}

/// Looks away.
fn look_away() {
    for _ in 0..MORE {
        thread::yield_now();
    }
}

/// Whether a tile is ended so.
fn ends<L: Desking, R: Wait>(
    rt: &R,
    desk: &Desk<'_, L>,
    seat: &mut Seat<L>,
    lease: Lease,
    end: End,
) -> bool
    requires { lease.worker ≡ seat.old.number }
{
    match end {
        End::Abandon => is_ended(desk.abandon(rt, seat, lease)),
        _ => is_ended(desk.park(rt, seat, lease)),
    }
}

/// Whether a tile is asked to stop, where it is to be held.
fn is_asked<L: Desking, R: Wait>(rt: &R, desk: &Desk<'_, L>, seat: &mut Seat<L>, end: End) -> bool
    ensures number { seat.new.number ≡ seat.old.number }
{
    match end {
        End::Stop => desk.request_stop(rt, seat, 0).is_ok(),
        _ => true,
    }
}

/// Whether a seat leases the only tile, and ends it so while the other one asks for a tile.
fn leases_and_ends<L: Desking, R: Wait>(
    rt: &R,
    desk: &Desk<'_, L>,
    seat: &mut Seat<L>,
    end: End,
    progress: &Progress,
) -> bool {
    let Ok(leased) = desk.lease(rt, seat, 0) else {
        return false;
    };
    let asked = is_asked(rt, desk, seat, end);
    progress.is_leased.store(true, Ordering::SeqCst);
    look(&progress.is_asked_for);
    look_away();
    ends(rt, desk, seat, lease_in(leased), end) && asked
}

/// Whether a seat that asks for a tile, once the only one is leased, is given one, which it abandons.
fn waits<L: Desking, R: Wait>(
    rt: &R,
    desk: &Desk<'_, L>,
    seat: &mut Seat<L>,
    progress: &Progress,
) -> Option<bool> {
    look(&progress.is_leased);
    progress.is_asked_for.store(true, Ordering::SeqCst);
    match desk.lease_next(rt, seat) {
        Ok(Some(leased)) => Some(is_ended(desk.abandon(rt, seat, lease_in(leased)))),
        Ok(None) => Some(false),
        Err(_) => None,
    }
}

/// Whether the second seat is given a tile, which it asks for while the first one ends the only one so; None where a call isn't
/// answered as it should be.
fn given_beside<L: Desking + Send + Sync, R: Threads + Wait + Sync>(
    rt: &R,
    desk: &Desk<'_, L>,
    first: &mut Seat<L>,
    second: &mut Seat<L>,
    end: End,
    progress: &Progress,
) -> Option<bool> {
    let (given, ended) = thread::join(
        rt,
        || waits(rt, desk, second, progress),
        || leases_and_ends(rt, desk, first, end, progress),
    );
    if ended { given } else { None }
}

/// The same of two seats that begin.
pub fn given_while_ended<L: Desking + Send + Sync, R: Threads + Wait + Sync>(
    rt: &R,
    desk: &Desk<'_, L>,
    first: &mut Seat<L>,
    second: &mut Seat<L>,
    end: End,
) -> Option<bool> {
    let progress = Progress {
        is_leased: AtomicBool::new(false),
        is_asked_for: AtomicBool::new(false),
    };
    given_beside(rt, desk, first, second, end, &progress)
}
