//! A gate that holds each worker before its first lease until all of them have come there.

use crate::books::is_done;
use crate::pools::finished_under;
use cover_bits::BitTable;
use cover_problem::{Problem, read_cover};
use drawn_problems::SMALL;
use lab_book::Book;
use lab_pool::{Gate, GateCall};
use std::alloc::Global;
use std::sync::Wait;
use std::sync::atomic::{AtomicBool, AtomicU64, Ordering};
use std::thread;
use std::thread::Threads;

/// How often a worker that is held looks at most.
const TURNS: u64 = 5_000_000;

/// Holds the leases until so many workers have come. None passes before, so each comes once.
#[derive(Drop)]
struct UntilAllCame {
    workers: u64,
    came: AtomicU64,
    is_out: AtomicBool,
}

impl UntilAllCame {
    fn new(workers: u32) -> UntilAllCame {
        UntilAllCame {
            workers: workers as u64,
            came: AtomicU64::new(0),
            is_out: AtomicBool::new(false),
        }
    }

    /// Whether all have come.
    fn have_come(&self) -> bool {
        self.came.load(Ordering::SeqCst) >= self.workers
    }

    /// Waits until all have come, or the turns run out.
    fn hold(&self) {
        for _ in 0..TURNS {
            if self.have_come() {
                return;
            }
            thread::yield_now();
        }
        self.is_out.store(true, Ordering::SeqCst);
    }

    /// Whether just so many came, in time.
    fn is_right(&self) -> bool {
        self.came.load(Ordering::SeqCst) == self.workers && !self.is_out.load(Ordering::SeqCst)
    }
}

impl Gate for UntilAllCame {
    fn before(&self, _worker: u8, call: GateCall) {
        if call == GateCall::Lease && !self.have_come() {
            let _before = self.came.fetch_add(1, Ordering::SeqCst);
            self.hold();
        }
    }

    fn after(&self, _worker: u8, _call: GateCall) {}
}

/// Whether a book is the small problem's, finished.
fn is_small_done(book: &Option<Book<'_>>) -> bool {
    match book {
        Some(book) => is_done(book, 43),
        None => false,
    }
}

/// Whether so many workers come to lease a tile of a problem, which is the small one, before any of them has one, and finish it.
fn come_to_lease<R: Threads + Wait + Sync>(
    rt: &R,
    alloc: Global,
    problem: &Problem,
    workers: u32,
) -> bool {
    let gate = UntilAllCame::new(workers);
    let book = finished_under::<BitTable, R, _>(rt, alloc, problem, workers, &gate);
    gate.is_right() && is_small_done(&book)
}

/// The same of the small problem, which is read here.
fn come_to_lease_there<R: Threads + Wait + Sync>(rt: &R, alloc: Global, workers: u32) -> bool {
    let Ok(problem) = read_cover(alloc, SMALL.as_bytes()) else {
        return false;
    };
    come_to_lease(rt, alloc, &problem, workers)
}

#[test]
fn four_workers_lease(rt: HostRuntime) {
    assert!(rt; come_to_lease_there(&rt, rt.alloc(), 4));
}

#[test]
fn thirty_two_workers_lease(rt: HostRuntime) {
    assert!(rt; come_to_lease_there(&rt, rt.alloc(), 32));
}
