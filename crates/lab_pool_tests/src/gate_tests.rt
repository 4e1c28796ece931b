//! A gate that holds a worker until the other one stole a ticket.

use crate::dominoes::{add_dominoes, has_dominoes};
use crate::pools::finished_under;
use cover_bits::BitTable;
use cover_problem::{Problem, read_cover};
use lab_book::Book;
use lab_pool::{Gate, GateCall};
use std::alloc::Global;
use std::sync::Wait;
use std::sync::atomic::{AtomicBool, AtomicU64, Ordering};
use std::thread;
use std::thread::Threads;

/// How often a worker that is held looks at most.
const TURNS: u64 = 100_000_000;

/// Holds the first post of the worker whose lease was answered first, until a ticket was stolen. The other
/// one doesn't post before that: it would else end all its tiles while the ticket isn't pushed yet.
#[derive(Drop)]
struct UntilStolen {
    /// One more than the number of the worker whose lease was answered first.
    first: AtomicU64,
    is_held: AtomicBool,
    is_stolen: AtomicBool,
    is_out: AtomicBool,
}

impl UntilStolen {
    fn new() -> UntilStolen {
        UntilStolen {
            first: AtomicU64::new(0),
            is_held: AtomicBool::new(false),
            is_stolen: AtomicBool::new(false),
            is_out: AtomicBool::new(false),
        }
    }

    /// Waits until this is so, or the turns run out.
    fn hold(&self, flag: &AtomicBool) {
        for _ in 0..TURNS {
            if flag.load(Ordering::SeqCst) {
                return;
            }
            thread::yield_now();
        }
        self.is_out.store(true, Ordering::SeqCst);
    }

    /// Notes the first lease that is answered.
    fn note(&self, worker: u8) {
        let number = worker as u64 + 1;
        let _noted = self
            .first
            .compare_exchange(0, number, Ordering::SeqCst, Ordering::SeqCst);
    }

    /// Holds a worker before a post.
    fn hold_post(&self, worker: u8) {
        if self.first.load(Ordering::SeqCst) != worker as u64 + 1 {
            self.hold(&self.is_held);
        } else if !self.is_held.swap(true, Ordering::SeqCst) {
            self.hold(&self.is_stolen);
        }
    }

    /// Whether a worker was held, and let go by a stolen ticket.
    fn is_right(&self) -> bool {
        self.is_held.load(Ordering::SeqCst)
            && self.is_stolen.load(Ordering::SeqCst)
            && !self.is_out.load(Ordering::SeqCst)
    }
}

impl Gate for UntilStolen {
    fn before(&self, worker: u8, call: GateCall) {
        if call == GateCall::Post {
            self.hold_post(worker);
        }
    }

    fn after(&self, worker: u8, call: GateCall) {
        match call {
            GateCall::Lease => self.note(worker),
            GateCall::Steal => self.is_stolen.store(true, Ordering::SeqCst),
            _ => (),
        }
    }
}

/// Whether a book is there, and has the dominoes' visits and steps.
fn is_of_dominoes(book: &Option<Book<'_>>) -> bool {
    match book {
        Some(book) => has_dominoes(book),
        None => false,
    }
}

/// Whether a ticket is stolen, and the dominoes' visits and steps are found.
fn is_stolen<R: Threads + Wait + Sync>(rt: &R, alloc: Global, problem: &Problem) -> bool {
    let gate = UntilStolen::new();
    let book = finished_under::<BitTable, R, _>(rt, alloc, problem, 2, &gate);
    gate.is_right() && is_of_dominoes(&book)
}

/// The same of the dominoes' text.
fn is_stolen_in<R: Threads + Wait + Sync>(rt: &R, alloc: Global, text: &str) -> bool {
    let Ok(problem) = read_cover(alloc, text.as_bytes()) else {
        return false;
    };
    is_stolen(rt, alloc, &problem)
}

/// The same of the text that is put together here.
fn is_stolen_there<R: Threads + Wait + Sync>(rt: &R, alloc: Global) -> bool {
    let mut text = String::new(alloc);
    add_dominoes(&mut text) && is_stolen_in(rt, alloc, &text)
}

#[test]
fn a_ticket_is_stolen(rt: HostRuntime) {
    assert!(rt; is_stolen_there(&rt, rt.alloc()));
}
