//! Workers who share a search, through `status`: their number, and workers who are at work at the same time.

use crate::ending::ending_under;
use crate::request::{alone, shared};
use cover_bits::BitTable;
use cover_problem::Problem;
use lab_book::{Book, Call, Entry};
use lab_pool::{Gate, GateCall, NoGate, run_pool};
use poly_place::compile;
use poly_texts::{Puzzle, read_puzzle};
use polylab_engine::{Job, PuzzleJob};
use polylab_line::Request;
use std::alloc::Global;
use std::sync::Wait;
use std::sync::atomic::{AtomicBool, AtomicU8, Ordering};
use std::thread;
use std::thread::Threads;

/// Five dominoes in a box.
const FIVE_DOMINOES: &str =
    "box 5 2 1\npiece A 000 100\npiece B 000 100\npiece C 000 100\npiece D 000 100\npiece E 000 100\n";

/// The Soma cube.
const SOMA: &str =
    "piece V 000 100 010\npiece L 000 100 200 010\npiece T 000 100 200 110\npiece Z 000 100 110 210\n\
     piece A 000 100 010 011\npiece B 000 100 010 101\npiece P 000 100 010 001\nbox 3 3 3\n";

/// What is counted of it.
const SOMA_COUNTED: &str =
    "packings 11520\noptions 688\nsteps 1991327\nlevels 1 55 1089 10633 48900 110149 72329 11520\n";

/// The same puzzle with commands, by which two workers search it.
const SOMA_POOLED: &str =
    "piece V 000 100 010\npiece L 000 100 200 010\npiece T 000 100 200 110\npiece Z 000 100 110 210\n\
     piece A 000 100 010 011\npiece B 000 100 010 101\npiece P 000 100 010 001\nbox 3 3 3\n\n%%\n\
     park\npool 2\nsteps\n";

/// Whether so many workers are refused for their number.
fn are_refused<R: Threads + Wait + Sync>(rt: &R, alloc: Global, workers: u32) -> bool {
    let request = Ok(shared(Job::Puzzle(PuzzleJob::Count), workers));
    ending_under(rt, alloc, &NoGate, request, FIVE_DOMINOES.as_bytes()).is_so(
        4,
        b"",
        b"refused pool 1 BadWorkerCount\n",
    )
}

#[test]
fn other_numbers_of_workers_are_refused(rt: HostRuntime) {
    for workers in [0, 33] {
        assert!(rt; are_refused(&rt, rt.alloc(), workers));
    }
}

/// No worker has this number.
const NOBODY: u8 = 255;

/// The most turns that a post is held.
const TURNS: u64 = 100_000_000;

/// Holds the first post until a post of another worker was answered.
#[derive(Drop)]
struct HoldsThePost {
    holder: AtomicU8,
    answered: AtomicBool,
    ran_out: AtomicBool,
}

impl Gate for HoldsThePost {
    fn before(&self, worker: u8, call: GateCall) {
        if call != GateCall::Post {
            return;
        }
        if self
            .holder
            .compare_exchange(NOBODY, worker, Ordering::SeqCst, Ordering::SeqCst)
            .is_err()
        {
            return;
        }
        for _ in 0..TURNS {
            if self.answered.load(Ordering::SeqCst) {
                return;
            }
            thread::yield_now();
        }
        self.ran_out.store(true, Ordering::SeqCst);
    }

    fn after(&self, worker: u8, call: GateCall) {
        if call == GateCall::Post && self.holder.load(Ordering::SeqCst) != worker {
            self.answered.store(true, Ordering::SeqCst);
        }
    }
}

/// A gate that no worker has passed.
fn new_gate() -> HoldsThePost {
    HoldsThePost {
        holder: AtomicU8::new(NOBODY),
        answered: AtomicBool::new(false),
        ran_out: AtomicBool::new(false),
    }
}

/// The book that two workers finish through a gate; None where they are refused.
fn finished_by_two<'p, R: Threads + Wait + Sync, G: Gate>(
    rt: &R,
    alloc: Global,
    gate: &G,
    problem: &'p Problem,
) -> Option<Book<'p>> {
    match run_pool::<BitTable, _, _>(rt, alloc, problem, 2, gate) {
        Ok(book) => Some(book),
        Err(_) => None,
    }
}

/// Whether an entry is the post of a worker of a stretch that has a step.
fn is_post_by(entry: &Entry, worker: u8) -> bool {
    match &entry.call {
        Call::Post { from, to, .. } => entry.worker == worker && !from.same(to),
        _ => false,
    }
}

/// Whether a worker has posted a stretch that has a step.
fn has_posted(book: &Book<'_>, worker: u8) -> bool {
    let history = book.history();
    for place in 0..history.len() {
        let is_post = match history.entry(place) {
            Ok(entry) => is_post_by(&entry, worker),
            Err(_) => false,
        };
        if is_post {
            return true;
        }
    }
    false
}

/// Whether both workers have posted to the Soma cube's finished book.
fn have_both_posted(book: &Book<'_>) -> bool {
    book.visited() == 11_520
        && book.steps() == 1_991_327
        && has_posted(book, 0)
        && has_posted(book, 1)
}

/// Whether both of two workers post, of whom the first to post is held until the other one did.
fn both_post<R: Threads + Wait + Sync>(rt: &R, alloc: Global, problem: &Problem) -> bool {
    let gate = new_gate();
    match finished_by_two(rt, alloc, &gate, problem) {
        Some(book) => have_both_posted(&book) && !gate.ran_out.load(Ordering::SeqCst),
        None => false,
    }
}

/// The same of a puzzle's problem.
fn both_post_of<R: Threads + Wait + Sync>(rt: &R, alloc: Global, puzzle: &Puzzle) -> bool {
    match compile(alloc, puzzle) {
        Ok(compiled) => both_post(rt, alloc, compiled.problem()),
        Err(_) => false,
    }
}

/// The same of the Soma cube.
fn both_post_of_soma<R: Threads + Wait + Sync>(rt: &R, alloc: Global) -> bool {
    match read_puzzle(alloc, SOMA.as_bytes()) {
        Ok(puzzle) => both_post_of(rt, alloc, &puzzle),
        Err(_) => false,
    }
}

#[test]
fn each_of_two_workers_posts(rt: HostRuntime) {
    assert!(rt; both_post_of_soma(&rt, rt.alloc()));
}

/// Whether a worker was held until another one's post was answered.
fn has_held(gate: &HoldsThePost) -> bool {
    gate.answered.load(Ordering::SeqCst) && !gate.ran_out.load(Ordering::SeqCst)
}

/// Whether a job writes this of a text while a worker is held before its first post until another worker's is answered.
fn overlaps<R: Threads + Wait + Sync>(
    rt: &R,
    alloc: Global,
    request: Request,
    text: &str,
    written: &str,
) -> bool {
    let gate = new_gate();
    let ending = ending_under(rt, alloc, &gate, Ok(request), text.as_bytes());
    ending.is_so(0, written.as_bytes(), b"") && has_held(&gate)
}

/// Whether the workers of the Soma cube's count overlap.
fn workers_overlap<R: Threads + Wait + Sync>(rt: &R, alloc: Global) -> bool {
    let request = shared(Job::Puzzle(PuzzleJob::Count), 2);
    overlaps(rt, alloc, request, SOMA, SOMA_COUNTED)
}

#[test]
fn one_worker_posts_while_another_is_held(rt: HostRuntime) {
    assert!(rt; workers_overlap(&rt, rt.alloc()));
}

/// Whether the workers of a command overlap, too.
fn workers_of_pool_overlap<R: Threads + Wait + Sync>(rt: &R, alloc: Global) -> bool {
    let request = alone(Job::Puzzle(PuzzleJob::Debug));
    let answers = "parked\npooled\nsteps 1991327\n";
    overlaps(rt, alloc, request, SOMA_POOLED, answers)
}

#[test]
fn workers_of_a_command_overlap(rt: HostRuntime) {
    assert!(rt; workers_of_pool_overlap(&rt, rt.alloc()));
}
