//! A pool over a problem or a book, as all tests of workers run it.

use cover_bits::BitTable;
use cover_problem::{Problem, Table};
use lab_book::Book;
use lab_pool::{Gate, NoGate, PoolFault, run_pool, run_pool_on};
use std::alloc::Global;
use std::sync::Wait;
use std::thread::Threads;
use x_steps::Refused;

/// The book that so many workers finish under a gate, with tables of this kind; None where they are refused.
pub fn finished_under<'p, T: Table + Send + Sync, R: Threads + Wait + Sync, G: Gate>(
    rt: &R,
    alloc: Global,
    problem: &'p Problem,
    workers: u32,
    gate: &G,
) -> Option<Book<'p>> {
    run_pool::<T, R, G>(rt, alloc, problem, workers, gate).ok()
}

/// The book that a pool leaves, and 0 where it is finished, or else the number of the refusal.
fn left_by<'p>(
    answer: Result<Book<'p>, Refused<PoolFault, Option<Book<'p>>>>,
) -> Option<(u8, Book<'p>)> {
    match answer {
        Ok(book) => Some((0, book)),
        Err(Refused { fault, given }) => match given {
            Some(book) => Some((fault.number(), book)),
            None => None,
        },
    }
}

/// The same of so many workers.
pub fn run_on<'p, R: Threads + Wait + Sync>(
    rt: &R,
    alloc: Global,
    book: Book<'p>,
    workers: u32,
) -> Option<(u8, Book<'p>)> {
    if book.leased() > 0 {
        return None;
    }
    left_by(run_pool_on::<BitTable, _, _>(rt, alloc, book, workers, &NoGate))
}
