//! Workers on threads, of several numbers, over the small problem.

use crate::books::is_done;
use crate::pools::finished_under;
use cover_links::LinkTable;
use cover_problem::{Problem, read_cover};
use drawn_problems::SMALL;
use lab_book::Book;
use lab_pool::{NoGate, PoolFault, run_pool};
use std::alloc::Global;
use std::sync::Wait;
use std::thread::Threads;
use x_steps::Refused;

/// Whether a pool is refused for its number of workers.
fn is_bad_count<'p>(answer: Result<Book<'p>, Refused<PoolFault, Option<Book<'p>>>>) -> bool {
    match answer {
        Ok(_) => false,
        Err(refused) => refused.fault == PoolFault::BadWorkerCount,
    }
}

/// Whether so many workers of a problem are refused for their number.
fn are_refused<R: Threads + Wait + Sync>(
    rt: &R,
    alloc: Global,
    problem: &Problem,
    workers: u32,
) -> bool {
    is_bad_count(run_pool::<LinkTable, _, _>(rt, alloc, problem, workers, &NoGate))
}

/// Whether a book has the levels of the small problem.
fn has_small_levels(book: &Book<'_>) -> bool {
    match book.levels() {
        Ok(levels) => levels.as_slice() == [1, 2, 2, 1].as_slice(),
        Err(_) => false,
    }
}

/// Whether a book is there, and has the one cover of the small problem, its steps and its levels.
fn is_small(book: Option<Book<'_>>) -> bool {
    match book {
        Some(book) => is_done(&book, 43) && has_small_levels(&book),
        None => false,
    }
}

/// Whether so many workers find all that in a problem, which is the small one.
fn find_the_cover<R: Threads + Wait + Sync>(
    rt: &R,
    alloc: Global,
    problem: &Problem,
    workers: u32,
) -> bool {
    is_small(finished_under::<LinkTable, R, _>(rt, alloc, problem, workers, &NoGate))
}

/// Whether so many workers finish the small problem, or are refused.
fn end_so<R: Threads + Wait + Sync>(rt: &R, alloc: Global, workers: u32, are_few: bool) -> bool {
    let Ok(problem) = read_cover(alloc, SMALL.as_bytes()) else {
        return false;
    };
    if are_few {
        find_the_cover(rt, alloc, &problem, workers)
    } else {
        are_refused(rt, alloc, &problem, workers)
    }
}

/// The same of each of these numbers.
fn all_end_so<R: Threads + Wait + Sync>(
    rt: &R,
    alloc: Global,
    numbers: &[u32],
    are_few: bool,
) -> bool {
    for workers in numbers {
        if !end_so(rt, alloc, *workers, are_few) {
            return false;
        }
    }
    true
}

static FEW: [u32; 4] = [1, 2, 8, 32];

#[test]
fn any_number_of_workers_finishes_the_small_problem(rt: HostRuntime) {
    assert!(rt; all_end_so(&rt, rt.alloc(), &FEW, true));
}

static OTHERS: [u32; 2] = [0, 33];

#[test]
fn other_numbers_of_workers_are_refused(rt: HostRuntime) {
    assert!(rt; all_end_so(&rt, rt.alloc(), &OTHERS, false));
}
