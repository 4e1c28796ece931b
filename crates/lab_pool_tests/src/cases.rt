//! Books of the small problem that are begun by hand, with which seats or workers go on, and what is left then.

use crate::books::{Start, begins_with, book_of, is_done};
use crate::desks::{Way, Work, at_desk};
use crate::pools::run_on;
use cover_problem::{Problem, read_cover};
use drawn_books::has_tiles;
use drawn_problems::SMALL;
use lab_book::{Book, Status, Tile};
use std::alloc::Global;
use std::sync::Wait;
use std::thread::Threads;

/// Who goes on with a book.
#[derive(Clone, Copy)]
pub enum By {
    /// Two seats of a desk do this and are handed in so, and leave so many entries.
    Seats(Work, Way, usize),
    /// Two workers on threads, whose pool ends with this number: 0 where the book is finished, else that of the refusal.
    Workers(u8),
}

/// What they leave.
#[derive(Clone, Copy)]
pub enum Left {
    /// Whatever it is.
    Any,
    /// A book that is finished with so many steps and the small problem's cover.
    Done(u128),
    /// The same with all steps of the run, whose history begins with the three entries that were there.
    GoneOn,
    /// The tiles that were there.
    Tiles,
    /// A first tile that stands so.
    First(Status),
    /// A first tile that is held as it was, while each other one is closed, and so many steps were posted.
    Held(u128),
}

/// How a book is begun, who goes on with it, and what is left.
#[derive(Clone, Copy)]
pub struct Case(pub Start, pub By, pub Left);

/// Whether a book's first tile stands so.
fn has_first(tiles: &[Tile<'_>], status: Status) -> bool {
    match tiles.first() {
        Some(tile) => tile.status() == status,
        None => false,
    }
}

/// Whether the first of some tiles is held as the first of others, and each other one is closed.
fn are_held(tiles: &[Tile<'_>], old: &[Tile<'_>]) -> bool {
    let Some((first, others)) = tiles.split_first() else {
        return false;
    };
    let Some(was) = old.first() else {
        return false;
    };
    first.status() == Status::Held
        && first.same(was)
        && others.iter().all(|tile| tile.status() == Status::Closed)
}

/// Whether a book is left so, if it began as this one.
fn is_left(book: &Book<'_>, old: &Book<'_>, left: Left) -> bool {
    match left {
        Left::Any => true,
        Left::Done(steps) => is_done(book, steps),
        Left::GoneOn => { is_done(book, 43) && old.history().len() == 3 && begins_with(book, old) }
        Left::Tiles => has_tiles(book, old.tiles()),
        Left::First(status) => has_first(book.tiles(), status),
        Left::Held(steps) => {
            book.leased() == 0 && book.steps() == steps && are_held(book.tiles(), old.tiles())
        }
    }
}

/// Whether a book is left as it has to be.
fn is_right(alloc: Global, book: &Book<'_>, case: Case) -> bool {
    let Case(start, _, left) = case;
    match book_of(alloc, book.problem(), start) {
        Some(old) => is_left(book, &old, left),
        None => false,
    }
}

/// Whether a book is left as it has to be, with so many entries.
fn is_right_with(alloc: Global, book: &Book<'_>, case: Case, entries: usize) -> bool {
    book.history().len() == entries && is_right(alloc, book, case)
}

/// Whether the pool of two workers ends with this number, and leaves a book as it has to be.
fn run<R: Threads + Wait + Sync>(
    rt: &R,
    alloc: Global,
    book: Book<'_>,
    number: u8,
    case: Case,
) -> bool {
    match run_on(rt, alloc, book, 2) {
        Some((end, book)) => end == number && is_right(alloc, &book, case),
        None => false,
    }
}

/// Whether who goes on with a book leaves it as it has to be.
fn go_on<R: Threads + Wait + Sync>(rt: &R, alloc: Global, book: Book<'_>, case: Case) -> bool {
    let Case(_, by, _) = case;
    match by {
        By::Seats(todo, way, entries) => match at_desk(rt, alloc, book, todo, way) {
            Some(book) => is_right_with(alloc, &book, case, entries),
            None => false,
        },
        By::Workers(number) => run(rt, alloc, book, number, case),
    }
}

/// The same of a problem's book.
fn begin_and_go_on<R: Threads + Wait + Sync>(
    rt: &R,
    alloc: Global,
    problem: &Problem,
    case: Case,
) -> bool {
    let Case(start, _, _) = case;
    match book_of(alloc, problem, start) {
        Some(book) => go_on(rt, alloc, book, case),
        None => false,
    }
}

/// Whether the small problem's book is left as it has to be.
pub fn is_so<R: Threads + Wait + Sync>(rt: &R, alloc: Global, case: Case) -> bool {
    let Ok(problem) = read_cover(alloc, SMALL.as_bytes()) else {
        return false;
    };
    begin_and_go_on(rt, alloc, &problem, case)
}
