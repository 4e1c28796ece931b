//! Books of the small problem that were called by hand, and what a finished one tells.
ghost use Rattle.std.specs.Prelude.{◌≤◌, ◌<◌, length};

use crate::searches::{Search, begin};
use cover_problem::Problem;
use drawn_books::visits_the_cover;
use lab_book::{Book, Entries, Entry};
use std::alloc::Global;
use x_branches::Branch;
use x_steps::{Cursor, Label, State};

/// Whether a book visits the one cover of the small problem.
fn is_covered(book: &Book<'_>) -> bool {
    match visits_the_cover(book) {
        Ok(is_covered) => is_covered,
        Err(_) => false,
    }
}

/// Whether a book is finished with so many steps and that cover.
pub fn is_done(book: &Book<'_>, steps: u128) -> bool {
    book.finished() && book.steps() == steps && is_covered(book)
}

/// Whether a book has so many visits and steps.
pub fn has_counts(book: &Book<'_>, visits: u128, steps: u128) -> bool {
    book.visited() == visits && book.steps() == steps
}

/// Whether an entry is the one of a history at a place.
fn is_at(entry: &Entry, entries: &Entries<'_>, place: usize) -> bool
    requires { place < length entries.now }
{
    match entries.entry(place) {
        Ok(other) => entry.same(&other),
        Err(_) => false,
    }
}

/// Whether the entries of two histories at a place are the same.
fn are_same_at(one: &Entries<'_>, other: &Entries<'_>, place: usize) -> bool
    requires one { place < length one.now }
    requires other { place < length other.now }
{
    match one.entry(place) {
        Ok(entry) => is_at(&entry, other, place),
        Err(_) => false,
    }
}

/// Whether a book's history begins with the history of another.
pub fn begins_with(book: &Book<'_>, old: &Book<'_>) -> bool {
    let entries = book.history();
    let first = old.history();
    if entries.len() < first.len() {
        return false;
    }
    for place in 0..first.len() {
        if !are_same_at(&entries, &first, place) {
            return false;
        }
    }
    true
}

/// How a book is begun.
#[derive(Clone, Copy)]
pub enum Start {
    /// It is new: the whole run.
    New,
    /// It is new: the run from the cut 4 on, 23 steps.
    Rest,
    /// Worker 5 posted 30 steps of the whole run: three entries.
    Begun,
    /// Its tile before the cut 4 is held after five steps, and its other tile waits.
    HeldBefore,
    /// The same, and the other tile is closed after its 23 steps.
    HeldAlone,
    /// Its only tile is held at its first mark.
    Held,
}

/// A worker's search of a tile of a book.
fn lease_in<'p>(alloc: Global, book: &mut Book<'p>, worker: u8, id: u64) -> Option<Search<'p>>
    requires { worker ≤ 31 }
{
    let problem = book.problem();
    let Ok(leased) = book.lease(worker, id) else {
        return None;
    };
    begin(alloc, problem, leased)
}

/// Whether a worker posts so many steps of a tile, and closes it, or else parks it.
fn posts(alloc: Global, book: &mut Book<'_>, worker: u8, id: u64, steps: u32, closes: bool) -> bool
    requires { worker ≤ 31 }
{
    let Some(mut search) = lease_in(alloc, book, worker, id) else {
        return false;
    };
    let posted = search.post_to(book, steps).is_some();
    search.end_in(book, closes) && posted
}

/// Whether worker 5 posts five steps of the whole run, which it splits at the cut 4, and parks on demand: its tile is then held,
/// and the other one waits.
fn holds_first(alloc: Global, book: &mut Book<'_>) -> bool {
    let Some(mut search) = lease_in(alloc, book, 5, 0) else {
        return false;
    };
    let parted = search.split_in(book, 5, 4) == Some(1);
    let posted = search.post_to(book, 0).is_some();
    let asked = book.request_stop(6, 0).is_ok();
    search.end_in(book, false) && parted && posted && asked
}

/// Whether a new book's calls are answered, by which it is begun so.
fn begins(alloc: Global, book: &mut Book<'_>, start: Start) -> bool {
    match start {
        Start::New | Start::Rest => true,
        Start::Begun => posts(alloc, book, 5, 0, 30, false),
        Start::HeldBefore => holds_first(alloc, book),
        Start::HeldAlone => holds_first(alloc, book) && posts(alloc, book, 6, 1, 23, true),
        Start::Held => book.request_stop(5, 0).is_ok(),
    }
}

/// A new book of the run from the cut 4 on.
fn rest_of<'p>(alloc: Global, problem: &'p Problem) -> Option<Book<'p>> {
    let state = State {
        label: Label::X5,
        path: Vec::new(alloc),
        cursor: Cursor::At(4),
    };
    match Book::resumed(alloc, problem, Branch { lo: None, hi: None }, state) {
        Ok(book) => Some(book),
        Err(_) => None,
    }
}

/// A new book, of the run or of its rest.
fn new_book<'p>(alloc: Global, problem: &'p Problem, start: Start) -> Option<Book<'p>> {
    match start {
        Start::Rest => rest_of(alloc, problem),
        _ => Book::new(alloc, problem).ok(),
    }
}

/// A book, once its calls were answered.
fn called(book: Book<'_>, are_answered: bool) -> Option<Book<'_>> {
    if are_answered { Some(book) } else { None }
}

/// A book that is begun so; None where a call isn't answered as it should be.
pub fn book_of<'p>(alloc: Global, problem: &'p Problem, start: Start) -> Option<Book<'p>> {
    let Some(mut book) = new_book(alloc, problem, start) else {
        return None;
    };
    let are_answered = begins(alloc, &mut book, start);
    called(book, are_answered)
}
