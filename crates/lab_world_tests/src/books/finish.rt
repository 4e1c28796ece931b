//! What a book's calls leave, and what a finished book has.

use crate::books::acts::{Act, make};
use crate::fixtures::has_levels;
use cover_problem::Problem;
use drawn_books::{has_tiles, tiles_of, visits_the_cover};
use lab_book::Book;
use std::alloc::Global;

/// A call, and the number of its refusal, or 0.
pub struct Row(pub Act, pub u8);

/// Whether a call answers so; a refused one leaves the tiles as they were.
fn is_answered<'p>(alloc: Global, other: &'p Problem, book: &mut Book<'p>, row: &Row) -> bool {
    let Ok(before) = tiles_of(alloc, book) else {
        return false;
    };
    make(alloc, other, book, row.0) == Some(row.1) && (row.1 == 0 || has_tiles(book, &before))
}

/// Whether each call answers so; and each adds an entry.
fn answers<'p>(alloc: Global, other: &'p Problem, book: &mut Book<'p>, rows: &[Row]) -> bool {
    for (place, row) in rows.iter().enumerate() {
        if !is_answered(alloc, other, book, row) || book.history().len() != place + 1 {
            return false;
        }
    }
    true
}

/// What a finished book has: the visit 4 5 1 or none, so many steps, and these levels.
pub struct Done {
    pub has_visit: bool,
    pub steps: u128,
    pub levels: &'static [u128],
}

/// Whether a book visits nothing.
fn visits_nothing(book: &Book<'_>) -> bool {
    match book.visits() {
        Ok(visits) => visits.len() == 0,
        Err(_) => false,
    }
}

/// Whether a book visits 4 5 1 alone, or nothing.
fn is_visited(book: &Book<'_>, has_visit: bool) -> bool {
    if !has_visit {
        return visits_nothing(book);
    }
    match visits_the_cover(book) {
        Ok(is_visited) => is_visited,
        Err(_) => false,
    }
}

/// Whether a book is finished, and has this.
fn is_done(book: &Book<'_>, done: &Done) -> bool {
    book.finished()
        && book.steps() == done.steps
        && is_visited(book, done.has_visit)
        && has_levels(book, done.levels)
}

/// Whether the calls on a book that isn't finished answer so, and finish it.
pub fn finishes<'p>(
    alloc: Global,
    other: &'p Problem,
    book: &mut Book<'p>,
    rows: &[Row],
    done: &Done,
) -> bool {
    !book.finished() && answers(alloc, other, book, rows) && is_done(book, done)
}
