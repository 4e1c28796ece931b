//! What is asked of a new book of the small problem.

use crate::books::{Play, are_read_back, holds_other_leases_stale, is_searched};
use crate::fixtures::small;
use crate::turn_tests::takes_the_run;
use cover_problem::Problem;
use lab_book::Book;
use std::alloc::Global;

/// What is asked.
pub enum Asked {
    /// Whether its entries are read back.
    Entries,
    /// Whether a search of its tile goes so.
    Search(Play),
    /// Whether the lease of another book is stale in it.
    OtherLease,
    /// Whether turns take its run.
    Turns,
}

/// Whether it is so of a book.
fn is_so(alloc: Global, book: &mut Book<'_>, asked: &Asked) -> bool {
    match asked {
        Asked::Entries => are_read_back(alloc, book),
        Asked::Search(play) => is_searched(alloc, book, play),
        Asked::OtherLease => holds_other_leases_stale(alloc, book),
        Asked::Turns => takes_the_run(alloc, book),
    }
}

/// The same of a problem's new book.
fn is_so_anew(alloc: Global, problem: &Problem, asked: &Asked) -> bool {
    let Ok(mut book) = Book::new(alloc, problem) else {
        return false;
    };
    is_so(alloc, &mut book, asked)
}

/// The same of the small problem's.
pub fn is_so_in_small(alloc: Global, asked: &Asked) -> bool {
    let Some(problem) = small(alloc) else {
        return false;
    };
    is_so_anew(alloc, &problem, asked)
}
