//! How a test of a call ends to which memory is refused, what calls are handed, and when two books are alike.

use cover_problem::{PlainTable, Problem, read_cover};
use drawn_books::{has_tiles, runner_of, walked};
use drawn_problems::{SMALL, state_of};
use lab_book::Book;
use std::alloc::Global;
use std::test::Fail;
use x_branches::{Branch, Cut, Runner, Stretch};
use x_steps::{Cursor, Label};

/// How a test of a call ends.
#[derive(Clone, Copy, PartialEq, Eq)]
pub enum End {
    Right,
    Wrong,
    /// Memory is refused to what is made before the call.
    Unset,
    /// It is refused to the one growth right before the call.
    Unready,
}

impl End {
    /// Right where this is so, and wrong where it isn't.
    pub fn of(is_right: bool) -> End {
        if is_right { End::Right } else { End::Wrong }
    }

    /// Whether it is right; told as an error where the call isn't made.
    pub fn is_right(self) -> Result<bool, Fail> {
        match self {
            End::Right => Ok(true),
            End::Wrong => Ok(false),
            End::Unset => Err(Fail::from("refused in the setting")),
            End::Unready => Err(Fail::from("refused before the call")),
        }
    }
}

/// One growth: those before it are a setting's, those after it the call's.
pub fn grows(alloc: Global) -> bool {
    vec![in alloc; 0u8; 1].is_ok()
}

/// Whether something was made.
pub fn is_made<V: Drop, F: Drop>(answer: Result<V, F>) -> bool {
    match answer {
        Ok(_) => true,
        Err(_) => false,
    }
}

/// What was made, if it wasn't refused.
fn made<V: Drop, F: Drop>(answer: Result<V, F>) -> Option<V> {
    match answer {
        Ok(value) => Some(value),
        Err(_) => None,
    }
}

/// The small problem.
pub fn small(alloc: Global) -> Option<Problem> {
    made(read_cover(alloc, SMALL.as_bytes()))
}

/// The cut of one choice.
pub fn cut_at<'p>(alloc: Global, problem: &'p Problem, choice: u32) -> Option<Cut<'p>> {
    match Vec::from_slice(alloc, &[choice]) {
        Ok(path) => made(Cut::new(alloc, problem, path)),
        Err(_) => None,
    }
}

/// A runner of the whole run, at X1.
fn whole<'p>(alloc: Global, problem: &'p Problem) -> Option<Runner<'p, PlainTable>> {
    match state_of(alloc, Label::X1, &[], Cursor::None) {
        Ok(first) => made(runner_of(alloc, problem, Branch { lo: None, hi: None }, &first)),
        Err(_) => None,
    }
}

/// The stretch of a runner's so many steps behind so many others.
fn walked_behind<'p>(
    runner: &mut Runner<'p, PlainTable>,
    from: u32,
    steps: u32,
) -> Option<Stretch<'p>> {
    if walked(runner, from).is_err() {
        return None;
    }
    made(walked(runner, steps))
}

/// The stretch of so many steps that begins so many steps after X1.
pub fn stretch_of<'p>(
    alloc: Global,
    problem: &'p Problem,
    from: u32,
    steps: u32,
) -> Option<Stretch<'p>> {
    match whole(alloc, problem) {
        Some(mut runner) => walked_behind(&mut runner, from, steps),
        None => None,
    }
}

/// Whether two books have the same tiles, as many entries, and the same totals.
pub fn are_alike(book: &Book<'_>, other: &Book<'_>) -> bool {
    has_tiles(book, other.tiles())
        && book.history().len() == other.history().len()
        && book.steps() == other.steps()
        && book.visited() == other.visited()
}
