//! Books of the whole run: what each call answers.

use crate::books::acts::{Act, OTHER};
use crate::books::finish::{Done, Row, finishes};
use crate::fixtures::small;
use cover_problem::{Problem, read_cover};
use lab_book::Book;
use std::alloc::Global;

/// What the book of the whole run has.
static ALL: Done = Done {
    has_visit: true,
    steps: 43,
    levels: &[1, 2, 2, 1],
};

/// Whether the calls on a book of the whole run finish it.
fn finishes_new<'p>(alloc: Global, problem: &'p Problem, other: &'p Problem, rows: &[Row]) -> bool {
    let Ok(mut book) = Book::new(alloc, problem) else {
        return false;
    };
    finishes(alloc, other, &mut book, rows, &ALL)
}

/// The same with another problem, of this text, beside it.
fn finishes_beside(alloc: Global, problem: &Problem, other: &[u8], rows: &[Row]) -> bool {
    let Ok(other) = read_cover(alloc, other) else {
        return false;
    };
    finishes_new(alloc, problem, &other, rows)
}

/// The same of the small problem.
fn finishes_small(alloc: Global, other: &[u8], rows: &[Row]) -> bool {
    let Some(problem) = small(alloc) else {
        return false;
    };
    finishes_beside(alloc, &problem, other, rows)
}

/// The whole run by two workers, one after the other, with each refusal that comes on the way.
static WHOLE: [Row; 17] = [
    Row(Act::Lease(1, 7), 1),
    Row(Act::TakeHeld(1, 0), 2),
    Row(Act::LeaseAny(0), 0),
    Row(Act::Lease(1, 0), 2),
    Row(Act::Post((0, 0, 2), 0, 20), 0),
    Row(Act::Post((0, 0, 2), 0, 20), 3),
    Row(Act::PostForeign((0, 0, 2), 20, 1), 4),
    Row(Act::Post((0, 0, 1), 20, 23), 3),
    Row(Act::Close((0, 0, 2)), 8),
    Row(Act::Abandon((0, 1, 2)), 3),
    Row(Act::Abandon((0, 0, 2)), 0),
    Row(Act::Abandon((0, 0, 2)), 3),
    Row(Act::Lease(3, 0), 0),
    Row(Act::Post((0, 3, 12), 20, 23), 0),
    Row(Act::Close((0, 3, 12)), 0),
    Row(Act::Close((0, 3, 12)), 3),
    Row(Act::LeaseAny(2), 0),
];

#[test]
fn the_run_is_posted_and_closed(rt: HostRuntime) {
    assert!(rt; finishes_small(rt.alloc(), OTHER, &WHOLE));
}

/// A tile that is asked to stop, posted in three parts, and put back.
static STOPPED: [Row; 24] = [
    Row(Act::LeaseAny(0), 0),
    Row(Act::Retract((0, 0, 0)), 9),
    Row(Act::Post((0, 0, 0), 0, 5), 0),
    Row(Act::Post((0, 0, 0), 5, 0), 0),
    Row(Act::PutBack(1, 0, 5), 2),
    Row(Act::RequestStop(1, 0), 0),
    Row(Act::RequestStop(1, 3), 1),
    Row(Act::Park((0, 1, 0)), 3),
    Row(Act::Park((0, 0, 0)), 0),
    Row(Act::Lease(1, 0), 2),
    Row(Act::PutBack(1, 0, 6), 7),
    Row(Act::PutBack(1, 3, 6), 1),
    Row(Act::TakeHeld(1, 0), 0),
    Row(Act::Post((0, 1, 12), 5, 38), 0),
    Row(Act::Retract((0, 1, 12)), 0),
    Row(Act::Retract((0, 1, 11)), 3),
    Row(Act::Park((0, 1, 12)), 0),
    Row(Act::RequestStop(2, 0), 0),
    Row(Act::PutBack(1, 0, 5), 0),
    Row(Act::PutBack(1, 0, 0), 0),
    Row(Act::TakeHeld(2, 0), 0),
    Row(Act::Post((0, 2, 20), 0, 43), 0),
    Row(Act::Close((0, 2, 20)), 0),
    Row(Act::RequestStop(2, 0), 2),
];

#[test]
fn a_tile_is_stopped_and_put_back(rt: HostRuntime) {
    assert!(rt; finishes_small(rt.alloc(), OTHER, &STOPPED));
}

/// The run by two workers, parted at the cut 4, with each refusal of a split.
static PARTED: [Row; 14] = [
    Row(Act::LeaseAny(0), 0),
    Row(Act::Split((0, 0, 0), 4), 0),
    Row(Act::Split((0, 0, 0), 4), 6),
    Row(Act::Split((1, 0, 2), 4), 3),
    Row(Act::Split((2, 0, 3), 4), 1),
    Row(Act::SplitForeign((0, 0, 0), 2), 4),
    Row(Act::Post((0, 0, 0), 0, 5), 0),
    Row(Act::Split((0, 0, 0), 2), 5),
    Row(Act::LeaseAny(1), 0),
    Row(Act::Post((1, 1, 8), 20, 23), 0),
    Row(Act::Close((1, 1, 8)), 0),
    Row(Act::Post((0, 0, 0), 5, 16), 6),
    Row(Act::Post((0, 0, 0), 5, 15), 0),
    Row(Act::Close((0, 0, 0)), 0),
];

#[test]
fn a_tile_is_split(rt: HostRuntime) {
    assert!(rt; finishes_small(rt.alloc(), OTHER, &PARTED));
}

/// A problem of one item and no option: its run has 7 steps.
const ALONE: &[u8] = b"items a";

/// That run is posted before the right one.
static FOREIGN: [Row; 4] = [
    Row(Act::LeaseAny(0), 0),
    Row(Act::PostForeign((0, 0, 0), 0, 7), 4),
    Row(Act::Post((0, 0, 0), 0, 43), 0),
    Row(Act::Close((0, 0, 0)), 0),
];

#[test]
fn the_run_of_another_problem_is_foreign(rt: HostRuntime) {
    assert!(rt; finishes_small(rt.alloc(), ALONE, &FOREIGN));
}
