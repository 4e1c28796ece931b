//! Lines of answers that no session has: lists of visits in any order, and a count that no search reaches.

use cover_problem::Lists;
use debug_language::{Counted, write_counted};
use std::alloc::{AllocError, Global};
use x_texts::write_visits;

/// A list of visits, and its lines: a line goes on from what its visit shares with the one before.
struct Visits(&'static [&'static [u32]], &'static [u8]);

static VISITS: [Visits; 13] = [
    Visits(&[], b""),
    Visits(&[&[]], b"visit\n"),
    Visits(&[&[], &[]], b"visit\nvisit\n"),
    Visits(&[&[4, 5, 1], &[2]], b"visit 4 5 1\nvisit 2\n"),
    Visits(&[&[7, 8, 9], &[7, 8, 9]], b"visit 7 8 9\nvisit 7 8 9\n"),
    Visits(&[&[7, 8], &[7, 8, 9]], b"visit 7 8\nvisit 7 8 9\n"),
    Visits(&[&[7, 8, 9], &[7, 8]], b"visit 7 8 9\nvisit 7 8\n"),
    Visits(&[&[3, 6], &[], &[3, 6]], b"visit 3 6\nvisit\nvisit 3 6\n"),
    Visits(
        &[&[10, 20, 30], &[10, 25, 30], &[10, 25, 31]],
        b"visit 10 20 30\nvisit 10 25 30\nvisit 10 25 31\n",
    ),
    Visits(
        &[&[1, 2], &[1, 23], &[12, 3], &[1, 2, 3]],
        b"visit 1 2\nvisit 1 23\nvisit 12 3\nvisit 1 2 3\n",
    ),
    Visits(
        &[&[9, 8], &[5, 8], &[9, 8]],
        b"visit 9 8\nvisit 5 8\nvisit 9 8\n",
    ),
    Visits(
        &[&[99999, 1, 2, 3], &[99999, 100000], &[99999, 1]],
        b"visit 99999 1 2 3\nvisit 99999 100000\nvisit 99999 1\n",
    ),
    Visits(
        &[&[0, 4294967295], &[0, 4294967295, 1], &[0]],
        b"visit 0 4294967295\nvisit 0 4294967295 1\nvisit 0\n",
    ),
];

/// Writes visits of these choices.
fn write_lists_of(text: &mut Vec<u8>, paths: &[&[u32]]) -> Result<(), AllocError> {
    let mut visits = Lists::new(*text.allocator());
    for path in paths {
        visits.push(path)?;
    }
    write_visits(text, &visits)
}

/// Whether visits are written as this text, each in a line of its own.
fn are_visits(alloc: Global, paths: &[&[u32]], wanted: &[u8]) -> bool {
    let mut text = Vec::new(alloc);
    match write_lists_of(&mut text, paths) {
        Ok(()) => text.as_slice() == wanted,
        Err(_) => false,
    }
}

#[test]
fn visits_are_written(rt: HostRuntime) {
    for row in &VISITS {
        assert!(rt; are_visits(rt.alloc(), row.0, row.1));
    }
}

/// Whether a count of steps is written as this line.
fn is_moved(alloc: Global, count: u128, wanted: &[u8]) -> bool {
    let mut text = Vec::new(alloc);
    match write_counted(&mut text, Counted::Moved, count) {
        Ok(()) => text.as_slice() == wanted,
        Err(_) => false,
    }
}

#[test]
fn the_greatest_count_is_written(rt: HostRuntime) {
    assert!(rt;
        is_moved(
            rt.alloc(),
            u128::MAX,
            b"moved 340282366920938463463374607431768211455\n"
        )
    );
}
