//! Which numbers of options are an exact cover, with answers that were worked out by hand.

use crate::fixtures::SMALL;
use cover_problem::read_cover;
use std::alloc::Global;

const SECONDARY: &[u8] =
    b"items a b\nmaybe c\noption a c\noption b c\noption a\noption b\noption c\n";

/// The text of a problem, numbers of options, and whether they are an exact cover.
struct Row(&'static [u8], &'static [u32], bool);

static ROWS: [Row; 11] = [
    Row(SMALL, &[1, 4, 5], true),
    Row(SMALL, &[4, 5, 1], true),
    Row(SMALL, &[1, 1, 4, 5], false),
    Row(SMALL, &[1, 4], false),
    Row(SMALL, &[1, 4, 7], false),
    Row(SMALL, &[0, 1, 4, 5], false),
    Row(SMALL, &[], false),
    Row(SECONDARY, &[1, 2], false),
    Row(SECONDARY, &[1, 4], true),
    Row(SECONDARY, &[3, 4], true),
    Row(SECONDARY, &[3, 4, 5], false),
];

/// Whether the options of a row are an exact cover, or are none, as it tells.
fn is_told(alloc: Global, row: &Row) -> bool {
    let Ok(problem) = read_cover(alloc, row.0) else {
        return false;
    };
    problem.is_exact_cover(row.1) == row.2
}

#[test]
fn exact_covers_are_told_from_others(rt: HostRuntime) {
    for row in &ROWS {
        assert!(rt; is_told(rt.alloc(), row));
    }
}
