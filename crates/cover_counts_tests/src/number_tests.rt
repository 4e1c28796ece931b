//! Known numbers: tilings of boards and boxes by dominoes, from the literature.
use crate::texts::{box_of, counted_text, dominoes};
use std::alloc::Global;

/// The lengths of a box, the room of the cache in bytes, and the visits and steps, with a space behind each number.
struct Row(u32, u32, u32, usize, &'static str);

static BOXES: [Row; 7] = [
    Row(1, 1, 1, 0, "0 7 "),
    Row(2, 1, 1, 0, "1 11 "),
    Row(2, 2, 1, 1_000_000, "2 31 "),
    Row(4, 4, 1, 1_000_000, "36 "),
    Row(6, 6, 1, 0, "6728 "),
    Row(8, 8, 1, 1_000_000, "12988816 348862143 "),
    Row(3, 3, 2, 100_000, "229 "),
];

/// Whether the counts of dominoes in a box begin as the row says.
fn is_counted_so(alloc: Global, row: &Row) -> bool {
    let Ok(text) = dominoes(alloc, box_of(row.0, row.1, row.2)) else {
        return false;
    };
    match counted_text(alloc, text.as_str(), row.3) {
        Some(text) => text.as_slice().starts_with(row.4.as_bytes()),
        None => false,
    }
}

#[test]
fn dominoes_in_boxes(rt: HostRuntime) {
    for row in &BOXES {
        assert!(rt; is_counted_so(rt.alloc(), row));
    }
}
