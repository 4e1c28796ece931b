//! Whether tables of bits have room, at the bounds.

use cover_bits::has_room;
use cover_problem::read_cover;
use drawn_problems::text_of;
use std::alloc::Global;

/// Of a problem with one item the number of options; a number of workers; and whether their tables have room.
static ROWS: [(u32, u32, bool); 7] = [
    (8, 1, true),
    (8, 1_048_576, true),
    (8, 1_048_577, false),
    (64, 1_048_576, true),
    (65, 524_288, true),
    (65, 524_289, false),
    (0, 4_294_967_295, true),
];

/// Whether there is room as a row tells, for the problem of a text with an option of the one item again and again.
fn has_room_so(alloc: Global, row: &(u32, u32, bool)) -> bool {
    let Ok(options) = vec![in alloc; 1u32; row.0 as usize] else {
        return false;
    };
    let Ok(text) = text_of(alloc, 1, 1, &options) else {
        return false;
    };
    let Ok(problem) = read_cover(alloc, text.as_bytes()) else {
        return false;
    };
    has_room(&problem, row.1) == row.2
}

#[test]
fn bits_have_room_up_to_the_bound(rt: HostRuntime) {
    for row in &ROWS {
        assert!(rt; has_room_so(rt.alloc(), row));
    }
}
