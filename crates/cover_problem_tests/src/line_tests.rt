//! Numbers within bounds that no text of the program has, and words of nothing.

use text_lines::{is_decimal, is_spaced, number};

/// A word, the most that its number may be, and the number.
struct Word(&'static [u8], u32, Option<u32>);

static NUMBERS: [Word; 7] = [
    Word(b"0", 0, Some(0)),
    Word(b"65535", 65535, Some(65535)),
    Word(b"65536", 65535, None),
    Word(b"4294967295", u32::MAX, Some(u32::MAX)),
    Word(b"4294967296", u32::MAX, None),
    Word(b"01", 9, None),
    Word(b"1x", 9, None),
];

#[test]
fn numbers_have_one_spelling(rt: HostRuntime) {
    for row in &NUMBERS {
        assert!(rt; number(row.0, row.1) == row.2);
    }
}

#[test]
fn nothing_is_spaced_and_no_number(rt: HostRuntime) {
    assert!(rt; is_spaced(b""));
    assert!(rt; !is_decimal(b""));
}
