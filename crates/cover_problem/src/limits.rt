//! The greatest problem that is taken. specs/Limits.antt has the same numbers, and the contracts cite those.

/// The most items of a problem.
// An item's number, and how many items an option has, fit in 16 bits.
pub const MOST_ITEMS: usize = 65_535;

/// The most options of a problem.
pub const MOST_OPTIONS: usize = 262_143;

/// The most entries of a problem's table: a header, the items, the nodes and the spacers.
// 2^23: at 16 bytes an entry, a table of links takes 128 MB at most.
pub const MOST_ENTRIES: usize = 8_388_608;

/// The most characters of an item's name.
pub const MOST_NAME_BYTES: usize = 8;
