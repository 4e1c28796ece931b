//! What stands at one place of the block, and what a reader sees of it.
ghost use Rattle.std.specs.Prelude.{◌≡◌, ◌<◌, ◌≤◌, ◌+◌, ◌-◌, ◌*◌, ◌/◌, ◌^◌, true, false};

use std::marker::Model;

/// A number of entries, below 2^28, kept as the bytes that they take: for a place of the block, how many entries stand before it. So
/// what a link leads to is found by one addition, and no shift. A contract sees the number.
#[derive(Clone, Copy)]
pub struct Offset {
    bytes: u32,
}

impl Model for Offset {
    ghost use Rattle.std.specs.Prelude.{◌≡◌, ◌*◌, ◌/◌, ℕ};

    ghost Value = { ℕ };

    ghost view = { λ o. o.bytes / 16 };

    ghost invariant = { λ o. o.bytes / 16 * 16 ≡ o.bytes };

    ghost inverse = { λ n. record { bytes = n * 16 } };

    ghost inverse_ok = { λ o h i. record { bytes = h i } };
}

impl Offset {
    /// So many entries: the place that has this index.
    #[inline(always)]
    pub fn at(index: u32) -> Offset
        requires { index < 2 ^ 28 }
        ensures { result ≡ index }
    {
        // An entry takes 16 bytes.
        Offset { bytes: index * 16 }
    }

    /// How many they are: the index of the place.
    #[inline(always)]
    pub fn index(self) -> u32
        ensures { result ≡ self }
    {
        self.bytes / 16
    }

    /// The bytes that they take.
    #[inline(always)]
    pub(crate) fn bytes(self) -> usize
        ensures { result ≡ self * 16 }
    {
        self.bytes as usize
    }

    /// The number whose bytes have these two halves.
    #[inline(always)]
    pub(crate) fn of_halves(low: u16, high: u16) -> Offset
        requires { (low + high * 65536) / 16 * 16 ≡ low + high * 65536 }
        ensures { result ≡ (low + high * 65536) / 16 }
    {
        // Where the halves stand side by side, a compiler reads both at once.
        Offset {
            bytes: low as u32 + high as u32 * 65536,
        }
    }

    /// So many more.
    #[inline(always)]
    pub fn plus(self, count: u32) -> Offset
        requires { self + count < 2 ^ 28 }
        ensures { result ≡ self + count }
    {
        Offset {
            bytes: self.bytes + count * 16,
        }
    }

    /// So many fewer.
    #[inline(always)]
    pub fn minus(self, count: u32) -> Offset
        requires { count ≤ self }
        ensures { result ≡ self - count }
    {
        Offset {
            bytes: self.bytes - count * 16,
        }
    }

    /// Whether both are the same number.
    #[inline(always)]
    pub fn is(self, other: Offset) -> bool
        ensures same { result ≡ true → self ≡ other }
        ensures apart { result ≡ false → self ≡ other → ⊥ }
    {
        self.bytes == other.bytes
    }

    /// Whether it is less than another.
    #[inline(always)]
    pub fn is_below(self, other: Offset) -> bool
        ensures less { result ≡ true → self < other }
        ensures not_less { result ≡ false → other ≤ self }
    {
        // Both are whole entries, so nothing has to be divided.
        self.bytes < other.bytes
    }
}

/// An entry of the block: the header, an item's head, a node, or a spacer. Its numbers up to 2^28 are offsets, and those up to 2^16
/// are items, or halves of an offset.
// Sixteen bytes: four stand in a line of the processor's cache.
#[derive(Clone, Copy)]
pub struct TableEntry {
    /// Of a head the length of its list, of a node its item, of a spacer the number of the option before it. One field serves all, so
    /// a length and a number are kept as an item is.
    pub top: Offset,
    /// The entry above it in its list; of a spacer the first node of the option before it, or 0.
    pub up: Offset,
    /// The entry below it in its list; of a spacer the last node of the option after it, or 0.
    pub down: Offset,
    // Numbers of items fit in 16 bits; with 32, an entry would take 20 bytes.
    /// Of the header and a head the active item before it; of a node the low half of the bytes before the next node of its option.
    pub left: u16,
    /// Of the header and a head the active item after it; of a node the high half of those bytes.
    pub right: u16,
}

impl TableEntry {
    /// An entry that names nothing.
    pub fn blank() -> TableEntry
        ensures { result ≡ record { top = 0; up = 0; down = 0; left = 0; right = 0 } }
    {
        let nothing = Offset::at(0);
        TableEntry {
            top: nothing,
            up: nothing,
            down: nothing,
            left: 0,
            right: 0,
        }
    }
}

/// An entry as the literature prints it: an item's length or a node's item (of a spacer the number of the option before it,
/// negated), and its links up and down. (TAOCP volume 4B, section 7.2.2.1, table 1.)
#[derive(Clone, Copy)]
pub struct Node {
    /// Of a head its length, of a node its item, of a spacer 0 or less.
    pub top_or_len: i64,
    /// The index of the entry above; of a spacer the first node of the option before it, or 0.
    pub up: u32,
    /// The index of the entry below; of a spacer the last node of the option after it, or 0.
    pub down: u32,
}
