//! Bytes that stand in pieces of one block.
ghost use Rattle.std.specs.Prelude.{◌≡◌, ◌↔◌, ◌++◌, ◌∷◌, [], ◌<◌, ◌≤◌, ◌+◌, ℕ, List, length, take, drop, MatchOption, IsTrue, true, false};
ghost use Rattle.packed_rows.specs.Pieces.{row_bytes, AreSpans};

use std::marker::Model;

/// Bytes that are read from the first on: those at hand, and the pieces behind them, each by its place in a block and its size.
#[derive(Drop)]
pub(crate) struct Rope<'a> {
    here: &'a [u8],
    block: &'a [u8],
    places: &'a [usize],
}

impl<'a> Model for Rope<'a> {
    ghost use Rattle.std.specs.Prelude.{◌++◌, ℕ, List, length};
    ghost use Rattle.packed_rows.specs.Pieces.{row_bytes, AreSpans};

    ghost Value = { List ℕ };

    ghost view = { λ r. r.here.now ++ row_bytes r.block.now r.places.now };

    ghost invariant = { λ r. AreSpans (length r.block.now) r.places.now };
}

/// So many bytes of a block, from a place on.
fn piece(block: &[u8], start: usize, size: usize) -> &[u8]
    requires { start + size ≤ length block.now }
    ensures { result.now ≡ take size (drop start block.now) }
{
    let (_, rest) = block.split_at(start);
    let (piece, _) = rest.split_at(size);
    piece
}

/// The bytes at hand and the places behind them: where none is at hand, those of the next piece.
fn lead<'a>(here: &'a [u8], block: &'a [u8], places: &'a [usize]) -> (&'a [u8], &'a [usize])
    requires { AreSpans (length block.now) places.now }
    ensures same { result.0.now ++ row_bytes block.now result.1.now ≡ here.now ++ row_bytes block.now places.now }
    ensures places { AreSpans (length block.now) result.1.now }
    ensures end { length result.0.now ≡ 0 → here.now ++ row_bytes block.now places.now ≡ [] }
{
    if !here.is_empty() || places.is_empty() {
        return (here, places);
    }
    let (place, rest) = places.split_at(2);
    (piece(block, place[0], place[1]), rest)
}

impl<'a> Rope<'a> {
    /// Of bytes that stand together.
    pub fn of(bytes: &'a [u8]) -> Rope<'a>
        ensures { result ≡ bytes.now }
    {
        Rope {
            here: bytes,
            block: &[],
            places: &[],
        }
    }

    /// Of a block's pieces at these places.
    pub fn placed(block: &'a [u8], places: &'a [usize]) -> Rope<'a>
        requires { AreSpans (length block.now) places.now }
        ensures { result ≡ row_bytes block.now places.now }
    {
        Rope {
            here: &[],
            block,
            places,
        }
    }

    /// The same bytes, read apart.
    pub fn copy(&self) -> Rope<'a>
        ensures { result ≡ self.now }
    {
        Rope {
            here: self.here,
            block: self.block,
            places: self.places,
        }
    }

    /// Takes the first byte.
    pub fn byte(&mut self) -> Option<u8>
        ensures { MatchOption result ((self.old ≡ []) × (self.new ≡ [])) (λ b. self.old ≡ b ∷ self.new) }
    {
        let (here, places) = lead(self.here, self.block, self.places);
        let Some((byte, rest)) = here.split_first() else {
            return None;
        };
        self.here = rest;
        self.places = places;
        Some(*byte)
    }

    /// Takes the first byte, if it is at hand and below 128.
    #[inline(always)]
    pub fn small(&mut self) -> Option<u8>
        ensures { MatchOption result (self.new ≡ self.old) (λ b. (b < 128) × (self.old ≡ b ∷ self.new)) }
    {
        let Some((byte, rest)) = self.here.split_first() else {
            return None;
        };
        if *byte >= 128 {
            return None;
        }
        self.here = rest;
        Some(*byte)
    }

    /// Takes the first two bytes, if both are at hand, and the second alone is below 128.
    #[inline(always)]
    pub fn pair(&mut self) -> Option<(u8, u8)>
        ensures { MatchOption result (self.new ≡ self.old)
            (λ p. (128 ≤ p.0) × (p.0 < 256) × (p.1 < 128) × (self.old ≡ p.0 ∷ p.1 ∷ self.new)) }
    {
        let Some((first, behind)) = self.here.split_first() else {
            return None;
        };
        let Some((second, rest)) = behind.split_first() else {
            return None;
        };
        if *first < 128 || *second >= 128 {
            return None;
        }
        self.here = rest;
        Some((*first, *second))
    }

    /// Takes the first bytes, as many as stand together and so many at most; none where none is left.
    pub fn part(&mut self, most: usize) -> &'a [u8]
        requires { 0 < most }
        ensures parts { self.old ≡ result.now ++ self.new }
        ensures most { length result.now ≤ most }
        ensures end { length result.now ≡ 0 → self.old ≡ [] }
    {
        let (here, places) = lead(self.here, self.block, self.places);
        let (part, left) = here.split_at(most.min(here.len()));
        self.here = left;
        self.places = places;
        part
    }
}

/// Takes these bytes from a rope, if it begins with them.
fn begins(rope: &mut Rope<'_>, bytes: &[u8]) -> bool
    ensures yes { result ≡ true → rope.old ≡ bytes.now ++ rope.new }
    ensures no { result ≡ false → (rest : List ℕ) → rope.old ≡ bytes.now ++ rest → ⊥ }
{
    let mut left = bytes;
    'comparing: while !left.is_empty() {
        let part = rope.part(left.len());
        // Where the rope has no more, so much of the bytes is missing.
        if part.is_empty() {
            return false;
        }
        let (first, rest) = left.split_at(part.len());
        if part != first {
            return false;
        }
        left = rest;
    }
    true
}

/// Whether two ropes have the same bytes left, in whatever pieces.
pub(crate) fn same(one: &mut Rope<'_>, other: &mut Rope<'_>) -> bool
    ensures { IsTrue result ↔ (one.old ≡ other.old) }
{
    let mut part = one.part(PIECE);
    'comparing: while !part.is_empty() {
        if !begins(other, part) {
            return false;
        }
        part = one.part(PIECE);
    }
    other.part(1).is_empty()
}

/// More bytes than any piece has.
const PIECE: usize = 1 << 63;
