//! The bytes of a row are added to a block: what stands there already is told by its place.
ghost use Rattle.std.specs.Prelude.{◌≡◌, ◌++◌, [], ◌<◌, ◌≤◌, ◌+◌, ◌*◌, IsTrue, length, take, vec_len, vec_capacity};
ghost use Rattle.packed_rows.specs.Pieces.{row_bytes, AreSpans, draft_bytes, Grows, HaveCommon, IsFound, span_of};

use std::simd::Simd;

/// How many bytes are compared at once.
const STEP: usize = 64;

/// Where bytes begin in a block with which those of later rows may agree: the last eight long ones that agreed with none, the newest
/// first.
#[derive(Drop)]
pub(crate) struct Bases {
    starts: [usize; 8],
}

impl Bases {
    /// None but the block's first byte.
    pub fn new() -> Bases {
        Bases { starts: [0; 8] }
    }

    /// Bytes begin here, so many.
    fn note(&mut self, start: usize, size: usize) {
        if size < LONG {
            return;
        }
        self.starts.rotate_right(1);
        self.starts[0] = start;
    }
}

/// How many bytes at least a piece has that is shared: its place takes sixteen, and what stands before it another sixteen.
pub(crate) const LONG: usize = 64;

/// Whether two lists begin with the same 64 bytes; false tells nothing.
fn same_step(one: &[u8], other: &[u8]) -> bool
    requires long { 64 ≤ length one.now }
    requires other_long { 64 ≤ length other.now }
    ensures { IsTrue result → take 64 one.now ≡ take 64 other.now }
{
    // One mask for all of them: no branch stands between.
    Simd::<u8, 64>::from_slice(one)
        .simd_ne(Simd::from_slice(other))
        .to_bitmask()
        == 0
}

/// How many bytes two lists have in common, in whole steps.
fn common_steps(one: &[u8], other: &[u8]) -> usize
    ensures { HaveCommon result one.now other.now }
{
    let mut done = 0;
    let mut left = one;
    let mut against = other;
    'comparing: while left.len() >= STEP && against.len() >= STEP {
        if !same_step(left, against) {
            return done;
        }
        let (_, rest) = left.split_at(STEP);
        let (_, other_rest) = against.split_at(STEP);
        done += STEP;
        left = rest;
        against = other_rest;
    }
    done
}

/// How many bytes two lists have in common, one by one.
fn common_bytes(one: &[u8], other: &[u8]) -> usize
    ensures { HaveCommon result one.now other.now }
{
    let mut done = 0;
    'comparing: while done < one.len() && done < other.len() {
        if one[done] != other[done] {
            return done;
        }
        done += 1;
    }
    done
}

/// How many bytes two lists have in common, from the first on.
fn common(one: &[u8], other: &[u8]) -> usize
    ensures { HaveCommon result one.now other.now }
{
    // Those of the step in which they part are compared one by one.
    let done = common_steps(one, other);
    let (_, left) = one.split_at(done);
    let (_, against) = other.split_at(done);
    done + common_bytes(left, against)
}

/// The longer of what was found and what is found from this place on.
fn longer(block: &[u8], list: &[u8], start: usize, found: (usize, usize)) -> (usize, usize)
    requires { IsFound block.now list.now found.0 found.1 }
    ensures { IsFound block.now list.now result.0 result.1 }
{
    if start > block.len() {
        return found;
    }
    let (_, base) = block.split_at(start);
    let size = common(list, base);
    if size <= found.1 {
        return found;
    }
    (start, size)
}

/// Where as many of a list's first bytes stand as at any of these places, and how many.
fn find(block: &[u8], starts: &[usize], list: &[u8]) -> (usize, usize)
    ensures { IsFound block.now list.now result.0 result.1 }
{
    let mut found = (0, 0);
    'finding: for start in starts {
        found = longer(block, list, *start, found);
        // Good enough: a look at the others would cost as much each.
        if is_shared(found.1, list.len()) {
            return found;
        }
    }
    found
}

/// Whether so many bytes of a list, which stand in the block, are told by their place: some, and nearly all of it. Else the list stands
/// there whole, where later ones find it: what is left would be put again with each of them.
fn is_shared(size: usize, list: usize) -> bool {
    size >= LONG && size.saturating_add(4 * LONG) >= list
}

/// Adds bytes for which there is room.
pub(crate) fn put_bytes(block: &mut Vec<u8>, bytes: &[u8])
    requires { vec_len block.old + length bytes.now ≤ vec_capacity block.old }
    ensures added { block.new.items ≡ block.old.items ++ bytes.now }
    ensures long { vec_len block.new ≡ vec_len block.old + length bytes.now }
    ensures capacity { vec_capacity block.old ≤ vec_capacity block.new }
{
    let Ok(()) = block.extend_from_slice(bytes) else {
        unreachable!()
    };
}

/// Adds a piece's place, if it has a byte.
pub(crate) fn put_place(places: &mut Vec<usize>, start: usize, size: usize)
    requires { vec_len places.old + 2 ≤ vec_capacity places.old }
    ensures added { places.new.items ≡ places.old.items ++ span_of start size }
    ensures long { vec_len places.new ≤ vec_len places.old + 2 }
    ensures capacity { vec_capacity places.new ≡ vec_capacity places.old }
{
    if size == 0 {
        return;
    }
    places.push_reserved(start);
    places.push_reserved(size);
}

/// Adds a part of a row's bytes. The block's bytes are a piece of the row from one on that it returns, until the next is added.
fn put_part(
    block: &mut Vec<u8>,
    places: &mut Vec<usize>,
    bases: &mut Bases,
    from: usize,
    part: &[u8],
) -> usize
    requires from { from ≤ length block.old.items }
    requires placed { AreSpans (length block.old.items) places.old.items }
    requires room { vec_len block.old + length part.now ≤ vec_capacity block.old }
    requires places_room { vec_len places.old + 4 ≤ vec_capacity places.old }
    ensures bytes { draft_bytes block.new.items places.new.items result ≡
        draft_bytes block.old.items places.old.items from ++ part.now }
    ensures from { result ≤ length block.new.items }
    ensures placed { AreSpans (length block.new.items) places.new.items }
    ensures grows { Grows block.old.items block.new.items }
    ensures long { vec_len block.new ≤ vec_len block.old + length part.now }
    ensures few { vec_len places.new ≤ vec_len places.old + 4 }
    ensures capacity { vec_capacity block.old ≤ vec_capacity block.new }
    ensures places_capacity { vec_capacity places.new ≡ vec_capacity places.old }
{
    let found = find(block, &bases.starts, part);
    if !is_shared(found.1, part.len()) {
        // All of it, so that later rows find it in one piece.
        bases.note(block.len(), part.len());
        put_bytes(block, part);
        return from;
    }
    put_place(places, from, block.len() - from);
    put_place(places, found.0, found.1);
    let from = block.len();
    let (_, rest) = part.split_at(found.1);
    put_bytes(block, rest);
    from
}

/// Adds the bytes of a row, of which long lists begin at the marks, and its places to none.
pub(crate) fn put_row(
    block: &mut Vec<u8>,
    places: &mut Vec<usize>,
    bases: &mut Bases,
    row: &[u8],
    marks: &[usize],
)
    requires none { places.old.items ≡ [] }
    requires room { vec_len block.old + length row.now ≤ vec_capacity block.old }
    requires places_room { 4 * length marks.now + 6 ≤ vec_capacity places.old }
    ensures bytes { row_bytes block.new.items places.new.items ≡ row.now }
    ensures placed { AreSpans (length block.new.items) places.new.items }
    ensures grows { Grows block.old.items block.new.items }
    ensures long { vec_len block.new ≤ vec_len block.old + length row.now }
    ensures few { vec_len places.new ≤ 4 * length marks.now + 6 }
    ensures capacity { vec_capacity block.old ≤ vec_capacity block.new }
{
    let mut from = block.len();
    let mut rest = row;
    'putting: for mark in marks {
        let done = row.len() - rest.len();
        // A mark tells where it is worth to look, and no more: any place is right.
        let (part, left) = rest.split_at(mark.saturating_sub(done).min(rest.len()));
        from = put_part(block, places, bases, from, part);
        rest = left;
    }
    let from = put_part(block, places, bases, from, rest);
    put_place(places, from, block.len() - from);
}
