//! Sets written from earlier ones: the options of up to six items are taken out in one pass.
ghost use Rattle.std.specs.Prelude.{◌≡◌, ◌<◌, ◌≤◌, ◌+◌, ◌-◌, ◌*◌, ◌^◌, ℕ, [], ◌∷◌, ◌++◌, length, take, drop, filter, slice_index_or};
ghost use Rattle.std.specs.List.{All};
ghost use Rattle.cover_bits.specs.Parts.{is_some_part, ArePlaced};
ghost use Rattle.cover_bits.specs.Bits as bits;
ghost use Rattle.cover_bits.specs.Bits.{HasColumn, IsWithout, IsNextSet};

use crate::sets::Part;

/// How many columns a pass takes out at most. The options of most problems have no more items.
const MOST_COLUMNS: usize = 6;

/// The row at a place among rows of so many words.
#[inline(always)]
pub(crate) fn row(rows: &[u64], words: usize, place: usize) -> &[u64]
    requires { place * words + words ≤ length rows.now }
    ensures { result.now ≡ bits.row_at words place rows.now }
{
    let (_, rest) = rows.split_at(place * words);
    let (row, _) = rest.split_at(words);
    row
}

/// The set at a place among rows with room for so many parts.
#[inline(always)]
pub(crate) fn set<'a>(parts: &'a [Part], counts: &[u32], words: usize, depth: usize) -> &'a [Part]
    requires depth { depth < length counts.now }
    requires few { slice_index_or counts.now depth 0 ≤ words }
    requires within { depth * words + words ≤ length parts.now }
    ensures { result.now ≡ bits.set_at words parts.now counts.now depth }
{
    let (_, rest) = parts.split_at(depth * words);
    let (set, _) = rest.split_at(counts[depth] as usize);
    set
}

/// The column of the item at a place, or of the first one where there are not so many.
#[inline(always)]
fn column_at<'a>(columns: &'a [u64], words: usize, items: &[u32], place: usize) -> &'a [u64]
    requires some { 0 < length items.now }
    requires columns { All (HasColumn words columns.now) items.now }
    ensures long { length result.now ≡ words }
    ensures column { result.now ≡ bits.column_at words columns.now items.now place }
{
    let item = if place < items.len() {
        items[place]
    } else {
        items[0]
    };
    row(columns, words, (item - 1) as usize)
}

/// Writes a part, and tells where the next one goes: over it, if the part has no number. So a pass has no branch. A few levels
/// down most words of a set are 0, and each later count goes over what was kept.
#[inline(always)]
fn keep(into: &mut [Part], kept: usize, part: Part) -> usize
    requires { kept < length into.old }
    ensures long { length into.new ≡ length into.old }
    ensures few { result ≤ kept + 1 }
    ensures kept { take result into.new ≡ take kept into.old ++ filter is_some_part (part ∷ []) }
{
    into[kept] = part;
    kept + (part.word != 0) as usize
}

/// Writes the parts of the options of a set that have none of up to six items, and tells how many parts these are.
#[inline(always)]
fn without_six(
    into: &mut [Part],
    parts: &[Part],
    columns: &[u64],
    words: usize,
    items: &[u32],
) -> usize
    requires placed { ArePlaced 0 words parts.now }
    requires room { length parts.now ≤ length into.old }
    requires small { words < 2 ^ 32 }
    requires some { 0 < length items.now }
    requires most { length items.now ≤ 6 }
    requires columns { All (HasColumn words columns.now) items.now }
    ensures long { length into.new ≡ length into.old }
    ensures few { result ≤ length parts.now }
    ensures written { IsWithout words columns.now items.now parts.now (take result into.new) }
{
    // Always six: to take a column out once more changes nothing, and the pass has no inner loop.
    let first = column_at(columns, words, items, 0);
    let second = column_at(columns, words, items, 1);
    let third = column_at(columns, words, items, 2);
    let fourth = column_at(columns, words, items, 3);
    let fifth = column_at(columns, words, items, 4);
    let sixth = column_at(columns, words, items, 5);
    let mut kept = 0usize;
    for part in parts {
        let place = part.place;
        let gone = first[place]
            | second[place]
            | third[place]
            | fourth[place]
            | fifth[place]
            | sixth[place];
        let word = part.word & !gone;
        kept = keep(into, kept, Part { word, place });
    }
    kept
}

/// The same, with a pass for each number of items: of a number that it knows the compiler reads each column once. Most options of a problem
/// have the same number.
#[inline(always)]
fn without(into: &mut [Part], parts: &[Part], columns: &[u64], words: usize, items: &[u32]) -> usize
    requires placed { ArePlaced 0 words parts.now }
    requires room { length parts.now ≤ length into.old }
    requires small { words < 2 ^ 32 }
    requires some { 0 < length items.now }
    requires most { length items.now ≤ 6 }
    requires columns { All (HasColumn words columns.now) items.now }
    ensures long { length into.new ≡ length into.old }
    ensures few { result ≤ length parts.now }
    ensures written { IsWithout words columns.now items.now parts.now (take result into.new) }
{
    match items.len() {
        1 => without_six(into, parts, columns, words, items),
        2 => without_six(into, parts, columns, words, items),
        3 => without_six(into, parts, columns, words, items),
        4 => without_six(into, parts, columns, words, items),
        5 => without_six(into, parts, columns, words, items),
        _ => without_six(into, parts, columns, words, items),
    }
}

/// Writes the set at a place: what the one at `base`, which stands before it, has without the options of these items.
// By itself, as `choose` is: the pass wants a register for each column.
#[inline(never)]
fn write_next(
    parts: &mut [Part],
    counts: &mut [u32],
    columns: &[u64],
    words: usize,
    base: usize,
    items: &[u32],
)
    requires some { 0 < length items.now }
    requires most { length items.now ≤ 6 }
    requires columns { All (HasColumn words columns.now) items.now }
    requires depth { base + length items.now < length counts.old }
    requires few { (d : ℕ) → slice_index_or counts.old d 0 ≤ words }
    requires within { (base + length items.now + 1) * words ≤ length parts.old }
    requires small { words < 2 ^ 32 }
    requires placed { ArePlaced 0 words (bits.set_at words parts.old counts.old base) }
    ensures { IsNextSet words base (base + length items.now) columns.now items.now
        parts.old parts.new counts.old counts.new }
{
    // Parted, so that one set is read while the next is written.
    let depth = base + items.len();
    let (before, next) = parts.split_at_mut(depth * words);
    let left = set(before, counts, words, base);
    counts[depth] = without(next, left, columns, words, items) as u32;
}

/// The same where there are more items than a pass takes out: it takes more passes, each over what the one before it left.
#[cold]
#[inline(never)]
fn write_many(
    parts: &mut [Part],
    counts: &mut [u32],
    columns: &[u64],
    words: usize,
    covered: &[u32],
    base: usize,
)
    requires base { base ≤ length covered.now }
    requires columns { All (HasColumn words columns.now) covered.now }
    requires depth { length covered.now < length counts.old }
    requires few { (d : ℕ) → slice_index_or counts.old d 0 ≤ words }
    requires within { (length covered.now + 1) * words ≤ length parts.old }
    requires small { words < 2 ^ 32 }
    requires placed { ArePlaced 0 words (bits.set_at words parts.old counts.old base) }
    ensures { IsNextSet words base (length covered.now) columns.now (drop base covered.now)
        parts.old parts.new counts.old counts.new }
{
    let mut base = base;
    while base < covered.len() {
        let depth = covered.len().min(base + MOST_COLUMNS);
        let (front, _) = covered.split_at(depth);
        let (_, items) = front.split_at(base);
        write_next(parts, counts, columns, words, base, items);
        base = depth;
    }
}

/// Writes the set of the options left once these items are covered, where the one at `base` is of those left before the last of them.
#[inline(always)]
pub(crate) fn write_sets(
    parts: &mut [Part],
    counts: &mut [u32],
    columns: &[u64],
    words: usize,
    covered: &[u32],
    base: usize,
)
    requires base { base ≤ length covered.now }
    requires columns { All (HasColumn words columns.now) covered.now }
    requires depth { length covered.now < length counts.old }
    requires few { (d : ℕ) → slice_index_or counts.old d 0 ≤ words }
    requires within { (length covered.now + 1) * words ≤ length parts.old }
    requires small { words < 2 ^ 32 }
    requires placed { ArePlaced 0 words (bits.set_at words parts.old counts.old base) }
    ensures { IsNextSet words base (length covered.now) columns.now (drop base covered.now)
        parts.old parts.new counts.old counts.new }
{
    // Mostly one pass is enough. In a loop, what the next one needs would stand in memory while the pass runs.
    let (_, items) = covered.split_at(base);
    if items.len() > MOST_COLUMNS {
        write_many(parts, counts, columns, words, covered, base);
    } else if !items.is_empty() {
        write_next(parts, counts, columns, words, base, items);
    }
}
