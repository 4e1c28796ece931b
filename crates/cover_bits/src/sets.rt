//! Sets of numbers: as rows of words, where the bit i of word v stands for the number 64 v + i, and as the parts of such a row that
//! are not 0. (TAOCP volume 4A, section 7.1.3.)
ghost use Rattle.std.specs.Prelude.{◌≡◌, ◌<◌, ◌≤◌, ◌+◌, ◌-◌, ◌*◌, ◌/◌, ◌^◌, ◌&&◌, ◌||◌, ◌==◌, not, ℕ, length, All, take, None, IfSome, Option};
ghost use Rattle.cover_bits.specs.Parts as parts;
ghost use Rattle.cover_bits.specs.Parts.{ones_of_both, shared_from, shared_below, in_both, in_row, IsFirstFrom, NoneFrom, IsLastBelow, NoneBelow, ArePlaced};

/// A word of a set that is not 0, and its place among the set's words.
#[derive(Clone, Copy)]
pub struct Part {
    pub word: u64,
    // As wide as the word, so that a part has no bytes between, which would be written with it.
    pub place: usize,
}

/// How many words a row takes for so many numbers.
pub(crate) fn words_for(count: u32) -> usize
    ensures { result ≡ parts.words_for count }
{
    // The last word may be part of one: its other bits stay 0.
    (count as usize + 63) / 64
}

/// Adds a number.
#[inline(always)]
pub(crate) fn add(row: &mut [u64], number: usize)
    requires { number < 64 * length row.old }
    ensures long { length row.new ≡ length row.old }
    ensures each { (k : ℕ) → in_row row.new k ≡ (in_row row.old k || (k == number)) }
{
    row[number / 64] |= 1u64 << (number % 64) as u32;
}

/// Takes a number out.
#[inline(always)]
pub(crate) fn remove(row: &mut [u64], number: usize)
    requires { number < 64 * length row.old }
    ensures long { length row.new ≡ length row.old }
    ensures each { (k : ℕ) → in_row row.new k ≡ (in_row row.old k && not (k == number)) }
{
    row[number / 64] &= !(1u64 << (number % 64) as u32);
}

/// Whether a row has a number.
#[inline(always)]
pub(crate) fn has(row: &[u64], number: usize) -> bool
    requires { number < 64 * length row.now }
    ensures { result ≡ in_row row.now number }
{
    (row[number / 64] >> (number % 64) as u32) % 2 == 1
}

/// How many numbers both sets have.
#[inline(always)]
pub(crate) fn count_both(parts: &[Part], row: &[u64]) -> u32
    requires within { All (λ part. part.place < length row.now) parts.now }
    requires small { 64 * length parts.now < 2 ^ 32 }
    ensures { result ≡ ones_of_both parts.now row.now }
{
    let mut count = 0u32;
    for part in parts {
        count += (part.word & row[part.place]).count_ones();
    }
    count
}

/// The bits from one on.
#[inline(always)]
fn from_bit(bit: u32) -> u64
    requires { bit < 64 }
    ensures { result ≡ 2 ^ 64 - 2 ^ bit }
{
    u64::MAX << bit
}

/// The bits that stand, in the word at a place, for numbers from `start` on.
#[inline(always)]
fn mask_from(place: usize, start: u32) -> u64
    ensures { result ≡ parts.mask_from start place }
{
    let first = (start / 64) as usize;
    // All numbers of a later place are from `start` on, and none of an earlier one is.
    if place > first {
        u64::MAX
    } else if place == first {
        from_bit(start % 64)
    } else {
        0
    }
}

/// The word that a part shares with a row, without the numbers below `start`. A mask takes them out, so that nothing is guessed by the
/// processor but whether a number is left.
#[inline(always)]
fn shared_from(part: Part, row: &[u64], start: u32) -> u64
    requires { part.place < length row.now }
    ensures { result ≡ shared_from row.now start part }
{
    part.word & row[part.place] & mask_from(part.place, start)
}

/// The first number from `start` on that both sets have.
#[inline(always)]
pub(crate) fn first_both(parts: &[Part], row: &[u64], start: u32) -> Option<u32>
    requires placed { ArePlaced 0 (length row.now) parts.now }
    requires small { 64 * length row.now < 2 ^ 32 }
    ensures some { IfSome result (λ k. IsFirstFrom (in_both parts.now row.now) start k) }
    ensures none { result ≡ None → NoneFrom (in_both parts.now row.now) start }
{
    for part in parts {
        let word = shared_from(*part, row, start);
        if word != 0 {
            return Some(part.place as u32 * 64 + word.trailing_zeros());
        }
    }
    None
}

/// Whether parts are so few that they are gone through sooner than halved.
#[inline(always)]
pub(crate) fn are_few(parts: &[Part]) -> bool {
    parts.len() < 16
}

/// The first number from `start` on that both sets have. Where there are many parts, those before its place are passed over by halving, as
/// their places rise: where a level is wide they are thousands, and each step asks for the next option there.
#[inline(always)]
pub(crate) fn next_both(parts: &[Part], row: &[u64], start: u32) -> Option<u32>
    requires placed { ArePlaced 0 (length row.now) parts.now }
    requires small { 64 * length row.now < 2 ^ 32 }
    ensures some { IfSome result (λ k. IsFirstFrom (in_both parts.now row.now) start k) }
    ensures none { result ≡ None → NoneFrom (in_both parts.now row.now) start }
{
    if are_few(parts) {
        return first_both(parts, row, start);
    }
    let place = (start / 64) as usize;
    let before = parts.partition_point(|part| part.place < place);
    let (_, rest) = parts.split_at(before);
    first_both(rest, row, start)
}

/// The bits below one.
#[inline(always)]
fn below_bit(bit: u32) -> u64
    requires { bit < 64 }
    ensures { result ≡ 2 ^ bit - 1 }
{
    (1u64 << bit) - 1
}

/// The word that a part shares with a row, without the numbers from `end` on.
#[inline(always)]
fn shared_below(part: Part, row: &[u64], end: u32) -> u64
    requires { part.place < length row.now }
    ensures { result ≡ shared_below row.now end part }
{
    let word = part.word & row[part.place];
    if part.place < (end / 64) as usize {
        word
    } else if part.place == (end / 64) as usize {
        word & below_bit(end % 64)
    } else {
        0
    }
}

/// The last number below `end` that both sets have.
pub(crate) fn last_both(parts: &[Part], row: &[u64], end: u32) -> Option<u32>
    requires placed { ArePlaced 0 (length row.now) parts.now }
    requires small { 64 * length row.now < 2 ^ 32 }
    ensures some { IfSome result (λ k. IsLastBelow (in_both parts.now row.now) end k) }
    ensures none { result ≡ None → NoneBelow (in_both parts.now row.now) end }
{
    // From the front, though the last is wanted: only steps back ask for it.
    let mut last = None;
    for part in parts {
        let word = shared_below(*part, row, end);
        if word != 0 {
            last = Some(part.place as u32 * 64 + (63 - word.leading_zeros()));
        }
    }
    last
}

/// The first number from `start` on that a row has.
#[inline(always)]
pub(crate) fn first_in(row: &[u64], start: u32) -> Option<u32>
    requires { 64 * length row.now < 2 ^ 32 }
    ensures some { IfSome result (λ k. IsFirstFrom (in_row row.now) start k) }
    ensures none { result ≡ None → NoneFrom (in_row row.now) start }
{
    for place in (start / 64) as usize..row.len() {
        // Shared with all numbers: the row's own word is left.
        let part = Part {
            word: u64::MAX,
            place,
        };
        let word = shared_from(part, row, start);
        if word != 0 {
            return Some(place as u32 * 64 + word.trailing_zeros());
        }
    }
    None
}
