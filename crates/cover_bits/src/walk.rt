//! A walk over the numbers of a row, from the least on. Each number that is met is taken out of a copy of its word, so that the next one
//! is the lowest bit again.
ghost use Rattle.std.specs.Prelude.{◌≡◌, ◌<◌, ◌+◌, ◌-◌, ◌*◌, ◌/◌, ◌^◌, ◌&&◌, ◌==◌, not, true, false, IsTrue, ◌↔◌, ℕ, length, None, IfSome};
ghost use Rattle.cover_bits.specs.Parts.{in_row, to_come, IsFirstFrom, NoneFrom};

/// What is left of a walk: the numbers of the word at a place that weren't met, and all those of later words.
#[derive(Clone, Copy)]
pub struct Rest {
    pub word: u64,
    pub place: u32,
    /// The number of the word's lowest bit: kept, so that it isn't worked out for each number.
    pub first: u32,
}

/// A walk that has met nothing.
#[inline(always)]
pub(crate) fn whole(row: &[u64]) -> Rest
    requires some { 0 < length row.now }
    ensures placed { result.place < length row.now }
    ensures starts { result.first ≡ 64 * result.place }
    ensures all { (k : ℕ) → to_come row.now result k ≡ in_row row.now k }
{
    Rest {
        word: row[0],
        place: 0,
        first: 0,
    }
}

/// Goes on to a word that has numbers, if there is one.
#[inline(always)]
fn find_word(rest: &mut Rest, row: &[u64]) -> bool
    requires placed { rest.old.place < length row.now }
    requires starts { rest.old.first ≡ 64 * rest.old.place }
    requires small { 64 * length row.now < 2 ^ 32 }
    ensures placed { rest.new.place < length row.now }
    ensures starts { rest.new.first ≡ 64 * rest.new.place }
    ensures same { (k : ℕ) → to_come row.now rest.new k ≡ to_come row.now rest.old k }
    ensures found { IsTrue result → 0 < rest.new.word }
    ensures fits { rest.new.word < 2 ^ 64 }
    ensures none { result ≡ false → (k : ℕ) → to_come row.now rest.old k ≡ false }
{
    while rest.word == 0 {
        let place = rest.place + 1;
        if place as usize >= row.len() {
            return false;
        }
        *rest = Rest {
            word: row[place as usize],
            place,
            first: place * 64,
        };
    }
    true
}

/// The next number of the walk, if there is one.
#[inline(always)]
pub(crate) fn take_next(rest: &mut Rest, row: &[u64]) -> Option<u32>
    requires placed { rest.old.place < length row.now }
    requires starts { rest.old.first ≡ 64 * rest.old.place }
    requires small { 64 * length row.now < 2 ^ 32 }
    ensures placed { rest.new.place < length row.now }
    ensures starts { rest.new.first ≡ 64 * rest.new.place }
    ensures first { IfSome result (λ k. IsFirstFrom (to_come row.now rest.old) 0 k) }
    ensures left { IfSome result (λ k. (j : ℕ) → to_come row.now rest.new j ≡ (to_come row.now rest.old j && not (j == k))) }
    ensures none { result ≡ None → NoneFrom (to_come row.now rest.old) 0 }
{
    if !find_word(rest, row) {
        return None;
    }
    let bit = rest.word.trailing_zeros();
    rest.word &= !(1u64 << bit);
    Some(rest.first + bit)
}
