//! The numbers of a row, one after another.
ghost use Rattle.std.specs.Prelude.{◌≡◌, ◌↔◌, ◌∷◌, [], ◌≤◌, length, drop, slice_index, MatchOption, IsTrue};
ghost use Rattle.packed_rows.specs.Numbers.{numbers_of, after_first, IsSpelled};

use crate::rope::{Rope, same};
use std::marker::Model;

/// What is left of a row: its numbers from one on, which are read as they are asked for. Its bytes are
/// those that its numbers were put as.
#[derive(Drop)]
pub struct Reader<'a> {
    rope: Rope<'a>,
}

impl<'a> Model for Reader<'a> {
    ghost use Rattle.std.specs.Prelude.{ℕ, List};
    ghost use Rattle.packed_rows.specs.Numbers.{numbers_of, IsSpelled};

    ghost Value = { List ℕ };

    ghost view = { λ r. numbers_of r.rope };

    ghost invariant = { λ r. IsSpelled r.rope };
}

/// Takes the first number of some bytes, in whatever pieces; none where none is whole.
fn far(rope: &mut Rope<'_>) -> Option<u64>
    ensures number { MatchOption result (numbers_of rope.old ≡ []) (λ n.
        (numbers_of rope.old ≡ n ∷ numbers_of rope.new) × (rope.new ≡ after_first rope.old)) }
    ensures fewer { length rope.new ≤ length rope.old }
{
    let mut high: u64 = 0;
    // A number's bytes may stand in two pieces, so they are asked for one by one.
    'reading: while let Some(byte) = rope.byte() {
        // Seven bits more would pass 64: no number was put so.
        if high >= 1 << 57 {
            return None;
        }
        let byte = byte as u64;
        if byte < 128 {
            return Some(high * 128 + byte);
        }
        high = high * 128 + (byte - 128);
    }
    None
}

/// Takes the first number of some bytes, if it has two at most and they are at hand; else none.
#[inline(always)]
fn near(rope: &mut Rope<'_>) -> Option<u64>
    ensures number { MatchOption result (rope.new ≡ rope.old) (λ n.
        (numbers_of rope.old ≡ n ∷ numbers_of rope.new) × (rope.new ≡ after_first rope.old)) }
    ensures fewer { length rope.new ≤ length rope.old }
{
    if let Some(byte) = rope.small() {
        return Some(byte as u64);
    }
    let (first, second) = rope.pair()?;
    Some((first as u64 - 128) * 128 + second as u64)
}

/// Takes the first number of some bytes; none where none is whole.
#[inline(always)]
fn first(rope: &mut Rope<'_>) -> Option<u64>
    ensures number { MatchOption result (numbers_of rope.old ≡ []) (λ n.
        (numbers_of rope.old ≡ n ∷ numbers_of rope.new) × (rope.new ≡ after_first rope.old)) }
    ensures fewer { length rope.new ≤ length rope.old }
{
    // Most numbers have few bytes, which stand together.
    match near(rope) {
        Some(number) => Some(number),
        None => far(rope),
    }
}

impl<'a> Reader<'a> {
    /// Of the numbers of these bytes.
    pub(crate) fn of(rope: Rope<'a>) -> Reader<'a>
        requires { IsSpelled rope }
        ensures { result ≡ numbers_of rope.entry }
    {
        Reader { rope }
    }

    /// The next number; none where no more is whole.
    pub fn next(&mut self) -> Option<u64>
        ensures { MatchOption result ((self.old ≡ []) × (self.new ≡ []))
            (λ n. self.old ≡ n ∷ self.new) }
    {
        match first(&mut self.rope) {
            Some(number) => Some(number),
            None => None,
        }
    }

    /// Whether no number is left.
    pub fn is_empty(&self) -> bool
        ensures { IsTrue result ↔ (self.now ≡ []) }
    {
        self.rope.copy().part(1).is_empty()
    }

    /// Whether the same numbers are left. Their bytes are compared, for each number is put in one way.
    pub fn same(&self, other: &Reader<'_>) -> bool
        ensures { IsTrue result ↔ (self.now ≡ other.now) }
    {
        same(&mut self.rope.copy(), &mut other.rope.copy())
    }

    /// The next number; 0 where no more is whole.
    pub fn number(&mut self) -> u64
        ensures number { result ≡ slice_index self.old 0 }
        ensures rest { self.new ≡ drop 1 self.old }
    {
        match self.next() {
            // No refusal: what was put is all there, and who reads it needs no case for what can't be.
            Some(number) => number,
            None => 0,
        }
    }
}
