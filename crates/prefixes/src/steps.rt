//! How far two lists of numbers begin alike.
ghost use Rattle.std.specs.Prelude.{◌≡◌, ◌↔◌, ◌≤◌, ◌+◌, ◌*◌, IsTrue, length, take};

use std::simd::Simd;

/// How many numbers are compared at once.
const STEP: usize = 64;

/// Whether two lists begin with the same 64 numbers.
fn same_step(one: &[u32], other: &[u32]) -> bool
    requires long { 64 ≤ length one.now }
    requires other_long { 64 ≤ length other.now }
    ensures { IsTrue result ↔ (take 64 one.now ≡ take 64 other.now) }
{
    // One mask for all of them: no branch stands between.
    Simd::<u32, 64>::from_slice(one)
        .simd_ne(Simd::from_slice(other))
        .to_bitmask()
        == 0
}

/// How many steps of 64 numbers two lists have in common, from the first on: the next one differs, or isn't there whole.
pub fn steps_alike(one: &[u32], other: &[u32]) -> usize
    ensures same { take (64 * result) one.now ≡ take (64 * result) other.now }
    ensures within { 64 * result ≤ length one.now }
    ensures within_other { 64 * result ≤ length other.now }
    ensures most { 64 * result + 64 ≤ length one.now → 64 * result + 64 ≤ length other.now →
        take (64 * result + 64) one.now ≡ take (64 * result + 64) other.now → ⊥ }
{
    let mut steps = 0;
    let mut left = one;
    let mut against = other;
    'comparing: while left.len() >= STEP && against.len() >= STEP {
        if !same_step(left, against) {
            return steps;
        }
        let (_, rest) = left.split_at(STEP);
        let (_, other_rest) = against.split_at(STEP);
        steps += 1;
        left = rest;
        against = other_rest;
    }
    steps
}
