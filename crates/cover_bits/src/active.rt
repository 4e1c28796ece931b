//! Which items are active, and since when the others are covered.
ghost use Rattle.std.specs.Prelude.{◌≡◌, ◌<◌, ◌≤◌, ◌+◌, ◌-◌, ◌*◌, ◌&&◌, ◌||◌, ◌==◌, ◌↔◌, IsTrue, IfSome, not, nat_lt, true, false, ℕ, length};
ghost use Rattle.std.specs.List.{All, position_or_len};
ghost use Rattle.shared_words.specs.Lists as members;
ghost use Rattle.shared_words.specs.Lists.{are_distinct};
ghost use Rattle.cover_bits.specs.Parts.{in_row};

use crate::sets::{add, has, remove};

/// Takes an item out of the active ones. A secondary item never stands there, so nothing is asked.
#[inline(always)]
pub fn deactivate(active: &mut [u64], item: u32)
    requires some { 0 < item }
    requires room { item ≤ 64 * length active.old }
    ensures long { length active.new ≡ length active.old }
    ensures removed { (k : ℕ) → in_row active.new k ≡ (in_row active.old k && not (k == item - 1)) }
{
    remove(active, (item - 1) as usize);
}

/// Puts it back among the active ones. A secondary item never stands there.
#[inline(always)]
pub fn activate(active: &mut [u64], primary: u32, item: u32)
    requires some { 0 < item }
    requires room { primary ≤ 64 * length active.old }
    ensures long { length active.new ≡ length active.old }
    ensures added { item ≤ primary → (k : ℕ) → in_row active.new k ≡ (in_row active.old k || (k == item - 1)) }
    ensures kept { primary < item → active.new ≡ active.old }
{
    if item <= primary {
        add(active, (item - 1) as usize);
    }
}

/// Puts items back among the active ones, as `activate` does.
#[inline(always)]
pub fn activate_each(active: &mut [u64], primary: u32, items: &[u32])
    requires some { All (λ i. 0 < i) items.now }
    requires room { primary ≤ 64 * length active.old }
    ensures long { length active.new ≡ length active.old }
    ensures each { (k : ℕ) → in_row active.new k ≡ (in_row active.old k || (nat_lt k primary && members.has items.now (k + 1))) }
{
    for item in items {
        activate(active, primary, *item);
    }
}

/// The place of an item in a list, or the list's length.
#[inline(always)]
pub fn place_of(items: &[u32], item: u32) -> usize
    ensures { result ≡ position_or_len (λ x. x == item) items.now }
{
    items.iter().take_while(|x| **x != item).count()
}

/// Whether an item is active. A secondary item never is.
#[inline(always)]
fn is_active(active: &[u64], primary: u32, item: u32) -> bool
    requires some { 0 < item }
    requires room { primary ≤ 64 * length active.now }
    ensures { IsTrue result ↔ ((item ≤ primary) × (in_row active.now (item - 1) ≡ true)) }
{
    item <= primary && has(active, (item - 1) as usize)
}

/// The place of an item in the list of covered items, or the list's length. What is active isn't covered, so the list is gone through
/// for others alone.
#[inline(always)]
fn place_among(covered: &[u32], active: &[u64], primary: u32, item: u32) -> usize
    requires some { 0 < item }
    requires room { primary ≤ 64 * length active.now }
    requires uncovered { item ≤ primary → in_row active.now (item - 1) ≡ true → members.has covered.now item ≡ false }
    ensures { result ≡ position_or_len (λ x. x == item) covered.now }
{
    if is_active(active, primary, item) {
        return covered.len();
    }
    place_of(covered, item)
}

/// How many items were covered before one, if it was covered last.
#[inline(always)]
pub fn time_if_last(covered: &[u32], item: u32) -> Option<usize>
    requires distinct { are_distinct covered.now ≡ true }
    ensures { IfSome result (λ time. time ≡ position_or_len (λ x. x == item) covered.now) }
{
    match covered.split_last() {
        Some((last, before)) if *last == item => Some(before.len()),
        _ => None,
    }
}

/// How many items were covered before one.
#[inline(always)]
pub fn time_of(covered: &[u32], active: &[u64], primary: u32, item: u32) -> usize
    requires distinct { are_distinct covered.now ≡ true }
    requires some { 0 < item }
    requires room { primary ≤ 64 * length active.now }
    requires uncovered { item ≤ primary → in_row active.now (item - 1) ≡ true → members.has covered.now item ≡ false }
    ensures { result ≡ position_or_len (λ x. x == item) covered.now }
{
    match covered.split_last() {
        Some((last, before)) if *last == item => before.len(),
        _ => place_among(covered, active, primary, item),
    }
}
