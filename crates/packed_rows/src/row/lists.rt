//! Lists behind their lengths, and each after the one before it.
ghost use Rattle.std.specs.Prelude.{◌≡◌, ◌++◌, ◌∷◌, [], ◌^◌, All, ℕ, List, ◌<◌, ◌≤◌, ◌+◌, ◌-◌, ◌*◌, ◌↔◌, IsTrue, length, take, vec_len, vec_capacity};
ghost use Rattle.std.specs.Prelude.{OnOk, OnErr, slice_index_or};
ghost use Rattle.std.specs.List.{flat_map};
ghost use Rattle.packed_rows.specs.Neighbours.{small_step, list_step, told_after, told_from, told_lists};
ghost use Rattle.packed_rows.specs.Numbers.{bytes_of, numbers_of, with_length, IsRow};
ghost use Rattle.packed_rows.specs.Pieces.{Grows};

use crate::row::{Row, SHARED, put_words};
use cover_problem::Lists;
use std::alloc::AllocError;
use std::mem;

/// The step from one number up to another, if it is small enough for twice it and 1 to take one byte.
#[inline(always)]
fn small_step(from: u32, to: u32) -> Option<u8>
    ensures { result ≡ small_step from to }
{
    if to < from {
        return None;
    }
    let step = to - from;
    if step < 64 { Some(step as u8) } else { None }
}

/// Whether lists have the same first numbers, so many.
// The numbers are few, mostly one to three: a call that compares memory would take longer than they do.
#[inline(always)]
fn begin_alike(one: &[u32], other: &[u32], count: usize) -> bool
    requires within { count ≤ length one.now }
    requires within_other { count ≤ length other.now }
    ensures { IsTrue result ↔ (take count one.now ≡ take count other.now) }
{
    'comparing: for place in 0..count {
        if one[place] != other[place] {
            return false;
        }
    }
    true
}

/// The step from the last number of one list up to that of another, if it is small and they have the same numbers before these.
#[inline(always)]
fn list_step(before: &[u32], list: &[u32]) -> Option<u8>
    ensures { result ≡ list_step before.now list.now }
{
    let count = list.len();
    if before.len() != count || count == 0 {
        return None;
    }
    // The last numbers first: where lists are no neighbours, these mostly tell it at once.
    let last = count - 1;
    let step = small_step(before[last], list[last]);
    if step.is_none() || begin_alike(before, list, last) {
        return step;
    }
    None
}

/// Adds the bytes that tell a short list after the one before it.
#[inline(always)]
fn put_short(bytes: &mut Vec<u8>, before: &[u32], list: &[u32])
    requires short { length list.now < 64 }
    requires room { vec_len bytes.old + (5 * length list.now + 1) ≤ vec_capacity bytes.old }
    ensures added { bytes.new.items ≡ bytes.old.items ++ flat_map bytes_of (told_after before.now list.now) }
    ensures words { All (λ n. n < 2 ^ 32) list.now }
{
    if let Some(step) = list_step(before, list) {
        bytes.push_reserved(2 * step + 1);
        return;
    }
    bytes.push_reserved(2 * list.len() as u8);
    put_words(bytes, list);
}

/// A row's bytes with those that tell lists from a place on, up to the first that is to be shared or that has no room; and the place of
/// that one.
// By value, and lent to no call on the way: so where the bytes lie, and how many they are, stays in registers.
fn filled(bytes: Vec<u8>, lists: &Lists, from: usize) -> (Vec<u8>, usize)
    requires row { IsRow bytes.items }
    requires after { 0 < from }
    requires within { from ≤ length lists.now }
    ensures row { IsRow result.0.items }
    ensures added { (ns : List ℕ) →
        numbers_of bytes.items ≡ ns ++ told_lists (take from lists.now) →
        numbers_of result.0.items ≡ ns ++ told_lists (take result.1 lists.now) }
    ensures words { All (All (λ n. n < 2 ^ 32)) (take from lists.now) →
        All (All (λ n. n < 2 ^ 32)) (take result.1 lists.now) }
    ensures further { from ≤ result.1 }
    ensures within { result.1 ≤ length lists.now }
{
    let mut bytes = bytes;
    let mut place = from;
    let mut before = lists.list(from - 1);
    'filling: while place < lists.len() {
        let list = lists.list(place);
        // Five bytes are enough for each number, and one for twice so few.
        if list.len() >= SHARED || bytes.capacity() - bytes.len() < 5 * list.len() + 1 {
            return (bytes, place);
        }
        put_short(&mut bytes, before, list);
        before = list;
        place += 1;
    }
    (bytes, place)
}

/// The list before the one at a place; none stands before the first.
fn list_before(lists: &Lists, place: usize) -> &[u32]
    requires { place ≤ length lists.now }
    ensures { result.now ≡ slice_index_or ([] ∷ lists.now) place [] }
{
    if place == 0 {
        return &[];
    }
    lists.list(place - 1)
}

impl Row {
    /// Adds a list behind its length; where memory runs out, nothing changes.
    pub fn put_with_length(&mut self, list: &[u32]) -> Result<(), AllocError>
        ensures added { OnOk result (self.new ≡ self.old ++ with_length list.now) }
        ensures unchanged { OnErr result (self.new ≡ self.old) }
        ensures words { All (λ n. n < 2 ^ 32) list.now }
    {
        let place = self.bytes.len();
        let marked = self.marks.len();
        self.put(list.len() as u64)?;
        let Err(refused) = self.put_list(list) else {
            return Ok(());
        };
        // The length goes again, and so does the mark that a refused list may leave.
        self.bytes.truncate(place);
        self.marks.truncate(marked);
        Err(refused)
    }

    /// Adds what tells a list after the one before it. Where memory runs out, a part of it may be there.
    fn put_after(&mut self, before: &[u32], list: &[u32]) -> Result<(), AllocError>
        ensures added { OnOk result (self.new ≡ self.old ++ told_after before.now list.now) }
        ensures grown { OnErr result (Grows self.old self.new) }
        ensures words { All (λ n. n < 2 ^ 32) list.now }
    {
        if let Some(step) = list_step(before, list) {
            return self.put((2 * step + 1) as u64);
        }
        self.put(2 * list.len() as u64)?;
        self.put_list(list)
    }

    /// Adds what tells lists from a place on, while there is room, up to the first that is to be shared; answers the place of that one.
    fn fill(&mut self, lists: &Lists, from: usize) -> usize
        requires after { 0 < from }
        requires within { from ≤ length lists.now }
        ensures added { (ns : List ℕ) →
            self.old ≡ ns ++ told_lists (take from lists.now) →
            self.new ≡ ns ++ told_lists (take result lists.now) }
        ensures words { All (All (λ n. n < 2 ^ 32)) (take from lists.now) →
            All (All (λ n. n < 2 ^ 32)) (take result lists.now) }
        ensures further { from ≤ result }
        ensures within { result ≤ length lists.now }
    {
        let alloc = *self.bytes.allocator();
        let taken = mem::replace(&mut self.bytes, Vec::new(alloc));
        let (bytes, after) = filled(taken, lists, from);
        self.bytes = bytes;
        after
    }

    /// Adds what tells lists. Where memory runs out, some of it may be there.
    fn put_each(&mut self, lists: &Lists) -> Result<(), AllocError>
        ensures added { OnOk result (self.new ≡ self.old ++ told_lists lists.now) }
        ensures grown { OnErr result (Grows self.old self.new) }
        ensures words { OnOk result (All (All (λ n. n < 2 ^ 32)) lists.now) }
    {
        let mut place = 0;
        'putting: while place < lists.len() {
            // This one makes room, where it is missing, for more than itself.
            self.put_after(list_before(lists, place), lists.list(place))?;
            place = self.fill(lists, place + 1);
        }
        Ok(())
    }

    /// Adds lists of numbers: how many there are, and then what tells each after the one before it, in one byte where its last number rises
    /// by less than 64 and all else is the same. Where memory runs out, nothing changes.
    pub fn put_lists(&mut self, lists: &Lists) -> Result<(), AllocError>
        ensures added { OnOk result (self.new ≡ self.old ++ length lists.now ∷ told_lists lists.now) }
        ensures unchanged { OnErr result (self.new ≡ self.old) }
        ensures words { OnOk result (All (All (λ n. n < 2 ^ 32)) lists.now) }
    {
        let size = self.bytes.len();
        let marks = self.marks.len();
        self.put(lists.len() as u64)?;
        let Err(refused) = self.put_each(lists) else {
            return Ok(());
        };
        // The lists that were put before memory ran out go again, with their number.
        self.bytes.truncate(size);
        self.marks.truncate(marks);
        Err(refused)
    }
}
