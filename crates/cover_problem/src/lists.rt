//! Lists of numbers, flat in memory.
ghost use Rattle.std.specs.Prelude.{◌≡◌, ◌==◌, ◌<◌, ◌≤◌, ◌++◌, ◌∷◌, ◌+◌, ◌-◌, ◌^◌, ◌↔◌, IsTrue, All, map, vec_len, vec_capacity};
ghost use Rattle.std.specs.Prelude.{[], ℕ, List, length, take, drop, slice_index_or, OnOk, OnErr};
ghost use Rattle.cover_problem.specs.FlatLists.{start_at};
ghost use Rattle.shared_words.specs.Answers.{Returns};

use std::alloc::{AllocError, Global};
use std::marker::Model;

/// Lists of numbers, in order: the numbers of all of them one after another, and where among these each list ends.
#[derive(Drop)]
pub struct Lists {
    // Two blocks, and not one for each list: a problem has up to 262,143 options of a few items.
    flat: Vec<u32>,
    ends: Vec<usize>,
}

impl Model for Lists {
    ghost use Rattle.std.specs.Prelude.{ℕ, List};
    ghost use Rattle.cover_problem.specs.FlatLists.{lists_at, IsParted};

    ghost Value = { List (List ℕ) };

    ghost view = { λ a. lists_at a.flat.items 0 a.ends.items };

    ghost invariant = { λ a. IsParted a.flat.items 0 a.ends.items };
}

/// A list of at most so many numbers is added one by one: for a few, a copy of memory takes longer.
const FEW: usize = 8;

/// The part of a list from one place up to another.
fn part(list: &[u32], start: usize, end: usize) -> &[u32]
    requires order { start ≤ end }
    requires within { end ≤ length list.now }
    ensures { result.now ≡ take (end - start) (drop start list.now) }
{
    let (_, rest) = list.split_at(start);
    let (part, _) = rest.split_at(end - start);
    part
}

/// Where the list at a place begins.
fn start_of(ends: &[usize], place: usize) -> usize
    requires { place ≤ length ends.now }
    ensures { result ≡ start_at 0 ends.now place }
{
    // Only ends are kept: a list begins where the one before it ends.
    if place == 0 { 0 } else { ends[place - 1] }
}

/// Makes room for so many more, with no call where there is room.
#[inline(always)]
fn make_room<T>(list: &mut Vec<T>, more: usize) -> Result<(), AllocError>
    ensures same { list.new.items ≡ list.old.items }
    ensures room { OnOk result (vec_len list.new + more ≤ vec_capacity list.new) }
{
    if list.capacity() - list.len() < more {
        list.reserve(more)?;
    }
    Ok(())
}

/// Pushes each number.
#[inline(always)]
fn push_each(flat: &mut Vec<u32>, list: &[u32])
    requires room { vec_len flat.old + length list.now ≤ vec_capacity flat.old }
    ensures { flat.new.items ≡ flat.old.items ++ list.now }
{
    for number in list {
        flat.push_reserved(*number);
    }
}

/// Adds the numbers of a list. Where memory runs out, nothing changes.
#[inline(always)]
fn extend(flat: &mut Vec<u32>, list: &[u32]) -> Result<(), AllocError>
    ensures added { OnOk result (flat.new.items ≡ flat.old.items ++ list.now) }
    ensures unchanged { OnErr result (flat.new.items ≡ flat.old.items) }
{
    if list.len() > FEW {
        return flat.extend_from_slice(list);
    }
    make_room(flat, list.len())?;
    push_each(flat, list);
    Ok(())
}

/// Pushes each number, with `start` added.
fn push_moved(ends: &mut Vec<usize>, more: &[usize], start: usize)
    requires room { vec_len ends.old + length more.now ≤ vec_capacity ends.old }
    requires fits { All (λ end. start + end < 2 ^ 64) more.now }
    ensures { ends.new.items ≡ ends.old.items ++ map (λ end. start + end) more.now }
{
    for end in more {
        ends.push_reserved(start + *end);
    }
}

impl Lists {
    /// No list.
    pub fn new(alloc: Global) -> Lists
        ensures { result ≡ [] }
    {
        Lists {
            flat: Vec::new(alloc),
            ends: Vec::new(alloc),
        }
    }

    /// How many lists there are.
    pub fn len(&self) -> usize
        ensures { result ≡ length self.now }
    {
        self.ends.len()
    }

    /// Whether there is none.
    pub fn is_empty(&self) -> bool
        ensures { result ≡ (length self.now == 0) }
    {
        self.len() == 0
    }

    /// The list at a place, from 0.
    pub fn list(&self, place: usize) -> &[u32]
        requires { place < length self.now }
        ensures { result.now ≡ slice_index_or self.now place [] }
    {
        let start = start_of(&self.ends, place);
        part(&self.flat, start, self.ends[place])
    }

    /// Adds a list at the end. Where memory runs out, nothing changes.
    #[inline(always)]
    pub fn push(&mut self, list: &[u32]) -> Result<(), AllocError>
        ensures added { OnOk result (self.new ≡ self.old ++ list.now ∷ []) }
        ensures unchanged { OnErr result (self.new ≡ self.old) }
    {
        // Room for the end is made before anything changes: what follows fails as a whole, or can't fail.
        make_room(&mut self.ends, 1)?;
        extend(&mut self.flat, list)?;
        let end = self.flat.len();
        self.ends.push_reserved(end);
        Ok(())
    }

    /// Adds the lists of another list at the end. Where memory runs out, nothing changes.
    pub fn append(&mut self, other: &Lists) -> Result<(), AllocError>
        ensures added { OnOk result (self.new ≡ self.old ++ other.now) }
        ensures unchanged { OnErr result (self.new ≡ self.old) }
    {
        // As in `push`, all room is made before anything changes.
        self.ends.reserve(other.ends.len())?;
        self.flat.extend_from_slice(&other.flat)?;
        let end = self.flat.len();
        let count = other.flat.len();
        let start = end - count;
        push_moved(&mut self.ends, &other.ends, start);
        Ok(())
    }

    /// Takes the last list away.
    pub fn pop(&mut self)
        requires { 0 < length self.old }
        ensures { (list : List ℕ) × (self.old ≡ self.new ++ list ∷ []) }
    {
        let count = self.ends.len() - 1;
        self.ends.truncate(count);
        let end = start_of(&self.ends, count);
        self.flat.truncate(end);
    }

    /// Takes all lists away, and keeps their room.
    pub fn clear(&mut self)
        ensures { self.new ≡ [] }
    {
        self.flat.clear();
        self.ends.clear();
    }

    /// Whether they are the same lists.
    pub fn same(&self, other: &Lists) -> bool
        ensures { IsTrue result ↔ (self.now ≡ other.now) }
    {
        // The numbers alone don't tell where one list ends and the next begins.
        self.flat == other.flat && self.ends == other.ends
    }

    /// The same lists, in memory of their own.
    pub fn copy(&self) -> Result<Lists, AllocError>
        ensures { Returns result self.now }
    {
        // Copied as blocks, where `clone` goes number by number.
        let alloc = *self.flat.allocator();
        let flat = Vec::from_slice(alloc, &self.flat)?;
        let ends = Vec::from_slice(alloc, &self.ends)?;
        Ok(Lists { flat, ends })
    }
}
