//! Rows one after another.
ghost use Rattle.std.specs.Prelude.{◌≡◌, ◌++◌, ◌∷◌, [], ◌<◌, ◌≤◌, ◌^◌, ◌*◌, ◌+◌, ◌-◌, length, vec_len, vec_capacity, take, drop};
ghost use Rattle.std.specs.Prelude.{OnOk, OnErr, slice_index_or};
ghost use Rattle.std.specs.List.{flat_map};
ghost use Rattle.shared_words.specs.Answers.{Returns};
ghost use Rattle.packed_rows.specs.Numbers.{bytes_of, most_bytes};
ghost use Rattle.packed_rows.specs.Pieces.{span_of};
ghost use Rattle.cover_problem.specs.FlatLists.{start_at};
ghost use Rattle.packed_rows.specs.Rows.{added, keeping, without_last};

use crate::draft::{Bases, put_bytes, put_place, put_row};
use crate::reader::Reader;
use crate::rope::Rope;
use crate::row::{Row, put};
use std::alloc::{AllocError, Global};
use std::marker::Model;

/// Rows in one block of bytes, each as pieces of it: where a long list of a row begins as one of a row before it, both share these bytes.
/// Room is kept for as many short rows as `kept` says, of eight numbers at most, and beside them for one row of as many numbers as
/// `room` says: these can be added without memory.
#[derive(Drop)]
// One block for all rows: many take a few bytes, less than a block of their own would cost.
pub struct Rows {
    block: Vec<u8>,
    /// Of each piece the place where it begins and its size.
    places: Vec<usize>,
    ends: Vec<usize>,
    bases: Bases,
    /// The places of the row that is added.
    draft: Vec<usize>,
    kept: usize,
    room: usize,
}

impl Model for Rows {
    ghost use Rattle.std.specs.Prelude.{vec_len, vec_capacity};
    ghost use Rattle.packed_rows.specs.Rows.{RowsValue, rows_at, KeepsPieces, HasRoom};

    ghost Value = { RowsValue };

    ghost view = { λ r. record { rows = rows_at r.block.items r.places.items r.ends.items; kept = r.kept; room = r.room } };

    ghost invariant = { λ r. KeepsPieces r.block.items r.places.items r.ends.items
        × HasRoom (vec_len r.block) (vec_capacity r.block) (vec_len r.places) (vec_capacity r.places) (vec_len r.ends)
        (vec_capacity r.ends) r.kept r.room };
}

/// The part of a list from one place up to another.
fn part(list: &[usize], start: usize, end: usize) -> &[usize]
    requires order { start ≤ end }
    requires within { end ≤ length list.now }
    ensures { result.now ≡ take (end - start) (drop start list.now) }
{
    let (_, rest) = list.split_at(start);
    let (part, _) = rest.split_at(end - start);
    part
}

/// Where the row at a place begins.
pub(crate) fn start_of(ends: &[usize], place: usize) -> usize
    requires { place ≤ length ends.now }
    ensures { result ≡ start_at 0 ends.now place }
{
    if place == 0 { 0 } else { ends[place - 1] }
}

/// Adds the bytes of numbers.
fn put_all(bytes: &mut Vec<u8>, more: &[u64])
    requires room { vec_len bytes.old + 10 * length more.now ≤ vec_capacity bytes.old }
    ensures added { bytes.new.items ≡ bytes.old.items ++ flat_map bytes_of more.now }
    ensures long { vec_len bytes.new ≤ vec_len bytes.old + 10 * length more.now }
    ensures capacity { vec_capacity bytes.new ≡ vec_capacity bytes.old }
{
    'putting: for n in more {
        put(bytes, *n);
    }
}

/// Adds a row's bytes and those of more numbers as one piece, its place, and the end of the row.
fn add_piece(
    block: &mut Vec<u8>,
    places: &mut Vec<usize>,
    ends: &mut Vec<usize>,
    row: &[u8],
    more: &[u64],
)
    requires room { vec_len block.old + most_bytes row.now more.now ≤ vec_capacity block.old }
    requires places_room { vec_len places.old + 2 ≤ vec_capacity places.old }
    requires end_room { vec_len ends.old < vec_capacity ends.old }
    ensures added { block.new.items ≡ block.old.items ++ (row.now ++ flat_map bytes_of more.now) }
    ensures place { places.new.items ≡ places.old.items ++
        span_of (length block.old.items) (length (row.now ++ flat_map bytes_of more.now)) }
    ensures ends { ends.new.items ≡ ends.old.items ++ length places.new.items ∷ [] }
    ensures long { vec_len block.new ≤ vec_len block.old + most_bytes row.now more.now }
    ensures few { vec_len places.new ≤ vec_len places.old + 2 }
    ensures capacity { vec_capacity block.old ≤ vec_capacity block.new }
    ensures places_capacity { vec_capacity places.new ≡ vec_capacity places.old }
    ensures count { vec_len ends.new ≡ vec_len ends.old + 1 }
    ensures ends_capacity { vec_capacity ends.new ≡ vec_capacity ends.old }
{
    let start = block.len();
    // Room is kept for all of it, so nothing is ever refused.
    put_bytes(block, row);
    put_all(block, more);
    put_place(places, start, block.len() - start);
    ends.push_reserved(places.len());
}

/// Adds the places of a row, and its end.
fn end_row(places: &mut Vec<usize>, ends: &mut Vec<usize>, more: &[usize])
    requires room { vec_len places.old + length more.now ≤ vec_capacity places.old }
    requires end_room { vec_len ends.old < vec_capacity ends.old }
    ensures added { places.new.items ≡ places.old.items ++ more.now }
    ensures long { vec_len places.new ≡ vec_len places.old + length more.now }
    ensures capacity { vec_capacity places.old ≤ vec_capacity places.new }
    ensures ends { ends.new.items ≡ ends.old.items ++ length places.new.items ∷ [] }
    ensures count { vec_len ends.new ≡ vec_len ends.old + 1 }
    ensures ends_capacity { vec_capacity ends.new ≡ vec_capacity ends.old }
{
    let Ok(()) = places.extend_from_slice(more) else {
        unreachable!()
    };
    ends.push_reserved(places.len());
}

impl Rows {
    /// No row.
    pub fn new(alloc: Global) -> Rows
        ensures { result ≡ record { rows = []; kept = 0; room = 0 } }
    {
        Rows {
            block: Vec::new(alloc),
            places: Vec::new(alloc),
            ends: Vec::new(alloc),
            bases: Bases::new(),
            draft: Vec::new(alloc),
            kept: 0,
            room: 0,
        }
    }

    /// How many rows there are.
    pub fn len(&self) -> usize
        ensures count { result ≡ length self.now.rows }
        ensures bound { result < 2 ^ 63 }
    {
        self.ends.len()
    }

    /// Keeps room for so many short rows more, and beside them for one row of so many numbers. Where memory runs out, nothing changes.
    pub fn keep(&mut self, short: usize, room: usize) -> Result<(), AllocError>
        requires { short ≤ 2 }
        ensures kept { OnOk result (self.new ≡ keeping self.old (self.old.kept + short) room) }
        ensures unchanged { OnErr result (self.new ≡ self.old) }
    {
        let kept = self.kept + short;
        // Ten bytes for each number are always enough. A sum that is too large is refused as memory is.
        self.block
            .reserve(room.saturating_mul(10).saturating_add(80 * kept))?;
        self.places
            .reserve(room.saturating_mul(2).saturating_add(2 * kept))?;
        self.ends.reserve(room.saturating_add(kept))?;
        self.kept = kept;
        self.room = room;
        Ok(())
    }

    /// Gives the room for one row of many numbers up.
    pub fn give_up(&mut self)
        ensures { self.new ≡ keeping self.old self.old.kept 0 }
    {
        self.room = 0;
    }

    /// Adds a row of a row's numbers and more, where room is kept for so many.
    pub fn add(&mut self, row: &Row, more: &[u64])
        requires some { 0 < self.old.room }
        requires fits { length row.now + length more.now ≤ self.old.room }
        ensures { self.new ≡ added self.old (row.now ++ more.now) self.old.kept 0 }
    {
        add_piece(
            &mut self.block,
            &mut self.places,
            &mut self.ends,
            row.bytes(),
            more,
        );
        self.room = 0;
    }

    /// Adds a short row of a row's numbers and more, where room is kept for one.
    pub fn add_kept(&mut self, row: &Row, more: &[u64])
        requires some { 0 < self.old.kept }
        requires short { length row.now + length more.now ≤ 8 }
        ensures { self.new ≡
            added self.old (row.now ++ more.now) (self.old.kept - 1) self.old.room }
    {
        add_piece(
            &mut self.block,
            &mut self.places,
            &mut self.ends,
            row.bytes(),
            more,
        );
        self.kept -= 1;
    }

    /// Adds a row of a row's numbers. Where memory runs out, nothing changes;
    /// else the room for one row of many numbers is given up.
    pub fn push(&mut self, row: &Row) -> Result<(), AllocError>
        ensures added { OnOk result (self.new ≡ added self.old row.now self.old.kept 0) }
        ensures unchanged { OnErr result (self.new ≡ self.old) }
    {
        let bytes = row.bytes();
        let marks = row.marks();
        let most = marks.len().saturating_mul(4).saturating_add(6);
        // All room first: what follows can't fail.
        self.block
            .reserve(bytes.len().saturating_add(80 * self.kept))?;
        self.draft.clear();
        self.draft.reserve(most)?;
        self.places.reserve(most.saturating_add(2 * self.kept))?;
        self.ends.reserve(self.kept + 1)?;
        put_row(
            &mut self.block,
            &mut self.draft,
            &mut self.bases,
            bytes,
            marks,
        );
        end_row(&mut self.places, &mut self.ends, &self.draft);
        self.room = 0;
        Ok(())
    }

    /// Takes the last row away. Its bytes stay in the block: a later row finds there what it has in common with it.
    pub fn pop(&mut self)
        requires { 0 < length self.old.rows }
        ensures { self.new ≡ without_last self.old }
    {
        let count = self.ends.len() - 1;
        self.ends.truncate(count);
        let end = start_of(&self.ends, count);
        self.places.truncate(end);
    }

    /// The same rows, in memory of their own, with room for none more.
    pub fn copy(&self) -> Result<Rows, AllocError>
        ensures { Returns result (keeping self.now 0 0) }
    {
        let block = self.block.clone()?;
        let places = self.places.clone()?;
        let ends = self.ends.clone()?;
        Ok(Rows {
            block,
            places,
            ends,
            bases: Bases::new(),
            draft: Vec::new(*self.block.allocator()),
            kept: 0,
            room: 0,
        })
    }

    /// How many bytes the rows take.
    #[cfg(test)]
    pub(crate) fn size(&self) -> usize {
        let places = self.places.len() + self.len();
        self.block.len().saturating_add(places.saturating_mul(8))
    }

    /// The row at a place.
    pub fn row(&self, place: usize) -> Reader<'_>
        requires { place < length self.now.rows }
        ensures { result ≡ slice_index_or self.now.rows place [] }
    {
        let start = start_of(&self.ends, place);
        let places = part(&self.places, start, self.ends[place]);
        Reader::of(Rope::placed(&self.block, places))
    }
}
