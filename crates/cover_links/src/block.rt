//! One raw block of entries. A clause sees it as the list of its entries.
ghost use Rattle.std.specs.Prelude.{◌≡◌, ℕ, ◌*◌, ◌<◌, length, replicate, slice_set};
ghost use Rattle.shared_words.specs.Answers.{Returns};
ghost use Rattle.cover_links.specs.Ownership.{entry_size, FitsInBlock};
ghost use Rattle.cover_links.specs.Entries.{entry_at};

use crate::entry::{Offset, TableEntry};
use crate::raw::{Allocation, Base, Slots, allocate, deallocate};
use std::alloc::{AllocError, Allocator, Global};
use std::marker::Model;
use std::mem::size_of;

/// The entries of a block, apart from where they begin. Who goes through many of them keeps that address by value: a compiler
/// would load it again from the block after each entry that is written.
pub(crate) struct BlockRow {
    len: usize,
    slots: Slots,
}

impl Model for BlockRow {
    ghost use Rattle.std.specs.Prelude.{◌≡◌, length};
    ghost use Rattle.cover_links.specs.Slots.{values, IsFull};
    ghost use Rattle.cover_links.specs.Row.{RowValue, place};

    ghost Value = { RowValue };

    ghost view = { λ r. record { place = place r.slots.at r.len; entries = values r.slots.slots } };

    ghost invariant = { λ r. (length r.slots.slots ≡ r.len) × IsFull r.slots.slots };
}

impl BlockRow {
    /// The entry that has so many bytes before it, by where the row begins.
    #[inline(always)]
    fn read_at(&self, base: Base, bytes: usize) -> TableEntry
        requires place { base.ptr ≡ self.now.place.at }
        requires within { (i : ℕ) × (bytes ≡ i * entry_size) × (i < length self.now.entries) }
        ensures { (i : ℕ) → bytes ≡ i * entry_size → result ≡ entry_at self.now.entries i }
    {
        *self.slots.get(base, bytes)
    }

    /// Puts an entry there.
    #[inline(always)]
    fn write_at(&mut self, base: Base, bytes: usize, entry: TableEntry)
        requires place { base.ptr ≡ self.old.place.at }
        requires within { (i : ℕ) × (bytes ≡ i * entry_size) × (i < length self.old.entries) }
        ensures place { self.new.place ≡ self.old.place }
        ensures entries { (i : ℕ) → bytes ≡ i * entry_size → self.new.entries ≡ slice_set self.old.entries i entry }
    {
        self.slots.put(base, bytes, entry)
    }

    /// The entry at an offset, by where the row begins.
    #[inline(always)]
    pub fn read(&self, base: Base, offset: Offset) -> TableEntry
        requires place { base.ptr ≡ self.now.place.at }
        requires within { offset < length self.now.entries }
        ensures { result ≡ entry_at self.now.entries offset }
    {
        self.read_at(base, offset.bytes())
    }

    /// Puts an entry at an offset, by where the row begins.
    #[inline(always)]
    pub fn write(&mut self, base: Base, offset: Offset, entry: TableEntry)
        requires place { base.ptr ≡ self.old.place.at }
        requires within { offset < length self.old.entries }
        ensures place { self.new.place ≡ self.old.place }
        ensures entries { self.new.entries ≡ slice_set self.old.entries offset entry }
    {
        self.write_at(base, offset.bytes(), entry)
    }
}

/// A block of entries, each read and written by its index. Its parts are not `Drop`, so that none of them can be let go: a block
/// that is dropped goes back to its allocator.
pub struct Block<A: Allocator = Global> {
    pub(crate) base: Base,
    pub(crate) row: BlockRow,
    allocation: Allocation<A>,
    alloc: A,
}

impl<A: Allocator> Model for Block<A> {
    ghost use Rattle.std.specs.Prelude.{◌≡◌, List};
    ghost use Rattle.cover_links.specs.declared.entry.TableEntry.{TableEntry};

    ghost Value = { List TableEntry };

    ghost view = { λ a. a.row.entries };

    ghost invariant = { λ a. (a.row.place.at ≡ a.base.ptr) × (a.allocation.at ≡ a.base.ptr)
        × (a.allocation.len ≡ a.row.place.len) × (a.allocation.alloc ≡ a.alloc) };
}

impl<A: Allocator> Block<A> {
    /// A block of so many entries, each the one given.
    pub fn make(alloc: A, len: usize, blank: TableEntry) -> Result<Block<A>, AllocError>
        requires { FitsInBlock len }
        ensures { Returns result (replicate len blank) }
    {
        // Each place is written here, so who reads one never meets a place that is empty.
        let (base, mut slots, allocation) = allocate(&alloc, len)?;
        // Copied through a reference: round a loop the prover follows no copy of an argument whose type has a model in it.
        let each = &blank;
        for index in 0..len {
            slots.put(base, index * size_of::<TableEntry>(), *each);
        }
        Ok(Block {
            base,
            row: BlockRow { len, slots },
            allocation,
            alloc,
        })
    }

    /// The entry that has so many bytes before it.
    #[inline(always)]
    pub(crate) fn read_at(&self, bytes: usize) -> TableEntry
        requires { (i : ℕ) × (bytes ≡ i * entry_size) × (i < length self.now) }
        ensures { (i : ℕ) → bytes ≡ i * entry_size → result ≡ entry_at self.now i }
    {
        self.row.read_at(self.base, bytes)
    }

    /// The entry at an index.
    #[inline(always)]
    pub fn read(&self, index: u32) -> TableEntry
        requires { index < length self.now }
        ensures { result ≡ entry_at self.now index }
    {
        self.row
            .read_at(self.base, index as usize * size_of::<TableEntry>())
    }

    /// Puts an entry at an index.
    #[inline(always)]
    pub fn write(&mut self, index: u32, entry: TableEntry)
        requires { index < length self.old }
        ensures { self.new ≡ slice_set self.old index entry }
    {
        self.row
            .write_at(self.base, index as usize * size_of::<TableEntry>(), entry)
    }
}

impl<A: Allocator> Drop for Block<A> {
    fn drop(self) {
        // Taken apart, since none of the parts is `Drop`: each has to go to `deallocate`.
        let Block {
            base,
            row,
            allocation,
            alloc,
        } = self;
        let BlockRow { len, slots } = row;
        deallocate(&alloc, base, len, slots, allocation);
    }
}
