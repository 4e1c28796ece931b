//! The entries of a history, to be read.
ghost use Rattle.std.specs.Prelude.{◌≡◌, ◌↔◌, ◌<◌, ◌++◌, length, map, slice_get, Some, IsTrue, IfOk, IfSome};
ghost use Rattle.lab_history.specs.EntryCode.{entry_of, AreEntryCodes, IsEntryCode};
ghost use Rattle.lab_history.specs.Kinds.{kind_of};
ghost use Rattle.lab_history.specs.declared.entry.Entry.{Entry};

use crate::code::{read_entry, read_kind, read_worker};
use crate::entry::Entry;
use crate::kind::CallKind;
use packed_rows::{Reader, Row, Rows};
use std::alloc::AllocError;
use std::marker::Model;

/// The entries of a history in order. Most of them are packed, and such an entry is made again where it is asked for; who called
/// and the kind of the call are told without that.
#[derive(Drop)]
pub struct Entries<'a> {
    rows: &'a Rows,
    last: &'a Vec<Entry>,
}

impl<'a> Model for Entries<'a> {
    ghost use Rattle.std.specs.Prelude.{◌++◌, List, map};
    ghost use Rattle.lab_history.specs.EntryCode.{entry_of, AreEntryCodes};
    ghost use Rattle.lab_history.specs.declared.entry.Entry.{Entry};

    ghost Value = { List Entry };

    ghost view = { λ e. map entry_of e.rows.now.rows ++ e.last.now.items };

    ghost invariant = { λ e. AreEntryCodes e.rows.now };
}

impl<'a> Entries<'a> {
    /// Those that are packed, and then the last ones.
    pub(crate) fn of(rows: &'a Rows, last: &'a Vec<Entry>) -> Entries<'a>
        requires { AreEntryCodes rows.now }
        ensures { result ≡ map entry_of rows.now.rows ++ last.now.items }
    {
        Entries { rows, last }
    }

    /// How many there are.
    pub fn len(&self) -> usize
        ensures { result ≡ length self.now }
    {
        self.rows.len() + self.last.len()
    }

    /// The entry at a place, made again.
    pub fn entry(&self, place: usize) -> Result<Entry, AllocError>
        requires { place < length self.now }
        ensures { IfOk result (λ entry. slice_get self.now place ≡ Some entry) }
    {
        let count = self.rows.len();
        // Behind the rows stand those that there was no memory to pack.
        if place >= count {
            return self.last[place - count].copy();
        }
        let alloc = *self.last.allocator();
        let entry = read_entry(alloc, &mut self.rows.row(place))?;
        Ok(entry)
    }

    /// Who called at a place.
    pub fn worker(&self, place: usize) -> u8
        requires { place < length self.now }
        ensures { IfSome (slice_get self.now place) (λ e. result ≡ e.worker) }
    {
        let count = self.rows.len();
        if place >= count {
            return self.last[place - count].worker();
        }
        read_worker(&mut self.rows.row(place))
    }

    /// What kind of call the entry at a place is of.
    pub fn kind(&self, place: usize) -> CallKind
        requires { place < length self.now }
        ensures { IfSome (slice_get self.now place) (λ e. result ≡ kind_of e.call) }
    {
        let count = self.rows.len();
        if place >= count {
            return self.last[place - count].call().kind();
        }
        // Its first numbers alone are read, so no memory is taken.
        read_kind(&mut self.rows.row(place))
    }

    /// Whether the entry at a place is this one. A packed one is compared by a scratch row, without memory where this entry was
    /// written into that row before; where memory runs out, nothing is told.
    pub fn is(&self, place: usize, entry: &Entry, row: &mut Row) -> Result<bool, AllocError>
        requires { place < length self.now }
        ensures { IfOk result (λ same. IsTrue same ↔ (slice_get self.now place ≡ Some entry.now)) }
    {
        let count = self.rows.len();
        if place >= count {
            return Ok(self.last[place - count].same(entry));
        }
        // An entry has one code, so the rows are compared, and none is made an entry again.
        entry.write(row)?;
        Ok(self.rows.row(place).same(&row.reader()))
    }

    /// Whether the entry at a place is the one that these numbers tell. False tells nothing where they are not the code of an
    /// entry. One that isn't packed is compared by a scratch row, without memory where that entry was written into it before;
    /// where memory runs out, nothing is told.
    pub fn is_told(
        &self,
        place: usize,
        numbers: &Reader<'_>,
        row: &mut Row,
    ) -> Result<bool, AllocError>
        requires { place < length self.now }
        ensures told { IfOk result
            (λ same. IsTrue same → slice_get self.now place ≡ Some (entry_of numbers.now)) }
        ensures all_told { IsEntryCode numbers.now → IfOk result
            (λ same. slice_get self.now place ≡ Some (entry_of numbers.now) → IsTrue same) }
    {
        let count = self.rows.len();
        if place >= count {
            // The numbers may be no entry's code, so this entry is written and they are not read.
            self.last[place - count].write(row)?;
            return Ok(row.reader().same(numbers));
        }
        Ok(self.rows.row(place).same(numbers))
    }
}
