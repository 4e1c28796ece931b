//! A history with room kept for entries to come.
ghost use Rattle.std.specs.Prelude.{◌≡◌, ◌≤◌, ◌<◌, ◌+◌, ◌-◌, ◌++◌, ◌∷◌, [], length, map, vec_len, vec_capacity, OnOk, OnErr};
ghost use Rattle.lab_history.specs.EntryCode.{entry_of, all_entries, AreEntryCodes};

use crate::entries::Entries;
use crate::entry::Entry;
use packed_rows::{Row, Rows};
use std::alloc::{AllocError, Global};
use std::marker::Model;

/// Entries, with room for as many more as `kept` says: these can be added without memory. An entry is packed into a row of
/// numbers as soon as there is memory for that; `last` are those that are not.
#[derive(Drop)]
pub struct History {
    rows: Rows,
    /// The entry that is packed.
    row: Row,
    last: Vec<Entry>,
    kept: usize,
}

impl Model for History {
    ghost use Rattle.std.specs.Prelude.{◌+◌, ◌≤◌, ◌++◌, map, vec_len, vec_capacity};
    ghost use Rattle.lab_history.specs.History.{HistoryValue};
    ghost use Rattle.lab_history.specs.EntryCode.{entry_of, AreEntryCodes};

    ghost Value = { HistoryValue };

    ghost view = { λ h. record { entries = map entry_of h.rows.rows ++ h.last.items; kept = h.kept } };

    ghost invariant = { λ h. (vec_len h.last + h.kept ≤ vec_capacity h.last) × AreEntryCodes h.rows };
}

/// Packs the first of the last entries.
fn pack_first(rows: &mut Rows, row: &mut Row, last: &mut Vec<Entry>) -> Result<(), AllocError>
    requires { 0 < vec_len last.old }
    ensures all { all_entries rows.new last.new ≡ all_entries rows.old last.old }
    ensures fewer { OnOk result (vec_len last.new + 1 ≡ vec_len last.old) }
    ensures unchanged { OnErr result (vec_len last.new ≡ vec_len last.old) }
    ensures capacity { vec_capacity last.old ≤ vec_capacity last.new }
    ensures codes { AreEntryCodes rows.old → AreEntryCodes rows.new }
{
    last[0].write(row)?;
    // Before it is removed from the last ones: where memory runs out, it is still there.
    rows.push(row)?;
    // Those behind it move, and mostly there is none: each is packed when it is added.
    let _entry = last.remove(0);
    Ok(())
}

/// Packs the last entries, as far as there is memory.
fn pack(rows: &mut Rows, row: &mut Row, last: &mut Vec<Entry>)
    ensures all { all_entries rows.new last.new ≡ all_entries rows.old last.old }
    ensures fewer { vec_len last.new ≤ vec_len last.old }
    ensures capacity { vec_capacity last.old ≤ vec_capacity last.new }
    ensures codes { AreEntryCodes rows.old → AreEntryCodes rows.new }
{
    'packing: while !last.is_empty() {
        if pack_first(rows, row, last).is_err() {
            // They stay as they are; the next entry that is added tries them again.
            return;
        }
    }
}

impl History {
    /// No entry.
    pub fn new(alloc: Global) -> History
        ensures { result ≡ record { entries = []; kept = 0 } }
    {
        History {
            rows: Rows::new(alloc),
            row: Row::new(alloc),
            last: Vec::new(alloc),
            kept: 0,
        }
    }

    /// The entries.
    pub fn entries(&self) -> Entries<'_>
        ensures { result ≡ self.now.entries }
    {
        Entries::of(&self.rows, &self.last)
    }

    /// How many entries there are.
    pub fn len(&self) -> u64
        ensures { result ≡ length self.now.entries }
    {
        (self.rows.len() + self.last.len()) as u64
    }

    /// Keeps room for so many entries more. Where memory runs out, nothing changes.
    pub fn keep(&mut self, count: usize) -> Result<(), AllocError>
        requires { count ≤ 2 }
        ensures kept { OnOk result (self.new ≡ record self.old { kept = self.old.kept + count }) }
        ensures unchanged { OnErr result (self.new ≡ self.old) }
    {
        // Room beside what was kept before: entries may come between.
        self.last.reserve(self.kept + count)?;
        self.kept += count;
        Ok(())
    }

    /// Gives the room for one entry up.
    pub fn give_up(&mut self)
        requires { 0 < self.old.kept }
        ensures { self.new ≡ record self.old { kept = self.old.kept - 1 } }
    {
        self.kept -= 1;
    }

    /// Adds an entry where room was kept for it, and packs it.
    pub fn add(&mut self, entry: Entry)
        requires { 0 < self.old.kept }
        ensures { self.new ≡
            record { entries = self.old.entries ++ entry ∷ []; kept = self.old.kept - 1 } }
    {
        // Into the room that was kept: packing may fail, and an entry must not.
        self.last.push_reserved(entry);
        self.kept -= 1;
        pack(&mut self.rows, &mut self.row, &mut self.last);
    }
}
