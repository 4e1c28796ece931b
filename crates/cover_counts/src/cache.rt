//! What was counted below sets of covered items, by the keys of the sets.
ghost use Rattle.std.specs.Prelude.{ℕ, ◌≡◌, List, [], Option, Some, length, IfSome, IfOk};
ghost use Rattle.cover_problem.specs.Problem.{ProblemValue};
ghost use Rattle.cover_problem.specs.Table.{IsCoveredList};
ghost use Rattle.cover_counts.specs.Below.{CountsBelow};
ghost use Rattle.cover_counts.specs.Keys.{IsKeyOf};
ghost use Rattle.cover_counts.specs.Kept.{IsBelowKey, IsSoundSlot, AreSoundSlots, StaySoundWith};

use crate::below::Below;
use std::alloc::{AllocError, Global};

/// How many entries a set may have: its home and those after it.
const WAYS: usize = 8;

/// How many entries a cache begins with.
const FIRST: usize = 1024;

/// How many bytes an entry takes.
const ENTRY: usize = 16;

/// How many bytes a place takes.
const PLACE: usize = 112;

/// How many bytes a set takes beside its lists: the allocator's own words.
const BESIDE: usize = 48;

/// The place of a set that isn't kept.
const NOWHERE: usize = usize::MAX;

/// What was counted below one set.
#[derive(Drop)]
pub(crate) struct Kept {
    pub(crate) key: Vec<u64>,
    pub(crate) below: Below,
}

/// Where a set is kept. Entries are small, so that few of them are asked for in vain.
#[derive(Clone, Copy)]
struct Entry {
    /// The key in 64 bits. Sets with different marks have different keys.
    mark: u64,
    place: usize,
}

/// Sets that were counted. Some may be thrown away at any time: what is found is right all the same.
#[derive(Drop)]
pub(crate) struct Cache {
    pub(crate) places: Vec<Option<Kept>>,
    entries: Vec<Entry>,
    /// How many bytes the sets, the places and the entries take.
    used: usize,
    /// How many bytes they may take.
    room: usize,
    alloc: Global,
}

/// A key in 64 bits, well mixed.
fn mark_of(key: &[u64]) -> u64 {
    let mut mark = 0x9E37_79B9_7F4A_7C15_u64;
    for word in key {
        mark = (mark ^ *word).wrapping_mul(0xFF51_AFD7_ED55_8CCD);
        mark ^= mark >> 32;
    }
    mark
}

/// The one of `many` numbers that this mark has.
fn home_of(mark: u64, many: usize) -> usize {
    ((mark as u128 * many as u128) >> 64) as usize
}

/// Whether an entry is empty or has this mark.
fn serves(entry: &Entry, mark: u64) -> bool {
    entry.place == NOWHERE || entry.mark == mark
}

/// The number of the entry for a set with this mark: the first one from its home on that is empty or has the mark, or else its home.
fn entry_of(entries: &[Entry], mark: u64) -> usize {
    let home = home_of(mark, entries.len());
    for number in home..home.saturating_add(WAYS) {
        if let Some(entry) = entries.get(number) {
            if serves(entry, mark) {
                return number;
            }
        }
    }
    home
}

/// The place that the entry for a set with this mark tells.
fn place_of(entries: &[Entry], mark: u64) -> usize {
    match entries.get(entry_of(entries, mark)) {
        Some(entry) => entry.place,
        None => NOWHERE,
    }
}

/// Notes the place of a set with this mark.
fn note(entries: &mut [Entry], mark: u64, place: usize) {
    let number = entry_of(entries, mark);
    if number < entries.len() {
        entries[number] = Entry { mark, place };
    }
}

/// Notes the places of other entries too.
fn note_all(entries: &mut [Entry], others: &[Entry]) {
    for entry in others {
        if entry.place != NOWHERE {
            note(entries, entry.mark, entry.place);
        }
    }
}

/// What a slot keeps, if it is under this key.
fn kept_in<'a>(slot: &'a Option<Kept>, key: &[u64]) -> Option<&'a Below>
    ensures { (p : ProblemValue) (c : List ℕ) → IsSoundSlot p slot.now → IsCoveredList p c
        → IsKeyOf (length p.names) c key.now → IfSome result (λ below. CountsBelow p c below.now) }
{
    match slot {
        Some(kept) => {
            if kept.key.as_slice() != key {
                return None;
            }
            Some(&kept.below)
        }
        None => None,
    }
}

/// What is kept under a key.
fn find_in<'a>(places: &'a [Option<Kept>], entries: &[Entry], key: &[u64]) -> Option<&'a Below>
    ensures { (p : ProblemValue) (c : List ℕ) → AreSoundSlots p places.now → IsCoveredList p c
        → IsKeyOf (length p.names) c key.now → IfSome result (λ below. CountsBelow p c below.now) }
{
    match places.get(place_of(entries, mark_of(key))) {
        Some(slot) => kept_in(slot, key),
        None => None,
    }
}

/// How many bytes the set at a place takes beside the place.
fn taken_at(places: &[Option<Kept>], place: usize) -> usize {
    match places.get(place) {
        Some(Some(kept)) => kept.bytes(),
        _ => 0,
    }
}

/// Puts a set at a place, or makes it empty.
fn set_at(places: &mut Vec<Option<Kept>>, place: usize, slot: Option<Kept>)
    ensures { (p : ProblemValue) → AreSoundSlots p places.old.items → IsSoundSlot p slot
        → AreSoundSlots p places.new.items }
{
    if place < places.len() {
        places[place] = slot;
    }
}

/// How many places there are for so many entries. The others stay empty, so that a search for an entry soon ends.
fn places_for(entries: usize) -> usize {
    entries / 4 * 3
}

/// How many bytes so many entries and their places take.
fn bytes_of(entries: usize) -> usize {
    let places = places_for(entries).saturating_mul(PLACE);
    entries.saturating_mul(ENTRY).saturating_add(places)
}

/// This number of empty entries.
fn empty_entries(alloc: Global, count: usize) -> Result<Vec<Entry>, AllocError> {
    let empty = Entry {
        mark: 0,
        place: NOWHERE,
    };
    vec![in alloc; empty; count]
}

impl Kept {
    /// How many bytes its lists take.
    fn bytes(&self) -> usize {
        self.below
            .bytes()
            .saturating_add(self.key.capacity().saturating_mul(8))
            .saturating_add(BESIDE)
    }
}

impl Cache {
    /// A cache with nothing in it, which will take at most `room` bytes.
    pub(crate) fn new(alloc: Global, room: usize) -> Cache
        ensures { result.places.items ≡ [] }
    {
        Cache {
            places: Vec::new(alloc),
            entries: Vec::new(alloc),
            used: 0,
            room,
            alloc,
        }
    }

    /// The allocator that it takes memory from.
    pub(crate) fn alloc(&self) -> Global {
        self.alloc
    }

    /// What is kept under a key.
    pub(crate) fn find(&self, key: &Option<Vec<u64>>) -> Option<&Below>
        ensures { (p : ProblemValue) (c : List ℕ)
            → AreSoundSlots p self.now.places.items → IsCoveredList p c
            → IfSome key.now (λ k. IsKeyOf (length p.names) c k.items)
            → IfSome result (λ below. CountsBelow p c below.now) }
    {
        match key {
            Some(key) => find_in(&self.places, &self.entries, key),
            None => None,
        }
    }

    /// Keeps a set in place of the one at this place. If there is no room for it, both are let go.
    fn replace(&mut self, place: usize, mark: u64, kept: Kept)
        ensures { StaySoundWith self.old.places.items self.new.places.items
            kept.key.items kept.below }
    {
        let others = self.used.saturating_sub(taken_at(&self.places, place));
        let used = others.saturating_add(kept.bytes());
        if used <= self.room {
            self.used = used;
            note(&mut self.entries, mark, place);
            set_at(&mut self.places, place, Some(kept));
        } else {
            self.used = others;
            set_at(&mut self.places, place, None);
        }
    }

    /// Whether there is no room for a set of so many bytes at a place of its own.
    fn is_full(&self, bytes: usize) -> bool {
        let room = self.room.saturating_sub(self.used);
        self.places.len() == self.places.capacity() || room < bytes
    }

    /// Keeps a set at a place of its own, if there is room for it.
    fn add(&mut self, mark: u64, kept: Kept)
        ensures { StaySoundWith self.old.places.items self.new.places.items
            kept.key.items kept.below }
    {
        let place = self.places.len();
        let bytes = kept.bytes();
        if self.is_full(bytes) {
            return;
        }
        if self.places.push(Some(kept)).is_ok() {
            self.used = self.used.saturating_add(bytes);
            note(&mut self.entries, mark, place);
        }
    }

    /// The place for a set of so many bytes: the one that its entry tells. If that is none and the cache is full, the mark chooses one, since
    /// later sets are asked for sooner than earlier ones.
    fn place_for(&self, mark: u64, bytes: usize) -> usize {
        let place = place_of(&self.entries, mark);
        if place == NOWHERE && self.is_full(bytes) {
            return home_of(mark, self.places.len());
        }
        place
    }

    /// Doubles the entries, if there is memory and room for them and their places.
    fn grow(&mut self)
        ensures { self.new.places.items ≡ self.old.places.items }
    {
        let count = self.entries.len().saturating_mul(2).max(FIRST);
        let others = self.used.saturating_sub(bytes_of(self.entries.len()));
        let used = others.saturating_add(bytes_of(count));
        if self.room < used {
            return;
        }
        let Ok(mut entries) = empty_entries(self.alloc, count) else {
            return;
        };
        let more = places_for(count).saturating_sub(self.places.len());
        if self.places.reserve_exact(more).is_ok() {
            note_all(&mut entries, &self.entries);
            self.entries = entries;
            self.used = used;
        }
    }

    /// Keeps what was counted under a key, if there is memory for it.
    fn keep_under(&mut self, key: Vec<u64>, below: Below)
        ensures { StaySoundWith self.old.places.items self.new.places.items key.items below }
    {
        let Ok(below) = below.fitted(self.alloc) else {
            return;
        };
        if self.places.len() == self.places.capacity() {
            self.grow();
        }
        let mark = mark_of(&key);
        let kept = Kept { key, below };
        let place = self.place_for(mark, kept.bytes());
        if place < self.places.len() {
            self.replace(place, mark, kept);
        } else {
            self.add(mark, kept);
        }
    }

    /// The same, if there is a key.
    pub(crate) fn keep(&mut self, key: Option<Vec<u64>>, below: Below)
        ensures { (p : ProblemValue)
            → AreSoundSlots p self.old.places.items → IfSome key (λ k. IsBelowKey p k.items below)
            → AreSoundSlots p self.new.places.items }
    {
        match key {
            Some(key) => self.keep_under(key, below),
            None => (),
        }
    }
}
