//! The tiles of a book in order, with what is kept beside them so that no call has to go over all.
ghost use Rattle.std.specs.Prelude.{ℕ, ◌≡◌, ◌⊎◌, ◌≤◌, ◌<◌, ◌+◌, ◌-◌, ◌^◌, true, false, Some, cond, [], ◌∷◌, length, slice_set, slice_index};
ghost use Rattle.std.specs.Prelude.{Option, None, IsOk, IfSome, OnOk, OnErr, IfErr, IfOk};
ghost use Rattle.lab_book.specs.Tile.{TileValue, is_leased, is_waiting, is_held, is_closed, mark_of};
ghost use Rattle.lab_book.specs.Tiling.{tile_at, AreNumbered};
ghost use Rattle.lab_book.specs.Book.{tile_place, first_waiting, waiting_in, leased_in, found, status_fault, lease_fault, posted_tile, open_fault};
ghost use Rattle.lab_book.specs.Book.{retracted_tile, settled_tile, kept_tile};
ghost use Rattle.lab_book.specs.Index.{WaitFrom};
ghost use Rattle.lab_book.specs.Posted.{posted_count, posted_steps, posted_visits};
ghost use Rattle.lab_book.specs.Totals.{of_level, measured_of};
ghost use Rattle.lab_book.specs.Calls.{Judged, is_current, OutOfMemoryOr};

mod splits;

use crate::status::Status;
use crate::tile::Tile;
use crate::totals::Totals;
use lab_history::{BookFault, Grant};
use packed_rows::Row;
use std::alloc::{AllocError, Global};
use std::marker::Model;
use x_branches::Stretch;
use x_steps::Mark;

/// The tiles in order, where the tile of each id and the first that waits are looked for, how many wait and are leased, and the totals of
/// what was posted of them.
#[derive(Drop)]
pub(crate) struct Tiles<'p> {
    list: Vec<Tile<'p>>,
    /// For each id a place before which its tile doesn't stand: tiles only move up, so a split changes no other's.
    places: Vec<usize>,
    /// No tile before this place waits.
    from: usize,
    waiting: usize,
    leased: usize,
    totals: Totals,
    /// The row of the last stretch that was added: the next one mostly has the same long lists.
    draft: Row,
}

impl<'p> Model for Tiles<'p> {
    ghost use Rattle.std.specs.Prelude.{List};
    ghost use Rattle.lab_book.specs.Tile.{TileValue};
    ghost use Rattle.lab_book.specs.Index.{KeepsTiles};

    ghost Value = { List TileValue };

    ghost view = { λ t. t.list.items };

    ghost invariant = { λ t. KeepsTiles t.list.items t.places.items t.from t.waiting t.leased t.totals };
}

/// How many pass a test, where one that did or didn't now does or doesn't.
fn recounted(count: usize, did: bool, does: bool) -> usize
    requires some { did ≡ true → 0 < count }
    requires small { does ≡ true → count < 2 ^ 64 - 1 }
    ensures { result + cond did 1 0 ≡ count + cond does 1 0 }
{
    match (did, does) {
        (true, false) => count - 1,
        (false, true) => count + 1,
        _ => count,
    }
}

/// Before which place no tile waits, where none did before `from`, and one at a place now does or doesn't.
fn waits_from(from: usize, place: usize, waits: bool) -> usize
    requires { place < 2 ^ 64 - 1 }
    ensures passed { (k : ℕ) → k < result → (k < from) ⊎ ((k ≡ place) × (waits ≡ false)) }
    ensures waits { waits ≡ true → result ≤ place }
{
    if waits {
        from.min(place)
    } else if place == from {
        from + 1
    } else {
        from
    }
}

/// The refusal of a lease that isn't a tile's current one.
pub(crate) fn stale(tile: &Tile<'_>) -> BookFault
    ensures { OutOfMemoryOr result (result ≡ BookFault.StaleLease (mark_of tile.now)) }
{
    match tile.own_mark().copy() {
        Ok(mark) => BookFault::StaleLease(mark),
        Err(_) => BookFault::OutOfMemory,
    }
}

/// The place of the tile with an id, which stands at no place before `start`.
fn find(list: &[Tile<'_>], id: u64, start: usize) -> Option<usize>
    requires { (k : ℕ) → k < length list.now → k < start → (tile_at list.now k).id ≡ id → ⊥ }
    ensures place { result ≡ tile_place id list.now }
    ensures within { IfSome result (λ i. i < length list.now) }
{
    'finding: for place in start..list.len() {
        if list[place].id() == id {
            return Some(place);
        }
    }
    None
}

/// The place of the first tile that waits; none does before `start`.
fn find_waiting(list: &[Tile<'_>], start: usize) -> Option<usize>
    requires { WaitFrom start list.now }
    ensures place { result ≡ first_waiting list.now }
    ensures within { IfSome result (λ i. i < length list.now) }
{
    'finding: for place in start..list.len() {
        if list[place].status().is_waiting() {
            return Some(place);
        }
    }
    None
}

impl<'p> Tiles<'p> {
    /// One tile, which waits and has the first id.
    pub fn of(alloc: Global, tile: Tile<'p>) -> Result<Tiles<'p>, AllocError>
        requires id { tile.id ≡ 0 }
        requires waits { tile.status ≡ Status.Waiting }
        requires unposted { tile.stretches ≡ [] }
        ensures { IfOk result (λ tiles. tiles ≡ tile.entry ∷ []) }
    {
        let mut list = Vec::with_capacity(alloc, 1)?;
        let mut places = Vec::with_capacity(alloc, 1)?;
        list.push_reserved(tile);
        // By id: the one tile has the id 0, and stands at the place 0.
        places.push_reserved(0);
        Ok(Tiles {
            list,
            places,
            from: 0,
            waiting: 1,
            leased: 0,
            totals: Totals::none(alloc),
            draft: Row::new(alloc),
        })
    }

    /// The tiles.
    pub fn list(&self) -> &[Tile<'p>]
        ensures tiles { result.now ≡ self.now }
        ensures numbered { AreNumbered self.now }
    {
        &self.list
    }

    /// How many wait.
    pub fn waiting(&self) -> u64
        ensures { result ≡ waiting_in self.now }
    {
        self.waiting as u64
    }

    /// How many are leased.
    pub fn leased(&self) -> u64
        ensures { result ≡ leased_in self.now }
    {
        self.leased as u64
    }

    /// How many paths the posted stretches visit.
    pub fn visited(&self) -> u128
        ensures { result ≡ length (posted_visits self.now) }
    {
        self.totals.visited()
    }

    /// How many steps the posted stretches have.
    pub fn steps(&self) -> u128
        ensures { result ≡ posted_steps self.now }
    {
        self.totals.steps()
    }

    /// How many X2 states the posted stretches have at each level.
    pub fn levels(&self) -> &[u128]
        ensures { (level : ℕ) →
            slice_index result.now level ≡ measured_of (of_level level) self.now }
    {
        self.totals.levels()
    }

    /// How many wait beside the tile at a place.
    pub fn waiting_beside(&self, i: usize) -> u64
        requires { i < length self.now }
        ensures { result + cond (is_waiting (tile_at self.now i).status) 1 0 ≡ waiting_in self.now }
    {
        recounted(self.waiting, self.list[i].status().is_waiting(), false) as u64
    }

    /// The place of the tile with an id.
    pub fn place(&self, id: u64) -> Option<usize>
        ensures place { result ≡ tile_place id self.now }
        ensures within { IfSome result (λ i. i < length self.now) }
    {
        let number = id as usize;
        // No tile has another id: as many places are kept as there are tiles.
        if number < self.places.len() {
            find(&self.list, id, self.places[number])
        } else {
            None
        }
    }

    /// The place of the tile with an id, which has to wait.
    pub fn waiting_place(&self, id: u64) -> Result<usize, BookFault>
        ensures place { result ≡ found self.now id (λ t. status_fault (is_waiting t.status) t) }
        ensures within { IfOk result (λ i. i < length self.now) }
        ensures waits { IfOk result (λ i. (tile_at self.now i).status ≡ Status.Waiting) }
    {
        let Some(i) = self.place(id) else {
            return Err(BookFault::UnknownBranch);
        };
        match self.tile(i).status() {
            Status::Waiting => Ok(i),
            _ => Err(BookFault::NotWaiting),
        }
    }

    /// The place of the tile with an id, which has to be held.
    pub fn held_place(&self, id: u64) -> Result<usize, BookFault>
        ensures place { result ≡ found self.now id (λ t. status_fault (is_held t.status) t) }
        ensures within { IfOk result (λ i. i < length self.now) }
        ensures held { IfOk result (λ i. (tile_at self.now i).status ≡ Status.Held) }
    {
        let Some(i) = self.place(id) else {
            return Err(BookFault::UnknownBranch);
        };
        match self.tile(i).status() {
            Status::Held => Ok(i),
            _ => Err(BookFault::NotWaiting),
        }
    }

    /// The place of the tile with an id, which must not be closed.
    pub fn open_place(&self, id: u64) -> Result<usize, BookFault>
        ensures place { result ≡ found self.now id open_fault }
        ensures within { IfOk result (λ i. i < length self.now) }
        ensures not_closed { IfOk result (λ i. is_closed (tile_at self.now i).status ≡ false) }
    {
        let Some(i) = self.place(id) else {
            return Err(BookFault::UnknownBranch);
        };
        match self.tile(i).status() {
            Status::Closed => Err(BookFault::NotWaiting),
            _ => Ok(i),
        }
    }

    /// The place of the first tile that waits.
    pub fn first_waiting(&self) -> Option<usize>
        ensures place { result ≡ first_waiting self.now }
        ensures within { IfSome result (λ i. i < length self.now) }
    {
        // Else a search for none would go over all tiles behind `from`.
        if self.waiting == 0 {
            return None;
        }
        find_waiting(&self.list, self.from)
    }

    /// The same, and those before it aren't looked at any more.
    pub fn next_waiting(&mut self) -> Option<usize>
        ensures place { result ≡ first_waiting self.old }
        ensures within { IfSome result (λ i. i < length self.old) }
        ensures unchanged { self.new ≡ self.old }
    {
        let i = self.first_waiting()?;
        // All before it were seen just now, or known before, not to wait.
        self.from = i;
        Some(i)
    }

    /// The tile at a place isn't looked for before it any more.
    pub fn keep_place(&mut self, i: usize)
        requires { i < length self.old }
        ensures { self.new ≡ self.old }
    {
        let id = self.list[i].id() as usize;
        // Tiles only move up, so where it stands now it never stands before again.
        self.places[id] = i;
    }

    /// The tile at a place.
    pub fn tile(&self, i: usize) -> &Tile<'p>
        requires { i < length self.now }
        ensures { result.now ≡ tile_at self.now i }
    {
        &self.list[i]
    }

    /// The place of the tile whose current lease this is.
    pub fn leased_place(&self, lease: Grant) -> Result<usize, BookFault>
        ensures place { Judged result (found self.now lease.id (λ t. lease_fault lease t None)) }
        ensures within { IfOk result (λ i. i < length self.now) }
        ensures leased { IfOk result (λ i. is_leased (tile_at self.now i).status ≡ true) }
        ensures current { is_current self.now lease ≡ true → IsOk result }
    {
        let Some(i) = self.place(lease.id) else {
            return Err(BookFault::UnknownBranch);
        };
        let tile = self.tile(i);
        // A tile that is leased again has the index of a later entry, so an old lease never fits again.
        if !tile.status().is_lease(lease) {
            return Err(stale(tile));
        }
        Ok(i)
    }

    /// The tile at a place stands so from now on.
    pub fn settle(&mut self, i: usize, status: Status, stop: bool)
        requires { i < length self.old }
        ensures { self.new ≡ slice_set self.old i (settled_tile status stop (tile_at self.old i)) }
    {
        self.keep_place(i);
        // Counted from how it stood to how it stands: the others are not looked at.
        let old = self.list[i].status();
        self.waiting = recounted(self.waiting, old.is_waiting(), status.is_waiting());
        self.leased = recounted(self.leased, old.is_leased(), status.is_leased());
        self.from = waits_from(self.from, i, status.is_waiting());
        self.list[i].settle(status, stop);
    }

    /// Adds a stretch to the tile at a place; where memory runs out, nothing changes and it comes back.
    pub fn add(&mut self, i: usize, stretch: Stretch<'p>) -> Result<(), Stretch<'p>>
        requires within { i < length self.old }
        requires room { posted_count self.old < 2 ^ 64 }
        ensures added { OnOk result
            (self.new ≡ slice_set self.old i (posted_tile (tile_at self.old i) stretch.entry)) }
        ensures unchanged { OnErr result (self.new ≡ self.old) }
        ensures given_back { IfErr result (λ s. s ≡ stretch.entry) }
    {
        self.keep_place(i);
        // First, so that nothing can fail behind it: a total of nothing is kept for nothing.
        let Ok(()) = self.totals.reach(stretch.levels().len()) else {
            return Err(stretch);
        };
        let visited = stretch.visits().len() as u64;
        self.list[i].add(&mut self.draft, stretch)?;
        let stretches = self.list[i].stretches();
        self.totals
            .add(visited, &stretches.stretch(stretches.len() - 1));
        Ok(())
    }

    /// Takes the last stretch of the tile at a place out: its mark is this one then.
    pub fn retract(&mut self, i: usize, mark: Mark)
        requires within { i < length self.old }
        requires some { 0 < length (tile_at self.old i).stretches }
        requires mark { mark ≡ mark_of (retracted_tile (tile_at self.old i)) }
        ensures { self.new ≡ slice_set self.old i (retracted_tile (tile_at self.old i)) }
    {
        self.keep_place(i);
        let stretches = self.list[i].stretches();
        self.totals.take_behind(stretches, stretches.len() - 1);
        self.list[i].retract(mark);
    }

    /// Keeps the first stretches of the tile at a place alone: its mark is this one then.
    pub fn put_back(&mut self, i: usize, count: usize, mark: Mark)
        requires within { i < length self.old }
        requires some { count ≤ length (tile_at self.old i).stretches }
        requires mark { mark ≡ mark_of (kept_tile count (tile_at self.old i)) }
        ensures { self.new ≡ slice_set self.old i (kept_tile count (tile_at self.old i)) }
    {
        self.keep_place(i);
        self.totals.take_behind(self.list[i].stretches(), count);
        self.list[i].put_back(count, mark);
    }
}
