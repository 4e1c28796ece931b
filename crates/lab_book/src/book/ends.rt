//! Leases are given up.
ghost use Rattle.std.specs.Prelude.{◌≡◌, ◌<◌, true, false, None, length, IsOk, IfOk, IfErr, OnOk};
ghost use Rattle.lab_history.specs.declared.entry.Call.TheVariants as calls;
ghost use Rattle.lab_history.specs.declared.entry.Reply.TheVariants as replies;
ghost use Rattle.lab_history.specs.Ending.{call_of_end, is_at_mark};
ghost use Rattle.lab_book.specs.Tile.{is_leased, ended_status, Stands};
ghost use Rattle.lab_book.specs.Tiling.{tile_at};
ghost use Rattle.lab_book.specs.Book.{outcome, settled, with_status, ending_fault};
ghost use Rattle.lab_book.specs.Calls.{Made, Ends, is_current, Finds, RefusesEnd};

use crate::book::Book;
use crate::lease::Lease;
use crate::status::Status;
use lab_history::{BookFault, Call, Ending, Entry, Grant, Reply};
use x_steps::Refused;

impl<'p> Book<'p> {
    /// What stands against an end of the lease of the tile at a place.
    fn against_end(&self, i: usize, ending: Ending) -> Option<BookFault>
        requires { i < length self.now.tiles }
        ensures fault { result ≡ ending_fault ending (tile_at self.now.tiles i) }
        ensures stands { result ≡ None → Stands (ended_status ending (tile_at self.now.tiles i).stop)
            (tile_at self.now.tiles i) }
    {
        if ending.is_at_mark() {
            return None;
        }
        let tile = self.tiles.tile(i);
        if tile.mark().same(tile.end()) {
            None
        } else {
            Some(BookFault::NotAtEnd)
        }
    }

    /// The place of the tile whose lease is ended so.
    fn end_place(&self, lease: Grant, ending: Ending) -> Result<usize, BookFault>
        ensures place { Finds result self.now.tiles lease (ending_fault ending) }
        ensures within { IfOk result (λ i. i < length self.now.tiles) }
        ensures leased { IfOk result (λ i. is_leased (tile_at self.now.tiles i).status ≡ true) }
        ensures stands { IfOk result (λ i. Stands
            (ended_status ending (tile_at self.now.tiles i).stop) (tile_at self.now.tiles i)) }
        ensures current { is_at_mark ending ≡ true → is_current self.now.tiles lease ≡ true → IsOk result }
    {
        // The lease is judged before the mark, so 3 comes before 8.
        let i = match self.tiles.leased_place(lease) {
            Ok(i) => i,
            Err(fault) => return Err(fault),
        };
        match self.against_end(i, ending) {
            Some(fault) => Err(fault),
            None => Ok(i),
        }
    }

    /// Ends the lease of the tile at a place, by the entry that room was kept for since the lease was given.
    fn settle(&mut self, w: u8, i: usize, call: Call, status: Status)
        requires within { i < length self.old.tiles }
        requires leased { is_leased (tile_at self.old.tiles i).status ≡ true }
        requires ends { is_leased status ≡ false }
        requires stands { Stands status (tile_at self.old.tiles i) }
        requires outcome { outcome self.old w call ≡ settled self.old (with_status status) i }
        ensures { Made self.old self.new w call replies.Done }
    {
        // What was asked stays with the tile; it ends when the tile is leased again.
        let stop = self.tiles.tile(i).stop();
        self.tiles.settle(i, status, stop);
        self.history.add(Entry {
            worker: w,
            call,
            reply: Reply::Done,
        });
    }

    /// Ends a lease: its tile is closed, or given up at its mark, where it waits, or is held where a stop was asked for. Needs no
    /// memory for the tile's current lease. Refused where no tile has the lease's id (1), where the lease isn't its current one
    /// (3), and where a tile is to be closed whose mark isn't its end (8); the lease comes back.
    pub fn end(&mut self, lease: Lease, ending: Ending) -> Result<(), Refused<BookFault, Lease>>
        ensures made { OnOk result (Ends self.old self.new (call_of_end ending) lease) }
        ensures current { is_at_mark ending ≡ true → is_current self.old.tiles lease ≡ true → IsOk result }
        ensures refused { RefusesEnd result self.old self.new (call_of_end ending) lease }
        ensures given_back { IfErr result (λ r. r.given ≡ lease) }
    {
        let grant = lease.grant();
        let call = ending.call(grant);
        let i = match self.end_place(grant, ending) {
            Ok(i) => i,
            Err(fault) => return Err(self.hand_back(grant.worker, call, fault, lease)),
        };
        // Held where a stop was asked for: else the next worker that takes any tile would take this one.
        let status = Status::ended(ending, self.tiles.tile(i).stop());
        self.settle(grant.worker, i, call, status);
        // Only now: until here a refusal has to give it back.
        lease.discard();
        Ok(())
    }

    /// Closes the tile that is leased. Refused where no tile has the lease's id (1), where the lease isn't its current one (3), and
    /// where its mark isn't its end (8); the lease comes back.
    pub fn close(&mut self, lease: Lease) -> Result<(), Refused<BookFault, Lease>>
        ensures made { OnOk result (Ends self.old self.new calls.Close lease) }
        ensures refused { RefusesEnd result self.old self.new calls.Close lease }
        ensures given_back { IfErr result (λ r. r.given ≡ lease) }
    {
        self.end(lease, Ending::Close)
    }

    /// Gives the tile up that is leased, at its mark: it waits, or is held where a stop was asked for. Needs no memory for the
    /// tile's current lease. Refused where no tile has the lease's id (1), and where the lease isn't its current one (3); the lease
    /// comes back.
    pub fn abandon(&mut self, lease: Lease) -> Result<(), Refused<BookFault, Lease>>
        ensures made { OnOk result (Ends self.old self.new calls.Abandon lease) }
        ensures current { is_current self.old.tiles lease ≡ true → IsOk result }
        ensures refused { RefusesEnd result self.old self.new calls.Abandon lease }
        ensures given_back { IfErr result (λ r. r.given ≡ lease) }
    {
        self.end(lease, Ending::Abandon)
    }

    /// The same for a tile that is to be taken up again: its worker has posted what it wants to keep. It waits, or is held where a
    /// stop was asked for. Needs no memory for the tile's current lease.
    pub fn park(&mut self, lease: Lease) -> Result<(), Refused<BookFault, Lease>>
        ensures made { OnOk result (Ends self.old self.new calls.Park lease) }
        ensures current { is_current self.old.tiles lease ≡ true → IsOk result }
        ensures refused { RefusesEnd result self.old self.new calls.Park lease }
        ensures given_back { IfErr result (λ r. r.given ≡ lease) }
    {
        self.end(lease, Ending::Park)
    }
}
