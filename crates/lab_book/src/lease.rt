//! Leases, and what a worker is answered.
ghost use Rattle.std.specs.Prelude.{◌≡◌};

use lab_history::Grant;
use std::marker::Model;
use x_branches::Branch;
use x_steps::Mark;

/// A worker's right to post to a tile. It can't be copied, and it has to be spent: by a call that ends it, or by `discard`.
pub struct Lease {
    grant: Grant,
}

impl Model for Lease {
    ghost use Rattle.lab_history.specs.declared.grant.Grant.{Grant};

    ghost Value = { Grant };

    ghost view = { λ l. l.grant };
}

impl Lease {
    /// The lease of these parts.
    pub(crate) fn of(grant: Grant) -> Lease
        ensures { result ≡ grant }
    {
        Lease { grant }
    }

    /// Its parts.
    pub fn grant(&self) -> Grant
        ensures { result ≡ self.now }
    {
        self.grant
    }

    /// The tile's id.
    pub fn id(&self) -> u64
        ensures { result ≡ self.now.id }
    {
        self.grant.id
    }

    /// The worker.
    pub fn worker(&self) -> u8
        ensures { result ≡ self.now.worker }
    {
        self.grant.worker
    }

    /// The index of the entry of the history that gave it.
    pub fn index(&self) -> u64
        ensures { result ≡ self.now.index }
    {
        self.grant.index
    }

    /// Lets it go without a call of a book: the tile stays leased.
    pub fn discard(self) {
        // Taken apart: a type that can't be dropped is let go in no other way.
        let Lease { grant: _ } = self;
    }
}

/// What a worker is answered that leases a tile: the lease, the tile's branch and mark, and how many tiles wait now.
pub struct Leased<'p> {
    pub lease: Lease,
    pub branch: Branch<'p>,
    pub mark: Mark,
    pub waiting: u64,
}

/// What a worker is answered that posts: whether it is asked to stop, and how many tiles wait.
#[derive(Clone, Copy, Debug, PartialEq, Eq)]
pub struct Posted {
    pub stop: bool,
    pub waiting: u64,
}
