//! How a tile stands.
ghost use Rattle.std.specs.Prelude.{◌≡◌, false};
ghost use Rattle.lab_book.specs.Tile.{is_waiting, is_held, is_leased, is_closed, is_free, is_lease, ended_status, asked_status};

use lab_history::{Ending, Grant};

/// How a tile stands: it waits for a worker, it is held back, a worker has leased it by the entry of the history that `index`
/// names, or it is done.
#[derive(Clone, Copy, Debug, PartialEq, Eq)]
pub enum Status {
    Waiting,
    Held,
    Leased { worker: u8, index: u64 },
    Closed,
}

impl Status {
    /// Whether it waits.
    pub fn is_waiting(self) -> bool
        ensures { result ≡ is_waiting self }
    {
        match self {
            Status::Waiting => true,
            _ => false,
        }
    }

    /// Whether it is held.
    pub fn is_held(self) -> bool
        ensures { result ≡ is_held self }
    {
        match self {
            Status::Held => true,
            _ => false,
        }
    }

    /// Whether it is leased.
    pub fn is_leased(self) -> bool
        ensures { result ≡ is_leased self }
    {
        match self {
            Status::Leased { .. } => true,
            _ => false,
        }
    }

    /// Whether it waits or is held.
    pub(crate) fn is_free(self) -> bool
        ensures { result ≡ is_free self }
    {
        match self {
            Status::Waiting => true,
            Status::Held => true,
            _ => false,
        }
    }

    /// Whether it is done.
    pub fn is_closed(self) -> bool
        ensures { result ≡ is_closed self }
    {
        match self {
            Status::Closed => true,
            _ => false,
        }
    }

    /// Whether it is leased by this lease.
    pub(crate) fn is_lease(self, lease: Grant) -> bool
        ensures { result ≡ is_lease self lease }
    {
        match self {
            // The tile was looked for by the lease's id, so that needn't be compared.
            Status::Leased { worker, index } => worker == lease.worker && index == lease.index,
            _ => false,
        }
    }

    /// How a tile stands whose lease was ended so: it is closed, or it waits, or it is held where a stop was asked for.
    pub(crate) fn ended(ending: Ending, stop: bool) -> Status
        ensures ended { result ≡ ended_status ending stop }
        ensures free { is_leased result ≡ false }
    {
        match ending {
            Ending::Close => Status::Closed,
            _ if stop => Status::Held,
            _ => Status::Waiting,
        }
    }

    /// How a tile stands once it is asked to stop: one that waits is held.
    pub(crate) fn asked(self) -> Status
        ensures { result ≡ asked_status self }
    {
        match self {
            Status::Waiting => Status::Held,
            status => status,
        }
    }
}
