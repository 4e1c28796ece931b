//! Leases as a history names them.

/// A lease as the history names it: the tile's id, the worker, and the index of the entry of the history that gave it.
#[derive(Clone, Copy, Debug, PartialEq, Eq)]
pub struct Grant {
    pub id: u64,
    pub worker: u8,
    pub index: u64,
}
