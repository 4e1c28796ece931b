//! Gates: where the acts of workers are seen, or held up.

/// What a worker does.
#[derive(Clone, Copy, Debug, PartialEq, Eq)]
pub enum GateCall {
    /// It asks for the lease of a tile.
    Lease,
    /// It posts what it walked.
    Post,
    /// It splits its tile.
    Split,
    /// It parks, closes or abandons its tile.
    End,
    /// It stole a ticket; only what follows is told.
    Steal,
}

/// Is called before and after each act of a worker, outside the lock. What it does changes nothing
/// but the order of the acts.
pub trait Gate: Sync {
    fn before(&self, worker: u8, call: GateCall);

    fn after(&self, worker: u8, call: GateCall);
}

/// Lets each worker pass.
#[derive(Clone, Copy, Debug)]
pub struct NoGate;

impl Gate for NoGate {
    // A gate that only tests need costs nothing elsewhere.
    fn before(&self, _worker: u8, _call: GateCall) {}

    fn after(&self, _worker: u8, _call: GateCall) {}
}
