//! Kinds of calls.

/// What a call asks for, without its arguments.
#[derive(Clone, Copy, Debug, PartialEq, Eq)]
pub enum CallKind {
    Lease,
    LeaseAny,
    TakeHeld,
    Post,
    Split,
    Retract,
    Park,
    Abandon,
    Close,
    PutBack,
    RequestStop,
}
