//! What a step tells.

/// What a step tells: that it moved, that it visited the path (no item was active), or that it ended the run.
#[derive(Clone, Copy, Debug, PartialEq, Eq)]
pub enum Event {
    Moved,
    Visited,
    Finished,
}
