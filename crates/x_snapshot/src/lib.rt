//! Snapshots: a position in a search, with its problem, its branch and its breakpoints, as one text.
#![tactic(auto)]

mod breakpoint;
mod draft;
mod fault;
pub mod laws;
mod reader;
mod snapshot;
mod verdict;
mod writer;

pub use draft::{Draft, read_draft};
pub use fault::SnapshotFault;
pub use reader::{break_from, is_state, only_word, option_number, read_snapshot, state_from};
pub use snapshot::{Snapshot, SnapshotParts};
pub use writer::write_snapshot;
