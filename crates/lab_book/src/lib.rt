//! The book of a search by many: the tiles into which the run is parted, who has leased each, what was posted of them, and the
//! history of all calls. No thread and no lock is needed here.
#![tactic(auto)]

mod book;
mod lease;
mod status;
mod tile;
mod tiles;
mod totals;

pub use book::Book;
pub use lab_history::{BookFault, Call, CallKind, Ending, Entries, Entry, Grant, Path, Reply};
pub use lease::{Lease, Leased, Posted};
pub use status::Status;
pub use tile::Tile;
