//! Bit sets: a table of an exact cover problem that keeps the options left as sets of bits, and whether those of all workers have room.
#![tactic(auto)]

mod active;
mod lists;
mod making;
mod passes;
mod rule;
mod sets;
mod table;
mod walk;

pub use rule::has_room;
pub use table::BitTable;
