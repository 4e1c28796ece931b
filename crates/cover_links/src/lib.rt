//! Dancing links: a table of an exact cover problem whose lists are linked nodes in one raw block.
#![tactic(auto)]

mod block;
mod build;
mod entry;
mod hiding;
pub mod laws;
mod raw;
mod table;

pub use block::Block;
pub use entry::{Node, Offset, TableEntry};
pub use table::LinkTable;
