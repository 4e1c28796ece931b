//! Exact cover problems, their texts, and the table that a search stands on.
#![tactic(auto)]

mod draft;
mod exact_cover;
mod fault;
mod key;
pub mod laws;
mod limits;
mod lists;
mod name;
mod plain;
mod problem;
mod reading;
mod room;
mod table;
mod validation;
mod writing;

pub use fault::{CoverFault, Fault, ProblemFault, Refused};
pub use limits::{MOST_ENTRIES, MOST_ITEMS, MOST_NAME_BYTES, MOST_OPTIONS};
pub use lists::Lists;
pub use plain::PlainTable;
pub use problem::Problem;
pub use reading::read_cover;
pub use room::push_within;
pub use table::Table;
pub use writing::write_cover;
