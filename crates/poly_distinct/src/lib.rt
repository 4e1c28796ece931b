//! A search up to symmetry: which options stay where symmetries of the region repeat the others, and which packings are like none before.
#![tactic(auto)]

mod anchor;
mod counts;
mod exchange;
mod fewer;
mod form;
mod formed;
mod free;
pub mod free_laws;
pub mod laws;
mod moves;
mod news;
mod part;
mod rule;
pub mod rule_laws;
mod smaller;
mod tally;
mod up_to;

pub use anchor::Anchor;
pub use exchange::MirrorNames;
pub use fewer::with_options;
pub use moves::Moves;
pub use news::distinct_paths;
pub use rule::anchor_of;
pub use smaller::{is_at, numbers_left};
pub use up_to::Smaller;
