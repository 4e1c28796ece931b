//! Counts of a run, or of a stretch of it. What lies below a set of covered items is searched once, as long as it is kept.
#![tactic(auto)]

mod below;
mod cache;
mod counts;
mod digits;
mod key;
mod natural;
mod search;
mod stretch;

pub use counts::{Counts, count_between};
pub use natural::Natural;
