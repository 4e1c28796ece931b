//! Which of two tables a search would be faster by, told by a short search.
#![tactic(auto)]

mod costs;
mod probe;
mod words;

pub use costs::Costs;
pub use probe::{costs_ahead, prefers_bits};
