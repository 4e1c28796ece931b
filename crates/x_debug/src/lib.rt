//! Sessions: a search that is run by hand, line by line.
#![tactic(auto)]

pub mod laws;
mod session;

pub use session::{Reply, Session};
