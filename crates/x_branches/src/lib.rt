//! Branches of a search's run: which state comes first, and the cuts between which a branch lies.
#![tactic(auto)]

mod branch;
mod cut;
mod fault;
mod kept;
pub mod laws;
mod order;
mod position;
mod runner;
mod stretch;

pub use branch::Branch;
pub use cut::Cut;
pub use fault::{CutFault, RunnerFault, StartFault};
pub use kept::{KeptStretch, KeptStretches};
pub use order::run_order;
pub use runner::Runner;
pub use stretch::Stretch;
