//! Workers on threads search one book together.
#![tactic(auto)]

mod fault;
mod gate;
mod pool;
mod search;
mod station;
mod verdict;
mod worker;

pub use fault::PoolFault;
pub use gate::{Gate, GateCall, NoGate};
pub use pool::{run_pool, run_pool_on};
