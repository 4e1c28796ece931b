//! Workers on one book: each holds the lease of a tile and a runner that searches there. No thread and no lock is needed here.
#![tactic(auto)]

mod event;
mod fault;
mod turn;
mod worker;
mod world;

pub use event::{Act, Target, WorldEvent, WorldReply};
pub use fault::WorkerFault;
pub use turn::take_turn;
pub use worker::Worker;
pub use world::{PlayStopped, World};
