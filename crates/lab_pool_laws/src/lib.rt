//! Laws of what can't be said of how a worker of a pool ends its tile. No code is here.
#![tactic(auto)]

pub mod laws;
