//! Laws of two sessions that differ in closed tiles, ids, leases and histories alone. No code is here.
#![tactic(auto)]

pub mod laws;
