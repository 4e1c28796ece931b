//! Laws of texts that are resumed. No code is here.
#![tactic(auto)]

pub mod laws;
