//! Laws of two books that differ in closed tiles alone, and of what a pool leaves of a book. No code is here.
#![tactic(auto)]

pub mod laws;
