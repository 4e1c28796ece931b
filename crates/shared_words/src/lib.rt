//! What many crates share: words of their contracts (what a call returns, adds, or leaves as it was; lists of numbers), and how many
//! workers there may be. The words stand in specs/.
#![tactic(auto)]

/// The most workers of one search. specs/Workers.antt has the same number, and the contracts cite that.
pub const MOST_WORKERS: u32 = 32;
