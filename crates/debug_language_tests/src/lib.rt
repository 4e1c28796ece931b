//! Tests of `x_texts`, `x_snapshot` and `debug_language` that no run of the program shows.
#![tactic(auto)]

#[cfg(test)]
mod reply_tests;
#[cfg(test)]
mod snapshot_tests;
