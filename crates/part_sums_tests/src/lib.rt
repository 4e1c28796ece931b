//! Tests of `part_sums`: the small problem in parts, and texts that are spoilt.
#![tactic(auto)]

#[cfg(test)]
mod join_tests;
