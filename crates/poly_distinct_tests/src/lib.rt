//! Tests of `poly_distinct`: the options that stay.
#![tactic(auto)]

#[cfg(test)]
mod left_tests;
