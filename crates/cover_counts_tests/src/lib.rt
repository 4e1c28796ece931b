//! Tests of `cover_counts`: numbers that are known, and drawn problems beside the plain walk.
#![tactic(auto)]

#[cfg(test)]
mod drawn_tests;
#[cfg(test)]
mod number_tests;
#[cfg(test)]
mod stretch_tests;
#[cfg(test)]
mod texts;
