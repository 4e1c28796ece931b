//! How far two lists of numbers begin alike, told in few steps.
#![tactic(auto)]

mod steps;

pub use steps::steps_alike;
