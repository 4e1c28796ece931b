//! States of a search as numbers of a row, and back.
#![tactic(auto)]

mod reading;
#[cfg(test)]
mod state_tests;
mod writing;

pub use reading::{
    choice, read_after, read_path, read_paths, read_state, skip_after, skip_path, skip_paths,
    skip_state,
};
pub use writing::{put_after, put_choices, put_path, put_paths, put_state};
