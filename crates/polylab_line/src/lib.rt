//! The command line: which job its words ask for, and the doing of it.
#![tactic(auto)]

mod exit;
mod help;
pub mod laws;
mod line;

pub use exit::{Threading, do_alone, do_together, tell_no_job};
pub use line::{LineFault, Request, parse_line};
