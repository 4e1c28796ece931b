//! What the debugger does with a text: a problem, and commands that a session of its search answers.
#![tactic(auto)]

mod answers;
mod fault;
mod input;
pub mod laws;
mod workers;

pub use answers::replies;
pub use fault::JobFault;
pub use input::{raw_line, split_input, take_lines, without_newline};
