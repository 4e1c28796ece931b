//! Algorithm X, one step at a time: the state, the step table, the run, and the laws of the run.
#![tactic(auto)]

mod counts;
mod covering;
mod event;
mod fault;
mod flags;
pub mod laws;
mod listing;
mod machine;
mod mark;
mod paths;
mod state;

pub use counts::drop_last_zeros;
pub use cover_problem::Refused;
pub use event::Event;
pub use fault::{AtFault, StepFault};
pub use machine::{Machine, Walk, no_counts};
pub use mark::Mark;
pub use paths::shared;
pub use state::{Cursor, Label, State};
