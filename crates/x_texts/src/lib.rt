//! Words and lines of what a search is at: states, cuts, breakpoints, visits, levels.
#![tactic(auto)]

mod breakpoint;
mod line;
mod visit_line;
mod visit_text;
mod word;

pub use breakpoint::Break;
pub use line::{write_break, write_levels, write_state, write_visit, write_visits};
pub use visit_text::VisitText;
pub use word::write_cut;
