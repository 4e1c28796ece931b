//! What a worker of a book is asked for by hand: to walk, to part its branch, to give it up, and to open another; and what is shown
//! of its search, of its book and of the breakpoints that it meets.
#![tactic(auto)]

mod answer;
mod ends;
mod met;
mod overview;
mod posts;
mod tiles;
mod walk;

pub use answer::{Told, ask};
pub use ends::{close, end_branch, write_position};
pub use overview::{show, untried};
pub use tiles::{branches, place_at, write_book_fault, write_posted};
pub use walk::{back, run, step};
