//! What the program does with its input: the jobs, and one run from the bytes read to the bytes written.
#![tactic(auto)]

mod answer;
mod classes;
mod count;
mod cover;
mod debugger;
mod engine;
mod fault;
mod job;
pub mod laws;
mod numbers;
mod packed;
mod report;
mod resumption;
mod search;
mod searcher;
mod stretch;
mod tables;
mod tally;
mod up_to;
mod visits;
mod workers;

pub use engine::{run_alone, run_together};
pub use job::{CoverJob, Job, PuzzleJob};
pub use part_sums::Counted;
pub use poly_place::Group;
pub use tables::TableKind;
pub use workers::{Alone, Team};
