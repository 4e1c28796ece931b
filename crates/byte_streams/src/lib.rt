//! Bytes in and out: sources and sinks that tell whether they failed, reading to the end, and writing whole.
#![tactic(auto)]

mod answers;
mod asked;
mod input;
pub mod laws;
mod output;
mod stream;
mod watched;

pub use input::{InputFault, read_whole};
pub use output::write_whole;
pub use stream::{Failed, Sink, Source};
pub use watched::Watched;
