//! Tests of `polylab_engine` and `polylab_line`: what a run of the program doesn't show.
#![tactic(auto)]

#[cfg(test)]
mod ending;
#[cfg(test)]
mod line_tests;
#[cfg(test)]
mod request;
#[cfg(test)]
mod stream_tests;
#[cfg(test)]
mod table_tests;
#[cfg(test)]
mod worker_tests;
