//! Tests of `text_lines`, `byte_streams` and `cover_problem`: numbers, streams that break, problems and their tables.
#![tactic(auto)]

#[cfg(test)]
mod exact_cover_tests;
#[cfg(test)]
mod fixtures;
#[cfg(test)]
mod line_tests;
#[cfg(test)]
mod problem_tests;
#[cfg(test)]
mod stream_tests;
#[cfg(test)]
mod table_tests;
