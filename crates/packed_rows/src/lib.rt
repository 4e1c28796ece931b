//! Rows of numbers, each number in as few bytes as it needs.
#![tactic(auto)]

mod draft;
mod known;
#[cfg(test)]
mod list_tests;
mod reader;
mod rope;
mod row;
#[cfg(test)]
mod row_tests;
mod rows;

pub use reader::Reader;
pub use row::Row;
pub use rows::Rows;
