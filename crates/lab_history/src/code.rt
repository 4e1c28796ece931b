//! Entries as rows of numbers, and back.

mod reader;
mod writer;

pub(crate) use reader::{read_entry, read_kind, read_worker};
pub(crate) use writer::put_entry;
