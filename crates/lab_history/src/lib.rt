//! The history of a book of a search: the entries of calls with their answers, kept as rows of numbers. No tile and
//! no search is known here.
#![tactic(auto)]

mod code;
mod ending;
mod entries;
mod entry;
mod fault;
mod grant;
mod history;
mod kind;
mod path;

pub use ending::Ending;
pub use entries::Entries;
pub use entry::{Call, Entry, Reply};
pub use fault::BookFault;
pub use grant::Grant;
pub use history::History;
pub use kind::CallKind;
pub use path::Path;
