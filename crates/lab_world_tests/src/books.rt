//! Books of the small problem: what each call answers, and what a refused one leaves.

mod acts;
mod entry_tests;
mod finish;
mod new_tests;
mod resumed_tests;
mod search_tests;

pub use entry_tests::are_read_back;
pub use search_tests::{Play, holds_other_leases_stale, is_searched};
