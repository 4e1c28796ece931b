//! Sums of parts: what `resume` counted of the parts of a search, as one count.
#![tactic(auto)]

mod answer;
mod fault;
mod joined;
mod number;
mod order;
mod parts;
mod sum;
mod tail;
mod total;

pub use fault::JoinFault;
pub use joined::join;
pub use total::Counted;
