//! Deques of tickets, one for each seat: a seat pushes to its own, pops from it, and steals from the others'.
#![tactic(auto)]

mod deques;
pub mod laws;
mod rule;
mod seat;
mod table;

pub use seat::TicketSeat;
pub use table::tickets;
