//! Tests of `lab_tickets`: in one thread, and with two thieves on threads of their own.
#![tactic(auto)]

#[cfg(test)]
mod seat_tests;
#[cfg(test)]
mod thief_tests;
