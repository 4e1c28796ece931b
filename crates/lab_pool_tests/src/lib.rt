//! Tests of `lab_desk` and `lab_pool`: two seats at a desk, and workers on threads.
#![tactic(auto)]

#[cfg(test)]
mod arrival_tests;
#[cfg(test)]
mod begun_tests;
#[cfg(test)]
mod books;
#[cfg(test)]
mod cases;
#[cfg(test)]
mod desk_tests;
#[cfg(test)]
mod desks;
#[cfg(test)]
mod dominoes;
#[cfg(test)]
mod gate_tests;
#[cfg(test)]
mod held_tests;
#[cfg(test)]
mod memory_tests;
#[cfg(test)]
mod pool_tests;
#[cfg(test)]
mod pools;
#[cfg(test)]
mod searches;
#[cfg(test)]
mod waiter;
#[cfg(test)]
mod waiter_tests;
