//! Tests of `poly_cells` and `poly_place`: cells, symmetries and shapes, and calls that are made again where memory was refused.
#![tactic(auto)]

#[cfg(test)]
mod cells_tests;
#[cfg(test)]
mod fixtures;
#[cfg(test)]
mod memory_tests;
