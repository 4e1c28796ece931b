//! Tests of `lab_history`, `lab_book` and `lab_world`: books and worlds of the small problem, row by row, and drawn events on drawn problems.
#![tactic(auto)]

#[cfg(test)]
mod asked;
#[cfg(test)]
mod books;
#[cfg(test)]
mod drawn_tests;
#[cfg(test)]
mod fixtures;
#[cfg(test)]
mod opening;
#[cfg(test)]
mod row_tests;
#[cfg(test)]
mod turn_tests;
