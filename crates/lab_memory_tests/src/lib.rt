//! Tests of `lab_book` and `lab_world` where memory is refused: a refused call leaves a book or a world as it was, and is answered the
//! second time as where nothing is refused. `dev/do check_memory` runs them with one growth refused, each growth in turn.
#![tactic(auto)]

#[cfg(test)]
mod book_tests;
#[cfg(test)]
mod fixtures;
#[cfg(test)]
mod world_tests;
