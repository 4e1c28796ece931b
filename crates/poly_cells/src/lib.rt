//! Cells of a grid, the 48 symmetries of the cube with the 24 rotations among them, and shapes: finite sets of cells
//! that can be turned, moved and compared.
#![tactic(auto)]

mod cell;
mod fault;
pub mod laws;
mod matrix;
mod region;
mod rotation;
mod set;
mod shape;
mod symmetry;

pub use cell::Cell;
pub use fault::{CellFault, TranslateFault};
pub use region::symmetries_of;
pub use rotation::Rotation;
pub use set::{corner_of, put_in_order};
pub use shape::Shape;
pub use symmetry::Symmetry;
