//! Placements of a piece in a region, and the exact cover problem whose exact covers are the packings of a puzzle.
#![tactic(auto)]

mod alike;
mod choice;
mod compiled;
mod fault;
mod followers;
mod forms;
mod images;
mod items;
pub mod laws;
mod layer;
mod laying;
mod leavings;
mod listing;
mod nodes;
mod numbers;
mod packing;
mod placement;
mod room;
mod set;
mod symbol;
mod table;

pub use alike::{Group, carriers, classes};
pub use choice::Choice;
pub use compiled::{Compiled, compile};
pub use fault::PlaceFault;
pub use forms::packing_key;
pub use items::{cell_places, region_places};
pub use layer::layers;
pub use listing::write_packings;
pub use packing::{Packing, packing_of};
pub use placement::{placements, placements_by};
pub use table::bit_index;
