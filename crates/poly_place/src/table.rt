//! A region as a table of bits, one for each cell within the limits.
ghost use Rattle.std.specs.Prelude.{◌≡◌, false, length, replicate, IfOk};
ghost use Rattle.poly_cells.specs.Coordinates.{coordinates};
ghost use Rattle.poly_cells.specs.Shapes.{AllInGrid};
ghost use Rattle.shared_words.specs.Answers.{ReturnsItems};
ghost use Rattle.poly_place.specs.Tables.{IsCellTable, AddsCells, grid_cells, bit_index, has_bit};

use poly_cells::Cell;
use std::alloc::{AllocError, Global};

// The greatest coordinate of a cell.
const LAST: u8 = 31;

/// How many cells there are within the limits.
pub const GRID_CELLS: usize = 32_768;

/// The table of a region.
pub fn table_of(alloc: Global, region: &[Cell]) -> Result<Vec<bool>, AllocError>
    requires { AllInGrid region.now }
    ensures { IfOk result (λ bits. IsCellTable region.now bits.items) }
{
    let mut bits = no_bits(alloc, GRID_CELLS)?;
    set_bits(&mut bits, region);
    Ok(bits)
}

/// Whether the region has the cell with these coordinates, which may be above the limits.
pub fn has_bit(bits: &[bool], x: u8, y: u8, z: u8) -> bool
    requires { length bits.now ≡ grid_cells }
    ensures { result ≡ has_bit bits.now (coordinates x y z) }
{
    x <= LAST && y <= LAST && z <= LAST && bits[bit_index(x, y, z)]
}

/// The place of a cell's bit.
pub fn bit_index(x: u8, y: u8, z: u8) -> usize
    ensures { result ≡ bit_index (coordinates x y z) }
{
    1024 * x as usize + 32 * y as usize + z as usize
}

/// A table with no bit set.
fn no_bits(alloc: Global, count: usize) -> Result<Vec<bool>, AllocError>
    ensures { ReturnsItems result (replicate count false) }
{
    vec![in alloc; false; count]
}

/// Sets the bits of these cells too.
fn set_bits(bits: &mut [bool], cells: &[Cell])
    requires limits { AllInGrid cells.now }
    requires long { length bits.old ≡ grid_cells }
    ensures { AddsCells bits.old bits.new cells.now }
{
    for cell in cells {
        bits[bit_index(cell.x(), cell.y(), cell.z())] = true;
    }
}
