//! Sets of cells as rising lists: putting several in order, and moving one.
ghost use Rattle.std.specs.Prelude.{◌≡◌, List, length, map};
ghost use Rattle.std.specs.List.{list_all};
ghost use Rattle.poly_cells.specs.Coordinates.{Coordinates, IsInGrid, coordinates_cmp};
ghost use Rattle.poly_cells.specs.Sets.{IsIn, in_order};
ghost use Rattle.poly_cells.specs.Shapes.{IsShape, moved, moved_back};
ghost use Rattle.shared_words.specs.Answers.{ReturnsItems};
ghost use Rattle.poly_place.specs.Lists.{lists_of};
ghost use Rattle.poly_place.specs.Placements.{cells_cmp, is_below};
ghost use Rattle.poly_place.specs.Tables.{grid_cells, has_bit};

use crate::table::has_bit;
use poly_cells::{Cell, Shape};
use std::alloc::{AllocError, Global};

/// Puts sets of cells in order, each once.
pub fn put_sets_in_order(sets: &mut Vec<Vec<Cell>>)
    ensures { lists_of sets.new.items ≡ in_order cells_cmp (lists_of sets.old.items) }
{
    sets.sort_unstable();
    sets.dedup();
}

/// The shapes of these sets, in the same order.
pub fn shapes_of(alloc: Global, sets: Vec<Vec<Cell>>) -> Result<Vec<Shape>, AllocError>
    requires { (set : List Coordinates) → IsIn set (lists_of sets.items) → IsShape set }
    ensures { ReturnsItems result (lists_of sets.items) }
{
    let mut shapes = Vec::with_capacity(alloc, sets.len())?;
    for set in sets {
        shapes.push(Shape::new(set))?;
    }
    Ok(shapes)
}

/// Whether no coordinate of `cell` is above that of `other`.
pub fn is_below(cell: Cell, other: Cell) -> bool
    ensures { result ≡ is_below cell other }
{
    cell.x() <= other.x() && cell.y() <= other.y() && cell.z() <= other.z()
}

/// `cell`, moved back by the coordinates of `by`, or to 0 where they are greater.
pub fn moved_back(by: Cell, cell: Cell) -> Cell
    ensures { result ≡ moved_back by cell }
{
    Cell::new(
        cell.x().saturating_sub(by.x()),
        cell.y().saturating_sub(by.y()),
        cell.z().saturating_sub(by.z()),
    )
    .unwrap()
}

/// Whether each of the cells, moved by the coordinates of `by`, is one of the table's.
pub fn all_inside(bits: &[bool], cells: &[Cell], by: Cell) -> bool
    requires { length bits.now ≡ grid_cells }
    ensures { result ≡ list_all (has_bit bits.now) (map (moved by) cells.now) }
{
    for cell in cells {
        if !has_bit(
            bits,
            cell.x() + by.x(),
            cell.y() + by.y(),
            cell.z() + by.z(),
        ) {
            return false;
        }
    }
    true
}

/// These cells, each moved by the coordinates of `by`.
pub fn all_moved(alloc: Global, cells: &[Cell], by: Cell) -> Result<Vec<Cell>, AllocError>
    requires { (v : Coordinates) → IsIn v cells.now → IsInGrid (moved by v) }
    ensures { ReturnsItems result (map (moved by) cells.now) }
{
    let mut there = Vec::with_capacity(alloc, cells.len())?;
    for cell in cells {
        let (x, y, z) = (cell.x() + by.x(), cell.y() + by.y(), cell.z() + by.z());
        there.push(Cell::new(x, y, z).unwrap())?;
    }
    Ok(there)
}
