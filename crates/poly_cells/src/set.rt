//! Sets of cells as rising lists: putting a list in order, its least corner, and its images.
ghost use Rattle.std.specs.Prelude.{◌≡◌, ◌↔◌, IfOk, IsTrue, map};
ghost use Rattle.poly_cells.specs.Points.{point, point_at};
ghost use Rattle.poly_cells.specs.Images.{StaysInside, translates};
ghost use Rattle.poly_cells.specs.Coordinates.{Coordinates, coordinates_cmp};
ghost use Rattle.poly_cells.specs.Turns.{turned_by};
ghost use Rattle.poly_cells.specs.Sets.{IsIn, in_order};
ghost use Rattle.std.specs.List.Sorted.{IsStrictlySortedBy};
ghost use Rattle.poly_cells.specs.Shapes.{AllInGrid, corner, moved_back};

use crate::cell::{Cell, LAST};
use crate::matrix::SignedPermutation;
use std::alloc::{AllocError, Global};

/// Puts cells in order, each once.
pub fn put_in_order(cells: &mut Vec<Cell>)
    ensures value { cells.new.items ≡ in_order coordinates_cmp cells.old.items }
    ensures rises { IsStrictlySortedBy coordinates_cmp cells.new.items }
    ensures members { (v : Coordinates) → IsIn v cells.new.items ↔ IsIn v cells.old.items }
{
    // Equal cells can't be told apart, so the sort may exchange them. In order they stand side by side, as `dedup` needs.
    cells.sort_unstable();
    cells.dedup();
}

/// The least x, the least y and the least z; 31 31 31 where there is no cell.
pub fn corner_of(cells: &[Cell]) -> Cell
    ensures value { result ≡ corner cells.now }
    ensures limits { AllInGrid cells.now }
{
    // No coordinate is greater, so the least of these begins here.
    let mut x: u8 = LAST;
    let mut y: u8 = LAST;
    let mut z: u8 = LAST;
    for cell in cells {
        x = x.min(cell.x());
        y = y.min(cell.y());
        z = z.min(cell.z());
    }
    Cell::at(x, y, z)
}

/// The cells to which the matrix turns these, in the same order.
pub fn images(alloc: Global, cells: &[Cell], m: SignedPermutation) -> Result<Vec<Cell>, AllocError>
    ensures { IfOk result (λ turned. turned.items ≡ map (turned_by m) cells.now) }
{
    cells.iter().map(|cell| cell.turned_by(m)).collect(alloc)
}

/// These cells, each moved back by the coordinates of `by`.
pub fn moved_back(alloc: Global, cells: &[Cell], by: Cell) -> Result<Vec<Cell>, AllocError>
    ensures { IfOk result (λ moved. moved.items ≡ map (moved_back by) cells.now) }
{
    cells.iter().map(|cell| cell.moved_back(by)).collect(alloc)
}

/// Whether each of the cells, translated, is a cell again.
pub fn stay_inside(cells: &[Cell], dx: i32, dy: i32, dz: i32) -> bool
    ensures { IsTrue result ↔ StaysInside (point_at dx dy dz) cells.now }
{
    for cell in cells {
        if cell.translated(dx, dy, dz).is_none() {
            return false;
        }
    }
    true
}

/// These cells, each translated.
pub fn translated(
    alloc: Global,
    cells: &[Cell],
    dx: i32,
    dy: i32,
    dz: i32,
) -> Result<Vec<Cell>, AllocError>
    requires { StaysInside (point_at dx dy dz) cells.now }
    ensures { IfOk result (λ moved. map point moved.items ≡ translates (point_at dx dy dz) cells.now) }
{
    let mut moved = Vec::with_capacity(alloc, cells.len())?;
    for cell in cells {
        // `stay_inside` was asked before, so each cell has an image.
        moved.push(cell.translated(dx, dy, dz).unwrap())?;
    }
    Ok(moved)
}
