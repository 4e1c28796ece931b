//! One cell of the grid.
ghost use Rattle.std.specs.Prelude.{◌≡◌, ◌≢◌, ◌≤◌, ◌↔◌, ℕ, pos, ◌+ℤ◌, IfOk, IsOk, IfSome, IfNone};
ghost use Rattle.poly_cells.specs.Coordinates.{Coordinates, coordinates, IsInGrid};
ghost use Rattle.poly_cells.specs.Points.{point, point_at, translated};
ghost use Rattle.poly_cells.specs.Symmetries.{pick};
ghost use Rattle.poly_cells.specs.Turns.{mirrored, turn, turned_by};
ghost use Rattle.poly_cells.specs.Shapes.{moved_back};

use crate::fault::CellFault;
use crate::matrix::SignedPermutation;
use crate::symmetry::Symmetry;
use std::marker::Model;

// The greatest coordinate of a cell.
// A puzzle writes a coordinate as one of 0-9 and a-v, which are 32.
pub(crate) const LAST: u8 = 31;

/// A cell: three coordinates from 0 to 31. Cells are ordered by x, then by y, then by z.
/// Contracts see a cell as the triple of its coordinates.
// The order that is derived is that of the fields: x, y, z.
#[derive(Clone, Copy, Debug, PartialEq, Eq, Hash, PartialOrd, Ord)]
pub struct Cell {
    x: u8,
    y: u8,
    z: u8,
}

impl Model for Cell {
    ghost use Rattle.std.specs.Prelude.{ℕ, ◌≤◌};
    ghost use Rattle.poly_cells.specs.Coordinates.{Coordinates, coordinates, IsInGrid};

    ghost Value = { Coordinates };

    ghost view = { λ c. coordinates c.x c.y c.z };

    ghost invariant = { λ c. IsInGrid (coordinates c.x c.y c.z) };

    ghost inverse = { λ v. record { x = v.x; y = v.y; z = v.z } };
}

impl Cell {
    /// The cell with these coordinates, or a refusal where one of them is above 31.
    pub fn new(x: u8, y: u8, z: u8) -> Result<Self, CellFault>
        ensures value { IfOk result (λ cell. cell ≡ coordinates x y z) }
        ensures accepted { IsOk result ↔ IsInGrid (coordinates x y z) }
    {
        if x > LAST || y > LAST || z > LAST {
            return Err(CellFault::OutOfRange);
        }
        Ok(Cell { x, y, z })
    }

    /// The first coordinate, from 0 to 31.
    pub fn x(self) -> u8
        ensures value { result ≡ self.x }
        ensures limit { result ≤ 31 }
    {
        self.x
    }

    /// The second coordinate, from 0 to 31.
    pub fn y(self) -> u8
        ensures value { result ≡ self.y }
        ensures limit { result ≤ 31 }
    {
        self.y
    }

    /// The third coordinate, from 0 to 31.
    pub fn z(self) -> u8
        ensures value { result ≡ self.z }
        ensures limit { result ≤ 31 }
    {
        self.z
    }

    /// The cell with these coordinates.
    pub(crate) fn at(x: u8, y: u8, z: u8) -> Cell
        requires { IsInGrid (coordinates x y z) }
        ensures { result ≡ coordinates x y z }
    {
        Cell { x, y, z }
    }

    /// The coordinate at place 0, 1 or 2.
    fn coordinate(self, coordinates: u8) -> u8
        ensures value { result ≡ pick coordinates self.x self.y self.z }
        ensures limit { result ≤ 31 }
    {
        match coordinates {
            0 => self.x,
            1 => self.y,
            // A place is below 3, so this one is z.
            _ => self.z,
        }
    }

    /// The cell to which the symmetry turns this one within the cube of cells: a minus sign reads a coordinate from the other end.
    pub fn turned(self, symmetry: Symmetry) -> Cell
        ensures { result ≡ turn symmetry self }
    {
        self.turned_by(symmetry.matrix())
    }

    /// The cell to which the matrix turns this one; a minus sign reads a coordinate from the other end.
    pub(crate) fn turned_by(self, m: SignedPermutation) -> Cell
        ensures { result ≡ turned_by m self }
    {
        // No sign leads out of the cube of all cells, so each cell has an image.
        Cell {
            x: mirrored(m.minus_x, self.coordinate(m.from_x)),
            y: mirrored(m.minus_y, self.coordinate(m.from_y)),
            z: mirrored(m.minus_z, self.coordinate(m.from_z)),
        }
    }

    /// This cell moved back by the coordinates of `by`, or to 0 where they are greater.
    pub(crate) fn moved_back(self, by: Cell) -> Cell
        ensures { result ≡ moved_back by self }
    {
        // Nothing is lost where `by` is the least corner of the cells: none of its coordinates is greater than theirs.
        Cell {
            x: self.x.saturating_sub(by.x),
            y: self.y.saturating_sub(by.y),
            z: self.z.saturating_sub(by.z),
        }
    }

    /// This cell translated, where a cell is there.
    pub(crate) fn translated(self, dx: i32, dy: i32, dz: i32) -> Option<Cell>
        ensures inside { IfSome result (λ cell. IsInGrid cell × (point cell ≡ translated (point_at dx dy dz) (point self))) }
        ensures outside { IfNone result ((p : Coordinates) → IsInGrid p →
            point p ≢ translated (point_at dx dy dz) (point self)) }
    {
        let x = shifted(self.x, dx)?;
        let y = shifted(self.y, dy)?;
        let z = shifted(self.z, dz)?;
        Some(Cell { x, y, z })
    }
}

/// c, or c counted from the other end.
fn mirrored(minus: bool, c: u8) -> u8
    requires { c ≤ 31 }
    ensures value { result ≡ mirrored minus c }
    ensures limit { result ≤ 31 }
{
    if minus { LAST - c } else { c }
}

/// The coordinate c + by, where there is one.
fn shifted(c: u8, by: i32) -> Option<u8>
    ensures inside { IfSome result (λ r. (r ≤ 31) × (pos r ≡ pos c +ℤ by)) }
    ensures outside { IfNone result ((n : ℕ) → n ≤ 31 → pos n ≢ (pos c +ℤ by)) }
{
    // In 64 bits a `u8` and an `i32` have a sum, whatever they are.
    let sum = i64::from(c) + i64::from(by);
    if sum < 0 || sum > 31 {
        None
    } else {
        Some(sum as u8)
    }
}
