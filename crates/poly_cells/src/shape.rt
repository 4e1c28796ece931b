//! Shapes: sets of cells that can be turned and moved.
ghost use Rattle.std.specs.Prelude.{◌≡◌, ◌<◌, ◌↔◌, IfOk, IsErrOf, length, map};
ghost use Rattle.std.specs.List.Sorted.{IsStrictlySortedBy};
ghost use Rattle.poly_cells.specs.Coordinates.{coordinates_cmp};
ghost use Rattle.poly_cells.specs.Points.{point, point_at};
ghost use Rattle.poly_cells.specs.Shapes.{IsShape, corner, normal, turned};
ghost use Rattle.poly_cells.specs.Images.{IsNormal, IsTranslate, IsTurned, StaysInside, translates};

use crate::cell::Cell;
use crate::fault::TranslateFault;
use crate::set::{corner_of, images, moved_back, put_in_order, stay_inside, translated};
use crate::symmetry::Symmetry;
use std::alloc::{AllocError, Global};
use std::marker::Model;

/// A set of one cell or more. Contracts see the rising list of its cells.
#[derive(Debug, Drop)]
pub struct Shape {
    cells: Vec<Cell>,
    // The least x, the least y and the least z.
    // Kept, so that `normal` goes through the cells once.
    lowest: Cell,
}

impl Model for Shape {
    ghost use Rattle.std.specs.Prelude.{◌≡◌, List};
    ghost use Rattle.poly_cells.specs.Coordinates.{Coordinates};
    ghost use Rattle.poly_cells.specs.Shapes.{IsShape, corner};

    ghost Value = { List Coordinates };

    ghost view = { λ a. a.cells.items };

    ghost invariant = { λ a. IsShape a.cells.items × (a.lowest ≡ corner a.cells.items) };
}

impl Shape {
    /// The shape of these cells.
    pub fn new(cells: Vec<Cell>) -> Self
        requires some { 0 < length cells.items }
        requires rises { IsStrictlySortedBy coordinates_cmp cells.items }
        ensures { result ≡ cells.items }
    {
        let lowest = corner_of(cells.as_slice());
        Shape { cells, lowest }
    }

    /// What is true of every shape, for a proof that needs it.
    pub fn is_sound(&self)
        ensures shape { IsShape self.now }
    {
        // Where a field is read, what the whole keeps true is known.
        let _cells = &self.cells;
    }

    /// The cells in order: at least one, each once.
    pub fn cells(&self) -> &[Cell]
        ensures value { result.now ≡ self.now }
        ensures shape { IsShape self.now }
    {
        self.cells.as_slice()
    }

    /// The same shape again.
    pub fn copy(&self) -> Result<Shape, AllocError>
        ensures { IfOk result (λ shape. shape ≡ self.now) }
    {
        let cells = Vec::from_slice(self.allocator(), self.cells.as_slice())?;
        Ok(Shape {
            cells,
            lowest: self.lowest,
        })
    }

    /// This shape turned by the symmetry, with its least corner moved to 0 0 0.
    pub fn turned(&self, symmetry: Symmetry) -> Result<Shape, AllocError>
        ensures value { IfOk result (λ shape. shape ≡ turned symmetry self.now) }
        ensures image { IfOk result (λ shape. IsTurned symmetry self.now shape) }
    {
        let mut cells = images(self.allocator(), self.cells.as_slice(), symmetry.matrix())?;
        // Turned cells stand in another order, and the least corner of the image is a new one.
        put_in_order(&mut cells);
        let ordered = cells.as_slice();
        at_origin(self.allocator(), ordered, corner_of(ordered))
    }

    /// This shape with its least x, its least y and its least z each moved to 0.
    pub fn normal(&self) -> Result<Shape, AllocError>
        ensures value { IfOk result (λ shape. shape ≡ normal self.now) }
        ensures image { IfOk result (λ shape. IsNormal self.now shape) }
        ensures shape { IsShape self.now }
    {
        at_origin(self.allocator(), self.cells.as_slice(), self.lowest)
    }

    /// This shape translated; refused where a cell would leave the coordinates 0 to 31.
    pub fn translate(&self, dx: i32, dy: i32, dz: i32) -> Result<Shape, TranslateFault>
        ensures value { IfOk result (λ shape. map point shape ≡ translates (point_at dx dy dz) self.now) }
        ensures image { IfOk result (λ shape. IsTranslate (point_at dx dy dz) self.now shape) }
        ensures refused { IsErrOf result TranslateFault.OutOfRange ↔ ¬ StaysInside (point_at dx dy dz) self.now }
    {
        let cells = self.cells.as_slice();
        // Tested first, so that a shape that would leave the grid is refused without memory.
        if !stay_inside(cells, dx, dy, dz) {
            return Err(TranslateFault::OutOfRange);
        }
        let moved = translated(self.allocator(), cells, dx, dy, dz)?;
        Ok(Shape::new(moved))
    }

    /// The allocator of the cells.
    fn allocator(&self) -> Global {
        *self.cells.allocator()
    }
}

/// The shape of these cells with their least corner moved to 0 0 0.
fn at_origin(alloc: Global, cells: &[Cell], least: Cell) -> Result<Shape, AllocError>
    requires some { 0 < length cells.now }
    requires rises { IsStrictlySortedBy coordinates_cmp cells.now }
    requires least { least ≡ corner cells.now }
    ensures { IfOk result (λ shape. shape ≡ normal cells.now) }
{
    let moved = moved_back(alloc, cells, least)?;
    // All cells are moved alike, so they are in order still.
    Ok(Shape::new(moved))
}
