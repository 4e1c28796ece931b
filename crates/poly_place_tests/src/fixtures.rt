//! Shapes that are made of rows of coordinates, or compared with them.
use poly_cells::{Cell, Shape, put_in_order};
use std::alloc::Global;
use std::test::Fail;

/// Coordinates of cells.
pub type Cells = &'static [(u8, u8, u8)];

/// Whether the cells have these coordinates.
pub fn are_cells(cells: &[Cell], coordinates: Cells) -> bool {
    cells.len() == coordinates.len()
        && cells
            .iter()
            .zip(coordinates.iter())
            .all(|(cell, at)| (cell.x(), cell.y(), cell.z()) == *at)
}

/// The shape of these cells, in any order.
pub fn shape_of(cells: Vec<Cell>) -> Result<Shape, Fail> {
    let mut cells = cells;
    put_in_order(&mut cells);
    if cells.is_empty() {
        return Err("no cell")?;
    }
    Ok(Shape::new(cells))
}

/// The shape of the cells with these coordinates, in any order.
pub fn shape_at(alloc: Global, coordinates: Cells) -> Result<Shape, Fail> {
    let mut cells = Vec::new(alloc);
    for (x, y, z) in coordinates {
        cells.push(Cell::new(*x, *y, *z)?)?;
    }
    shape_of(cells)
}

/// The box of these lengths.
pub fn box_of(alloc: Global, a: u8, b: u8, c: u8) -> Result<Shape, Fail> {
    let mut cells = Vec::new(alloc);
    for x in 0..a {
        for y in 0..b {
            for z in 0..c {
                cells.push(Cell::new(x, y, z)?)?;
            }
        }
    }
    shape_of(cells)
}
