//! Each public function of cells and shapes once, with values from outside: rows worked by hand, and counts.
use crate::fixtures::{Cells, are_cells, box_of, shape_at};
use poly_cells::{Cell, Rotation, Shape, Symmetry, TranslateFault, symmetries_of};
use std::alloc::Global;
use std::test::Fail;

/// The number of the fault of coordinates, if they have one.
fn refused(x: u8, y: u8, z: u8) -> Option<u8> {
    match Cell::new(x, y, z) {
        Ok(_) => None,
        Err(fault) => Some(fault.number()),
    }
}

#[test]
fn a_cell_has_coordinates_up_to_31(rt: HostRuntime) -> Result<(), Fail> {
    let cell = Cell::new(31, 0, 7)?;
    assert!(rt; cell.x() == 31 && cell.y() == 0 && cell.z() == 7);
    assert!(rt; Cell::new(0, 32, 0).is_err());
    assert!(rt; refused(0, 0, 255) == Some(1));
    assert!(rt; Cell::new(0, 9, 9)? < Cell::new(1, 0, 0)?);
    Ok(())
}

#[test]
fn symmetries_and_rotations_compose(rt: HostRuntime) {
    let turn = Rotation::new(4);
    assert!(rt; turn.symmetry().number() == 9);
    assert!(rt; Rotation::compose(turn, turn).number() == 1);
    assert!(rt; turn.inverse().number() == 5);
    // An exchange of two coordinates alone is a reflection.
    assert!(rt; !Symmetry::new(8).is_rotation());
    // First x, y, z to x, z, -y, and then to y, x, z: together to z, x, -y.
    let both = Symmetry::compose(Symmetry::new(16), turn.symmetry());
    assert!(rt; both.number() == 33);
    assert!(rt; Symmetry::compose(both.inverse(), both).number() == 0);
}

const ROW: Cells = &[(0, 0, 0), (1, 0, 0)];

const NEXT_ROW: Cells = &[(1, 0, 0), (2, 0, 0)];

const LAST_ROW: Cells = &[(30, 31, 31), (31, 31, 31)];

/// Whether a shape that is moved so far has these cells.
fn is_moved(alloc: Global, cells: Cells, by: (i32, i32, i32), moved: Cells) -> Result<bool, Fail> {
    let shape = shape_at(alloc, cells)?;
    let (x, y, z) = by;
    Ok(are_cells(shape.translate(x, y, z)?.cells(), moved))
}

/// Whether a shape that is moved to the origin has these cells.
fn is_settled(alloc: Global, cells: Cells, settled: Cells) -> Result<bool, Fail> {
    let shape = shape_at(alloc, cells)?;
    Ok(are_cells(shape.normal()?.cells(), settled))
}

/// Whether the copy of a shape has its cells.
fn is_copied(alloc: Global, cells: Cells) -> Result<bool, Fail> {
    let shape = shape_at(alloc, cells)?;
    Ok(shape.copy()?.cells() == shape.cells())
}

/// Whether a shape can't be moved so far along x, and has its fault's number then.
fn is_out_of_range(alloc: Global, cells: Cells, by: i32) -> Result<bool, Fail> {
    let shape = shape_at(alloc, cells)?;
    match shape.translate(by, 0, 0) {
        Ok(_) => Ok(false),
        Err(fault) => Ok(fault == TranslateFault::OutOfRange && fault.number() == Some(1)),
    }
}

#[test]
fn a_row_moves(rt: HostRuntime) -> Result<(), Fail> {
    let alloc = rt.alloc();
    assert!(rt; is_moved(alloc, ROW, (1, 0, 0), NEXT_ROW)?);
    assert!(rt; is_settled(alloc, NEXT_ROW, ROW)?);
    assert!(rt; is_copied(alloc, ROW)?);
    assert!(rt; is_moved(alloc, ROW, (30, 31, 31), LAST_ROW)?);
    Ok(())
}

#[test]
fn a_row_stays_in_the_grid(rt: HostRuntime) -> Result<(), Fail> {
    for by in [-1, 31, 1 << 30, i32::MIN, i32::MAX] {
        assert!(rt; is_out_of_range(rt.alloc(), ROW, by)?);
    }
    Ok(())
}

/// Whether a symmetry turns a shape into the one of these cells.
fn is_image(alloc: Global, shape: &Shape, symmetry: Symmetry, image: Cells) -> Result<bool, Fail> {
    let image = shape_at(alloc, image)?;
    Ok(shape.turned(symmetry)?.cells() == image.cells())
}

/// The same of the shape of other cells.
fn turns(alloc: Global, cells: Cells, symmetry: Symmetry, image: Cells) -> Result<bool, Fail> {
    let shape = shape_at(alloc, cells)?;
    is_image(alloc, &shape, symmetry, image)
}

const STANDING: Cells = &[(3, 0, 0), (3, 1, 0), (3, 2, 0)];

const RISING: Cells = &[(0, 0, 0), (0, 0, 1), (0, 0, 2)];

#[test]
fn a_turned_row_lies_along_another_axis(rt: HostRuntime) -> Result<(), Fail> {
    assert!(rt; turns(rt.alloc(), STANDING, Rotation::new(4).symmetry(), RISING)?);
    Ok(())
}

/// The symmetries of the box of these lengths.
fn symmetries(alloc: Global, a: u8, b: u8, c: u8) -> Result<Vec<Symmetry>, Fail> {
    let shape = box_of(alloc, a, b, c)?;
    Ok(symmetries_of(alloc, &shape)?)
}

/// How many symmetries that box has.
fn count(alloc: Global, a: u8, b: u8, c: u8) -> Result<usize, Fail> {
    Ok(symmetries(alloc, a, b, c)?.len())
}

/// Whether a flat box has eight, which keep the axes in place.
fn has_eight(alloc: Global) -> Result<bool, Fail> {
    let flat = symmetries(alloc, 20, 3, 1)?;
    Ok(flat.len() == 8 && flat[7].number() == 7)
}

#[test]
fn boxes_have_their_symmetries(rt: HostRuntime) -> Result<(), Fail> {
    assert!(rt; count(rt.alloc(), 3, 3, 3)? == 48);
    assert!(rt; count(rt.alloc(), 2, 2, 1)? == 16);
    assert!(rt; has_eight(rt.alloc())?);
    assert!(rt; count(rt.alloc(), 16, 16, 16)? == 48);
    Ok(())
}
