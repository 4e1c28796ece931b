//! Where a symmetry of a region brings its cells.
ghost use Rattle.std.specs.Prelude.{◌≡◌, ◌↔◌, IfOk, IsTrue, map};
ghost use Rattle.poly_cells.specs.Coordinates.{Coordinates, IsInGrid};
ghost use Rattle.poly_cells.specs.Turns.{turn};
ghost use Rattle.poly_cells.specs.Sets.{IsIn};
ghost use Rattle.poly_cells.specs.Shapes.{IsShape, moved, moved_back};
ghost use Rattle.poly_cells.specs.Images.{HasSymmetry};
ghost use Rattle.shared_words.specs.Answers.{ReturnsItems};
ghost use Rattle.poly_place.specs.ClassCount.{images_in};
ghost use Rattle.poly_place.specs.Forms.{marks_of};
ghost use Rattle.poly_place.specs.Packings.{place_of};

use crate::set::moved_back;
use poly_cells::{Cell, Symmetry, corner_of};
use std::alloc::{AllocError, Global};

/// Whether the cells are marked as others were.
pub fn keeps_marks(
    alloc: Global,
    maybe: &[Cell],
    marked: &[bool],
    images: &[Cell],
) -> Result<bool, AllocError>
    ensures { IfOk result (λ kept. IsTrue kept ↔ (marks_of maybe.now images.now ≡ marked.now)) }
{
    let marks = marks(alloc, maybe, images)?;
    Ok(marks.as_slice() == marked)
}

/// For each of the cells whether it is among the others.
pub fn marks(alloc: Global, others: &[Cell], cells: &[Cell]) -> Result<Vec<bool>, AllocError>
    ensures { ReturnsItems result (marks_of others.now cells.now) }
{
    let mut marks = Vec::with_capacity(alloc, cells.len())?;
    for cell in cells {
        marks.push(others.contains(cell))?;
    }
    Ok(marks)
}

/// Where a symmetry brings the cells of a region.
pub fn images_in(
    alloc: Global,
    region: &[Cell],
    symmetry: Symmetry,
) -> Result<Vec<Cell>, AllocError>
    requires shape { IsShape region.now }
    requires symmetry { HasSymmetry symmetry region.now }
    ensures { ReturnsItems result (images_in region.now symmetry) }
{
    let turned = all_turned(alloc, region, symmetry)?;
    let lowest = corner_of(turned.as_slice());
    let corner = corner_of(region);
    all_led(alloc, turned.as_slice(), lowest, corner)
}

/// The cells turned.
fn all_turned(alloc: Global, cells: &[Cell], symmetry: Symmetry) -> Result<Vec<Cell>, AllocError>
    ensures { ReturnsItems result (map (turn symmetry) cells.now) }
{
    let mut turned = Vec::with_capacity(alloc, cells.len())?;
    for cell in cells {
        turned.push(cell.turned(symmetry))?;
    }
    Ok(turned)
}

/// The cells, each moved from `back` to `to`.
fn all_led(alloc: Global, cells: &[Cell], back: Cell, to: Cell) -> Result<Vec<Cell>, AllocError>
    requires { (v : Coordinates) → IsIn v cells.now → IsInGrid (moved to (moved_back back v)) }
    ensures { ReturnsItems result (map (λ v. moved to (moved_back back v)) cells.now) }
{
    let mut led = Vec::with_capacity(alloc, cells.len())?;
    for cell in cells {
        let from = moved_back(back, *cell);
        let (x, y, z) = (from.x() + to.x(), from.y() + to.y(), from.z() + to.z());
        led.push(Cell::new(x, y, z).unwrap())?;
    }
    Ok(led)
}

/// The place of each of the cells in the region.
pub fn places_of(alloc: Global, region: &[Cell], cells: &[Cell]) -> Result<Vec<usize>, AllocError>
    ensures { ReturnsItems result (map (place_of region.now) cells.now) }
{
    let mut places = Vec::with_capacity(alloc, cells.len())?;
    for cell in cells {
        places.push(place_of(region, *cell))?;
    }
    Ok(places)
}

/// How many of the cells come before this one.
fn place_of(cells: &[Cell], cell: Cell) -> usize
    ensures { result ≡ place_of cells.now cell }
{
    let mut place = 0;
    for other in cells {
        if *other == cell {
            return place;
        }
        place += 1;
    }
    place
}
