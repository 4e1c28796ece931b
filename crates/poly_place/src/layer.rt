//! Packings as layers of text.
ghost use Rattle.std.specs.Prelude.{◌≡◌, ◌≤◌, ◌<◌, ◌∷◌, [], ℕ, length, map, replicate, slice_index, IfOk, OnOk};
ghost use Rattle.std.specs.String.{string_bytes};
ghost use Rattle.text_lines.specs.Writing.{text_of};
ghost use Rattle.poly_cells.specs.Coordinates.{coordinates};
ghost use Rattle.poly_cells.specs.Shapes.{corner};
ghost use Rattle.shared_words.specs.Answers.{ReturnsItems};
ghost use Rattle.poly_place.specs.Answers.{AddsText};
ghost use Rattle.poly_place.specs.Layers.{AreSymbols, far_corner, from_to, layer_line, layer_lines, layers, symbol_at, with_gap, Paints, Shows};
ghost use Rattle.poly_place.specs.Tables.{grid_cells};

use crate::packing::Packing;
use crate::symbol::shown_symbol;
use crate::table::{GRID_CELLS, bit_index};
use poly_cells::{Cell, corner_of};
use std::alloc::{AllocError, Global};

// The greatest coordinate of a cell.
const LAST: u8 = 31;

/// The layers of a packing: a line for each y of the region's bounding box, in it a block for each z, one space between two,
/// and in that a symbol for each x: that of the piece there, `_` where the cell is empty, `.` outside the region.
#[tactic(auto, unfolding(crate::specs::Layers::layers))]
pub fn layers(alloc: Global, packing: &Packing<'_>) -> Result<String, AllocError>
    ensures { IfOk result (λ text. string_bytes text ≡ layers packing.now) }
{
    let symbols = symbols_of(alloc, packing)?;
    let cells = packing.region().cells();
    let mut text = String::new(alloc);
    push_lines(
        &mut text,
        symbols.as_slice(),
        corner_of(cells),
        far_corner(cells),
    )?;
    Ok(text)
}

/// Adds the lines of the box from one corner to the other.
fn push_lines(text: &mut String, symbols: &[u8], low: Cell, high: Cell) -> Result<(), AllocError>
    requires long { length symbols.now ≡ grid_cells }
    requires ascii { (i : ℕ) → slice_index symbols.now i < 128 }
    ensures { Shows result text.old text.new symbols.now (λ f. text_of (layer_lines f low high)) }
{
    for y in low.y()..high.y() + 1 {
        push_line(text, symbols, low, high, y)?;
    }
    Ok(())
}

/// Adds the line for y.
fn push_line(
    text: &mut String,
    symbols: &[u8],
    low: Cell,
    high: Cell,
    y: u8,
) -> Result<(), AllocError>
    requires long { length symbols.now ≡ grid_cells }
    requires within { y ≤ 31 }
    requires ascii { (i : ℕ) → slice_index symbols.now i < 128 }
    ensures { Shows result text.old text.new symbols.now (λ f. layer_line f low high y) }
{
    for z in low.z()..high.z() + 1 {
        push_gap(text, z > low.z())?;
        push_row(text, symbols, (low.x(), high.x()), y, z)?;
    }
    push_symbol(text, b'\n')
}

/// Adds the symbols of the cells with this y and z, from one x to the other.
fn push_row(
    text: &mut String,
    symbols: &[u8],
    ends: (u8, u8),
    y: u8,
    z: u8,
) -> Result<(), AllocError>
    requires long { length symbols.now ≡ grid_cells }
    requires x_within { ends.1 ≤ 31 }
    requires y_within { y ≤ 31 }
    requires z_within { z ≤ 31 }
    requires ascii { (i : ℕ) → slice_index symbols.now i < 128 }
    ensures { Shows result text.old text.new symbols.now
        (λ f. map (λ x. f (coordinates x y z)) (from_to (ends.0) (ends.1))) }
{
    for x in ends.0..ends.1 + 1 {
        push_symbol(text, symbols[bit_index(x, y, z)])?;
    }
    Ok(())
}

/// Adds a space, where a word stands before.
fn push_gap(text: &mut String, is_later: bool) -> Result<(), AllocError>
    ensures { OnOk result (string_bytes text.new ≡ with_gap is_later (string_bytes text.old)) }
{
    if is_later {
        return push_symbol(text, b' ');
    }
    Ok(())
}

/// Adds an ASCII byte.
fn push_symbol(text: &mut String, symbol: u8) -> Result<(), AllocError>
    requires { symbol < 128 }
    ensures { AddsText result text.old text.new (symbol ∷ []) }
{
    text.push(symbol as char)
}

/// What shows each cell.
fn symbols_of(alloc: Global, packing: &Packing<'_>) -> Result<Vec<u8>, AllocError>
    ensures { IfOk result (λ symbols. AreSymbols (symbol_at packing.now) symbols.items) }
{
    let mut symbols = blank(alloc, GRID_CELLS)?;
    paint(&mut symbols, packing.region().cells(), b'_');
    let placements = packing.placements();
    for k in 0..placements.len() {
        let choice = &placements[placements.len() - 1 - k];
        paint(&mut symbols, choice.cells(), shown_symbol(packing, choice));
    }
    Ok(symbols)
}

/// So many points.
fn blank(alloc: Global, count: usize) -> Result<Vec<u8>, AllocError>
    ensures { ReturnsItems result (replicate count 46) }
{
    vec![in alloc; b'.'; count]
}

/// Shows these cells by one symbol.
fn paint(symbols: &mut [u8], cells: &[Cell], symbol: u8)
    requires long { length symbols.old ≡ grid_cells }
    requires ascii { symbol < 128 }
    ensures { Paints symbols.old symbols.new cells.now symbol }
{
    for cell in cells {
        symbols[bit_index(cell.x(), cell.y(), cell.z())] = symbol;
    }
}

/// The greatest x, the greatest y and the greatest z.
fn far_corner(cells: &[Cell]) -> Cell
    ensures { result ≡ far_corner cells.now }
{
    let (mut x, mut y, mut z): (u8, u8, u8) = (0, 0, 0);
    for cell in cells {
        x = x.max(cell.x());
        y = y.max(cell.y());
        z = z.max(cell.z());
    }
    Cell::new(x, y, z).unwrap()
}
