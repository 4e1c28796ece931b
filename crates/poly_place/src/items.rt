//! The items of a puzzle's problem: the required pieces and cells, and then those that may be left out.
ghost use Rattle.std.specs.Prelude.{◌≡◌, ◌≤◌, ◌<◌, ◌+◌, ◌∷◌, [], false, IfOk, length, map, replicate};
ghost use Rattle.std.specs.String.{string_bytes};
ghost use Rattle.poly_cells.specs.CellWords.{cell_word};
ghost use Rattle.poly_cells.specs.CellWords as grammar;
ghost use Rattle.poly_cells.specs.Sets.{IsIn};
ghost use Rattle.poly_cells.specs.Shapes.{IsShape};
ghost use Rattle.poly_texts.specs.Puzzle.{IsPuzzle, names_of, is_needed, pieces_of};
ghost use Rattle.cover_problem.specs.Limits.{most_items};
ghost use Rattle.shared_words.specs.Answers.{ReturnsItems};
ghost use Rattle.poly_place.specs.Answers.{AddsTexts};
ghost use Rattle.poly_place.specs.Packings.{a_piece, thing_item, is_any, needed_things, index_among, node_word};
ghost use Rattle.poly_place.specs.Compiled.{AreNumbers, ArePlaces, ArePlacesOf, filled_cells, needed_names, numbered};
ghost use Rattle.poly_place.specs.Tables.{grid_cells};

use crate::table::{GRID_CELLS, bit_index, has_bit, table_of};
use poly_cells::Cell;
use poly_texts::{PieceName, Puzzle};
use std::alloc::{AllocError, Global};

/// The pieces that each packing lays or, as spare copies, leaves out, in the order of the puzzle.
pub fn needed_pieces(alloc: Global, puzzle: &Puzzle) -> Result<Vec<PieceName>, AllocError>
    ensures { ReturnsItems result (needed_names puzzle.now) }
{
    let mut needed = Vec::new(alloc);
    let pieces = puzzle.pieces();
    for k in 0..pieces.len() {
        let (name, _shape) = pieces.get_index(k).unwrap();
        if is_needed(puzzle, *name) {
            needed.push(*name)?;
        }
    }
    Ok(needed)
}

/// Whether the piece is neither one that may be left out nor one that may be used any number of times.
pub fn is_needed(puzzle: &Puzzle, name: PieceName) -> bool
    ensures { result ≡ is_needed puzzle.now name }
{
    !puzzle.is_maybe(name) && !puzzle.is_any(name)
}

/// The cells of the region that may not stay empty, in order.
pub fn needed_cells(alloc: Global, puzzle: &Puzzle) -> Result<Vec<Cell>, AllocError>
    ensures { ReturnsItems result (filled_cells puzzle.now) }
{
    let cells = puzzle.region().cells();
    let optional = table_of(alloc, puzzle.maybe_cells())?;
    let bits = optional.as_slice();
    let mut needed = Vec::new(alloc);
    for cell in cells {
        if !has_bit(bits, cell.x(), cell.y(), cell.z()) {
            needed.push(*cell)?;
        }
    }
    Ok(needed)
}

/// The number of each region cell's item, at the place of the cell's bit.
pub fn cell_numbers(
    alloc: Global,
    puzzle: &Puzzle,
    pieces: &[PieceName],
    cells: &[Cell],
) -> Result<Vec<u32>, AllocError>
    requires puzzle { IsPuzzle puzzle.now }
    requires pieces { pieces.now ≡ needed_names puzzle.now }
    requires cells { cells.now ≡ filled_cells puzzle.now }
    ensures { IfOk result (λ numbers. AreNumbers puzzle.now numbers.items) }
{
    let first = pieces.len();
    let second = first + cells.len() + puzzle.maybe_pieces().len();
    let mut numbers = no_numbers(alloc, GRID_CELLS)?;
    number_cells(&mut numbers, cells, first as u32);
    number_cells(&mut numbers, puzzle.maybe_cells(), second as u32);
    Ok(numbers)
}

/// A table without numbers.
fn no_numbers(alloc: Global, count: usize) -> Result<Vec<u32>, AllocError>
    ensures value { ReturnsItems result (replicate count 0) }
    ensures long { IfOk result (λ numbers. length numbers.items ≡ count) }
{
    vec![in alloc; 0u32; count]
}

/// For each cell of the region one more than how many of its cells come before it, at the place of the cell's bit.
pub fn cell_places(alloc: Global, puzzle: &Puzzle) -> Result<Vec<u32>, AllocError>
    requires { IsPuzzle puzzle.now }
    ensures { IfOk result (λ places. ArePlaces puzzle.now places.items) }
{
    region_places(alloc, puzzle.region().cells())
}

/// For each cell of a region one more than how many of its cells come before it, at the place of the cell's bit, and 0 elsewhere.
pub fn region_places(alloc: Global, region: &[Cell]) -> Result<Vec<u32>, AllocError>
    requires { IsShape region.now }
    ensures { IfOk result (λ places. ArePlacesOf region.now places.items) }
{
    let mut places = no_numbers(alloc, GRID_CELLS)?;
    number_cells(&mut places, region, 0);
    Ok(places)
}

/// Numbers these cells from the number after `last` on.
fn number_cells(numbers: &mut [u32], cells: &[Cell], last: u32)
    requires long { length numbers.old ≡ grid_cells }
    requires room { last + length cells.now ≤ most_items }
    ensures { numbers.new ≡ numbered numbers.old (last + 1) cells.now }
{
    let mut number = last;
    for cell in cells {
        number += 1;
        numbers[bit_index(cell.x(), cell.y(), cell.z())] = number;
    }
}

/// The number of the item of a piece of the puzzle, which may not be used any number of times.
pub fn piece_number(puzzle: &Puzzle, needed: &[PieceName], primary: u32, name: PieceName) -> u32
    requires puzzle { IsPuzzle puzzle.now }
    requires needed { needed.now ≡ needed_names puzzle.now }
    requires primary { primary ≡ length (needed_things puzzle.now) }
    requires member { IsIn name (names_of (pieces_of puzzle.now)) }
    requires single { is_any puzzle.now name ≡ false }
    ensures { result ≡ thing_item puzzle.now (a_piece name) }
{
    let place = index_among(needed, name);
    if place < needed.len() {
        place as u32 + 1
    } else {
        primary + index_among(puzzle.maybe_pieces(), name) as u32 + 1
    }
}

/// How many come before the name.
fn index_among(names: &[PieceName], name: PieceName) -> usize
    ensures value { result ≡ index_among (a_piece name) (map a_piece names.now) }
    ensures limit { result ≤ length names.now }
{
    let mut place = 0;
    for other in names {
        if name == *other {
            return place;
        }
        place += 1;
    }
    place
}

/// Adds the names of these pieces.
pub fn add_piece_names(
    alloc: Global,
    names: &mut Vec<String>,
    pieces: &[PieceName],
) -> Result<(), AllocError>
    ensures { AddsTexts result names.old names.new (map (λ n. n ∷ []) pieces.now) }
{
    for name in pieces {
        let mut text = String::new(alloc);
        text.push(name.symbol() as char)?;
        names.push(text)?;
    }
    Ok(())
}

/// Adds the names of these cells: the symbols of their coordinates.
pub fn add_cell_names(
    alloc: Global,
    names: &mut Vec<String>,
    cells: &[Cell],
) -> Result<(), AllocError>
    ensures { AddsTexts result names.old names.new (map cell_word cells.now) }
{
    for cell in cells {
        let mut text = String::new(alloc);
        text.push(symbol(cell.x()))?;
        text.push(symbol(cell.y()))?;
        text.push(symbol(cell.z()))?;
        names.push(text)?;
    }
    Ok(())
}

/// The name of a node of a pair's tree: the name of the piece that comes first, `_`, and the node's number in three symbols.
pub fn node_name(alloc: Global, name: PieceName, node: u32) -> Result<String, AllocError>
    requires { node < 32768 }
    ensures { IfOk result (λ text. string_bytes text ≡ node_word name node) }
{
    let mut text = String::new(alloc);
    text.push(name.symbol() as char)?;
    text.push('_')?;
    text.push(symbol((node / 1024) as u8))?;
    text.push(symbol((node / 32 % 32) as u8))?;
    text.push(symbol((node % 32) as u8))?;
    Ok(text)
}

/// One of `0-9a-v`, for 0 to 31.
fn symbol(coordinate: u8) -> char
    requires { coordinate ≤ 31 }
    ensures { result ≡ grammar.symbol coordinate }
{
    if coordinate < 10 {
        (b'0' + coordinate) as char
    } else {
        (b'a' + (coordinate - 10)) as char
    }
}
