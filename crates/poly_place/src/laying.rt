//! What may be chosen for the pieces of a puzzle: a placement of each.
ghost use Rattle.std.specs.Prelude.{◌≡◌, ◌<◌, ◌||◌, ◌&&◌, length};
ghost use Rattle.std.specs.List.{list_any};
ghost use Rattle.shared_words.specs.Answers.{ReturnsItems};
ghost use Rattle.poly_place.specs.Tables.{IsCellTable, grid_cells, has_bit};
ghost use Rattle.poly_cells.specs.Sets.{IsIn};
ghost use Rattle.poly_place.specs.Packings.{choices_of_piece, first_cell, has_room_for, turning_group};
ghost use Rattle.poly_place.specs.Compiled.{filled_cells};

use crate::alike::Group;
use crate::choice::Choice;
use crate::items::is_needed;
use crate::numbers::Numbers;
use crate::placement::placements_by;
use crate::table::has_bit;
use poly_cells::{Cell, Shape};
use poly_texts::{PieceName, Puzzle};
use std::alloc::{AllocError, Global};

/// What may be chosen for a piece: its placements, those of a piece that may be left out only where they fill a cell that has to be
/// filled, and those of a copy only where they leave room for the copies that follow.
pub fn choices_of(
    alloc: Global,
    numbers: &Numbers<'_>,
    filled: &[bool],
    name: PieceName,
    piece: &Shape,
) -> Result<Vec<Choice>, AllocError>
    requires { IsCellTable (filled_cells numbers.now) filled.now }
    ensures { ReturnsItems result (choices_of_piece numbers.now (name, piece.now)) }
{
    let puzzle = numbers.puzzle();
    let is_needed = is_needed(puzzle, name);
    let group = turning_group(puzzle, name);
    let following = numbers.following(name);
    let sets = placements_by(alloc, piece, puzzle.region(), group)?;
    let mut choices = Vec::new(alloc);
    for cells in sets {
        if may_be_chosen(numbers, filled, is_needed, following, cells.cells()) {
            choices.push(Choice::new(name, cells))?;
        }
    }
    Ok(choices)
}

/// The symmetries by which a piece may be turned.
fn turning_group(puzzle: &Puzzle, name: PieceName) -> Group
    ensures { result ≡ turning_group puzzle.now name }
{
    if puzzle.is_mirrored(name) {
        Group::Symmetries
    } else {
        Group::Rotations
    }
}

/// Whether a placement is useful, and leaves room for so many copies that follow.
fn may_be_chosen(
    numbers: &Numbers<'_>,
    filled: &[bool],
    is_needed: bool,
    following: usize,
    cells: &[Cell],
) -> bool
    requires table { length filled.now ≡ grid_cells }
    requires some { 0 < length cells.now }
    requires inside { IsIn (first_cell cells.now) numbers.now.region }
    ensures { result ≡ ((is_needed || list_any (has_bit filled.now) cells.now) &&
        has_room_for numbers.now following cells.now) }
{
    is_useful(is_needed, filled, cells) && numbers.has_room_for(following, cells)
}

/// Whether the piece is required, or one of the cells is in the table.
fn is_useful(is_needed: bool, filled: &[bool], cells: &[Cell]) -> bool
    requires { length filled.now ≡ grid_cells }
    ensures { result ≡ (is_needed || list_any (has_bit filled.now) cells.now) }
{
    is_needed || meets(filled, cells)
}

/// Whether one of the cells is in the table.
fn meets(bits: &[bool], cells: &[Cell]) -> bool
    requires { length bits.now ≡ grid_cells }
    ensures { result ≡ list_any (has_bit bits.now) cells.now }
{
    cells
        .iter()
        .any(|cell| has_bit(bits, cell.x(), cell.y(), cell.z()))
}
