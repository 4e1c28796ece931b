//! The placements of a piece in a region.
ghost use Rattle.std.specs.Prelude.{◌≡◌, ◌<◌, IfOk, length, slice_index};
ghost use Rattle.shared_words.specs.Answers.{ReturnsItems};
ghost use Rattle.poly_place.specs.Lists.{lists_of};
ghost use Rattle.poly_place.specs.Answers.{ReturnsLists, AddsLists};
ghost use Rattle.poly_cells.specs.Symmetries.{rotations};
ghost use Rattle.poly_place.specs.Placements.{ArePlacements, at_cell, at_cells, forms_at, moved_inside, orientations, placements, turns_by};
ghost use Rattle.poly_place.specs.Tables.{grid_cells, has_bit};

use crate::alike::Group;
use crate::set::{all_inside, all_moved, is_below, moved_back, put_sets_in_order, shapes_of};
use crate::table::table_of;
use poly_cells::{Cell, Rotation, Shape, Symmetry};
use std::alloc::{AllocError, Global};

/// The placements of the piece in the region: all sets of region cells that are the piece turned by a rotation and translated, each
/// once, in the order of their lists of cells.
pub fn placements(alloc: Global, piece: &Shape, region: &Shape) -> Result<Vec<Shape>, AllocError>
    ensures value { ReturnsItems result (placements rotations piece.now region.now) }
    ensures exactly { IfOk result (λ s. ArePlacements rotations piece.now region.now s.items) }
{
    placements_by(alloc, piece, region, Group::Rotations)
}

/// The placements by rotations, or by all symmetries.
pub fn placements_by(
    alloc: Global,
    piece: &Shape,
    region: &Shape,
    group: Group,
) -> Result<Vec<Shape>, AllocError>
    ensures value { ReturnsItems result (placements (turns_by group) piece.now region.now) }
    ensures exactly { IfOk result
        (λ sets. ArePlacements (turns_by group) piece.now region.now sets.items) }
{
    piece.is_sound();
    let cells = region.cells();
    let turns = orientations(alloc, piece, group)?;
    let bits = table_of(alloc, cells)?;
    let mut sets = all_sets(alloc, bits.as_slice(), cells, turns.as_slice())?;
    put_sets_in_order(&mut sets);
    shapes_of(alloc, sets)
}

/// The turned forms of the piece, in order, each once.
fn orientations(alloc: Global, piece: &Shape, group: Group) -> Result<Vec<Vec<Cell>>, AllocError>
    ensures { ReturnsLists result (orientations (turns_by group) piece.now) }
{
    let mut turns = Vec::new(alloc);
    for r in 0..turn_count(group) {
        let turned = piece.turned(turn(group, r))?;
        turns.push(Vec::from_slice(alloc, turned.cells())?)?;
    }
    put_sets_in_order(&mut turns);
    Ok(turns)
}

/// How many symmetries the group has.
fn turn_count(group: Group) -> u8
    ensures { result ≡ length (turns_by group) }
{
    match group {
        Group::Rotations => 24,
        Group::Symmetries => 48,
    }
}

/// The symmetry at place `r` of the group.
fn turn(group: Group, r: u8) -> Symmetry
    requires { r < length (turns_by group) }
    ensures { result ≡ slice_index (turns_by group) r }
{
    match group {
        Group::Rotations => Rotation::new(r).symmetry(),
        Group::Symmetries => Symmetry::new(r),
    }
}

/// Each of the turned forms with its first cell at each of the cells, where it is then inside.
fn all_sets(
    alloc: Global,
    bits: &[bool],
    cells: &[Cell],
    turns: &[Vec<Cell>],
) -> Result<Vec<Vec<Cell>>, AllocError>
    requires { length bits.now ≡ grid_cells }
    ensures { ReturnsLists result (forms_at (has_bit bits.now) cells.now (lists_of turns.now)) }
{
    let mut sets = Vec::new(alloc);
    for turned in turns {
        add_at_cells(alloc, &mut sets, bits, cells, turned.as_slice())?;
    }
    Ok(sets)
}

/// Adds the piece with its first cell at each of the cells, where it is then inside.
fn add_at_cells(
    alloc: Global,
    sets: &mut Vec<Vec<Cell>>,
    bits: &[bool],
    cells: &[Cell],
    piece: &[Cell],
) -> Result<(), AllocError>
    requires { length bits.now ≡ grid_cells }
    ensures { AddsLists result sets.old sets.new (at_cells (has_bit bits.now) cells.now piece.now) }
{
    for cell in cells {
        add_at_cell(alloc, sets, bits, piece, *cell)?;
    }
    Ok(())
}

/// Adds the piece with its first cell at this cell, where it is then inside.
fn add_at_cell(
    alloc: Global,
    sets: &mut Vec<Vec<Cell>>,
    bits: &[bool],
    piece: &[Cell],
    cell: Cell,
) -> Result<(), AllocError>
    requires { length bits.now ≡ grid_cells }
    ensures { AddsLists result sets.old sets.new (at_cell (has_bit bits.now) piece.now cell) }
{
    let Some(first) = piece.first() else {
        return Ok(());
    };
    if is_below(*first, cell) {
        add_if_inside(alloc, sets, bits, piece, moved_back(*first, cell))?;
    }
    Ok(())
}

/// Adds the cells moved by the coordinates of `by`, where each is then inside.
fn add_if_inside(
    alloc: Global,
    sets: &mut Vec<Vec<Cell>>,
    bits: &[bool],
    cells: &[Cell],
    by: Cell,
) -> Result<(), AllocError>
    requires { length bits.now ≡ grid_cells }
    ensures { AddsLists result sets.old sets.new (moved_inside (has_bit bits.now) by cells.now) }
{
    if all_inside(bits, cells, by) {
        sets.push(all_moved(alloc, cells, by)?)?;
    }
    Ok(())
}
