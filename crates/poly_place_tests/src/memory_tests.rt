//! Problems and placements to whose making memory is refused: the same call, made again over the same puzzle or shapes, makes what it makes
//! where nothing is refused. `dev/do check_memory` runs these tests with one growth refused, each growth in turn.
use crate::fixtures::{Cells, box_of, shape_at};
use poly_cells::Shape;
use poly_place::{Compiled, PlaceFault, compile, placements};
use poly_texts::{Puzzle, read_puzzle};
use std::alloc::Global;
use std::test::Fail;

/// The problem of a puzzle, on a second try where the first is refused for want of memory.
fn compiled_again<'p>(alloc: Global, puzzle: &'p Puzzle) -> Result<Compiled<'p>, PlaceFault> {
    match compile(alloc, puzzle) {
        Err(PlaceFault::OutOfMemory) => compile(alloc, puzzle),
        compiled => compiled,
    }
}

/// Whether it is the problem that was made before.
fn is_compiled_again(alloc: Global, puzzle: &Puzzle, wanted: &Compiled<'_>) -> bool {
    match compiled_again(alloc, puzzle) {
        Ok(compiled) => compiled.problem().same(wanted.problem()),
        Err(_) => false,
    }
}

/// The same, once it was made.
fn is_compiled_twice(alloc: Global, puzzle: &Puzzle) -> Result<bool, Fail> {
    let wanted = compile(alloc, puzzle)?;
    let _last = vec![in alloc; 0u8; 1].map_err(|_| "refused before the call")?;
    Ok(is_compiled_again(alloc, puzzle, &wanted))
}

/// Two dominoes, of which one may be left out, in a square of which a cell may stay empty.
const DOMINOES: &[u8] =
    b"piece A 000 100\nmaybe piece B 000 100\ncells 000 100 010\nmaybe cells 110\n";

/// The same of the dominoes.
fn are_compiled_twice(alloc: Global) -> Result<bool, Fail> {
    let puzzle = read_puzzle(alloc, DOMINOES)?;
    is_compiled_twice(alloc, &puzzle)
}

#[test]
fn a_refused_problem_is_made_again(rt: HostRuntime) -> Result<(), Fail> {
    assert!(rt; are_compiled_twice(rt.alloc())?);
    Ok(())
}

/// Whether these are the same shapes.
fn are_shapes(shapes: &[Shape], others: &[Shape]) -> bool {
    shapes.len() == others.len()
        && shapes
            .iter()
            .zip(others)
            .all(|(shape, other)| shape.cells() == other.cells())
}

/// Whether the placements are these, on a second try where the first is refused.
fn are_placed_again(alloc: Global, piece: &Shape, region: &Shape, wanted: &[Shape]) -> bool {
    if let Ok(found) = placements(alloc, piece, region) {
        return are_shapes(&found, wanted);
    }
    match placements(alloc, piece, region) {
        Ok(found) => are_shapes(&found, wanted),
        Err(_) => false,
    }
}

/// The piece of three cells.
const PIECE: Cells = &[(0, 0, 0), (1, 0, 0), (0, 1, 0)];

/// Whether the placements of the piece in a region are those that were found before.
fn are_placed_twice(alloc: Global, region: &Shape) -> Result<bool, Fail> {
    let piece = shape_at(alloc, PIECE)?;
    let wanted = placements(alloc, &piece, region)?;
    let _last = vec![in alloc; 0u8; 1].map_err(|_| "refused before the call")?;
    Ok(wanted.len() == 4 && are_placed_again(alloc, &piece, region, &wanted))
}

/// The same in a square.
fn are_placed_in_square_twice(alloc: Global) -> Result<bool, Fail> {
    let square = box_of(alloc, 2, 2, 1)?;
    are_placed_twice(alloc, &square)
}

#[test]
fn refused_placements_are_found_again(rt: HostRuntime) -> Result<(), Fail> {
    assert!(rt; are_placed_in_square_twice(rt.alloc())?);
    Ok(())
}
