//! Which options stay at an anchor: of a row of three cells by their numbers, and of larger puzzles how many, as another program counts them.
use poly_cells::Cell;
use poly_distinct::{Anchor, Moves, numbers_left};
use poly_place::{Compiled, Group, compile};
use poly_texts::{Puzzle, read_puzzle};
use std::alloc::Global;
use std::test::Fail;

/// A piece by its name, or a cell by its coordinates.
enum At {
    Piece(u8),
    Cell(u8, u8, u8),
}

/// A puzzle, an anchor, whether reflections may be used there, and how many options stay.
struct Row(&'static [u8], At, bool, usize);

static ROWS: [Row; 20] = [
    Row(
        b"piece A 000 100\npiece B 000\nbox 3 1 1\n",
        At::Piece(b'A'),
        false,
        4,
    ),
    Row(
        b"piece A 000 100\npiece B 000 100\nbox 2 2 1\n",
        At::Piece(b'A'),
        false,
        5,
    ),
    Row(
        b"piece A 000 100\npiece B 000 100\nbox 2 2 1\n",
        At::Piece(b'A'),
        true,
        5,
    ),
    Row(
        b"copies ABC 000 100\nbox 3 2 1\n",
        At::Cell(1, 0, 0),
        false,
        12,
    ),
    Row(
        b"copies ABC 000 100\nbox 3 2 1\n",
        At::Cell(1, 0, 0),
        true,
        12,
    ),
    Row(
        b"any piece D 000 100\npiece M 000\nbox 3 3 1\n",
        At::Piece(b'M'),
        false,
        15,
    ),
    Row(
        b"any piece T 000 100 010\nany piece I 000 100 200\nbox 3 3 1\n",
        At::Cell(1, 1, 0),
        false,
        11,
    ),
    Row(
        b"piece A 000 100 110 111\npiece B 000 100 110 111\nbox 2 2 2\n",
        At::Piece(b'A'),
        false,
        13,
    ),
    Row(
        b"piece A 000 100 110 111\npiece B 000 100 101 111\npiece C 000 100\npiece D 000 100\nbox 2 3 2\n",
        At::Piece(b'A'),
        false,
        67,
    ),
    Row(
        b"piece A 000 100 110 111\npiece C 000 100\npiece D 000 100\nbox 2 2 2\n",
        At::Piece(b'A'),
        false,
        25,
    ),
    Row(
        b"mirror piece A 000 100 110 111\npiece B 000 100 110 111\nbox 2 2 2\n",
        At::Piece(b'B'),
        false,
        25,
    ),
    Row(
        b"maybe piece A 000 100 110 111\nany piece D 000 100\nbox 2 2 2\n",
        At::Cell(0, 0, 0),
        false,
        18,
    ),
    Row(
        b"copies AB+C 000 100 110\npiece E 000 100 200\ncopies +FG 000 100\nbox 3 2 2\n",
        At::Piece(b'E'),
        true,
        170,
    ),
    Row(
        b"piece A 000 100 010\npiece B 000 100\nmaybe piece C 000 100\nbox 3 3 1\nmaybe cells 000 200 020 220\n",
        At::Piece(b'B'),
        true,
        30,
    ),
    // A region away from the origin.
    Row(
        b"piece A 000 100 010\npiece B 000 100 010\npiece C 000 100 200\ncells 345 355 365 445 455 465 545 555 565\n",
        At::Piece(b'A'),
        false,
        25,
    ),
    Row(
        b"piece A 000 100 200\npiece B 000\nbox 2 2 1\n",
        At::Piece(b'B'),
        true,
        1,
    ),
    Row(
        b"piece A 000 100 010 001\npiece B 000 100 010 001\nbox 2 2 2\n",
        At::Piece(b'A'),
        true,
        9,
    ),
    Row(
        b"copies AB 000 100 010\npiece I 000 100 200\nbox 3 3 1\n",
        At::Cell(1, 1, 0),
        false,
        16,
    ),
    // Soma, at the flat piece Z: 3 of its 72 placements stay by rotations, and 2 by all symmetries.
    Row(SOMA, At::Piece(b'Z'), false, 619),
    Row(SOMA, At::Piece(b'Z'), true, 618),
];

const SOMA: &[u8] =
    b"piece V 000 100 010\npiece L 000 100 200 010\npiece T 000 100 200 110\npiece Z 000 100 110 210\n\
        piece A 000 100 010 101\npiece B 000 100 010 011\npiece P 000 100 010 001\nbox 3 3 3\n";

/// The anchor with this name.
fn piece_named(puzzle: &Puzzle, symbol: u8) -> Result<Anchor, Fail> {
    let pieces = puzzle.pieces();
    for k in 0..pieces.len() {
        if let Some((name, _piece)) = pieces.get_index(k) {
            if name.symbol() == symbol {
                return Ok(Anchor::Piece(*name));
            }
        }
    }
    Err("no piece has the name")?
}

/// The anchor of a row.
fn anchor_at(puzzle: &Puzzle, at: &At) -> Result<Anchor, Fail> {
    match at {
        At::Piece(symbol) => piece_named(puzzle, *symbol),
        At::Cell(x, y, z) => Ok(Anchor::Cell(Cell::new(*x, *y, *z)?)),
    }
}

/// The options that stay.
fn left(
    alloc: Global,
    compiled: &Compiled<'_>,
    anchor: &Anchor,
    reflects: bool,
) -> Result<Vec<u32>, Fail> {
    let group = if reflects {
        Group::Symmetries
    } else {
        Group::Rotations
    };
    let moves = Moves::of(alloc, compiled, group)?;
    Ok(numbers_left(alloc, compiled, &moves, anchor)?)
}

/// Those of a puzzle.
fn left_of(alloc: Global, puzzle: &Puzzle, at: &At, reflects: bool) -> Result<Vec<u32>, Fail> {
    let anchor = anchor_at(puzzle, at)?;
    let compiled = compile(alloc, puzzle)?;
    left(alloc, &compiled, &anchor, reflects)
}

/// Whether so many stay as the row says.
fn is_right(alloc: Global, row: &Row) -> Result<bool, Fail> {
    let puzzle = read_puzzle(alloc, row.0)?;
    Ok(left_of(alloc, &puzzle, &row.1, row.2)?.len() == row.3)
}

#[test]
fn so_many_options_stay(rt: HostRuntime) -> Result<(), Fail> {
    for row in &ROWS {
        assert!(rt; is_right(rt.alloc(), row)?);
    }
    Ok(())
}

/// The numbers of the options that stay of a row of three cells.
fn left_of_three(alloc: Global) -> Result<Vec<u32>, Fail> {
    let puzzle = read_puzzle(alloc, b"piece A 000 100\npiece B 000\nbox 3 1 1\n")?;
    left_of(alloc, &puzzle, &At::Piece(b'A'), false)
}

#[test]
fn half_a_turn_leaves_out_the_second_place(rt: HostRuntime) -> Result<(), Fail> {
    assert!(rt; left_of_three(rt.alloc())?.as_slice() == [1, 3, 4, 5].as_slice());
    Ok(())
}
