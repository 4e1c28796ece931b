//! What exactly one placement of each packing is at.
ghost use Rattle.std.specs.Prelude.{◌≡◌, ◌≤◌, ◌∷◌, [], IfOk};
ghost use Rattle.std.specs.String.{string_bytes};
ghost use Rattle.poly_cells.specs.CellWords.{cell_word, symbol};
ghost use Rattle.poly_place.specs.Packings.{thing_name};
ghost use Rattle.poly_distinct.specs.Moves.{thing_of};

use poly_cells;
use poly_texts::PieceName;
use std::alloc::{AllocError, Global};

/// What exactly one placement of each packing is at: a piece that has to be used and has no equal one, or a cell that has to be filled.
#[derive(Clone, Copy, Debug, PartialEq, Eq)]
pub enum Anchor {
    /// A piece.
    Piece(PieceName),
    /// A cell.
    Cell(poly_cells::Cell),
}

impl Anchor {
    /// Its name: the piece's, or the symbols of the cell's coordinates.
    pub fn name(&self, alloc: Global) -> Result<String, AllocError>
        ensures { IfOk result (λ text. string_bytes text ≡ thing_name (thing_of self.now)) }
    {
        match self {
            Anchor::Piece(name) => piece_name(alloc, *name),
            Anchor::Cell(cell) => cell_name(alloc, *cell),
        }
    }
}

/// The name of a piece.
fn piece_name(alloc: Global, name: PieceName) -> Result<String, AllocError>
    ensures { IfOk result (λ text. string_bytes text ≡ name ∷ []) }
{
    let mut text = String::new(alloc);
    text.push(name.symbol() as char)?;
    Ok(text)
}

/// The name of a cell.
fn cell_name(alloc: Global, cell: poly_cells::Cell) -> Result<String, AllocError>
    ensures { IfOk result (λ text. string_bytes text ≡ cell_word cell) }
{
    let mut text = String::new(alloc);
    text.push(symbol(cell.x()))?;
    text.push(symbol(cell.y()))?;
    text.push(symbol(cell.z()))?;
    Ok(text)
}

/// One of `0-9a-v`, for 0 to 31.
fn symbol(coordinate: u8) -> char
    requires { coordinate ≤ 31 }
    ensures { result ≡ symbol coordinate }
{
    char::from_digit(u32::from(coordinate), 32).unwrap()
}
