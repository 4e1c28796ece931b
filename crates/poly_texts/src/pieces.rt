//! The symbols of lines, and the pieces that kinds have by name.
ghost use Rattle.std.specs.Prelude.{◌≡◌, ◌++◌, ◌∷◌, [], true, false, flat_map, IfOk, OnOk};
ghost use Rattle.text_lines.specs.Answers.{Gives};
ghost use Rattle.poly_texts.specs.Kinds.{kind_maybe, kind_pieces, named_shapes};
ghost use Rattle.poly_texts.specs.Puzzle.{are_new, has_name, has_piece, symbols_in};
ghost use Rattle.poly_texts.specs.Reading as reading;
ghost use Rattle.poly_texts.specs.Reading.{some_repeated};

use crate::fault::{Fault, LineRefusal};
use crate::kind::PieceKind;
use crate::name::PieceName;
use crate::usage::Usage;
use indexmap::IndexMap;
use poly_cells::Shape;
use std::alloc::{AllocError, AllocFailed, Global};

/// Whether the name is one of these.
fn is_among(names: &[PieceName], name: PieceName) -> bool
    ensures { result ≡ has_name names.now name }
{
    names.contains(&name)
}

/// Whether one of these kinds has the symbol.
fn is_taken(kinds: &[PieceKind], name: PieceName) -> bool
    ensures { result ≡ has_name (symbols_in kinds.now) name }
{
    for k in 0..kinds.len() {
        if is_among(kinds[k].symbols(), name) {
            return true;
        }
    }
    false
}

/// Whether one of these names is taken, or comes twice.
fn is_repeated(kinds: &[PieceKind], names: &[PieceName]) -> bool
    ensures { result ≡ some_repeated (has_name (symbols_in kinds.now)) names.now }
{
    for k in 0..names.len() {
        let name = names[k];
        if is_taken(kinds, name) {
            return true;
        }
        if is_among(&names[k + 1..], name) {
            return true;
        }
    }
    false
}

/// The new symbols of a line.
#[tactic(auto, unfolding(crate::specs::Reading::new_names))]
pub fn new_names(
    alloc: Global,
    kinds: &[PieceKind],
    usage: Usage,
    word: &[u8],
) -> Result<Vec<PieceName>, LineRefusal>
    ensures { Gives (λ names. names.items) result
        (reading.new_names (has_name (symbols_in kinds.now)) usage word.now) }
{
    let Some(names) = PieceName::all_of(alloc, usage, word)? else {
        return Err(LineRefusal::Fault(Fault::BadLine));
    };
    if is_repeated(kinds, names.as_slice()) {
        return Err(LineRefusal::Fault(Fault::RepeatedPiece));
    }
    Ok(names)
}

/// Adds a new piece.
fn add_piece(
    pieces: &mut IndexMap<PieceName, Shape>,
    name: PieceName,
    shape: Shape,
) -> Result<(), AllocFailed<(PieceName, Shape)>>
    requires { has_piece pieces.old.entries name ≡ false }
    ensures { OnOk result (pieces.new.entries ≡ pieces.old.entries ++ (name, shape) ∷ []) }
{
    pieces.insert(name, shape)?;
    Ok(())
}

/// Adds new pieces of one shape.
fn add_pieces(
    pieces: &mut IndexMap<PieceName, Shape>,
    names: &[PieceName],
    shape: &Shape,
) -> Result<(), AllocError>
    requires { some_repeated (has_piece pieces.old.entries) names.now ≡ false }
    ensures { OnOk result
        (pieces.new.entries ≡ pieces.old.entries ++ named_shapes names.now shape.now) }
{
    for name in names {
        add_piece(pieces, *name, shape.copy()?)?;
    }
    Ok(())
}

/// The pieces of these kinds by name, in their order. No symbol comes twice.
pub fn pieces_by_name(
    alloc: Global,
    kinds: &[PieceKind],
) -> Result<IndexMap<PieceName, Shape>, AllocError>
    requires { are_new (symbols_in kinds.now) ≡ true }
    ensures { IfOk result (λ pieces. pieces.entries ≡ flat_map kind_pieces kinds.now) }
{
    let mut pieces = IndexMap::new(alloc);
    for kind in kinds {
        add_pieces(&mut pieces, kind.names(), kind.shape())?;
    }
    Ok(pieces)
}

/// The names of the pieces that may be left out, in the order of the text.
pub fn maybe_pieces(alloc: Global, kinds: &[PieceKind]) -> Result<Vec<PieceName>, AllocError>
    ensures { IfOk result (λ names. names.items ≡ flat_map kind_maybe kinds.now) }
{
    let mut names = Vec::new(alloc);
    for kind in kinds {
        if kind.usage().is_maybe() {
            names.extend_from_slice(kind.names())?;
        }
    }
    Ok(names)
}
