//! The ways to leave out spare copies.
ghost use Rattle.std.specs.Prelude.{◌≡◌, ◌∷◌, [], cond};
ghost use Rattle.std.specs.List.{list_all};
ghost use Rattle.poly_texts.specs.Kinds.{given_if};
ghost use Rattle.poly_texts.specs.Puzzle.{is_spare};
ghost use Rattle.poly_texts.specs.Usages.{are_copies};
ghost use Rattle.poly_place.specs.Answers.{AddsLists, ReturnsLists};
ghost use Rattle.poly_place.specs.Compiled.{left_from, left_out};

use poly_texts::{PieceKind, PieceName, Puzzle};
use std::alloc::{AllocError, Global};

/// The copies that options leave out, of each option that leaves out some.
pub fn left_out(alloc: Global, puzzle: &Puzzle) -> Result<Vec<Vec<PieceName>>, AllocError>
    ensures { ReturnsLists result (left_out puzzle.now) }
{
    let kinds = puzzle.kinds();
    let mut lefts = Vec::new(alloc);
    for kind in kinds {
        add_of_kind(alloc, &mut lefts, puzzle, kind)?;
    }
    Ok(lefts)
}

/// Adds what options leave out of a kind.
fn add_of_kind(
    alloc: Global,
    lefts: &mut Vec<Vec<PieceName>>,
    puzzle: &Puzzle,
    kind: &PieceKind,
) -> Result<(), AllocError>
    ensures { AddsLists result lefts.old lefts.new
        (given_if (are_copies kind.now.usage) (left_from (is_spare puzzle.now) kind.now.symbols)) }
{
    if kind.usage().are_copies() {
        add_left(alloc, lefts, puzzle, kind.symbols())?;
    }
    Ok(())
}

/// Adds the ends of a group that are spare copies alone.
fn add_left(
    alloc: Global,
    lefts: &mut Vec<Vec<PieceName>>,
    puzzle: &Puzzle,
    group: &[PieceName],
) -> Result<(), AllocError>
    ensures { AddsLists result lefts.old lefts.new (left_from (is_spare puzzle.now) group.now) }
{
    for k in 0..group.len() {
        let rest = group.split_at(k).1;
        push_if(alloc, lefts, are_spare(puzzle, rest), rest)?;
    }
    Ok(())
}

/// Whether each of the names is that of a spare copy.
fn are_spare(puzzle: &Puzzle, names: &[PieceName]) -> bool
    ensures { result ≡ list_all (is_spare puzzle.now) names.now }
{
    names.iter().all(|name| puzzle.is_spare(*name))
}

/// Adds these names, if they are to be there.
fn push_if(
    alloc: Global,
    lefts: &mut Vec<Vec<PieceName>>,
    there: bool,
    names: &[PieceName],
) -> Result<(), AllocError>
    ensures { AddsLists result lefts.old lefts.new (cond there (names.now ∷ []) []) }
{
    if there {
        lefts.push(Vec::from_slice(alloc, names)?)?;
    }
    Ok(())
}
