//! The nodes of a tree that a leaf reaches, as numbers of items.
ghost use Rattle.std.specs.Prelude.{◌≡◌, ◌==◌, ◌++◌, ◌+◌, ◌<◌, ◌≤◌, ◌^◌};
ghost use Rattle.std.specs.List.{flat_map};
ghost use Rattle.shared_words.specs.Answers.{Adds, ReturnsItems};
ghost use Rattle.poly_texts.specs.Kinds.{given_if, kind_equal};
ghost use Rattle.poly_texts.specs.Usages.{are_copies};
ghost use Rattle.poly_place.specs.Packings.{levels_for, neighbours};
ghost use Rattle.poly_place.specs.Compiled.{items_from_left, items_from_right, numbers_if};

use poly_texts::{PieceKind, PieceName};
use std::alloc::{AllocError, Global};

/// Each two equal pieces of which the second one follows the first.
pub fn pairs_of(
    alloc: Global,
    kinds: &[PieceKind],
) -> Result<Vec<(PieceName, PieceName)>, AllocError>
    ensures { ReturnsItems result (flat_map neighbours (flat_map kind_equal kinds.now)) }
{
    let mut pairs = Vec::new(alloc);
    for kind in kinds {
        add_pairs(&mut pairs, kind)?;
    }
    Ok(pairs)
}

/// Adds those of a kind.
fn add_pairs(pairs: &mut Vec<(PieceName, PieceName)>, kind: &PieceKind) -> Result<(), AllocError>
    ensures { Adds result pairs.old pairs.new
        (given_if (are_copies kind.now.usage) (neighbours kind.now.symbols)) }
{
    if kind.usage().are_copies() {
        add_neighbours(pairs, kind.symbols())?;
    }
    Ok(())
}

/// Adds each name with the one after it.
fn add_neighbours(
    pairs: &mut Vec<(PieceName, PieceName)>,
    names: &[PieceName],
) -> Result<(), AllocError>
    ensures { Adds result pairs.old pairs.new (neighbours names.now) }
{
    for k in 1..names.len() {
        pairs.push((names[k - 1], names[k]))?;
    }
    Ok(())
}

/// The levels of a tree with a leaf for each of so many cells, 12 at most, and how many leaves it has.
pub fn tree_for(cells: usize) -> (u32, u32)
    ensures levels { result.0 ≡ levels_for cells }
    ensures leaves { result.1 ≡ 2 ^ levels_for cells }
{
    let mut leaves = 1u32;
    for level in 0..12u32 {
        if cells <= leaves as usize {
            return (level, leaves);
        }
        leaves *= 2;
    }
    (12, leaves)
}

/// Adds the items of the nodes of a pair's tree that a leaf reaches: from the right where the piece is the first of the pair, and from the
/// left where it is the second. The item of node h is numbered h more than `before`.
pub fn push_pair(
    items: &mut Vec<u32>,
    sides: (bool, bool),
    before: u32,
    levels: u32,
    leaf: u32,
) -> Result<(), AllocError>
    requires { before + leaf < 2 ^ 32 }
    ensures { Adds result items.old items.new
        (numbers_if (sides.0) (items_from_right before levels leaf)
        ++ numbers_if (sides.1) (items_from_left before levels leaf)) }
{
    push_first(items, sides.0, before, levels, leaf)?;
    push_second(items, sides.1, before, levels, leaf)?;
    Ok(())
}

/// Whether the name is that of the first of the pair, and whether it is that of the second.
pub fn sides_of(name: PieceName, pair: (PieceName, PieceName)) -> (bool, bool)
    ensures first { result.0 ≡ (name == pair.0) }
    ensures second { result.1 ≡ (name == pair.1) }
{
    (name == pair.0, name == pair.1)
}

/// Adds the items of the nodes that are reached from the right, if they are to be there.
fn push_first(
    items: &mut Vec<u32>,
    there: bool,
    before: u32,
    levels: u32,
    leaf: u32,
) -> Result<(), AllocError>
    requires { before + leaf < 2 ^ 32 }
    ensures { Adds result items.old items.new
        (numbers_if there (items_from_right before levels leaf)) }
{
    if there {
        push_from_right(items, before, levels, leaf)?;
    }
    Ok(())
}

/// Adds the items of the nodes that are reached from the left, if they are to be there.
fn push_second(
    items: &mut Vec<u32>,
    there: bool,
    before: u32,
    levels: u32,
    leaf: u32,
) -> Result<(), AllocError>
    requires { before + leaf < 2 ^ 32 }
    ensures { Adds result items.old items.new
        (numbers_if there (items_from_left before levels leaf)) }
{
    if there {
        push_from_left(items, before, levels, leaf)?;
    }
    Ok(())
}

/// Adds the items of the nodes of so many levels above a leaf that are reached from the right. The item of node h is numbered
/// h more than `before`.
fn push_from_right(
    items: &mut Vec<u32>,
    before: u32,
    levels: u32,
    leaf: u32,
) -> Result<(), AllocError>
    requires { before + leaf < 2 ^ 32 }
    ensures { Adds result items.old items.new (items_from_right before levels leaf) }
{
    let mut node = leaf;
    for _level in 0..levels {
        if node % 2 == 1 {
            items.push(before + node / 2)?;
        }
        node /= 2;
    }
    Ok(())
}

/// Adds those that are reached from the left.
fn push_from_left(
    items: &mut Vec<u32>,
    before: u32,
    levels: u32,
    leaf: u32,
) -> Result<(), AllocError>
    requires { before + leaf < 2 ^ 32 }
    ensures { Adds result items.old items.new (items_from_left before levels leaf) }
{
    let mut node = leaf;
    for _level in 0..levels {
        if node % 2 == 0 {
            items.push(before + node / 2)?;
        }
        node /= 2;
    }
    Ok(())
}
