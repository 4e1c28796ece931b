//! The options that stay in a search where symmetries of the region repeat the others.
ghost use Rattle.std.specs.Prelude.{◌≡◌, ◌≤◌, ◌+◌, ◌-◌, ◌++◌, IfOk, length};
ghost use Rattle.poly_cells.specs.Sets.{IsIn};
ghost use Rattle.shared_words.specs.Lists.{numbers, RisesFrom};
ghost use Rattle.shared_words.specs.Answers.{Returns, ReturnsItems};
ghost use Rattle.poly_texts.specs.Puzzle.{IsPuzzle};
ghost use Rattle.poly_place.specs.Packings.{every_choice, packing_problem};
ghost use Rattle.poly_distinct.specs.Distinct.{is_at, is_left_in, laying_left, numbers_left};
ghost use Rattle.poly_distinct.specs.Fewer.{AreNumbersTo};
ghost use Rattle.poly_distinct.specs.Moves.{thing_of, kept_at};

use crate::anchor::Anchor;
use crate::moves::Moves;
use poly_place::{Choice, Compiled};
use std::alloc::{AllocError, Global};

/// The numbers of the options that are left in: those that lay nothing at the anchor, those whose cells no symmetry that leaves the anchor
/// where it is brings to lesser ones, and all that leave out copies.
pub fn numbers_left(
    alloc: Global,
    compiled: &Compiled<'_>,
    moves: &Moves<'_>,
    anchor: &Anchor,
) -> Result<Vec<u32>, AllocError>
    requires { moves.now.puzzle ≡ compiled.now }
    ensures value { ReturnsItems result (numbers_left compiled.now (thing_of anchor.now)
        (kept_at compiled.now moves.now.group (thing_of anchor.now))) }
    ensures numbers { IfOk result
        (λ left. AreNumbersTo (length (packing_problem compiled.now).options) left.items) }
    ensures rise { IfOk result (λ left. RisesFrom 1 left.items) }
{
    let problem = compiled.problem();
    problem.is_sound();
    let choices = compiled.choices();
    let laying = laying_left(alloc, moves, anchor, choices)?;
    with_numbers(laying, choices.len() as u32, problem.options())
}

/// The numbers with those above `low` up to `high` after them.
fn with_numbers(list: Vec<u32>, low: u32, high: u32) -> Result<Vec<u32>, AllocError>
    requires order { low ≤ high }
    requires limit { high ≤ 262143 }
    ensures { ReturnsItems result (list.items ++ numbers (high - low) (low + 1)) }
{
    let mut list = list;
    for k in low..high {
        list.push(k + 1)?;
    }
    Ok(list)
}

/// The numbers of the choices that are left in, from 1 on.
fn laying_left(
    alloc: Global,
    moves: &Moves<'_>,
    anchor: &Anchor,
    choices: &[Choice],
) -> Result<Vec<u32>, AllocError>
    requires puzzle { IsPuzzle moves.now.puzzle }
    requires all { choices.now ≡ every_choice moves.now.puzzle }
    requires limit { length choices.now ≤ 262143 }
    ensures { ReturnsItems result (laying_left moves.now.puzzle (thing_of anchor.now)
        (kept_at moves.now.puzzle moves.now.group (thing_of anchor.now)) choices.now) }
{
    let mut numbers = Vec::new(alloc);
    for k in 0..choices.len() {
        if is_left_in(alloc, moves, anchor, &choices[k])? {
            numbers.push(k as u32 + 1)?;
        }
    }
    Ok(numbers)
}

/// Whether the choice lays nothing at the anchor, or no symmetry that leaves the anchor where it is brings its cells to lesser ones.
fn is_left_in(
    alloc: Global,
    moves: &Moves<'_>,
    anchor: &Anchor,
    choice: &Choice,
) -> Result<bool, AllocError>
    requires puzzle { IsPuzzle moves.now.puzzle }
    requires member { IsIn choice.now (every_choice moves.now.puzzle) }
    ensures { Returns result (is_left_in moves.now.puzzle (thing_of anchor.now)
        (kept_at moves.now.puzzle moves.now.group (thing_of anchor.now)) choice.now) }
{
    if !is_at(anchor, choice) {
        return Ok(true);
    }
    moves.is_first(alloc, anchor, choice.cells())
}

/// Whether the choice lays the piece, or fills the cell.
pub fn is_at(anchor: &Anchor, choice: &Choice) -> bool
    ensures { result ≡ is_at (thing_of anchor.now) choice.now }
{
    match anchor {
        Anchor::Piece(name) => choice.name() == *name,
        Anchor::Cell(cell) => choice.cells().contains(cell),
    }
}
