//! The exact cover problem that stands for a puzzle.
ghost use Rattle.std.specs.Prelude.{◌≡◌, ◌++◌, true, false, map, length};
ghost use Rattle.std.specs.Prelude.{IsOk, IsErrOf};
ghost use Rattle.poly_texts.specs.Puzzle.{IsPuzzle, maybe_names};
ghost use Rattle.shared_words.specs.Answers.{Returns, ReturnsItems};
ghost use Rattle.poly_place.specs.Lists.{lists_of};
ghost use Rattle.poly_place.specs.Answers.{ReturnsLists, ReturnsTexts};
ghost use Rattle.poly_place.specs.Packings.{every_choice, packing_problem, needed_things, option_of, thing_name, things, problem_fits};
ghost use Rattle.poly_place.specs.Compiled.{filled_cells, left_items, left_out, needed_names};

use crate::choice::Choice;
use crate::fault::PlaceFault;
use crate::items::{add_cell_names, add_piece_names, needed_cells, needed_pieces};
use crate::leavings::left_out;
use crate::numbers::Numbers;
use crate::room::choices_within;
use crate::table::table_of;
use cover_problem::{Problem, ProblemFault};
use poly_cells::{Cell, Shape};
use poly_texts::{PieceName, Puzzle};
use std::alloc::{AllocError, Global};
use std::marker::Model;

/// A puzzle with the problem that stands for it: the exact covers of the problem are the packings of the puzzle.
#[derive(Drop)]
pub struct Compiled<'p> {
    puzzle: &'p Puzzle,
    choices: Vec<Choice>,
    problem: Problem,
}

impl<'p> Model for Compiled<'p> {
    ghost use Rattle.std.specs.Prelude.{◌≡◌};
    ghost use Rattle.poly_texts.specs.Puzzle.{PuzzleValue};
    ghost use Rattle.poly_place.specs.Packings.{every_choice, packing_problem};

    ghost Value = { PuzzleValue };

    ghost view = { λ a. a.puzzle.now };

    ghost invariant = { λ a. (a.choices.items ≡ every_choice a.puzzle.now) × (a.problem ≡ packing_problem a.puzzle.now) };
}

impl<'p> Compiled<'p> {
    /// The problem: required pieces, required cells, optional pieces and optional cells as items, placements as options, and then the ways
    /// to leave out spare copies.
    pub fn problem(&self) -> &Problem
        ensures { result.now ≡ packing_problem self.now }
    {
        &self.problem
    }

    /// The region.
    pub fn region(&self) -> &Shape
        ensures { result.now ≡ self.now.region }
    {
        self.puzzle.region()
    }

    /// The pieces that may be left out.
    pub fn maybe_pieces(&self) -> &[PieceName]
        ensures { result.now ≡ (maybe_names self.now) }
    {
        self.puzzle.maybe_pieces()
    }

    /// The cells that may stay empty.
    pub fn maybe_cells(&self) -> &[Cell]
        ensures { result.now ≡ self.now.maybe_cells }
    {
        self.puzzle.maybe_cells()
    }

    /// The puzzle.
    pub fn puzzle(&self) -> &'p Puzzle
        ensures { result.now ≡ self.now }
    {
        self.puzzle
    }

    /// What each option that lays a piece stands for, in their order.
    pub fn choices(&self) -> &[Choice]
        ensures value { result.now ≡ every_choice self.now }
        ensures puzzle { IsPuzzle self.now }
    {
        self.puzzle.is_sound();
        self.choices.as_slice()
    }
}

/// The problem that stands for the puzzle; refused exactly where it would be past the limits of a problem.
pub fn compile<'p>(alloc: Global, puzzle: &'p Puzzle) -> Result<Compiled<'p>, PlaceFault>
    ensures value { Returns result puzzle.now }
    ensures accepted { IsOk result → problem_fits puzzle.now ≡ true }
    ensures refused { IsErrOf result PlaceFault.TooManyOptions → problem_fits puzzle.now ≡ false }
{
    puzzle.is_sound();
    let pieces = needed_pieces(alloc, puzzle)?;
    let cells = needed_cells(alloc, puzzle)?;
    let filled = table_of(alloc, cells.as_slice())?;
    let numbers = Numbers::of(alloc, puzzle, pieces.as_slice(), cells.as_slice())?;
    let Some(choices) = choices_within(alloc, puzzle, filled.as_slice(), &numbers)? else {
        return Err(PlaceFault::TooManyOptions);
    };
    let problem = problem_of(
        alloc,
        pieces.as_slice(),
        cells.as_slice(),
        &numbers,
        choices.as_slice(),
    )?;
    Ok(Compiled {
        puzzle,
        choices,
        problem,
    })
}

/// The problem of a puzzle with these required pieces and cells, and these choices.
fn problem_of(
    alloc: Global,
    pieces: &[PieceName],
    cells: &[Cell],
    numbers: &Numbers<'_>,
    list: &[Choice],
) -> Result<Problem, AllocError>
    requires puzzle { IsPuzzle numbers.now }
    requires pieces { pieces.now ≡ needed_names numbers.now }
    requires cells { cells.now ≡ filled_cells numbers.now }
    requires list { list.now ≡ every_choice numbers.now }
    requires small { problem_fits numbers.now ≡ true }
    ensures { Returns result (packing_problem numbers.now) }
{
    let primary = (pieces.len() + cells.len()) as u32;
    let names = item_names(alloc, pieces, cells, numbers)?;
    let mut options = all_options(alloc, pieces, primary, numbers, list)?;
    let lefts = left_out(alloc, numbers.puzzle())?;
    let mut leavings = leaving_options(alloc, pieces, primary, numbers, lefts.as_slice())?;
    options.append(&mut leavings)?;
    match Problem::new(alloc, names, primary, options) {
        Ok(problem) => Ok(problem),
        Err(refused) => match refused.fault {
            ProblemFault::Fault(_) => unreachable!(),
            ProblemFault::OutOfMemory => Err(AllocError),
        },
    }
}

/// The names of the items, in order.
fn item_names(
    alloc: Global,
    pieces: &[PieceName],
    cells: &[Cell],
    numbers: &Numbers<'_>,
) -> Result<Vec<String>, AllocError>
    requires pieces { pieces.now ≡ needed_names numbers.now }
    requires cells { cells.now ≡ filled_cells numbers.now }
    ensures { ReturnsTexts result (map thing_name (things numbers.now)) }
{
    let puzzle = numbers.puzzle();
    let mut names = Vec::new(alloc);
    add_piece_names(alloc, &mut names, pieces)?;
    add_cell_names(alloc, &mut names, cells)?;
    add_piece_names(alloc, &mut names, puzzle.maybe_pieces())?;
    add_cell_names(alloc, &mut names, puzzle.maybe_cells())?;
    numbers.add_node_names(alloc, &mut names)?;
    Ok(names)
}

/// The options that leave out these copies.
fn leaving_options(
    alloc: Global,
    needed: &[PieceName],
    primary: u32,
    numbers: &Numbers<'_>,
    lefts: &[Vec<PieceName>],
) -> Result<Vec<Vec<u32>>, AllocError>
    requires puzzle { IsPuzzle numbers.now }
    requires needed { needed.now ≡ needed_names numbers.now }
    requires primary { primary ≡ length (needed_things numbers.now) }
    requires lefts { lists_of lefts.now ≡ left_out numbers.now }
    ensures { ReturnsLists result (map (left_items numbers.now) (left_out numbers.now)) }
{
    let mut options = Vec::with_capacity(alloc, lefts.len())?;
    for left in lefts {
        options.push(numbers.items_of(alloc, needed, primary, left.as_slice())?)?;
    }
    Ok(options)
}

/// The options of these choices.
fn all_options(
    alloc: Global,
    needed: &[PieceName],
    primary: u32,
    numbers: &Numbers<'_>,
    list: &[Choice],
) -> Result<Vec<Vec<u32>>, AllocError>
    requires puzzle { IsPuzzle numbers.now }
    requires needed { needed.now ≡ needed_names numbers.now }
    requires primary { primary ≡ length (needed_things numbers.now) }
    requires list { list.now ≡ every_choice numbers.now }
    ensures { ReturnsLists result (map (option_of numbers.now) (every_choice numbers.now)) }
{
    let mut options = Vec::with_capacity(alloc, list.len())?;
    for choice in list {
        options.push(numbers.option_of(alloc, needed, primary, choice)?)?;
    }
    Ok(options)
}
