//! How many choices are at anchors, and how many of them are kept.
ghost use Rattle.std.specs.Prelude.{◌≡◌, ◌≤◌, ◌<◌, ◌^◌, ◌&&◌, ℕ, [], true, not, map, filter, length, nat_lt, slice_index, OnOk};
ghost use Rattle.std.specs.List.{list_all};
ghost use Rattle.shared_words.specs.Answers.{Adds};
ghost use Rattle.shared_words.specs.Lists.{are_distinct};
ghost use Rattle.poly_cells.specs.CellTests.{has_cell};
ghost use Rattle.poly_cells.specs.Sets.{IsIn};
ghost use Rattle.poly_texts.specs.Puzzle.{IsPuzzle};
ghost use Rattle.poly_place.specs.Packings.{every_choice};
ghost use Rattle.poly_place.specs.Compiled.{filled_cells};
ghost use Rattle.poly_distinct.specs.Counts.{AreCounts, AreMore, HaveRoomForMore, cell_tally, first_places, places_in};
ghost use Rattle.poly_distinct.specs.Rule.{leaves_out};

use crate::anchor::Anchor;
use crate::counts::zeros;
use crate::moves::Moves;
use poly_cells::Cell;
use poly_place::{Choice, Compiled};
use std::alloc::{AllocError, Global};
use std::marker::Model;

/// An anchor, how many choices there are at it, and how many of these are kept.
#[derive(Clone, Copy)]
pub struct AnchorTally {
    /// The anchor.
    pub anchor: Anchor,
    /// How many choices are there.
    pub options: usize,
    /// How many of them are kept.
    pub kept: usize,
}

impl Model for AnchorTally {
    ghost use Rattle.poly_distinct.specs.Rule.{TallyValue};

    ghost Value = { TallyValue };

    ghost view = { λ a. record { anchor = a.anchor; options = a.options; kept = a.kept } };

    ghost inverse = { λ v. record { anchor = v.anchor; options = v.options; kept = v.kept } };
}

/// Whether something is left out.
pub fn leaves_out(tally: &AnchorTally) -> bool
    ensures { result ≡ leaves_out tally.now }
{
    tally.kept < tally.options
}

/// Adds the tallies of the cells that have to be filled, if something is left out there. Each choice is looked at once, for its own cells.
pub fn add_cells(
    alloc: Global,
    tallies: &mut Vec<AnchorTally>,
    compiled: &Compiled<'_>,
    moves: &Moves<'_>,
) -> Result<(), AllocError>
    requires { moves.now.puzzle ≡ compiled.now }
    ensures { Adds result tallies.old tallies.new (filter leaves_out
        (map (cell_tally moves.now) (filled_cells compiled.now))) }
{
    compiled.problem().is_sound();
    let count = compiled.region().cells().len();
    let mut options = zeros(alloc, count)?;
    let mut kept = zeros(alloc, count)?;
    count_cells(alloc, &mut options, &mut kept, compiled.choices(), moves)?;
    add_filled(tallies, moves, options.as_slice(), kept.as_slice())
}

/// Counts the choices that fill each of the region's cells, and those of them that are kept there.
fn count_cells(
    alloc: Global,
    options: &mut [usize],
    kept: &mut [usize],
    choices: &[Choice],
    moves: &Moves<'_>,
) -> Result<(), AllocError>
    requires puzzle { IsPuzzle moves.now.puzzle }
    requires choices { choices.now ≡ every_choice moves.now.puzzle }
    requires limit { length choices.now ≤ 262143 }
    requires options { AreCounts (length moves.now.puzzle.region)
        (places_in moves.now.puzzle) [] options.old }
    requires kept { AreCounts (length moves.now.puzzle.region) (first_places moves.now) [] kept.old }
    ensures options { OnOk result (AreCounts (length moves.now.puzzle.region)
        (places_in moves.now.puzzle) choices.now options.new) }
    ensures kept { OnOk result (AreCounts (length moves.now.puzzle.region)
        (first_places moves.now) choices.now kept.new) }
{
    for choice in choices {
        count_choice(alloc, options, kept, choice, moves)?;
    }
    Ok(())
}

/// Counts a choice at each of its cells, and at those of them where it is kept.
fn count_choice(
    alloc: Global,
    options: &mut [usize],
    kept: &mut [usize],
    choice: &Choice,
    moves: &Moves<'_>,
) -> Result<(), AllocError>
    requires puzzle { IsPuzzle moves.now.puzzle }
    requires member { IsIn choice.now (every_choice moves.now.puzzle) }
    requires options { HaveRoomForMore (length moves.now.puzzle.region) options.old }
    requires kept { HaveRoomForMore (length moves.now.puzzle.region) kept.old }
    ensures options { OnOk result
        (AreMore options.old options.new (places_in moves.now.puzzle choice.now)) }
    ensures kept { OnOk result (AreMore kept.old kept.new (first_places moves.now choice.now)) }
{
    let places = moves.places_of(alloc, choice.cells())?;
    add_at(options, places.as_slice());
    let firsts = moves.first_among(alloc, places.as_slice())?;
    add_at(kept, firsts.as_slice());
    Ok(())
}

/// Adds one to the counts at each of these places.
fn add_at(counts: &mut [usize], places: &[usize])
    requires distinct { are_distinct places.now ≡ true }
    requires within { list_all (λ k. nat_lt k (length counts.old)) places.now ≡ true }
    requires room { (k : ℕ) → k < length counts.old → slice_index counts.old k < 2 ^ 32 }
    ensures { AreMore counts.old counts.new places.now }
{
    for place in places {
        counts[*place] += 1;
    }
}

/// Adds the tallies, by these counts, of the cells that have to be filled, if something is left out there.
fn add_filled(
    tallies: &mut Vec<AnchorTally>,
    moves: &Moves<'_>,
    options: &[usize],
    kept: &[usize],
) -> Result<(), AllocError>
    requires puzzle { IsPuzzle moves.now.puzzle }
    requires options { AreCounts (length moves.now.puzzle.region) (places_in moves.now.puzzle)
        (every_choice moves.now.puzzle) options.now }
    requires kept { AreCounts (length moves.now.puzzle.region) (first_places moves.now)
        (every_choice moves.now.puzzle) kept.now }
    ensures { Adds result tallies.old tallies.new (filter leaves_out
        (map (cell_tally moves.now) (filled_cells moves.now.puzzle))) }
{
    let cells = moves.puzzle().region().cells();
    let maybe = moves.puzzle().maybe_cells();
    for k in 0..cells.len() {
        let cell = cells[k];
        let tally = AnchorTally {
            anchor: Anchor::Cell(cell),
            options: options[k],
            kept: kept[k],
        };
        if is_counted(&tally, maybe, cell) {
            tallies.push(tally)?;
        }
    }
    Ok(())
}

/// Whether something is left out at a cell that is none of those that may stay empty.
fn is_counted(tally: &AnchorTally, maybe: &[Cell], cell: Cell) -> bool
    ensures { result ≡ (leaves_out tally.now && not (has_cell maybe.now cell)) }
{
    // In this order, since at most cells nothing is left out.
    leaves_out(tally) && !maybe.contains(&cell)
}
