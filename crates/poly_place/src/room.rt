//! What may be chosen for the pieces of a puzzle, as far as there is room for its options.
ghost use Rattle.std.specs.Prelude.{◌≡◌, ◌≤◌, ◌+◌, true, false, length, IfNone, IfOk, IfSome};
ghost use Rattle.poly_texts.specs.Puzzle.{IsPuzzle};
ghost use Rattle.poly_place.specs.Tables.{IsCellTable};
ghost use Rattle.poly_cells.specs.Sets.{IsIn};
ghost use Rattle.poly_place.specs.Packings.{ChoiceValue, every_choice, problem_fits};
ghost use Rattle.poly_place.specs.Lists.{lists_of};
ghost use Rattle.poly_place.specs.Compiled.{LaysWithin, entries_of, filled_cells, has_room_beside, leaving_entries};

use crate::choice::Choice;
use crate::laying::choices_of;
use crate::leavings::left_out;
use crate::numbers::Numbers;
use cover_problem::{MOST_ENTRIES, MOST_ITEMS, MOST_OPTIONS};
use poly_texts::{PieceName, Puzzle};
use std::alloc::{AllocError, Global};

/// What may be chosen for all pieces, piece by piece; None where the problem that stands for the puzzle is past a limit.
pub fn choices_within(
    alloc: Global,
    puzzle: &Puzzle,
    filled: &[bool],
    numbers: &Numbers<'_>,
) -> Result<Option<Vec<Choice>>, AllocError>
    requires puzzle { IsPuzzle puzzle.now }
    requires filled { IsCellTable (filled_cells puzzle.now) filled.now }
    requires numbers { numbers.now ≡ puzzle.now }
    ensures none { IfOk result (λ found. IfNone found (problem_fits puzzle.now ≡ false)) }
    ensures fits { IfOk result (λ found. IfSome found (λ _. problem_fits puzzle.now ≡ true)) }
    ensures choices { IfOk result
        (λ found. IfSome found (λ cs. cs.items ≡ every_choice puzzle.now)) }
{
    let Some((choices, entries)) = laid_within(alloc, puzzle, filled, numbers)? else {
        return Ok(None);
    };
    let lefts = left_out(alloc, puzzle)?;
    if !has_room_beside(choices.len(), entries, lefts.as_slice()) {
        return Ok(None);
    }
    Ok(Some(choices))
}

/// Whether there is room for the options that leave out these copies too.
fn has_room_beside(options: usize, entries: usize, lefts: &[Vec<PieceName>]) -> bool
    requires options { options ≤ MOST_OPTIONS }
    requires entries { entries ≤ MOST_ENTRIES }
    ensures { result ≡ has_room_beside options entries (lists_of lefts.now) }
{
    lefts.len() <= MOST_OPTIONS - options && entries_beside(entries, lefts) <= MOST_ENTRIES
}

/// The entries of a table with options added that leave out these copies; where that goes past the limit, some number past it.
fn entries_beside(entries: usize, lefts: &[Vec<PieceName>]) -> usize
    requires { entries ≤ MOST_ENTRIES }
    ensures exact { result ≤ MOST_ENTRIES →
        result ≡ entries + leaving_entries (lists_of lefts.now) }
    ensures past { entries + leaving_entries (lists_of lefts.now) ≤ MOST_ENTRIES →
        result ≤ MOST_ENTRIES }
{
    let mut entries = entries;
    for left in lefts {
        let size = left.len();
        if size >= MOST_ENTRIES - entries {
            return MOST_ENTRIES + 1;
        }
        entries += size + 1;
    }
    entries
}

/// What may be chosen for all pieces, and the entries of a table with these options alone; None where a limit is passed.
fn laid_within(
    alloc: Global,
    puzzle: &Puzzle,
    filled: &[bool],
    numbers: &Numbers<'_>,
) -> Result<Option<(Vec<Choice>, usize)>, AllocError>
    requires puzzle { IsPuzzle puzzle.now }
    requires filled { IsCellTable (filled_cells puzzle.now) filled.now }
    requires numbers { numbers.now ≡ puzzle.now }
    ensures none { IfOk result (λ found. IfNone found (problem_fits puzzle.now ≡ false)) }
    ensures choices { IfOk result
        (λ found. IfSome found (λ r. r.0.items ≡ every_choice puzzle.now)) }
    ensures room { IfOk result
        (λ found. IfSome found (λ r. LaysWithin puzzle.now (length r.0.items) r.1)) }
{
    let items = numbers.items();
    if items > MOST_ITEMS {
        return Ok(None);
    }
    let pieces = puzzle.pieces();
    let (mut all, mut entries) = (Vec::new(alloc), items + 2);
    for k in 0..pieces.len() {
        let (name, piece) = pieces.get_index(k).unwrap();
        let mut choices = choices_of(alloc, numbers, filled, *name, piece)?;
        entries = entries_with(alloc, entries, numbers, choices.as_slice())?;
        all.append(&mut choices)?;
        let options = all.len();
        if options > MOST_OPTIONS || entries > MOST_ENTRIES {
            return Ok(None);
        }
    }
    Ok(Some((all, entries)))
}

/// The entries of a table with the options of these choices added; where that goes past the limit, some number past it.
fn entries_with(
    alloc: Global,
    entries: usize,
    numbers: &Numbers<'_>,
    list: &[Choice],
) -> Result<usize, AllocError>
    requires puzzle { IsPuzzle numbers.now }
    requires members { (c : ChoiceValue) → IsIn c list.now → IsIn c (every_choice numbers.now) }
    requires low { entries ≤ MOST_ENTRIES }
    ensures exact { IfOk result
        (λ n. n ≤ MOST_ENTRIES → n ≡ entries + entries_of numbers.now list.now) }
    ensures past { IfOk result
        (λ n. entries + entries_of numbers.now list.now ≤ MOST_ENTRIES → n ≤ MOST_ENTRIES) }
{
    let mut entries = entries;
    for choice in list {
        let size = numbers.size_of(alloc, choice)?;
        if size >= MOST_ENTRIES - entries {
            return Ok(MOST_ENTRIES + 1);
        }
        entries += size + 1;
    }
    Ok(entries)
}
