//! At which piece or cell choices are left out.
ghost use Rattle.std.specs.Prelude.{◌≡◌, ◌+◌, ◌<◌, ◌≤◌, true, false, cond, map, filter, length, option_map, slice_index_or, IfOk};
ghost use Rattle.std.specs.Prelude.{ℕ, nat_lt, slice_index};
ghost use Rattle.std.specs.List.{list_all};
ghost use Rattle.shared_words.specs.Answers.{Returns, ReturnsItems, Adds};
ghost use Rattle.shared_words.specs.Lists.{numbers};
ghost use Rattle.poly_cells.specs.Sets.{IsIn};
ghost use Rattle.poly_texts.specs.Puzzle.{IsPuzzle};
ghost use Rattle.poly_place.specs.declared.alike.Group.TheVariants.{Rotations};
ghost use Rattle.poly_place.specs.Packings.{every_choice};
ghost use Rattle.poly_distinct.specs.Distinct.{is_at};
ghost use Rattle.poly_distinct.specs.Exchange.{has_mirrors};
ghost use Rattle.poly_distinct.specs.Moves.{thing_of, kept_at};
ghost use Rattle.poly_distinct.specs.Rule.{TallyValue, anchor_of, better_by, chosen_of, first_best, is_alone, is_below_all, is_kept_at};
ghost use Rattle.poly_distinct.specs.Rule.{is_single};
ghost use Rattle.poly_distinct.specs.Rule.{least_parts, leaves_out, less_part, may_reflect, single_pieces, tallies_of, tally_by};
ghost use Rattle.poly_distinct.specs.Rule.{anchor_tally};
ghost use Rattle.poly_distinct.specs.UpTo.{moves_of};

use crate::anchor::Anchor;
use crate::counts::option_counts;
use crate::exchange::MirrorNames;
use crate::formed::{is_needed, mates};
use crate::moves::Moves;
use crate::smaller::is_at;
use crate::tally::{AnchorTally, add_cells, leaves_out};
use cover_problem::Problem;
use poly_place::{Choice, Compiled, Group};
use poly_texts::{PieceName, Puzzle};
use std::alloc::{AllocError, Global};

/// The required piece or cell at which choices are left out: of those that keep the least part of their choices the one that keeps the
/// fewest, if each required item has more options, and else the one that keeps the most; the first of equals; none where nothing is
/// left out.
pub fn anchor_of(
    alloc: Global,
    compiled: &Compiled<'_>,
    exchange: &MirrorNames<'_>,
    group: Group,
) -> Result<Option<Anchor>, AllocError>
    requires { exchange.now ≡ compiled.now }
    ensures { IfOk result
        (λ found. option_map thing_of found ≡ anchor_of compiled.now group) }
{
    let turns = Moves::of(alloc, compiled, Group::Rotations)?;
    let all = Moves::of(alloc, compiled, group)?;
    anchor_by(alloc, compiled, exchange, &all, &turns)
}

/// The same by the moves of the group, and by the rotations.
pub fn anchor_by(
    alloc: Global,
    compiled: &Compiled<'_>,
    exchange: &MirrorNames<'_>,
    all: &Moves<'_>,
    turns: &Moves<'_>,
) -> Result<Option<Anchor>, AllocError>
    requires exchange { exchange.now ≡ compiled.now }
    requires all { all.now.puzzle ≡ compiled.now }
    requires turns { turns.now ≡ moves_of compiled.now Rotations }
    ensures { IfOk result
        (λ found. option_map thing_of found ≡ anchor_of compiled.now all.now.group) }
{
    let tallies = tallies(alloc, compiled, exchange, all, turns)?;
    let least = least_parts(alloc, tallies.as_slice())?;
    match chosen_of(alloc, compiled.problem(), least.as_slice())? {
        Some(tally) => Ok(Some(tally.anchor)),
        None => Ok(None),
    }
}

/// The things at which something is left out, with how much.
fn tallies(
    alloc: Global,
    compiled: &Compiled<'_>,
    exchange: &MirrorNames<'_>,
    all: &Moves<'_>,
    turns: &Moves<'_>,
) -> Result<Vec<AnchorTally>, AllocError>
    requires exchange { exchange.now ≡ compiled.now }
    requires all { all.now.puzzle ≡ compiled.now }
    requires turns { turns.now ≡ moves_of compiled.now Rotations }
    ensures { ReturnsItems result (tallies_of compiled.now all.now.group) }
{
    let mut tallies = Vec::new(alloc);
    add_pieces(alloc, &mut tallies, compiled, exchange, all, turns)?;
    let moves = cell_moves(exchange, all, turns);
    add_cells(alloc, &mut tallies, compiled, moves)?;
    Ok(tallies)
}

/// Adds the tallies of the required pieces that have no equal one, if something is left out there.
fn add_pieces<'m, 'p>(
    alloc: Global,
    tallies: &mut Vec<AnchorTally>,
    compiled: &Compiled<'_>,
    exchange: &MirrorNames<'_>,
    all: &'m Moves<'p>,
    turns: &'m Moves<'p>,
) -> Result<(), AllocError>
    requires exchange { exchange.now ≡ compiled.now }
    requires all { all.now.puzzle ≡ compiled.now }
    requires turns { turns.now ≡ moves_of compiled.now Rotations }
    ensures { Adds result tallies.old tallies.new (filter leaves_out
        (map (anchor_tally compiled.now all.now.group) (single_pieces compiled.now))) }
{
    let pieces = single_pieces(alloc, compiled.puzzle())?;
    for anchor in pieces.as_slice() {
        let moves = moves_at(exchange, all, turns, anchor);
        let tally = count_at(alloc, compiled.choices(), moves, anchor)?;
        if leaves_out(&tally) {
            tallies.push(tally)?;
        }
    }
    Ok(())
}

/// Of these moves those that may be used at an anchor.
fn moves_at<'m, 'p>(
    exchange: &MirrorNames<'_>,
    all: &'m Moves<'p>,
    turns: &'m Moves<'p>,
    anchor: &Anchor,
) -> &'m Moves<'p>
    ensures { result.now ≡ cond (may_reflect exchange.now (thing_of anchor.now)) all.now turns.now }
{
    if may_reflect(exchange, anchor) {
        all
    } else {
        turns
    }
}

/// Of these moves those that may be used at cells.
fn cell_moves<'m, 'p>(
    exchange: &MirrorNames<'_>,
    all: &'m Moves<'p>,
    turns: &'m Moves<'p>,
) -> &'m Moves<'p>
    ensures { result.now ≡ cond (has_mirrors exchange.now) all.now turns.now }
{
    if exchange.is_whole() { all } else { turns }
}

/// Whether reflections may be used at a thing.
pub fn may_reflect(exchange: &MirrorNames<'_>, anchor: &Anchor) -> bool
    ensures { result ≡ may_reflect exchange.now (thing_of anchor.now) }
{
    match anchor {
        Anchor::Piece(name) => exchange.is_whole() && exchange.name(*name) == *name,
        Anchor::Cell(_) => exchange.is_whole(),
    }
}

/// The required pieces that have no equal one, in the order of the pieces.
fn single_pieces(alloc: Global, puzzle: &Puzzle) -> Result<Vec<Anchor>, AllocError>
    ensures { ReturnsItems result (single_pieces puzzle.now) }
{
    let pieces = puzzle.pieces();
    let mut anchors = Vec::new(alloc);
    for k in 0..pieces.len() {
        let (name, _shape) = pieces.get_index(k).unwrap();
        if is_single(puzzle, *name) {
            anchors.push(Anchor::Piece(*name))?;
        }
    }
    Ok(anchors)
}

/// Whether a piece is laid in each packing, and no other one is equal to it.
fn is_single(puzzle: &Puzzle, name: PieceName) -> bool
    ensures { result ≡ is_single puzzle.now name }
{
    is_needed(puzzle, name) && is_alone(puzzle, name)
}

/// Whether none of the groups of equal pieces has the name.
fn is_alone(puzzle: &Puzzle, name: PieceName) -> bool
    ensures { result ≡ is_alone puzzle.now name }
{
    mates(puzzle, name).is_empty()
}

/// How many choices are at a thing, and how many of them are kept.
fn count_at(
    alloc: Global,
    choices: &[Choice],
    moves: &Moves<'_>,
    anchor: &Anchor,
) -> Result<AnchorTally, AllocError>
    requires puzzle { IsPuzzle moves.now.puzzle }
    requires choices { choices.now ≡ every_choice moves.now.puzzle }
    ensures { Returns result (tally_by moves.now.puzzle
        (kept_at moves.now.puzzle moves.now.group (thing_of anchor.now)) anchor.now) }
{
    let mut kept = 0;
    for choice in choices {
        let one = is_kept(alloc, moves, anchor, choice)?;
        kept += usize::from(one);
    }
    Ok(AnchorTally {
        anchor: *anchor,
        options: choices_at(choices, anchor),
        kept,
    })
}

/// How many choices are at a thing.
fn choices_at(choices: &[Choice], anchor: &Anchor) -> usize
    ensures { result ≡ length (filter (is_at (thing_of anchor.now)) choices.now) }
{
    choices
        .iter()
        .filter(|choice| is_at(anchor, choice))
        .count()
}

/// Whether a choice is at a thing, and none of the moves that leave it where it is brings its cells to lesser ones.
pub fn is_kept(
    alloc: Global,
    moves: &Moves<'_>,
    anchor: &Anchor,
    choice: &Choice,
) -> Result<bool, AllocError>
    requires puzzle { IsPuzzle moves.now.puzzle }
    requires member { IsIn choice.now (every_choice moves.now.puzzle) }
    ensures { Returns result (is_kept_at moves.now.puzzle
        (kept_at moves.now.puzzle moves.now.group (thing_of anchor.now))
        (thing_of anchor.now) choice.now) }
{
    if !is_at(anchor, choice) {
        return Ok(false);
    }
    moves.is_first(alloc, anchor, choice.cells())
}

/// Those that keep the least part of their choices.
fn least_parts(alloc: Global, tallies: &[AnchorTally]) -> Result<Vec<AnchorTally>, AllocError>
    requires { list_all leaves_out tallies.now ≡ true }
    ensures { ReturnsItems result (least_parts tallies.now) }
{
    let best = least_part(tallies);
    let mut least = Vec::new(alloc);
    for tally in tallies {
        if !is_less_part(&tallies[best], tally) {
            least.push(*tally)?;
        }
    }
    Ok(least)
}

/// The place of a tally such that none keeps less of its choices; 0 if there are none.
fn least_part(tallies: &[AnchorTally]) -> usize
    ensures within { 0 < length tallies.now → result < length tallies.now }
    ensures least { (k : ℕ) (d : TallyValue) → k < length tallies.now → less_part
        (slice_index_or tallies.now k d) (slice_index_or tallies.now result d) ≡ false }
{
    let mut best = 0;
    for k in 1..tallies.len() {
        if is_less_part(&tallies[k], &tallies[best]) {
            best = k;
        }
    }
    best
}

/// Whether the part of its choices that one keeps is less than the other's.
fn is_less_part(tally: &AnchorTally, other: &AnchorTally) -> bool
    ensures { result ≡ less_part tally.now other.now }
{
    // Compared crosswise: no part is divided out.
    tally.kept as u128 * (other.options as u128) < other.kept as u128 * (tally.options as u128)
}

/// Of these the one that keeps the fewest choices, if each item has more options; and else the one that keeps the most.
fn chosen_of(
    alloc: Global,
    problem: &Problem,
    tallies: &[AnchorTally],
) -> Result<Option<AnchorTally>, AllocError>
    ensures { Returns result (chosen_of problem.now tallies.now) }
{
    match first_best(tallies, false) {
        None => Ok(None),
        Some(low) => {
            if is_below_all(alloc, problem, low.kept)? {
                Ok(Some(low))
            } else {
                Ok(first_best(tallies, true))
            }
        }
    }
}

/// The first that keeps the fewest choices, or the most.
fn first_best(tallies: &[AnchorTally], most: bool) -> Option<AnchorTally>
    ensures { result ≡ first_best (better_by most) tallies.now }
{
    let mut best = 0;
    for k in 1..tallies.len() {
        if is_better(&tallies[k], &tallies[best], most) {
            best = k;
        }
    }
    tallies.get(best).copied()
}

/// Whether one keeps fewer choices than the other, or more.
fn is_better(tally: &AnchorTally, other: &AnchorTally, most: bool) -> bool
    ensures { result ≡ better_by most tally.now other.now }
{
    if most {
        tally.kept > other.kept
    } else {
        tally.kept < other.kept
    }
}

/// Whether each item that has to be covered has more options than a number.
fn is_below_all(alloc: Global, problem: &Problem, number: usize) -> Result<bool, AllocError>
    ensures { Returns result (is_below_all problem.now number) }
{
    problem.is_sound();
    let counts = option_counts(alloc, problem)?;
    Ok(are_above(counts.as_slice(), problem.primary(), number))
}

/// Whether each of the counts from 1 to `last` is above a number.
fn are_above(counts: &[usize], last: u32, number: usize) -> bool
    requires { last < length counts.now }
    ensures { result ≡ list_all (λ i. nat_lt number (slice_index counts.now i)) (numbers last 1) }
{
    for item in 0..last {
        if counts[item as usize + 1] <= number {
            return false;
        }
    }
    true
}
