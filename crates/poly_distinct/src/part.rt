//! The options that stay at an anchor.
ghost use Rattle.std.specs.Prelude.{◌≡◌, ◌≤◌, ◌==◌, ◌+◌, ◌-◌, ◌∷◌, [], map, length, slice_index_or};
ghost use Rattle.std.specs.List.{list_all};
ghost use Rattle.poly_cells.specs.Sets.{IsIn};
ghost use Rattle.poly_place.specs.Packings.{every_choice};
ghost use Rattle.shared_words.specs.Lists.{has};
ghost use Rattle.shared_words.specs.Answers.{Adds, Returns, ReturnsItems};
ghost use Rattle.cover_problem.specs.ExactCover.{IsExactCover};
ghost use Rattle.poly_place.specs.Listing.{AreExactCovers};
ghost use Rattle.poly_distinct.specs.Distinct.{IsAnchor};
ghost use Rattle.poly_distinct.specs.Fewer.{AreNumbersTo};
ghost use Rattle.poly_distinct.specs.Moves.{thing_of};
ghost use Rattle.poly_distinct.specs.Rule.{group_at};
ghost use Rattle.poly_distinct.specs.UpTo.{part_with, moves_of, part_problem, whole_paths_of, counted_in, stands_for_in, first_cells, counts_in};
ghost use Rattle.poly_distinct.specs.UpTo.{counts_by, each_in, one_number};

use crate::anchor::Anchor;
use crate::fewer::with_options;
use crate::moves::Moves;
use crate::rule::is_kept;
use crate::smaller::{is_at, numbers_left};
use cover_problem::{Lists, Problem};
use poly_cells::Cell;
use poly_place::{Choice, Compiled, Group, packing_of};
use std::alloc::{AllocError, Global};
use std::marker::Model;

/// The options of a puzzle's problem that stay at an anchor, and the problem that they make.
#[derive(Drop)]
pub struct AnchorPart<'a, 'p> {
    compiled: &'a Compiled<'p>,
    group: Group,
    anchor: Anchor,
    moves: Moves<'p>,
    // Their numbers among all options of the puzzle, in order.
    numbers: Vec<u32>,
    problem: Problem,
}

impl<'a, 'p> Model for AnchorPart<'a, 'p> {
    ghost use Rattle.poly_distinct.specs.Moves.{thing_of};
    ghost use Rattle.poly_distinct.specs.UpTo.{PartValue, IsPart, part_with};

    ghost Value = { PartValue };

    ghost view = { λ a. part_with a.compiled.now a.group (thing_of a.anchor) };

    ghost invariant = { λ a. IsPart (part_with a.compiled.now a.group (thing_of a.anchor)) a.moves a.numbers.items a.problem };
}

impl<'a, 'p> AnchorPart<'a, 'p> {
    /// Those of an anchor of the puzzle, by the moves that may be used there.
    pub fn at(
        alloc: Global,
        compiled: &'a Compiled<'p>,
        moves: Moves<'p>,
        group: Group,
        anchor: &Anchor,
    ) -> Result<AnchorPart<'a, 'p>, AllocError>
        requires moves { moves ≡ moves_of compiled.now (group_at compiled.now group (thing_of anchor.now)) }
        requires anchor { IsAnchor compiled.now (thing_of anchor.now) }
        ensures { Returns result (part_with compiled.now group (thing_of anchor.now)) }
    {
        let _sound = compiled.choices();
        let numbers = numbers_left(alloc, compiled, &moves, anchor)?;
        let problem = with_options(alloc, compiled.problem(), numbers.as_slice())?;
        Ok(AnchorPart {
            compiled,
            group,
            anchor: *anchor,
            moves,
            numbers,
            problem,
        })
    }

    /// The anchor.
    pub fn anchor(&self) -> &Anchor
        ensures { thing_of result.now ≡ self.now.thing }
    {
        &self.anchor
    }

    /// The moves that may be used there.
    pub fn moves(&self) -> &Moves<'p>
        ensures { result.now.puzzle ≡ self.now.puzzle }
    {
        &self.moves
    }

    /// The problem.
    pub fn problem(&self) -> &Problem
        ensures { result.now ≡ part_problem self.now }
    {
        &self.problem
    }

    /// Exact covers of it, by the numbers of the options of the puzzle.
    pub fn whole_paths(&self, alloc: Global, visits: &Lists) -> Result<Lists, AllocError>
        requires { AreExactCovers (part_problem self.now) visits.now }
        ensures { Returns result (whole_paths_of self.now visits.now) }
    {
        let mut paths = Lists::new(alloc);
        for k in 0..visits.len() {
            let path = whole_path(alloc, self.numbers.as_slice(), visits.list(k))?;
            paths.push(path.as_slice())?;
        }
        Ok(paths)
    }

    /// How many packings exact covers of it stand for.
    pub fn packings(&self, alloc: Global, visits: &Lists) -> Result<u128, AllocError>
        requires { AreExactCovers (part_problem self.now) visits.now }
        ensures { Returns result (counted_in self.now visits.now) }
    {
        let mut packings = 0u128;
        for k in 0..visits.len() {
            let count = self.stands_for(alloc, visits.list(k))?;
            packings = added(packings, count);
        }
        Ok(packings)
    }

    /// How many packings an exact cover of it stands for: to so many sets of cells its cells at the anchor are brought.
    fn stands_for(&self, alloc: Global, path: &[u32]) -> Result<usize, AllocError>
        requires { IsExactCover (part_problem self.now) (has path.now) }
        ensures { Returns result (stands_for_in self.now path.now) }
    {
        let whole = whole_path(alloc, self.numbers.as_slice(), path)?;
        let packing = packing_of(alloc, self.compiled, whole.as_slice())?;
        let cells = first_cells(&self.anchor, packing.placements());
        self.moves.image_count(alloc, &self.anchor, cells)
    }

    /// How many packings each exact cover of it stands for, where that is one number.
    pub fn each(&self, alloc: Global) -> Result<Option<usize>, AllocError>
        ensures { Returns result (each_in self.now) }
    {
        let counts = self.counts(alloc)?;
        Ok(one_number(counts.as_slice()))
    }

    /// For each choice at the anchor that is kept to how many sets of cells its cells are brought.
    fn counts(&self, alloc: Global) -> Result<Vec<usize>, AllocError>
        ensures { ReturnsItems result (counts_in self.now) }
    {
        let choices = self.compiled.choices();
        let mut counts = Vec::new(alloc);
        for choice in choices {
            self.add_count(alloc, &mut counts, choice)?;
        }
        Ok(counts)
    }

    /// Adds to how many sets of cells a choice's cells are brought, if it is at the anchor and kept.
    fn add_count(
        &self,
        alloc: Global,
        counts: &mut Vec<usize>,
        choice: &Choice,
    ) -> Result<(), AllocError>
        requires { IsIn choice.now (every_choice self.now.puzzle) }
        ensures { Adds result counts.old counts.new (counts_by self.now (choice.now ∷ [])) }
    {
        if !is_kept(alloc, &self.moves, &self.anchor, choice)? {
            return Ok(());
        }
        let count = self.moves.image_count(alloc, &self.anchor, choice.cells())?;
        counts.push(count)?;
        Ok(())
    }
}

/// The cells of the first of these choices that is at an anchor, or none.
fn first_cells<'c>(anchor: &Anchor, choices: &'c [Choice]) -> &'c [Cell]
    ensures { result.now ≡ first_cells (thing_of anchor.now) choices.now }
{
    for choice in choices {
        if is_at(anchor, choice) {
            return choice.cells();
        }
    }
    &[]
}

/// The sum of the two.
fn added(total: u128, more: usize) -> u128
    requires { total ≤ 340282366920938463444927863358058659840 }
    ensures value { result ≡ total + more }
    ensures limit { result ≤ total + 18446744073709551615 }
{
    total + more as u128
}

/// The number that each of these is.
fn one_number(counts: &[usize]) -> Option<usize>
    ensures { result ≡ one_number counts.now }
{
    if counts.is_empty() {
        return None;
    }
    if !are_all(counts, counts[0]) {
        return None;
    }
    Some(counts[0])
}

/// Whether each of these is the number.
fn are_all(counts: &[usize], number: usize) -> bool
    ensures { result ≡ list_all (λ m. m == number) counts.now }
{
    counts.iter().all(|count| *count == number)
}

/// The numbers that stand at these, counted from 1.
fn whole_path(alloc: Global, numbers: &[u32], path: &[u32]) -> Result<Vec<u32>, AllocError>
    requires { AreNumbersTo (length numbers.now) path.now }
    ensures { ReturnsItems result (map (λ k. slice_index_or numbers.now (k - 1) 0) path.now) }
{
    let mut whole = Vec::with_capacity(alloc, path.len())?;
    for option in path {
        whole.push(numbers[*option as usize - 1])?;
    }
    Ok(whole)
}
