//! A search up to symmetry: the problem with fewer options, and the packings for which its exact covers stand.
ghost use Rattle.std.specs.Prelude.{◌≡◌, IfOk, cond, option_map};
ghost use Rattle.shared_words.specs.Answers.{Returns, ReturnsItems};
ghost use Rattle.poly_place.specs.Packings.{packing_problem};
ghost use Rattle.poly_place.specs.Listing.{AreExactCovers};
ghost use Rattle.poly_distinct.specs.UpTo.{smaller, new_paths, part_of, stood_for, each_stands};
ghost use Rattle.poly_distinct.specs.Rule.{anchor_of, may_reflect};
ghost use Rattle.poly_distinct.specs.Moves.{thing_of};

use crate::anchor::Anchor;
use crate::exchange::MirrorNames;
use crate::moves::Moves;
use crate::news::{distinct_paths, distinct_with};
use crate::part::AnchorPart;
use crate::rule::{anchor_by, may_reflect};
use cover_problem::{Lists, Problem};
use poly_place::{Compiled, Group};
use std::alloc::{AllocError, Global};
use std::marker::Model;

/// The problem of a search up to symmetry: of the options at the anchor those alone that no symmetry brings to lesser cells.
#[derive(Drop)]
pub struct Smaller<'a, 'p> {
    pub(crate) compiled: &'a Compiled<'p>,
    pub(crate) group: Group,
    // None where there is no anchor: then all options stay.
    part: Option<AnchorPart<'a, 'p>>,
}

impl<'a, 'p> Model for Smaller<'a, 'p> {
    ghost use Rattle.poly_distinct.specs.UpTo.{UpToValue, IsUpTo};

    ghost Value = { UpToValue };

    ghost view = { λ a. record { puzzle = a.compiled.now; group = a.group } };

    ghost invariant = { λ a. IsUpTo a.compiled.now a.group a.part };
}

/// The options that stay at the anchor, if there is one.
fn part_of<'a, 'p>(
    alloc: Global,
    compiled: &'a Compiled<'p>,
    exchange: &MirrorNames<'_>,
    group: Group,
) -> Result<Option<AnchorPart<'a, 'p>>, AllocError>
    requires { exchange.now ≡ compiled.now }
    ensures { Returns result (part_of compiled.now group) }
{
    let turns = Moves::of(alloc, compiled, Group::Rotations)?;
    let all = Moves::of(alloc, compiled, group)?;
    match anchor_by(alloc, compiled, exchange, &all, &turns)? {
        None => Ok(None),
        Some(anchor) => {
            let moves = moves_for(exchange, all, turns, &anchor);
            Ok(Some(AnchorPart::at(alloc, compiled, moves, group, &anchor)?))
        }
    }
}

/// Of these moves those that may be used at an anchor.
fn moves_for<'p>(
    exchange: &MirrorNames<'_>,
    all: Moves<'p>,
    turns: Moves<'p>,
    anchor: &Anchor,
) -> Moves<'p>
    ensures { result ≡ cond (may_reflect exchange.now (thing_of anchor.now)) all.entry turns.entry }
{
    if may_reflect(exchange, anchor) {
        all
    } else {
        turns
    }
}

impl<'a, 'p> Smaller<'a, 'p> {
    /// That of a puzzle, up to the symmetries of the group.
    pub fn of(
        alloc: Global,
        compiled: &'a Compiled<'p>,
        group: Group,
    ) -> Result<Smaller<'a, 'p>, AllocError>
        ensures { Returns result (record { puzzle = compiled.now; group = group }) }
    {
        let _sound = compiled.choices();
        let exchange = MirrorNames::of(alloc, compiled.puzzle())?;
        let part = part_of(alloc, compiled, &exchange, group)?;
        Ok(Smaller {
            compiled,
            group,
            part,
        })
    }

    /// The symmetries by which packings are told apart.
    pub fn group(&self) -> Group
        ensures { result ≡ self.now.group }
    {
        self.group
    }

    /// The problem.
    pub fn problem(&self) -> &Problem
        ensures { result.now ≡ smaller self.now.puzzle self.now.group }
    {
        match &self.part {
            None => self.compiled.problem(),
            Some(part) => part.problem(),
        }
    }

    /// Of exact covers of it those, by the numbers of the options of the puzzle, whose packings are like none before them.
    pub fn distinct_paths(&self, alloc: Global, visits: &Lists) -> Result<Lists, AllocError>
        requires { AreExactCovers (smaller self.now.puzzle self.now.group) visits.now }
        ensures paths { Returns result (new_paths self.now.puzzle self.now.group visits.now) }
        ensures covers { IfOk result (λ paths. AreExactCovers (packing_problem self.now.puzzle) paths) }
    {
        match &self.part {
            None => distinct_paths(alloc, self.compiled, visits, self.group),
            Some(part) => {
                let paths = part.whole_paths(alloc, visits)?;
                distinct_with(alloc, self.compiled, &paths, self.group, part.moves())
            }
        }
    }

    /// How many packings exact covers of it stand for.
    pub fn packings(&self, alloc: Global, visits: &Lists) -> Result<u128, AllocError>
        requires { AreExactCovers (smaller self.now.puzzle self.now.group) visits.now }
        ensures { Returns result (stood_for self.now.puzzle self.now.group visits.now) }
    {
        match &self.part {
            None => Ok(visits.len() as u128),
            Some(part) => part.packings(alloc, visits),
        }
    }

    /// How many packings each exact cover stands for, where that is one number.
    pub fn each(&self, alloc: Global) -> Result<Option<usize>, AllocError>
        ensures { Returns result (each_stands self.now.puzzle self.now.group) }
    {
        match &self.part {
            None => Ok(Some(1)),
            Some(part) => part.each(alloc),
        }
    }

    /// The anchor, if there is one.
    pub fn anchor(&self) -> Option<&Anchor>
        ensures { option_map (λ a. thing_of a.now) result ≡ anchor_of self.now.puzzle self.now.group }
    {
        match &self.part {
            None => None,
            Some(part) => Some(part.anchor()),
        }
    }
}
