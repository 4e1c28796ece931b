//! The symmetries of a puzzle's region, as moves of the places of its cells.
ghost use Rattle.std.specs.Prelude.{◌≡◌, ◌<◌, ℕ, IsTrue, false, Option, Some, List, filter, length, map, ◌∷◌, [], ◌++◌, OnOk};
ghost use Rattle.std.specs.Ordering.{nat_cmp};
ghost use Rattle.poly_cells.specs.Coordinates.{Coordinates};
ghost use Rattle.poly_cells.specs.Sets.{IsIn, in_order};
ghost use Rattle.shared_words.specs.Answers.{Returns, ReturnsItems};
ghost use Rattle.poly_place.specs.Lists.{lists_of};
ghost use Rattle.poly_place.specs.Packings.{place_of};
ghost use Rattle.poly_place.specs.Forms.{carried, forms_cmp, AreBelow, AreCarriers};
ghost use Rattle.poly_place.specs.Answers.{AddsLists, ReturnsLists};
ghost use Rattle.poly_place.specs.Compiled.{ArePlacesOf};
ghost use Rattle.poly_distinct.specs.Counts.{ArePlacesAmong, first_of_cells};
ghost use Rattle.poly_distinct.specs.Distinct.{images_by, is_least};
ghost use Rattle.poly_distinct.specs.Moves.{thing_of, kept_at, fixed_place, images_at, is_least_by, leaves_place, lowers, LiesInside};
ghost use Rattle.poly_distinct.specs.Moves.{BeginsWith, HavePlaces, IsLeastOf};

use crate::anchor::Anchor;
use poly_cells::Cell;
use poly_place::{Compiled, Group, bit_index, carriers, region_places};
use poly_texts::Puzzle;
use std::alloc::{AllocError, Global};
use std::cmp::Ordering;
use std::marker::Model;

/// The symmetries of a group that keep a puzzle's region and its optional cells: for each where it brings the places of the region's cells.
#[derive(Drop)]
pub struct Moves<'p> {
    puzzle: &'p Puzzle,
    group: Group,
    places: Vec<u32>,
    carriers: Vec<Vec<usize>>,
}

impl<'p> Model for Moves<'p> {
    ghost use Rattle.poly_place.specs.Lists.{lists_of};
    ghost use Rattle.poly_distinct.specs.Moves.{MovesValue, AreMoves};

    ghost Value = { MovesValue };

    ghost view = { λ a. record { puzzle = a.puzzle.now; group = a.group } };

    ghost invariant = { λ a. AreMoves a.puzzle.now a.group a.places.items (lists_of a.carriers.items) };
}

impl<'p> Moves<'p> {
    /// Those of a puzzle.
    pub fn of(alloc: Global, compiled: &Compiled<'p>, group: Group) -> Result<Moves<'p>, AllocError>
        ensures { Returns result (record { puzzle = compiled.now; group = group }) }
    {
        let puzzle = compiled.puzzle();
        puzzle.is_sound();
        let places = region_places(alloc, puzzle.region().cells())?;
        let carriers = carriers(alloc, puzzle.region(), puzzle.maybe_cells(), group)?;
        Ok(Moves {
            puzzle,
            group,
            places,
            carriers,
        })
    }

    /// Whether none of those that leave the anchor where it is brings the cells to lesser ones.
    pub fn is_first(
        &self,
        alloc: Global,
        anchor: &Anchor,
        cells: &[Cell],
    ) -> Result<bool, AllocError>
        requires anchor { LiesInside self.now.puzzle (thing_of anchor.now) }
        requires inside { (v : Coordinates) → IsIn v cells.now → IsIn v self.now.puzzle.region }
        ensures { Returns result (is_least self.now.puzzle.region
            (kept_at self.now.puzzle self.now.group (thing_of anchor.now)) cells.now) }
    {
        let places = self.places_of(alloc, cells)?;
        let fixed = self.fixed(anchor);
        let carriers = self.carriers.as_slice();
        let list = places.as_slice();
        is_least(alloc, carriers, fixed, list)
    }

    /// To how many sets of cells those that leave the anchor where it is bring the cells.
    pub fn image_count(
        &self,
        alloc: Global,
        anchor: &Anchor,
        cells: &[Cell],
    ) -> Result<usize, AllocError>
        requires anchor { LiesInside self.now.puzzle (thing_of anchor.now) }
        requires inside { (v : Coordinates) → IsIn v cells.now → IsIn v self.now.puzzle.region }
        ensures { Returns result (length (images_by self.now.puzzle.region
            (kept_at self.now.puzzle self.now.group (thing_of anchor.now)) cells.now)) }
    {
        let places = self.places_of(alloc, cells)?;
        let fixed = self.fixed(anchor);
        let carriers = self.carriers.as_slice();
        let list = places.as_slice();
        let mut images = all_carried(alloc, carriers, fixed, list)?;
        put_lists_in_order(&mut images);
        Ok(images.len())
    }

    /// Of the places of some cells those of the cells for which none of those that leave the cell where it is brings all to lesser ones.
    pub(crate) fn first_among(
        &self,
        alloc: Global,
        places: &[usize],
    ) -> Result<Vec<usize>, AllocError>
        requires { AreBelow (length self.now.puzzle.region) places.now }
        ensures { (cells : List Coordinates) → ArePlacesAmong self.now.puzzle.region cells places.now
            → ReturnsItems result (first_of_cells self.now cells) }
    {
        firsts(alloc, self.carriers.as_slice(), places)
    }

    /// The place of each of the cells.
    pub(crate) fn places_of(&self, alloc: Global, cells: &[Cell]) -> Result<Vec<usize>, AllocError>
        requires { (v : Coordinates) → IsIn v cells.now → IsIn v self.now.puzzle.region }
        ensures { ReturnsItems result (map (place_of self.now.puzzle.region) cells.now) }
    {
        let mut places = Vec::with_capacity(alloc, cells.len())?;
        for cell in cells {
            places.push(self.place_of(*cell))?;
        }
        Ok(places)
    }

    /// The group.
    pub fn group(&self) -> Group
        ensures { result ≡ self.now.group }
    {
        self.group
    }

    /// For each of the region's cells one more than how many of its cells come before it, at the place of the cell's bit, and 0 elsewhere.
    pub fn places(&self) -> &[u32]
        ensures { ArePlacesOf self.now.puzzle.region result.now }
    {
        self.places.as_slice()
    }

    /// For each of them the places to which it brings the region's cells.
    pub fn carriers(&self) -> &[Vec<usize>]
        ensures { AreCarriers self.now.group self.now.puzzle.region self.now.puzzle.maybe_cells (lists_of result.now) }
    {
        self.carriers.as_slice()
    }

    /// The puzzle.
    pub fn puzzle(&self) -> &'p Puzzle
        ensures { result.now ≡ self.now.puzzle }
    {
        self.puzzle
    }

    /// How many of the region's cells come before this one.
    pub fn place_of(&self, cell: Cell) -> usize
        requires { IsIn cell self.now.puzzle.region }
        ensures { result ≡ place_of self.now.puzzle.region cell }
    {
        self.places[bit_index(cell.x(), cell.y(), cell.z())] as usize - 1
    }

    /// The place that a move has to leave where it is.
    fn fixed(&self, anchor: &Anchor) -> Option<usize>
        requires { LiesInside self.now.puzzle (thing_of anchor.now) }
        ensures { result ≡ fixed_place self.now.puzzle.region (thing_of anchor.now) }
    {
        match anchor {
            Anchor::Piece(_) => None,
            Anchor::Cell(cell) => Some(self.place_of(*cell)),
        }
    }
}

/// Those of the places for which no carrier that leaves the place where it is brings all to lesser ones.
fn firsts(
    alloc: Global,
    carriers: &[Vec<usize>],
    places: &[usize],
) -> Result<Vec<usize>, AllocError>
    requires { (k : ℕ) → IsIn k places.now
        → HavePlaces (Some k) places.now (lists_of carriers.now) }
    ensures { ReturnsItems result
        (filter (λ k. is_least_by (Some k) places.now (lists_of carriers.now)) places.now) }
{
    let mut firsts = Vec::new(alloc);
    for place in places {
        if is_least(alloc, carriers, Some(*place), places)? {
            firsts.push(*place)?;
        }
    }
    Ok(firsts)
}

/// Whether no carrier that leaves this place where it is brings the places to lesser ones.
fn is_least(
    alloc: Global,
    carriers: &[Vec<usize>],
    fixed: Option<usize>,
    places: &[usize],
) -> Result<bool, AllocError>
    requires { HavePlaces fixed places.now (lists_of carriers.now) }
    ensures { Returns result (is_least_by fixed places.now (lists_of carriers.now)) }
{
    // One list for all: most carriers need none.
    let mut there = Vec::new(alloc);
    for carrier in carriers {
        if leaves(carrier.as_slice(), fixed) && lowers(&mut there, carrier.as_slice(), places)? {
            return Ok(false);
        }
    }
    Ok(true)
}

/// Whether a carrier leaves this place where it is.
fn leaves(carrier: &[usize], fixed: Option<usize>) -> bool
    requires { (k : ℕ) → fixed ≡ Some k → k < length carrier.now }
    ensures { result ≡ leaves_place fixed carrier.now }
{
    match fixed {
        None => true,
        Some(place) => carrier[place] == place,
    }
}

/// Whether a carrier brings the places, put in order, to lesser ones. Mostly the first ones tell.
fn lowers(there: &mut Vec<usize>, carrier: &[usize], places: &[usize]) -> Result<bool, AllocError>
    requires { AreBelow (length carrier.now) places.now }
    ensures { Returns result (lowers places.now carrier.now) }
{
    match first_cmp(carrier, places) {
        Ordering::Less => Ok(true),
        Ordering::Greater => Ok(false),
        Ordering::Equal => lowers_list(there, carrier, places),
    }
}

/// How the first of the places to which a carrier brings these, put in order, compares to the first of these.
fn first_cmp(carrier: &[usize], places: &[usize]) -> Ordering
    requires { AreBelow (length carrier.now) places.now }
    ensures { BeginsWith result (forms_cmp (in_order nat_cmp (carried carrier.now places.now)) places.now) }
{
    match places.first() {
        None => Ordering::Equal,
        Some(first) => least_image(carrier, places, *first).cmp(first),
    }
}

/// The least of the places to which a carrier brings these, of which `first` is one.
fn least_image(carrier: &[usize], places: &[usize], first: usize) -> usize
    requires first { IsIn first places.now }
    requires below { AreBelow (length carrier.now) places.now }
    ensures { IsLeastOf result (carried carrier.now places.now) }
{
    let mut least = carrier[first];
    for place in places {
        least = least.min(carrier[*place]);
    }
    least
}

/// The same by the whole list of places, which is made in `there`.
fn lowers_list(
    there: &mut Vec<usize>,
    carrier: &[usize],
    places: &[usize],
) -> Result<bool, AllocError>
    requires { AreBelow (length carrier.now) places.now }
    ensures { Returns result (lowers places.now carrier.now) }
{
    if stays(carrier, places) {
        return Ok(false);
    }
    there.clear();
    carry(there, carrier, places)?;
    put_in_order(there);
    Ok(there.as_slice().cmp(&places).is_lt())
}

/// Whether a carrier leaves each of these places where it is, and they rise: so does the one that moves nothing.
fn stays(carrier: &[usize], places: &[usize]) -> bool
    requires { AreBelow (length carrier.now) places.now }
    ensures { IsTrue result → lowers places.now carrier.now ≡ false }
{
    let mut next = 0;
    for place in places {
        if carrier[*place] != *place || *place < next {
            return false;
        }
        next = *place + 1;
    }
    true
}

/// Where a carrier brings the places, in the same order.
fn carried(alloc: Global, carrier: &[usize], places: &[usize]) -> Result<Vec<usize>, AllocError>
    requires { AreBelow (length carrier.now) places.now }
    ensures { ReturnsItems result (carried carrier.now places.now) }
{
    let mut there = Vec::with_capacity(alloc, places.len())?;
    carry(&mut there, carrier, places)?;
    Ok(there)
}

/// Adds where a carrier brings the places, in the same order.
fn carry(there: &mut Vec<usize>, carrier: &[usize], places: &[usize]) -> Result<(), AllocError>
    requires { AreBelow (length carrier.now) places.now }
    ensures { OnOk result (there.new.items ≡ there.old.items ++ carried carrier.now places.now) }
{
    for place in places {
        there.push(carrier[*place])?;
    }
    Ok(())
}

/// Puts places in order, each once.
fn put_in_order(places: &mut Vec<usize>)
    ensures { places.new.items ≡ in_order nat_cmp places.old.items }
{
    places.sort_unstable();
    places.dedup();
}

/// Where each carrier that leaves this place where it is brings the places, in order.
fn all_carried(
    alloc: Global,
    carriers: &[Vec<usize>],
    fixed: Option<usize>,
    places: &[usize],
) -> Result<Vec<Vec<usize>>, AllocError>
    requires { HavePlaces fixed places.now (lists_of carriers.now) }
    ensures { ReturnsLists result (images_at fixed places.now (lists_of carriers.now)) }
{
    let mut images = Vec::new(alloc);
    for carrier in carriers {
        add_carried(alloc, &mut images, carrier.as_slice(), fixed, places)?;
    }
    Ok(images)
}

/// Adds where the carrier brings the places, in order, if it leaves this place where it is.
fn add_carried(
    alloc: Global,
    images: &mut Vec<Vec<usize>>,
    carrier: &[usize],
    fixed: Option<usize>,
    places: &[usize],
) -> Result<(), AllocError>
    requires { HavePlaces fixed places.now (carrier.now ∷ []) }
    ensures { AddsLists result images.old images.new (images_at fixed places.now (carrier.now ∷ [])) }
{
    if !leaves(carrier, fixed) {
        return Ok(());
    }
    let mut there = carried(alloc, carrier, places)?;
    put_in_order(&mut there);
    images.push(there)?;
    Ok(())
}

/// Puts lists in order, each once.
fn put_lists_in_order(lists: &mut Vec<Vec<usize>>)
    ensures { lists_of lists.new.items ≡ in_order forms_cmp (lists_of lists.old.items) }
{
    lists.sort_unstable();
    lists.dedup();
}
