//! Forms of packings: their parts as lists of numbers, the least of which is the same for packings that are alike. Each form is made in
//! one pass over the cells of the region.
ghost use Rattle.std.specs.Prelude.{◌≡◌, ◌+◌, ◌≤◌, ◌<◌, IfOk, length, map, replicate};
ghost use Rattle.poly_cells.specs.Coordinates.{Coordinates, IsInGrid};
ghost use Rattle.poly_cells.specs.Sets.{in_order};
ghost use Rattle.poly_cells.specs.Shapes.{IsShape};
ghost use Rattle.shared_words.specs.Answers.{ReturnsItems};
ghost use Rattle.poly_place.specs.Lists.{lists_of};
ghost use Rattle.poly_place.specs.Answers.{ReturnsLists};
ghost use Rattle.poly_place.specs.Tables.{grid_cells};
ghost use Rattle.poly_place.specs.Compiled.{item_number_at, ArePlacesOf};
ghost use Rattle.poly_place.specs.Forms.{carried, first_form, forms_cmp, key_of, least_form, parts_in, AreBelow, AllAreBelow};
ghost use Rattle.poly_place.specs.FormTables.{AreFirsts, PaintsParts};

use crate::choice::Choice;
use crate::items::region_places;
use crate::packing::Packing;
use crate::table::bit_index;
use poly_cells::Cell;
use std::alloc::{AllocError, Global};

/// The least form of each of the packings.
pub fn all_keys(
    alloc: Global,
    region: &[Cell],
    packings: &[Packing<'_>],
    carriers: &[Vec<usize>],
) -> Result<Vec<Vec<usize>>, AllocError>
    requires shape { IsShape region.now }
    requires carriers { AllAreBelow (length region.now) (lists_of carriers.now) }
    ensures { ReturnsLists result (map (key_of region.now (lists_of carriers.now)) packings.now) }
{
    let table = region_places(alloc, region)?;
    let places = table.as_slice();
    let mut keys = Vec::with_capacity(alloc, packings.len())?;
    for packing in packings {
        keys.push(packing_key(alloc, region, places, carriers, packing)?)?;
    }
    Ok(keys)
}

/// The least form of a packing, by the table of the places of the region's cells (`region_places`) and where symmetries carry these places
/// (`carriers`).
pub fn packing_key(
    alloc: Global,
    region: &[Cell],
    places: &[u32],
    carriers: &[Vec<usize>],
    packing: &Packing<'_>,
) -> Result<Vec<usize>, AllocError>
    requires shape { IsShape region.now }
    requires places { ArePlacesOf region.now places.now }
    requires carriers { AllAreBelow (length region.now) (lists_of carriers.now) }
    ensures { ReturnsItems result (key_of region.now (lists_of carriers.now) packing.now) }
{
    let placements = packing.placements();
    let parts = parts_in(alloc, region, places, placements)?;
    least_form(alloc, parts.as_slice(), carriers, placements.len() + 1)
}

/// The part of each cell of the region.
fn parts_in(
    alloc: Global,
    region: &[Cell],
    places: &[u32],
    placements: &[Choice],
) -> Result<Vec<usize>, AllocError>
    requires shape { IsShape region.now }
    requires places { ArePlacesOf region.now places.now }
    ensures { ReturnsItems result (parts_in region.now placements.now) }
{
    let count = placements.len();
    let mut parts = zeros(alloc, region.len())?;
    for k in 0..count {
        // A cell that two have is of the first one's part, which is painted last.
        let choice = &placements[count - 1 - k];
        parts = paint_parts(places, parts, choice.cells(), k + 1);
    }
    Ok(parts)
}

/// A list of zeros.
fn zeros(alloc: Global, count: usize) -> Result<Vec<usize>, AllocError>
    ensures { ReturnsItems result (replicate count 0) }
{
    vec![in alloc; 0usize; count]
}

/// The parts after those of these cells that the region has became cells of a part.
fn paint_parts(places: &[u32], parts: Vec<usize>, cells: &[Cell], part: usize) -> Vec<usize>
    requires table { length places.now ≡ grid_cells }
    requires room { (v : Coordinates) → IsInGrid v → item_number_at places.now v ≤ length parts.items }
    ensures { PaintsParts places.now parts.items result.items cells.now part }
{
    let mut parts = parts;
    for cell in cells {
        let place = places[bit_index(cell.x(), cell.y(), cell.z())] as usize;
        if place > 0 {
            parts[place - 1] = part;
        }
    }
    parts
}

/// The least of the forms of these parts, each below `size`, carried in each way.
fn least_form(
    alloc: Global,
    parts: &[usize],
    carriers: &[Vec<usize>],
    size: usize,
) -> Result<Vec<usize>, AllocError>
    requires some { 0 < size }
    requires below { AreBelow size parts.now }
    requires carriers { AllAreBelow (length parts.now) (lists_of carriers.now) }
    ensures { ReturnsItems result (least_form parts.now (lists_of carriers.now)) }
{
    let mut best = first_form(alloc, parts, size)?;
    for carrier in carriers {
        let there = carried(alloc, parts, carrier.as_slice())?;
        let form = first_form(alloc, there.as_slice(), size)?;
        if form.cmp(&best).is_lt() {
            best = form;
        }
    }
    Ok(best)
}

/// The numbers at these places.
fn carried(alloc: Global, numbers: &[usize], places: &[usize]) -> Result<Vec<usize>, AllocError>
    requires { AreBelow (length numbers.now) places.now }
    ensures { ReturnsItems result (carried numbers.now places.now) }
{
    let mut there = Vec::with_capacity(alloc, places.len())?;
    for place in places {
        there.push(numbers[*place])?;
    }
    Ok(there)
}

/// For each number where it stands first, from 1 on, and 0 for 0.
fn first_form(alloc: Global, numbers: &[usize], size: usize) -> Result<Vec<usize>, AllocError>
    requires some { 0 < size }
    requires below { AreBelow size numbers.now }
    ensures { ReturnsItems result (first_form numbers.now) }
{
    let firsts = firsts(alloc, numbers, size)?;
    carried(alloc, firsts.as_slice(), numbers)
}

/// A table of where each number stands first, from 1 on, and 0 for 0.
fn firsts(alloc: Global, numbers: &[usize], size: usize) -> Result<Vec<usize>, AllocError>
    requires some { 0 < size }
    requires below { AreBelow size numbers.now }
    ensures { IfOk result (λ table. AreFirsts numbers.now size table.items) }
{
    let count = numbers.len();
    let mut table = zeros(alloc, size)?;
    for k in 0..count {
        // What is noted last is where a number stands first.
        let place = count - 1 - k;
        table[numbers[place]] = place + 1;
    }
    table[0] = 0;
    Ok(table)
}

/// Puts forms in order, each once.
pub fn put_keys_in_order(keys: &mut Vec<Vec<usize>>)
    ensures { lists_of keys.new.items ≡ in_order forms_cmp (lists_of keys.old.items) }
{
    keys.sort_unstable();
    keys.dedup();
}
