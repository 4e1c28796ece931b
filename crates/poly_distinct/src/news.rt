//! Packings that are like none before them.
ghost use Rattle.std.specs.Prelude.{◌≡◌, IsTrue, length};
ghost use Rattle.shared_words.specs.Lists.{has};
ghost use Rattle.poly_cells.specs.Shapes.{IsShape};
ghost use Rattle.cover_problem.specs.ExactCover.{IsExactCover};
ghost use Rattle.shared_words.specs.Answers.{Returns, ReturnsItems};
ghost use Rattle.poly_place.specs.Lists.{lists_of};
ghost use Rattle.poly_place.specs.Packings.{packing_problem};
ghost use Rattle.poly_place.specs.Chosen.{packing_value};
ghost use Rattle.poly_place.specs.Compiled.{ArePlacesOf};
ghost use Rattle.poly_place.specs.Forms.{key_of};
ghost use Rattle.poly_place.specs.Listing.{AreExactCovers};
ghost use Rattle.poly_distinct.specs.Distinct.{distinct_paths};
ghost use Rattle.poly_distinct.specs.Form.{EachIsMove};

use crate::form::least_form;
use crate::moves::Moves;
use cover_problem::Lists;
use poly_cells::Cell;
use poly_place::{Compiled, Group, packing_key, packing_of};
use std::alloc::{AllocError, Global};
use std::collections::BTreeSet;

/// Those of the paths whose packings are like none of those before them.
pub fn distinct_paths(
    alloc: Global,
    compiled: &Compiled<'_>,
    paths: &Lists,
    group: Group,
) -> Result<Lists, AllocError>
    requires { AreExactCovers (packing_problem compiled.now) paths.now }
    ensures { Returns result (distinct_paths compiled.now group paths.now) }
{
    let moves = Moves::of(alloc, compiled, group)?;
    distinct_by(alloc, compiled, paths, &moves)
}

/// The same by these moves, if they are those of the group.
pub fn distinct_with(
    alloc: Global,
    compiled: &Compiled<'_>,
    paths: &Lists,
    group: Group,
    moves: &Moves<'_>,
) -> Result<Lists, AllocError>
    requires covers { AreExactCovers (packing_problem compiled.now) paths.now }
    requires moves { moves.now.puzzle ≡ compiled.now }
    ensures { Returns result (distinct_paths compiled.now group paths.now) }
{
    if !are_one(moves.group(), group) {
        return distinct_paths(alloc, compiled, paths, group);
    }
    distinct_by(alloc, compiled, paths, moves)
}

/// Whether two groups are the same.
fn are_one(group: Group, other: Group) -> bool
    ensures { IsTrue result → group ≡ other }
{
    match group {
        Group::Rotations => matches!(other, Group::Rotations),
        Group::Symmetries => matches!(other, Group::Symmetries),
    }
}

/// The same by moves of the puzzle.
fn distinct_by(
    alloc: Global,
    compiled: &Compiled<'_>,
    paths: &Lists,
    moves: &Moves<'_>,
) -> Result<Lists, AllocError>
    requires covers { AreExactCovers (packing_problem compiled.now) paths.now }
    requires moves { moves.now.puzzle ≡ compiled.now }
    ensures { Returns result (distinct_paths compiled.now moves.now.group paths.now) }
{
    let _sound = compiled.choices();
    let region = compiled.region();
    let cells = region.cells();
    let places = moves.places();
    let list = moves.carriers();
    let mut keys: BTreeSet<Vec<usize>> = BTreeSet::new(alloc);
    let mut news = Lists::new(alloc);
    for k in 0..paths.len() {
        let key = key(alloc, compiled, cells, places, list, paths.list(k))?;
        if keys.insert(key)? {
            news.push(paths.list(k))?;
        }
    }
    Ok(news)
}

/// The least form of the packing for which a path stands.
fn key(
    alloc: Global,
    compiled: &Compiled<'_>,
    cells: &[Cell],
    places: &[u32],
    carriers: &[Vec<usize>],
    path: &[u32],
) -> Result<Vec<usize>, AllocError>
    requires cover { IsExactCover (packing_problem compiled.now) (has path.now) }
    requires shape { IsShape cells.now }
    requires places { ArePlacesOf cells.now places.now }
    requires carriers { EachIsMove (length cells.now) (lists_of carriers.now) }
    ensures { ReturnsItems result
        (key_of cells.now (lists_of carriers.now) (packing_value compiled.now path.now)) }
{
    let packing = packing_of(alloc, compiled, path)?;
    // Its form as it lies tells what symmetries make of it.
    let form = packing_key(alloc, cells, places, &[], &packing)?;
    least_form(alloc, form.as_slice(), carriers)
}
