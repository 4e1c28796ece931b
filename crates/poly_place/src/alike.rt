//! Classes of packings: how many there are where those that a symmetry carries onto one another count as one.
ghost use Rattle.std.specs.Prelude.{◌≡◌, IfOk};
ghost use Rattle.shared_words.specs.Answers.{Returns};
ghost use Rattle.poly_place.specs.Lists.{lists_of};
ghost use Rattle.poly_place.specs.Classes.{AreAlike, HaveOneRegion, IsClassCount, is_member};
ghost use Rattle.poly_place.specs.ClassCount.{are_alike, class_count};
ghost use Rattle.poly_place.specs.Forms.{AreCarriers};

use crate::forms::{all_keys, put_keys_in_order};
use crate::images::{images_in, keeps_marks, marks, places_of};
use crate::packing::Packing;
use poly_cells::{Cell, Shape, Symmetry, symmetries_of};
use std::alloc::{AllocError, Global};

/// Which symmetries count.
#[derive(Clone, Copy, Debug, PartialEq, Eq)]
pub enum Group {
    /// Those that a solid body can be turned by.
    Rotations,
    /// The reflections too.
    Symmetries,
}

/// How many of the packings are like none of those before them: none that a symmetry of the group carries onto them, with the
/// translation that brings the region onto itself, whatever the names of the pieces.
pub fn classes(alloc: Global, packings: &[Packing<'_>], group: Group) -> Result<u64, AllocError>
    requires { HaveOneRegion packings.now }
    ensures value { Returns result (class_count (are_alike group) packings.now) }
    ensures counts { IfOk result (λ n. IsClassCount (AreAlike group) packings.now n) }
{
    let Some(first) = packings.first() else {
        return Ok(0);
    };
    let region = first.region();
    let carriers = carriers(alloc, region, first.maybe_cells(), group)?;
    let mut keys = all_keys(alloc, region.cells(), packings, carriers.as_slice())?;
    put_keys_in_order(&mut keys);
    Ok(keys.len() as u64)
}

/// For each symmetry of the group that keeps the region and its optional cells the places to which it brings the region's cells.
pub fn carriers(
    alloc: Global,
    region: &Shape,
    maybe: &[Cell],
    group: Group,
) -> Result<Vec<Vec<usize>>, AllocError>
    ensures { IfOk result (λ gs. AreCarriers group region.now maybe.now (lists_of gs.items)) }
{
    let cells = region.cells();
    let marks = marks(alloc, maybe, cells)?;
    let symmetries = symmetries_of(alloc, region)?;
    let mut carriers = Vec::new(alloc);
    for symmetry in symmetries.as_slice() {
        if is_member(group, *symmetry) {
            let images = images_in(alloc, cells, *symmetry)?;
            if keeps_marks(alloc, maybe, marks.as_slice(), images.as_slice())? {
                carriers.push(places_of(alloc, cells, images.as_slice())?)?;
            }
        }
    }
    Ok(carriers)
}

/// Whether the group has the symmetry.
fn is_member(group: Group, symmetry: Symmetry) -> bool
    ensures { result ≡ is_member group symmetry }
{
    match group {
        Group::Rotations => symmetry.is_rotation(),
        Group::Symmetries => true,
    }
}
