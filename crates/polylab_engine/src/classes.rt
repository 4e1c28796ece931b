//! What `count --classes` writes.
ghost use Rattle.std.specs.Prelude.{IfErr};
ghost use Rattle.debug_script.specs.Refusals.{IsWantOrPool};
ghost use Rattle.poly_place.specs.Packings.{packing_problem};
ghost use Rattle.polylab_engine.specs.Classified.{packings_of, classes_output, lines_of_classes};
ghost use Rattle.poly_place.specs.Listing.{AreExactCovers};
ghost use Rattle.text_lines.specs.Writes.{AddsLines};
ghost use Rattle.shared_words.specs.Answers.{ReturnsItems};

use crate::packed::count_text;
use crate::workers::Workers;
use cover_problem::Lists;
use debug_script::JobFault;
use poly_place::{Compiled, Group, Packing, classes, packing_of};
use std::alloc::{AllocError, Global};
use text_lines::write_number_line;

/// What `count` writes, and then how many classes the packings make, by the rotations and by all symmetries of the region.
#[tactic(auto, unfolding(crate::specs::Classified::classes_output))]
pub fn count_classes<W: Workers>(
    alloc: Global,
    workers: &W,
    compiled: &Compiled<'_>,
) -> Result<Vec<u8>, JobFault>
    requires { W.ready workers.now }
    ensures text { ReturnsItems result (classes_output compiled.now) }
    ensures why { IfErr result (IsWantOrPool (W.refuses workers.now)) }
{
    let problem = compiled.problem();
    problem.is_sound();
    let report = workers.search(alloc, problem, true)?;
    let mut text = count_text(alloc, compiled, &report)?;
    push_classes(alloc, &mut text, compiled, report.visits())?;
    Ok(text)
}

/// Adds the lines of the classes of the packings for which these exact covers stand.
fn push_classes(
    alloc: Global,
    text: &mut Vec<u8>,
    compiled: &Compiled<'_>,
    visits: &Lists,
) -> Result<(), AllocError>
    requires { AreExactCovers (packing_problem compiled.now) visits.now }
    ensures { AddsLines result text.old text.new (lines_of_classes compiled.now visits.now) }
{
    // Two packings may be of one class however far apart they were found, so they all stand in memory.
    let packings = packings_of(alloc, compiled, visits)?;
    let rotations = classes(alloc, packings.as_slice(), Group::Rotations)?;
    let symmetries = classes(alloc, packings.as_slice(), Group::Symmetries)?;
    write_number_line(text, "rotations", u128::from(rotations))?;
    write_number_line(text, "symmetries", u128::from(symmetries))
}

/// The packings for which these exact covers stand.
fn packings_of<'p>(
    alloc: Global,
    compiled: &Compiled<'p>,
    visits: &Lists,
) -> Result<Vec<Packing<'p>>, AllocError>
    requires { AreExactCovers (packing_problem compiled.now) visits.now }
    ensures { ReturnsItems result (packings_of compiled.now visits.now) }
{
    let mut packings = Vec::with_capacity(alloc, visits.len())?;
    for k in 0..visits.len() {
        packings.push(packing_of(alloc, compiled, visits.list(k))?)?;
    }
    Ok(packings)
}
