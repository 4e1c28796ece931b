//! Packings as a list of text.
ghost use Rattle.shared_words.specs.Lists.{has};
ghost use Rattle.cover_problem.specs.ExactCover.{IsExactCover};
ghost use Rattle.shared_words.specs.Answers.{Adds};
ghost use Rattle.poly_place.specs.Packings.{packing_problem};
ghost use Rattle.poly_place.specs.Listing.{packing_text, packings_from, AreExactCovers};

use crate::compiled::Compiled;
use crate::layer::layers;
use crate::packing::packing_of;
use cover_problem::Lists;
use std::alloc::{AllocError, Global};
use text_lines::write_number_line;

/// Adds the packings for which these exact covers stand, numbered from 1.
pub fn write_packings(
    alloc: Global,
    text: &mut Vec<u8>,
    compiled: &Compiled<'_>,
    paths: &Lists,
) -> Result<(), AllocError>
    requires { AreExactCovers (packing_problem compiled.now) paths.now }
    ensures { Adds result text.old text.new (packings_from compiled.now 1 paths.now) }
{
    // Each packing is let go when it is written: in memory stand the paths alone, and the text.
    for k in 0..paths.len() {
        write_packing(alloc, text, compiled, k as u128 + 1, paths.list(k))?;
    }
    Ok(())
}

/// Adds a packing: a line with its number, and its layers.
fn write_packing(
    alloc: Global,
    text: &mut Vec<u8>,
    compiled: &Compiled<'_>,
    number: u128,
    path: &[u32],
) -> Result<(), AllocError>
    requires { IsExactCover (packing_problem compiled.now) (has path.now) }
    ensures { Adds result text.old text.new (packing_text compiled.now number path.now) }
{
    write_number_line(text, "packing", number)?;
    let packing = packing_of(alloc, compiled, path)?;
    let shown = layers(alloc, &packing)?;
    text.extend_from_slice(shown.as_bytes())
}
