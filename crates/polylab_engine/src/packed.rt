//! What `solve`, `count` and `options` write.
ghost use Rattle.debug_script.specs.Refusals.{IsWantOrPool};
ghost use Rattle.std.specs.Prelude.{◌<◌, IfErr};
ghost use Rattle.polylab_engine.specs.Packed.{solve_output, count_output, count_text, options_output};
ghost use Rattle.polylab_engine.specs.First.{packings_end, first_packings_output};
ghost use Rattle.text_lines.specs.Writing.{line_text};
ghost use Rattle.shared_words.specs.Answers.{ReturnsItems, Adds};

use crate::numbers::write_natural_line;
use crate::report::Report;
use crate::search::search_first;
use crate::tables::TableKind;
use crate::workers::Workers;
use cover_counts::Natural;
use cover_problem::{Lists, write_cover};
use debug_script::JobFault;
use poly_place::{Compiled, write_packings};
use std::alloc::{AllocError, Global};
use text_lines::write_number_line;

/// The packings of the puzzle in path order, each with its layers, and then their number.
#[tactic(auto, unfolding(crate::specs::Packed::solve_output))]
pub fn solve<W: Workers>(
    alloc: Global,
    workers: &W,
    compiled: &Compiled<'_>,
) -> Result<Vec<u8>, JobFault>
    requires { W.ready workers.now }
    ensures text { ReturnsItems result (solve_output compiled.now) }
    ensures why { IfErr result (IsWantOrPool (W.refuses workers.now)) }
{
    let problem = compiled.problem();
    problem.is_sound();
    let report = workers.search(alloc, problem, true)?;
    // The number comes last, as in each text here: a reader of the packings needs no second pass.
    let mut text = Vec::new(alloc);
    write_packings(alloc, &mut text, compiled, report.visits())?;
    write_natural_line(alloc, &mut text, "packings", report.visited())?;
    Ok(text)
}

/// The first packings of the puzzle in path order, each with its layers, and the line `first N` where the search stopped there; or what
/// `solve` writes, where there are fewer.
pub fn first_packings(
    alloc: Global,
    compiled: &Compiled<'_>,
    table: Option<TableKind>,
    first: u64,
) -> Result<Vec<u8>, AllocError>
    ensures { ReturnsItems result (first_packings_output first compiled.now) }
{
    let problem = compiled.problem();
    problem.is_sound();
    let report = search_first(alloc, problem, table, first)?;
    let mut text = Vec::new(alloc);
    write_packings(alloc, &mut text, compiled, report.visits())?;
    push_end(alloc, &mut text, report.visited(), first)?;
    Ok(text)
}

/// Adds the line of the number of packings where there are fewer than were asked for, or else the line that tells how many these are.
fn push_end(
    alloc: Global,
    text: &mut Vec<u8>,
    packings: &Natural,
    first: u64,
) -> Result<(), AllocError>
    ensures { Adds result text.old text.new (line_text (packings_end first packings.now)) }
{
    // With as many as were asked for the search didn't go on to see whether there are more, so it can't tell their number.
    if packings.is_below(first) {
        write_natural_line(alloc, text, "packings", packings)
    } else {
        write_number_line(text, "first", u128::from(first))
    }
}

/// The number of packings and of options, and the steps and the levels of the search.
#[tactic(auto, unfolding(crate::specs::Packed::count_output))]
pub fn count<W: Workers>(
    alloc: Global,
    workers: &W,
    compiled: &Compiled<'_>,
) -> Result<Vec<u8>, JobFault>
    requires { W.ready workers.now }
    ensures text { ReturnsItems result (count_output compiled.now) }
    ensures why { IfErr result (IsWantOrPool (W.refuses workers.now)) }
{
    let report = workers.search(alloc, compiled.problem(), false)?;
    Ok(count_text(alloc, compiled, &report)?)
}

/// The number of packings and of options, and the steps and the levels, of the report of a search.
pub fn count_text(
    alloc: Global,
    compiled: &Compiled<'_>,
    report: &Report<Lists>,
) -> Result<Vec<u8>, AllocError>
    ensures { ReturnsItems result (count_text compiled.now report.now) }
{
    let options = compiled.problem().options();
    let mut text = Vec::new(alloc);
    write_natural_line(alloc, &mut text, "packings", report.visited())?;
    write_number_line(&mut text, "options", u128::from(options))?;
    report.push_steps(alloc, &mut text)?;
    Ok(text)
}

/// The cover text whose exact covers are the packings.
#[tactic(auto, unfolding(crate::specs::Packed::options_output))]
pub fn options(alloc: Global, compiled: &Compiled<'_>) -> Result<Vec<u8>, AllocError>
    ensures { ReturnsItems result (options_output compiled.now) }
{
    write_cover(alloc, compiled.problem())
}
