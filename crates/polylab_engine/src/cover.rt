//! What `cover` writes, with `--first` or `--count` and without.
ghost use Rattle.std.specs.Prelude.{◌++◌, map, IfErr};
ghost use Rattle.debug_script.specs.Refusals.{IsWantOrPool};
ghost use Rattle.polylab_engine.specs.First.{cover_end, first_cover_output};
ghost use Rattle.polylab_engine.specs.Output.{cover_output, cover_count_output, report_text};
ghost use Rattle.text_lines.specs.Writing.{text_of};
ghost use Rattle.x_texts.specs.Words.{visit_words};
ghost use Rattle.text_lines.specs.Writes.{AddsLines};
ghost use Rattle.shared_words.specs.Answers.{ReturnsItems};

use crate::report::Report;
use crate::search::search_first;
use crate::tables::TableKind;
use crate::workers::Workers;
use cover_problem::Problem;
use debug_script::JobFault;
use std::alloc::{AllocError, Global};
use text_lines::write_number_line;
use x_texts::VisitText;

/// The exact covers of the problem in path order, and then their number, the steps and the levels.
#[tactic(auto, unfolding(crate::specs::Output::cover_output))]
pub fn covers<W: Workers>(
    alloc: Global,
    workers: &W,
    problem: &Problem,
) -> Result<Vec<u8>, JobFault>
    requires { W.ready workers.now }
    ensures text { ReturnsItems result (cover_output problem.now) }
    ensures why { IfErr result (IsWantOrPool (W.refuses workers.now)) }
{
    let report = workers.list(alloc, problem)?;
    Ok(report_text(alloc, report)?)
}

/// The number of exact covers of the problem, the steps and the levels. No cover is kept.
#[tactic(auto, unfolding(crate::specs::Output::cover_count_output))]
pub fn count_covers<W: Workers>(
    alloc: Global,
    workers: &W,
    problem: &Problem,
) -> Result<Vec<u8>, JobFault>
    requires { W.ready workers.now }
    ensures text { ReturnsItems result (cover_count_output problem.now) }
    ensures why { IfErr result (IsWantOrPool (W.refuses workers.now)) }
{
    let report = workers.search(alloc, problem, false)?;
    let mut text = Vec::new(alloc);
    report.push_totals(alloc, &mut text)?;
    Ok(text)
}

/// The visits that a report keeps, and then the number of all visits, the steps and the levels.
pub fn report_text(alloc: Global, report: Report<VisitText>) -> Result<Vec<u8>, AllocError>
    ensures { ReturnsItems result (report_text report) }
{
    let mut totals = Vec::new(alloc);
    report.push_totals(alloc, &mut totals)?;
    visits_and(report, &totals)
}

/// The visits that a report keeps, and then what is written behind them.
fn visits_and(report: Report<VisitText>, rest: &[u8]) -> Result<Vec<u8>, AllocError>
    ensures { ReturnsItems result (text_of (map visit_words report.visits) ++ rest.now) }
{
    // Their text is there already: a second one would take as much memory again.
    let mut text = report.into_text();
    text.extend_from_slice(rest)?;
    Ok(text)
}

/// The first exact covers of the problem in path order, and the line `first N` where the search stopped there; or what `covers` writes,
/// where there are fewer.
pub fn first_covers(
    alloc: Global,
    problem: &Problem,
    table: Option<TableKind>,
    first: u64,
) -> Result<Vec<u8>, AllocError>
    ensures { ReturnsItems result (first_cover_output first problem.now) }
{
    let report = search_first(alloc, problem, table, first)?;
    let mut end = Vec::new(alloc);
    push_end(alloc, &mut end, &report, first)?;
    visits_and(report, &end)
}

/// Adds the totals of a report that has fewer visits than were asked for, or else the line that tells how many these are.
fn push_end(
    alloc: Global,
    text: &mut Vec<u8>,
    report: &Report<VisitText>,
    first: u64,
) -> Result<(), AllocError>
    ensures { AddsLines result text.old text.new (cover_end first report.now) }
{
    if report.visited().is_below(first) {
        report.push_totals(alloc, text)
    } else {
        write_number_line(text, "first", u128::from(first))
    }
}
