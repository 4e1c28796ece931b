//! The run of a problem, whole or up to a visit, and its report.
ghost use Rattle.std.specs.Prelude.{false, IfOk, IfErr};
ghost use Rattle.x_steps.specs.StateView.{state_value, IsState};
ghost use Rattle.x_branches.specs.RunOrder.{ComesBefore};
ghost use Rattle.polylab_engine.specs.Stretch.{stretch_report};
ghost use Rattle.polylab_engine.specs.First.{IsFirstReport};
ghost use Rattle.polylab_engine.specs.Output.{whole_report};
ghost use Rattle.debug_script.specs.Refusals.{MayRefuse, IsWantOrPool};
ghost use Rattle.shared_words.specs.Answers.{Returns};

use crate::report::Report;
use crate::searcher::{Searcher, first_state, last_state};
use crate::stretch::{Bounds, search_on};
use crate::tables::{TableKind, table_for};
use crate::visits::Visits;
use crate::workers::Team;
use cover_bits::BitTable;
use cover_counts::count_between;
use cover_links::LinkTable;
use cover_problem::{Lists, Problem, Table};
use debug_script::JobFault;
use lab_pool::{Gate, run_pool};
use std::alloc::{AllocError, Global};
use std::sync::Wait;
use std::thread::Threads;
use x_steps::State;

/// The report of one worker, who takes a search through the run.
pub fn search_alone<V: Visits>(
    alloc: Global,
    problem: &Problem,
    table: Option<TableKind>,
    keeps: bool,
) -> Result<Report<V>, AllocError>
    ensures { Returns result (whole_report keeps problem.now) }
{
    let searcher = Searcher::new(alloc, problem, table)?;
    let bounds = Bounds {
        end: &[],
        most: None,
        first: None,
        keeps,
    };
    let (report, _) = search_on::<V>(alloc, searcher, bounds)?;
    Ok(report)
}

/// The report of one worker who searches what lies below a set of covered items once, as long as it is kept, in `room` bytes at most. It
/// keeps no visit.
pub fn count_alone(
    alloc: Global,
    problem: &Problem,
    table: Option<TableKind>,
    room: usize,
) -> Result<Report<Lists>, AllocError>
    ensures { Returns result (whole_report false problem.now) }
{
    count_stretch(
        alloc,
        problem,
        table,
        &first_state(alloc),
        &last_state(alloc),
        room,
    )
}

/// The same of the stretch from a state of the run up to another one, which doesn't come before it.
pub fn count_stretch(
    alloc: Global,
    problem: &Problem,
    table: Option<TableKind>,
    from: &State,
    to: &State,
    room: usize,
) -> Result<Report<Lists>, AllocError>
    requires from { IsState problem.now from.now }
    requires to { IsState problem.now to.now }
    requires not_past { ComesBefore problem.now (state_value to.now) (state_value from.now) → ⊥ }
    ensures { Returns result (stretch_report false problem.now (state_value from.now) (state_value to.now)) }
{
    match table_for(alloc, problem, 1, table) {
        Some(TableKind::Links) => count_by::<LinkTable>(alloc, problem, from, to, room),
        Some(TableKind::Bits) => count_by::<BitTable>(alloc, problem, from, to, room),
        None => Err(AllocError),
    }
}

/// The same by tables of this kind.
fn count_by<T: Table>(
    alloc: Global,
    problem: &Problem,
    from: &State,
    to: &State,
    room: usize,
) -> Result<Report<Lists>, AllocError>
    requires from { IsState problem.now from.now }
    requires to { IsState problem.now to.now }
    requires not_past { ComesBefore problem.now (state_value to.now) (state_value from.now) → ⊥ }
    ensures { Returns result (stretch_report false problem.now (state_value from.now) (state_value to.now)) }
{
    let counts = count_between::<T>(alloc, problem, from, to, room)?;
    Ok(Report::of_counts(alloc, counts))
}

/// The report of one worker up to the visit of this number, or of the whole run where it has fewer. It keeps the visits, and takes no
/// step after the last of them.
pub fn search_first<V: Visits>(
    alloc: Global,
    problem: &Problem,
    table: Option<TableKind>,
    first: u64,
) -> Result<Report<V>, AllocError>
    ensures { IfOk result (IsFirstReport first problem.now) }
{
    let searcher = Searcher::new(alloc, problem, table)?;
    let bounds = Bounds {
        end: &[],
        most: None,
        first: Some(first),
        keeps: true,
    };
    let (report, _) = search_on::<V>(alloc, searcher, bounds)?;
    Ok(report)
}

/// The report of workers who share a book of the run.
pub fn search_together<R: Threads + Wait + Sync, G: Gate>(
    alloc: Global,
    crew: &Team<'_, R, G>,
    problem: &Problem,
    keeps: bool,
) -> Result<Report<Lists>, JobFault>
    ensures report { Returns result (whole_report keeps problem.now) }
    ensures why { IfErr result (IsWantOrPool (MayRefuse crew.now.count)) }
{
    // Each worker has a table of its own, so that the room for bit sets is asked for all of them.
    match table_for(alloc, problem, crew.count, crew.table) {
        Some(TableKind::Links) => share_by::<LinkTable, R, G>(alloc, crew, problem, keeps),
        Some(TableKind::Bits) => share_by::<BitTable, R, G>(alloc, crew, problem, keeps),
        None => Err(JobFault::OutOfMemory),
    }
}

/// The same by tables of this kind.
fn share_by<T: Table + Send + Sync, R: Threads + Wait + Sync, G: Gate>(
    alloc: Global,
    crew: &Team<'_, R, G>,
    problem: &Problem,
    keeps: bool,
) -> Result<Report<Lists>, JobFault>
    ensures report { Returns result (whole_report keeps problem.now) }
    ensures why { IfErr result (IsWantOrPool (MayRefuse crew.now.count)) }
{
    match run_pool::<T, R, G>(crew.rt, alloc, problem, crew.count, crew.gate) {
        Ok(book) => Ok(Report::of_book(alloc, &book, keeps)?),
        // The book comes back with the fault. A job writes all or nothing, so what was searched is let go.
        Err(refused) => Err(JobFault::from(refused.fault)),
    }
}
