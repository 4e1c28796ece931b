//! Which table a search has.
ghost use Rattle.std.specs.Prelude.{None, Some};
ghost use Rattle.polylab_engine.specs.Tables.{IsTableFor};

use crate::searcher::{first_state, machine_at};
use crate::stretch::begun;
use cover_bits::has_room;
use cover_links::LinkTable;
use cover_problem::Problem;
use std::alloc::Global;
use table_probe::prefers_bits;

/// The tables that a search can have. What is found, and in which order, doesn't depend on it.
#[derive(Clone, Copy, Debug, PartialEq, Eq)]
pub enum TableKind {
    /// Dancing links.
    Links,
    /// Bit sets.
    Bits,
}

/// Whether a short search from the start of a problem's run prefers bit sets; not where there is no memory for it.
fn start_prefers_bits(alloc: Global, problem: &Problem) -> bool {
    match machine_at::<LinkTable>(alloc, problem, &first_state(alloc)) {
        Ok(machine) => {
            let mut machine = machine;
            prefers_bits(alloc, &mut machine)
        }
        Err(_) => false,
    }
}

/// Whether one worker goes on by bit sets after the first steps of a problem's run; not where there is no memory to tell.
fn goes_on_by_bits(alloc: Global, problem: &Problem) -> bool {
    match begun(alloc, problem) {
        Ok(searcher) => searcher.kind() == TableKind::Bits,
        Err(_) => false,
    }
}

/// The table that so many workers search a problem by where none is asked for.
fn preferred(alloc: Global, problem: &Problem, workers: u32) -> TableKind
    ensures { IsTableFor problem.now workers None (Some result) }
{
    // Where bits have no room there is nothing to ask. The first way down, which is all that a short search sees of a large problem, mostly
    // prefers links; workers, who aren't asked again, have one go ahead.
    if has_room(problem, workers)
        && (start_prefers_bits(alloc, problem) || workers > 1 && goes_on_by_bits(alloc, problem))
    {
        TableKind::Bits
    } else {
        TableKind::Links
    }
}

/// Bit sets, where those of so many workers have room.
fn bits_in_room(problem: &Problem, workers: u32) -> Option<TableKind>
    ensures { IsTableFor problem.now workers (Some TableKind.Bits) result }
{
    if has_room(problem, workers) {
        Some(TableKind::Bits)
    } else {
        None
    }
}

/// The table of a search by so many workers: the one that is asked for, or else the one that is preferred. None where bit sets are asked
/// for and would take more memory than they may.
pub fn table_for(
    alloc: Global,
    problem: &Problem,
    workers: u32,
    asked: Option<TableKind>,
) -> Option<TableKind>
    ensures { IsTableFor problem.now workers asked result }
{
    match asked {
        None => Some(preferred(alloc, problem, workers)),
        Some(TableKind::Bits) => bits_in_room(problem, workers),
        // Links are linear in the problem, which the reader has bounded.
        Some(TableKind::Links) => Some(TableKind::Links),
    }
}
