//! Which breakpoints a snapshot can have.
ghost use Rattle.std.specs.Prelude.{◌≡◌, true, OnOk, IfErr};
ghost use Rattle.std.specs.List.{list_all};
ghost use Rattle.cover_problem.specs.Problem.{is_item};
ghost use Rattle.x_texts.specs.Breaks as spec;
ghost use Rattle.x_texts.specs.Breaks.{are_breaks};
ghost use Rattle.x_snapshot.specs.Refusals.{IsBreakRefused};

use crate::fault::SnapshotFault;
use cover_problem::Problem;
use indexmap::IndexSet;
use std::alloc::Global;
use x_texts::Break;

/// Whether a number is one of so many, counted from 1.
fn is_one_of(number: u32, count: u32) -> bool
    ensures { result ≡ is_item count number }
{
    0 < number && number <= count
}

/// Whether the breakpoint can be met in a search of the problem.
fn is_break(problem: &Problem, breakpoint: Break) -> bool
    ensures { result ≡ spec.is_break problem.now breakpoint }
{
    match breakpoint {
        // Each choice covers an item at least, so no path is longer than there are items.
        Break::Level(level) => level <= problem.items(),
        Break::Option(option) => is_one_of(option, problem.options()),
        Break::Item(item) => is_one_of(item, problem.items()),
        Break::Visit => true,
    }
}

/// Whether each breakpoint can be met in a search of the problem.
fn can_be_met(problem: &Problem, breaks: &[Break]) -> bool
    ensures { result ≡ list_all (spec.is_break problem.now) breaks.now }
{
    breaks
        .iter()
        .all(|breakpoint| is_break(problem, *breakpoint))
}

/// Whether these can be the breakpoints of a snapshot of the problem: each can be met, and none comes twice.
pub fn check_breaks(alloc: Global, problem: &Problem, breaks: &[Break]) -> Result<(), SnapshotFault>
    ensures breaks { OnOk result (are_breaks problem.now breaks.now ≡ true) }
    ensures refused { IfErr result (λ fault. IsBreakRefused problem.now breaks.now fault) }
{
    if !can_be_met(problem, breaks) {
        return Err(SnapshotFault::BadBreak);
    }
    // Found by their hash: each is compared with all before it in one step.
    let mut seen = IndexSet::new(alloc);
    for breakpoint in breaks {
        if !seen.insert(*breakpoint)? {
            return Err(SnapshotFault::BadBreak);
        }
    }
    Ok(())
}
