//! Whether parts make a snapshot, and which fault is the first where they don't.
ghost use Rattle.std.specs.Prelude.{◌≡◌, [], IfOk, IfErr, OnOk};
ghost use Rattle.x_steps.specs.StateView.{state_value};
ghost use Rattle.x_branches.specs.Runner.{runner_at};
ghost use Rattle.x_branches.specs.Refusals.{CanStart};
ghost use Rattle.x_snapshot.specs.Snapshot.{IsCutIfAny, choices_of};
ghost use Rattle.x_snapshot.specs.Snapshot.{AreOnRun, AreInside, MakeSnapshot, cut_if_any, runner_from};
ghost use Rattle.x_snapshot.specs.Refusals.{cut_fault_of, start_fault_of, IsCutRefused, IsStartRefused, AreRefused, MakeNone};
ghost use Rattle.shared_words.specs.Answers.{Returns};

use crate::breakpoint::check_breaks;
use crate::fault::SnapshotFault;
use cover_links::LinkTable;
use cover_problem::{Problem, Table};
use std::alloc::Global;
use x_branches::{Branch, Cut, CutFault, Runner, RunnerFault, StartFault};
use x_steps::{AtFault, State};
use x_texts::Break;

/// Why there is no cut.
fn cut_fault(fault: CutFault) -> SnapshotFault
    ensures { result ≡ cut_fault_of fault }
{
    match fault {
        // A path that no search takes has no option that is untried at its end.
        CutFault::NotUntried => SnapshotFault::NotOnRun,
        CutFault::OutOfMemory => SnapshotFault::OutOfMemory,
    }
}

/// Why no search can stand at a state of a branch.
fn start_fault(fault: StartFault) -> SnapshotFault
    ensures { result ≡ start_fault_of fault }
{
    match fault {
        StartFault::Steps(AtFault::NotAState) => SnapshotFault::NotOnRun,
        StartFault::Steps(AtFault::OutOfMemory) => SnapshotFault::OutOfMemory,
        StartFault::Runner(RunnerFault::OutsideBranch) => SnapshotFault::OutsideBranch,
        // The other faults are of calls, and a runner that isn't made yet has no call: what is left is want of memory.
        StartFault::Runner(_) => SnapshotFault::OutOfMemory,
    }
}

/// The cut of a path, if there is one, by a table with nothing covered, which comes back so.
fn cut_of<'p, T: Table>(
    alloc: Global,
    problem: &'p Problem,
    table: T,
    path: &Option<Vec<u32>>,
) -> Result<(T, Option<Cut<'p>>), SnapshotFault>
    requires same_problem { T.problem_value table ≡ problem.now }
    requires covered { T.covered_list table ≡ [] }
    ensures same_problem_back { IfOk result (λ made. T.problem_value made.0 ≡ problem.now) }
    ensures covered_back { IfOk result (λ made. T.covered_list made.0 ≡ []) }
    ensures made { IfOk result (λ made. made.1 ≡ cut_if_any problem.now (choices_of path.now)) }
    ensures cut { OnOk result (IsCutIfAny problem.now (choices_of path.now)) }
    ensures refused { IfErr result (λ fault. IsCutRefused problem.now (choices_of path.now) fault) }
{
    let Some(path) = path else {
        return Ok((table, None));
    };
    // The table comes back with nothing covered, so one serves both cuts and the runner. The cut keeps a copy of the path.
    let (table, made) = Cut::with_table(alloc, problem, table, path.clone()?);
    match made {
        Ok(cut) => Ok((table, Some(cut))),
        Err(refused) => Err(cut_fault(refused.fault)),
    }
}

/// The runner of a branch at a state.
fn start_at<'p, T: Table>(
    alloc: Global,
    problem: &'p Problem,
    table: T,
    branch: Branch<'p>,
    state: &State,
) -> Result<Runner<'p, T>, SnapshotFault>
    requires same_problem { T.problem_value table ≡ problem.now }
    requires covered { T.covered_list table ≡ [] }
    ensures runner { Returns result (runner_at problem.now branch.entry (state_value state.now)) }
    ensures can { OnOk result (CanStart problem.now branch.entry (state_value state.now)) }
    ensures refused { IfErr result (λ fault. IsStartRefused problem.now branch.entry (state_value state.now) fault) }
{
    match Runner::new(alloc, problem, table, branch, state) {
        Ok(runner) => Ok(runner),
        Err(refused) => Err(start_fault(refused.fault)),
    }
}

/// The runner at a state of the branch between two cuts, where cuts and state are on the run, and the state within the branch.
/// Each of the three paths is walked once.
pub fn runner_at<'p, T: Table>(
    alloc: Global,
    problem: &'p Problem,
    lo: &Option<Vec<u32>>,
    hi: &Option<Vec<u32>>,
    state: &State,
) -> Result<Runner<'p, T>, SnapshotFault>
    ensures runner { Returns result (runner_from problem.now lo.now hi.now state.now) }
    ensures on_run { OnOk result (AreOnRun problem.now lo.now hi.now state.now) }
    ensures inside { OnOk result (AreInside problem.now lo.now hi.now state.now) }
    ensures refused { IfErr result (λ fault. AreRefused problem.now lo.now hi.now state.now fault) }
{
    let table = T::new(alloc, problem)?;
    let (table, lo) = cut_of(alloc, problem, table, lo)?;
    let (table, hi) = cut_of(alloc, problem, table, hi)?;
    // Cuts first: a cut that isn't on the run is told before a state that is outside the branch.
    start_at(alloc, problem, table, Branch { lo, hi }, state)
}

/// Whether cuts and a state are on the run, and the state within the branch between them.
pub fn check_position(
    alloc: Global,
    problem: &Problem,
    lo: &Option<Vec<u32>>,
    hi: &Option<Vec<u32>>,
    state: &State,
) -> Result<(), SnapshotFault>
    ensures on_run { OnOk result (AreOnRun problem.now lo.now hi.now state.now) }
    ensures inside { OnOk result (AreInside problem.now lo.now hi.now state.now) }
    ensures refused { IfErr result (λ fault. AreRefused problem.now lo.now hi.now state.now fault) }
{
    // Any table gives the same answer. The runner is let go: only whether there is one was asked.
    match runner_at::<LinkTable>(alloc, problem, lo, hi, state) {
        Ok(_) => Ok(()),
        Err(fault) => Err(fault),
    }
}

/// Whether these make a snapshot.
pub fn check_parts(
    alloc: Global,
    problem: &Problem,
    lo: &Option<Vec<u32>>,
    hi: &Option<Vec<u32>>,
    state: &State,
    breaks: &[Break],
) -> Result<(), SnapshotFault>
    ensures snapshot { OnOk result (MakeSnapshot problem.now lo.now hi.now state.now breaks.now) }
    ensures refused { IfErr result (MakeNone problem.now lo.now hi.now state.now breaks.now) }
{
    // What a problem keeps true is known where it is asked.
    problem.is_sound();
    // The cheap test first; the other walks three paths.
    check_breaks(alloc, problem, breaks)?;
    check_position(alloc, problem, lo, hi, state)
}
