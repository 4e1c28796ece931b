//! Where a runner can't start, what is of another problem, and the numbers and names of refusals.
use crate::fixtures::{branch_of, cut_of, refusal, small, whole};
use cover_problem::{PlainTable, Problem, Table, read_cover};
use drawn_problems::state_of;
use std::alloc::Global;
use x_branches::{Branch, Cut, Runner, RunnerFault, StartFault};
use x_steps::{AtFault, Cursor, Label, Refused, State};

/// A refusal with its number and its name.
struct Named(RunnerFault, Option<u8>, &'static str);

static REFUSALS: [Named; 8] = [
    Named(RunnerFault::AtBranchEnd, Some(1), "AtBranchEnd"),
    Named(RunnerFault::AtMark, Some(2), "AtMark"),
    Named(RunnerFault::NothingUntried, Some(3), "NothingUntried"),
    Named(RunnerFault::NotUntried, Some(4), "NotUntried"),
    Named(RunnerFault::OutsideBranch, Some(5), "OutsideBranch"),
    Named(RunnerFault::NotAtMark, Some(6), "NotAtMark"),
    Named(RunnerFault::StretchFull, Some(7), "StretchFull"),
    Named(RunnerFault::OutOfMemory, None, "OutOfMemory"),
];

#[test]
fn refusals_have_numbers_and_names(rt: HostRuntime) {
    for row in &REFUSALS {
        assert!(rt; row.0.number() == row.1 && row.0.name() == row.2);
    }
}

/// Whether a runner can't start in a branch at a state for this reason, or can where there is none.
fn starts_at<'p>(
    alloc: Global,
    problem: &'p Problem,
    branch: Branch<'p>,
    state: &State,
    fault: Option<StartFault>,
) -> bool {
    let Ok(table) = PlainTable::new(alloc, problem) else {
        return false;
    };
    refusal(Runner::new(alloc, problem, table, branch, state)) == fault
}

/// The same at X2 with these choices.
fn starts_so<'p>(
    alloc: Global,
    problem: &'p Problem,
    branch: Branch<'p>,
    path: &[u32],
    fault: Option<StartFault>,
) -> bool {
    let Ok(state) = state_of(alloc, Label::X2, path, Cursor::None) else {
        return false;
    };
    starts_at(alloc, problem, branch, &state, fault)
}

const OUTSIDE: Option<StartFault> = Some(StartFault::Runner(RunnerFault::OutsideBranch));

const NOT_A_STATE: Option<StartFault> = Some(StartFault::Steps(AtFault::NotAState));

/// From which cut to which, at X2 below which choices, a runner can't start, and why.
struct Start(
    &'static [u32],
    &'static [u32],
    &'static [u32],
    Option<StartFault>,
);

static STARTS: [Start; 6] = [
    Start(&[2], &[4], &[2], None),
    Start(&[2], &[4], &[2, 3], None),
    Start(&[4], &[4], &[2], OUTSIDE),
    Start(&[2], &[4], &[], OUTSIDE),
    Start(&[2], &[4], &[4], OUTSIDE),
    Start(&[4], &[2], &[3], NOT_A_STATE),
];

/// Whether a runner starts as a row tells.
fn starts(alloc: Global, problem: &Problem, row: &Start) -> bool {
    let Some(branch) = branch_of(alloc, problem, row.0, row.1) else {
        return false;
    };
    starts_so(alloc, problem, branch, row.2, row.3)
}

/// The same of the small problem.
fn starts_in_small(alloc: Global, row: &Start) -> bool {
    let Some(problem) = small(alloc) else {
        return false;
    };
    starts(alloc, &problem, row)
}

#[test]
fn a_runner_starts_within_its_branch(rt: HostRuntime) {
    for row in &STARTS {
        assert!(rt; starts_in_small(rt.alloc(), row));
    }
}

/// Another problem, of which 4 is a cut.
const OTHER: &str = "items a\noption a\noption a\noption a\noption a";

/// Whether a cut is refused as outside the branch, and is the cut 4 that comes back.
fn is_outside(shortened: &Result<(), Refused<RunnerFault, Cut<'_>>>) -> bool {
    match shortened {
        Ok(()) => false,
        Err(refused) => {
            refused.fault == RunnerFault::OutsideBranch && refused.given.path() == [4].as_slice()
        }
    }
}

/// Whether a runner's branch isn't ended at the cut 4 of another problem, which comes back.
fn comes_back<'p, T: Table>(alloc: Global, runner: &mut Runner<'p, T>, other: &'p Problem) -> bool {
    let Some(cut) = cut_of(alloc, other, &[4]) else {
        return false;
    };
    is_outside(&runner.shorten(cut))
}

/// Whether a cut of another problem ends no branch of this one's run, and comes back.
fn is_foreign<'p>(alloc: Global, problem: &'p Problem, other: &'p Problem) -> bool {
    let Some(mut runner) = whole(alloc, problem) else {
        return false;
    };
    comes_back(alloc, &mut runner, other)
}

/// Whether a runner can't start in a branch that ends at a cut of another problem.
fn starts_nowhere<'p>(alloc: Global, problem: &'p Problem, other: &'p Problem) -> bool {
    let Some(branch) = branch_of(alloc, other, &[], &[4]) else {
        return false;
    };
    starts_so(alloc, problem, branch, &[2], OUTSIDE)
}

/// Whether cuts of the other problem are outside the small one's branches.
fn are_outside(alloc: Global) -> bool {
    let Some(problem) = small(alloc) else {
        return false;
    };
    let Ok(other) = read_cover(alloc, OTHER.as_bytes()) else {
        return false;
    };
    is_foreign(alloc, &problem, &other) && starts_nowhere(alloc, &problem, &other)
}

#[test]
fn cuts_of_another_problem_are_outside(rt: HostRuntime) {
    assert!(rt; are_outside(rt.alloc()));
}
