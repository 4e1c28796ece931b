//! Stretches that a runner doesn't take back, and the one that has no step.
use crate::fixtures::{advances, refusal, runner_of, small, whole};
use cover_problem::{PlainTable, Problem, Table};
use std::alloc::Global;
use x_branches::{Runner, RunnerFault, Stretch};
use x_steps::State;

/// The stretch of a runner's next so many steps.
fn stretch_of<'p, T: Table>(runner: &mut Runner<'p, T>, steps: u32) -> Option<Stretch<'p>> {
    advances(runner, steps);
    match runner.take_stretch() {
        Ok(stretch) => Some(stretch),
        Err(_) => None,
    }
}

/// The stretch from X1 up to the cut 4.
fn first_stretch<'p>(alloc: Global, problem: &'p Problem) -> Option<Stretch<'p>> {
    match whole(alloc, problem) {
        Some(mut runner) => stretch_of(&mut runner, 20),
        None => None,
    }
}

/// Whether the first stretch isn't joined to a runner's, for this reason.
fn is_join_refused<'p, T: Table>(
    alloc: Global,
    problem: &'p Problem,
    runner: &mut Runner<'p, T>,
    fault: RunnerFault,
) -> bool {
    let Some(stretch) = first_stretch(alloc, problem) else {
        return false;
    };
    refusal(runner.reopen(stretch)) == Some(fault)
}

/// Takes so many steps, and takes the stretch out or leaves it; false where it can't.
fn goes<T: Table>(runner: &mut Runner<'_, T>, steps: u32, takes: bool) -> bool {
    if takes {
        return stretch_of(runner, steps).is_some();
    }
    advances(runner, steps)
}

/// How many steps a runner takes, whether the stretch is taken out, and why the first stretch isn't joined to it then.
static FIRST_REFUSED: [(u32, bool, RunnerFault); 3] = [
    (0, true, RunnerFault::OutsideBranch),
    (23, true, RunnerFault::NotAtMark),
    (5, false, RunnerFault::NotAtMark),
];

/// Whether this is so of a runner from the cut 4 on.
fn is_first_refused(alloc: Global, problem: &Problem, row: &(u32, bool, RunnerFault)) -> bool {
    let Some(mut runner) = runner_of::<PlainTable>(alloc, problem, &[4], &[]) else {
        return false;
    };
    goes(&mut runner, row.0, row.1) && is_join_refused(alloc, problem, &mut runner, row.2)
}

/// The same of the small problem.
fn is_refused_in_small(alloc: Global, row: &(u32, bool, RunnerFault)) -> bool {
    let Some(problem) = small(alloc) else {
        return false;
    };
    is_first_refused(alloc, &problem, row)
}

#[test]
fn a_stretch_from_before_the_branch_is_refused(rt: HostRuntime) {
    for row in &FIRST_REFUSED {
        assert!(rt; is_refused_in_small(rt.alloc(), row));
    }
}

/// Whether a stretch of a problem begins and ends at a state and has nothing in it.
fn is_no_step(stretch: &Stretch<'_>, problem: &Problem, state: &State) -> bool {
    stretch.problem().same(problem)
        && stretch.from().same(state)
        && stretch.to().same(state)
        && stretch.steps() == 0
        && stretch.visits().len() == 0
        && stretch.levels().is_empty()
}

/// The same of its copy.
fn is_copied_no_step(stretch: &Stretch<'_>, problem: &Problem, state: &State) -> bool {
    let Ok(copy) = stretch.copy() else {
        return false;
    };
    is_no_step(&copy, problem, state)
}

/// Whether the stretch that a runner of a problem at its mark hands out, copied, begins and ends there and has nothing in it.
fn hands_out_none<T: Table>(runner: &mut Runner<'_, T>, problem: &Problem) -> bool {
    match runner.take_stretch() {
        Ok(stretch) => is_copied_no_step(&stretch, problem, runner.state()),
        Err(_) => false,
    }
}

/// The same of a new runner.
fn hands_out_no_step(alloc: Global, problem: &Problem) -> bool {
    match whole(alloc, problem) {
        Some(mut runner) => hands_out_none(&mut runner, problem),
        None => false,
    }
}

/// The same of the small problem.
fn hands_out_no_small_step(alloc: Global) -> bool {
    let Some(problem) = small(alloc) else {
        return false;
    };
    hands_out_no_step(alloc, &problem)
}

#[test]
fn a_runner_at_its_mark_hands_out_no_step(rt: HostRuntime) {
    assert!(rt; hands_out_no_small_step(rt.alloc()));
}
