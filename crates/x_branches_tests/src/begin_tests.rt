//! A runner that begins another branch where it stands, and branches that it can't begin there.

use crate::fixtures::{branch_of, refusal, runner_of, small};
use cover_problem::{PlainTable, Problem};
use std::alloc::Global;
use x_branches::{Branch, Runner, RunnerFault};

/// A branch between two cuts, an empty path standing for the run's first state or its end, and whether a runner at X5 with option 4, after
/// no choice, can begin it.
struct Row {
    lo: &'static [u32],
    hi: &'static [u32],
    can: bool,
}

/// It has to have the state, or to end there.
static ROWS: [Row; 7] = [
    Row {
        lo: &[],
        hi: &[],
        can: true,
    },
    Row {
        lo: &[4],
        hi: &[],
        can: true,
    },
    Row {
        lo: &[],
        hi: &[4],
        can: true,
    },
    Row {
        lo: &[4],
        hi: &[4, 5],
        can: true,
    },
    Row {
        lo: &[4, 5],
        hi: &[],
        can: false,
    },
    Row {
        lo: &[],
        hi: &[2, 3],
        can: false,
    },
    Row {
        lo: &[4, 5],
        hi: &[4],
        can: false,
    },
];

/// Whether a runner begins a branch, or is refused as it should be: with nothing unposted after the one, and where it stood after the other.
fn begins_so<'p>(runner: &mut Runner<'p, PlainTable>, branch: Branch<'p>, can: bool) -> bool {
    let unposted = runner.unposted();
    match refusal(runner.begin(branch)) {
        None => can && runner.unposted() == 0 && runner.mark().same(runner.state()),
        Some(fault) => {
            !can && fault == RunnerFault::OutsideBranch
                && runner.is_at_end()
                && runner.unposted() == unposted
        }
    }
}

/// Takes so many steps; false where one is refused.
fn advances(runner: &mut Runner<'_, PlainTable>, steps: u32) -> bool {
    for _ in 0..steps {
        if runner.advance().is_err() {
            return false;
        }
    }
    true
}

/// Whether a runner, after 20 steps at its branch's end, begins this one, or is refused, as it should.
fn holds<'p>(
    alloc: Global,
    problem: &'p Problem,
    runner: &mut Runner<'p, PlainTable>,
    row: &Row,
) -> bool {
    let Some(branch) = branch_of(alloc, problem, row.lo, row.hi) else {
        return false;
    };
    advances(runner, 20) && begins_so(runner, branch, row.can)
}

/// The same of a runner that is made here: its branch ends at option 4 of the first item.
fn holds_at_four(alloc: Global, problem: &Problem, row: &Row) -> bool {
    let Some(mut runner) = runner_of(alloc, problem, &[], &[4]) else {
        return false;
    };
    holds(alloc, problem, &mut runner, row)
}

/// The same of the small problem.
fn holds_in_small(alloc: Global, row: &Row) -> bool {
    let Some(problem) = small(alloc) else {
        return false;
    };
    holds_at_four(alloc, &problem, row)
}

#[test]
fn a_branch_is_begun_where_it_has_the_state(rt: HostRuntime) {
    for row in &ROWS {
        assert!(rt; holds_in_small(rt.alloc(), row));
    }
}
