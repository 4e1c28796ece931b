//! The small problem, and cuts and runners of a problem.
use cover_problem::{PlainTable, Problem, Table, read_cover};
use drawn_problems::{SMALL, state_of};
use std::alloc::{AllocError, Global};
use x_branches::{Branch, Cut, Runner};
use x_steps::{Cursor, Label, Refused, State};

/// The small problem.
pub fn small(alloc: Global) -> Option<Problem> {
    match read_cover(alloc, SMALL.as_bytes()) {
        Ok(problem) => Some(problem),
        Err(_) => None,
    }
}

/// What was made, if it wasn't refused.
pub fn value_of<V: Drop, F: Drop, G: Drop>(made: Result<V, Refused<F, G>>) -> Option<V> {
    match made {
        Ok(value) => Some(value),
        Err(_) => None,
    }
}

/// Why it was refused, if it was.
pub fn refusal<V: Drop, F: Drop, G: Drop>(made: Result<V, Refused<F, G>>) -> Option<F> {
    match made {
        Ok(_) => None,
        Err(Refused { fault, given: _ }) => Some(fault),
    }
}

/// The cut of a path.
pub fn cut_of<'p>(alloc: Global, problem: &'p Problem, path: &[u32]) -> Option<Cut<'p>> {
    let Ok(path) = Vec::from_slice(alloc, path) else {
        return None;
    };
    value_of(Cut::new(alloc, problem, path))
}

/// The end of a branch at a path: its cut, or none where the path is empty. None where no cut is made.
fn end_of<'p>(alloc: Global, problem: &'p Problem, path: &[u32]) -> Option<Option<Cut<'p>>> {
    if path.is_empty() {
        return Some(None);
    }
    match cut_of(alloc, problem, path) {
        Some(cut) => Some(Some(cut)),
        None => None,
    }
}

/// The branch between two cuts; an empty path stands for the run's first state, or for its end.
pub fn branch_of<'p>(
    alloc: Global,
    problem: &'p Problem,
    lo: &[u32],
    hi: &[u32],
) -> Option<Branch<'p>> {
    let Some(lo) = end_of(alloc, problem, lo) else {
        return None;
    };
    let Some(hi) = end_of(alloc, problem, hi) else {
        return None;
    };
    Some(Branch { lo, hi })
}

/// Where a branch begins that has this path as its first cut, or none.
fn first_of(alloc: Global, lo: &[u32]) -> Result<State, AllocError> {
    match lo.split_last() {
        Some((option, path)) => state_of(alloc, Label::X5, path, Cursor::At(*option)),
        None => state_of(alloc, Label::X1, &[], Cursor::None),
    }
}

/// A runner at a state of a branch.
fn runner_at<'p, T: Table>(
    alloc: Global,
    problem: &'p Problem,
    branch: Branch<'p>,
    state: &State,
) -> Option<Runner<'p, T>> {
    let Ok(table) = T::new(alloc, problem) else {
        return None;
    };
    value_of(Runner::new(alloc, problem, table, branch, state))
}

/// A runner at the first state of the branch between two cuts.
pub fn runner_of<'p, T: Table>(
    alloc: Global,
    problem: &'p Problem,
    lo: &[u32],
    hi: &[u32],
) -> Option<Runner<'p, T>> {
    let Ok(state) = first_of(alloc, lo) else {
        return None;
    };
    let Some(branch) = branch_of(alloc, problem, lo, hi) else {
        return None;
    };
    runner_at(alloc, problem, branch, &state)
}

/// A runner at the first state of the whole run.
pub fn whole<'p>(alloc: Global, problem: &'p Problem) -> Option<Runner<'p, PlainTable>> {
    runner_of(alloc, problem, &[], &[])
}

/// Takes so many steps; false where one is refused.
pub fn advances<T: Table>(runner: &mut Runner<'_, T>, steps: u32) -> bool {
    for _ in 0..steps {
        if runner.advance().is_err() {
            return false;
        }
    }
    true
}
