//! Cuts and branches of the small problem.
use crate::fixtures::{branch_of, cut_of, small};
use cover_problem::Problem;
use std::alloc::Global;
use x_branches::{Branch, Cut, CutFault};
use x_steps::Refused;

/// Whether a cut tells a path and its problem, and its copy the path.
fn tells(cut: &Cut<'_>, problem: &Problem, path: &[u32]) -> bool {
    let Ok(copy) = cut.copy() else {
        return false;
    };
    cut.path() == path && copy.path() == path && cut.problem().same(problem)
}

/// Whether a path makes a cut that tells it and its problem, and whose copy tells it.
fn is_cut(alloc: Global, problem: &Problem, path: &[u32]) -> bool {
    let Some(cut) = cut_of(alloc, problem, path) else {
        return false;
    };
    tells(&cut, problem, path)
}

/// The same of the small problem.
fn is_small_cut(alloc: Global, path: &[u32]) -> bool {
    let Some(problem) = small(alloc) else {
        return false;
    };
    is_cut(alloc, &problem, path)
}

static CUTS: [&[u32]; 4] = [&[2], &[4], &[4, 5], &[4, 5, 1]];

#[test]
fn cuts_are_the_paths_of_the_search(rt: HostRuntime) {
    for path in CUTS {
        assert!(rt; is_small_cut(rt.alloc(), path));
    }
}

/// Whether a cut is refused as none of the search, and this path comes back.
fn is_refused(made: &Result<Cut<'_>, Refused<CutFault, Vec<u32>>>, path: &[u32]) -> bool {
    match made {
        Ok(_) => false,
        Err(refused) => refused.fault.number() == Some(4) && refused.given.as_slice() == path,
    }
}

/// Whether a path of a problem is.
fn comes_back(alloc: Global, problem: &Problem, path: &[u32]) -> bool {
    let Ok(given) = Vec::from_slice(alloc, path) else {
        return false;
    };
    is_refused(&Cut::new(alloc, problem, given), path)
}

/// The same of the small problem.
fn comes_back_of_small(alloc: Global, path: &[u32]) -> bool {
    let Some(problem) = small(alloc) else {
        return false;
    };
    comes_back(alloc, &problem, path)
}

static OTHERS: [&[u32]; 6] = [&[], &[1], &[2, 1], &[4, 5, 1, 1], &[0], &[7]];

#[test]
fn other_paths_come_back(rt: HostRuntime) {
    for path in OTHERS {
        assert!(rt; comes_back_of_small(rt.alloc(), path));
    }
}

/// The path of a cut; nothing where there is none.
fn path_of<'a>(cut: &'a Option<Cut<'_>>) -> &'a [u32] {
    match cut {
        Some(cut) => cut.path(),
        None => &[],
    }
}

/// Two cuts; an empty path stands for none.
struct Ends(&'static [u32], &'static [u32]);

/// Whether the copy of a branch lies between these cuts.
fn lies_between(branch: &Branch<'_>, ends: &Ends) -> bool {
    let Ok(copy) = branch.copy() else {
        return false;
    };
    path_of(&copy.lo) == ends.0 && path_of(&copy.hi) == ends.1
}

/// Whether the copy of the branch between two cuts has them.
fn is_copied(alloc: Global, problem: &Problem, ends: &Ends) -> bool {
    let Some(branch) = branch_of(alloc, problem, ends.0, ends.1) else {
        return false;
    };
    lies_between(&branch, ends)
}

/// The same of the small problem.
fn is_copied_in_small(alloc: Global, ends: &Ends) -> bool {
    let Some(problem) = small(alloc) else {
        return false;
    };
    is_copied(alloc, &problem, ends)
}

static BRANCHES: [Ends; 3] = [Ends(&[2], &[4]), Ends(&[], &[4]), Ends(&[4, 5], &[])];

#[test]
fn a_branch_is_copied(rt: HostRuntime) {
    for ends in &BRANCHES {
        assert!(rt; is_copied_in_small(rt.alloc(), ends));
    }
}
