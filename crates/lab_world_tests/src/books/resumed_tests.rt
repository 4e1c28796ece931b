//! Books that go on from a state in a branch, and where none does.

use crate::books::acts::Act;
use crate::books::finish::{Done, Row, finishes};
use crate::fixtures::small;
use crate::opening::{AT_THE_VISIT, Opening, resumed};
use cover_problem::Problem;
use std::alloc::Global;
use x_branches::{RunnerFault, StartFault};
use x_steps::{AtFault, Label};

/// Where a book goes on, calls of it, and what it has when they finish it.
struct Course(Opening, &'static [Row], Done);

/// Whether the calls on the book that goes on there finish it.
fn finishes_resumed(alloc: Global, problem: &Problem, course: &Course) -> bool {
    match resumed(alloc, problem, &course.0) {
        Ok(mut book) => finishes(alloc, problem, &mut book, course.1, &course.2),
        Err(_) => false,
    }
}

/// The same of the small problem.
fn goes_on(alloc: Global, course: &Course) -> bool {
    let Some(problem) = small(alloc) else {
        return false;
    };
    finishes_resumed(alloc, &problem, course)
}

/// Before the cut 4: a stretch that ends after the tile, and one that ends with it.
static TO_FOUR: Course = Course(
    Opening {
        cut: 4,
        is_behind: false,
        label: Label::X1,
        path: &[],
    },
    &[
        Row(Act::LeaseAny(0), 0),
        Row(Act::Post((0, 0, 0), 0, 21), 6),
        Row(Act::Post((0, 0, 0), 0, 20), 0),
        Row(Act::Close((0, 0, 0)), 0),
        Row(Act::Lease(0, 0), 2),
    ],
    Done {
        has_visit: false,
        steps: 20,
        levels: &[1, 1, 1],
    },
);

#[test]
fn a_part_of_the_run_is_posted(rt: HostRuntime) {
    assert!(rt; goes_on(rt.alloc(), &TO_FOUR));
}

/// The last 14 steps.
static FROM_THE_VISIT: Course = Course(
    AT_THE_VISIT,
    &[
        Row(Act::Lease(0, 0), 0),
        Row(Act::Post((0, 0, 0), 28, 14), 3),
        Row(Act::Post((0, 0, 0), 29, 14), 0),
        Row(Act::Close((0, 0, 0)), 0),
    ],
    Done {
        has_visit: true,
        steps: 14,
        levels: &[0, 0, 0, 1],
    },
);

#[test]
fn a_search_goes_on_where_it_was(rt: HostRuntime) {
    assert!(rt; goes_on(rt.alloc(), &FROM_THE_VISIT));
}

/// Where no book goes on, and why.
struct Refusal(Opening, StartFault);

/// Below which choices at X2, in the branch from the cut 4 on.
static REFUSALS: [Refusal; 2] = [
    Refusal(
        Opening {
            cut: 4,
            is_behind: true,
            label: Label::X2,
            path: &[2],
        },
        StartFault::Runner(RunnerFault::OutsideBranch),
    ),
    Refusal(
        Opening {
            cut: 4,
            is_behind: true,
            label: Label::X2,
            path: &[3],
        },
        StartFault::Steps(AtFault::NotAState),
    ),
];

/// Whether a book doesn't go on there, for this reason.
fn is_refused(alloc: Global, problem: &Problem, refusal: &Refusal) -> bool {
    match resumed(alloc, problem, &refusal.0) {
        Ok(_) => false,
        Err(fault) => fault == refusal.1,
    }
}

/// The same of the small problem.
fn is_refused_in_small(alloc: Global, refusal: &Refusal) -> bool {
    let Some(problem) = small(alloc) else {
        return false;
    };
    is_refused(alloc, &problem, refusal)
}

#[test]
fn a_search_goes_on_within_its_branch(rt: HostRuntime) {
    for refusal in &REFUSALS {
        assert!(rt; is_refused_in_small(rt.alloc(), refusal));
    }
}
