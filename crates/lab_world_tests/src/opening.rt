//! Books that go on from a state in a branch.

use crate::fixtures::cut_at;
use cover_problem::Problem;
use drawn_problems::state_of;
use lab_book::Book;
use std::alloc::Global;
use x_branches::{Branch, RunnerFault, StartFault};
use x_steps::{Cursor, Label, Refused};

/// Where a book goes on: behind or before the cut of one choice, and at which step below which choices.
#[derive(Clone, Copy)]
pub struct Opening {
    pub cut: u32,
    pub is_behind: bool,
    pub label: Label,
    pub path: &'static [u32],
}

/// At the visit, behind the cut 4: the last 14 steps of the small problem.
pub const AT_THE_VISIT: Opening = Opening {
    cut: 4,
    is_behind: true,
    label: Label::X2,
    path: &[4, 5, 1],
};

/// What an opening without memory tells, and no other one in these tests.
const NO_MEMORY: StartFault = StartFault::Runner(RunnerFault::OutOfMemory);

/// The branch behind or before a cut.
fn branch_of<'p>(alloc: Global, problem: &'p Problem, opening: &Opening) -> Option<Branch<'p>> {
    let Some(cut) = cut_at(alloc, problem, opening.cut) else {
        return None;
    };
    if opening.is_behind {
        return Some(Branch {
            lo: Some(cut),
            hi: None,
        });
    }
    Some(Branch {
        lo: None,
        hi: Some(cut),
    })
}

/// What was made; or why it was refused.
fn untaken<V: Drop, F: Drop, G: Drop>(answer: Result<V, Refused<F, G>>) -> Result<V, F> {
    match answer {
        Ok(value) => Ok(value),
        Err(Refused { fault, given: _ }) => Err(fault),
    }
}

/// The book of a branch that goes on there; or why there is none.
fn resumed_in<'p>(
    alloc: Global,
    problem: &'p Problem,
    branch: Branch<'p>,
    opening: &Opening,
) -> Result<Book<'p>, StartFault> {
    match state_of(alloc, opening.label, opening.path, Cursor::None) {
        Ok(state) => untaken(Book::resumed(alloc, problem, branch, state)),
        Err(_) => Err(NO_MEMORY),
    }
}

/// The book that goes on there; or why there is none.
pub fn resumed<'p>(
    alloc: Global,
    problem: &'p Problem,
    opening: &Opening,
) -> Result<Book<'p>, StartFault> {
    match branch_of(alloc, problem, opening) {
        Some(branch) => resumed_in(alloc, problem, branch, opening),
        None => Err(NO_MEMORY),
    }
}
