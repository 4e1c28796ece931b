//! Where a part stands after the one before it.
ghost use Rattle.std.specs.Prelude.{◌≡◌, IfOk, IfErr, OnOk};
ghost use Rattle.x_steps.specs.StateView.{state_value};
ghost use Rattle.x_branches.specs.Cut.{cut_state};
ghost use Rattle.part_sums.specs.Parts.{last_state};
ghost use Rattle.part_sums.specs.Refusals.{EachFit, IsMisplaced};

use crate::fault::JoinFault;
use std::alloc::{AllocError, Global};
use std::cmp::Ordering;
use x_branches::run_order;
use x_snapshot::Snapshot;
use x_steps::{Cursor, Label, State};

/// The state at the last of these choices, after the others; the end of the run where there are none.
fn cut_state(alloc: Global, path: &[u32]) -> Result<State, AllocError>
    ensures { IfOk result (λ s. state_value s ≡ cut_state path.now) }
{
    if path.is_empty() {
        return Ok(State {
            label: Label::X1,
            path: Vec::new(alloc),
            cursor: Cursor::None,
        });
    }
    let (front, last) = path.split_at(path.len() - 1);
    Ok(State {
        label: Label::X5,
        path: Vec::from_slice(alloc, front)?,
        cursor: Cursor::At(last[0]),
    })
}

/// The state that ends a snapshot's branch.
pub(crate) fn last_state(alloc: Global, snapshot: &Snapshot) -> Result<State, AllocError>
    ensures { IfOk result (λ s. state_value s ≡ last_state snapshot.now) }
{
    match snapshot.hi() {
        Some(path) => cut_state(alloc, path),
        None => Ok(State {
            label: Label::Done,
            path: Vec::new(alloc),
            cursor: Cursor::None,
        }),
    }
}

/// Checks that a part begins at `next`, where the part before it ends, which began at `before` and ends at `here`.
pub(crate) fn check_place(before: &State, here: &State, next: &State) -> Result<(), JoinFault>
    ensures same { EachFit (state_value here.now) (state_value next.now) (λ _.
        OnOk result (state_value next.now ≡ state_value here.now)) }
    ensures apart { EachFit (state_value here.now) (state_value next.now) (λ _.
        IfErr result (λ _. state_value next.now ≡ state_value here.now → ⊥)) }
    ensures misplaced { EachFit (state_value here.now) (state_value next.now) (λ p.
        IfErr result (IsMisplaced p (state_value before.now) (state_value here.now) (state_value next.now))) }
{
    match run_order(here, next) {
        Ordering::Equal => Ok(()),
        Ordering::Less => Err(JoinFault::Gap),
        Ordering::Greater => Err(if next.same(before) {
            JoinFault::Twice
        } else {
            JoinFault::Overlap
        }),
    }
}
