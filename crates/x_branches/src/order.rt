//! Which of two states of one search comes first.
ghost use Rattle.std.specs.Prelude.{◌≡◌, ◌<◌, ◌≤◌, ◌+◌, ◌*◌, ◌^◌, length};
ghost use Rattle.cover_problem.specs.Problem.{ProblemValue};
ghost use Rattle.x_steps.specs.StateView.{state_value};
ghost use Rattle.x_steps.specs.Steps.{Fits};
ghost use Rattle.x_steps.specs.Rank.{digit_at};
ghost use Rattle.x_branches.specs.RunOrder.{LessIsBefore, EqualIsSame, GreaterIsAfter, TrueIsBefore};
ghost use Rattle.x_branches.specs.Stage.{many, IsWithin, Shifts, digit_of};

use crate::position::Position;
use std::cmp::Ordering;
use x_steps::{Cursor, Label, State, shared};

/// More options than a number of 32 bits can name.
const MANY: u64 = 4_294_967_296;

/// Where X5 stands past all options of its level.
const PAST_ALL: u64 = 4 * MANY + 5;

/// Where what lies below an option stands, among all that is done at its level.
fn stage_below(option: u32) -> u64
    ensures stage { result ≡ 4 * option + 2 }
    ensures within { option < 2 ^ 32 }
{
    4 * option as u64 + 2
}

/// Where a step stands, among all that is done at its level: before the first option, at an option before and after what lies
/// below it, and past all options.
fn stage_of(label: Label, cursor: Cursor) -> u64
    ensures stage { result ≡ digit_at many label cursor }
    ensures within { IsWithin cursor }
{
    // Four places for an option: X5 at it, what lies below it, X6 after it, and one to spare. The first is 1, so they begin past X4.
    match (label, cursor) {
        (Label::X1, _) => 0,
        (Label::X2, _) => 1,
        (Label::X3, _) => 2,
        (Label::X4, _) => 3,
        (Label::X5, Cursor::At(option)) => 4 * option as u64 + 1,
        (Label::X5, _) => PAST_ALL,
        (Label::X6, Cursor::At(option)) => 4 * option as u64 + 3,
        // No state that fits, so any number does.
        (Label::X6, _) => 0,
        (Label::X7, _) => PAST_ALL + 1,
        (Label::X8, _) => PAST_ALL + 2,
        (Label::Done, _) => PAST_ALL + 3,
    }
}

/// Where a position stands among those with the same first choices.
fn stage(position: &Position<'_>, level: usize) -> u64
    requires { level ≤ length position.now.path }
    ensures { (p : ProblemValue) → Fits p position.now →
        Shifts (length p.options) result (digit_of p position.now level) }
{
    if level < position.path.len() {
        // The position has taken that choice and lies below it.
        stage_below(position.path[level])
    } else {
        stage_of(position.label, position.cursor)
    }
}

/// Which of two positions of one search comes first on its run: by the first choice that differs, and by the step where they
/// share their choices.
pub fn position_order(one: &Position<'_>, other: &Position<'_>) -> Ordering
    ensures less { LessIsBefore result one.now other.now }
    ensures equal { EqualIsSame result one.now other.now }
    ensures greater { GreaterIsAfter result one.now other.now }
{
    // Up to this level both have the same choices, so it decides.
    let level = shared(one.path, other.path);
    stage(one, level).cmp(&stage(other, level))
}

/// Whether of two positions of one search the first comes before the second on its run.
pub fn is_before(one: &Position<'_>, other: &Position<'_>) -> bool
    ensures { TrueIsBefore result one.now other.now }
{
    match position_order(one, other) {
        Ordering::Less => true,
        _ => false,
    }
}

/// Which of two states of one search comes first on its run.
pub fn run_order(one: &State, other: &State) -> Ordering
    ensures less { LessIsBefore result (state_value one.now) (state_value other.now) }
    ensures equal { EqualIsSame result (state_value one.now) (state_value other.now) }
    ensures greater { GreaterIsAfter result (state_value one.now) (state_value other.now) }
{
    position_order(&Position::of(one), &Position::of(other))
}
