//! Where a search stands, in memory that belongs to others: a state's, a cut's, or none.
ghost use Rattle.std.specs.Prelude.{◌≡◌, ◌↔◌, IsTrue};
ghost use Rattle.x_steps.specs.StateValue.{start, done};
ghost use Rattle.x_steps.specs.StateView.{state_value};
ghost use Rattle.x_branches.specs.Cut.{cut_state};

use std::marker::Model;
use x_steps::{Cursor, Label, State};

/// The step about to be done, the choices so far, and the option that the step is at.
#[derive(Drop)]
pub struct Position<'a> {
    pub label: Label,
    pub path: &'a [u32],
    pub cursor: Cursor,
}

impl<'a> Model for Position<'a> {
    ghost use Rattle.x_steps.specs.StateValue.{StateValue, at};

    ghost Value = { StateValue };

    ghost view = { λ s. at s.label s.path.now s.cursor };
}

impl<'a> Position<'a> {
    /// A state's position.
    pub fn of(state: &'a State) -> Position<'a>
        ensures { result ≡ state_value state.now }
    {
        Position {
            label: state.label,
            path: &state.path,
            cursor: state.cursor,
        }
    }

    /// The first of a run.
    pub fn first() -> Position<'a>
        ensures { result ≡ start }
    {
        Position {
            label: Label::X1,
            path: &[],
            cursor: Cursor::None,
        }
    }

    /// The last of a run.
    pub fn last() -> Position<'a>
        ensures { result ≡ done }
    {
        Position {
            label: Label::Done,
            path: &[],
            cursor: Cursor::None,
        }
    }

    /// The state of a cut: X5 at the last of its choices, after the others. Where there are none, the first of a run.
    #[inline(always)]
    pub fn at_cut(choices: &'a [u32]) -> Position<'a>
        ensures { result ≡ cut_state choices.now }
    {
        if choices.is_empty() {
            return Position::first();
        }
        let (front, last) = choices.split_at(choices.len() - 1);
        Position {
            label: Label::X5,
            path: front,
            cursor: Cursor::At(last[0]),
        }
    }

    /// Whether a state is here. The path is looked at last.
    #[inline(always)]
    pub fn is(&self, state: &State) -> bool
        ensures { IsTrue result ↔ (state_value state.now ≡ self.now) }
    {
        state.label == self.label
            && state.cursor == self.cursor
            && state.path.as_slice() == self.path
    }
}
