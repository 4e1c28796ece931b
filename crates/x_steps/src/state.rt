//! Where a search stands.

use std::alloc::AllocError;

/// The step about to be done (TAOCP volume 4B, section 7.2.2.1), or `Done` after the last.
#[derive(Clone, Copy, Debug, PartialEq, Eq)]
pub enum Label {
    X1,
    X2,
    X3,
    X4,
    X5,
    X6,
    X7,
    X8,
    Done,
}

/// The option that a step is at: `At` one at X5 and X6, `Past` the last at X5, and `None` at the other steps.
#[derive(Clone, Copy, Debug, PartialEq, Eq)]
pub enum Cursor {
    None,
    At(u32),
    Past,
}

/// The step about to be done, the choices so far in order, and the option that the step is at.
#[derive(Debug, Drop)]
pub struct State {
    pub label: Label,
    pub path: Vec<u32>,
    pub cursor: Cursor,
}

impl State {
    ghost use Rattle.std.specs.Prelude.{◌≡◌, ◌↔◌, IfOk, IsTrue};
    ghost use Rattle.x_steps.specs.StateView.{state_value};

    /// The same state, with a path of its own.
    pub fn copy(&self) -> Result<State, AllocError>
        ensures { IfOk result (λ state. state_value state ≡ state_value self.now) }
    {
        Ok(State {
            label: self.label,
            path: self.path.clone()?,
            cursor: self.cursor,
        })
    }

    /// Whether it is the same state: the same step, choices and cursor.
    pub fn same(&self, other: &State) -> bool
        ensures { IsTrue result ↔ (state_value self.now ≡ state_value other.now) }
    {
        // What costs nothing to compare comes first, and the paths only where that agrees.
        self.label == other.label && self.cursor == other.cursor && self.path == other.path
    }

    /// Goes to this step, with the same path.
    #[inline(always)]
    pub(crate) fn go(&mut self, label: Label, cursor: Cursor)
        ensures { self.new ≡ record self.old { label = label; cursor = cursor } }
    {
        // The path stays: a step that changes it pushes or pops for itself.
        self.label = label;
        self.cursor = cursor;
    }
}
