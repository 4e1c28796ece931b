//! States that are shared.
ghost use Rattle.std.specs.Prelude.{◌≡◌, ◌↔◌, IfOk, IsTrue};
ghost use Rattle.x_steps.specs.StateView.{state_value};

use crate::state::State;
use std::alloc::{AllocError, Global};
use std::marker::Model;
use std::sync::Arc;

/// A state at which a stretch begins or ends. Its copies share it: a path may be long, and a post names its ends in several places.
#[derive(Debug, Drop)]
pub struct Mark {
    state: Arc<State, Global>,
}

impl Model for Mark {
    ghost use Rattle.std.specs.Arc.{arc_value};
    ghost use Rattle.x_steps.specs.StateValue.{StateValue};
    ghost use Rattle.x_steps.specs.StateView.{state_value};

    ghost Value = { StateValue };

    ghost view = { λ m. state_value (arc_value m.state) };
}

impl Mark {
    /// A copy of a state.
    pub fn of(state: &State) -> Result<Mark, AllocError>
        ensures { IfOk result (λ mark. mark ≡ state_value state.now) }
    {
        Mark::from(state.copy()?)
    }

    /// A state itself.
    pub fn from(state: State) -> Result<Mark, AllocError>
        ensures { IfOk result (λ mark. mark ≡ state_value state) }
    {
        let alloc = *state.path.allocator();
        let state = Arc::new(alloc, state)?;
        Ok(Mark { state })
    }

    /// The state.
    pub fn state(&self) -> &State
        ensures { state_value result.now ≡ self.now }
    {
        &self.state
    }

    /// Whether it is the same state.
    pub fn same(&self, other: &Mark) -> bool
        ensures { IsTrue result ↔ (self.now ≡ other.now) }
    {
        self.state.same(&other.state)
    }

    /// The same state, without a copy of its path.
    pub fn copy(&self) -> Result<Mark, AllocError>
        ensures { IfOk result (λ mark. mark ≡ self.now) }
    {
        let state = Arc::try_clone(&self.state)?;
        Ok(Mark { state })
    }
}
