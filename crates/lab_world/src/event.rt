//! What workers do, and what they are answered.
ghost use Rattle.std.specs.Prelude.{◌≡◌};
ghost use Rattle.x_steps.specs.StateView.{state_value};

use std::marker::Model;
use x_branches::RunnerFault;
use x_steps::{Event, State};

/// The state that a tile is put back to.
#[derive(Debug, Drop)]
pub struct Target {
    state: State,
}

impl Model for Target {
    ghost use Rattle.x_steps.specs.StateValue.{StateValue};
    ghost use Rattle.x_steps.specs.StateView.{state_value};

    ghost Value = { StateValue };

    ghost view = { λ t. state_value t.state };
}

impl Target {
    /// A state itself.
    pub fn new(state: State) -> Target
        ensures { result ≡ state_value state }
    {
        Target { state }
    }

    /// The state.
    pub fn state(&self) -> &State
        ensures { state_value result.now ≡ self.now }
    {
        &self.state
    }
}

/// What one worker does: a step of its runner, or a call of the book. `PutBack` and `RequestStop` need no runner.
#[derive(Debug, Drop)]
pub enum Act {
    Step,
    Back,
    Lease(u64),
    LeaseAny,
    TakeHeld(u64),
    Post,
    /// Parts its branch at an option of a level, as `Worker::split` does.
    Split { level: usize, option: u32 },
    Retract,
    Park,
    Abandon,
    Close,
    PutBack { id: u64, state: Target },
    RequestStop(u64),
}

/// What a worker does, the worker by its number.
#[derive(Debug, Drop)]
pub struct WorldEvent {
    pub worker: u8,
    pub act: Act,
}

/// The answer to an event.
#[derive(Clone, Copy, Debug, PartialEq, Eq)]
pub enum WorldReply {
    /// What a step told; a step back tells that it moved.
    Event(Event),
    /// The runner refused; the book wasn't called.
    Runner(RunnerFault),
    /// The book was called: its answer stands in its history, at this index.
    Book(u64),
    /// The event needs a runner, and the worker has none; the book wasn't called.
    Idle,
    /// The worker leases while it has a runner; the book wasn't called.
    Busy,
}
