//! The refusals of a machine.
ghost use Rattle.std.specs.Prelude.{◌≡◌};
ghost use Rattle.x_steps.specs.Faults.{number_of, number_at};

use thiserror::Error;

/// Why a step, or a step back, was refused.
#[derive(Clone, Copy, Debug, PartialEq, Eq, Error)]
pub enum StepFault {
    /// A step back at X1.
    #[error("the search is at its first state")]
    AtFirst,
    /// A step at Done.
    #[error("the search is over")]
    Done,
}

impl StepFault {
    /// Its number, from 1.
    pub fn number(self) -> u8
        ensures { result ≡ number_of self }
    {
        match self {
            StepFault::AtFirst => 1,
            StepFault::Done => 2,
        }
    }
}

/// Why no machine could be set at a state.
#[derive(Clone, Copy, Debug, PartialEq, Eq, Error)]
pub enum AtFault {
    /// The state is none of the problem's search.
    #[error("the search has no such state")]
    NotAState,
    #[error("out of memory")]
    OutOfMemory,
}

impl AtFault {
    /// Its number, after those of a step; out of memory has none.
    pub fn number(self) -> Option<u8>
        ensures { result ≡ number_at self }
    {
        match self {
            AtFault::NotAState => Some(3),
            AtFault::OutOfMemory => None,
        }
    }
}
