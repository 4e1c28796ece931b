//! Why no problem is made of a puzzle.
ghost use Rattle.std.specs.Prelude.{◌≡◌};
ghost use Rattle.poly_place.specs.Faults.{number_of, name_of};

use std::alloc::{AllocError, AllocFailed};
use thiserror::Error;

/// Why no problem is made of a puzzle.
#[derive(Clone, Copy, Debug, PartialEq, Eq, Error)]
pub enum PlaceFault {
    #[error("the puzzle has too many placements")]
    TooManyOptions,
    #[error("out of memory")]
    OutOfMemory,
}

impl PlaceFault {
    /// Its number; OutOfMemory has none.
    pub fn number(self) -> Option<u8>
        ensures { result ≡ number_of self }
    {
        match self {
            PlaceFault::TooManyOptions => Some(1),
            PlaceFault::OutOfMemory => None,
        }
    }

    /// Its name, in one word.
    pub fn name(self) -> &'static str
        ensures { result.now ≡ name_of self }
    {
        match self {
            PlaceFault::TooManyOptions => "TooManyOptions",
            PlaceFault::OutOfMemory => "OutOfMemory",
        }
    }
}

impl From<AllocError> for PlaceFault {
    ghost use Rattle.poly_place.specs.declared.fault.PlaceFault.TheVariants.{OutOfMemory};

    ghost from_gives = { λ _ fault. fault ≡ OutOfMemory };

    fn from(_error: AllocError) -> PlaceFault {
        Self::OutOfMemory
    }
}

impl<T: Drop> From<AllocFailed<T>> for PlaceFault {
    ghost use Rattle.poly_place.specs.declared.fault.PlaceFault.TheVariants.{OutOfMemory};

    ghost from_gives = { λ _ fault. fault ≡ OutOfMemory };

    fn from(_error: AllocFailed<T>) -> PlaceFault {
        Self::OutOfMemory
    }
}
