//! Why a cell or a translation is refused.
ghost use Rattle.std.specs.Prelude.{◌≡◌, Some, None};

use std::alloc::AllocError;
use thiserror::Error;

/// Why there is no such cell.
#[derive(Clone, Copy, Debug, PartialEq, Eq, Error)]
pub enum CellFault {
    #[error("a coordinate is above 31")]
    OutOfRange,
}

impl CellFault {
    /// The fault's number.
    pub fn number(self) -> u8
        ensures { result ≡ 1 }
    {
        match self {
            CellFault::OutOfRange => 1,
        }
    }
}

/// Why a shape is not translated.
#[derive(Clone, Copy, Debug, PartialEq, Eq, Error)]
pub enum TranslateFault {
    #[error("a cell would leave the coordinates 0 to 31")]
    OutOfRange,
    #[error("out of memory")]
    OutOfMemory,
}

impl TranslateFault {
    /// The fault's number; out of memory has none.
    pub fn number(self) -> Option<u8>
        ensures out_of_range { self ≡ TranslateFault.OutOfRange → result ≡ Some 1 }
        ensures out_of_memory { self ≡ TranslateFault.OutOfMemory → result ≡ None }
    {
        match self {
            TranslateFault::OutOfRange => Some(1),
            TranslateFault::OutOfMemory => None,
        }
    }
}

impl From<AllocError> for TranslateFault {
    ghost use Rattle.poly_cells.specs.declared.fault.TranslateFault.TheVariants.{OutOfMemory};

    ghost from_gives = { λ _ fault. fault ≡ OutOfMemory };

    fn from(_error: AllocError) -> TranslateFault {
        Self::OutOfMemory
    }
}
