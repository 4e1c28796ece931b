//! The refusals of a pool.
ghost use Rattle.std.specs.Prelude.{◌≡◌};
ghost use Rattle.lab_pool.specs.Faults.{number_of, name_of};

use thiserror::Error;

/// Why a pool didn't finish its book.
#[derive(Clone, Copy, Debug, PartialEq, Eq, Error)]
pub enum PoolFault {
    #[error("there must be 1 to 32 workers")]
    BadWorkerCount,
    #[error("out of memory")]
    OutOfMemory,
    #[error("tiles that are held are left")]
    Held,
    #[error("a thread could not be started")]
    NoThread,
    #[error("the book does not tell what the workers did")]
    Mismatch,
}

impl PoolFault {
    /// Its number, from 1.
    pub fn number(self) -> u8
        ensures { result ≡ number_of self }
    {
        match self {
            PoolFault::BadWorkerCount => 1,
            PoolFault::OutOfMemory => 2,
            PoolFault::Held => 3,
            PoolFault::NoThread => 4,
            PoolFault::Mismatch => 5,
        }
    }

    /// Its name, in one word.
    pub fn name(self) -> &'static str
        ensures { result.now ≡ name_of self }
    {
        match self {
            PoolFault::BadWorkerCount => "BadWorkerCount",
            PoolFault::OutOfMemory => "OutOfMemory",
            PoolFault::Held => "Held",
            PoolFault::NoThread => "NoThread",
            PoolFault::Mismatch => "Mismatch",
        }
    }
}
