//! Why a job has no answer, where its text isn't to blame.
ghost use Rattle.std.specs.Prelude.{◌≡◌};
ghost use Rattle.debug_script.specs.declared.fault.JobFault.TheVariants as faults;

use lab_pool::PoolFault;
use std::alloc::AllocError;
use thiserror::Error;

/// Why a job that may ask for workers has no answer. What a command line itself is refused for stands in the text.
#[derive(Clone, Copy, Debug, PartialEq, Eq, Error)]
pub enum JobFault {
    /// There was not enough memory.
    #[error("out of memory")]
    OutOfMemory,
    /// The workers did not finish.
    #[error("{0}")]
    Pool(PoolFault),
}

impl From<AllocError> for JobFault {
    ghost from_gives = { λ _ e. e ≡ faults.OutOfMemory };

    fn from(_e: AllocError) -> JobFault {
        JobFault::OutOfMemory
    }
}

impl From<PoolFault> for JobFault {
    ghost from_gives = { λ fault e. e ≡ faults.Pool fault };

    fn from(fault: PoolFault) -> JobFault {
        JobFault::Pool(fault)
    }
}
