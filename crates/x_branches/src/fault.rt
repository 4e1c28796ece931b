//! The refusals of cuts and runners.
ghost use Rattle.std.specs.Prelude.{◌≡◌};
ghost use Rattle.x_branches.specs.Faults.{number_of, name_of, number_of_cut};

use thiserror::Error;
use x_steps::AtFault;

/// Why a call of a runner was refused.
#[derive(Clone, Copy, Debug, PartialEq, Eq, Error)]
pub enum RunnerFault {
    #[error("the runner is at the end of its branch")]
    AtBranchEnd,
    #[error("the runner is at its mark")]
    AtMark,
    #[error("no option is untried at that level")]
    NothingUntried,
    #[error("that option is not untried there")]
    NotUntried,
    #[error("that is outside the branch")]
    OutsideBranch,
    #[error("that does not end at the mark")]
    NotAtMark,
    #[error("the stretch has as many steps as can be counted")]
    StretchFull,
    #[error("out of memory")]
    OutOfMemory,
}

impl RunnerFault {
    /// Its number, from 1; out of memory has none.
    pub fn number(self) -> Option<u8>
        ensures { result ≡ number_of self }
    {
        match self {
            RunnerFault::AtBranchEnd => Some(1),
            RunnerFault::AtMark => Some(2),
            RunnerFault::NothingUntried => Some(3),
            RunnerFault::NotUntried => Some(4),
            RunnerFault::OutsideBranch => Some(5),
            RunnerFault::NotAtMark => Some(6),
            RunnerFault::StretchFull => Some(7),
            RunnerFault::OutOfMemory => None,
        }
    }

    /// Its name, in one word.
    pub fn name(self) -> &'static str
        ensures { result.now ≡ name_of self }
    {
        match self {
            RunnerFault::AtBranchEnd => "AtBranchEnd",
            RunnerFault::AtMark => "AtMark",
            RunnerFault::NothingUntried => "NothingUntried",
            RunnerFault::NotUntried => "NotUntried",
            RunnerFault::OutsideBranch => "OutsideBranch",
            RunnerFault::NotAtMark => "NotAtMark",
            RunnerFault::StretchFull => "StretchFull",
            RunnerFault::OutOfMemory => "OutOfMemory",
        }
    }
}

/// Why no cut could be made.
#[derive(Clone, Copy, Debug, PartialEq, Eq, Error)]
pub enum CutFault {
    /// The path is empty, or none that the search can take.
    #[error("the search can't be cut there")]
    NotUntried,
    #[error("out of memory")]
    OutOfMemory,
}

impl CutFault {
    /// Its number among those of a runner; out of memory has none.
    pub fn number(self) -> Option<u8>
        ensures { result ≡ number_of_cut self }
    {
        match self {
            // The number that `RunnerFault::NotUntried` has.
            CutFault::NotUntried => Some(4),
            CutFault::OutOfMemory => None,
        }
    }
}

/// Why no runner could be set at a state.
#[derive(Clone, Copy, Debug, PartialEq, Eq, Error)]
pub enum StartFault {
    /// The state is none of the problem's search.
    #[error("{0}")]
    Steps(AtFault),
    /// The branch is none of the problem's run, or the state is outside it.
    #[error("{0}")]
    Runner(RunnerFault),
}
