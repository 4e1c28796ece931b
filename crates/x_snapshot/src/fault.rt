//! Why no snapshot could be made or read.
ghost use Rattle.std.specs.Prelude.{◌≡◌};
ghost use Rattle.x_snapshot.specs.Faults.{number_of, name_of};
ghost use Rattle.x_snapshot.specs.declared.fault.SnapshotFault.TheVariants as faults;

use std::alloc::{AllocError, AllocFailed};
use thiserror::Error;

/// Why parts make no snapshot, or a text is none.
#[derive(Clone, Copy, Debug, PartialEq, Eq, Error)]
pub enum SnapshotFault {
    #[error("the text doesn't begin as a snapshot")]
    BadHeader,
    #[error("the text has another version")]
    BadVersion,
    #[error("the problem isn't in its one spelling")]
    BadProblem,
    #[error("a line of the branch, the state or the end isn't in form")]
    BadState,
    #[error("a cut or the state isn't on the run")]
    NotOnRun,
    #[error("the branch ends before it begins, or the state is outside it")]
    OutsideBranch,
    #[error("the text ends early")]
    Truncated,
    #[error("bytes follow the end")]
    TrailingBytes,
    #[error("nothing asks for the second version")]
    Spelling,
    #[error("a breakpoint isn't in form, can't be met or comes twice")]
    BadBreak,
    #[error("out of memory")]
    OutOfMemory,
}

impl SnapshotFault {
    /// Its number, from 1; out of memory has none.
    pub fn number(self) -> Option<u8>
        ensures { result ≡ number_of self }
    {
        match self {
            SnapshotFault::BadHeader => Some(1),
            SnapshotFault::BadVersion => Some(2),
            SnapshotFault::BadProblem => Some(3),
            SnapshotFault::BadState => Some(4),
            SnapshotFault::NotOnRun => Some(5),
            SnapshotFault::OutsideBranch => Some(6),
            SnapshotFault::Truncated => Some(7),
            SnapshotFault::TrailingBytes => Some(8),
            SnapshotFault::Spelling => Some(9),
            SnapshotFault::BadBreak => Some(10),
            SnapshotFault::OutOfMemory => None,
        }
    }

    /// Its name, in one word.
    pub fn name(self) -> &'static str
        ensures { result.now ≡ name_of self }
    {
        match self {
            SnapshotFault::BadHeader => "BadHeader",
            SnapshotFault::BadVersion => "BadVersion",
            SnapshotFault::BadProblem => "BadProblem",
            SnapshotFault::BadState => "BadState",
            SnapshotFault::NotOnRun => "NotOnRun",
            SnapshotFault::OutsideBranch => "OutsideBranch",
            SnapshotFault::Truncated => "Truncated",
            SnapshotFault::TrailingBytes => "TrailingBytes",
            SnapshotFault::Spelling => "Spelling",
            SnapshotFault::BadBreak => "BadBreak",
            SnapshotFault::OutOfMemory => "OutOfMemory",
        }
    }
}

impl From<AllocError> for SnapshotFault {
    // So `?` passes a refusal by memory on as this fault.
    ghost from_gives = { λ _ e. e ≡ faults.OutOfMemory };

    fn from(_e: AllocError) -> SnapshotFault {
        SnapshotFault::OutOfMemory
    }
}

impl<T: Drop> From<AllocFailed<T>> for SnapshotFault {
    ghost from_gives = { λ _ e. e ≡ faults.OutOfMemory };

    fn from(_e: AllocFailed<T>) -> SnapshotFault {
        SnapshotFault::OutOfMemory
    }
}
