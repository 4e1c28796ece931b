//! Why the debugger refuses a command.
ghost use Rattle.std.specs.Prelude.{◌≡◌};
ghost use Rattle.debug_language.specs.Faults.{number_of, name_of};

use thiserror::Error;

/// Why the debugger itself refuses a command line.
#[derive(Clone, Copy, Debug, PartialEq, Eq, Error)]
pub enum DebugFault {
    #[error("the line is no command")]
    BadCommand,
    #[error("the search is at the end of its branch")]
    AtEnd,
    #[error("the search is where its steps begin")]
    AtStart,
    #[error("a branch is open already")]
    AlreadyOpen,
    #[error("no branch is open")]
    NoBranch,
}

impl DebugFault {
    /// Its number, from 1.
    pub fn number(self) -> u8
        ensures { result ≡ number_of self }
    {
        match self {
            DebugFault::BadCommand => 1,
            DebugFault::AtEnd => 2,
            DebugFault::AtStart => 3,
            DebugFault::AlreadyOpen => 4,
            DebugFault::NoBranch => 5,
        }
    }

    /// Its name, in one word.
    pub fn name(self) -> &'static str
        ensures { result.now ≡ name_of self }
    {
        match self {
            DebugFault::BadCommand => "BadCommand",
            DebugFault::AtEnd => "AtEnd",
            DebugFault::AtStart => "AtStart",
            DebugFault::AlreadyOpen => "AlreadyOpen",
            DebugFault::NoBranch => "NoBranch",
        }
    }
}
