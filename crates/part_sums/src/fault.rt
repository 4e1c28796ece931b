//! Why parts don't add up.
ghost use Rattle.std.specs.Prelude.{◌≡◌};
ghost use Rattle.part_sums.specs.Faults.{number_of, name_of};

use text_lines::Refusal;
use thiserror::Error;

/// Why a text is none of a whole and its parts with their answers.
#[derive(Clone, Copy, Debug, PartialEq, Eq, Error)]
pub enum JoinFault {
    #[error("the text doesn't begin with a snapshot")]
    NoWhole,
    #[error("these lines are no part of this problem")]
    BadPart,
    #[error("a cut or the state of the part isn't on the run, or not in its branch")]
    NotOnRun,
    #[error("a part is left out before this one: it begins after the end of the one before")]
    Gap,
    #[error("the part begins before the end of the one before")]
    Overlap,
    #[error("the part comes twice: it begins where the one before began")]
    Twice,
    #[error("these lines aren't the answer of a part that ended")]
    BadAnswer,
    #[error("a number has more than 1,000 digits")]
    TooLong,
    #[error("the text is cut off")]
    Truncated,
    #[error("a part is left out at the end: the last one ends before the whole does")]
    LeftOut,
    #[error("the steps of this answer can't be those of its part: they don't fit its visits and levels")]
    BadNumbers,
}

impl JoinFault {
    /// Its number, from 1.
    pub fn number(self) -> u8
        ensures { result ≡ number_of self }
    {
        match self {
            JoinFault::NoWhole => 1,
            JoinFault::BadPart => 2,
            JoinFault::NotOnRun => 3,
            JoinFault::Gap => 4,
            JoinFault::Overlap => 5,
            JoinFault::Twice => 6,
            JoinFault::BadAnswer => 7,
            JoinFault::TooLong => 8,
            JoinFault::Truncated => 9,
            JoinFault::LeftOut => 10,
            JoinFault::BadNumbers => 11,
        }
    }

    /// Its name, in one word.
    pub fn name(self) -> &'static str
        ensures { result.now ≡ name_of self }
    {
        match self {
            JoinFault::NoWhole => "NoWhole",
            JoinFault::BadPart => "BadPart",
            JoinFault::NotOnRun => "NotOnRun",
            JoinFault::Gap => "Gap",
            JoinFault::Overlap => "Overlap",
            JoinFault::Twice => "Twice",
            JoinFault::BadAnswer => "BadAnswer",
            JoinFault::TooLong => "TooLong",
            JoinFault::Truncated => "Truncated",
            JoinFault::LeftOut => "LeftOut",
            JoinFault::BadNumbers => "BadNumbers",
        }
    }
}

/// What a part of a text says, or why it is refused.
pub(crate) type Found<T> = Result<T, Refusal<JoinFault>>;
