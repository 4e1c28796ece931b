//! The refusals of a book.
ghost use Rattle.std.specs.Prelude.{◌≡◌, ◌↔◌, IfOk, IsTrue};
ghost use Rattle.lab_history.specs.Faults.{number_of, name_of};

use std::alloc::AllocError;
use thiserror::Error;
use x_steps::Mark;

/// Why a call of a book was refused.
#[derive(Debug, Drop, Error)]
pub enum BookFault {
    /// No tile has that id.
    #[error("no tile has that id")]
    UnknownBranch,
    /// The tile doesn't stand as the call asks.
    #[error("the tile does not stand so")]
    NotWaiting,
    /// The lease isn't the tile's current one, or the stretch doesn't begin at the tile's mark, which comes with it.
    #[error("the lease is not the tile's current one, or the stretch does not begin at its mark")]
    StaleLease(Mark),
    /// The stretch or the cut is another problem's.
    #[error("that is of another problem")]
    ForeignProblem,
    /// The cut isn't after the tile's mark.
    #[error("the cut is not after the tile's mark")]
    NotAfterMark,
    /// The cut isn't before the tile's end, or the stretch ends after it.
    #[error("that is beyond the tile's end")]
    BeyondEnd,
    /// The state is none of the tile's marks.
    #[error("the state is none of the tile's marks")]
    NotAMark,
    /// The tile's mark isn't its end.
    #[error("the tile's mark is not its end")]
    NotAtEnd,
    /// The tile has no posted stretch.
    #[error("the tile has no posted stretch")]
    NothingToRetract,
    /// The seats that come back to a desk aren't all of its own with the records of what was called at them.
    #[error("the seats are not those of the desk")]
    SeatMismatch,
    #[error("out of memory")]
    OutOfMemory,
}

impl BookFault {
    /// Its number, from 1; out of memory has none.
    pub fn number(&self) -> Option<u8>
        ensures { result ≡ number_of self.now }
    {
        match self {
            BookFault::UnknownBranch => Some(1),
            BookFault::NotWaiting => Some(2),
            BookFault::StaleLease(_) => Some(3),
            BookFault::ForeignProblem => Some(4),
            BookFault::NotAfterMark => Some(5),
            BookFault::BeyondEnd => Some(6),
            BookFault::NotAMark => Some(7),
            BookFault::NotAtEnd => Some(8),
            BookFault::NothingToRetract => Some(9),
            BookFault::SeatMismatch => Some(10),
            BookFault::OutOfMemory => None,
        }
    }

    /// Its name, in one word.
    pub fn name(&self) -> &'static str
        ensures { result.now ≡ name_of self.now }
    {
        match self {
            BookFault::UnknownBranch => "UnknownBranch",
            BookFault::NotWaiting => "NotWaiting",
            BookFault::StaleLease(_) => "StaleLease",
            BookFault::ForeignProblem => "ForeignProblem",
            BookFault::NotAfterMark => "NotAfterMark",
            BookFault::BeyondEnd => "BeyondEnd",
            BookFault::NotAMark => "NotAMark",
            BookFault::NotAtEnd => "NotAtEnd",
            BookFault::NothingToRetract => "NothingToRetract",
            BookFault::SeatMismatch => "SeatMismatch",
            BookFault::OutOfMemory => "OutOfMemory",
        }
    }

    /// Whether it is the same refusal.
    pub fn same(&self, other: &BookFault) -> bool
        ensures { IsTrue result ↔ (self.now ≡ other.now) }
    {
        match (self, other) {
            (BookFault::UnknownBranch, BookFault::UnknownBranch) => true,
            (BookFault::NotWaiting, BookFault::NotWaiting) => true,
            (BookFault::StaleLease(one), BookFault::StaleLease(other)) => one.same(other),
            (BookFault::ForeignProblem, BookFault::ForeignProblem) => true,
            (BookFault::NotAfterMark, BookFault::NotAfterMark) => true,
            (BookFault::BeyondEnd, BookFault::BeyondEnd) => true,
            (BookFault::NotAMark, BookFault::NotAMark) => true,
            (BookFault::NotAtEnd, BookFault::NotAtEnd) => true,
            (BookFault::NothingToRetract, BookFault::NothingToRetract) => true,
            (BookFault::SeatMismatch, BookFault::SeatMismatch) => true,
            (BookFault::OutOfMemory, BookFault::OutOfMemory) => true,
            _ => false,
        }
    }

    /// A copy, with a mark of its own.
    pub fn copy(&self) -> Result<BookFault, AllocError>
        ensures { IfOk result (λ fault. fault ≡ self.now) }
    {
        match self {
            BookFault::UnknownBranch => Ok(BookFault::UnknownBranch),
            BookFault::NotWaiting => Ok(BookFault::NotWaiting),
            // The only one that holds memory.
            BookFault::StaleLease(mark) => Ok(BookFault::StaleLease(mark.copy()?)),
            BookFault::ForeignProblem => Ok(BookFault::ForeignProblem),
            BookFault::NotAfterMark => Ok(BookFault::NotAfterMark),
            BookFault::BeyondEnd => Ok(BookFault::BeyondEnd),
            BookFault::NotAMark => Ok(BookFault::NotAMark),
            BookFault::NotAtEnd => Ok(BookFault::NotAtEnd),
            BookFault::NothingToRetract => Ok(BookFault::NothingToRetract),
            BookFault::SeatMismatch => Ok(BookFault::SeatMismatch),
            BookFault::OutOfMemory => Ok(BookFault::OutOfMemory),
        }
    }
}
