//! Why a text, or a part of it, is refused: a fault of the reader's own kind, or no memory.
ghost use Rattle.std.specs.Prelude.{◌≡◌};
ghost use Rattle.text_lines.specs.Answers.{in_line};
ghost use Rattle.text_lines.specs.declared.refusal.Refusal.TheVariants as refusals;
ghost use Rattle.text_lines.specs.declared.refusal.TextRefusal.TheVariants as text_refusals;

use std::alloc::{AllocError, AllocFailed};
use std::error::Error;
use std::fmt::{self, Debug, Display, Formatter, Write};

/// Why a call is refused.
#[derive(Clone, Copy, Debug, PartialEq, Eq)]
pub enum Refusal<F> {
    /// What is wrong with what was given.
    Fault(F),
    /// There was no memory to go on; what was given may be right.
    OutOfMemory,
}

impl<F> Refusal<F> {
    /// The same, with the number of its line, which is 0 for a fault of the whole text.
    pub fn in_line(self, line: u64) -> TextRefusal<F>
        ensures { result ≡ in_line line self }
    {
        match self {
            Refusal::Fault(fault) => TextRefusal::Fault { fault, line },
            Refusal::OutOfMemory => TextRefusal::OutOfMemory,
        }
    }
}

impl<F> From<AllocError> for Refusal<F> {
    ghost from_gives = { λ _ e. e ≡ refusals.OutOfMemory };

    fn from(_e: AllocError) -> Refusal<F> {
        Refusal::OutOfMemory
    }
}

impl<F, T: Drop> From<AllocFailed<T>> for Refusal<F> {
    ghost from_gives = { λ _ e. e ≡ refusals.OutOfMemory };

    fn from(_e: AllocFailed<T>) -> Refusal<F> {
        // The value that found no room is let go: a reader that is refused has no use for it.
        Refusal::OutOfMemory
    }
}

impl<F: Display> Display for Refusal<F> {
    fn fmt<W: Write>(&self, f: &mut Formatter<W>) -> fmt::Result {
        match self {
            Refusal::Fault(fault) => write!(f, "{fault}"),
            Refusal::OutOfMemory => f.write_str("out of memory"),
        }
    }
}

impl<F: Debug + Display + Drop> Error for Refusal<F> {}

/// Why a text could not be read. The line's number is 0 for a fault of the whole text.
#[derive(Clone, Copy, Debug, PartialEq, Eq)]
pub enum TextRefusal<F> {
    /// What is wrong, and in which line.
    Fault { fault: F, line: u64 },
    /// There was no memory to go on; the text may be right.
    OutOfMemory,
}

impl<F> From<AllocError> for TextRefusal<F> {
    ghost from_gives = { λ _ e. e ≡ text_refusals.OutOfMemory };

    fn from(_e: AllocError) -> TextRefusal<F> {
        TextRefusal::OutOfMemory
    }
}

impl<F, T: Drop> From<AllocFailed<T>> for TextRefusal<F> {
    ghost from_gives = { λ _ e. e ≡ text_refusals.OutOfMemory };

    fn from(_e: AllocFailed<T>) -> TextRefusal<F> {
        TextRefusal::OutOfMemory
    }
}

impl<F: Display> Display for TextRefusal<F> {
    fn fmt<W: Write>(&self, f: &mut Formatter<W>) -> fmt::Result {
        match self {
            TextRefusal::Fault { fault, line } => write!(f, "line {line}: {fault}"),
            TextRefusal::OutOfMemory => f.write_str("out of memory"),
        }
    }
}

impl<F: Debug + Display + Drop> Error for TextRefusal<F> {}
