//! What can be wrong with a problem.
ghost use Rattle.std.specs.Prelude.{◌≡◌, true, false, OnOk, IfErr};
ghost use Rattle.cover_problem.specs.Faults.{number_of, name_of};
ghost use Rattle.text_lines.specs.declared.refusal.Refusal.TheVariants as refusals;

use text_lines::{Refusal, TextRefusal};
use thiserror::Error;

/// A fault of a problem or of its text.
#[derive(Clone, Copy, Debug, PartialEq, Eq, Error)]
pub enum Fault {
    #[error("a name isn't one to eight letters, digits and `_`")]
    BadName,
    #[error("an item comes twice")]
    RepeatedItem,
    #[error("an option names no item")]
    UnknownItem,
    #[error("an item comes twice in an option")]
    ItemTwiceInOption,
    #[error("the problem is too large")]
    TooLarge,
    #[error("there are no items to cover")]
    NoItemLine,
    #[error("a line isn't of a cover text")]
    BadLine,
}

impl Fault {
    /// Its number, from 1.
    pub fn number(self) -> u8
        ensures { result ≡ number_of self }
    {
        match self {
            Fault::BadName => 1,
            Fault::RepeatedItem => 2,
            Fault::UnknownItem => 3,
            Fault::ItemTwiceInOption => 4,
            Fault::TooLarge => 5,
            Fault::NoItemLine => 6,
            Fault::BadLine => 7,
        }
    }

    /// Its name, in one word.
    pub fn name(self) -> &'static str
        ensures { result.now ≡ name_of self }
    {
        match self {
            Fault::BadName => "BadName",
            Fault::RepeatedItem => "RepeatedItem",
            Fault::UnknownItem => "UnknownItem",
            Fault::ItemTwiceInOption => "ItemTwiceInOption",
            Fault::TooLarge => "TooLarge",
            Fault::NoItemLine => "NoItemLine",
            Fault::BadLine => "BadLine",
        }
    }
}

/// Why no problem could be made: a fault, or no memory.
pub type ProblemFault = Refusal<Fault>;

/// A call that takes no memory answers a fault alone. Where it stands in a call that takes some, its fault is told as it is.
impl From<Fault> for ProblemFault {
    ghost from_gives = { λ fault refusal. refusal ≡ refusals.Fault fault };

    fn from(fault: Fault) -> ProblemFault {
        Refusal::Fault(fault)
    }
}

/// The fault, where what has to hold doesn't. No memory is asked for here, so none can be wanting.
#[inline(always)]
pub fn told(holds: bool, fault: Fault) -> Result<(), Fault>
    ensures holds { OnOk result (holds ≡ true) }
    ensures fault { IfErr result (λ told. (told ≡ fault) × (holds ≡ false)) }
{
    if holds {
        return Ok(());
    }
    Err(fault)
}

/// Why a text could not be read: a fault with the number of its line, which is 0 for a fault of the whole text, or no memory.
pub type CoverFault = TextRefusal<Fault>;

/// What a refused call hands back beside its fault.
#[derive(Debug, Drop)]
pub struct Refused<F, G> {
    /// Why it was refused.
    pub fault: F,
    /// What the call took, as it was.
    pub given: G,
}
