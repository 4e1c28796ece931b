//! How a text is read line by line.
ghost use Rattle.std.specs.Prelude.{◌≡◌, ℕ, List, Result, Ok, IfOk, IfErr};
ghost use Rattle.text_lines.specs.Lines.{lines_of};
ghost use Rattle.text_lines.specs.Answers.{Gives, IsFaultAt};
ghost use Rattle.text_lines.specs.Reading.{lines_read};

use crate::line::split_line;
use crate::refusal::{Refusal, TextRefusal};
use std::alloc::Global;

/// What has been read of a text.
pub trait ByLine: Drop {
    type Fault;

    /// What a line adds to what the lines before it say.
    ghost line: { Self → List ℕ → Result Self Self.Fault };

    /// Adds a line. After a refusal nothing is known of what was read.
    fn add_line(&mut self, alloc: Global, bytes: &[u8]) -> Result<(), Refusal<Self::Fault>>
        ensures { Gives (λ _. self.new) result (line self.old bytes.now) };
}

/// Adds the lines of a text to a draft of no lines. A refusal is the first fault, with the number of its line, from 1.
pub fn read_lines<D: ByLine>(
    alloc: Global,
    nothing: D,
    text: &[u8],
) -> Result<D, TextRefusal<D::Fault>>
    ensures read { IfOk result (λ d. (n : ℕ) × (lines_read D.line nothing (lines_of text.now) ≡ Ok (d, n))) }
    ensures refused { IfErr result (λ r. IsFaultAt r (lines_read D.line nothing (lines_of text.now))) }
{
    let mut draft = nothing;
    let mut rest = text;
    // Lines count from 1: the number 0 is for faults of the whole text.
    let mut number: u64 = 1;
    while !rest.is_empty() {
        let (line, after) = split_line(rest);
        if let Err(refusal) = draft.add_line(alloc, line) {
            return Err(refusal.in_line(number));
        }
        number += 1;
        rest = after;
    }
    Ok(draft)
}
