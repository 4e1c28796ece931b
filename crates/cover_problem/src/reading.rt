//! The reader of cover texts.
ghost use Rattle.std.specs.Prelude.{◌≡◌, Ok, IfOk, IfErr};
ghost use Rattle.text_lines.specs.Answers.{GivesAt, IsFaultAt};
ghost use Rattle.cover_problem.specs.Problem.{ProblemValue};
ghost use Rattle.cover_problem.specs.Reading.{problem_of};
ghost use Rattle.cover_problem.specs.Grammar.{IsCoverText};

use crate::draft::Draft;
use crate::fault::{CoverFault, Fault, ProblemFault, told};
use crate::problem::Problem;
use std::alloc::Global;
use text_lines::read_lines;

/// The problem of a text.
fn read_problem(alloc: Global, bytes: &[u8]) -> Result<Problem, CoverFault>
    ensures { GivesAt (λ p. p) result (problem_of bytes.now) }
{
    let draft = read_lines(alloc, Draft::new(alloc), bytes)?;
    match told(draft.has_items(), Fault::NoItemLine) {
        Ok(()) => Ok(draft.into_problem()),
        // No line has this fault: its number is 0.
        Err(fault) => Err(ProblemFault::from(fault).in_line(0)),
    }
}

/// Reads a cover text. A refusal is the first fault.
///
/// The fault of a line comes with its number, from 1, and one of the whole text with 0.
pub fn read_cover(alloc: Global, bytes: &[u8]) -> Result<Problem, CoverFault>
    ensures read { IfOk result (λ p. problem_of bytes.now ≡ Ok p) }
    ensures refused { IfErr result (λ f. IsFaultAt f (problem_of bytes.now)) }
    ensures text { IfOk result (λ p. IsCoverText bytes.now p) }
    ensures every { (p : ProblemValue) → IsCoverText bytes.now p → GivesAt (λ q. q) result (Ok p) }
{
    read_problem(alloc, bytes)
}
