//! The problem of a snapshot's text.
ghost use Rattle.std.specs.Prelude.{◌≤◌, length, IfOk};
ghost use Rattle.std.specs.Str.{bytes_eq};
ghost use Rattle.text_lines.specs.Lines.{words_of};
ghost use Rattle.text_lines.specs.Answers.{Gives};
ghost use Rattle.cover_problem.specs.Reading.{problem_of};
ghost use Rattle.cover_problem.specs.Grammar.{written};
ghost use Rattle.x_snapshot.specs.Reader as spec;
ghost use Rattle.x_snapshot.specs.Reader.{in_version, Reads};
ghost use Rattle.shared_words.specs.Answers.{Returns};

use crate::fault::SnapshotFault;
use crate::reader::Found;
use crate::reader::lines::{count_from, keyed, take_line};
use cover_problem::{MOST_OPTIONS, Problem, read_cover, write_cover};
use std::alloc::{AllocError, Global};
use text_lines::{Refusal, TextRefusal};

/// The number of the problem's lines, at least 1.
#[tactic(auto, unfolding(crate::specs::Reader::lines_from))]
fn lines_from(version: u8, words: &[u8]) -> Found<u32>
    ensures { Gives (λ n. n) result (spec.lines_from version (words_of words.now)) }
{
    // A line of items, one for each option, and in the second version one more for items that may be covered.
    let most = MOST_OPTIONS as u32 + u32::from(version);
    let count = count_from(SnapshotFault::BadProblem, most, words)?;
    // No problem is without its line of items.
    if count == 0 {
        return Err(Refusal::Fault(SnapshotFault::BadProblem));
    }
    Ok(count)
}

/// The number of the problem's lines, and what stands after its line.
#[tactic(auto, unfolding(crate::specs::Reader::keyed_line))]
fn lines_in(version: u8, text: &[u8]) -> Found<(u32, &[u8])>
    ensures { Reads (λ x. x) result (spec.lines_in version text.now) }
{
    let (words, rest) = keyed(SnapshotFault::BadProblem, b"problem", text)?;
    let count = lines_from(version, words)?;
    Ok((count, rest))
}

/// What stands after so many lines.
fn after_lines(count: u32, text: &[u8]) -> Found<&[u8]>
    ensures rest { Gives (λ rest. rest.now) result (spec.after_lines count text.now) }
    ensures within { IfOk result (λ rest. length rest.now ≤ length text.now) }
{
    // The lines are only counted: whether they are a problem is for its own reader.
    let mut rest = text;
    for _ in 0..count {
        let (_, after) = take_line(rest)?;
        rest = after;
    }
    Ok(rest)
}

/// Whether a problem is written as this text.
fn is_written(alloc: Global, problem: &Problem, text: &[u8]) -> Result<bool, AllocError>
    ensures { Returns result (bytes_eq (written problem.now) text.now) }
{
    // Who writes is the measure: a reader alone would take comments and blanks.
    let written = write_cover(alloc, problem)?;
    Ok(written.as_slice() == text)
}

/// The problem of a text in the spelling that is written.
#[tactic(auto, unfolding(crate::specs::Reader::spelled))]
fn spelled(alloc: Global, text: &[u8]) -> Found<Problem>
    ensures { Gives (λ p. p) result (spec.spelled text.now (problem_of text.now)) }
{
    let problem = match read_cover(alloc, text) {
        Ok(problem) => problem,
        // The number of the line would count within the problem, and a snapshot's fault has none.
        Err(TextRefusal::Fault { .. }) => return Err(Refusal::Fault(SnapshotFault::BadProblem)),
        Err(TextRefusal::OutOfMemory) => return Err(Refusal::OutOfMemory),
    };
    if !is_written(alloc, &problem, text)? {
        return Err(Refusal::Fault(SnapshotFault::BadProblem));
    }
    Ok(problem)
}

/// Whether a problem may stand in a text of the version.
#[tactic(auto, unfolding(crate::specs::Reader::in_version))]
fn check_version(version: u8, problem: &Problem) -> Found<()>
    ensures { Gives (λ _. problem.now) result (in_version version problem.now) }
{
    // Only the second version has items that may be covered.
    if version == 1 && problem.primary() < problem.items() {
        return Err(Refusal::Fault(SnapshotFault::BadProblem));
    }
    Ok(())
}

/// The problem of a text up to what stands after it.
#[tactic(auto, unfolding(crate::specs::Reader::problem_before))]
fn problem_before(alloc: Global, version: u8, text: &[u8], rest: &[u8]) -> Found<Problem>
    requires { length rest.now ≤ length text.now }
    ensures { Gives (λ p. p) result (spec.problem_before version text.now rest.now) }
{
    // What the count has passed over is the problem's text; who reads it sees nothing behind it.
    let (lines, _) = text.split_at(text.len() - rest.len());
    let problem = spelled(alloc, lines)?;
    check_version(version, &problem)?;
    Ok(problem)
}

/// The problem, and what stands after it.
#[tactic(auto, unfolding(crate::specs::Reader::problem_in))]
pub fn problem_in(alloc: Global, version: u8, text: &[u8]) -> Found<(Problem, &[u8])>
    ensures { Reads (λ x. x) result (spec.problem_in version text.now) }
{
    let (count, lines) = lines_in(version, text)?;
    let rest = after_lines(count, lines)?;
    let problem = problem_before(alloc, version, lines, rest)?;
    Ok((problem, rest))
}
