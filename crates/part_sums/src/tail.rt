//! The snapshots of a whole and of its parts.
ghost use Rattle.std.specs.Prelude.{◌≡◌, ◌++◌, length, map};
ghost use Rattle.shared_words.specs.Answers.{ReturnsItems};
ghost use Rattle.text_lines.specs.Answers.{Gives};
ghost use Rattle.cover_problem.specs.Grammar.{word_lines};
ghost use Rattle.x_snapshot.specs.Writer.{version_of};
ghost use Rattle.x_snapshot.specs.Judged.{snapshot_of};
ghost use Rattle.x_snapshot.specs.Reader.{Reads};
ghost use Rattle.part_sums.specs.Parts as spec;
ghost use Rattle.part_sums.specs.Reading.{up_to_end, whole_from, part_from, part_fault, whole_in, tail_in};

use crate::fault::{Found, JoinFault};
use cover_problem::{Problem, write_cover};
use std::alloc::{AllocError, Global};
use text_lines::{Refusal, split_ended_line, write_number_line};
use x_snapshot::{Snapshot, SnapshotFault, read_snapshot};
use x_texts::Break;

/// The version of a snapshot of the problem with these breakpoints.
fn version_of(problem: &Problem, breaks: &[Break]) -> usize
    ensures { result ≡ version_of problem.now breaks.now }
{
    // Both secondary items and breakpoints need lines that the first version doesn't know.
    if problem.primary() < problem.items() || !breaks.is_empty() {
        2
    } else {
        1
    }
}

/// How many lines the cover text of a problem has.
fn line_count(problem: &Problem) -> usize
    ensures { result ≡ length (word_lines problem.now) }
{
    let maybe = if problem.primary() < problem.items() {
        1
    } else {
        0
    };
    1 + maybe + problem.options() as usize
}

/// The text of a snapshot before its line `from`.
pub(crate) fn head_text(alloc: Global, snapshot: &Snapshot) -> Result<Vec<u8>, AllocError>
    ensures { ReturnsItems result (spec.head_text snapshot.now) }
{
    let problem = snapshot.problem();
    let version = version_of(problem, snapshot.breaks());
    let cover = write_cover(alloc, problem)?;
    let mut text = Vec::new(alloc);
    write_number_line(&mut text, "polysnap", version)?;
    write_number_line(&mut text, "problem", line_count(problem))?;
    text.extend_from_slice(&cover)?;
    Ok(text)
}

/// A text up to and with its first line that is `end`, and what stands after that line.
fn up_to_end(text: &[u8]) -> Found<(&[u8], &[u8])>
    ensures { Gives (λ s. (s.0.now, s.1.now)) result (up_to_end text.now) }
{
    let mut rest = text;
    while let Some((line, after)) = split_ended_line(rest) {
        if line == b"end".as_slice() {
            return Ok(text.split_at(text.len() - after.len()));
        }
        rest = after;
    }
    Err(Refusal::Fault(JoinFault::Truncated))
}

/// The snapshot that a text is, as the whole.
fn whole_from(alloc: Global, text: &[u8]) -> Found<Snapshot>
    ensures { Gives (λ s. s) result (whole_from (snapshot_of text.now)) }
{
    match read_snapshot(alloc, text) {
        Ok(snapshot) => Ok(snapshot),
        Err(SnapshotFault::OutOfMemory) => Err(Refusal::OutOfMemory),
        Err(_) => Err(Refusal::Fault(JoinFault::NoWhole)),
    }
}

/// The fault of a part that is no snapshot.
fn part_fault(fault: SnapshotFault) -> JoinFault
    ensures { result ≡ part_fault fault }
{
    match fault {
        SnapshotFault::NotOnRun => JoinFault::NotOnRun,
        SnapshotFault::OutsideBranch => JoinFault::NotOnRun,
        _ => JoinFault::BadPart,
    }
}

/// The snapshot that a text is, as a part.
fn part_from(alloc: Global, text: &[u8]) -> Found<Snapshot>
    ensures { Gives (λ s. s) result (part_from (snapshot_of text.now)) }
{
    match read_snapshot(alloc, text) {
        Ok(snapshot) => Ok(snapshot),
        Err(SnapshotFault::OutOfMemory) => Err(Refusal::OutOfMemory),
        Err(fault) => Err(Refusal::Fault(part_fault(fault))),
    }
}

/// The snapshot of the part whose lines after its problem's these are.
fn part_of(alloc: Global, head: &[u8], tail: &[u8]) -> Found<Snapshot>
    ensures { Gives (λ s. s) result (part_from (snapshot_of (head.now ++ tail.now))) }
{
    // Read as a snapshot of its own: so its problem is the whole's, byte for byte.
    let mut text = Vec::from_slice(alloc, head)?;
    text.extend_from_slice(tail)?;
    part_from(alloc, &text)
}

/// The snapshot at the front of a text, and what stands after it.
#[tactic(auto, unfolding(crate::specs::Reading::whole_in))]
pub(crate) fn whole_in(alloc: Global, text: &[u8]) -> Found<(Snapshot, &[u8])>
    ensures { Reads (λ s. s) result (whole_in text.now) }
{
    let (front, rest) = up_to_end(text)?;
    let whole = whole_from(alloc, front)?;
    Ok((whole, rest))
}

/// The snapshot of a part whose lines from `from` on stand at the front of a text, and what stands after them.
#[tactic(auto, unfolding(crate::specs::Reading::tail_in))]
pub(crate) fn tail_in<'t>(alloc: Global, head: &[u8], text: &'t [u8]) -> Found<(Snapshot, &'t [u8])>
    ensures { Reads (λ s. s) result (tail_in head.now text.now) }
{
    let (tail, rest) = up_to_end(text)?;
    let part = part_of(alloc, head, tail)?;
    Ok((part, rest))
}
