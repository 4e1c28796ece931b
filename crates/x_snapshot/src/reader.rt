//! The reader of snapshots.
ghost use Rattle.std.specs.Prelude.{◌≡◌, Ok, IfOk, IfErr};
ghost use Rattle.text_lines.specs.Lines.{words_of};
ghost use Rattle.text_lines.specs.Answers.{Gives};
ghost use Rattle.x_snapshot.specs.Snapshot.{parts_value, EachSnapshot};
ghost use Rattle.x_snapshot.specs.Writer.{snapshot_text};
ghost use Rattle.x_snapshot.specs.Reader as spec;
ghost use Rattle.x_snapshot.specs.Reader.{parts_of, Reads, Says};
ghost use Rattle.x_snapshot.specs.ReadRefusals.{IsReadRefused, fault_from};
ghost use Rattle.x_snapshot.specs.Judged.{snapshot_of};
ghost use Rattle.shared_words.specs.Answers.{Returns};
ghost use Rattle.x_snapshot.specs.Refusals.{TellsFault};

mod breaks;
mod lines;
mod position;
mod problem;

use crate::fault::SnapshotFault;
use crate::snapshot::{PartsAfter, Snapshot, SnapshotParts};
use crate::writer::needs_second;
pub use breaks::break_from;
use breaks::breaks_of_version;
use cover_problem::Problem;
pub use lines::{only_word, option_number};
use lines::{are_digits, keyed};
use position::position_in;
pub use position::{is_state, state_from};
use problem::problem_in;
use std::alloc::Global;
use text_lines::{Refusal, has_words};
use x_texts::Break;

/// What a part of a text says, or why it is refused.
pub type Found<T> = Result<T, Refusal<SnapshotFault>>;

/// The version of these digits.
fn version_from(word: &[u8]) -> Found<u8>
    ensures { Gives (λ n. n) result (spec.version_from word.now) }
{
    match word {
        b"1" => Ok(1),
        b"2" => Ok(2),
        _ => Err(Refusal::Fault(SnapshotFault::BadVersion)),
    }
}

/// The version of the first line's words.
#[tactic(auto, unfolding(crate::specs::Reader::header))]
fn header(words: &[u8]) -> Found<u8>
    ensures { Gives (λ n. n) result (spec.header (words_of words.now)) }
{
    let Some(word) = only_word(words) else {
        return Err(Refusal::Fault(SnapshotFault::BadHeader));
    };
    // Digits that name no version are of a version, and have a fault of their own.
    if !are_digits(word) {
        return Err(Refusal::Fault(SnapshotFault::BadHeader));
    }
    version_from(word)
}

/// The version, and what stands after the first line.
#[tactic(auto, unfolding(crate::specs::Reader::keyed_line))]
fn version_in(text: &[u8]) -> Found<(u8, &[u8])>
    ensures { Reads (λ x. x) result (spec.version_in text.now) }
{
    // The version comes first, since it says which lines may follow.
    let (words, rest) = keyed(SnapshotFault::BadHeader, b"polysnap", text)?;
    let version = header(words)?;
    Ok((version, rest))
}

/// Whether nothing but the key stands in the last line.
#[tactic(auto, unfolding(crate::specs::Reader::end_from))]
fn check_end(words: &[u8]) -> Found<()>
    ensures { Gives (λ _. tt) result (spec.end_from (words_of words.now)) }
{
    if has_words(words) {
        return Err(Refusal::Fault(SnapshotFault::BadState));
    }
    Ok(())
}

/// What stands after the last line.
#[tactic(auto, unfolding(crate::specs::Reader::keyed_line))]
fn after_end(text: &[u8]) -> Found<&[u8]>
    ensures { Gives (λ rest. (tt, rest.now)) result (spec.end_in text.now) }
{
    let (words, rest) = keyed(SnapshotFault::BadState, b"end", text)?;
    check_end(words)?;
    Ok(rest)
}

/// Whether nothing follows, and the second version is needed.
#[tactic(auto, unfolding(crate::specs::Reader::checked_end))]
fn check_whole(version: u8, problem: &Problem, breaks: &[Break], rest: &[u8]) -> Found<()>
    ensures { Gives (λ _. tt) result (spec.checked_end version problem.now breaks.now rest.now) }
{
    // Bytes behind the last line come before the version: an order of faults that the format fixes.
    if !rest.is_empty() {
        return Err(Refusal::Fault(SnapshotFault::TrailingBytes));
    }
    // One spelling: what the first version can say isn't said in the second.
    if version == 2 && !needs_second(problem, breaks) {
        return Err(Refusal::Fault(SnapshotFault::Spelling));
    }
    Ok(())
}

/// Checks what stands after the breakpoints: the last line, nothing after it, and the version that is needed.
#[tactic(auto, unfolding(crate::specs::Reader::ended))]
fn check_ended(version: u8, problem: &Problem, breaks: &[Break], text: &[u8]) -> Found<()>
    ensures { Gives (λ _. tt) result (spec.ended version problem.now breaks.now text.now) }
{
    let rest = after_end(text)?;
    check_whole(version, problem, breaks, rest)
}

/// What a text says after its problem: the cuts, the state and the breakpoints.
#[tactic(auto, unfolding(crate::specs::Reader::parts_after))]
fn parts_after(alloc: Global, version: u8, problem: &Problem, text: &[u8]) -> Found<PartsAfter>
    ensures { Gives (λ v. parts_value problem.now v.0 v.1 v.2 v.3.items) result (spec.parts_after version problem.now text.now) }
{
    let ((lo, hi, state), rest) = position_in(alloc, text)?;
    // The second version has lines for breakpoints, the first has none.
    let (breaks, rest) = breaks_of_version(alloc, version, problem, rest)?;
    check_ended(version, problem, &breaks, rest)?;
    Ok((lo, hi, state, breaks))
}

/// What a text says. Whether it is on the run is not judged.
#[tactic(auto, unfolding(crate::specs::Reader::parts_of))]
pub fn read_parts(alloc: Global, text: &[u8]) -> Found<SnapshotParts>
    ensures { Gives (λ v. parts_value v.0 v.1 v.2 v.3 v.4.items) result (parts_of text.now) }
{
    // Line by line from the front, so the first fault that is met is that of the first line with one.
    let (version, rest) = version_in(text)?;
    let (problem, rest) = problem_in(alloc, version, rest)?;
    let (lo, hi, state, breaks) = parts_after(alloc, version, &problem, rest)?;
    Ok((problem, lo, hi, state, breaks))
}

/// A refusal as a fault.
pub fn fault_from(refusal: Refusal<SnapshotFault>) -> SnapshotFault
    ensures { result ≡ fault_from refusal }
{
    match refusal {
        Refusal::Fault(fault) => fault,
        Refusal::OutOfMemory => SnapshotFault::OutOfMemory,
    }
}

/// Reads a snapshot. A refusal is the first fault: of the lines in their order, then bytes that follow, then a second version that
/// nothing asks for, then a cut or a state that isn't on the run, then one that is outside the branch.
pub fn read_snapshot(alloc: Global, bytes: &[u8]) -> Result<Snapshot, SnapshotFault>
    ensures read { IfOk result (λ s. Says bytes.now s) }
    ensures text { IfOk result (λ s. bytes.now ≡ snapshot_text s) }
    ensures every { EachSnapshot (λ v. bytes.now ≡ snapshot_text v → Returns result v) }
    ensures always { EachSnapshot (λ v. bytes.now ≡ snapshot_text v → IfErr result (λ fault. fault ≡ SnapshotFault.OutOfMemory)) }
    ensures refused { IfErr result (λ fault. IsReadRefused bytes.now fault) }
    ensures snapshot { IfOk result (λ s. snapshot_of bytes.now ≡ Ok s) }
    ensures fault { TellsFault result (snapshot_of bytes.now) }
{
    let (problem, lo, hi, state, breaks) = match read_parts(alloc, bytes) {
        Ok(parts) => parts,
        Err(refusal) => return Err(fault_from(refusal)),
    };
    // The run is judged last, since it takes a table and three walks.
    match Snapshot::new(alloc, problem, lo, hi, state, breaks) {
        Ok(snapshot) => Ok(snapshot),
        // The parts were made of the text, which the caller has still: they need not come back.
        Err(refused) => Err(refused.fault),
    }
}
