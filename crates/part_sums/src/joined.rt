//! The sum of all parts.
ghost use Rattle.std.specs.Prelude.{◌≡◌, List, Ok, IfOk, IfErr};
ghost use Rattle.shared_words.specs.Answers.{ReturnsItems};
ghost use Rattle.text_lines.specs.Answers.{GivesAt};
ghost use Rattle.text_lines.specs.declared.refusal.TextRefusal.TheVariants as refusals;
ghost use Rattle.x_snapshot.specs.Snapshot.{SnapshotValue};
ghost use Rattle.part_sums.specs.Parts.{CountedPart, IsJoined, EachJoined, sum_text};
ghost use Rattle.part_sums.specs.Reading.{whole_in};
ghost use Rattle.part_sums.specs.Joining.{join_of};
ghost use Rattle.part_sums.specs.Refusals.{IsJoinRefused, HasLine};

use crate::fault::JoinFault;
use crate::parts::Joining;
use crate::tail::{head_text, whole_in};
use crate::total::{Counted, sum_lines};
use std::alloc::Global;
use text_lines::TextRefusal;
use x_snapshot::Snapshot;

/// Joins the parts of a whole, whose snapshot stands before them in a text.
fn join_parts(
    alloc: Global,
    counted: Counted,
    whole: &Snapshot,
    text: &[u8],
    parts: &[u8],
) -> Result<Vec<u8>, TextRefusal<JoinFault>>
    requires { whole_in text.now ≡ Ok (whole.now, parts.now) }
    ensures sum { IfOk result (λ lines. (qs : List CountedPart) ×
        IsJoined text.now whole.now qs × (lines.items ≡ sum_text counted whole.now qs)) }
    ensures refused { IfErr result (IsJoinRefused text.now) }
    ensures line { IfErr result (HasLine text.now) }
    ensures found { GivesAt (λ lines. lines.items) result (join_of counted text.now) }
{
    let head = head_text(alloc, whole)?;
    let mut joining = Joining::new(alloc, whole)?;
    joining.take_parts(alloc, &head, text, parts)?;
    joining.check_end(alloc, whole, text)?;
    let lines = sum_lines(alloc, counted, whole.problem(), joining.counts())?;
    Ok(lines)
}

/// Adds up the answers of the parts of a whole: the lines that say how many visits, or packings of so many options, and steps there are,
/// and how many X2 states at each level.
///
/// The text is the snapshot of the whole, and then for each part in order the lines of its snapshot from `from` to `end`, and its answer.
/// A refusal says the first fault and the number of the line where the part or the answer begins that has it.
pub fn join(alloc: Global, text: &[u8], counted: Counted) -> Result<Vec<u8>, TextRefusal<JoinFault>>
    ensures sum { IfOk result (λ lines. (v : SnapshotValue) × (parts : List CountedPart) ×
        IsJoined text.now v parts × (lines.items ≡ sum_text counted v parts)) }
    ensures every { EachJoined text.now (λ v parts. ReturnsItems result (sum_text counted v parts)) }
    ensures always { EachJoined text.now (λ v parts.
        IfErr result (λ refusal. refusal ≡ refusals.OutOfMemory)) }
    ensures refused { IfErr result (IsJoinRefused text.now) }
    ensures line { IfErr result (HasLine text.now) }
    ensures found { GivesAt (λ lines. lines.items) result (join_of counted text.now) }
{
    let (whole, parts) = match whole_in(alloc, text) {
        Ok(found) => found,
        // It begins with the text.
        Err(refusal) => return Err(refusal.in_line(1)),
    };
    join_parts(alloc, counted, &whole, text, parts)
}
