//! Parts that are taken in their order.
ghost use Rattle.std.specs.Prelude.{◌≡◌, ◌<◌, ◌≤◌, [], cond, length, filter, IfOk, IfErr, OnOk};
ghost use Rattle.shared_words.specs.Answers.{Returns};
ghost use Rattle.text_lines.specs.Lines.{is_newline};
ghost use Rattle.x_snapshot.specs.Snapshot.{IsSnapshot};
ghost use Rattle.part_sums.specs.Answers.{counts_value, no_counts, both_counts};
ghost use Rattle.part_sums.specs.Parts.{last_state};
ghost use Rattle.part_sums.specs.Reading.{line_of};
ghost use Rattle.part_sums.specs.Taking.{joining_with, IsNextPart, IsNextRefused, IsPartTaken, IsTakenRefused, AllTaken, IsOneRefused, IsEndRefused};

use crate::answer::part_answer_in;
use crate::fault::{Found, JoinFault};
use crate::order::{check_place, last_state};
use crate::sum::{both_counts, no_counts};
use crate::tail::tail_in;
use cover_counts::Counts;
use std::alloc::{AllocError, Global};
use std::marker::Model;
use text_lines::{Refusal, TextRefusal};
use x_snapshot::Snapshot;
use x_steps::State;

/// What was taken so far.
#[derive(Drop)]
pub(crate) struct Joining {
    /// Where the last part begins.
    before: State,
    /// Where it ends.
    here: State,
    counts: Counts,
}

impl Model for Joining {
    ghost use Rattle.x_steps.specs.StateView.{state_value};
    ghost use Rattle.part_sums.specs.Answers.{counts_value};
    ghost use Rattle.part_sums.specs.Taking.{JoiningValue, joining_with};

    ghost Value = { JoiningValue };

    ghost view = { λ j. joining_with (state_value j.before) (state_value j.here) (counts_value j.counts) };
}

/// How many lines end at a byte.
fn line_ends(byte: u8) -> usize
    ensures count { result ≡ cond (is_newline byte) 1 0 }
    ensures within { result ≤ 1 }
{
    if byte == b'\n' { 1 } else { 0 }
}

/// How many lines end in a text.
fn ended_lines(text: &[u8]) -> usize
    ensures count { result ≡ length (filter is_newline text.now) }
    ensures within { result ≤ length text.now }
{
    let mut count = 0;
    for byte in text {
        count += line_ends(*byte);
    }
    count
}

/// The number of the line, from 1, where the rest of a text begins.
fn line_of(text: &[u8], rest: &[u8]) -> u64
    ensures { result ≡ line_of text.now rest.now }
{
    let (front, _) = text.split_at(text.len().saturating_sub(rest.len()));
    ended_lines(front) as u64 + 1
}

impl Joining {
    /// No part, before those of a whole.
    pub(crate) fn new(alloc: Global, whole: &Snapshot) -> Result<Joining, AllocError>
        ensures { Returns result (joining_with whole.now.state whole.now.state no_counts) }
    {
        Ok(Joining {
            before: whole.state().copy()?,
            here: whole.state().copy()?,
            counts: no_counts(alloc),
        })
    }

    /// What is counted of the parts.
    pub(crate) fn counts(&self) -> &Counts
        ensures { counts_value result.now ≡ self.now.counts }
    {
        &self.counts
    }

    /// The part whose lines after the problem's stand at the front of a text, and what stands after them.
    fn next_part<'t>(
        &self,
        alloc: Global,
        head: &[u8],
        rest: &'t [u8],
    ) -> Found<(Snapshot, &'t [u8])>
        ensures next { IfOk result (λ s. IsNextPart head.now self.now rest.now s.0 s.1.now) }
        ensures snapshot { IfOk result (λ s. IsSnapshot s.0) }
        ensures refused { IfErr result (IsNextRefused head.now self.now rest.now) }
    {
        let (part, answer) = tail_in(alloc, head, rest)?;
        if let Err(fault) = check_place(&self.before, &self.here, part.state()) {
            return Err(Refusal::Fault(fault));
        }
        part.is_sound();
        Ok((part, answer))
    }

    /// Adds a part.
    fn add(&mut self, alloc: Global, part: &Snapshot, counts: &Counts) -> Result<(), AllocError>
        ensures { OnOk result (self.new ≡ joining_with part.now.state (last_state part.now)
            (both_counts self.old.counts (counts_value counts.now))) }
    {
        let sum = both_counts(alloc, &self.counts, counts)?;
        let here = last_state(alloc, part)?;
        let before = part.state().copy()?;
        self.counts = sum;
        self.here = here;
        self.before = before;
        Ok(())
    }

    /// Takes the part at the front of the rest of a text, and lends what stands after it.
    fn take_part<'t>(
        &mut self,
        alloc: Global,
        head: &[u8],
        text: &[u8],
        rest: &'t [u8],
    ) -> Result<&'t [u8], TextRefusal<JoinFault>>
        ensures taken { IfOk result (λ next. IsPartTaken head.now self.old rest.now self.new next.now) }
        ensures shorter { IfOk result (λ next. length next.now < length rest.now) }
        ensures refused { IfErr result (IsTakenRefused head.now self.old text.now rest.now) }
    {
        let (part, answer) = match self.next_part(alloc, head, rest) {
            Ok(next) => next,
            Err(refusal) => return Err(refusal.in_line(line_of(text, rest))),
        };
        let (counts, next) = match part_answer_in(alloc, &part, answer) {
            Ok(next) => next,
            Err(refusal) => return Err(refusal.in_line(line_of(text, answer))),
        };
        self.add(alloc, &part, &counts)?;
        Ok(next)
    }

    /// Takes all parts of the rest of a text.
    pub(crate) fn take_parts(
        &mut self,
        alloc: Global,
        head: &[u8],
        text: &[u8],
        parts: &[u8],
    ) -> Result<(), TextRefusal<JoinFault>>
        ensures taken { OnOk result (AllTaken head.now self.old parts.now self.new) }
        ensures refused { IfErr result (IsOneRefused head.now self.old text.now parts.now) }
    {
        let mut rest = parts;
        while !rest.is_empty() {
            rest = self.take_part(alloc, head, text, rest)?;
        }
        Ok(())
    }

    /// Checks that the last part ends where the whole does.
    pub(crate) fn check_end(
        &self,
        alloc: Global,
        whole: &Snapshot,
        text: &[u8],
    ) -> Result<(), TextRefusal<JoinFault>>
        ensures ended { OnOk result (self.now.here ≡ last_state whole.now) }
        ensures refused { IfErr result (IsEndRefused self.now whole.now text.now) }
    {
        let end = last_state(alloc, whole)?;
        if !self.here.same(&end) {
            return Err(Refusal::Fault(JoinFault::LeftOut).in_line(ended_lines(text) as u64));
        }
        Ok(())
    }
}
