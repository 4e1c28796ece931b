//! The answer of a part.
ghost use Rattle.std.specs.Prelude.{◌≡◌, ◌-◌, ◌↔◌, ◌<◌, length, get_or, IsTrue, IfOk};
ghost use Rattle.text_lines.specs.Lines.{words_of};
ghost use Rattle.text_lines.specs.Answers.{Gives};
ghost use Rattle.x_snapshot.specs.Reader.{first_line, lent_words, only, Reads};
ghost use Rattle.part_sums.specs.Answers.{counts_value, HasNumbersOf};
ghost use Rattle.part_sums.specs.Parts.{last_state};
ghost use Rattle.part_sums.specs.Reading as spec;
ghost use Rattle.part_sums.specs.Reading.{line_from};

use crate::fault::{Found, JoinFault};
use crate::number::{number_of_word, numbers_from};
use crate::order::last_state;
use cover_counts::{Counts, Natural};
use std::alloc::{AllocError, Global};
use text_lines::{Refusal, has_words, is_spaced, split_ended_line, split_word};
use x_snapshot::{Snapshot, only_word};

/// The first line of a text, and what stands after its end.
fn take_line(text: &[u8]) -> Found<(&[u8], &[u8])>
    ensures { Gives (λ s. (s.0.now, s.1.now)) result (line_from (first_line text.now)) }
{
    match split_ended_line(text) {
        Some((line, rest)) => Ok((line, rest)),
        None => Err(Refusal::Fault(JoinFault::Truncated)),
    }
}

/// The words after a key in these words.
#[tactic(auto, unfolding(crate::specs::Reading::words_behind))]
fn words_behind<'t>(key: &[u8], words: &'t [u8]) -> Found<&'t [u8]>
    ensures { Gives lent_words result (spec.words_behind key.now (words_of words.now)) }
{
    let Some((word, rest)) = split_word(words) else {
        return Err(Refusal::Fault(JoinFault::BadAnswer));
    };
    if word != key {
        return Err(Refusal::Fault(JoinFault::BadAnswer));
    }
    Ok(rest)
}

/// The words after a key in a line.
#[tactic(auto, unfolding(crate::specs::Reading::key_words))]
fn key_words<'t>(key: &[u8], line: &'t [u8]) -> Found<&'t [u8]>
    ensures { Gives lent_words result (spec.key_words key.now line.now) }
{
    // More blanks would be a second spelling of the same words.
    if !is_spaced(line) {
        return Err(Refusal::Fault(JoinFault::BadAnswer));
    }
    words_behind(key, line)
}

/// The words after a key in the first line, and what stands after the line.
#[tactic(auto, unfolding(crate::specs::Reading::keyed_words))]
fn keyed_words<'t>(key: &[u8], text: &'t [u8]) -> Found<(&'t [u8], &'t [u8])>
    ensures { Reads lent_words result (spec.keyed_words key.now text.now) }
{
    let (line, rest) = take_line(text)?;
    let words = key_words(key, line)?;
    Ok((words, rest))
}

/// The number of the only word.
fn only_number(alloc: Global, words: &[u8]) -> Found<Natural>
    ensures { Gives (λ n. n) result (spec.number_of_only (only (words_of words.now))) }
{
    let Some(word) = only_word(words) else {
        return Err(Refusal::Fault(JoinFault::BadAnswer));
    };
    number_of_word(alloc, word)
}

/// The number of the first line, and what stands after it.
#[tactic(auto, unfolding(crate::specs::Reading::keyed_number))]
fn keyed_number<'t>(alloc: Global, key: &[u8], text: &'t [u8]) -> Found<(Natural, &'t [u8])>
    ensures { Reads (λ n. n) result (spec.keyed_number key.now text.now) }
{
    let (words, rest) = keyed_words(key, text)?;
    let number = only_number(alloc, words)?;
    Ok((number, rest))
}

/// Whether the last number is 0; there is one.
fn ends_in_zero(numbers: &[Natural]) -> bool
    requires { 0 < length numbers.now }
    ensures { IsTrue result ↔ (get_or numbers.now (length numbers.now - 1) 0 ≡ 0) }
{
    numbers[numbers.len() - 1].is_zero()
}

/// Whether these are the levels of an answer: the last has a state, or level 0 is there alone.
fn are_levels(numbers: &[Natural]) -> bool
    ensures { result ≡ spec.are_levels numbers.now }
{
    !numbers.is_empty() && (numbers.len() == 1 || !ends_in_zero(numbers))
}

/// The levels of these numbers.
#[tactic(auto, unfolding(crate::specs::Reading::levels_from))]
fn levels_from(mut numbers: Vec<Natural>) -> Found<Vec<Natural>>
    ensures { Gives (λ levels. levels.items) result (spec.levels_from numbers.items) }
{
    if !are_levels(&numbers) {
        return Err(Refusal::Fault(JoinFault::BadAnswer));
    }
    // `levels 0` is written where there is no state at all.
    if ends_in_zero(&numbers) {
        numbers.clear();
    }
    Ok(numbers)
}

/// The levels of the first line, and what stands after it.
#[tactic(auto, unfolding(crate::specs::Reading::levels_in))]
fn levels_in(alloc: Global, text: &[u8]) -> Found<(Vec<Natural>, &[u8])>
    ensures { Reads (λ levels. levels.items) result (spec.levels_in text.now) }
{
    let (words, rest) = keyed_words(b"levels", text)?;
    let numbers = numbers_from(alloc, words)?;
    let levels = levels_from(numbers)?;
    Ok((levels, rest))
}

/// What stands after a line that is `end`.
#[tactic(auto, unfolding(crate::specs::Reading::past_end_line))]
fn past_end_line(text: &[u8]) -> Found<&[u8]>
    ensures { Gives (λ rest. rest.now) result (spec.past_end_line text.now) }
{
    let (words, rest) = keyed_words(b"end", text)?;
    if has_words(words) {
        return Err(Refusal::Fault(JoinFault::BadAnswer));
    }
    Ok(rest)
}

/// The counts of an answer, and what stands after it.
#[tactic(auto, unfolding(crate::specs::Reading::answer_in))]
fn answer_in(alloc: Global, text: &[u8]) -> Found<(Counts, &[u8])>
    ensures { Reads counts_value result (spec.answer_in text.now) }
{
    let (visits, rest) = keyed_number(alloc, b"visits", text)?;
    let (steps, rest) = keyed_number(alloc, b"steps", rest)?;
    let (levels, rest) = levels_in(alloc, rest)?;
    let rest = past_end_line(rest)?;
    let counts = Counts {
        visits,
        steps,
        levels,
    };
    Ok((counts, rest))
}

/// Whether counts can be a part's, by their numbers.
fn has_numbers_of(alloc: Global, part: &Snapshot, counts: &Counts) -> Result<bool, AllocError>
    ensures { IfOk result (λ can. IsTrue can ↔
        HasNumbersOf part.now.state (last_state part.now) (counts_value counts.now)) }
{
    let last = last_state(alloc, part)?;
    counts.can_be_between(alloc, part.state(), &last)
}

/// The counts of a part's answer, and what stands after it.
#[tactic(auto, unfolding(crate::specs::Reading::part_answer_in))]
pub(crate) fn part_answer_in<'t>(
    alloc: Global,
    part: &Snapshot,
    text: &'t [u8],
) -> Found<(Counts, &'t [u8])>
    ensures { Reads counts_value result (spec.part_answer_in part.now text.now) }
{
    let (counts, rest) = answer_in(alloc, text)?;
    if !has_numbers_of(alloc, part, &counts)? {
        return Err(Refusal::Fault(JoinFault::BadNumbers));
    }
    Ok((counts, rest))
}
