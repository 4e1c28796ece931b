//! Numbers and cuts of a command line.
ghost use Rattle.std.specs.Prelude.{◌≡◌, ◌≤◌, ◌∷◌, length, is_some, option_copied};
ghost use Rattle.std.specs.List.{slice_split, position_or_len};
ghost use Rattle.std.specs.Str.{bytes_eq};
ghost use Rattle.text_lines.specs.Lines.{words_of};
ghost use Rattle.x_snapshot.specs.Snapshot.{choices_of};
ghost use Rattle.debug_language.specs.Reader as spec;
ghost use Rattle.debug_language.specs.Reader.{is_comma, comma_parts, FindsAs, FailsOnly};

use crate::reader::Found;
use std::alloc::Global;
use text_lines::{has_words, number, split_word};
use x_snapshot::{only_word, option_number};

/// Whether a word is this one.
pub fn is_word(word: &[u8], wanted: &[u8]) -> bool
    ensures { result ≡ bytes_eq word.now wanted.now }
{
    word == wanted
}

/// The number that a word is.
fn number_in(word: &[u8]) -> Option<u32>
    ensures { result ≡ spec.number_in word.now }
{
    // Any `u32`: whether there is such a level, option or line isn't told by the word.
    number(word, u32::MAX)
}

/// The number that is the only word.
pub fn number_from(words: &[u8]) -> Option<u32>
    ensures { result ≡ spec.number_from (words_of words.now) }
{
    let word = only_word(words)?;
    number_in(word)
}

/// The number from 1 that is the only word.
pub fn count_from(words: &[u8]) -> Option<u32>
    ensures { result ≡ spec.count_from (words_of words.now) }
{
    let word = only_word(words)?;
    // Of no steps and of no workers there is no command.
    option_number(u32::MAX, word)
}

/// The two numbers that are the only words.
#[tactic(auto, unfolding(crate::specs::Reader::pair_from))]
pub fn pair_from(words: &[u8]) -> Option<(u32, u32)>
    ensures { result ≡ spec.pair_from (words_of words.now) }
{
    let (word, rest) = split_word(words)?;
    let one = number_in(word)?;
    let two = number_from(rest)?;
    Some((one, two))
}

/// Whether words are numbers.
fn are_numbers(words: &[u8]) -> bool
    ensures { result ≡ is_some (spec.numbers_from (words_of words.now)) }
{
    let mut rest = words;
    while let Some((word, after)) = split_word(rest) {
        let Some(_) = number_in(word) else {
            return false;
        };
        rest = after;
    }
    true
}

/// The numbers that words are.
fn numbers_from(alloc: Global, words: &[u8]) -> Found<Vec<u32>>
    ensures said { FindsAs (λ v. v.items) result (spec.numbers_from (words_of words.now)) }
    ensures memory { FailsOnly result (spec.numbers_from (words_of words.now)) }
{
    // Tested first, so that memory is asked for only where each word is a number.
    if !are_numbers(words) {
        return Ok(None);
    }
    let mut numbers = Vec::new(alloc);
    let mut rest = words;
    while let Some((word, after)) = split_word(rest) {
        let Some(number) = number_in(word) else {
            // Each word passed the test, so this isn't met.
            return Ok(None);
        };
        numbers.push(number)?;
        rest = after;
    }
    Ok(Some(numbers))
}

/// The cut of these words: `start` for none, or its choices.
#[tactic(auto, unfolding(crate::specs::Reader::cut_from))]
pub fn cut_from(alloc: Global, words: &[u8]) -> Found<Option<Vec<u32>>>
    ensures said { FindsAs choices_of result (spec.cut_from (words_of words.now)) }
    ensures memory { FailsOnly result (spec.cut_from (words_of words.now)) }
{
    let Some((word, rest)) = split_word(words) else {
        return Ok(None);
    };
    // `start` stands alone: the cut at the start of the run has no choices.
    if is_word(word, b"start") && !has_words(rest) {
        return Ok(Some(None));
    }
    match numbers_from(alloc, words)? {
        Some(path) => Ok(Some(Some(path))),
        None => Ok(None),
    }
}

/// The place of the first comma, or the length where there is none.
fn comma_at(word: &[u8]) -> usize
    ensures first { result ≡ position_or_len is_comma word.now }
    ensures within { result ≤ length word.now }
{
    word.iter().take_while(|byte| **byte != b',').count()
}

/// What stands before the first comma, and what stands after it, if there is one.
fn split_part(word: &[u8]) -> (&[u8], Option<&[u8]>)
    ensures { slice_split is_comma word.now ≡ result.0.now ∷ comma_parts (option_copied result.1) }
{
    let (part, rest) = word.split_at(comma_at(word));
    match rest {
        // The first byte is the comma, which belongs to neither part.
        [_, after @ ..] => (part, Some(after)),
        [] => (part, None),
    }
}

/// Whether numbers stand between the commas of a word.
fn are_joined(word: &[u8]) -> bool
    ensures { result ≡ is_some (spec.joined_numbers word.now) }
{
    let mut rest = Some(word);
    // A comma at the end leaves an empty part, which is no number.
    while let Some(text) = rest {
        let (part, after) = split_part(text);
        let Some(_) = number_in(part) else {
            return false;
        };
        rest = after;
    }
    true
}

/// The numbers that stand between the commas of a word.
fn joined_numbers(alloc: Global, word: &[u8]) -> Found<Vec<u32>>
    ensures said { FindsAs (λ v. v.items) result (spec.joined_numbers word.now) }
    ensures memory { FailsOnly result (spec.joined_numbers word.now) }
{
    // Tested first, so that memory is asked for only where each part is a number.
    if !are_joined(word) {
        return Ok(None);
    }
    let mut numbers = Vec::new(alloc);
    let mut rest = Some(word);
    while let Some(text) = rest {
        let (part, after) = split_part(text);
        let Some(number) = number_in(part) else {
            // Each part passed the test, so this isn't met.
            return Ok(None);
        };
        numbers.push(number)?;
        rest = after;
    }
    Ok(Some(numbers))
}

/// The cut of a word: `start` for none, or its choices with commas between them.
#[tactic(auto, unfolding(crate::specs::Reader::joined_cut))]
pub fn joined_cut(alloc: Global, word: &[u8]) -> Found<Option<Vec<u32>>>
    ensures said { FindsAs choices_of result (spec.joined_cut word.now) }
    ensures memory { FailsOnly result (spec.joined_cut word.now) }
{
    // One word, since a state follows on the same line.
    if is_word(word, b"start") {
        return Ok(Some(None));
    }
    match joined_numbers(alloc, word)? {
        Some(path) => Ok(Some(Some(path))),
        None => Ok(None),
    }
}
