//! Lines of a key and words after it.
ghost use Rattle.std.specs.Prelude.{◌≡◌};
ghost use Rattle.text_lines.specs.Lines.{words_of};
ghost use Rattle.text_lines.specs.Answers.{Gives};
ghost use Rattle.x_snapshot.specs.Reader as spec;
ghost use Rattle.x_snapshot.specs.Reader.{first_line, line_words, after_key, only, Reads, lent_words};
ghost use Rattle.x_snapshot.specs.Snapshot.{Lends};

use crate::fault::SnapshotFault;
use crate::reader::Found;
use text_lines::{
    Refusal, has_words, is_all_digits, is_spaced, number, split_ended_line, split_word,
};

/// The first line of a text, and what stands after its end.
pub fn take_line(text: &[u8]) -> Found<(&[u8], &[u8])>
    ensures { Gives (λ s. (s.0.now, s.1.now)) result (first_line text.now) }
{
    // A line without its end is where a text was cut off, so this fault comes before any of its words.
    match split_ended_line(text) {
        Some((line, rest)) => Ok((line, rest)),
        None => Err(Refusal::Fault(SnapshotFault::Truncated)),
    }
}

/// Whether a line is its words with one space between two.
#[tactic(auto, unfolding(crate::specs::Reader::line_words))]
fn check_spaced(fault: SnapshotFault, line: &[u8]) -> Found<()>
    ensures { Gives (λ _. words_of line.now) result (line_words fault line.now) }
{
    // More blanks would be a second spelling of the same words.
    if !is_spaced(line) {
        return Err(Refusal::Fault(fault));
    }
    Ok(())
}

/// The words after a key.
#[tactic(auto, unfolding(crate::specs::Reader::after_key))]
fn take_key<'t>(fault: SnapshotFault, key: &[u8], words: &'t [u8]) -> Found<&'t [u8]>
    ensures { Gives lent_words result (after_key fault key.now (words_of words.now)) }
{
    let Some((word, rest)) = split_word(words) else {
        return Err(Refusal::Fault(fault));
    };
    if word != key {
        return Err(Refusal::Fault(fault));
    }
    Ok(rest)
}

/// The words after the key of the first line, and what stands after the line.
#[tactic(auto, unfolding(crate::specs::Reader::keyed))]
pub fn keyed<'t>(fault: SnapshotFault, key: &[u8], text: &'t [u8]) -> Found<(&'t [u8], &'t [u8])>
    ensures { Reads lent_words result (spec.keyed fault key.now text.now) }
{
    let (line, rest) = take_line(text)?;
    check_spaced(fault, line)?;
    let words = take_key(fault, key, line)?;
    Ok((words, rest))
}

/// The only word.
pub fn only_word(words: &[u8]) -> Option<&[u8]>
    ensures { Lends result (only (words_of words.now)) }
{
    let (word, rest) = split_word(words)?;
    if has_words(rest) { None } else { Some(word) }
}

/// The number that is the only word.
#[tactic(auto, unfolding(crate::specs::Reader::count_from))]
pub fn count_from(fault: SnapshotFault, bound: u32, words: &[u8]) -> Found<u32>
    ensures { Gives (λ n. n) result (spec.count_from fault bound (words_of words.now)) }
{
    let Some(word) = only_word(words) else {
        return Err(Refusal::Fault(fault));
    };
    let Some(count) = number(word, bound) else {
        return Err(Refusal::Fault(fault));
    };
    Ok(count)
}

/// The number of one of so many options.
pub fn option_number(bound: u32, word: &[u8]) -> Option<u32>
    ensures { result ≡ spec.option_number bound word.now }
{
    let option = number(word, bound)?;
    if option > 0 { Some(option) } else { None }
}

/// Whether these are one to nine digits.
pub fn are_digits(word: &[u8]) -> bool
    ensures { result ≡ spec.are_digits word.now }
{
    // Nine digits stay below 2^32, whatever they are.
    !word.is_empty() && word.len() <= 9 && is_all_digits(word)
}
