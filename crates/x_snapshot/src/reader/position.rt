//! The branch and the state of a snapshot's text.
ghost use Rattle.std.specs.Prelude.{◌≡◌, is_ok};
ghost use Rattle.text_lines.specs.Lines.{words_of};
ghost use Rattle.text_lines.specs.Answers.{Gives};
ghost use Rattle.x_steps.specs.StateView.{state_value};
ghost use Rattle.x_snapshot.specs.Snapshot.{choices_of, position_value};
ghost use Rattle.x_snapshot.specs.Reader as spec;
ghost use Rattle.x_snapshot.specs.Reader.{add_choice, choices_from, Reads};

use crate::fault::SnapshotFault;
use crate::reader::Found;
use crate::reader::lines::{keyed, option_number};
use cover_problem::MOST_OPTIONS;
use std::alloc::Global;
use text_lines::{Refusal, has_words, split_word};
use x_steps::{Cursor, Label, State};

/// The most options of a problem.
// By the limit and not by the problem: whether it has such an option is judged with the run.
const MOST: u32 = MOST_OPTIONS as u32;

/// Takes a choice.
#[tactic(auto, unfolding(crate::specs::Reader::add_choice))]
fn take_choice(path: &mut Vec<u32>, word: &[u8]) -> Found<()>
    ensures { Gives (λ _. path.new.items) result (add_choice path.old.items word.now) }
{
    let Some(option) = option_number(MOST, word) else {
        return Err(Refusal::Fault(SnapshotFault::BadState));
    };
    path.push(option)?;
    Ok(())
}

/// The choices of these words.
fn choices(alloc: Global, words: &[u8]) -> Found<Vec<u32>>
    ensures { Gives (λ path. path.items) result (choices_from (words_of words.now)) }
{
    let mut path = Vec::new(alloc);
    let mut rest = words;
    while let Some((word, after)) = split_word(rest) {
        take_choice(&mut path, word)?;
        rest = after;
    }
    Ok(path)
}

/// Whether these words are choices.
fn are_choices(words: &[u8]) -> bool
    ensures { result ≡ is_ok (choices_from (words_of words.now)) }
{
    let mut rest = words;
    while let Some((word, after)) = split_word(rest) {
        let Some(_) = option_number(MOST, word) else {
            return false;
        };
        rest = after;
    }
    true
}

/// The cut of these words: a word for none, or its choices.
#[tactic(auto, unfolding(crate::specs::Reader::cut_from))]
fn cut_from(alloc: Global, none: &[u8], words: &[u8]) -> Found<Option<Vec<u32>>>
    ensures { Gives choices_of result (spec.cut_from none.now (words_of words.now)) }
{
    let Some((word, rest)) = split_word(words) else {
        return Err(Refusal::Fault(SnapshotFault::BadState));
    };
    // The word for none stands alone: before other words it is one that is no choice.
    if word == none && !has_words(rest) {
        return Ok(None);
    }
    let path = choices(alloc, words)?;
    Ok(Some(path))
}

/// The cut of the first line, and what stands after it.
#[tactic(auto, unfolding(crate::specs::Reader::keyed_line))]
fn cut_in<'t>(
    alloc: Global,
    key: &[u8],
    none: &[u8],
    text: &'t [u8],
) -> Found<(Option<Vec<u32>>, &'t [u8])>
    ensures { Reads choices_of result (spec.cut_in key.now none.now text.now) }
{
    let (words, rest) = keyed(SnapshotFault::BadState, key, text)?;
    let cut = cut_from(alloc, none, words)?;
    Ok((cut, rest))
}

/// The label of a word.
fn label_from(word: &[u8]) -> Option<Label>
    ensures { result ≡ spec.label_from word.now }
{
    match word {
        b"X1" => Some(Label::X1),
        b"X2" => Some(Label::X2),
        b"X3" => Some(Label::X3),
        b"X4" => Some(Label::X4),
        b"X5" => Some(Label::X5),
        b"X6" => Some(Label::X6),
        b"X7" => Some(Label::X7),
        b"X8" => Some(Label::X8),
        b"Done" => Some(Label::Done),
        _ => None,
    }
}

/// The cursor of a word.
fn cursor_from(word: &[u8]) -> Option<Cursor>
    ensures { result ≡ spec.cursor_from word.now }
{
    match word {
        b"-" => Some(Cursor::None),
        b"past" => Some(Cursor::Past),
        // Neither of the two is a number, so no word means two cursors.
        _ => Some(Cursor::At(option_number(MOST, word)?)),
    }
}

/// The label and the cursor of two words.
fn step_from(label: &[u8], cursor: &[u8]) -> Option<(Label, Cursor)>
    ensures { result ≡ spec.step_from label.now cursor.now }
{
    let label = label_from(label)?;
    let cursor = cursor_from(cursor)?;
    Some((label, cursor))
}

/// Whether these words are a state.
#[tactic(auto, unfolding(crate::specs::Reader::state_from))]
pub fn is_state(words: &[u8]) -> bool
    ensures { result ≡ is_ok (spec.state_from (words_of words.now)) }
{
    let Some((label, words)) = split_word(words) else {
        return false;
    };
    let Some((cursor, words)) = split_word(words) else {
        return false;
    };
    // The tests of `state_from`, which asks for memory only once a word has to be kept.
    step_from(label, cursor).is_some() && are_choices(words)
}

/// The state of these words: its label, its cursor and its choices.
#[tactic(auto, unfolding(crate::specs::Reader::state_from))]
pub fn state_from(alloc: Global, words: &[u8]) -> Found<State>
    ensures { Gives state_value result (spec.state_from (words_of words.now)) }
{
    let Some((label, words)) = split_word(words) else {
        return Err(Refusal::Fault(SnapshotFault::BadState));
    };
    let Some((cursor, words)) = split_word(words) else {
        return Err(Refusal::Fault(SnapshotFault::BadState));
    };
    let Some((label, cursor)) = step_from(label, cursor) else {
        return Err(Refusal::Fault(SnapshotFault::BadState));
    };
    let path = choices(alloc, words)?;
    Ok(State {
        label,
        path,
        cursor,
    })
}

/// The state of the first line, and what stands after it.
#[tactic(auto, unfolding(crate::specs::Reader::keyed_line))]
fn state_in(alloc: Global, text: &[u8]) -> Found<(State, &[u8])>
    ensures { Reads state_value result (spec.state_in text.now) }
{
    let (words, rest) = keyed(SnapshotFault::BadState, b"state", text)?;
    let state = state_from(alloc, words)?;
    Ok((state, rest))
}

/// The paths of the two cuts and the state, and what stands after them.
#[tactic(auto, unfolding(crate::specs::Reader::position_in))]
pub fn position_in(
    alloc: Global,
    text: &[u8],
) -> Found<((Option<Vec<u32>>, Option<Vec<u32>>, State), &[u8])>
    ensures { Reads position_value result (spec.position_in text.now) }
{
    // Each line has its own word for none: no branch begins at the end, and none ends at the start.
    let (lo, rest) = cut_in(alloc, b"from", b"start", text)?;
    let (hi, rest) = cut_in(alloc, b"to", b"end", rest)?;
    let (state, rest) = state_in(alloc, rest)?;
    Ok(((lo, hi, state), rest))
}
