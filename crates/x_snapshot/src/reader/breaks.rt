//! The breakpoints of a snapshot's text.
ghost use Rattle.std.specs.Prelude.{◌≡◌};
ghost use Rattle.text_lines.specs.Lines.{words_of};
ghost use Rattle.text_lines.specs.Answers.{Gives};
ghost use Rattle.cover_problem.specs.Problem.{item_named};
ghost use Rattle.x_texts.specs.declared.breakpoint.Break.{Break};
ghost use Rattle.x_snapshot.specs.Reader as spec;
ghost use Rattle.x_snapshot.specs.Reader.{Reads};

use crate::fault::SnapshotFault;
use crate::reader::Found;
use crate::reader::lines::{count_from, keyed, option_number};
use cover_problem::Problem;
use indexmap::IndexSet;
use std::alloc::Global;
use text_lines::{Refusal, has_words, number, split_word};
use x_texts::Break;

/// The greatest number of nine digits.
// A count has nine digits at most, like the version.
const MOST_BREAKS: u32 = 999_999_999;

/// What a breakpoint with a word after its kind is at.
pub enum Kind {
    Level,
    Option,
    Item,
}

/// The item that a word names.
fn item_of(problem: &Problem, word: &[u8]) -> Option<u32>
    ensures { result ≡ item_named problem.now.names word.now }
{
    // What a problem keeps true, that its names are text, is known where it is asked.
    problem.is_sound();
    match str::from_utf8(word) {
        Ok(name) => problem.item(name),
        Err(_) => None,
    }
}

/// The breakpoint at a level.
fn level_from(problem: &Problem, word: &[u8]) -> Option<Break>
    ensures { result ≡ spec.level_from problem.now word.now }
{
    let level = number(word, problem.items())?;
    Some(Break::Level(level))
}

/// The breakpoint at an option.
fn option_break_from(problem: &Problem, word: &[u8]) -> Option<Break>
    ensures { result ≡ spec.option_break_from problem.now word.now }
{
    let option = option_number(problem.options(), word)?;
    Some(Break::Option(option))
}

/// The breakpoint at the choice of an item.
fn item_from(problem: &Problem, word: &[u8]) -> Option<Break>
    ensures { result ≡ spec.item_from problem.now word.now }
{
    let item = item_of(problem, word)?;
    Some(Break::Item(item))
}

/// The kind that a word names.
fn kind_from(word: &[u8]) -> Option<Kind>
    ensures { result ≡ spec.kind_from word.now }
{
    match word {
        b"level" => Some(Kind::Level),
        b"option" => Some(Kind::Option),
        b"item" => Some(Kind::Item),
        _ => None,
    }
}

/// The breakpoint of a kind and the word after it.
fn break_of(problem: &Problem, kind: &[u8], word: &[u8]) -> Option<Break>
    ensures { result ≡ spec.break_of problem.now (spec.kind_from kind.now) word.now }
{
    match kind_from(kind) {
        Some(Kind::Level) => level_from(problem, word),
        Some(Kind::Option) => option_break_from(problem, word),
        Some(Kind::Item) => item_from(problem, word),
        None => None,
    }
}

/// The breakpoint of one word.
fn lone_break(kind: &[u8]) -> Option<Break>
    ensures { result ≡ spec.lone_break kind.now }
{
    match kind {
        b"visit" => Some(Break::Visit),
        _ => None,
    }
}

/// The breakpoint of these words, which stand after `break`.
#[tactic(auto, unfolding(crate::specs::Reader::break_from))]
pub fn break_from(problem: &Problem, words: &[u8]) -> Option<Break>
    ensures { result ≡ spec.break_from problem.now (words_of words.now) }
{
    let (kind, rest) = split_word(words)?;
    // Only a visit has no word after its kind.
    let Some((word, rest)) = split_word(rest) else {
        return lone_break(kind);
    };
    if has_words(rest) {
        return None;
    }
    break_of(problem, kind, word)
}

/// The breakpoint of these words, or that they are none.
fn break_of_words(problem: &Problem, words: &[u8]) -> Found<Break>
    ensures { Gives (λ b. b) result (spec.break_of_words problem.now (words_of words.now)) }
{
    match break_from(problem, words) {
        Some(breakpoint) => Ok(breakpoint),
        None => Err(Refusal::Fault(SnapshotFault::BadBreak)),
    }
}

/// The breakpoint of the first line, and what stands after it.
#[tactic(auto, unfolding(crate::specs::Reader::keyed_line))]
fn break_in<'t>(problem: &Problem, text: &'t [u8]) -> Found<(Break, &'t [u8])>
    ensures { Reads (λ x. x) result (spec.break_in problem.now text.now) }
{
    let (words, rest) = keyed(SnapshotFault::BadBreak, b"break", text)?;
    let breakpoint = break_of_words(problem, words)?;
    Ok((breakpoint, rest))
}

/// Takes a breakpoint, once.
fn take_break(seen: &mut IndexSet<Break>, breakpoint: Break) -> Found<()>
    ensures { Gives (λ _. seen.new.keys) result (spec.new_break seen.old.keys breakpoint) }
{
    // Twice the same breakpoint would be a second spelling of one set.
    if !seen.insert(breakpoint)? {
        return Err(Refusal::Fault(SnapshotFault::BadBreak));
    }
    Ok(())
}

/// Takes the breakpoint of the first line, and tells what stands after it.
#[tactic(auto, unfolding(crate::specs::Reader::add_break))]
fn add_break<'t>(problem: &Problem, seen: &mut IndexSet<Break>, text: &'t [u8]) -> Found<&'t [u8]>
    ensures { Gives (λ rest. (seen.new.keys, rest.now)) result (spec.add_break problem.now seen.old.keys text.now) }
{
    let (breakpoint, rest) = break_in(problem, text)?;
    take_break(seen, breakpoint)?;
    Ok(rest)
}

/// The breakpoints of so many lines, and what stands after them.
fn breaks_from<'t>(
    alloc: Global,
    problem: &Problem,
    count: u32,
    text: &'t [u8],
) -> Found<(Vec<Break>, &'t [u8])>
    ensures { Reads (λ v. v.items) result (spec.breaks_from problem.now count text.now) }
{
    // No room is made by the count: one that is too large ends where the lines do.
    let mut seen = IndexSet::new(alloc);
    let mut rest = text;
    for _ in 0..count {
        rest = add_break(problem, &mut seen, rest)?;
    }
    // In the order of their lines, which is part of the one spelling.
    let breaks = Vec::from_slice(alloc, seen.as_slice())?;
    Ok((breaks, rest))
}

/// The number of breakpoints, and what stands after its line.
#[tactic(auto, unfolding(crate::specs::Reader::keyed_line))]
fn count_in(text: &[u8]) -> Found<(u32, &[u8])>
    ensures { Reads (λ x. x) result (spec.count_in text.now) }
{
    let (words, rest) = keyed(SnapshotFault::BadBreak, b"breaks", text)?;
    let count = count_from(SnapshotFault::BadBreak, MOST_BREAKS, words)?;
    Ok((count, rest))
}

/// The breakpoints, and what stands after them.
#[tactic(auto, unfolding(crate::specs::Reader::breaks_in))]
fn breaks_in<'t>(alloc: Global, problem: &Problem, text: &'t [u8]) -> Found<(Vec<Break>, &'t [u8])>
    ensures { Reads (λ v. v.items) result (spec.breaks_in problem.now text.now) }
{
    let (count, rest) = count_in(text)?;
    breaks_from(alloc, problem, count, rest)
}

/// The breakpoints of a text of the version, and what stands after them.
#[tactic(auto, unfolding(crate::specs::Reader::breaks_of_version))]
pub fn breaks_of_version<'t>(
    alloc: Global,
    version: u8,
    problem: &Problem,
    text: &'t [u8],
) -> Found<(Vec<Break>, &'t [u8])>
    ensures { Reads (λ v. v.items) result (spec.breaks_of_version version problem.now text.now) }
{
    if version == 2 {
        breaks_in(alloc, problem, text)
    } else {
        // The first version has no line for their number either.
        Ok((Vec::new(alloc), text))
    }
}
