//! Lines of states, breakpoints, visits and levels.
ghost use Rattle.std.specs.Prelude.{◌≡◌, ◌∷◌, true, map};
ghost use Rattle.text_lines.specs.Writes.{AddsLine, AddsLines};
ghost use Rattle.x_steps.specs.StateView.{state_value};
ghost use Rattle.x_texts.specs.Breaks.{is_break};
ghost use Rattle.x_texts.specs.Words.{state_words, keyed_point, visit_words, levels_words};

use crate::breakpoint::Break;
use crate::visit_line::VisitLine;
use crate::word::{label_word, write_cursor, write_point};
use cover_problem::{Lists, Problem};
use std::alloc::AllocError;
use text_lines::{write_numbers, write_numbers_line, write_word};
use x_steps::State;

/// Writes a line of a word and a state: its label, its cursor and its choices.
pub fn write_state(text: &mut Vec<u8>, key: &str, state: &State) -> Result<(), AllocError>
    ensures { AddsLine result text.old text.new (key.now ∷ state_words (state_value state.now)) }
{
    text.extend_from_slice(key.as_bytes())?;
    write_word(text, label_word(state.label))?;
    write_cursor(text, state.cursor)?;
    write_numbers(text, &state.path)?;
    text.push(b'\n')?;
    Ok(())
}

/// Writes a line of a word and what a breakpoint is at.
pub fn write_break(
    text: &mut Vec<u8>,
    key: &str,
    problem: &Problem,
    breakpoint: Break,
) -> Result<(), AllocError>
    requires { is_break problem.now breakpoint ≡ true }
    ensures { AddsLine result text.old text.new (keyed_point key.now problem.now breakpoint) }
{
    text.extend_from_slice(key.as_bytes())?;
    write_point(text, problem, breakpoint)?;
    text.push(b'\n')?;
    Ok(())
}

/// Writes a visit: its choices.
pub fn write_visit(text: &mut Vec<u8>, path: &[u32]) -> Result<(), AllocError>
    ensures { AddsLine result text.old text.new (visit_words path.now) }
{
    write_numbers_line(text, "visit", path)
}

/// Writes visits, a line for each.
pub fn write_visits(text: &mut Vec<u8>, visits: &Lists) -> Result<(), AllocError>
    ensures { AddsLines result text.old text.new (map visit_words visits.now) }
{
    let mut line = VisitLine::new(*text.allocator())?;
    for place in 0..visits.len() {
        line.turn(visits.list(place))?;
        text.extend_from_slice(line.bytes())?;
    }
    Ok(())
}

/// Writes the counts of the levels from 0 on, that of level 0 at least.
pub fn write_levels(text: &mut Vec<u8>, counts: &[u128]) -> Result<(), AllocError>
    ensures { AddsLine result text.old text.new (levels_words counts.now) }
{
    if counts.is_empty() {
        // Level 0 has a count of 0 where nothing is counted yet.
        return text.extend_from_slice(b"levels 0\n");
    }
    text.extend_from_slice(b"levels")?;
    write_numbers(text, counts)?;
    text.push(b'\n')?;
    Ok(())
}
