//! Words of cuts, states and breakpoints.
ghost use Rattle.std.specs.Prelude.{◌≡◌, ◌∷◌, [], true, decimal};
ghost use Rattle.shared_words.specs.Answers.{Adds};
ghost use Rattle.x_texts.specs.Breaks.{is_break};
ghost use Rattle.x_texts.specs.Words as spec;
ghost use Rattle.x_texts.specs.Words.{lent_cut_words, point_words};
ghost use Rattle.text_lines.specs.Writes.{AddsWords};

use crate::breakpoint::Break;
use cover_problem::Problem;
use std::alloc::AllocError;
use text_lines::{write_number, write_numbers, write_word};
use x_steps::{Cursor, Label};

/// Writes the choices of a cut after a word, or the word for none.
pub fn write_cut(text: &mut Vec<u8>, none: &str, path: Option<&[u32]>) -> Result<(), AllocError>
    ensures { AddsWords result text.old text.new (lent_cut_words none.now path.entry) }
{
    match path {
        // No cut is without a choice, so this never looks like the word for none.
        Some(path) => write_numbers(text, path),
        None => write_word(text, none),
    }
}

/// The word of a label.
pub(crate) fn label_word(label: Label) -> &'static str
    ensures { result.now ≡ spec.label_word label }
{
    match label {
        Label::X1 => "X1",
        Label::X2 => "X2",
        Label::X3 => "X3",
        Label::X4 => "X4",
        Label::X5 => "X5",
        Label::X6 => "X6",
        Label::X7 => "X7",
        Label::X8 => "X8",
        Label::Done => "Done",
    }
}

/// Writes a cursor after a word.
pub(crate) fn write_cursor(text: &mut Vec<u8>, cursor: Cursor) -> Result<(), AllocError>
    ensures { Adds result text.old text.new (32 ∷ spec.cursor_word cursor) }
{
    match cursor {
        // Each cursor is one word, so that the choices begin at the same word of each line.
        Cursor::None => write_word(text, "-"),
        Cursor::At(option) => write_number(text, option),
        Cursor::Past => write_word(text, "past"),
    }
}

/// Writes a kind of breakpoints and a number after a word.
fn write_kind(text: &mut Vec<u8>, kind: &str, number: u32) -> Result<(), AllocError>
    ensures { AddsWords result text.old text.new (kind.now ∷ decimal number ∷ []) }
{
    write_word(text, kind)?;
    write_number(text, number)
}

/// Writes what a breakpoint is at after a word.
pub(crate) fn write_point(
    text: &mut Vec<u8>,
    problem: &Problem,
    breakpoint: Break,
) -> Result<(), AllocError>
    requires { is_break problem.now breakpoint ≡ true }
    ensures { AddsWords result text.old text.new (point_words problem.now.names breakpoint) }
{
    match breakpoint {
        Break::Level(level) => write_kind(text, "level", level),
        Break::Option(option) => write_kind(text, "option", option),
        Break::Item(item) => {
            // By its name, as the cover text has it.
            write_word(text, "item")?;
            write_word(text, problem.name(item))
        }
        Break::Visit => write_word(text, "visit"),
    }
}
