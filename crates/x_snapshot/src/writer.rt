//! The writer of snapshots.
ghost use Rattle.std.specs.Prelude.{◌≡◌, ◌∷◌, true, map, length};
ghost use Rattle.std.specs.List.{list_all};
ghost use Rattle.cover_problem.specs.Grammar.{word_lines};
ghost use Rattle.x_texts.specs.Breaks.{is_break};
ghost use Rattle.x_snapshot.specs.Writer as spec;
ghost use Rattle.x_texts.specs.Words.{break_words, lent_cut_words};
ghost use Rattle.x_snapshot.specs.Writer.{lines_of_breaks, snapshot_text, low_words, high_words};
ghost use Rattle.text_lines.specs.Writes.{AddsLines, AddsLine};
ghost use Rattle.shared_words.specs.Answers.{ReturnsItems};

use crate::snapshot::Snapshot;
use cover_problem::{Problem, write_cover};
use std::alloc::{AllocError, Global};
use text_lines::write_number_line;
use x_texts::{Break, write_break, write_cut, write_state};

/// Writes a line of a word and a cut: its choices, or the word for none.
fn write_cut_line(
    text: &mut Vec<u8>,
    key: &str,
    none: &str,
    path: Option<&[u32]>,
) -> Result<(), AllocError>
    ensures { AddsLine result text.old text.new (key.now ∷ lent_cut_words none.now path.entry) }
{
    text.extend_from_slice(key.as_bytes())?;
    write_cut(text, none, path)?;
    text.push(b'\n')?;
    Ok(())
}

/// Writes the line of the low cut.
fn write_from(text: &mut Vec<u8>, snapshot: &Snapshot) -> Result<(), AllocError>
    ensures { AddsLine result text.old text.new (low_words snapshot.now.lo) }
{
    write_cut_line(text, "from", "start", snapshot.lo())
}

/// Writes the line of the high cut.
fn write_to(text: &mut Vec<u8>, snapshot: &Snapshot) -> Result<(), AllocError>
    ensures { AddsLine result text.old text.new (high_words snapshot.now.hi) }
{
    write_cut_line(text, "to", "end", snapshot.hi())
}

/// Writes the lines of breakpoints.
fn write_each_break(
    text: &mut Vec<u8>,
    problem: &Problem,
    breaks: &[Break],
) -> Result<(), AllocError>
    requires { list_all (is_break problem.now) breaks.now ≡ true }
    ensures { AddsLines result text.old text.new (map (break_words problem.now.names) breaks.now) }
{
    for breakpoint in breaks {
        write_break(text, "break", problem, *breakpoint)?;
    }
    Ok(())
}

/// Whether the second version is needed: there are secondary items, or breakpoints.
pub fn needs_second(problem: &Problem, breaks: &[Break]) -> bool
    ensures { result ≡ spec.needs_second problem.now breaks.now }
{
    // Both have lines that the first version doesn't know.
    problem.primary() < problem.items() || !breaks.is_empty()
}

/// Writes the number of breakpoints and their lines, in the second version.
fn write_breaks(text: &mut Vec<u8>, problem: &Problem, breaks: &[Break]) -> Result<(), AllocError>
    requires { list_all (is_break problem.now) breaks.now ≡ true }
    ensures { AddsLines result text.old text.new (lines_of_breaks problem.now breaks.now) }
{
    if !needs_second(problem, breaks) {
        // The first version has no line for breakpoints, and there are none.
        return Ok(());
    }
    write_number_line(text, "breaks", breaks.len())?;
    write_each_break(text, problem, breaks)
}

/// The version of a snapshot of the problem with these breakpoints.
fn version_of(problem: &Problem, breaks: &[Break]) -> usize
    ensures { result ≡ spec.version_of problem.now breaks.now }
{
    // The first version wherever it will do, so that there is one spelling.
    if needs_second(problem, breaks) { 2 } else { 1 }
}

/// How many lines the cover text of a problem has.
fn line_count(problem: &Problem) -> usize
    ensures { result ≡ length (word_lines problem.now) }
{
    // Counted from the problem, so that the text isn't gone through.
    let maybe = if problem.primary() < problem.items() {
        1
    } else {
        0
    };
    1 + maybe + problem.options() as usize
}

/// Writes a snapshot, in its one spelling.
pub fn write_snapshot(alloc: Global, snapshot: &Snapshot) -> Result<Vec<u8>, AllocError>
    ensures { ReturnsItems result (snapshot_text snapshot.now) }
{
    let problem = snapshot.problem();
    let breaks = snapshot.breaks();
    // Written aside, as who writes a problem begins a text of its own.
    let cover = write_cover(alloc, problem)?;
    let mut text = Vec::new(alloc);
    write_number_line(&mut text, "polysnap", version_of(problem, breaks))?;
    write_number_line(&mut text, "problem", line_count(problem))?;
    text.extend_from_slice(&cover)?;
    write_from(&mut text, snapshot)?;
    write_to(&mut text, snapshot)?;
    write_state(&mut text, "state", snapshot.state())?;
    write_breaks(&mut text, problem, breaks)?;
    text.extend_from_slice(b"end\n")?;
    Ok(text)
}
