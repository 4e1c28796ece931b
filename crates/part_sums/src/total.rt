//! The lines of a sum.
ghost use Rattle.std.specs.Prelude.{[], ◌∷◌, map, codes};
ghost use Rattle.shared_words.specs.Answers.{ReturnsItems};
ghost use Rattle.text_lines.specs.Writing.{text_of};
ghost use Rattle.text_lines.specs.Writes.{AddsLine, AddsLines, AddsWords};
ghost use Rattle.cover_counts.specs.Digits.{numeral};
ghost use Rattle.part_sums.specs.Answers as spec;
ghost use Rattle.part_sums.specs.Answers.{counts_value, count_line, levels_line, steps_lines};

use cover_counts::{Counts, Natural};
use cover_problem::Problem;
use std::alloc::{AllocError, Global};
use text_lines::write_number_line;

/// What is counted: the visits of a cover text, or the packings of a puzzle, whose number of options is said too.
#[derive(Clone, Copy, Debug, PartialEq, Eq)]
pub enum Counted {
    Covers,
    Packings,
}

/// Adds a number after a space.
fn write_natural(alloc: Global, text: &mut Vec<u8>, number: &Natural) -> Result<(), AllocError>
    ensures { AddsWords result text.old text.new (numeral number.now ∷ []) }
{
    let digits = number.to_decimal(alloc)?;
    text.push(b' ')?;
    text.extend_from_slice(&digits)
}

/// Adds numbers, each after a space.
fn write_naturals(alloc: Global, text: &mut Vec<u8>, numbers: &[Natural]) -> Result<(), AllocError>
    ensures { AddsWords result text.old text.new (map numeral numbers.now) }
{
    for number in numbers {
        write_natural(alloc, text, number)?;
    }
    Ok(())
}

/// Adds a line of a word and a number.
fn write_natural_line(
    alloc: Global,
    text: &mut Vec<u8>,
    key: &str,
    number: &Natural,
) -> Result<(), AllocError>
    ensures { AddsLine result text.old text.new (count_line key.now number.now) }
{
    text.extend_from_slice(key.as_bytes())?;
    write_natural(alloc, text, number)?;
    text.push(b'\n')?;
    Ok(())
}

/// Adds the line of the levels, level 0 at least.
fn write_levels(alloc: Global, text: &mut Vec<u8>, levels: &[Natural]) -> Result<(), AllocError>
    ensures { AddsLine result text.old text.new (levels_line levels.now) }
{
    if levels.is_empty() {
        return text.extend_from_slice(b"levels 0\n");
    }
    text.extend_from_slice(b"levels")?;
    write_naturals(alloc, text, levels)?;
    text.push(b'\n')?;
    Ok(())
}

/// Adds the lines of the steps and the levels.
fn write_steps(alloc: Global, text: &mut Vec<u8>, sum: &Counts) -> Result<(), AllocError>
    ensures { AddsLines result text.old text.new (steps_lines (counts_value sum.now)) }
{
    write_natural_line(alloc, text, "steps", &sum.steps)?;
    write_levels(alloc, text, &sum.levels)
}

/// The lines of covers.
fn cover_lines(alloc: Global, sum: &Counts) -> Result<Vec<u8>, AllocError>
    ensures { ReturnsItems result
        (text_of (count_line (codes "visits") sum.now.visits ∷ steps_lines (counts_value sum.now))) }
{
    let mut text = Vec::new(alloc);
    write_natural_line(alloc, &mut text, "visits", &sum.visits)?;
    write_steps(alloc, &mut text, sum)?;
    Ok(text)
}

/// The lines of packings.
fn packing_lines(alloc: Global, problem: &Problem, sum: &Counts) -> Result<Vec<u8>, AllocError>
    ensures { ReturnsItems result (text_of (spec.sum_lines Counted.Packings problem.now (counts_value sum.now))) }
{
    let mut text = Vec::new(alloc);
    write_natural_line(alloc, &mut text, "packings", &sum.visits)?;
    write_number_line(&mut text, "options", problem.options())?;
    write_steps(alloc, &mut text, sum)?;
    Ok(text)
}

/// The lines of the sum.
pub(crate) fn sum_lines(
    alloc: Global,
    counted: Counted,
    problem: &Problem,
    sum: &Counts,
) -> Result<Vec<u8>, AllocError>
    ensures { ReturnsItems result (text_of (spec.sum_lines counted problem.now (counts_value sum.now))) }
{
    match counted {
        Counted::Covers => cover_lines(alloc, sum),
        Counted::Packings => packing_lines(alloc, problem, sum),
    }
}
