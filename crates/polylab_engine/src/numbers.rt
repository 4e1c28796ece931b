//! Lines of numbers of any length.
ghost use Rattle.std.specs.Prelude.{◌≡◌, [], ◌∷◌, map};
ghost use Rattle.shared_words.specs.Answers.{ReturnsItems};
ghost use Rattle.text_lines.specs.Writes.{AddsLine, AddsWords};
ghost use Rattle.cover_counts.specs.Digits.{numeral};
ghost use Rattle.polylab_engine.specs.Output.{level_words};

use cover_counts::Natural;
use std::alloc::{AllocError, Global};

/// These numbers as naturals.
pub fn naturals_of(alloc: Global, numbers: &[u128]) -> Result<Vec<Natural>, AllocError>
    ensures { ReturnsItems result numbers.now }
{
    let mut naturals = Vec::with_capacity(alloc, numbers.len())?;
    for number in numbers {
        naturals.push(Natural::of_wide(alloc, *number)?)?;
    }
    Ok(naturals)
}

/// Adds a number after a space.
fn write_natural(alloc: Global, text: &mut Vec<u8>, number: &Natural) -> Result<(), AllocError>
    ensures { AddsWords result text.old text.new (numeral number.now ∷ []) }
{
    let digits = number.to_decimal(alloc)?;
    text.push(b' ')?;
    text.extend_from_slice(&digits)
}

/// Adds numbers, each after a space.
fn write_naturals(alloc: Global, text: &mut Vec<u8>, numbers: &[Natural]) -> Result<(), AllocError>
    ensures { AddsWords result text.old text.new (map numeral numbers.now) }
{
    for number in numbers {
        write_natural(alloc, text, number)?;
    }
    Ok(())
}

/// Adds a line of a word and a number.
pub fn write_natural_line(
    alloc: Global,
    text: &mut Vec<u8>,
    key: &str,
    number: &Natural,
) -> Result<(), AllocError>
    ensures { AddsLine result text.old text.new (key.now ∷ numeral number.now ∷ []) }
{
    text.extend_from_slice(key.as_bytes())?;
    write_natural(alloc, text, number)?;
    text.push(b'\n')?;
    Ok(())
}

/// Adds the line of the counts of levels, that of level 0 at least.
pub fn write_levels(alloc: Global, text: &mut Vec<u8>, counts: &[Natural]) -> Result<(), AllocError>
    ensures { AddsLine result text.old text.new (level_words counts.now) }
{
    if counts.is_empty() {
        return text.extend_from_slice(b"levels 0\n");
    }
    text.extend_from_slice(b"levels")?;
    write_naturals(alloc, text, counts)?;
    text.push(b'\n')?;
    Ok(())
}
