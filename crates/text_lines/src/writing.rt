//! Lines of words and numbers, as they are written: one space between two, and a newline after the last.
ghost use Rattle.std.specs.Prelude.{◌∷◌, [], map};
ghost use Rattle.shared_words.specs.Answers.{Adds};
ghost use Rattle.text_lines.specs.Writes.{AddsWords, AddsLine};

use itoa::{Buffer, Integer};
use std::alloc::AllocError;

/// Writes a word after another.
#[inline]
pub fn write_word(text: &mut Vec<u8>, word: &str) -> Result<(), AllocError>
    ensures { Adds result text.old text.new (32 ∷ word.now) }
{
    // The blank stands before the word, so the last word of a line needs no case of its own.
    text.push(b' ')?;
    text.extend_from_slice(word.as_bytes())
}

/// Writes a number after a word.
#[inline]
pub fn write_number<N: Integer + Drop>(text: &mut Vec<u8>, number: N) -> Result<(), AllocError>
    ensures { Adds result text.old text.new (32 ∷ N.text number) }
{
    // The digits are made on the stack, so no other memory is asked for than the text's.
    let mut buffer = Buffer::new();
    write_word(text, buffer.format(number))
}

/// Writes numbers, each after a word.
pub fn write_numbers<N: Integer + Drop>(text: &mut Vec<u8>, numbers: &[N]) -> Result<(), AllocError>
    ensures { AddsWords result text.old text.new (map N.text numbers.now) }
{
    // One buffer for all: a call of `write_number` for each isn't inlined, and costs twenty-five instructions more.
    let mut buffer = Buffer::new();
    for number in numbers {
        write_word(text, buffer.format(*number))?;
    }
    Ok(())
}

/// Writes a line of a word and a number.
pub fn write_number_line<N: Integer + Drop>(
    text: &mut Vec<u8>,
    key: &str,
    number: N,
) -> Result<(), AllocError>
    ensures { AddsLine result text.old text.new (key.now ∷ N.text number ∷ []) }
{
    text.extend_from_slice(key.as_bytes())?;
    write_number(text, number)?;
    text.push(b'\n')?;
    Ok(())
}

/// Writes a line of a word and numbers.
pub fn write_numbers_line<N: Integer + Drop>(
    text: &mut Vec<u8>,
    key: &str,
    numbers: &[N],
) -> Result<(), AllocError>
    ensures { AddsLine result text.old text.new (key.now ∷ map N.text numbers.now) }
{
    text.extend_from_slice(key.as_bytes())?;
    write_numbers(text, numbers)?;
    text.push(b'\n')?;
    Ok(())
}
