//! The writer of cover texts.
ghost use Rattle.std.specs.Prelude.{◌≡◌, true, ◌∷◌, map, length, codes};
ghost use Rattle.std.specs.List.{list_all};
ghost use Rattle.text_lines.specs.Writing.{text_of};
ghost use Rattle.cover_problem.specs.Problem.{is_item, is_option};
ghost use Rattle.cover_problem.specs.Grammar.{maybe_words, option_words, written};
ghost use Rattle.cover_problem.specs.Views.{name_bytes};
ghost use Rattle.shared_words.specs.Answers.{Adds, ReturnsItems};
ghost use Rattle.text_lines.specs.Writes.{AddsLine};

use crate::lists::Lists;
use crate::name::Name;
use crate::problem::Problem;
use std::alloc::{AllocError, Global};
use text_lines::write_word;

/// Writes a line of names.
fn write_names(text: &mut Vec<u8>, key: &[u8], names: &[Name]) -> Result<(), AllocError>
    ensures { AddsLine result text.old text.new (key.now ∷ name_bytes names.now) }
{
    text.extend_from_slice(key)?;
    for name in names {
        write_word(text, name.as_str())?;
    }
    text.push(b'\n')?;
    Ok(())
}

/// Writes the `maybe` line, where there are names for it.
fn write_maybe(text: &mut Vec<u8>, names: &[Name]) -> Result<(), AllocError>
    ensures { Adds result text.old text.new (text_of (maybe_words (name_bytes names.now))) }
{
    // A `maybe` line without names would be refused.
    if names.is_empty() {
        return Ok(());
    }
    write_names(text, b"maybe", names)
}

/// Writes the line of an option over items with these names.
fn write_option(text: &mut Vec<u8>, names: &[Name], option: &[u32]) -> Result<(), AllocError>
    requires { list_all (is_item (length names.now)) option.now ≡ true }
    ensures { AddsLine result text.old text.new (option_words (name_bytes names.now) option.now) }
{
    text.extend_from_slice(b"option")?;
    for item in option {
        write_word(text, names[(*item - 1) as usize].as_str())?;
    }
    text.push(b'\n')?;
    Ok(())
}

/// Writes the lines of options over items with these names.
fn write_options(text: &mut Vec<u8>, names: &[Name], options: &Lists) -> Result<(), AllocError>
    requires { list_all (is_option (length names.now)) options.now ≡ true }
    ensures { Adds result text.old text.new (text_of (map (option_words (name_bytes names.now)) options.now)) }
{
    for place in 0..options.len() {
        write_option(text, names, options.list(place))?;
    }
    Ok(())
}

/// Writes a problem as a cover text: the `items` line, the `maybe` line where there are items that may be covered, and a
/// line for each option, with one space between two words and a newline at each end.
pub fn write_cover(alloc: Global, problem: &Problem) -> Result<Vec<u8>, AllocError>
    ensures { ReturnsItems result (written problem.now) }
{
    let names = problem.name_list();
    // The items to cover come first, so one place parts the names of the two lines.
    let (items, others) = names.split_at(problem.primary() as usize);
    let mut text = Vec::new(alloc);
    write_names(&mut text, b"items", items)?;
    write_maybe(&mut text, others)?;
    write_options(&mut text, names, problem.option_lists())?;
    Ok(text)
}
