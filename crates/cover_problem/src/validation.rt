//! Whether names and options make a problem, and which fault is the first where they don't.
ghost use Rattle.text_lines.specs.declared.refusal.Refusal.TheVariants as refusals;
ghost use Rattle.cover_problem.specs.declared.fault.Fault.TheVariants.{NoItemLine, TooLarge};
ghost use Rattle.std.specs.Prelude.{◌≡◌, ◌↔◌, true, false, IsErrOf, ◌<◌, ◌≤◌, [], ℕ, List, nat_le, sum_by, length, map, OnOk, IfErr, IsTrue};
ghost use Rattle.std.specs.List.{All};
ghost use Rattle.std.specs.String.{string_bytes};
ghost use Rattle.text_lines.specs.Each.{each};
ghost use Rattle.text_lines.specs.Answers.{Gives};
ghost use Rattle.cover_problem.specs.Faults.{Tells};
ghost use Rattle.cover_problem.specs.Problem as problem;
ghost use Rattle.cover_problem.specs.Validation.{add_name, option_from, options_from, LacksPrimary};
ghost use Rattle.cover_problem.specs.Views.{items_of, kept_names, texts_of};
ghost use Rattle.cover_problem.specs.Checks.{ChecksNames, fit_limits};

use crate::fault::{Fault, ProblemFault};
use crate::limits::{MOST_ENTRIES, MOST_ITEMS, MOST_OPTIONS};
use crate::name::{Name, name_of};
use indexmap::IndexSet;
use std::alloc::Global;

/// Takes a name, once.
pub fn take_name(names: &mut IndexSet<Name>, word: &[u8]) -> Result<(), ProblemFault>
    ensures { Gives (λ _. kept_names names.new) result (add_name (kept_names names.old) word.now) }
{
    let name = name_of(word)?;
    if !names.insert(name)? {
        return Err(ProblemFault::Fault(Fault::RepeatedItem));
    }
    Ok(())
}

/// The names, each once.
fn take_names(alloc: Global, given: &[String]) -> Result<IndexSet<Name>, ProblemFault>
    ensures { Gives kept_names result (each add_name [] (texts_of given.now)) }
{
    let mut names = IndexSet::new(alloc);
    for name in given {
        take_name(&mut names, name.as_bytes())?;
    }
    Ok(names)
}

/// Whether the numbers are an option over as many items as there are marks. An item that was taken has the stamp as its mark.
fn check_option(marks: &mut [usize], stamp: usize, numbers: &[u32]) -> Result<(), Fault>
    requires { All (λ mark. mark < stamp) marks.old }
    ensures option { Tells (λ _. numbers.now) result (option_from (length marks.old) numbers.now) }
    ensures marks { OnOk result (All (λ mark. mark ≤ stamp) marks.new) }
{
    if numbers.is_empty() {
        return Err(Fault::BadLine);
    }
    for number in numbers {
        let number = *number as usize;
        if number == 0 || number > marks.len() {
            return Err(Fault::UnknownItem);
        }
        if marks[number - 1] == stamp {
            return Err(Fault::ItemTwiceInOption);
        }
        marks[number - 1] = stamp;
    }
    Ok(())
}

/// Whether these are options over as many items as there are marks, which are all 0.
fn check_each(marks: &mut [usize], options: &[Vec<u32>]) -> Result<(), Fault>
    requires { All (λ mark. mark ≤ 0) marks.old }
    ensures { Tells (λ _. items_of options.now) result (options_from (length marks.old) (items_of options.now)) }
{
    for (place, option) in options.iter().enumerate() {
        // A stamp of its own for each option, from 1: so no mark is cleared between two options.
        check_option(marks, place + 1, option)?;
    }
    Ok(())
}

/// Whether these are options over so many items.
fn check_options(alloc: Global, count: usize, options: &[Vec<u32>]) -> Result<(), ProblemFault>
    ensures { Gives (λ _. items_of options.now) result (options_from count (items_of options.now)) }
{
    let mut marks = vec![in alloc; 0usize; count]?;
    Ok(check_each(&mut marks, options)?)
}

/// Whether the options have at most so many items together.
fn are_few(options: &[Vec<u32>], most: usize) -> bool
    ensures { result ≡ nat_le (sum_by length (items_of options.now)) most }
{
    // What is left is counted down, since a sum of lengths could overflow.
    let mut left = most;
    for option in options {
        if option.len() > left {
            return false;
        }
        left -= option.len();
    }
    true
}

/// Whether so many items and these options are within the limits.
fn is_within(count: usize, options: &[Vec<u32>]) -> bool
    ensures { result ≡ fit_limits count options.now }
{
    count <= MOST_ITEMS
        && options.len() <= MOST_OPTIONS
        // Of the entries a header, the items and the spacers, one more than options, leave so many to the nodes.
        && are_few(options, MOST_ENTRIES - 2 - count - options.len())
}

/// Whether so many items and these options are within the limits, or the fault that they aren't.
fn check_size(count: usize, options: &[Vec<u32>]) -> Result<(), Fault>
    ensures within { OnOk result (fit_limits count options.now ≡ true) }
    ensures over { IfErr result (λ f. (f ≡ TooLarge) × (fit_limits count options.now ≡ false)) }
{
    if !is_within(count, options) {
        return Err(Fault::TooLarge);
    }
    Ok(())
}

/// The names of a problem, once its names, options and sizes are checked.
fn checked_parts(
    alloc: Global,
    names: &[String],
    primary: u32,
    options: &[Vec<u32>],
) -> Result<IndexSet<Name>, ProblemFault>
    requires { problem.is_item (length names.now) primary ≡ true }
    ensures { ChecksNames result names.now primary options.now }
{
    // The order is that of the faults: names, then options, then the size.
    let these = take_names(alloc, names)?;
    check_options(alloc, names.len(), options)?;
    check_size(names.len(), options)?;
    Ok(these)
}

/// The names of a problem, once all is checked.
pub fn checked_names(
    alloc: Global,
    names: &[String],
    primary: u32,
    options: &[Vec<u32>],
) -> Result<IndexSet<Name>, ProblemFault>
    ensures names { ChecksNames result names.now primary options.now }
    ensures primary { IsErrOf result (refusals.Fault NoItemLine) ↔ LacksPrimary names.now primary }
{
    // Asked before any name is read, so that it takes no memory.
    if primary == 0 || primary as usize > names.len() {
        return Err(ProblemFault::Fault(Fault::NoItemLine));
    }
    checked_parts(alloc, names, primary, options)
}
