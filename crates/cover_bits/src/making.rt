//! The columns, the first set and the row of active items of a table with nothing covered.
ghost use Rattle.std.specs.Prelude.{◌≡◌, ◌<◌, ◌≤◌, ◌+◌, ◌-◌, ◌*◌, ◌^◌, ◌||◌, ◌==◌, false, nat_lt, ℕ, length, take, IfOk};
ghost use Rattle.std.specs.List.{All};
ghost use Rattle.cover_problem.specs.Problem.{IsProblem};
ghost use Rattle.cover_bits.specs.Parts.{words_for, in_row, is_noted};
ghost use Rattle.cover_bits.specs.Bits as bits;
ghost use Rattle.cover_bits.specs.Bits.{AreColumns};

use crate::sets::{Part, add};
use cover_problem::Problem;
use std::alloc::{AllocError, Global};

/// A row of so many words with nothing in it.
pub(crate) fn empty_row(alloc: Global, words: usize) -> Result<Vec<u64>, AllocError>
    ensures long { IfOk result (λ row. length row.items ≡ words) }
    ensures empty { IfOk result (λ row. (k : ℕ) → in_row row.items k ≡ false) }
{
    vec![in alloc; 0u64; words]
}

/// Notes an option, numbered from 0, in the columns of its items: its bit there is set.
fn note(columns: &mut [u64], words: usize, option: &[u32], place: usize)
    requires items { All (λ i. (0 < i) × ((i - 1) * (64 * words) + place < 64 * length columns.old)) option.now }
    requires small { words ≤ 4096 }
    requires fits { 64 * length columns.old < 2 ^ 64 }
    ensures long { length columns.new ≡ length columns.old }
    ensures each { (k : ℕ) → in_row columns.new k ≡ (in_row columns.old k || is_noted words place option.now k) }
{
    for item in option {
        // The columns stand one after another, so one number tells the bit among them all.
        add(columns, (*item - 1) as usize * (64 * words) + place);
    }
}

/// Notes all options of a problem in columns that are empty: one for each item, of so many words.
pub(crate) fn note_all(columns: &mut [u64], words: usize, problem: &Problem)
    requires long { length columns.old ≡ length problem.now.names * words }
    requires words { words ≡ words_for (length problem.now.options) }
    requires problem { IsProblem problem.now }
    requires empty { (k : ℕ) → in_row columns.old k ≡ false }
    ensures long { length columns.new ≡ length columns.old }
    ensures columns { AreColumns problem.now words columns.new }
{
    for place in 0..problem.options() {
        note(columns, words, problem.option(place + 1), place as usize);
    }
}

/// The word at a place of the set of all numbers below one.
fn full_word(count: u32, place: u32) -> u64
    requires { 64 * place < count }
    ensures { result ≡ bits.full_word count place }
{
    let rest = count - 64 * place;
    // A word that isn't the last is full, and a shift by 64 has no meaning.
    if rest < 64 {
        (1u64 << rest) - 1
    } else {
        u64::MAX
    }
}

/// Writes the set of all numbers below one, where no word of it is 0.
pub(crate) fn fill(parts: &mut [Part], words: usize, count: u32)
    requires words { words ≡ words_for count }
    requires room { words ≤ length parts.old }
    ensures long { length parts.new ≡ length parts.old }
    ensures parts { take words parts.new ≡ bits.full_set count words }
{
    for place in 0..words {
        parts[place] = Part {
            word: full_word(count, place as u32),
            place,
        };
    }
}

/// Adds the numbers below one to an empty row.
pub(crate) fn add_below(row: &mut [u64], count: u32)
    requires room { count ≤ 64 * length row.old }
    requires empty { (k : ℕ) → in_row row.old k ≡ false }
    ensures long { length row.new ≡ length row.old }
    ensures each { (k : ℕ) → in_row row.new k ≡ nat_lt k count }
{
    for number in 0..count {
        add(row, number as usize);
    }
}
