//! Whether tables of bits have room.
ghost use Rattle.std.specs.Prelude.{IsTrue, ◌↔◌};
ghost use Rattle.cover_bits.specs.Rule.{TablesFit};

use crate::sets::words_for;
use cover_problem::Problem;

/// The most words that the columns of all workers' tables may have together. specs/Rule.antt has the same number, and the
/// contracts cite that.
const MOST_WORDS: u64 = 1_048_576;

/// Whether tables of bits for so many workers stay within the bound: items times words times workers is at most 1,048,576, where
/// a set of the options takes a word for 64 of them. A table has 24 bytes for each word of each item, so all take 25 MB at most,
/// beside one set more for each and 12 bytes for each item.
pub fn has_room(problem: &Problem, workers: u32) -> bool
    ensures { IsTrue result ↔ TablesFit problem.now workers }
{
    // 65,535 items, 4,096 words and any number of workers below 2^32 stay below 2^60.
    let words = words_for(problem.options()) as u64;
    problem.items() as u64 * words * workers as u64 <= MOST_WORDS
}
