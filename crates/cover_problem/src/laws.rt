//! Laws of the definitions: each is a function that does nothing, whose contract is the law.
ghost use Rattle.std.specs.Prelude.{ℕ, ◌≡◌, ◌<◌, ◌≤◌, ◌↔◌, List, length, true, Ok, Err};
ghost use Rattle.cover_problem.specs.Limits.{most_items, most_options, most_entries, most_name_bytes};
ghost use Rattle.shared_words.specs.Lists.{has};
ghost use Rattle.cover_problem.specs.declared.fault.Fault.{Fault};
ghost use Rattle.cover_problem.specs.declared.fault.Fault.TheVariants.{NoItemLine};
ghost use Rattle.cover_problem.specs.Problem.{ProblemValue, IsProblem};
ghost use Rattle.cover_problem.specs.Covering.{active, remaining, choice};
ghost use Rattle.cover_problem.specs.Validation.{problem_from};
ghost use Rattle.text_lines.specs.Lines.{lines_of};
ghost use Rattle.text_lines.specs.Reading.{IsFirstFault};
ghost use Rattle.cover_problem.specs.Reading.{line, nothing, problem_of, LacksItems};
ghost use Rattle.cover_problem.specs.Grammar.{IsCoverText, written};

use crate::limits::{MOST_ENTRIES, MOST_ITEMS, MOST_NAME_BYTES, MOST_OPTIONS};

/// The choice is the first of the active items with the fewest options left.
pub fn choice_is_first_shortest()
    ensures active { (p : ProblemValue) (c : List ℕ) → 0 < length (active p c) → has (active p c) (choice p c) ≡ true }
    ensures least { (p : ProblemValue) (c : List ℕ) (i : ℕ) → has (active p c) i ≡ true →
        length (remaining p c (choice p c)) ≤ length (remaining p c i) }
    ensures first { (p : ProblemValue) (c : List ℕ) (i : ℕ) → has (active p c) i ≡ true → i < choice p c →
        length (remaining p c (choice p c)) < length (remaining p c i) }
{}

/// Names, a number of primary items and options make a problem exactly where they are one, and it is what was given.
pub fn problems_are_made()
    ensures { (given p : ProblemValue) →
        (problem_from given.names given.primary given.options ≡ Ok p) ↔ ((p ≡ given) × IsProblem p) }
{}

/// What is written is read as the same problem.
pub fn written_is_read()
    ensures { (p : ProblemValue) → IsProblem p → problem_of (written p) ≡ Ok p }
{}

/// What is written is a text of its problem.
pub fn written_is_text()
    ensures { (p : ProblemValue) → IsProblem p → IsCoverText (written p) p }
{}

/// The texts that are read are those of the grammar, and each is read as its problem.
pub fn texts_are_read()
    ensures { (text : List ℕ) (p : ProblemValue) → ((problem_of text ≡ Ok p) ↔ IsCoverText text p) }
{}

/// A fault of a line is the first: the lines before it are read, and this line is judged to have it. The fault of the
/// whole text is that all lines are read and none of them is an `items` line.
pub fn fault_is_first()
    ensures line { (text : List ℕ) (f : Fault) (n : ℕ) → 0 < n →
        ((problem_of text ≡ Err (f, n)) ↔ IsFirstFault line nothing (lines_of text) f n) }
    ensures whole { (text : List ℕ) (f : Fault) → ((problem_of text ≡ Err (f, 0)) ↔ ((f ≡ NoItemLine) × LacksItems text)) }
{}

/// The limits that a program can read are those of the definitions.
pub fn limits_are_told()
    ensures items { MOST_ITEMS ≡ most_items }
    ensures options { MOST_OPTIONS ≡ most_options }
    ensures entries { MOST_ENTRIES ≡ most_entries }
    ensures name_bytes { MOST_NAME_BYTES ≡ most_name_bytes }
{}
