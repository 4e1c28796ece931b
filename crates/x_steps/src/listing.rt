//! Which items are left, each with its options, as a table tells them.
ghost use Rattle.std.specs.Prelude.{◌≡◌, ◌<◌, ◌≤◌, length};
ghost use Rattle.cover_problem.specs.Problem.{IsProblem};
ghost use Rattle.x_steps.specs.Answers.{ReturnsOptions, ReturnsRows, ReturnsRemaining};
ghost use Rattle.x_steps.specs.Machine.{second_items};

use crate::flags::{flags_of, is_flagged};
use cover_problem::{Problem, Table};
use std::alloc::{AllocError, Global};

/// The options of an item's list.
pub fn options_of<T: Table>(alloc: Global, table: &T, item: u32) -> Result<Vec<u32>, AllocError>
    requires some { 0 < item }
    requires within { item ≤ length (T.problem_value table.now).names }
    ensures { ReturnsOptions result (T.problem_value table.now) (T.covered_list table.now) item }
{
    // The table knows how many there are, so memory is asked for once.
    let mut options = Vec::with_capacity(alloc, table.len(item) as usize)?;
    let mut next = table.first_option(item);
    while let Some(option) = next {
        options.push(option)?;
        next = table.next_option(item, option);
    }
    Ok(options)
}

/// The active items, each with the options left for it.
pub fn active_items<T: Table>(alloc: Global, table: &T) -> Result<Vec<(u32, Vec<u32>)>, AllocError>
    requires { IsProblem (T.problem_value table.now) }
    ensures { ReturnsRemaining result (T.problem_value table.now) (T.covered_list table.now) }
{
    let mut rows = Vec::new(alloc);
    let mut next = table.first_item();
    while let Some(item) = next {
        rows.push((item, options_of(alloc, table, item)?))?;
        next = table.next_item(item);
    }
    Ok(rows)
}

/// The secondary items that are not covered, each with the options left for it.
pub fn secondary_items<T: Table>(
    alloc: Global,
    problem: &Problem,
    table: &T,
) -> Result<Vec<(u32, Vec<u32>)>, AllocError>
    requires { T.problem_value table.now ≡ problem.now }
    ensures { ReturnsRows result (second_items problem.now (T.covered_list table.now)) }
{
    // Flags, so that the list of covered items isn't searched for each secondary one.
    let flags = flags_of(alloc, problem.items(), table.covered())?;
    let mut rows = Vec::new(alloc);
    // A table goes through the active items only, which are primary: these are gone through by number.
    for before in problem.primary()..problem.items() {
        let item = before + 1;
        if is_flagged(&flags, item) {
            continue;
        }
        rows.push((item, options_of(alloc, table, item)?))?;
    }
    Ok(rows)
}
