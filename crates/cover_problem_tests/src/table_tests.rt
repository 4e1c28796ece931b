//! Plain tables of the small problem, and of one with an item that may be covered.
ghost use Rattle.std.specs.Prelude.{◌≡◌, ◌<◌, ◌≤◌, [], ◌∷◌, length, IfOk};

use crate::fixtures::{SMALL, many_options};
use cover_problem::{PlainTable, Problem, Table, read_cover};
use std::alloc::{AllocError, Global};

const SECONDARY: &[u8] = b"items a b\nmaybe c\noption a c\noption b c\noption a\noption b\n";

/// The active items and each item's list, a 0 after each of these.
const BEGUN: &[u32] = &[
    1, 2, 3, 4, 5, 6, 7, 0, 2, 4, 0, 3, 5, 0, 1, 3, 0, 2, 4, 6, 0, 1, 6, 0, 3, 4, 0, 2, 5, 6, 0,
];

/// The same with a, d and g covered.
const AFTER_A_D_G: &[u32] = &[
    2, 3, 5, 6, 0, 2, 4, 0, 3, 0, 1, 3, 0, 6, 0, 1, 0, 3, 0, 5, 0,
];

/// The same with a covered.
const AFTER_A: &[u32] = &[
    2, 3, 4, 5, 6, 7, 0, 2, 4, 0, 3, 5, 0, 1, 3, 0, 6, 0, 1, 6, 0, 3, 0, 5, 6, 0,
];

/// The same of the problem with a secondary item, with nothing covered and with that item covered.
const SECONDARY_BEGUN: &[u32] = &[1, 2, 0, 1, 3, 0, 2, 4, 0, 1, 2, 0];

const SECONDARY_AFTER_C: &[u32] = &[1, 2, 0, 3, 0, 4, 0, 1, 2, 0];

/// Adds the active items, by the walk.
fn add_active<T: Table>(told: &mut Vec<u32>, table: &T) -> Result<(), AllocError> {
    let mut next = table.first_item();
    for _ in 0..100_000 {
        let Some(item) = next else {
            break;
        };
        told.push(item)?;
        next = table.next_item(item);
    }
    Ok(())
}

/// Adds an item's list, from its first.
fn add_list<T: Table>(told: &mut Vec<u32>, table: &T, item: u32) -> Result<(), AllocError>
    requires some { 0 < item }
    requires within { item ≤ length (T.problem_value table.now).names }
{
    let mut next = table.first_option(item);
    for _ in 0..100_000 {
        let Some(option) = next else {
            break;
        };
        told.push(option)?;
        next = table.next_option(item, option);
    }
    Ok(())
}

/// Adds an item's list, from its last.
fn add_list_back<T: Table>(told: &mut Vec<u32>, table: &T, item: u32) -> Result<(), AllocError>
    requires some { 0 < item }
    requires within { item ≤ length (T.problem_value table.now).names }
{
    let mut next = table.last_option(item);
    for _ in 0..100_000 {
        let Some(option) = next else {
            break;
        };
        told.push(option)?;
        next = table.prev_option(item, option);
    }
    Ok(())
}

/// Adds the active items and the lists of so many items, a 0 after each of these.
fn add_told<T: Table>(told: &mut Vec<u32>, table: &T, items: u32) -> Result<(), AllocError>
    requires { items ≤ length (T.problem_value table.now).names }
{
    add_active(told, table)?;
    told.push(0)?;
    for item in 1..=items {
        add_list(told, table, item)?;
        told.push(0)?;
    }
    Ok(())
}

/// Whether an item's list is the same from its last, and as long as is counted.
fn is_same_back<T: Table>(alloc: Global, table: &T, item: u32) -> bool
    requires some { 0 < item }
    requires within { item ≤ length (T.problem_value table.now).names }
{
    let mut there = Vec::new(alloc);
    let mut back = Vec::new(alloc);
    let is_there = add_list(&mut there, table, item).is_ok();
    let is_back = add_list_back(&mut back, table, item).is_ok();
    back.reverse();
    is_there && is_back && back == there && table.len(item) as usize == there.len()
}

/// Whether the lists of so many items are the same from their last.
fn are_same_back<T: Table>(alloc: Global, table: &T, items: u32) -> bool
    requires { items ≤ length (T.problem_value table.now).names }
{
    for item in 1..=items {
        if !is_same_back(alloc, table, item) {
            return false;
        }
    }
    true
}

/// Whether a table tells this, from the first and from the last.
fn tells<T: Table>(alloc: Global, table: &T, items: u32, expected: &[u32]) -> bool
    requires { items ≤ length (T.problem_value table.now).names }
{
    let mut told = Vec::new(alloc);
    let is_told = add_told(&mut told, table, items).is_ok();
    is_told && told.as_slice() == expected && are_same_back(alloc, table, items)
}

/// A table of the small problem with nothing covered.
fn is_begun(alloc: Global, problem: &Problem, expected: &[u32]) -> bool {
    let Ok(table) = PlainTable::new(alloc, problem) else {
        return false;
    };
    tells(alloc, &table, problem.items(), expected)
}

/// A table with a, d and g covered.
fn after_a_d_g(alloc: Global, problem: &Problem) -> Result<PlainTable, AllocError>
    requires { length problem.now.names ≡ 7 }
    ensures same_problem { IfOk result (λ t. t.problem ≡ problem.now) }
    ensures covered { IfOk result (λ t. t.covered ≡ 1 ∷ 4 ∷ 7 ∷ []) }
{
    let mut table = PlainTable::new(alloc, problem)?;
    table.cover(1);
    table.cover(4);
    table.cover(7);
    Ok(table)
}

/// Uncovers g and d.
fn back_to_a(table: &mut PlainTable)
    requires { table.old.covered ≡ 1 ∷ 4 ∷ 7 ∷ [] }
    ensures same_problem { table.new.problem ≡ table.old.problem }
    ensures covered { table.new.covered ≡ 1 ∷ [] }
{
    table.uncover(7);
    table.uncover(4);
}

/// Whether a, d and g are the covered items, and the others are told as they should be.
fn is_filtered(alloc: Global, problem: &Problem) -> bool
    requires { length problem.now.names ≡ 7 }
{
    let Ok(table) = after_a_d_g(alloc, problem) else {
        return false;
    };
    table.covered() == [1, 4, 7].as_slice() && tells(alloc, &table, 7, AFTER_A_D_G)
}

/// Whether uncovering g and d goes back to where a alone was covered, and uncovering a to the beginning.
fn goes_back(alloc: Global, problem: &Problem) -> bool
    requires { length problem.now.names ≡ 7 }
{
    let Ok(mut table) = after_a_d_g(alloc, problem) else {
        return false;
    };
    back_to_a(&mut table);
    let is_back = tells(alloc, &table, 7, AFTER_A);
    table.uncover(1);
    is_back && tells(alloc, &table, 7, BEGUN)
}

/// Whether the item c is told as it should be once it is covered.
fn is_secondary(alloc: Global, problem: &Problem) -> bool
    requires { length problem.now.names ≡ 3 }
{
    let Ok(mut table) = PlainTable::new(alloc, problem) else {
        return false;
    };
    table.cover(3);
    tells(alloc, &table, 3, SECONDARY_AFTER_C)
}

/// How many options the list of a table's first item has, from its first and from its last.
fn lengths_in<T: Table>(alloc: Global, table: &T) -> (usize, usize)
    requires { 1 ≤ length (T.problem_value table.now).names }
{
    let mut there = Vec::new(alloc);
    let mut back = Vec::new(alloc);
    let are_told = add_list(&mut there, table, 1).is_ok()
        && add_list_back(&mut back, table, 1).is_ok();
    if are_told {
        (there.len(), back.len())
    } else {
        (0, 0)
    }
}

/// Whether these are both so many in a table of a problem.
fn has_lengths(alloc: Global, problem: &Problem, count: usize) -> bool
    requires { 1 ≤ length problem.now.names }
{
    let Ok(table) = PlainTable::new(alloc, problem) else {
        return false;
    };
    lengths_in(alloc, &table) == (count, count)
}

/// What is asked of a problem's tables.
#[derive(Clone, Copy)]
enum Asked {
    /// Of the small problem: what they tell with nothing covered, and with a, d and g covered.
    Filters,
    /// Of the small problem: that uncovering goes back.
    GoesBack,
    /// Of the problem with a secondary item: what they tell with nothing covered, and with c covered.
    Secondary,
    /// Of the problem with so many equal options: how long its list is.
    Lengths(usize),
}

/// Whether the tables of a problem are as they should be.
fn are_right(alloc: Global, problem: &Problem, asked: Asked) -> bool {
    match (asked, problem.items()) {
        (Asked::Filters, 7) => is_begun(alloc, problem, BEGUN) && is_filtered(alloc, problem),
        (Asked::GoesBack, 7) => goes_back(alloc, problem),
        (Asked::Secondary, 3) => {
            is_begun(alloc, problem, SECONDARY_BEGUN) && is_secondary(alloc, problem)
        }
        (Asked::Lengths(count), 1) => has_lengths(alloc, problem, count),
        _ => false,
    }
}

/// The same of the problem of a text.
fn are_right_of(alloc: Global, text: &[u8], asked: Asked) -> bool {
    let Ok(problem) = read_cover(alloc, text) else {
        return false;
    };
    are_right(alloc, &problem, asked)
}

#[test]
fn a_plain_table_filters(rt: HostRuntime) {
    assert!(rt; are_right_of(rt.alloc(), SMALL, Asked::Filters));
}

#[test]
fn uncovering_goes_back(rt: HostRuntime) {
    assert!(rt; are_right_of(rt.alloc(), SMALL, Asked::GoesBack));
}

#[test]
fn a_secondary_item_is_never_active(rt: HostRuntime) {
    assert!(rt; are_right_of(rt.alloc(), SECONDARY, Asked::Secondary));
}

/// Whether the list of so many equal options is that long.
fn is_walked(alloc: Global, count: u32) -> bool {
    let Ok(text) = many_options(alloc, count) else {
        return false;
    };
    are_right_of(alloc, &text, Asked::Lengths(count as usize))
}

#[test]
fn a_long_list_is_walked_in_linear_time(rt: HostRuntime) {
    assert!(rt; is_walked(rt.alloc(), 70_000));
}
