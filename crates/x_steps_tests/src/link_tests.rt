//! The table of nodes of the small problem, its lists while items are covered, and the memory of a block.
ghost use Rattle.std.specs.Prelude.{◌≡◌, ◌<◌, ◌≤◌, length, [], ◌∷◌};
ghost use Rattle.cover_problem.specs.Problem.{size_of};

use cover_links::{Block, LinkTable, Offset, TableEntry};
use cover_problem::{Problem, Table, read_cover};
use drawn_problems::SMALL;
use linked_list_allocator::LocalHeap;
use std::alloc::{Allocator, Global};
use x_steps::{Label, Machine};

/// The entries 1 to 30: an item's length, a node's item, or a spacer's option negated, and the links up and down.
/// (TAOCP volume 4B, section 7.2.2.1, table 1, with the spacers' links.)
const NODES: [(i64, u32, u32); 30] = [
    (2, 20, 12),
    (2, 24, 16),
    (2, 17, 9),
    (3, 27, 13),
    (2, 28, 10),
    (2, 22, 18),
    (3, 29, 14),
    (0, 0, 10),
    (3, 3, 17),
    (5, 5, 28),
    (-1, 9, 14),
    (1, 1, 20),
    (4, 4, 21),
    (7, 7, 25),
    (-2, 12, 18),
    (2, 2, 24),
    (3, 9, 3),
    (6, 6, 22),
    (-3, 16, 22),
    (1, 12, 1),
    (4, 13, 27),
    (6, 18, 6),
    (-4, 20, 25),
    (2, 16, 2),
    (7, 14, 29),
    (-5, 24, 29),
    (4, 21, 4),
    (5, 10, 5),
    (7, 25, 7),
    (-6, 27, 0),
];

/// Whether the entries 1 to 30 are those of the small problem.
pub fn is_small_block(table: &LinkTable) -> bool
    requires { size_of table.now.problem ≡ 31 }
{
    for (place, entry) in NODES.iter().enumerate() {
        let node = table.node(place as u32 + 1);
        if node.top_or_len != entry.0 || node.up != entry.1 || node.down != entry.2 {
            return false;
        }
    }
    true
}

/// Covers three items.
pub fn cover_three<T: Table>(table: &mut T, a: u32, b: u32, c: u32)
    requires none { T.covered_list table.old ≡ [] }
    requires first { (0 < a) }
    requires rising { a < b }
    requires more { b < c }
    requires within { c ≤ length (T.problem_value table.old).names }
    ensures same_problem { T.problem_value table.new ≡ T.problem_value table.old }
    ensures covered { T.covered_list table.new ≡ a ∷ b ∷ c ∷ [] }
{
    table.cover(a);
    table.cover(b);
    table.cover(c);
}

/// Uncovers them again.
pub fn uncover_three<T: Table>(table: &mut T, a: u32, b: u32, c: u32)
    requires { T.covered_list table.old ≡ a ∷ b ∷ c ∷ [] }
    ensures same_problem { T.problem_value table.new ≡ T.problem_value table.old }
    ensures covered { T.covered_list table.new ≡ [] }
{
    table.uncover(c);
    table.uncover(b);
    table.uncover(a);
}

/// The second active item.
fn second_item(table: &LinkTable) -> Option<u32> {
    table.next_item(table.first_item()?)
}

/// The second option of an item's list.
fn second_option(table: &LinkTable, item: u32) -> Option<u32>
    requires some { 0 < item }
    requires within { item ≤ length table.now.problem.names }
{
    table.next_option(item, table.first_option(item)?)
}

/// The last but one option of an item's list.
fn last_but_one(table: &LinkTable, item: u32) -> Option<u32>
    requires some { 0 < item }
    requires within { item ≤ length table.now.problem.names }
{
    table.prev_option(item, table.last_option(item)?)
}

/// Whether a table of nodes is the small problem's.
pub fn is_small_table(table: &LinkTable) -> bool {
    table.entries() == 31 && is_small_block(table)
}

/// Whether a new table is.
fn is_new_table(alloc: Global, problem: &Problem) -> bool {
    let Ok(table) = LinkTable::new(alloc, problem) else {
        return false;
    };
    is_small_table(&table)
}

/// Whether a table of nodes is the small problem's again once three items were covered and uncovered, and another one in between.
fn goes_back(table: &mut LinkTable) -> bool
    requires size { size_of table.old.problem ≡ 31 }
    requires items { length table.old.problem.names ≡ 7 }
    requires none { table.old.covered ≡ [] }
{
    cover_three(table, 1, 4, 7);
    let is_other = !is_small_block(table);
    uncover_three(table, 1, 4, 7);
    is_other && is_small_block(table)
}

/// The same of a new table of a problem with seven items.
fn goes_back_anew(alloc: Global, problem: &Problem) -> bool
    requires { length problem.now.names ≡ 7 }
{
    let Ok(mut table) = LinkTable::new(alloc, problem) else {
        return false;
    };
    table.entries() == 31 && goes_back(&mut table)
}

/// How many steps a machine takes to its end.
fn count_steps<T: Table>(machine: &mut Machine<'_, T>) -> u32 {
    let mut steps: u32 = 0;
    for _ in 0..100_000 {
        if machine.step().is_err() {
            break;
        }
        steps = steps.wrapping_add(1);
    }
    steps
}

/// Whether a walk to the end begins and ends with the small problem's table of nodes.
fn walks(machine: &mut Machine<'_, LinkTable>) -> bool {
    let is_begun = is_small_table(machine.table());
    let steps = count_steps(machine);
    let is_over = machine.state().label == Label::Done;
    is_begun && steps == 43 && is_over && is_small_table(machine.table())
}

/// The same of a new machine.
fn walks_anew(alloc: Global, problem: &Problem) -> bool {
    let Ok(table) = LinkTable::new(alloc, problem) else {
        return false;
    };
    match Machine::new(alloc, problem, table) {
        Ok(mut machine) => walks(&mut machine),
        Err(_) => false,
    }
}

/// Whether what is left once the items 1, 4 and 7 are covered is right. The lists of covered items stay as they were.
fn is_left(table: &LinkTable) -> bool
    requires { length table.now.problem.names ≡ 7 }
{
    let items = [table.first_item(), second_item(table)];
    let first = [table.first_option(3), table.first_option(4)];
    let second = [second_option(table, 3), second_option(table, 2)];
    let last = [
        table.last_option(3),
        last_but_one(table, 3),
        last_but_one(table, 2),
    ];
    let lengths = [table.len(2), table.len(1), table.len(4)];
    items == [Some(2), Some(3)]
        && first == [Some(1), Some(6)]
        && second == [Some(3), None]
        && last == [Some(3), Some(1), None]
        && lengths == [1, 2, 1]
        && table.covered() == [1, 4, 7].as_slice()
}

/// The same of a new table of a problem with seven items.
fn is_left_anew(alloc: Global, problem: &Problem) -> bool
    requires { length problem.now.names ≡ 7 }
{
    let Ok(mut table) = LinkTable::new(alloc, problem) else {
        return false;
    };
    cover_three(&mut table, 1, 4, 7);
    is_left(&table)
}

/// What is asked of the small problem's table of nodes.
#[derive(Clone, Copy)]
enum Asked {
    Nodes,
    GoesBack,
    Walks,
    Left,
}

/// Whether a problem has seven items, and its table of nodes is in this as the small one's.
fn is_in(alloc: Global, problem: &Problem, asked: Asked) -> bool {
    if problem.items() != 7 {
        return false;
    }
    match asked {
        Asked::Nodes => is_new_table(alloc, problem),
        Asked::GoesBack => goes_back_anew(alloc, problem),
        Asked::Walks => walks_anew(alloc, problem),
        Asked::Left => is_left_anew(alloc, problem),
    }
}

/// The same of the small problem.
fn is_small_in(alloc: Global, asked: Asked) -> bool {
    let Ok(problem) = read_cover(alloc, SMALL.as_bytes()) else {
        return false;
    };
    is_in(alloc, &problem, asked)
}

#[test]
fn the_small_problem_has_its_table_of_nodes(rt: HostRuntime) {
    assert!(rt; is_small_in(rt.alloc(), Asked::Nodes));
}

#[test]
fn uncovering_gives_the_table_of_nodes_back(rt: HostRuntime) {
    assert!(rt; is_small_in(rt.alloc(), Asked::GoesBack));
}

#[test]
fn the_end_of_a_run_has_the_table_of_nodes_again(rt: HostRuntime) {
    assert!(rt; is_small_in(rt.alloc(), Asked::Walks));
}

#[test]
fn what_is_left_once_a_d_and_g_are_covered(rt: HostRuntime) {
    assert!(rt; is_small_in(rt.alloc(), Asked::Left));
}

/// More than any of these blocks has entries, and no more than an offset counts.
const MOST_ENTRIES: u32 = 1 << 28;

/// Writes a number into each entry, and reads each again: whether each is what was written.
fn is_used<A: Allocator>(block: &mut Block<A>, len: u32) -> bool
    requires { len ≤ length block.old }
{
    write_each(block, len);
    for index in 0..len {
        if block.read(index).top.index() != index % MOST_ENTRIES {
            return false;
        }
    }
    true
}

/// Writes its own number into each entry.
fn write_each<A: Allocator>(block: &mut Block<A>, len: u32)
    requires { len ≤ length block.old }
    ensures { length block.new ≡ length block.old }
{
    for index in 0..len {
        let entry = TableEntry {
            top: Offset::at(index % MOST_ENTRIES),
            ..TableEntry::blank()
        };
        block.write(index, entry);
    }
}

/// Whether a block takes its memory of the heap, holds what is written, and gives all back when it is dropped.
fn is_given_back(heap: &LocalHeap, len: u32) -> bool {
    let Ok(mut block) = Block::make(heap, len as usize, TableEntry::blank()) else {
        return false;
    };
    let taken = heap.used();
    let is_used = is_used(&mut block, len);
    let held = heap.used();
    drop(block);
    is_used && taken / 16 >= len as usize && held == taken && heap.used() == 0
}

/// Whether blocks of these lengths do, one after the other, in a heap of so many bytes.
fn are_given_back(alloc: Global, bytes: usize, lens: &[u32]) -> bool {
    let Ok(heap) = LocalHeap::new(alloc, bytes) else {
        return false;
    };
    for len in lens {
        if !is_given_back(&heap, *len) {
            return false;
        }
    }
    true
}

#[test]
fn a_block_goes_back_to_its_heap(rt: HostRuntime) {
    assert!(rt; are_given_back(rt.alloc(), 2_000_000, &[1, 31, 60_000]));
}

#[test]
fn a_block_of_a_million_entries_goes_back_to_its_heap(rt: HostRuntime) {
    assert!(rt; are_given_back(rt.alloc(), 20_000_000, &[1_100_000, 1_100_000]));
}
