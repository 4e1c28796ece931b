//! The table whose lists are linked nodes.
ghost use Rattle.std.specs.Prelude.{◌≡◌, ◌<◌, ◌≤◌, ◌+◌, ◌*◌, ◌⊎◌, ◌==◌, nat_lt, ◌&&◌, cond, List, true, ℕ, [], ◌∷◌, length, IfOk, OnOk};
ghost use Rattle.shared_words.specs.Lists.{has};
ghost use Rattle.cover_problem.specs.Problem as problem;
ghost use Rattle.cover_problem.specs.Problem.{IsProblem, size_of};
ghost use Rattle.cover_problem.specs.Table.{IsCoveredList};
ghost use Rattle.cover_problem.specs.Covering.{list_of};
ghost use Rattle.cover_links.specs.Entries.{entry_at};
ghost use Rattle.cover_links.specs.Ownership.{entry_size};
ghost use Rattle.cover_links.specs.Layout.{node_index};
ghost use Rattle.cover_links.specs.StandsFor.{block_of};
ghost use Rattle.cover_links.specs.Table as table;

use crate::block::Block;
use crate::build::{fresh, starts};
use crate::entry::{Node, Offset, TableEntry};
use crate::hiding::{cover_item, uncover_item};
use cover_problem::{Problem, Table};
use std::alloc::{AllocError, Global};
use std::marker::Model;
use std::mem::size_of;
use std::snapshot::Snapshot;

/// A table of linked nodes in one raw block: covering an item costs the nodes of the options that it hides, and uncovering it
/// undoes that link by link. (TAOCP volume 4B, section 7.2.2.1.)
#[derive(Drop)]
pub struct LinkTable {
    /// The problem, which contracts alone see.
    problem: Snapshot<Problem>,
    items: u32,
    block: Block,
    /// For each option where its first node stands, and at the end where the block ends.
    starts: Vec<u32>,
    /// The covered items, with room for all.
    covered: Vec<u32>,
}

impl Model for LinkTable {
    ghost use Rattle.std.specs.Prelude.{vec_capacity};
    ghost use Rattle.cover_problem.specs.Table.{TableValue};
    ghost use Rattle.cover_links.specs.Table.{IsTable};

    ghost Value = { TableValue };

    ghost view = { λ a. record { problem = a.problem.value; covered = a.covered.items } };

    ghost invariant = { λ a. IsTable a.problem.value a.covered.items a.items a.block a.starts.items (vec_capacity a.covered) };
}

/// What a link of the row of active items leads to: nothing where it leads back to the header.
#[inline(always)]
fn nonzero(item: u32) -> Option<u32>
    ensures { result ≡ table.nonzero item }
{
    if item == 0 { None } else { Some(item) }
}

/// Whether an entry past the heads is a spacer: it leads to no next node.
#[inline(always)]
fn is_spacer(entry: TableEntry) -> bool
    ensures { result ≡ table.is_spacer entry }
{
    entry.left as u32 + entry.right as u32 * 65536 == 0
}

/// The number of the option of an item's node, or none at the item's head.
#[inline(always)]
fn option_at(block: &Block, item: Offset, node: Offset) -> Option<u32>
    requires { (k : ℕ) × table.IsHeadOrNode block.now item node k }
    ensures { (k : ℕ) → table.IsHeadOrNode block.now item node k → result ≡ table.nonzero k }
{
    // A head stands at its item's number, so the walk has come back to it.
    if node.is(item) {
        return None;
    }
    // Past the option stands its spacer, which has the number: a node has no room for it. An option has few nodes.
    let mut past = node.bytes() + size_of::<TableEntry>();
    while !is_spacer(block.read_at(past)) {
        past += size_of::<TableEntry>();
    }
    Some(block.read_at(past).top.index())
}

impl LinkTable {
    /// The entry of the block numbered x.
    pub fn node(&self, x: u32) -> Node
        requires some { 0 < x }
        requires within { x < size_of self.now.problem }
        ensures { result ≡ table.printed_node (length self.now.problem.names) x
            (entry_at (block_of self.now.problem self.now.covered) x) }
    {
        let entry = self.block.read(x);
        // Past the heads only a spacer has nothing after it in its option.
        let is_spacer = x > self.items && is_spacer(entry);
        let top = entry.top.index() as i64;
        Node {
            top_or_len: if is_spacer { 0 - top } else { top },
            up: entry.up.index(),
            down: entry.down.index(),
        }
    }

    /// How many entries the block has, with the header: `node` shows those from 1 on.
    pub fn entries(&self) -> u32
        ensures { result ≡ size_of self.now.problem }
    {
        self.starts[self.starts.len() - 1]
    }

    /// How many bytes stand before an item's node in an option that has it.
    #[inline(always)]
    fn node_of(&self, item: u32, option: u32) -> usize
        requires some { 0 < option }
        requires within { option ≤ length self.now.problem.options }
        requires has_item { has (problem.option_at self.now.problem option) item ≡ true }
        ensures { result ≡ node_index self.now.problem item option * entry_size }
    {
        // The search keeps the numbers of options, where the literature keeps nodes: so an option of few items is gone through. To its
        // end, since which of its nodes is the item's can't be foretold: no jump hangs on it.
        let mut past = self.starts[(option - 1) as usize] as usize * size_of::<TableEntry>();
        let mut here = past;
        let head = Offset::at(item);
        while !is_spacer(self.block.read_at(past)) {
            if self.block.read_at(past).top.is(head) {
                here = past;
            }
            past += size_of::<TableEntry>();
        }
        here
    }

    /// How many bytes stand before the head that comes next in the row of active items: 0 before the header.
    #[inline(always)]
    fn head_after(&self, head: usize) -> usize
        requires { (i : ℕ) × (head ≡ i * entry_size) × (i < size_of self.now.problem) }
        ensures { (i : ℕ) → head ≡ i * entry_size →
            result ≡ (entry_at (block_of self.now.problem self.now.covered) i).right * entry_size }
    {
        self.block.read_at(head).right as usize * size_of::<TableEntry>()
    }
}

impl Table for LinkTable {
    ghost problem_value = { λ t. t.problem };

    ghost covered_list = { λ t. t.covered };

    fn new(alloc: Global, problem: &Problem) -> Result<Self, AllocError> {
        let items = problem.items();
        let starts = starts(alloc, problem)?;
        let block = fresh(alloc, problem, &starts)?;
        let covered = Vec::with_capacity(alloc, items as usize)?;
        Ok(LinkTable {
            problem: Snapshot::of(problem),
            items,
            block,
            starts,
            covered,
        })
    }

    fn covered(&self) -> &[u32] {
        &self.covered
    }

    fn first_item(&self) -> Option<u32> {
        // The header is entry 0.
        nonzero(self.block.read(0).right as u32)
    }

    fn next_item(&self, item: u32) -> Option<u32> {
        nonzero(self.block.read(item).right as u32)
    }

    fn len(&self, item: u32) -> u32 {
        self.block.read(item).top.index()
    }

    #[inline(always)]
    fn choose(&self) -> u32 {
        // The walk of every table, from head to head by the bytes before each: a search takes much of its time here. Which list is
        // shorter can't be foretold, so only two values hang on it, and a compiler makes no jump of it. The header's length is 0: one
        // test ends the walk there, and at an item with no option left, which is the one to be chosen.
        let none = Offset::at(0);
        let mut here = self.head_after(0);
        let mut len = self.block.read_at(here).top;
        let mut best = here;
        let mut least = len;
        while !len.is(none) {
            if len.is_below(least) {
                best = here;
                least = len;
            }
            here = self.head_after(here);
            len = self.block.read_at(here).top;
        }
        let head = if here == 0 { best } else { here };
        (head / size_of::<TableEntry>()) as u32
    }

    fn first_option(&self, item: u32) -> Option<u32> {
        let node = self.block.read(item).down;
        option_at(&self.block, Offset::at(item), node)
    }

    fn last_option(&self, item: u32) -> Option<u32> {
        let node = self.block.read(item).up;
        option_at(&self.block, Offset::at(item), node)
    }

    #[inline(always)]
    fn next_option(&self, item: u32, option: u32) -> Option<u32> {
        let here = self.node_of(item, option);
        let node = self.block.read_at(here).down;
        option_at(&self.block, Offset::at(item), node)
    }

    fn prev_option(&self, item: u32, option: u32) -> Option<u32> {
        let here = self.node_of(item, option);
        let node = self.block.read_at(here).up;
        option_at(&self.block, Offset::at(item), node)
    }

    fn cover(&mut self, item: u32) {
        cover_item(&mut self.block, item);
        self.covered.push_reserved(item);
    }

    fn uncover(&mut self, item: u32) {
        uncover_item(&mut self.block, item);
        self.covered.pop();
    }
}
