//! The block of a problem with nothing covered.
ghost use Rattle.std.specs.Prelude.{◌≡◌, ◌<◌, ◌≤◌, ◌+◌, ◌-◌, ◌^◌, suc, length, IfOk};
ghost use Rattle.shared_words.specs.Answers.{Returns};
ghost use Rattle.cover_links.specs.Fresh as list;
ghost use Rattle.cover_links.specs.Fresh.{node_appended, option_appended, heads_written};
ghost use Rattle.cover_links.specs.Layout as layout;
ghost use Rattle.cover_links.specs.Layout.{AreStarts};
ghost use Rattle.cover_links.specs.Safety.{CanAppendNode, CanAppendOption};

use crate::block::Block;
use crate::entry::{Offset, TableEntry};
use crate::hiding::append_to_list;
use cover_problem::Problem;
use std::alloc::{AllocError, Global};

/// For each option where its first node stands, and at the end where the block ends.
pub(crate) fn starts(alloc: Global, problem: &Problem) -> Result<Vec<u32>, AllocError>
    ensures count { IfOk result (λ s. length s.items ≡ suc (length problem.now.options)) }
    ensures each { IfOk result (λ s. AreStarts problem.now s.items) }
{
    let options = problem.options();
    let mut starts = Vec::with_capacity(alloc, options as usize + 1)?;
    // The header stands at 0, the heads up to `items`, and then the first spacer.
    let mut next = problem.items() + 2;
    starts.push_reserved(next);
    for k in 0..options {
        // One more, for the spacer past the option.
        next += problem.option(k + 1).len() as u32 + 1;
        starts.push_reserved(next);
    }
    Ok(starts)
}

/// The head of an item whose list is empty.
fn empty_head(item: u16, primary: u16) -> TableEntry
    requires { 0 < item }
    ensures { result ≡ list.empty_head primary item }
{
    // A secondary item is its own neighbour: it stands in no row, and taking it out of one changes nothing.
    let is_primary = item <= primary;
    let after = if item < primary { item + 1 } else { 0 };
    let head = Offset::at(item as u32);
    TableEntry {
        top: Offset::at(0),
        up: head,
        down: head,
        left: if is_primary { item - 1 } else { item },
        right: if is_primary { after } else { item },
    }
}

/// Writes the header, and the heads with empty lists.
fn write_heads(block: &mut Block, items: u32, primary: u32)
    requires within { items < length block.old }
    requires small { items < 2 ^ 16 }
    requires row { primary ≤ items }
    ensures { block.new ≡ heads_written block.old primary items }
{
    block.write(
        0,
        TableEntry {
            // The row of active items is a ring through the header, before which the last item to cover stands.
            left: primary as u16,
            right: 1,
            ..TableEntry::blank()
        },
    );
    for item in 1..items + 1 {
        block.write(item, empty_head(item as u16, primary as u16));
    }
}

/// The place after one in an option, whose nodes stand from `start` up to `end`: after the last comes the first.
fn place_after(index: u32, start: u32, end: u32) -> u32
    requires { index < end }
    ensures { result ≡ layout.place_after start end index }
{
    if index + 1 == end { start } else { index + 1 }
}

/// Appends a node to the list of its item; the next one of its option stands at `next`.
fn append_node(block: &mut Block, index: u32, item: u32, next: u32)
    requires { CanAppendNode block.old index item next }
    ensures { block.new ≡ node_appended block.old index item next }
{
    let head = Offset::at(item);
    let up = block.read(item).up;
    // A node is appended as one that is put back: it names the last of the list and the head, which then name it and count it.
    block.write(
        index,
        TableEntry {
            top: head,
            up,
            down: head,
            // An entry takes 16 bytes.
            left: (next * 16 % 65536) as u16,
            right: (next * 16 / 65536) as u16,
        },
    );
    append_to_list(block, Offset::at(index));
}

/// Appends the nodes of an option and the spacer past them, to which the spacer before them leads.
fn append_option(block: &mut Block, start: u32, option: &[u32], number: u32)
    requires can { CanAppendOption block.old start option.now }
    requires small { number < 2 ^ 28 }
    ensures { block.new ≡ option_appended block.old start option.now number }
{
    let end = start + option.len() as u32;
    let mut index = start;
    for item in option {
        append_node(block, index, *item, place_after(index, start, end));
        index += 1;
    }
    // The other fields of this spacer belong to the option before it, and stay.
    let before = block.read(start - 1);
    block.write(
        start - 1,
        TableEntry {
            down: Offset::at(end - 1),
            ..before
        },
    );
    block.write(
        end,
        TableEntry {
            // The literature negates the number, by which it tells a spacer from a node. Here a spacer leads to no next node.
            top: Offset::at(number),
            up: Offset::at(start),
            ..TableEntry::blank()
        },
    );
}

/// The block of a problem with nothing covered, whose options start there.
pub(crate) fn fresh(alloc: Global, problem: &Problem, starts: &[u32]) -> Result<Block, AllocError>
    requires count { length starts.now ≡ suc (length problem.now.options) }
    requires each { AreStarts problem.now starts.now }
    ensures { Returns result (list.fresh problem.now) }
{
    let items = problem.items();
    let options = problem.options();
    // The block is made at its full size: a block that grows would be copied.
    let mut block = Block::make(
        alloc,
        starts[options as usize] as usize,
        TableEntry::blank(),
    )?;
    write_heads(&mut block, items, problem.primary());
    for k in 0..options {
        append_option(&mut block, starts[k as usize], problem.option(k + 1), k + 1);
    }
    Ok(block)
}
