//! Taking entries out of their lists and putting them back, and the covering of an item made of it.
//! (TAOCP volume 4B, section 7.2.2.1, (1), (2) and (12) to (15).)
ghost use Rattle.std.specs.Prelude.{◌≡◌, ◌<◌, ◌≤◌, ◌+◌, ◌-◌, ◌^◌, ◌==◌, if◌then◌else◌};
ghost use Rattle.cover_links.specs.Entries.{unlinked, relinked, item_unlinked, item_relinked, HasNext};
ghost use Rattle.cover_links.specs.Entries as entries;
ghost use Rattle.cover_links.specs.Hiding.{node_hidden, node_unhidden, hidden, unhidden, item_covered, item_uncovered};
ghost use Rattle.cover_links.specs.Safety.{IsInside, IsItemInside, CanHideNode, CanUnhideNode, CanHide, CanUnhide, CanCoverItem, CanUncoverItem};

use crate::block::{Block, BlockRow};
use crate::entry::{Offset, TableEntry};
use crate::raw::Base;

/// Lets an entry's neighbours in its vertical list name each other.
#[inline(always)]
fn unlink(row: &mut BlockRow, base: Base, index: Offset)
    requires place { base.ptr ≡ row.old.place.at }
    requires can { IsInside row.old.entries index }
    ensures place { row.new.place ≡ row.old.place }
    ensures entries { row.new.entries ≡ unlinked row.old.entries index }
{
    // The entry keeps its own links, by which it can be put back (formulas (1) and (2)).
    let TableEntry { up, down, .. } = row.read(base, index);
    let above = row.read(base, up);
    row.write(base, up, TableEntry { down, ..above });
    // Read after the entry above is written: in a list of one node both are the head.
    let below = row.read(base, down);
    row.write(base, down, TableEntry { up, ..below });
}

/// Lets them name the entry again.
#[inline(always)]
fn relink(row: &mut BlockRow, base: Base, index: Offset)
    requires place { base.ptr ≡ row.old.place.at }
    requires can { IsInside row.old.entries index }
    ensures place { row.new.place ≡ row.old.place }
    ensures entries { row.new.entries ≡ relinked row.old.entries index }
{
    let TableEntry { up, down, .. } = row.read(base, index);
    let above = row.read(base, up);
    row.write(
        base,
        up,
        TableEntry {
            down: index,
            ..above
        },
    );
    let below = row.read(base, down);
    row.write(base, down, TableEntry { up: index, ..below });
}

/// Lets an item's neighbours in the row of active items name each other.
#[inline(always)]
fn unlink_item(row: &mut BlockRow, base: Base, item: Offset)
    requires place { base.ptr ≡ row.old.place.at }
    requires can { IsItemInside row.old.entries item }
    ensures place { row.new.place ≡ row.old.place }
    ensures entries { row.new.entries ≡ item_unlinked row.old.entries item }
{
    let TableEntry { left, right, .. } = row.read(base, item);
    // The number of an item is the place of its head.
    let place = Offset::at(left as u32);
    let before = row.read(base, place);
    row.write(base, place, TableEntry { right, ..before });
    let place = Offset::at(right as u32);
    let after = row.read(base, place);
    row.write(base, place, TableEntry { left, ..after });
}

/// Lets them name the item again.
#[inline(always)]
fn relink_item(row: &mut BlockRow, base: Base, item: Offset)
    requires place { base.ptr ≡ row.old.place.at }
    requires inside { IsItemInside row.old.entries item }
    requires small { item < 2 ^ 16 }
    ensures place { row.new.place ≡ row.old.place }
    ensures entries { row.new.entries ≡ item_relinked row.old.entries item }
{
    let TableEntry { left, right, .. } = row.read(base, item);
    let number = item.index() as u16;
    let place = Offset::at(left as u32);
    let before = row.read(base, place);
    row.write(
        base,
        place,
        TableEntry {
            right: number,
            ..before
        },
    );
    let place = Offset::at(right as u32);
    let after = row.read(base, place);
    row.write(
        base,
        place,
        TableEntry {
            left: number,
            ..after
        },
    );
}

/// Takes a node out of its list, which is one shorter.
#[inline(always)]
fn hide_node(row: &mut BlockRow, base: Base, index: Offset)
    requires place { base.ptr ≡ row.old.place.at }
    requires can { CanHideNode row.old.entries index }
    ensures place { row.new.place ≡ row.old.place }
    ensures entries { row.new.entries ≡ node_hidden row.old.entries index }
{
    let item = row.read(base, index).top;
    unlink(row, base, index);
    // Read after `unlink`, which may have written to the head as a neighbour.
    let head = row.read(base, item);
    row.write(
        base,
        item,
        TableEntry {
            top: head.top.minus(1),
            ..head
        },
    );
}

/// Puts a node back into its list.
#[inline(always)]
fn unhide_node(row: &mut BlockRow, base: Base, index: Offset)
    requires place { base.ptr ≡ row.old.place.at }
    requires can { CanUnhideNode row.old.entries index }
    ensures place { row.new.place ≡ row.old.place }
    ensures entries { row.new.entries ≡ node_unhidden row.old.entries index }
{
    let item = row.read(base, index).top;
    // The count goes up before the links come back, in the reverse order of `hide_node`.
    let head = row.read(base, item);
    row.write(
        base,
        item,
        TableEntry {
            top: head.top.plus(1),
            ..head
        },
    );
    relink(row, base, index);
}

/// The next node of a node's option, by which no spacer is read. (Formula (13) steps onto the spacer, and goes back by its link.)
#[inline(always)]
fn next_of(node: TableEntry) -> Offset
    requires { HasNext node }
    ensures { result ≡ entries.next_of node }
{
    Offset::of_halves(node.left, node.right)
}

/// Hides the other nodes of a node's option, from the one after it on, round the option.
#[inline(always)]
fn hide(row: &mut BlockRow, base: Base, index: Offset)
    requires place { base.ptr ≡ row.old.place.at }
    requires can { CanHide row.old.entries index }
    ensures place { row.new.place ≡ row.old.place }
    ensures entries { row.new.entries ≡ hidden row.old.entries index }
{
    // The node itself stays in its list: the item of that list is being covered, and the list is walked.
    let mut node = next_of(row.read(base, index));
    while !node.is(index) {
        hide_node(row, base, node);
        node = next_of(row.read(base, node));
    }
}

/// Puts them back, in the same order. (Formula (15) takes the reverse one, but each node stands in a list of its own, so that any
/// order does.)
#[inline(always)]
fn unhide(row: &mut BlockRow, base: Base, index: Offset)
    requires place { base.ptr ≡ row.old.place.at }
    requires can { CanUnhide row.old.entries index }
    ensures place { row.new.place ≡ row.old.place }
    ensures entries { row.new.entries ≡ unhidden row.old.entries index }
{
    let mut node = next_of(row.read(base, index));
    while !node.is(index) {
        unhide_node(row, base, node);
        node = next_of(row.read(base, node));
    }
}

/// Hides the options of an item's list, and takes it out of the row of active items.
fn cover_in(row: &mut BlockRow, base: Base, item: Offset)
    requires place { base.ptr ≡ row.old.place.at }
    requires can { CanCoverItem row.old.entries item }
    ensures place { row.new.place ≡ row.old.place }
    ensures entries { row.new.entries ≡ item_covered row.old.entries item }
{
    // Hiding doesn't touch the item's own list, which has as many nodes as its head tells. A walk that looks for the head would learn
    // its end only when each link has been read: the processor guesses ends, and is to find a wrong guess early.
    let head = row.read(base, item);
    let mut node = head.down;
    for _ in 0..head.top.index() {
        hide(row, base, node);
        node = row.read(base, node).down;
    }
    unlink_item(row, base, item);
}

/// Undoes that for the item that was covered last.
fn uncover_in(row: &mut BlockRow, base: Base, item: Offset)
    requires place { base.ptr ≡ row.old.place.at }
    requires can { CanUncoverItem row.old.entries item }
    ensures place { row.new.place ≡ row.old.place }
    ensures entries { row.new.entries ≡ item_uncovered row.old.entries item }
{
    // The last step of `cover_in` is undone first.
    relink_item(row, base, item);
    // From the last node up: links work only when they come back in the reverse order (formulas (14) and (15)).
    let head = row.read(base, item);
    let mut node = head.up;
    for _ in 0..head.top.index() {
        unhide(row, base, node);
        node = row.read(base, node).up;
    }
}

/// Covers an item: hides the options of its list, and takes it out of the row of active items.
pub(crate) fn cover_item(block: &mut Block, item: u32)
    requires { CanCoverItem block.old item }
    ensures { block.new ≡ item_covered block.old item }
{
    let Block { base, row, .. } = block;
    cover_in(row, *base, Offset::at(item));
}

/// Uncovers the item that was covered last.
pub(crate) fn uncover_item(block: &mut Block, item: u32)
    requires { CanUncoverItem block.old item }
    ensures { block.new ≡ item_uncovered block.old item }
{
    let Block { base, row, .. } = block;
    uncover_in(row, *base, Offset::at(item));
}

/// Puts a node of a block into its list.
pub(crate) fn append_to_list(block: &mut Block, index: Offset)
    requires { CanUnhideNode block.old index }
    ensures { block.new ≡ node_unhidden block.old index }
{
    let Block { base, row, .. } = block;
    unhide_node(row, *base, index);
}
