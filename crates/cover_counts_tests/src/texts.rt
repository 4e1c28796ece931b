//! Texts of problems, and of counts.
ghost use Rattle.std.specs.Prelude.{◌≡◌, IfSome};

use cover_bits::BitTable;
use cover_counts::{Counts, Natural, count_between};
use cover_problem::{PlainTable, Problem, Table, read_cover};
use std::alloc::{AllocError, Global};
use std::cmp::Ordering;
use x_branches::run_order;
use x_steps::{Cursor, Label, Machine, State};

/// The last digit of a number.
fn digit(number: u32) -> char {
    (48 + (number % 10) as u8) as char
}

/// A space and a cell's name.
fn push_cell(text: &mut String, cell: u32) -> Result<(), AllocError> {
    text.push_str(" c")?;
    text.push(digit(cell / 100))?;
    text.push(digit(cell / 10))?;
    text.push(digit(cell))
}

/// The cells, as items.
fn push_cells(text: &mut String, cells: u32) -> Result<(), AllocError> {
    text.push_str("items")?;
    for cell in 0..cells {
        push_cell(text, cell)?;
    }
    text.push_str("\n")
}

/// Two cells side by side, as an option.
fn push_option(text: &mut String, a: u32, b: u32) -> Result<(), AllocError> {
    text.push_str("option")?;
    push_cell(text, a)?;
    push_cell(text, b)?;
    text.push_str("\n")
}

/// How many cells a box has in a row, in a layer and in all.
#[derive(Clone, Copy)]
pub struct Extent {
    row: u32,
    layer: u32,
    all: u32,
}

/// The box of these lengths.
pub fn box_of(width: u32, height: u32, depth: u32) -> Extent {
    let layer = width.wrapping_mul(height);
    Extent {
        row: width,
        layer,
        all: layer.wrapping_mul(depth),
    }
}

/// The dominoes that begin at a cell.
fn push_dominoes(text: &mut String, extent: Extent, cell: u32) -> Result<(), AllocError> {
    let next = cell.wrapping_add(1);
    if next.checked_rem(extent.row) != Some(0) {
        push_option(text, cell, next)?;
    }
    let below = cell.wrapping_add(extent.row);
    if cell.checked_div(extent.layer) == below.checked_div(extent.layer) {
        push_option(text, cell, below)?;
    }
    let behind = cell.wrapping_add(extent.layer);
    if behind < extent.all {
        push_option(text, cell, behind)?;
    }
    Ok(())
}

/// The cover text of dominoes in a box.
pub fn dominoes(alloc: Global, extent: Extent) -> Result<String, AllocError> {
    let mut text = String::new(alloc);
    push_cells(&mut text, extent.all)?;
    for cell in 0..extent.all {
        push_dominoes(&mut text, extent, cell)?;
    }
    Ok(text)
}

/// A number's digits and a space.
fn push_number(alloc: Global, text: &mut Vec<u8>, number: &Natural) -> Result<(), AllocError> {
    let digits = number.to_decimal(alloc)?;
    text.extend_from_slice(&digits)?;
    text.extend_from_slice(b" ")
}

/// Visits, steps and levels.
pub fn text_of(alloc: Global, counts: &Counts) -> Result<Vec<u8>, AllocError> {
    let mut text = Vec::new(alloc);
    push_number(alloc, &mut text, &counts.visits)?;
    push_number(alloc, &mut text, &counts.steps)?;
    for level in &counts.levels {
        push_number(alloc, &mut text, level)?;
    }
    Ok(text)
}

/// A machine at a state, if the problem's search has it.
fn machine_at<'p, T: Table>(
    alloc: Global,
    problem: &'p Problem,
    state: &State,
) -> Option<Machine<'p, T>>
    ensures { IfSome result (λ m. m.problem ≡ problem.now) }
{
    let Ok(table) = T::new(alloc, problem) else {
        return None;
    };
    Machine::at(alloc, problem, table, state).ok()
}

/// The counts of a stretch between two states of a search, with a cache of at most `room` bytes.
pub fn counted_stretch<T: Table>(
    alloc: Global,
    problem: &Problem,
    from: &State,
    to: &State,
    room: usize,
) -> Option<Vec<u8>> {
    let (Some(first), Some(last)) = (
        machine_at::<T>(alloc, problem, from),
        machine_at::<T>(alloc, problem, to),
    ) else {
        return None;
    };
    match run_order(last.state(), first.state()) {
        Ordering::Less => None,
        _ => match count_between::<T>(alloc, problem, first.state(), last.state(), room) {
            Ok(counts) => text_of(alloc, &counts).ok(),
            Err(_) => None,
        },
    }
}

/// A state that has no choice before it.
fn empty_at(alloc: Global, label: Label) -> State {
    State {
        label,
        path: Vec::new(alloc),
        cursor: Cursor::None,
    }
}

/// The counts of a problem's run, with a cache of at most `room` bytes.
fn counted_by<T: Table>(alloc: Global, problem: &Problem, room: usize) -> Option<Vec<u8>> {
    let first = empty_at(alloc, Label::X1);
    let last = empty_at(alloc, Label::Done);
    counted_stretch::<T>(alloc, problem, &first, &last, room)
}

/// The same over bit sets.
pub fn counted(alloc: Global, problem: &Problem, room: usize) -> Option<Vec<u8>> {
    counted_by::<BitTable>(alloc, problem, room)
}

/// The same over a plain table.
pub fn counted_plainly(alloc: Global, problem: &Problem, room: usize) -> Option<Vec<u8>> {
    counted_by::<PlainTable>(alloc, problem, room)
}

/// The counts of a cover text.
pub fn counted_text(alloc: Global, text: &str, room: usize) -> Option<Vec<u8>> {
    match read_cover(alloc, text.as_bytes()) {
        Ok(problem) => counted(alloc, &problem, room),
        Err(_) => None,
    }
}

/// The text of what a walk passes, in the form of the text of counts: visits, steps, and the X2 states at each level up to the last that has
/// one.
pub fn passed_text(
    alloc: Global,
    visits: u64,
    steps: u64,
    levels: &[u64],
) -> Result<Vec<u8>, AllocError> {
    let mut counts = Counts {
        visits: Natural::of(alloc, visits),
        steps: Natural::of(alloc, steps),
        levels: Vec::new(alloc),
    };
    let len = levels
        .iter()
        .rposition(|level| *level != 0)
        .map_or(0, |last| last + 1);
    for level in &levels[..len] {
        counts.levels.push(Natural::of(alloc, *level))?;
    }
    text_of(alloc, &counts)
}
