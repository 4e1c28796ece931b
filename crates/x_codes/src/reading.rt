//! States made of their numbers.
ghost use Rattle.std.specs.Prelude.{◌≡◌, ◌++◌, ◌<◌, ◌^◌, length, take, drop, map, IfOk, OnOk};
ghost use Rattle.packed_rows.specs.Neighbours.{raised};
ghost use Rattle.x_steps.specs.StateView.{state_value};
ghost use Rattle.x_codes.specs.StateCode.{choice_of, label_of, cursor_of};
ghost use Rattle.x_codes.specs.StateCode.{next_path, next_rest};
ghost use Rattle.x_codes.specs.StateCode.{after_of, after_rest, path_of, path_rest, paths_of, paths_rest, state_of, state_rest};

use cover_problem::Lists;
use packed_rows::Reader;
use std::alloc::{AllocError, Global};
use x_steps::{Cursor, Label, State};

/// A choice, of its number.
pub fn choice(n: u64) -> u32
    ensures { result ≡ choice_of n }
// Each number gives a choice, so that reading can't fail. Those that were put as choices are below 2^32.
{
    (n % 4_294_967_296) as u32
}

/// The step of a number.
fn label(n: u64) -> Label
    ensures { result ≡ label_of n }
{
    match n {
        1 => Label::X1,
        2 => Label::X2,
        3 => Label::X3,
        4 => Label::X4,
        5 => Label::X5,
        6 => Label::X6,
        7 => Label::X7,
        8 => Label::X8,
        // The rest is 9: no other number was put.
        _ => Label::Done,
    }
}

/// A cursor of this kind.
fn cursor(kind: u64, n: u64) -> Cursor
    ensures { result ≡ cursor_of kind n }
{
    match kind {
        0 => Cursor::None,
        1 => Cursor::At(choice(n)),
        // As for a step: the rest is 2, since no other kind was put.
        _ => Cursor::Past,
    }
}

/// Reads so many choices, or as many as there are.
fn read_choices(reader: &mut Reader<'_>, path: &mut Vec<u32>, count: u64) -> Result<(), AllocError>
    ensures choices { OnOk result
        (path.new.items ≡ path.old.items ++ map choice_of (take count reader.old)) }
    ensures rest { OnOk result (reader.new ≡ drop count reader.old) }
{
    // A count is a number of the row like others, and no promise: where the numbers end, so does the loop.
    let mut left = count;
    'reading: while left > 0 {
        let Some(n) = reader.next() else {
            return Ok(());
        };
        path.push(choice(n))?;
        left -= 1;
    }
    Ok(())
}

/// Reads a list of choices.
pub fn read_path(alloc: Global, reader: &mut Reader<'_>) -> Result<Vec<u32>, AllocError>
    ensures path { IfOk result (λ path. path.items ≡ path_of reader.old) }
    ensures rest { OnOk result (reader.new ≡ path_rest reader.old) }
{
    // No room is asked for by it: a row that was not put as a list may tell any number.
    let count = reader.number();
    let mut path = Vec::new(alloc);
    read_choices(reader, &mut path, count)?;
    Ok(path)
}

/// Raises the last of some choices.
#[inline(always)]
fn raise(path: &mut Vec<u32>, step: u64)
    requires { step < 2 ^ 63 }
    ensures { path.new.items ≡ map choice_of (raised step path.old.items) }
{
    let count = path.len();
    // No list without choices was put with a step to the next one: where one is read so, it stays as it is.
    if count == 0 {
        return;
    }
    let last = path[count - 1];
    path[count - 1] = choice(last as u64 + step);
}

/// Reads the list that a number tells after the one before it, in the place of that one. Where memory runs out, a part of it is there.
#[inline(always)]
fn read_next(reader: &mut Reader<'_>, path: &mut Vec<u32>, n: u64) -> Result<(), AllocError>
    ensures list { OnOk result (path.new.items ≡ next_path path.old.items n reader.old) }
    ensures rest { OnOk result (reader.new ≡ next_rest n reader.old) }
{
    if n % 2 == 1 {
        raise(path, n / 2);
        return Ok(());
    }
    path.clear();
    read_choices(reader, path, n / 2)?;
    Ok(())
}

/// Reads lists of choices, and adds them to lists. Where memory runs out, some may be there.
pub fn read_paths(
    alloc: Global,
    reader: &mut Reader<'_>,
    paths: &mut Lists,
) -> Result<(), AllocError>
    ensures paths { OnOk result (paths.new ≡ paths.old ++ paths_of reader.old) }
    ensures rest { OnOk result (reader.new ≡ paths_rest reader.old) }
{
    // Where numbers are missing, the list in which they end is shorter, and none comes after it.
    let mut left = reader.number();
    let mut path = Vec::new(alloc);
    'reading: while left > 0 {
        let Some(n) = reader.next() else {
            return Ok(());
        };
        // Lists take whole ones alone, so each is read aside first, in the room of the one before, which most have but for a number.
        read_next(reader, &mut path, n)?;
        paths.push(&path)?;
        left -= 1;
    }
    Ok(())
}

/// Reads a state.
pub fn read_state(alloc: Global, reader: &mut Reader<'_>) -> Result<State, AllocError>
    ensures state { IfOk result (λ state. state_value state ≡ state_of reader.old) }
    ensures rest { OnOk result (reader.new ≡ state_rest reader.old) }
{
    let label = label(reader.number());
    let kind = reader.number();
    let option = reader.number();
    // It stands there for each kind, so its place is told before the kind is.
    let cursor = cursor(kind, option);
    let path = read_path(alloc, reader)?;
    Ok(State {
        label,
        path,
        cursor,
    })
}

/// Reads a state after a path.
pub fn read_after(
    alloc: Global,
    reader: &mut Reader<'_>,
    before: &[u32],
) -> Result<State, AllocError>
    ensures state { IfOk result (λ state. state_value state ≡ after_of before.now reader.old) }
    ensures rest { OnOk result (reader.new ≡ after_rest reader.old) }
{
    let same = reader.number() as usize;
    let below = read_state(alloc, reader)?;
    // A row that was not put so may tell any number.
    let (front, _) = before.split_at(same.min(before.len()));
    let mut path = Vec::from_slice(alloc, front)?;
    path.extend_from_slice(&below.path)?;
    Ok(State {
        label: below.label,
        path,
        cursor: below.cursor,
    })
}

/// Reads over so many numbers, or over as many as there are.
fn skip(reader: &mut Reader<'_>, count: u64)
    ensures { reader.new ≡ drop count reader.old }
{
    let mut left = count;
    'skipping: while left > 0 {
        if reader.next().is_none() {
            return;
        }
        left -= 1;
    }
}

/// Reads over a list of choices, without memory.
pub fn skip_path(reader: &mut Reader<'_>)
    ensures { reader.new ≡ path_rest reader.old }
{
    let count = reader.number();
    skip(reader, count);
}

/// Reads over a state, without memory.
pub fn skip_state(reader: &mut Reader<'_>)
    ensures { reader.new ≡ state_rest reader.old }
{
    // These three stand there for each state, whatever its step.
    let _label = reader.number();
    let _kind = reader.number();
    let _option = reader.number();
    skip_path(reader);
}

/// Reads over a state after a path, without memory.
pub fn skip_after(reader: &mut Reader<'_>)
    ensures { reader.new ≡ after_rest reader.old }
{
    let _same = reader.number();
    skip_state(reader);
}

/// Reads over what is left of a list after the number that tells it, without memory.
fn skip_next(reader: &mut Reader<'_>, n: u64)
    ensures { reader.new ≡ next_rest n reader.old }
{
    // An odd number stands alone.
    if n % 2 == 0 {
        skip(reader, n / 2);
    }
}

/// Reads over lists of choices, without memory; how many there are.
pub fn skip_paths(reader: &mut Reader<'_>) -> u64
    ensures count { result ≡ length (paths_of reader.old) }
    ensures rest { reader.new ≡ paths_rest reader.old }
{
    let told = reader.number();
    let mut left = told;
    'skipping: while left > 0 {
        let Some(n) = reader.next() else {
            // As many lists as began. Of a row that was put as lists, none is missing.
            return told - left;
        };
        skip_next(reader, n);
        left -= 1;
    }
    told
}
