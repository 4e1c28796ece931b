//! A state is read back as it was, and what follows it is left.

use crate::{put_choices, put_paths, put_state, read_paths, read_state, skip_paths, skip_state};
use cover_problem::Lists;
use packed_rows::Row;
use std::alloc::{AllocError, Global};
use std::process::Abort;
use x_steps::{Cursor, Label, State};

/// A state with this path.
fn state_of(
    alloc: Global,
    label: Label,
    path: &[u32],
    cursor: Cursor,
) -> Result<State, AllocError> {
    let path = Vec::from_slice(alloc, path)?;
    Ok(State {
        label,
        path,
        cursor,
    })
}

/// A row of the state and of 7 and 4294967295 is as long as it should be, the state is read back, and the two numbers are left.
fn assert_kept(
    rt: &impl Abort,
    alloc: Global,
    state: &State,
    size: usize,
) -> Result<(), AllocError> {
    let mut row = Row::new(alloc);
    put_state(&mut row, state)?;
    put_choices(&mut row, &[7, 4294967295])?;
    assert!(rt; row.size() == size);
    let mut reader = row.reader();
    let back = read_state(alloc, &mut reader)?;
    assert!(rt; back.same(state));
    assert!(rt; reader.number() == 7);
    let mut skipped = row.reader();
    skip_state(&mut skipped);
    assert!(rt; skipped.number() == 7);
    assert!(rt; skipped.number() == 4294967295);
    assert!(rt; skipped.next() == None);
    Ok(())
}

#[test]
fn states_are_read_back(rt: HostRuntime) -> Result<(), AllocError> {
    let alloc = rt.alloc();
    let begin = state_of(alloc, Label::X1, &[], Cursor::None)?;
    assert_kept(&rt, alloc, &begin, 4 + 6)?;
    let deep = state_of(
        alloc,
        Label::X5,
        &[3, 200, 20000, 4294967295],
        Cursor::At(4294967295),
    )?;
    assert_kept(&rt, alloc, &deep, 2 + 5 + 1 + 1 + 2 + 3 + 5 + 6)?;
    let past = state_of(alloc, Label::X5, &[0], Cursor::Past)?;
    assert_kept(&rt, alloc, &past, 5 + 6)?;
    let done = state_of(alloc, Label::Done, &[], Cursor::None)?;
    assert_kept(&rt, alloc, &done, 4 + 6)
}

/// Lists are read back behind another one; how many there are is told without memory, and what follows is left.
fn assert_read_back(rt: &impl Abort, alloc: Global, paths: &Lists) -> Result<(), AllocError> {
    let mut row = Row::new(alloc);
    put_paths(&mut row, paths)?;
    put_choices(&mut row, &[7])?;
    let mut back = Lists::new(alloc);
    back.push(&[9])?;
    let mut reader = row.reader();
    read_paths(alloc, &mut reader, &mut back)?;
    assert!(rt; reader.number() == 7);
    assert!(rt; back.len() == paths.len() + 1);
    for place in 0..paths.len() {
        assert!(rt; back.list(place + 1) == paths.list(place));
    }
    let mut skipped = row.reader();
    assert!(rt; skip_paths(&mut skipped) == paths.len() as u64);
    assert!(rt; skipped.number() == 7);
    Ok(())
}

#[test]
fn lists_are_read_back(rt: HostRuntime) -> Result<(), AllocError> {
    let alloc = rt.alloc();
    let mut paths = Lists::new(alloc);
    assert_read_back(&rt, alloc, &paths)?;
    paths.push(&[4, 5, 1])?;
    paths.push(&[])?;
    paths.push(&[4294967295, 200])?;
    assert_read_back(&rt, alloc, &paths)
}

/// Each of them after the one before it: a step of 63, one of 64, the same list, a last choice that falls, another first one, another
/// length, and steps at the last choice of all.
static NEIGHBOURS: [&[u32]; 11] = [
    &[5, 9],
    &[5, 72],
    &[5, 136],
    &[5, 136],
    &[5, 8],
    &[6, 8],
    &[6, 8, 8],
    &[],
    &[4294967294],
    &[4294967295],
    &[4294967295],
];

#[test]
fn neighbours_are_read_back(rt: HostRuntime) -> Result<(), AllocError> {
    let alloc = rt.alloc();
    let mut paths = Lists::new(alloc);
    for path in &NEIGHBOURS {
        paths.push(path)?;
    }
    assert_read_back(&rt, alloc, &paths)
}

/// The numbers of a row, the lists that they tell, and the number that is left.
struct Told(&'static [u32], &'static [&'static [u32]], Option<u64>);

static TOLD: [Told; 7] = [
    // Where fewer lists are there than the row tells, these are read and counted.
    Told(&[3, 4, 8, 9], &[&[8, 9]], None),
    // So is a list that lacks choices.
    Told(&[3, 6, 8, 9], &[&[8, 9]], None),
    Told(&[0, 7], &[], Some(7)),
    // A list without choices has no last one.
    Told(&[2, 3, 5, 7], &[&[], &[]], Some(7)),
    Told(&[3, 0, 1, 2, 9, 7], &[&[], &[], &[9]], Some(7)),
    // After the last choice of all comes the first. Any step is read, also one of 64.
    Told(&[2, 2, 4294967295, 3, 7], &[&[4294967295], &[0]], Some(7)),
    Told(
        &[3, 4, 5, 4294967290, 129, 4294967295],
        &[&[5, 4294967290], &[5, 58], &[5, 2147483705]],
        None,
    ),
];

/// The numbers tell these lists, and leave this number.
fn assert_told(rt: &impl Abort, alloc: Global, told: &Told) -> Result<(), AllocError> {
    let mut row = Row::new(alloc);
    put_choices(&mut row, told.0)?;
    let mut paths = Lists::new(alloc);
    let mut reader = row.reader();
    read_paths(alloc, &mut reader, &mut paths)?;
    assert!(rt; reader.next() == told.2);
    assert!(rt; paths.len() == told.1.len());
    for (place, path) in told.1.iter().enumerate() {
        assert!(rt; paths.list(place) == *path);
    }
    let mut skipped = row.reader();
    assert!(rt; skip_paths(&mut skipped) == told.1.len() as u64);
    assert!(rt; skipped.next() == told.2);
    Ok(())
}

#[test]
fn lists_are_read_of_any_numbers(rt: HostRuntime) -> Result<(), AllocError> {
    for told in &TOLD {
        assert_told(&rt, rt.alloc(), told)?;
    }
    Ok(())
}
