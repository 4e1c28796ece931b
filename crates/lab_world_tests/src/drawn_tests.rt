//! Lists of events drawn by a seed, on drawn problems: the tiles part the run after each list, and once all
//! are closed what was posted is the run of one machine.

use crate::fixtures::{Do, add, add_path, has_visits, play};
use cover_problem::{PlainTable, Problem, Table, read_cover};
use drawn_problems::{draw, drawn_narrow_options, text_of};
use lab_book::{Book, Status, Tile};
use lab_world::{World, WorldEvent};
use std::alloc::Global;
use x_branches::{Cut, KeptStretch};
use x_steps::{Cursor, Label, Machine, State};

/// A world over a plain table.
type Plain<'p> = World<'p, PlainTable>;

/// The text of a problem of five items, of which so many are primary, with four to fifteen options of few of
/// them.
fn drawn_text(alloc: Global, primary: u32, seed: &mut u64) -> Option<String> {
    let Ok(options) = drawn_narrow_options(alloc, 4, 12, seed) else {
        return None;
    };
    match text_of(alloc, 5, primary, &options) {
        Ok(text) => Some(text),
        Err(_) => None,
    }
}

/// What a worker does next; the most of it is steps.
fn drawn_act(seed: &mut u64) -> Do {
    let id = draw(seed) as u64 % 4;
    match draw(seed) % 40 {
        0 => Do::Lease(id),
        1 => Do::TakeHeld(id),
        2 => Do::RequestStop(id),
        3 => Do::PutBack(id, Label::X1),
        4 => Do::Retract,
        5 => Do::Park,
        6 => Do::Abandon,
        7 => Do::Close,
        8 | 9 => Do::Back,
        10 | 11 | 12 | 13 => Do::Post,
        14 | 15 | 16 => Do::LeaseAny,
        _ => Do::Step,
    }
}

/// Splits at each option of a level, the last one first.
fn add_splits(alloc: Global, events: &mut Vec<WorldEvent>, worker: u8, level: usize) -> bool {
    for before in 0..15 {
        if !add(alloc, events, worker, Do::Split(level, 15 - before), 1) {
            return false;
        }
    }
    true
}

/// Adds what one of three workers does next, and some times splits.
fn add_drawn(alloc: Global, events: &mut Vec<WorldEvent>, seed: &mut u64) -> bool {
    let worker = (draw(seed) % 3) as u8;
    let is_added = add(alloc, events, worker, drawn_act(seed), 1);
    if draw(seed) % 16 != 0 {
        return is_added;
    }
    add_splits(alloc, events, worker, draw(seed) as usize % 3) && is_added
}

/// Adds events of three workers.
fn add_all_drawn(alloc: Global, events: &mut Vec<WorldEvent>, seed: &mut u64) -> bool {
    for _ in 0..60 {
        if !add_drawn(alloc, events, seed) {
            return false;
        }
    }
    true
}

/// Steps of a worker to its branch's end, its post, and the end of its lease.
fn add_end(alloc: Global, events: &mut Vec<WorldEvent>, worker: u8) -> bool {
    add(alloc, events, worker, Do::Step, 2000)
        && add(alloc, events, worker, Do::Post, 1)
        && add(alloc, events, worker, Do::Close, 1)
}

/// One worker leases a tile, that waits or is held, and ends it.
fn add_tile(alloc: Global, events: &mut Vec<WorldEvent>, id: u64) -> bool {
    add(alloc, events, 0, Do::Lease(id), 1)
        && add(alloc, events, 0, Do::TakeHeld(id), 1)
        && add_end(alloc, events, 0)
}

/// Adds that three workers end what they have, and that then one ends each tile.
fn add_ending(alloc: Global, events: &mut Vec<WorldEvent>, tiles: u64) -> bool {
    if !add_end(alloc, events, 0) || !add_end(alloc, events, 1) || !add_end(alloc, events, 2) {
        return false;
    }
    for id in 0..tiles {
        if !add_tile(alloc, events, id) {
            return false;
        }
    }
    true
}

/// The choices of a cut; none where there is no cut.
fn path_of<'a>(cut: &'a Option<Cut<'_>>) -> &'a [u32] {
    match cut {
        Some(cut) => cut.path(),
        None => &[],
    }
}

/// Whether a state is that of a cut; where there is none, whether it is at a step without choices.
fn is_at(state: &State, path: &[u32], label: Label) -> bool {
    match path.split_last() {
        Some((option, front)) => {
            state.label == Label::X5
                && state.cursor == Cursor::At(*option)
                && state.path.as_slice() == front
        }
        None => state.label == label && state.path.is_empty(),
    }
}

/// Whether a stretch begins at a state.
fn is_from(alloc: Global, stretch: &KeptStretch<'_, '_>, state: &State) -> bool {
    match stretch.from(alloc) {
        Ok(from) => from.same(state),
        Err(_) => false,
    }
}

/// Where a stretch ends, if it begins at a state.
fn end_from(alloc: Global, stretch: &KeptStretch<'_, '_>, state: &State) -> Option<State> {
    if !is_from(alloc, stretch, state) {
        return None;
    }
    match stretch.to(alloc) {
        Ok(to) => Some(to),
        Err(_) => None,
    }
}

/// Whether a tile's stretches join, from its first mark to its mark.
fn are_joined(alloc: Global, tile: &Tile<'_>) -> bool {
    let Ok(mut end) = tile.first_mark().copy() else {
        return false;
    };
    for place in 0..tile.stretches().len() {
        match end_from(alloc, &tile.stretches().stretch(place), &end) {
            Some(to) => end = to,
            None => return false,
        }
    }
    tile.mark().same(&end)
}

/// Whether a tile, the first one or another, begins at these choices, and is posted up to its end if it is closed.
fn is_tile(alloc: Global, tile: &Tile<'_>, cut: &[u32], is_first: bool) -> bool {
    let begins = path_of(tile.lo()) == cut && cut.is_empty() == is_first;
    if tile.status() == Status::Closed && !is_at(tile.mark(), path_of(tile.hi()), Label::Done) {
        return false;
    }
    begins && is_at(tile.first_mark(), cut, Label::X1) && are_joined(alloc, tile)
}

/// Whether tiles part the whole run: each begins at the cut where the one before it ends.
fn are_tiles(alloc: Global, tiles: &[Tile<'_>]) -> bool {
    let mut cut: &[u32] = &[];
    for (place, tile) in tiles.iter().enumerate() {
        if !is_tile(alloc, tile, cut, place == 0) {
            return false;
        }
        cut = path_of(tile.hi());
    }
    cut.is_empty()
}

/// The run by single steps: how many; its visits are added, with a 0 after each.
fn run_of(machine: &mut Machine<'_, PlainTable>, visits: &mut Vec<u32>) -> Option<u32> {
    for count in 0..100_000 {
        if machine.is_visit() && !add_path(visits, &machine.state().path) {
            return None;
        }
        if machine.step().is_err() {
            return Some(count);
        }
    }
    None
}

/// The same of a new machine.
fn machine_run(alloc: Global, problem: &Problem, visits: &mut Vec<u32>) -> Option<u32> {
    let Ok(table) = PlainTable::new(alloc, problem) else {
        return None;
    };
    match Machine::new(alloc, problem, table) {
        Ok(mut machine) => run_of(&mut machine, visits),
        Err(_) => None,
    }
}

/// Whether what was posted is the run of one machine.
fn is_run(alloc: Global, book: &Book<'_>) -> bool {
    let mut visits = Vec::new(alloc);
    let Some(steps) = machine_run(alloc, book.problem(), &mut visits) else {
        return false;
    };
    book.finished() && book.steps() == steps as u128 && has_visits(alloc, book, &visits)
}

/// Whether a world plays these events.
fn plays(world: &mut Plain<'_>, events: &[WorldEvent]) -> bool {
    play(world, events).is_some()
}

/// Whether it plays a drawn list of events.
fn plays_drawn(alloc: Global, world: &mut Plain<'_>, seed: &mut u64) -> bool {
    let mut events = Vec::new(alloc);
    add_all_drawn(alloc, &mut events, seed) && plays(world, &events)
}

/// Whether it plays the end of each of so many tiles.
fn plays_ending(alloc: Global, world: &mut Plain<'_>, tiles: usize) -> bool {
    let mut events = Vec::new(alloc);
    add_ending(alloc, &mut events, tiles as u64) && plays(world, &events)
}

/// How many tiles there are in the end, if what is posted then is the run.
fn tiles_at_end(alloc: Global, world: &mut Plain<'_>) -> Option<usize> {
    let tiles = world.book().tiles().len();
    if plays_ending(alloc, world, tiles) && is_run(alloc, world.book()) {
        Some(tiles)
    } else {
        None
    }
}

/// The same, if the tiles part the run after each of some drawn lists before.
fn tiles_of(alloc: Global, world: &mut Plain<'_>, seed: &mut u64) -> Option<usize> {
    for _ in 0..10 {
        if !plays_drawn(alloc, world, seed) || !are_tiles(alloc, world.book().tiles()) {
            return None;
        }
    }
    tiles_at_end(alloc, world)
}

/// The same of a new world.
fn tiles_of_new(alloc: Global, problem: &Problem, seed: &mut u64) -> Option<usize> {
    match Plain::new(alloc, problem, 3) {
        Ok(mut world) => tiles_of(alloc, &mut world, seed),
        Err(_) => None,
    }
}

/// The same of the next problem that is drawn.
fn tiles_of_drawn(alloc: Global, primary: u32, seed: &mut u64) -> Option<usize> {
    let Some(text) = drawn_text(alloc, primary, seed) else {
        return None;
    };
    let Ok(problem) = read_cover(alloc, text.as_bytes()) else {
        return None;
    };
    tiles_of_new(alloc, &problem, seed)
}

/// How many tiles there are in all of so many drawn problems; none where something is wrong in one.
fn tiles_of_all(alloc: Global, rounds: u32) -> usize {
    let mut seed = 11;
    let mut all: usize = 0;
    for round in 0..rounds {
        match tiles_of_drawn(alloc, round % 5 + 1, &mut seed) {
            Some(tiles) => all = all.wrapping_add(tiles),
            None => return 0,
        }
    }
    all
}

#[test]
fn drawn_events_leave_a_tiling(rt: HostRuntime) {
    assert!(rt; tiles_of_all(rt.alloc(), 40) > 100);
}
