//! The small problem with its cuts and its runners, what workers do, the replies of a world, and what a book tells.
ghost use Rattle.std.specs.Prelude.{◌<◌, ◌↔◌, All, IsTrue};

use cover_problem::{Lists, PlainTable, Problem, Table, read_cover};
use drawn_books::runner_of;
use drawn_problems::{SMALL, state_of};
use lab_book::Book;
use lab_world::{Act, Target, World, WorldEvent, WorldReply};
use std::alloc::Global;
use x_branches::{Branch, Cut, Runner};
use x_steps::{Cursor, Label, State};

/// The small problem.
pub fn small(alloc: Global) -> Option<Problem> {
    match read_cover(alloc, SMALL.as_bytes()) {
        Ok(problem) => Some(problem),
        Err(_) => None,
    }
}

/// What was made, if it wasn't refused.
fn made<V: Drop, F: Drop>(answer: Result<V, F>) -> Option<V> {
    match answer {
        Ok(value) => Some(value),
        Err(_) => None,
    }
}

/// The cut of one choice.
pub fn cut_at<'p>(alloc: Global, problem: &'p Problem, choice: u32) -> Option<Cut<'p>> {
    let Ok(path) = Vec::from_slice(alloc, &[choice]) else {
        return None;
    };
    made(Cut::new(alloc, problem, path))
}

/// A runner of the whole run, at X1.
pub fn whole<'p>(alloc: Global, problem: &'p Problem) -> Option<Runner<'p, PlainTable>> {
    let Ok(first) = state_of(alloc, Label::X1, &[], Cursor::None) else {
        return None;
    };
    made(runner_of(alloc, problem, Branch { lo: None, hi: None }, &first))
}

/// What a worker does; a tile is put back to a step without choices.
#[derive(Clone, Copy)]
pub enum Do {
    Step,
    Back,
    Lease(u64),
    LeaseAny,
    TakeHeld(u64),
    Post,
    Split(usize, u32),
    Retract,
    Park,
    Abandon,
    Close,
    PutBack(u64, Label),
    RequestStop(u64),
}

/// The act.
fn act_of(alloc: Global, todo: Do) -> Act {
    match todo {
        Do::Step => Act::Step,
        Do::Back => Act::Back,
        Do::Lease(id) => Act::Lease(id),
        Do::LeaseAny => Act::LeaseAny,
        Do::TakeHeld(id) => Act::TakeHeld(id),
        Do::Post => Act::Post,
        Do::Split(level, option) => Act::Split { level, option },
        Do::Retract => Act::Retract,
        Do::Park => Act::Park,
        Do::Abandon => Act::Abandon,
        Do::Close => Act::Close,
        Do::PutBack(id, label) => Act::PutBack {
            id,
            state: Target::new(State {
                label,
                path: Vec::new(alloc),
                cursor: Cursor::None,
            }),
        },
        Do::RequestStop(id) => Act::RequestStop(id),
    }
}

/// Adds so many events of a worker; false where there is no memory for one.
pub fn add(alloc: Global, events: &mut Vec<WorldEvent>, worker: u8, todo: Do, times: u32) -> bool {
    for _ in 0..times {
        let act = act_of(alloc, todo);
        if events.push(WorldEvent { worker, act }).is_err() {
            return false;
        }
    }
    true
}

/// Whether the worker of each event is one of so many.
fn have_workers(events: &[WorldEvent], workers: u8) -> bool
    ensures { IsTrue result ↔ All (λ (e : WorldEvent). e.worker < workers) events.now }
{
    events.iter().all(|event| event.worker < workers)
}

/// The replies to events of workers that there are; none where memory runs out.
pub fn play<T: Table>(world: &mut World<'_, T>, events: &[WorldEvent]) -> Option<Vec<WorldReply>> {
    if !have_workers(events, world.workers()) {
        return None;
    }
    made(world.play(events))
}

/// Adds a path, with a 0 after it; false where there is no memory for it.
pub fn add_path(visits: &mut Vec<u32>, path: &[u32]) -> bool {
    visits.extend_from_slice(path).is_ok() && visits.push(0).is_ok()
}

/// Whether these are the paths, with a 0 after each.
fn are_paths(alloc: Global, paths: &Lists, visits: &[u32]) -> bool {
    let mut joined = Vec::new(alloc);
    for place in 0..paths.len() {
        if !add_path(&mut joined, paths.list(place)) {
            return false;
        }
    }
    joined.as_slice() == visits
}

/// Whether these are the visits of what was posted to a book, with a 0 after each.
pub fn has_visits(alloc: Global, book: &Book<'_>, visits: &[u32]) -> bool {
    match book.visits() {
        Ok(paths) => are_paths(alloc, &paths, visits),
        Err(_) => false,
    }
}

/// Whether so many X2 states at each level were posted to a book.
pub fn has_levels(book: &Book<'_>, levels: &[u128]) -> bool {
    match book.levels() {
        Ok(counts) => counts.as_slice() == levels,
        Err(_) => false,
    }
}
