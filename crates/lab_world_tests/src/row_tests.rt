//! Worlds of the small problem, row by row.
ghost use Rattle.std.specs.Prelude.{◌<◌, length};

use crate::fixtures::{Do, add, has_levels, has_visits, play, small};
use crate::opening::{AT_THE_VISIT, Opening, resumed};
use cover_links::LinkTable;
use cover_problem::{PlainTable, Problem, Table};
use lab_book::{Book, Entries, Entry, Reply, Tile};
use lab_world::{World, WorldEvent, WorldReply};
use std::alloc::Global;
use x_branches::{KeptStretch, RunnerFault};
use x_steps::{Event, Label};

/// What a worker does, how often, and what it is answered each time; the number of the book's refusal, or 0;
/// and how many steps are posted then.
struct Row(u8, Do, u32, WorldReply, u8, u128);

/// What was posted to a finished book: its visits with a 0 after each, how many X2 states at each level, each tile by its id and each
/// of its stretches by its steps, how many it visits, and its levels; and the ids that splits answered.
struct Tally {
    visits: &'static [u32],
    levels: &'static [u128],
    parts: &'static [u64],
    splits: &'static [u64],
}

/// Rows of a world, and what is posted once they hold, where that is told.
struct Course(&'static [Row], Option<Tally>);

/// Whether replies are as many as a row has events, and each is the row's.
fn are_all(replies: &[WorldReply], row: &Row) -> bool {
    replies.len() == row.2 as usize && replies.iter().all(|reply| *reply == row.3)
}

/// The number of an entry's refusal; 0 where it has another answer.
fn refusal_of(entry: &Entry) -> Option<u8> {
    match entry.reply() {
        Reply::Refused(fault) => fault.number(),
        _ => Some(0),
    }
}

/// The same of a book's last entry.
fn last_number(book: &Book<'_>) -> Option<u8> {
    let history = book.history();
    let count = history.len();
    if count == 0 {
        return None;
    }
    match history.entry(count - 1) {
        Ok(entry) => refusal_of(&entry),
        Err(_) => None,
    }
}

/// Whether a row's reply names the one entry that is new, with the row's refusal, or none is new.
fn is_noted(book: &Book<'_>, entries: usize, row: &Row) -> bool {
    let now = book.history().len();
    match row.3 {
        WorldReply::Book(index) => {
            index == entries as u64
                && now == entries.wrapping_add(1)
                && last_number(book) == Some(row.4)
        }
        _ => now == entries,
    }
}

/// Whether events are answered as a row tells.
fn answers<T: Table>(world: &mut World<'_, T>, events: &[WorldEvent], row: &Row) -> bool {
    match play(world, events) {
        Some(replies) => are_all(&replies, row),
        None => false,
    }
}

/// The same of the row's events.
fn is_answered<T: Table>(alloc: Global, world: &mut World<'_, T>, row: &Row) -> bool {
    let mut events = Vec::new(alloc);
    add(alloc, &mut events, row.0, row.1, row.2) && answers(world, &events, row)
}

/// Whether a row holds.
fn holds<T: Table>(alloc: Global, world: &mut World<'_, T>, row: &Row) -> bool {
    let entries = world.book().history().len();
    is_answered(alloc, world, row)
        && is_noted(world.book(), entries, row)
        && world.book().steps() == row.5
}

/// Whether rows hold, one after another.
fn all_hold<T: Table>(alloc: Global, world: &mut World<'_, T>, rows: &[Row]) -> bool {
    for row in rows {
        if !holds(alloc, world, row) {
            return false;
        }
    }
    true
}

/// Adds how many X2 states there are at each level.
fn add_levels(parts: &mut Vec<u64>, levels: &[u32]) -> bool {
    for count in levels {
        if parts.push(*count as u64).is_err() {
            return false;
        }
    }
    true
}

/// Adds the steps of a stretch, how many it visits, and its levels.
fn add_stretch(alloc: Global, parts: &mut Vec<u64>, stretch: &KeptStretch<'_, '_>) -> bool {
    let counts = [stretch.steps() as u64, stretch.visited()];
    if parts.extend_from_slice(&counts).is_err() {
        return false;
    }
    match stretch.open(alloc) {
        Ok(opened) => add_levels(parts, opened.levels()),
        Err(_) => false,
    }
}

/// Adds a tile with its stretches.
fn add_parts(alloc: Global, parts: &mut Vec<u64>, tile: &Tile<'_>) -> bool {
    if parts.push(tile.id()).is_err() {
        return false;
    }
    for place in 0..tile.stretches().len() {
        if !add_stretch(alloc, parts, &tile.stretches().stretch(place)) {
            return false;
        }
    }
    true
}

/// Whether a book's tiles with their stretches are these.
fn has_parts(alloc: Global, book: &Book<'_>, told: &[u64]) -> bool {
    let mut parts = Vec::new(alloc);
    for tile in book.tiles() {
        if !add_parts(alloc, &mut parts, tile) {
            return false;
        }
    }
    parts.as_slice() == told
}

/// Adds the id that a split answered, if an entry is one's.
fn add_split(ids: &mut Vec<u64>, entry: &Entry) -> bool {
    match entry.reply() {
        Reply::Split(id) => ids.push(*id).is_ok(),
        _ => true,
    }
}

/// The same of the entry at a place.
fn add_split_at(ids: &mut Vec<u64>, history: &Entries<'_>, place: usize) -> bool
    requires { place < length history.now }
{
    match history.entry(place) {
        Ok(entry) => add_split(ids, &entry),
        Err(_) => false,
    }
}

/// Whether a book's splits answered these ids.
fn has_splits(alloc: Global, book: &Book<'_>, told: &[u64]) -> bool {
    let history = book.history();
    let mut ids = Vec::new(alloc);
    for place in 0..history.len() {
        if !add_split_at(&mut ids, &history, place) {
            return false;
        }
    }
    ids.as_slice() == told
}

/// Whether a book is finished, with this posted to it.
fn is_posted(alloc: Global, book: &Book<'_>, tally: &Tally) -> bool {
    book.finished()
        && has_visits(alloc, book, tally.visits)
        && has_levels(book, tally.levels)
        && has_parts(alloc, book, tally.parts)
        && has_splits(alloc, book, tally.splits)
}

/// Whether rows hold in a world, and what is told is posted then.
fn plays<T: Table>(alloc: Global, world: &mut World<'_, T>, course: &Course) -> bool {
    if !all_hold(alloc, world, course.0) {
        return false;
    }
    match &course.1 {
        Some(tally) => is_posted(alloc, world.book(), tally),
        None => true,
    }
}

/// The same in a new world with two workers, over tables of a kind.
fn plays_anew<T: Table>(alloc: Global, problem: &Problem, course: &Course) -> bool {
    match World::<T>::new(alloc, problem, 2) {
        Ok(mut world) => plays(alloc, &mut world, course),
        Err(_) => false,
    }
}

/// The same of the small problem.
fn plays_small<T: Table>(alloc: Global, course: &Course) -> bool {
    match small(alloc) {
        Some(problem) => plays_anew::<T>(alloc, &problem, course),
        None => false,
    }
}

const MOVED: WorldReply = WorldReply::Event(Event::Moved);

const VISITED: WorldReply = WorldReply::Event(Event::Visited);

const FINISHED: WorldReply = WorldReply::Event(Event::Finished);

/// Two workers share the run at the cut 4: it is posted in two parts, from X1 to the cut and on to the end.
static SHARED: Course = Course(
    &[
        Row(0, Do::LeaseAny, 1, WorldReply::Book(0), 0, 0),
        Row(0, Do::Step, 5, MOVED, 0, 0),
        Row(0, Do::Split(0, 4), 1, WorldReply::Book(1), 0, 0),
        Row(1, Do::LeaseAny, 1, WorldReply::Book(2), 0, 0),
        Row(1, Do::Step, 9, MOVED, 0, 0),
        Row(1, Do::Step, 1, VISITED, 0, 0),
        Row(1, Do::Step, 12, MOVED, 0, 0),
        Row(1, Do::Step, 1, FINISHED, 0, 0),
        Row(1, Do::Post, 1, WorldReply::Book(3), 0, 23),
        Row(1, Do::Close, 1, WorldReply::Book(4), 0, 23),
        Row(0, Do::Step, 15, MOVED, 0, 23),
        Row(0, Do::Post, 1, WorldReply::Book(5), 0, 43),
        Row(0, Do::Close, 1, WorldReply::Book(6), 0, 43),
    ],
    Some(Tally {
        visits: &[4, 5, 1, 0],
        levels: &[1, 2, 2, 1],
        parts: &[0, 20, 0, 1, 1, 1, 1, 23, 1, 0, 1, 1, 1],
        splits: &[1],
    }),
);

#[test]
fn two_workers_share_the_run(rt: HostRuntime) {
    assert!(rt; plays_small::<PlainTable>(rt.alloc(), &SHARED));
    assert!(rt; plays_small::<LinkTable>(rt.alloc(), &SHARED));
}

/// A worker goes on from the visit to the end: the last 14 steps are posted, with the visit.
static FROM_THE_VISIT: Course = Course(
    &[
        Row(0, Do::LeaseAny, 1, WorldReply::Book(0), 0, 0),
        Row(0, Do::Step, 1, VISITED, 0, 0),
        Row(0, Do::Step, 12, MOVED, 0, 0),
        Row(0, Do::Step, 1, FINISHED, 0, 0),
        Row(0, Do::Post, 1, WorldReply::Book(1), 0, 14),
        Row(0, Do::Close, 1, WorldReply::Book(2), 0, 14),
    ],
    Some(Tally {
        visits: &[4, 5, 1, 0],
        levels: &[0, 0, 0, 1],
        parts: &[0, 14, 1, 0, 0, 0, 1],
        splits: &[],
    }),
);

/// Where that worker goes on.
static AT: Opening = AT_THE_VISIT;

/// Whether rows hold in a world with one worker on a book, and what is told is posted then.
fn plays_on(alloc: Global, book: Book<'_>, course: &Course) -> bool {
    if book.leased() > 0 {
        return false;
    }
    match World::<PlainTable>::on_book(alloc, book, 1) {
        Ok(mut world) => plays(alloc, &mut world, course),
        Err(_) => false,
    }
}

/// Whether a worker takes the rest of the run in a world on the book that goes on at the visit.
fn takes_the_rest(alloc: Global, problem: &Problem) -> bool {
    match resumed(alloc, problem, &AT) {
        Ok(book) => plays_on(alloc, book, &FROM_THE_VISIT),
        Err(_) => false,
    }
}

/// The same of the small problem.
fn takes_the_small_rest(alloc: Global) -> bool {
    match small(alloc) {
        Some(problem) => takes_the_rest(alloc, &problem),
        None => false,
    }
}

#[test]
fn a_world_goes_on_with_a_book(rt: HostRuntime) {
    assert!(rt; takes_the_small_rest(rt.alloc()));
}

const IDLE: WorldReply = WorldReply::Idle;

const BUSY: WorldReply = WorldReply::Busy;

/// What needs a runner is refused where there is none, and a lease where there is one.
static WITHOUT: Course = Course(
    &[
        Row(0, Do::Step, 1, IDLE, 0, 0),
        Row(0, Do::Back, 1, IDLE, 0, 0),
        Row(0, Do::Post, 1, IDLE, 0, 0),
        Row(0, Do::Split(0, 4), 1, IDLE, 0, 0),
        Row(0, Do::Retract, 1, IDLE, 0, 0),
        Row(0, Do::Park, 1, IDLE, 0, 0),
        Row(0, Do::Abandon, 1, IDLE, 0, 0),
        Row(0, Do::Close, 1, IDLE, 0, 0),
        Row(0, Do::Lease(5), 1, WorldReply::Book(0), 1, 0),
        Row(0, Do::Lease(0), 1, WorldReply::Book(1), 0, 0),
        Row(0, Do::Lease(0), 1, BUSY, 0, 0),
        Row(0, Do::LeaseAny, 1, BUSY, 0, 0),
        Row(0, Do::TakeHeld(0), 1, BUSY, 0, 0),
        Row(1, Do::Lease(0), 1, WorldReply::Book(2), 2, 0),
        Row(1, Do::LeaseAny, 1, WorldReply::Book(3), 0, 0),
        Row(1, Do::Step, 1, IDLE, 0, 0),
        Row(0, Do::Abandon, 1, WorldReply::Book(4), 0, 0),
        Row(0, Do::Abandon, 1, IDLE, 0, 0),
    ],
    None,
);

/// What was walked is posted and taken back, and cuts are refused.
static BACK: Course = Course(
    &[
        Row(0, Do::LeaseAny, 1, WorldReply::Book(0), 0, 0),
        Row(
            0,
            Do::Split(0, 4),
            1,
            WorldReply::Runner(RunnerFault::NothingUntried),
            0,
            0,
        ),
        Row(0, Do::Step, 5, MOVED, 0, 0),
        Row(
            0,
            Do::Split(0, 2),
            1,
            WorldReply::Runner(RunnerFault::NotUntried),
            0,
            0,
        ),
        Row(
            0,
            Do::Retract,
            1,
            WorldReply::Runner(RunnerFault::NotAtMark),
            0,
            0,
        ),
        Row(0, Do::Back, 5, MOVED, 0, 0),
        Row(
            0,
            Do::Back,
            1,
            WorldReply::Runner(RunnerFault::AtMark),
            0,
            0,
        ),
        Row(0, Do::Retract, 1, WorldReply::Book(1), 9, 0),
        Row(0, Do::Step, 29, MOVED, 0, 0),
        Row(0, Do::Step, 1, VISITED, 0, 0),
        Row(0, Do::Post, 1, WorldReply::Book(2), 0, 30),
        Row(
            0,
            Do::Back,
            1,
            WorldReply::Runner(RunnerFault::AtMark),
            0,
            30,
        ),
        Row(0, Do::Retract, 1, WorldReply::Book(3), 0, 0),
        Row(0, Do::Back, 1, MOVED, 0, 0),
        Row(0, Do::Step, 1, VISITED, 0, 0),
        Row(0, Do::Post, 1, WorldReply::Book(4), 0, 30),
        Row(0, Do::Close, 1, WorldReply::Book(5), 8, 30),
        Row(0, Do::Step, 12, MOVED, 0, 30),
        Row(0, Do::Step, 1, FINISHED, 0, 30),
        Row(0, Do::Post, 1, WorldReply::Book(6), 0, 43),
        Row(0, Do::Close, 1, WorldReply::Book(7), 0, 43),
    ],
    None,
);

/// A tile is put back, and stopped.
static STOPPED: Course = Course(
    &[
        Row(0, Do::LeaseAny, 1, WorldReply::Book(0), 0, 0),
        Row(0, Do::Step, 29, MOVED, 0, 0),
        Row(0, Do::Step, 1, VISITED, 0, 0),
        Row(0, Do::Post, 1, WorldReply::Book(1), 0, 30),
        Row(0, Do::PutBack(0, Label::X1), 1, WorldReply::Book(2), 2, 30),
        Row(0, Do::Park, 1, WorldReply::Book(3), 0, 30),
        Row(1, Do::PutBack(0, Label::X2), 1, WorldReply::Book(4), 7, 30),
        Row(1, Do::PutBack(0, Label::X1), 1, WorldReply::Book(5), 0, 0),
        Row(0, Do::LeaseAny, 1, WorldReply::Book(6), 0, 0),
        Row(1, Do::RequestStop(0), 1, WorldReply::Book(7), 0, 0),
        Row(1, Do::RequestStop(1), 1, WorldReply::Book(8), 1, 0),
        Row(0, Do::Park, 1, WorldReply::Book(9), 0, 0),
        Row(1, Do::Lease(0), 1, WorldReply::Book(10), 2, 0),
        Row(1, Do::TakeHeld(0), 1, WorldReply::Book(11), 0, 0),
        Row(1, Do::Step, 5, MOVED, 0, 0),
        Row(1, Do::Split(0, 4), 1, WorldReply::Book(12), 0, 0),
        Row(
            1,
            Do::Split(0, 4),
            1,
            WorldReply::Runner(RunnerFault::OutsideBranch),
            0,
            0,
        ),
        Row(1, Do::Step, 15, MOVED, 0, 0),
        Row(
            1,
            Do::Step,
            1,
            WorldReply::Runner(RunnerFault::AtBranchEnd),
            0,
            0,
        ),
    ],
    None,
);

#[test]
fn a_worker_without_a_tile_is_idle(rt: HostRuntime) {
    assert!(rt; plays_small::<PlainTable>(rt.alloc(), &WITHOUT));
}

#[test]
fn what_was_walked_is_taken_back(rt: HostRuntime) {
    assert!(rt; plays_small::<PlainTable>(rt.alloc(), &BACK));
}

#[test]
fn a_tile_is_put_back_and_stopped(rt: HostRuntime) {
    assert!(rt; plays_small::<PlainTable>(rt.alloc(), &STOPPED));
}
