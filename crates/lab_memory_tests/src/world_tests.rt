//! A world that is played and runs out of memory: the replies so far come, the world is as the events before left it, and the other
//! events, played then, end it as where nothing is refused.
ghost use Rattle.std.specs.Prelude.{◌<◌, ◌≤◌, ◌↔◌, length, All, IsTrue};

use crate::fixtures::{End, are_alike, grows, small};
use cover_problem::{PlainTable, Problem};
use lab_world::{Act, World, WorldEvent, WorldReply};
use std::alloc::Global;
use std::test::Fail;

/// A world over a plain table.
type Plain<'p> = World<'p, PlainTable>;

/// What a worker does.
#[derive(Clone, Copy)]
enum Do {
    Step,
    Back,
    Lease(u64),
    LeaseAny,
    Post,
    Split(usize, u32),
    Retract,
    Park,
    RequestStop(u64),
}

/// A worker, what it does, and how often.
struct Row(u8, Do, u32);

/// Two workers part the run at the cut 4; one posts, takes out, goes a step back and posts again, the other parks.
static ROWS: [Row; 12] = [
    Row(0, Do::LeaseAny, 1),
    Row(0, Do::Step, 5),
    Row(0, Do::Split(0, 4), 1),
    Row(1, Do::Lease(1), 1),
    Row(1, Do::Step, 10),
    Row(1, Do::Post, 1),
    Row(1, Do::Retract, 1),
    Row(1, Do::Back, 1),
    Row(1, Do::Post, 1),
    Row(0, Do::RequestStop(1), 1),
    Row(0, Do::Post, 1),
    Row(0, Do::Park, 1),
];

/// The act.
fn act_of(todo: Do) -> Act {
    match todo {
        Do::Step => Act::Step,
        Do::Back => Act::Back,
        Do::Lease(id) => Act::Lease(id),
        Do::LeaseAny => Act::LeaseAny,
        Do::Post => Act::Post,
        Do::Split(level, option) => Act::Split { level, option },
        Do::Retract => Act::Retract,
        Do::Park => Act::Park,
        Do::RequestStop(id) => Act::RequestStop(id),
    }
}

/// Adds the events of a row; false where there is no memory for one.
fn add(events: &mut Vec<WorldEvent>, row: &Row) -> bool {
    for _ in 0..row.2 {
        let event = WorldEvent {
            worker: row.0,
            act: act_of(row.1),
        };
        if events.push(event).is_err() {
            return false;
        }
    }
    true
}

/// What the two workers do.
fn events_of(alloc: Global) -> Option<Vec<WorldEvent>> {
    let mut events = Vec::new(alloc);
    for row in &ROWS {
        if !add(&mut events, row) {
            return None;
        }
    }
    Some(events)
}

/// Whether the worker of each event is one of so many.
fn have_workers(events: &[WorldEvent], workers: u8) -> bool
    ensures { IsTrue result ↔ All (λ (e : WorldEvent). e.worker < workers) events.now }
{
    events.iter().all(|event| event.worker < workers)
}

/// The replies to events of workers that there are; none where memory runs out.
fn play(world: &mut Plain<'_>, events: &[WorldEvent]) -> Option<Vec<WorldReply>> {
    if !have_workers(events, world.workers()) {
        return None;
    }
    match world.play(events) {
        Ok(replies) => Some(replies),
        Err(_) => None,
    }
}

/// Whether a worker stands alike in two worlds, or has no tile in both.
fn stands_alike(world: &Plain<'_>, other: &Plain<'_>, worker: u8) -> bool
    requires one { worker < length world.now.workers }
    requires other { worker < length other.now.workers }
{
    match (world.state(worker), other.state(worker)) {
        (Some(state), Some(other)) => state.same(other),
        (None, None) => true,
        _ => false,
    }
}

/// Whether two worlds of two workers are alike: their books, and where each worker stands.
fn are_worlds(world: &Plain<'_>, other: &Plain<'_>) -> bool {
    if world.workers() != 2 {
        return false;
    }
    if other.workers() != 2 {
        return false;
    }
    are_alike(world.book(), other.book())
        && stands_alike(world, other, 0)
        && stands_alike(world, other, 1)
}

/// Whether events are answered so.
fn answers(world: &mut Plain<'_>, events: &[WorldEvent], wanted: &[WorldReply]) -> bool {
    match play(world, events) {
        Some(replies) => replies.as_slice() == wanted,
        None => false,
    }
}

/// Whether a world is as the first events leave a new one, and the other events are answered so.
fn goes_on(
    world: &mut Plain<'_>,
    fresh: &mut Plain<'_>,
    events: &[WorldEvent],
    wanted: &[WorldReply],
    count: usize,
) -> bool
    requires events { count ≤ length events.now }
    requires wanted { count ≤ length wanted.now }
{
    let (first, rest) = events.split_at(count);
    let (before, after) = wanted.split_at(count);
    let is_before = answers(fresh, first, before);
    let is_alike = are_worlds(world, fresh);
    is_before && is_alike && answers(world, rest, after)
}

/// Whether replies are the first of those that are wanted.
fn are_first(replies: &[WorldReply], wanted: &[WorldReply]) -> bool {
    replies.len() <= wanted.len() && replies == wanted.split_at(replies.len()).0
}

/// Whether a world that stopped after these replies is as a fresh one after their events, and goes on.
fn goes_on_after(
    world: &mut Plain<'_>,
    fresh: &mut Plain<'_>,
    events: &[WorldEvent],
    wanted: &[WorldReply],
    replies: &[WorldReply],
) -> bool {
    let count = replies.len();
    if count > events.len() || count > wanted.len() || !are_first(replies, wanted) {
        return false;
    }
    goes_on(world, fresh, events, wanted, count)
}

/// The same of a fresh one that is made here.
fn goes_on_from(
    alloc: Global,
    world: &mut Plain<'_>,
    events: &[WorldEvent],
    wanted: &[WorldReply],
    replies: &[WorldReply],
) -> bool {
    match Plain::new(alloc, world.book().problem(), 2) {
        Ok(mut fresh) => goes_on_after(world, &mut fresh, events, wanted, replies),
        Err(_) => false,
    }
}

/// Whether a world answers so, on a second try where the first is refused.
fn answers_again(
    alloc: Global,
    world: &mut Plain<'_>,
    events: &[WorldEvent],
    wanted: &[WorldReply],
) -> bool {
    if !have_workers(events, world.workers()) {
        return false;
    }
    match world.play(events) {
        Ok(replies) => replies.as_slice() == wanted,
        Err(stopped) => goes_on_from(alloc, world, events, wanted, &stopped.replies),
    }
}

/// How it ends where a world, behind one growth, has to answer so, and to end like another one.
fn end_behind(
    alloc: Global,
    world: &mut Plain<'_>,
    events: &[WorldEvent],
    wanted: &[WorldReply],
    other: &Plain<'_>,
) -> End {
    if !grows(alloc) {
        return End::Unready;
    }
    End::of(answers_again(alloc, world, events, wanted) && are_worlds(world, other))
}

/// The same of a world that is made here.
fn end_alike(
    alloc: Global,
    problem: &Problem,
    events: &[WorldEvent],
    wanted: &[WorldReply],
    other: &Plain<'_>,
) -> End {
    match Plain::new(alloc, problem, 2) {
        Ok(mut world) => end_behind(alloc, &mut world, events, wanted, other),
        Err(_) => End::Unset,
    }
}

/// The same where it has to answer and to end like this one, to which nothing is refused.
fn end_like(alloc: Global, problem: &Problem, events: &[WorldEvent], other: &mut Plain<'_>) -> End {
    match play(other, events) {
        Some(wanted) => end_alike(alloc, problem, events, &wanted, other),
        None => End::Unset,
    }
}

/// The same of one that is made here.
fn end_of(alloc: Global, problem: &Problem, events: &[WorldEvent]) -> End {
    match Plain::new(alloc, problem, 2) {
        Ok(mut other) => end_like(alloc, problem, events, &mut other),
        Err(_) => End::Unset,
    }
}

/// The same of what two workers do.
fn end_in(alloc: Global, problem: &Problem) -> End {
    match events_of(alloc) {
        Some(events) => end_of(alloc, problem, &events),
        None => End::Unset,
    }
}

/// Whether that ends right in the small problem.
fn is_played(alloc: Global) -> Result<bool, Fail> {
    let end = match small(alloc) {
        Some(problem) => end_in(alloc, &problem),
        None => End::Unset,
    };
    end.is_right()
}

#[test]
fn a_world_is_played_up_to_what_is_refused(rt: HostRuntime) -> Result<(), Fail> {
    assert!(rt; is_played(rt.alloc())?);
    Ok(())
}
