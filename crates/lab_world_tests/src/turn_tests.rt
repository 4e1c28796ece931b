//! Turns that worker 0 takes on a book and a seat, without a world.
ghost use Rattle.lab_world.specs.World.{IsSeat};

use crate::asked::{Asked, is_so_in_small};
use cover_problem::PlainTable;
use lab_book::Book;
use lab_world::{Act, Worker, WorldReply, take_turn};
use std::alloc::Global;
use x_steps::{Event, Walk};

/// A worker over a plain table, or none.
type Seat<'p> = Option<Worker<'p, PlainTable>>;

/// Whether worker 0's act is answered so.
fn is_answered<'p>(
    alloc: Global,
    book: &mut Book<'p>,
    seat: &mut Seat<'p>,
    act: &Act,
    reply: WorldReply,
) -> bool
    requires { IsSeat book.old 0 seat.old }
    ensures { IsSeat book.new 0 seat.new }
{
    match take_turn(alloc, book, seat, 0, act) {
        Ok(answer) => answer == reply,
        Err(_) => false,
    }
}

/// Up to so many steps of a worker at once.
fn walked<'p>(book: &Book<'p>, seat: &mut Seat<'p>, most: u32) -> Option<Walk>
    requires { IsSeat book.now 0 seat.old }
    ensures { IsSeat book.now 0 seat.new }
{
    let Some(worker) = seat else {
        return None;
    };
    match worker.walk(most) {
        Ok(walk) => Some(walk),
        Err(_) => None,
    }
}

/// Whether a walk took so many steps, the last one with this event.
fn has_taken(walk: Option<Walk>, steps: u32, event: Event) -> bool {
    match walk {
        Some(walk) => walk.steps == steps && walk.event == event,
        None => false,
    }
}

/// Whether worker 0 walks to the run's one visit, 30 steps on, and to its end, 13 steps on, posts both and closes its tile: then the
/// book is finished, and the seat empty.
fn takes_turns<'p>(alloc: Global, book: &mut Book<'p>, seat: &mut Seat<'p>) -> bool
    requires { IsSeat book.old 0 seat.old }
{
    let idle = is_answered(alloc, book, seat, &Act::Post, WorldReply::Idle);
    let leased = is_answered(alloc, book, seat, &Act::LeaseAny, WorldReply::Book(0));
    let visited = has_taken(walked(book, seat, 4096), 30, Event::Visited);
    let posted = is_answered(alloc, book, seat, &Act::Post, WorldReply::Book(1));
    let ended = has_taken(walked(book, seat, 4096), 13, Event::Finished);
    let again = is_answered(alloc, book, seat, &Act::Post, WorldReply::Book(2));
    let closed = is_answered(alloc, book, seat, &Act::Close, WorldReply::Book(3));
    let left = book.finished() && seat.is_none();
    idle && leased && visited && posted && ended && again && closed && left
}

/// The same with a seat that is made here.
pub fn takes_the_run(alloc: Global, book: &mut Book<'_>) -> bool {
    let mut seat = None;
    takes_turns(alloc, book, &mut seat)
}

#[test]
fn turns_are_taken_on_a_book_and_a_seat(rt: HostRuntime) {
    assert!(rt; is_so_in_small(rt.alloc(), &Asked::Turns));
}
