//! A desk with two seats over a book of the small problem: how its seats work, and how it is finished.
ghost use Rattle.std.specs.Prelude.{◌≡◌, IfSome};

use crate::searches::{Search, begin};
use crate::waiter::{End, given_while_ended};
use drawn_books::lease_in;
use lab_book::{Book, BookFault, Posted};
use lab_desk::{Blank, Desk, Desking, Seat};
use std::alloc::Global;
use std::marker::Brand;
use std::sync::Wait;
use std::thread::Threads;
use x_steps::Refused;

/// What the two seats do.
#[derive(Clone, Copy)]
pub enum Work {
    /// The first leases the whole run and splits it at the cut 4; the second searches the new tile.
    Share,
    /// The second searches the last 13 steps.
    GoOn,
    /// The second stops the first after five steps, and searches the rest.
    Stop,
    /// Neither calls.
    Nothing,
    /// Both ask the worker of a tile that there isn't to stop, which is refused, more than 65,536 times together.
    Ask,
    /// The second waits for a tile while the first ends the only one so, and is given it, or isn't.
    Wait(End, bool),
}

/// How the seats are handed in.
#[derive(Clone, Copy)]
pub enum Way {
    /// All of them, in order.
    All,
    /// First without the second, which has notes, and then all.
    OneShort,
    /// All of them, the second before the first.
    Turned,
}

/// A seat's search of a tile.
fn lease<'p, L: Desking, R: Wait>(
    rt: &R,
    alloc: Global,
    desk: &Desk<'p, L>,
    seat: &mut Seat<L>,
    id: u64,
) -> Option<Search<'p>>
    ensures worker { IfSome result (λ s. s.lease.worker ≡ seat.old.number) }
    ensures number { seat.new.number ≡ seat.old.number }
{
    match desk.lease(rt, seat, id) {
        Ok(leased) => begin(alloc, desk.problem(), leased),
        Err(_) => None,
    }
}

/// A seat's search of a held tile.
fn take_held<'p, L: Desking, R: Wait>(
    rt: &R,
    alloc: Global,
    desk: &Desk<'p, L>,
    seat: &mut Seat<L>,
    id: u64,
) -> Option<Search<'p>>
    ensures worker { IfSome result (λ s. s.lease.worker ≡ seat.old.number) }
    ensures number { seat.new.number ≡ seat.old.number }
{
    match desk.take_held(rt, seat, id) {
        Ok(leased) => begin(alloc, desk.problem(), leased),
        Err(_) => None,
    }
}

/// Whether so many steps end a search: they are posted with no demand to stop, and the tile is closed.
fn ends<'p, L: Desking, R: Wait>(
    rt: &R,
    desk: &Desk<'p, L>,
    seat: &mut Seat<L>,
    search: Option<Search<'p>>,
    steps: u32,
) -> bool
    requires { IfSome search (λ s. s.lease.worker ≡ seat.old.number) }
{
    let Some(mut search) = search else {
        return false;
    };
    let posted = search.post(rt, desk, seat, steps)
        == Some(Posted {
            stop: false,
            waiting: 0,
        });
    search.close(rt, desk, seat) && posted
}

/// Two seats share the run at the cut 4: 20 steps before it, and 23 after it.
fn share<'p, L: Desking, R: Wait>(
    rt: &R,
    alloc: Global,
    desk: &Desk<'p, L>,
    first: &mut Seat<L>,
    second: &mut Seat<L>,
) -> bool {
    let Some(mut search) = lease(rt, alloc, desk, first, 0) else {
        return false;
    };
    let parted = search.split(rt, desk, first, 5, 4) == Some(1);
    let other = lease(rt, alloc, desk, second, 1);
    let ended = ends(rt, desk, second, other, 23);
    let posted = search.post(rt, desk, first, 15).is_some();
    search.close(rt, desk, first) && parted && ended && posted
}

/// Whether no tile can be leased: by its id the first one is refused as number 2, and none waits.
fn none_waits<L: Desking, R: Wait>(rt: &R, desk: &Desk<'_, L>, seat: &mut Seat<L>) -> bool {
    let refused = match desk.lease(rt, seat, 0) {
        Ok(leased) => {
            lease_in(leased).discard();
            false
        }
        Err(fault) => fault.number() == Some(2),
    };
    match desk.lease_next(rt, seat) {
        Ok(Some(leased)) => {
            lease_in(leased).discard();
            false
        }
        Ok(None) => refused,
        Err(_) => false,
    }
}

/// Whether the first seat, asked by the second, stops after five steps and parks its tile.
fn stops<L: Desking, R: Wait>(
    rt: &R,
    alloc: Global,
    desk: &Desk<'_, L>,
    first: &mut Seat<L>,
    second: &mut Seat<L>,
) -> bool {
    let Some(mut search) = lease(rt, alloc, desk, first, 0) else {
        return false;
    };
    let asked = desk.request_stop(rt, second, 0).is_ok();
    let posted = search.post(rt, desk, first, 5)
        == Some(Posted {
            stop: true,
            waiting: 0,
        });
    search.park(rt, desk, first) && asked && posted
}

/// Whether both seats are refused a stop of a tile that there isn't, again and again.
fn ask<L: Desking, R: Wait>(
    rt: &R,
    desk: &Desk<'_, L>,
    first: &mut Seat<L>,
    second: &mut Seat<L>,
) -> bool {
    'asking: for _again in 0..33_000 {
        if desk.request_stop(rt, first, 9).is_ok() || desk.request_stop(rt, second, 9).is_ok() {
            return false;
        }
    }
    true
}

/// Whether the second seat searches the last 13 steps.
fn goes_on<'p, L: Desking, R: Wait>(
    rt: &R,
    alloc: Global,
    desk: &Desk<'p, L>,
    second: &mut Seat<L>,
) -> bool {
    let search = lease(rt, alloc, desk, second, 0);
    ends(rt, desk, second, search, 13)
}

/// Whether the second seat stops the first one, and searches the rest.
fn stop<'p, L: Desking, R: Wait>(
    rt: &R,
    alloc: Global,
    desk: &Desk<'p, L>,
    first: &mut Seat<L>,
    second: &mut Seat<L>,
) -> bool {
    let stopped = stops(rt, alloc, desk, first, second) && none_waits(rt, desk, second);
    let search = take_held(rt, alloc, desk, second, 0);
    ends(rt, desk, second, search, 38) && stopped
}

/// Whether the two seats do what they have to.
fn act<'p, L: Desking + Send + Sync, R: Threads + Wait + Sync>(
    rt: &R,
    alloc: Global,
    desk: &Desk<'p, L>,
    seats: &mut [Seat<L>],
    todo: Work,
) -> bool {
    let [first, second] = seats else {
        return false;
    };
    match todo {
        Work::Share => share(rt, alloc, desk, first, second),
        Work::GoOn => goes_on(rt, alloc, desk, second),
        Work::Stop => stop(rt, alloc, desk, first, second),
        Work::Nothing => true,
        Work::Ask => ask(rt, desk, first, second),
        Work::Wait(end, given) => { given_while_ended(rt, desk, first, second, end) == Some(given) }
    }
}

/// The book of a desk that these seats and one more finish.
fn finished_with<'p, L: Desking>(
    desk: Desk<'p, L>,
    seats: Vec<Seat<L>>,
    last: Seat<L>,
) -> Option<Book<'p>> {
    let mut seats = seats;
    // Without memory for it the last one is missing, and they don't finish it.
    let _pushed = seats.push(last);
    desk.finish(seats).ok()
}

/// Whether a seat is there, and has this number.
pub fn has_number<L: Desking>(seat: Option<&Seat<L>>, number: u8) -> bool {
    match seat {
        Some(seat) => seat.number() == number,
        None => false,
    }
}

/// Whether these are a desk of two seats, and the first of them alone.
fn is_one_short<L: Desking>(desk: &Desk<'_, L>, seats: &[Seat<L>]) -> bool {
    desk.seats() == 2 && seats.len() == 1 && has_number(seats.first(), 0)
}

/// A book that is there, if all was right before.
fn if_right(book: Option<Book<'_>>, is_right: bool) -> Option<Book<'_>> {
    if is_right { book } else { None }
}

/// The book of a desk that was refused for its missing seat with the number 10, once that is there.
fn finished_late<'p, L: Desking>(
    refused: Refused<BookFault, (Desk<'p, L>, Vec<Seat<L>>)>,
    last: Seat<L>,
) -> Option<Book<'p>> {
    let Refused { fault, given } = refused;
    let (desk, seats) = given;
    let is_right = fault.number() == Some(10) && is_one_short(&desk, &seats);
    if_right(finished_with(desk, seats, last), is_right)
}

/// The book of a desk, once it was refused without its last seat.
fn finished_after<'p, L: Desking>(
    desk: Desk<'p, L>,
    seats: Vec<Seat<L>>,
    last: Seat<L>,
) -> Option<Book<'p>> {
    match desk.finish(seats).err() {
        Some(refused) => finished_late(refused, last),
        None => None,
    }
}

/// The book of a desk, once the first seat is handed in alone, and then both are.
fn finished_twice<'p, L: Desking>(desk: Desk<'p, L>, seats: Vec<Seat<L>>) -> Option<Book<'p>> {
    let mut seats = seats;
    match seats.pop() {
        Some(last) => finished_after(desk, seats, last),
        None => None,
    }
}

/// The book of a desk, once its seats are handed in the other way round.
fn finished_turned<'p, L: Desking>(desk: Desk<'p, L>, seats: Vec<Seat<L>>) -> Option<Book<'p>> {
    let mut seats = seats;
    seats.reverse();
    desk.finish(seats).ok()
}

/// The book of a desk, once its seats are handed in so.
fn finished<'p, L: Desking>(desk: Desk<'p, L>, seats: Vec<Seat<L>>, way: Way) -> Option<Book<'p>> {
    match way {
        Way::All => desk.finish(seats).ok(),
        Way::OneShort => finished_twice(desk, seats),
        Way::Turned => finished_turned(desk, seats),
    }
}

/// The book that a desk's two seats finish; None where a call isn't answered as it should be.
fn finished_by<'p, L: Desking + Send + Sync, R: Threads + Wait + Sync>(
    rt: &R,
    alloc: Global,
    desk: Desk<'p, L>,
    seats: Vec<Seat<L>>,
    todo: Work,
    way: Way,
) -> Option<Book<'p>> {
    let mut seats = seats;
    if act(rt, alloc, &desk, &mut seats, todo) {
        finished(desk, seats, way)
    } else {
        None
    }
}

/// The same of a desk of this name over a book.
fn at_desk_of<'p, L: Desking + Send + Sync, R: Threads + Wait + Sync>(
    rt: &R,
    alloc: Global,
    blank: Blank,
    book: Book<'p>,
    todo: Work,
    way: Way,
) -> Option<Book<'p>>
    requires name { blank.name ≡ L.table }
    requires parts { (blank.parts ≡ L.parts) × (blank.parts ≡ 2) }
    requires opening { book.history ≡ L.opening }
    requires whole { book.problem ≡ L.whole }
    requires part { book.branch ≡ L.part }
    requires begin { book.first ≡ L.begin }
{
    match Desk::<L>::new(alloc, blank, book, 2) {
        Ok((desk, seats)) => finished_by(rt, alloc, desk, seats, todo, way),
        Err(_) => None,
    }
}

/// The book that two seats of a desk finish; None where a call isn't answered as it should be.
pub fn at_desk<'p, R: Threads + Wait + Sync>(
    rt: &R,
    alloc: Global,
    book: Book<'p>,
    todo: Work,
    way: Way,
) -> Option<Book<'p>> {
    match Blank::new(alloc, 2) {
        Ok(blank) => at_desk_of::<Brand, R>(rt, alloc, blank, book, todo, way),
        Err(_) => None,
    }
}
