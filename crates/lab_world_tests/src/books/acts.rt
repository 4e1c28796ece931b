//! Calls of a book as rows of a table, each answered by the number of its refusal.

use crate::fixtures::{cut_at, whole};
use cover_problem::{PlainTable, Problem};
use drawn_books::{advance, ended, lease_of};
use lab_book::{Book, BookFault, Lease, Leased};
use std::alloc::Global;
use x_branches::{Cut, Runner, Stretch};
use x_steps::Refused;

/// Another problem than the small one: an item and two options.
pub const OTHER: &[u8] = b"items a\noption a\noption a";

/// A lease, current or not: a tile's id, a worker, and an entry.
pub type Given = (u64, u8, u64);

/// One call. A stretch is named by how many steps of the run lead to it and how many it has (of another problem's run as many as there
/// are), a state by how many lead to it, and a cut by its one choice.
#[derive(Clone, Copy)]
pub enum Act {
    Lease(u8, u64),
    LeaseAny(u8),
    TakeHeld(u8, u64),
    Post(Given, u32, u32),
    PostForeign(Given, u32, u32),
    Split(Given, u32),
    SplitForeign(Given, u32),
    Retract(Given),
    Close(Given),
    Abandon(Given),
    Park(Given),
    RequestStop(u8, u64),
    PutBack(u8, u64, u32),
}

/// The number of a refusal, or 0.
fn number<V: Drop>(answer: Result<V, BookFault>) -> Option<u8> {
    match answer {
        Ok(_) => Some(0),
        Err(fault) => fault.number(),
    }
}

/// The same of a refusal that gives back what was handed in.
fn number_of<V: Drop, G: Drop>(answer: Result<V, Refused<BookFault, G>>) -> Option<u8> {
    match answer {
        Ok(_) => Some(0),
        Err(Refused { fault, given: _ }) => fault.number(),
    }
}

/// The number of a refusal of a lease, or 0.
fn leased(answer: Result<Leased<'_>, BookFault>) -> Option<u8> {
    match lease_of(answer) {
        Ok(lease) => {
            lease.discard();
            Some(0)
        }
        Err(fault) => fault.number(),
    }
}

/// Leases any tile.
fn lease_any(book: &mut Book<'_>, worker: u8) -> Option<u8> {
    match book.lease_any(worker % 32) {
        Ok(Some(given)) => leased(Ok(given)),
        Ok(None) => Some(0),
        Err(_) => None,
    }
}

/// A worker's lease of a tile, which has to be given.
fn given_lease(book: &mut Book<'_>, worker: u8, id: u64) -> Option<Lease> {
    match lease_of(book.lease(worker % 32, id)) {
        Ok(lease) => Some(lease),
        Err(_) => None,
    }
}

/// Posts a stretch, if there is one.
fn post<'p>(book: &mut Book<'p>, lease: &Lease, stretch: Option<Stretch<'p>>) -> Option<u8> {
    match stretch {
        Some(stretch) => number_of(book.post(lease, stretch)),
        None => None,
    }
}

/// Splits a tile at a cut, if there is one.
fn split<'p>(book: &mut Book<'p>, lease: &Lease, cut: Option<Cut<'p>>) -> Option<u8> {
    match cut {
        Some(cut) => number_of(book.split(lease, cut)),
        None => None,
    }
}

/// Splits a tile at the cut 2, and for an id above 1 at the cut 1; false where it can't.
fn part<'p>(
    alloc: Global,
    problem: &'p Problem,
    book: &mut Book<'p>,
    lease: &Lease,
    id: u64,
) -> bool {
    if split(book, lease, cut_at(alloc, problem, 2)) != Some(0) {
        return false;
    }
    id == 1 || split(book, lease, cut_at(alloc, problem, 1)) == Some(0)
}

/// Splits the first tile so often that there is a tile of this id, 1 or 2 at the most; the run of the problem has these cuts.
fn make_tiles<'p>(alloc: Global, problem: &'p Problem, book: &mut Book<'p>, id: u64) -> bool {
    if id == 0 {
        return true;
    }
    let Some(lease) = given_lease(book, 0, 0) else {
        return false;
    };
    let are_made = part(alloc, problem, book, &lease, id);
    lease.discard();
    are_made
}

/// The lease of these parts that a new book gives: refused calls add entries until the next one is that which the lease names.
fn lease_of_new<'p>(
    alloc: Global,
    problem: &'p Problem,
    book: &mut Book<'p>,
    given: Given,
) -> Option<Lease> {
    let (id, worker, index) = given;
    if !make_tiles(alloc, problem, book, id) {
        return None;
    }
    for _ in book.history().len() as u64..index {
        let _refused = book.request_stop(0, 99);
    }
    given_lease(book, worker, id)
}

/// The lease of these parts, whether or not the tested book gave it: a second book, of this problem, gives it.
fn lease(alloc: Global, problem: &Problem, given: Given) -> Option<Lease> {
    let Ok(mut book) = Book::new(alloc, problem) else {
        return None;
    };
    lease_of_new(alloc, problem, &mut book, given)
}

/// Takes so many steps, and hands out so many others behind them: all of them, or as far as there are any.
fn walked_behind<'p>(
    runner: &mut Runner<'p, PlainTable>,
    from: u32,
    steps: u32,
    are_all: bool,
) -> Option<Stretch<'p>> {
    let is_there = advance(runner, from).is_ok();
    if runner.take_stretch().is_err() {
        return None;
    }
    let is_behind = advance(runner, steps).is_ok();
    if are_all && !(is_there && is_behind) {
        return None;
    }
    match runner.take_stretch() {
        Ok(stretch) => Some(stretch),
        Err(_) => None,
    }
}

/// The stretch of so many steps that begins so many steps after X1: of all of them, or as far as there are any.
fn stretch_of<'p>(
    alloc: Global,
    problem: &'p Problem,
    from: u32,
    steps: u32,
    are_all: bool,
) -> Option<Stretch<'p>> {
    match whole(alloc, problem) {
        Some(mut runner) => walked_behind(&mut runner, from, steps, are_all),
        None => None,
    }
}

/// Puts a tile back to the state to which so many steps lead.
fn put_back_after(
    runner: &mut Runner<'_, PlainTable>,
    book: &mut Book<'_>,
    worker: u8,
    id: u64,
    steps: u32,
) -> Option<u8> {
    if advance(runner, steps).is_err() {
        return None;
    }
    number(book.put_back(worker % 32, id, runner.state()))
}

/// Puts a tile back to the state after so many steps of the run.
fn put_back(alloc: Global, book: &mut Book<'_>, worker: u8, id: u64, steps: u32) -> Option<u8> {
    match whole(alloc, book.problem()) {
        Some(mut runner) => put_back_after(&mut runner, book, worker, id, steps),
        None => None,
    }
}

/// Makes a call that takes no lease.
fn make_free(alloc: Global, book: &mut Book<'_>, act: Act) -> Option<u8> {
    match act {
        Act::Lease(worker, id) => leased(book.lease(worker % 32, id)),
        Act::LeaseAny(worker) => lease_any(book, worker),
        Act::TakeHeld(worker, id) => leased(book.take_held(worker % 32, id)),
        Act::RequestStop(worker, id) => number(book.request_stop(worker % 32, id)),
        Act::PutBack(worker, id, steps) => put_back(alloc, book, worker, id, steps),
        _ => None,
    }
}

/// Makes a call that a lease outlasts.
fn make_lent<'p>(
    alloc: Global,
    other: &'p Problem,
    book: &mut Book<'p>,
    lease: &Lease,
    act: Act,
) -> Option<u8> {
    let problem = book.problem();
    match act {
        Act::Post(_, from, steps) => {
            post(book, lease, stretch_of(alloc, problem, from, steps, true))
        }
        Act::PostForeign(_, from, steps) => {
            post(book, lease, stretch_of(alloc, other, from, steps, false))
        }
        Act::Split(_, choice) => split(book, lease, cut_at(alloc, problem, choice)),
        Act::SplitForeign(_, choice) => split(book, lease, cut_at(alloc, other, choice)),
        Act::Retract(_) => number(book.retract(lease)),
        _ => None,
    }
}

/// Makes a call under a lease, if there is one.
fn make_under<'p>(
    alloc: Global,
    other: &'p Problem,
    book: &mut Book<'p>,
    lease: Option<Lease>,
    act: Act,
) -> Option<u8> {
    let Some(lease) = lease else {
        return None;
    };
    match act {
        Act::Close(_) => ended(book.close(lease)),
        Act::Abandon(_) => ended(book.abandon(lease)),
        Act::Park(_) => ended(book.park(lease)),
        _ => {
            let answer = make_lent(alloc, other, book, &lease, act);
            lease.discard();
            answer
        }
    }
}

/// Makes a call: the number of the refusal, or 0; none where memory runs out. Leases are those of a new book of the other problem.
pub fn make<'p>(alloc: Global, other: &'p Problem, book: &mut Book<'p>, act: Act) -> Option<u8> {
    match act {
        Act::Post(given, _, _)
        | Act::PostForeign(given, _, _)
        | Act::Split(given, _)
        | Act::SplitForeign(given, _)
        | Act::Retract(given)
        | Act::Close(given)
        | Act::Abandon(given)
        | Act::Park(given) => make_under(alloc, other, book, lease(alloc, other, given), act),
        _ => make_free(alloc, book, act),
    }
}
