//! Calls of a book to which memory is refused: the book is then as it was, what was handed in comes back, and the same call, made again,
//! leaves the book as one to which nothing is refused.

use crate::fixtures::{End, are_alike, cut_at, grows, is_made, small, stretch_of};
use cover_problem::Problem;
use drawn_books::{is_ended, lease_in, lease_of};
use drawn_problems::state_of;
use lab_book::{Book, BookFault, Lease};
use std::alloc::Global;
use std::test::Fail;
use x_branches::{Cut, Stretch};
use x_steps::{Cursor, Label, Refused, State};

/// What worker 3 asks of a book: under the lease of its only tile, where a call takes one.
#[derive(Clone, Copy)]
enum Ask {
    Lease,
    Post,
    Split,
    Retract,
    PutBack,
}

/// A call with what it is handed.
#[derive(Drop)]
enum Call<'p> {
    Lease,
    Post(Stretch<'p>),
    Split(Cut<'p>),
    Retract,
    PutBack(State),
}

/// What comes of the first try of a call that is handed something to keep.
#[derive(Drop)]
enum Tried<V, G> {
    Made(V),
    /// Memory was refused to it, and this came back.
    GivenBack(G),
    /// It was refused otherwise.
    Refused,
}

/// What comes of such a try.
fn outcome_of<V: Drop, G: Drop>(answer: Result<V, Refused<BookFault, G>>) -> Tried<V, G> {
    match answer {
        Ok(value) => Tried::Made(value),
        Err(
            Refused {
                fault: BookFault::OutOfMemory,
                given,
            },
        ) => Tried::GivenBack(given),
        Err(_) => Tried::Refused,
    }
}

/// Lets the tile go where it is to be put back; answers whether it could.
fn ends(book: &mut Book<'_>, lease: Lease, ask: Ask) -> bool {
    let Ask::PutBack = ask else {
        lease.discard();
        return true;
    };
    is_ended(book.park(lease))
}

/// Posts so many steps that begin so many steps after X1; false where it can't.
fn posts(alloc: Global, book: &mut Book<'_>, lease: &Lease, from: u32, steps: u32) -> bool {
    match stretch_of(alloc, book.problem(), from, steps) {
        Some(stretch) => is_made(book.post(lease, stretch)),
        None => false,
    }
}

/// Posts five steps to the tile, and where it is to be put back 20 more.
fn posts_steps(alloc: Global, book: &mut Book<'_>, lease: &Lease, ask: Ask) -> bool {
    if !posts(alloc, book, lease, 0, 5) {
        return false;
    }
    match ask {
        Ask::PutBack => posts(alloc, book, lease, 5, 20),
        _ => true,
    }
}

/// The first lease that worker 3 has of a new book's tile; it serves each book of the problem in which that tile was leased so.
fn lease_in_new(book: &mut Book<'_>) -> Option<Lease> {
    match book.lease(3, 0) {
        Ok(leased) => Some(lease_in(leased)),
        Err(_) => None,
    }
}

/// Does what is done before the call of a new book.
fn begins(alloc: Global, book: &mut Book<'_>, ask: Ask) -> bool {
    if let Ask::Lease = ask {
        return true;
    }
    let Some(lease) = lease_in_new(book) else {
        return false;
    };
    let is_posted = posts_steps(alloc, book, &lease, ask);
    ends(book, lease, ask) && is_posted
}

/// A book, if that was done to it.
fn done(book: Book<'_>, is_done: bool) -> Option<Book<'_>> {
    if is_done { Some(book) } else { None }
}

/// A book as it is before the call.
fn begun<'p>(alloc: Global, problem: &'p Problem, ask: Ask) -> Option<Book<'p>> {
    let Ok(mut book) = Book::new(alloc, problem) else {
        return None;
    };
    let is_begun = begins(alloc, &mut book, ask);
    done(book, is_begun)
}

/// Whether a book is as it was before the call.
fn is_left(alloc: Global, book: &Book<'_>, ask: Ask) -> bool {
    match begun(alloc, book.problem(), ask) {
        Some(before) => are_alike(book, &before),
        None => false,
    }
}

/// Whether a post is made, on a second try where the first is refused.
fn is_posted<'p>(alloc: Global, book: &mut Book<'p>, lease: &Lease, stretch: Stretch<'p>) -> bool {
    match outcome_of(book.post(lease, stretch)) {
        Tried::Made(_) => true,
        Tried::GivenBack(stretch) => {
            is_left(alloc, book, Ask::Post) && is_made(book.post(lease, stretch))
        }
        Tried::Refused => false,
    }
}

/// The same of a split at a cut.
fn is_split<'p>(alloc: Global, book: &mut Book<'p>, lease: &Lease, cut: Cut<'p>) -> bool {
    match outcome_of(book.split(lease, cut)) {
        Tried::Made(id) => id == 1,
        Tried::GivenBack(cut) => {
            is_left(alloc, book, Ask::Split) && is_made(book.split(lease, cut))
        }
        Tried::Refused => false,
    }
}

/// Leases the tile: whether that is answered as it should be; or why it is refused.
fn leases(book: &mut Book<'_>) -> Result<bool, BookFault> {
    match lease_of(book.lease(3, 0)) {
        Ok(lease) => {
            lease.discard();
            Ok(true)
        }
        Err(fault) => Err(fault),
    }
}

/// The same of a retraction: the last stretch has five steps.
fn retracts(book: &mut Book<'_>, lease: &Lease) -> Result<bool, BookFault> {
    match book.retract(lease) {
        Ok(stretch) => Ok(stretch.steps() == 5),
        Err(fault) => Err(fault),
    }
}

/// The same of the way back to a state.
fn puts_back(book: &mut Book<'_>, state: &State) -> Result<bool, BookFault> {
    match book.put_back(3, 0, state) {
        Ok(()) => Ok(true),
        Err(fault) => Err(fault),
    }
}

/// Makes a call that is handed nothing to keep.
fn answers(book: &mut Book<'_>, lease: &Lease, call: &Call<'_>) -> Result<bool, BookFault> {
    match call {
        Call::Lease => leases(book),
        Call::Retract => retracts(book, lease),
        Call::PutBack(state) => puts_back(book, state),
        _ => Ok(false),
    }
}

/// Whether an answer is as it should be.
fn is_right(answer: Result<bool, BookFault>) -> bool {
    match answer {
        Ok(is_right) => is_right,
        Err(_) => false,
    }
}

/// Whether a call was refused for want of memory, and left the book as it was.
fn is_refused(alloc: Global, book: &Book<'_>, ask: Ask, fault: &BookFault) -> bool {
    fault.same(&BookFault::OutOfMemory) && is_left(alloc, book, ask)
}

/// Whether such a call is answered as it should be, on a second try where the first is refused.
fn is_answered(
    alloc: Global,
    book: &mut Book<'_>,
    lease: &Lease,
    ask: Ask,
    call: &Call<'_>,
) -> bool {
    match answers(book, lease, call) {
        Ok(is_right) => is_right,
        Err(fault) => {
            is_refused(alloc, book, ask, &fault) && is_right(answers(book, lease, call))
        }
    }
}

/// The call, with what it is handed: the steps up to the visit, the cut 4, or the state that the first stretch led to.
fn call_of<'p>(alloc: Global, problem: &'p Problem, ask: Ask) -> Option<Call<'p>> {
    match ask {
        Ask::Lease => Some(Call::Lease),
        Ask::Post => match stretch_of(alloc, problem, 5, 25) {
            Some(stretch) => Some(Call::Post(stretch)),
            None => None,
        },
        Ask::Split => match cut_at(alloc, problem, 4) {
            Some(cut) => Some(Call::Split(cut)),
            None => None,
        },
        Ask::Retract => Some(Call::Retract),
        Ask::PutBack => match state_of(alloc, Label::X2, &[2], Cursor::None) {
            Ok(state) => Some(Call::PutBack(state)),
            Err(_) => None,
        },
    }
}

/// How a call ends, if there is one.
fn end_of<'p>(
    alloc: Global,
    book: &mut Book<'p>,
    lease: &Lease,
    ask: Ask,
    call: Option<Call<'p>>,
) -> End {
    match call {
        Some(Call::Post(stretch)) => End::of(is_posted(alloc, book, lease, stretch)),
        Some(Call::Split(cut)) => End::of(is_split(alloc, book, lease, cut)),
        Some(call) => End::of(is_answered(alloc, book, lease, ask, &call)),
        None => End::Unset,
    }
}

/// How it ends behind one growth, which tells where the call begins.
fn end_behind(alloc: Global, book: &mut Book<'_>, lease: &Lease, ask: Ask) -> End {
    let call = call_of(alloc, book.problem(), ask);
    if grows(alloc) {
        end_of(alloc, book, lease, ask, call)
    } else {
        End::Unready
    }
}

/// How the same call of two books that are alike ends, which has to leave them alike. Memory is refused to the second one alone.
fn end_alike(
    alloc: Global,
    twin: &mut Book<'_>,
    book: &mut Book<'_>,
    lease: &Lease,
    ask: Ask,
) -> End {
    let call = call_of(alloc, twin.problem(), ask);
    let first = end_of(alloc, twin, lease, ask, call);
    if first != End::Right {
        return first;
    }
    let second = end_behind(alloc, book, lease, ask);
    if second == End::Right && !are_alike(book, twin) {
        return End::Wrong;
    }
    second
}

/// The same where the second one is made here.
fn end_beside(alloc: Global, twin: &mut Book<'_>, lease: &Lease, ask: Ask) -> End {
    match begun(alloc, twin.problem(), ask) {
        Some(mut book) => end_alike(alloc, twin, &mut book, lease, ask),
        None => End::Unset,
    }
}

/// The same where the first one is made here, too.
fn end_under(alloc: Global, problem: &Problem, lease: &Lease, ask: Ask) -> End {
    match begun(alloc, problem, ask) {
        Some(mut twin) => end_beside(alloc, &mut twin, lease, ask),
        None => End::Unset,
    }
}

/// The first lease of a problem's book.
fn first_lease(alloc: Global, problem: &Problem) -> Option<Lease> {
    match Book::new(alloc, problem) {
        Ok(mut book) => lease_in_new(&mut book),
        Err(_) => None,
    }
}

/// The same under that lease.
fn end_in(alloc: Global, problem: &Problem, ask: Ask) -> End {
    let Some(lease) = first_lease(alloc, problem) else {
        return End::Unset;
    };
    let end = end_under(alloc, problem, &lease, ask);
    lease.discard();
    end
}

/// Whether that ends right in the small problem.
fn is_asked(alloc: Global, ask: Ask) -> Result<bool, Fail> {
    let end = match small(alloc) {
        Some(problem) => end_in(alloc, &problem, ask),
        None => End::Unset,
    };
    end.is_right()
}

#[test]
fn a_refused_lease_leaves_the_book(rt: HostRuntime) -> Result<(), Fail> {
    assert!(rt; is_asked(rt.alloc(), Ask::Lease)?);
    Ok(())
}

#[test]
fn a_refused_post_gives_its_stretch_back(rt: HostRuntime) -> Result<(), Fail> {
    assert!(rt; is_asked(rt.alloc(), Ask::Post)?);
    Ok(())
}

#[test]
fn a_refused_split_gives_its_cut_back(rt: HostRuntime) -> Result<(), Fail> {
    assert!(rt; is_asked(rt.alloc(), Ask::Split)?);
    Ok(())
}

#[test]
fn a_refused_retraction_leaves_the_stretch(rt: HostRuntime) -> Result<(), Fail> {
    assert!(rt; is_asked(rt.alloc(), Ask::Retract)?);
    Ok(())
}

#[test]
fn a_tile_is_not_put_back_without_memory(rt: HostRuntime) -> Result<(), Fail> {
    assert!(rt; is_asked(rt.alloc(), Ask::PutBack)?);
    Ok(())
}
