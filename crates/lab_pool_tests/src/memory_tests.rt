//! A desk to which memory is refused: blank and book come back, the book as it was, and the same desk is made of them then. And a pool
//! to which it is refused: it hands out its book, with no tile leased, and the rest is searched then.
//! `dev/do check_memory` runs these tests with one growth refused, each growth in turn.
ghost use Rattle.std.specs.Prelude.{◌≡◌, IfSome};

use crate::books::{Start, begins_with, book_of, has_counts};
use crate::desks::has_number;
use crate::dominoes::{add_dominoes, has_dominoes};
use crate::pools::{finished_under, run_on};
use cover_bits::BitTable;
use cover_problem::{Problem, read_cover};
use drawn_books::has_tiles;
use drawn_problems::SMALL;
use lab_book::Book;
use lab_desk::{Blank, Desk, Desking, Seat};
use lab_pool::{NoGate, PoolFault, run_pool};
use std::alloc::Global;
use std::marker::Brand;
use std::sync::Wait;
use std::test::Fail;
use std::thread::Threads;
use x_steps::Refused;

/// How a test ends.
#[derive(Clone, Copy)]
enum End {
    Right,
    Wrong,
    /// Memory is refused to what is made before the call.
    Unset,
    /// It is refused to the one growth right before the call.
    Unready,
}

impl End {
    /// Right where this is so, and wrong where it isn't.
    fn of(is_right: bool) -> End {
        if is_right { End::Right } else { End::Wrong }
    }

    /// Whether it is right; told as an error where the call isn't made.
    fn is_right(self) -> Result<bool, Fail> {
        match self {
            End::Right => Ok(true),
            End::Wrong => Ok(false),
            End::Unset => Err(Fail::from("refused in the setting")),
            End::Unready => Err(Fail::from("refused before the call")),
        }
    }
}

/// One growth: those before it are a setting's, those after it the call's.
fn grows(alloc: Global) -> bool {
    vec![in alloc; 0u8; 1].is_ok()
}

/// Whether a book is as another one.
fn is_as_before(book: &Book<'_>, copy: &Book<'_>) -> bool {
    has_tiles(book, copy.tiles()) && begins_with(book, copy) && begins_with(copy, book)
}

/// Whether a desk has two seats, 0 and 1.
fn has_two<L: Desking>(desk: &Desk<'_, L>, seats: &[Seat<L>]) -> bool {
    desk.seats() == 2
        && seats.len() == 2
        && has_number(seats.first(), 0)
        && has_number(seats.last(), 1)
}

/// Whether a desk is made.
fn is_made<'p, L: Desking>(made: Result<(Desk<'p, L>, Vec<Seat<L>>), (Blank, Book<'p>)>) -> bool {
    match made {
        Ok((desk, seats)) => has_two(&desk, &seats),
        Err(_) => false,
    }
}

/// Whether a desk of this name is made of a book, on a second try where the first is refused.
fn is_made_again<'p, L: Desking>(
    alloc: Global,
    blank: Blank,
    book: Book<'p>,
    copy: &Book<'p>,
) -> bool
    requires name { blank.name ≡ L.table }
    requires parts { (blank.parts ≡ L.parts) × (blank.parts ≡ 2) }
    requires opening { book.history ≡ L.opening }
    requires whole { book.problem ≡ L.whole }
    requires part { book.branch ≡ L.part }
    requires begin { book.first ≡ L.begin }
{
    match Desk::<L>::new(alloc, blank, book, 2) {
        Ok((desk, seats)) => has_two(&desk, &seats),
        Err((blank, book)) => {
            let is_back = is_as_before(&book, copy);
            is_made(Desk::<L>::new(alloc, blank, book, 2)) && is_back
        }
    }
}

/// A blank for two seats, on a second try where the first is refused.
fn blank_of_two(alloc: Global) -> Option<Blank>
    ensures { IfSome result (λ b. b.parts ≡ 2) }
{
    match Blank::new(alloc, 2) {
        Ok(blank) => Some(blank),
        Err(_) => Blank::new(alloc, 2).ok(),
    }
}

/// The same of a desk of two seats.
fn is_desk_made<'p>(alloc: Global, book: Book<'p>, copy: &Book<'p>) -> bool {
    match blank_of_two(alloc) {
        Some(blank) => is_made_again::<Brand>(alloc, blank, book, copy),
        None => false,
    }
}

/// How a test of such a desk ends, behind one growth.
fn end_behind<'p>(alloc: Global, book: Book<'p>, copy: &Book<'p>) -> End {
    if grows(alloc) {
        End::of(is_desk_made(alloc, book, copy))
    } else {
        End::Unready
    }
}

/// The same of the book in which 30 steps are posted, as in this one.
fn end_beside(alloc: Global, copy: &Book<'_>) -> End {
    match book_of(alloc, copy.problem(), Start::Begun) {
        Some(book) => end_behind(alloc, book, copy),
        None => End::Unset,
    }
}

/// The same where the other book is made here.
fn desk_end(alloc: Global, problem: &Problem) -> End {
    match book_of(alloc, problem, Start::Begun) {
        Some(copy) => end_beside(alloc, &copy),
        None => End::Unset,
    }
}

/// What a pool searches here, and with how many workers.
#[derive(Clone, Copy)]
enum Run {
    /// The small problem, with one.
    Small,
    /// Five dominoes in the box 5 2 1, with two.
    Dominoes,
}

impl Run {
    fn workers(self) -> u32 {
        match self {
            Run::Small => 1,
            Run::Dominoes => 2,
        }
    }

    /// Whether a book is finished, with the problem's visits and steps. It takes no memory to tell.
    fn is_finished(self, book: &Book<'_>) -> bool {
        let has_all = match self {
            Run::Small => has_counts(book, 1, 43),
            Run::Dominoes => has_dominoes(book),
        };
        book.finished() && has_all
    }
}

/// Whether the workers left a book that is finished.
fn is_left_finished(left: Option<(u8, Book<'_>)>, run: Run) -> bool {
    match left {
        Some((end, book)) => end == 0 && run.is_finished(&book),
        None => false,
    }
}

/// Whether they finish a book.
fn finishes_on<R: Threads + Wait + Sync>(rt: &R, alloc: Global, book: Book<'_>, run: Run) -> bool {
    is_left_finished(run_on(rt, alloc, book, run.workers()), run)
}

/// Whether a book is there, and is finished.
fn is_there_finished(book: Option<Book<'_>>, run: Run) -> bool {
    match book {
        Some(book) => run.is_finished(&book),
        None => false,
    }
}

/// Whether they finish that problem's run.
fn finishes<R: Threads + Wait + Sync>(rt: &R, alloc: Global, problem: &Problem, run: Run) -> bool {
    let left = finished_under::<BitTable, R, _>(rt, alloc, problem, run.workers(), &NoGate);
    is_there_finished(left, run)
}

/// Whether they do after a refusal, with the book that came back, or with none where there was no memory for one.
fn finishes_given<R: Threads + Wait + Sync>(
    rt: &R,
    alloc: Global,
    problem: &Problem,
    refused: Refused<PoolFault, Option<Book<'_>>>,
    run: Run,
) -> bool {
    let Refused { fault, given } = refused;
    let is_memory = fault == PoolFault::OutOfMemory;
    match given {
        Some(book) => is_memory && finishes_on(rt, alloc, book, run),
        None => is_memory && finishes(rt, alloc, problem, run),
    }
}

/// Whether they do, on a second try where the first is refused.
fn finishes_again<R: Threads + Wait + Sync>(
    rt: &R,
    alloc: Global,
    problem: &Problem,
    run: Run,
) -> bool {
    match run_pool::<BitTable, _, _>(rt, alloc, problem, run.workers(), &NoGate) {
        Ok(book) => run.is_finished(&book),
        Err(refused) => finishes_given(rt, alloc, problem, refused, run),
    }
}

/// How a test of such a pool ends, behind one growth.
fn pool_end<R: Threads + Wait + Sync>(rt: &R, alloc: Global, problem: &Problem, run: Run) -> End {
    if grows(alloc) {
        End::of(finishes_again(rt, alloc, problem, run))
    } else {
        End::Unready
    }
}

/// How a test of a pool of the dominoes ends, whose text this is.
fn text_end<R: Threads + Wait + Sync>(rt: &R, alloc: Global, text: &str) -> End {
    match read_cover(alloc, text.as_bytes()) {
        Ok(problem) => pool_end(rt, alloc, &problem, Run::Dominoes),
        Err(_) => End::Unset,
    }
}

/// The same where the text is put together here.
fn dominoes_end<R: Threads + Wait + Sync>(rt: &R, alloc: Global) -> End {
    let mut text = String::new(alloc);
    if add_dominoes(&mut text) {
        text_end(rt, alloc, &text)
    } else {
        End::Unset
    }
}

/// How a test of a desk or a pool of the small problem ends.
fn small_end<R: Threads + Wait + Sync>(rt: &R, alloc: Global, is_pool: bool) -> End {
    let Ok(problem) = read_cover(alloc, SMALL.as_bytes()) else {
        return End::Unset;
    };
    if is_pool {
        pool_end(rt, alloc, &problem, Run::Small)
    } else {
        desk_end(alloc, &problem)
    }
}

#[test]
fn a_refused_desk_gives_its_book_back(rt: HostRuntime) -> Result<(), Fail> {
    assert!(rt; small_end(&rt, rt.alloc(), false).is_right()?);
    Ok(())
}

#[test]
fn a_refused_pool_gives_its_book_back(rt: HostRuntime) -> Result<(), Fail> {
    assert!(rt; small_end(&rt, rt.alloc(), true).is_right()?);
    Ok(())
}

#[test]
fn a_refused_pool_of_two_gives_its_book_back(rt: HostRuntime) -> Result<(), Fail> {
    assert!(rt; dominoes_end(&rt, rt.alloc()).is_right()?);
    Ok(())
}
