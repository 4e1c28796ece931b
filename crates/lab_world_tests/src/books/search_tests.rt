//! Searches of a book's tile by one runner, call by call: what is posted twice, taken out, beyond the tile's end, or by the lease of
//! another book.

use crate::asked::{Asked, is_so_in_small};
use crate::fixtures::{cut_at, whole};
use cover_problem::PlainTable;
use drawn_books::{advance, has_tiles, is_ended, lease_in, tiles_of};
use lab_book::{Book, BookFault, Lease};
use std::alloc::Global;
use x_branches::{Cut, Runner, Stretch};
use x_steps::{Cursor, Label, State};

/// What a call of the book is answered.
#[derive(Clone, Copy)]
enum Answer {
    Done,
    /// It is refused with this number.
    Refused(u8),
    /// The lease or the stretch is stale; the tile's mark is this step after these choices.
    Stale(Label, &'static [u32]),
}

/// What a search does, and what it has to be answered.
#[derive(Clone, Copy)]
enum Row {
    /// So many steps on.
    Advances(u32),
    /// So many steps back.
    Retreats(u32),
    /// It stands at X2 after these choices.
    Enters(&'static [u32]),
    /// What was walked is posted, and a copy is kept.
    Posts(Answer),
    /// The copy is posted.
    PostsAgain(Answer),
    /// What was posted last is taken out: it is what was kept.
    Retracts(Answer),
    /// What is kept is joined to what the runner walks.
    Reopens,
    /// The tile is split at the cut of this one choice.
    Splits(u32, Answer),
    /// So many steps and visits are posted.
    HasPosted(u128, u128),
}

/// Whether a state has no cursor, and this label and these choices.
fn is_at(state: &State, label: Label, path: &[u32]) -> bool {
    state.label == label && state.path.as_slice() == path && state.cursor == Cursor::None
}

/// Whether a lease or a stretch is stale, and the tile's mark is this step after these choices.
fn is_stale(fault: &BookFault, label: Label, path: &[u32]) -> bool {
    match fault {
        BookFault::StaleLease(mark) => is_at(mark.state(), label, path),
        _ => false,
    }
}

impl Answer {
    /// Whether it is no refusal.
    fn is_done(self) -> bool {
        matches!(self, Answer::Done)
    }

    /// Whether it is this refusal.
    fn is(self, fault: &BookFault) -> bool {
        match self {
            Answer::Done => false,
            Answer::Refused(number) => fault.number() == Some(number),
            Answer::Stale(label, path) => is_stale(fault, label, path),
        }
    }
}

/// Whether a post is answered so; where it is refused, its stretch has to come back.
fn is_posted<'p>(
    book: &mut Book<'p>,
    lease: &Lease,
    stretch: Stretch<'p>,
    copy: &Stretch<'p>,
    answer: Answer,
) -> bool {
    match book.post(lease, stretch) {
        Ok(_) => answer.is_done(),
        Err(refused) => refused.given.same(copy) && answer.is(&refused.fault),
    }
}

/// Whether a split at the cut of one choice is answered so; where it is refused, the cut has to come back.
fn is_split_at<'p>(
    book: &mut Book<'p>,
    lease: &Lease,
    cut: Cut<'p>,
    option: u32,
    answer: Answer,
) -> bool {
    match book.split(lease, cut) {
        Ok(_) => answer.is_done(),
        Err(refused) => { refused.given.path() == [option].as_slice() && answer.is(&refused.fault) }
    }
}

/// The same where the cut is made here.
fn is_split(
    alloc: Global,
    book: &mut Book<'_>,
    lease: &Lease,
    option: u32,
    answer: Answer,
) -> bool {
    match cut_at(alloc, book.problem(), option) {
        Some(cut) => is_split_at(book, lease, cut, option, answer),
        None => false,
    }
}

/// A runner of the whole run, and the stretch that was posted or taken out last.
#[derive(Drop)]
struct Search<'p> {
    runner: Runner<'p, PlainTable>,
    kept: Option<Stretch<'p>>,
}

impl<'p> Search<'p> {
    /// Posts a stretch, and keeps a copy: whether it is answered so.
    fn post_it(
        &mut self,
        book: &mut Book<'p>,
        lease: &Lease,
        stretch: Stretch<'p>,
        answer: Answer,
    ) -> bool {
        let Ok(copy) = stretch.copy() else {
            return false;
        };
        let is_right = is_posted(book, lease, stretch, &copy, answer);
        self.kept = Some(copy);
        is_right
    }

    /// Posts what was walked.
    fn post(&mut self, book: &mut Book<'p>, lease: &Lease, answer: Answer) -> bool {
        match self.runner.take_stretch() {
            Ok(stretch) => self.post_it(book, lease, stretch, answer),
            Err(_) => false,
        }
    }

    /// Posts what is kept.
    fn post_again(&mut self, book: &mut Book<'p>, lease: &Lease, answer: Answer) -> bool {
        match self.kept.take() {
            Some(stretch) => self.post_it(book, lease, stretch, answer),
            None => false,
        }
    }

    /// Keeps a stretch, which has to be the one that is kept.
    fn keep_again(&mut self, stretch: Stretch<'p>) -> bool {
        let is_kept = match &self.kept {
            Some(kept) => kept.same(&stretch),
            None => false,
        };
        self.kept = Some(stretch);
        is_kept
    }

    /// Takes out what was posted last, which is what is kept: whether it is answered so.
    fn retract(&mut self, book: &mut Book<'p>, lease: &Lease, answer: Answer) -> bool {
        match book.retract(lease) {
            Ok(stretch) => self.keep_again(stretch) && answer.is_done(),
            Err(fault) => answer.is(&fault),
        }
    }

    /// Joins what is kept to what the runner walks.
    fn reopen(&mut self) -> bool {
        match self.kept.take() {
            Some(stretch) => self.runner.reopen(stretch).is_ok(),
            None => false,
        }
    }

    /// Takes so many steps back; false where one is refused.
    fn retreat(&mut self, steps: u32) -> bool {
        for _ in 0..steps {
            if self.runner.retreat().is_err() {
                return false;
            }
        }
        true
    }

    /// Takes so many steps, all of which there have to be.
    fn advance(&mut self, steps: u32) -> bool {
        let unposted = self.runner.unposted();
        let are_taken = advance(&mut self.runner, steps).is_ok();
        are_taken && self.runner.unposted() == unposted.wrapping_add(steps)
    }

    /// Whether a row holds.
    fn holds(&mut self, alloc: Global, book: &mut Book<'p>, lease: &Lease, row: Row) -> bool {
        match row {
            Row::Advances(steps) => self.advance(steps),
            Row::Retreats(steps) => self.retreat(steps),
            Row::Enters(path) => is_at(self.runner.state(), Label::X2, path),
            Row::Posts(answer) => self.post(book, lease, answer),
            Row::PostsAgain(answer) => self.post_again(book, lease, answer),
            Row::Retracts(answer) => self.retract(book, lease, answer),
            Row::Reopens => self.reopen(),
            Row::Splits(option, answer) => is_split(alloc, book, lease, option, answer),
            Row::HasPosted(steps, visits) => book.steps() == steps && book.visited() == visits,
        }
    }

    /// The same; what is refused leaves the tiles as they were.
    fn goes_on(&mut self, alloc: Global, book: &mut Book<'p>, lease: &Lease, row: Row) -> bool {
        let Ok(before) = tiles_of(alloc, book) else {
            return false;
        };
        self.holds(alloc, book, lease, row) && (!row.is_refused() || has_tiles(book, &before))
    }

    /// Whether rows hold so, one after another.
    fn all_hold(
        &mut self,
        alloc: Global,
        book: &mut Book<'p>,
        lease: &Lease,
        rows: &[Row],
    ) -> bool {
        for row in rows {
            if !self.goes_on(alloc, book, lease, *row) {
                return false;
            }
        }
        true
    }
}

impl Row {
    /// Whether the book refuses it.
    fn is_refused(self) -> bool {
        match self {
            Row::Posts(answer)
            | Row::PostsAgain(answer)
            | Row::Retracts(answer)
            | Row::Splits(_, answer) => !answer.is_done(),
            _ => false,
        }
    }
}

/// Whether rows hold of a new search of a book's tile under a lease.
fn searches(alloc: Global, book: &mut Book<'_>, lease: &Lease, rows: &[Row]) -> bool {
    let Some(runner) = whole(alloc, book.problem()) else {
        return false;
    };
    let mut search = Search { runner, kept: None };
    search.all_hold(alloc, book, lease, rows)
}

/// A worker's lease of any tile, which has to be given.
fn any_lease(book: &mut Book<'_>, worker: u8) -> Option<Lease> {
    match book.lease_any(worker % 32) {
        Ok(Some(leased)) => Some(lease_in(leased)),
        Ok(None) => None,
        Err(_) => None,
    }
}

/// Rows of a search, and whether its tile is closed then.
pub struct Play(&'static [Row], bool);

/// Whether rows hold of a search of a book's tile, and it is closed then, or isn't.
pub fn is_searched(alloc: Global, book: &mut Book<'_>, play: &Play) -> bool {
    let Some(lease) = any_lease(book, 0) else {
        return false;
    };
    let held = searches(alloc, book, &lease, play.0);
    let is_closed = is_ended(book.close(lease));
    held && is_closed == play.1
}

/// Five steps are posted, and again.
const TWICE: [Row; 4] = [
    Row::Advances(5),
    Row::Posts(Answer::Done),
    Row::PostsAgain(Answer::Stale(Label::X2, &[2])),
    Row::HasPosted(5, 0),
];

/// Thirty steps are posted and taken out, and one is taken back before the rest is posted.
const TAKEN_OUT: [Row; 11] = [
    Row::Advances(30),
    Row::Posts(Answer::Done),
    Row::HasPosted(30, 1),
    Row::Retracts(Answer::Done),
    Row::HasPosted(0, 0),
    Row::Retracts(Answer::Refused(9)),
    Row::Reopens,
    Row::Retreats(1),
    Row::Advances(14),
    Row::Posts(Answer::Done),
    Row::HasPosted(43, 1),
];

/// The tile is split at the cut 4, and its runner isn't told.
const BEYOND_THE_CUT: [Row; 7] = [
    Row::Advances(5),
    Row::Splits(4, Answer::Done),
    Row::Advances(16),
    Row::Enters(&[4]),
    Row::Posts(Answer::Refused(6)),
    Row::HasPosted(0, 0),
    Row::Splits(4, Answer::Refused(6)),
];

/// A cut that was passed.
const BEFORE_THE_MARK: [Row; 3] = [
    Row::Advances(5),
    Row::Posts(Answer::Done),
    Row::Splits(2, Answer::Refused(5)),
];

static SEARCHES: [Asked; 4] = [
    Asked::Search(Play(&TWICE, false)),
    Asked::Search(Play(&TAKEN_OUT, true)),
    Asked::Search(Play(&BEYOND_THE_CUT, false)),
    Asked::Search(Play(&BEFORE_THE_MARK, false)),
];

#[test]
fn a_search_is_answered_call_by_call(rt: HostRuntime) {
    for search in &SEARCHES {
        assert!(rt; is_so_in_small(rt.alloc(), search));
    }
}

/// Five steps are posted by the lease of another book.
static BY_ANOTHER_LEASE: [Row; 3] = [
    Row::Advances(5),
    Row::Posts(Answer::Stale(Label::X1, &[])),
    Row::HasPosted(0, 0),
];

/// Leases a book's tile to worker 1, which never ends it; false where none waits.
fn take_tile(book: &mut Book<'_>) -> bool {
    match any_lease(book, 1) {
        Some(lease) => {
            lease.discard();
            true
        }
        None => false,
    }
}

/// Whether rows hold of a search of a book by the lease of another one, which then parks the tile that it names there.
fn parks(alloc: Global, own: &mut Book<'_>, book: &mut Book<'_>, rows: &[Row]) -> bool {
    let Some(lease) = any_lease(own, 0) else {
        return false;
    };
    let held = searches(alloc, book, &lease, rows);
    let is_parked = is_ended(own.park(lease));
    held && is_parked
}

/// Whether the lease of another book, which is made here, is stale in a book, once a worker took its tile.
pub fn holds_other_leases_stale(alloc: Global, book: &mut Book<'_>) -> bool {
    let Ok(mut own) = Book::new(alloc, book.problem()) else {
        return false;
    };
    take_tile(book) && parks(alloc, &mut own, book, &BY_ANOTHER_LEASE)
}

#[test]
fn a_lease_of_another_book_is_stale(rt: HostRuntime) {
    assert!(rt; is_so_in_small(rt.alloc(), &Asked::OtherLease));
}
