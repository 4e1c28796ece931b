//! Searches of a leased tile, by calls of a desk or of a book.
ghost use Rattle.std.specs.Prelude.{◌≡◌, IfSome};

use cover_problem::{PlainTable, Problem};
use drawn_books::{advance, is_ended, runner_of, walked};
use lab_book::{Book, Lease, Leased, Posted};
use lab_desk::{Desk, Desking, Seat};
use std::alloc::Global;
use std::sync::Wait;
use x_branches::{Cut, Runner};

/// A lease, with a runner over its tile.
pub struct Search<'p> {
    pub lease: Lease,
    pub runner: Runner<'p, PlainTable>,
}

/// Begins where a lease says; if that fails, the lease is let go.
pub fn begin<'p>(alloc: Global, problem: &'p Problem, leased: Leased<'p>) -> Option<Search<'p>>
    ensures { IfSome result (λ s. s.lease ≡ leased.entry.lease) }
{
    let Leased {
        lease,
        branch,
        mark,
        waiting: _,
    } = leased;
    match runner_of(alloc, problem, branch, mark.state()) {
        Ok(runner) => Some(Search { lease, runner }),
        Err(_) => {
            lease.discard();
            None
        }
    }
}

/// The cut at an option of the first level, and a copy, after so many steps.
fn cut_twice<'p>(
    runner: &mut Runner<'p, PlainTable>,
    steps: u32,
    option: u32,
) -> Option<(Cut<'p>, Cut<'p>)> {
    advance(runner, steps).ok()?;
    let cut = runner.cut(0, option).ok()?;
    match cut.copy() {
        Ok(copy) => Some((cut, copy)),
        Err(_) => None,
    }
}

impl<'p> Search<'p> {
    /// Posts to a desk after so many steps.
    pub fn post<L: Desking, R: Wait>(
        &mut self,
        rt: &R,
        desk: &Desk<'p, L>,
        seat: &mut Seat<L>,
        steps: u32,
    ) -> Option<Posted>
        requires { self.old.lease.worker ≡ seat.old.number }
        ensures lease { self.new.lease ≡ self.old.lease }
        ensures number { seat.new.number ≡ seat.old.number }
    {
        let stretch = walked(&mut self.runner, steps).ok()?;
        desk.post(rt, seat, &self.lease, stretch).ok()
    }

    /// Splits at a desk after so many steps, at an option of the first level.
    pub fn split<L: Desking, R: Wait>(
        &mut self,
        rt: &R,
        desk: &Desk<'p, L>,
        seat: &mut Seat<L>,
        steps: u32,
        option: u32,
    ) -> Option<u64>
        requires { self.old.lease.worker ≡ seat.old.number }
        ensures lease { self.new.lease ≡ self.old.lease }
        ensures number { seat.new.number ≡ seat.old.number }
    {
        let (cut, copy) = cut_twice(&mut self.runner, steps, option)?;
        let id = desk.split(rt, seat, &self.lease, cut).ok();
        self.end_at(copy, id)
    }

    /// The id of the tile that was split off, once the runner's branch ends at the cut.
    fn end_at(&mut self, cut: Cut<'p>, id: Option<u64>) -> Option<u64>
        ensures { self.new.lease ≡ self.old.lease }
    {
        self.runner.shorten(cut).ok()?;
        id
    }

    /// Closes the tile at a desk; if that is refused, the lease is let go.
    pub fn close<L: Desking, R: Wait>(self, rt: &R, desk: &Desk<'p, L>, seat: &mut Seat<L>) -> bool
        requires { self.lease.worker ≡ seat.old.number }
        ensures number { seat.new.number ≡ seat.old.number }
    {
        let Search { lease, runner: _ } = self;
        is_ended(desk.close(rt, seat, lease))
    }

    /// Parks the tile at a desk; if that is refused, the lease is let go.
    pub fn park<L: Desking, R: Wait>(self, rt: &R, desk: &Desk<'p, L>, seat: &mut Seat<L>) -> bool
        requires { self.lease.worker ≡ seat.old.number }
        ensures number { seat.new.number ≡ seat.old.number }
    {
        let Search { lease, runner: _ } = self;
        is_ended(desk.park(rt, seat, lease))
    }

    /// Posts to a book after so many steps.
    pub fn post_to(&mut self, book: &mut Book<'p>, steps: u32) -> Option<Posted> {
        let stretch = walked(&mut self.runner, steps).ok()?;
        book.post(&self.lease, stretch).ok()
    }

    /// Splits in a book after so many steps, at an option of the first level.
    pub fn split_in(&mut self, book: &mut Book<'p>, steps: u32, option: u32) -> Option<u64> {
        let (cut, copy) = cut_twice(&mut self.runner, steps, option)?;
        let id = book.split(&self.lease, cut).ok();
        self.end_at(copy, id)
    }

    /// Closes the tile in a book, or else parks it; if that is refused, the lease is let go.
    pub fn end_in(self, book: &mut Book<'p>, closes: bool) -> bool {
        let Search { lease, runner: _ } = self;
        if closes {
            is_ended(book.close(lease))
        } else {
            is_ended(book.park(lease))
        }
    }
}
