//! A worker's search of the tile that it leased.
ghost use Rattle.std.specs.Prelude.{◌≡◌, ◌<◌, true, IfOk, IfSome};
ghost use Rattle.x_steps.specs.StateValue.{start};
ghost use Rattle.x_branches.specs.Branch.{whole_run};
ghost use Rattle.x_branches.specs.Runner.{runner_at};
ghost use Rattle.x_branches.specs.Refusals.{CanShorten};
ghost use Rattle.lab_book.specs.Calls.{CanBeSearched};
ghost use Rattle.lab_desk.specs.Record.{holds};
ghost use Rattle.lab_pool.specs.Worker.{ending_for, next_after, runner_for, EndsTile, KeepsSeat};

use crate::gate::Gate;
use crate::station::Station;
use cover_problem::{Problem, Table};
use lab_book::{BookFault, Ending, Lease, Leased};
use lab_desk::Desking;
use std::alloc::{AllocError, Global};
use std::sync::Wait;
use x_branches::{Branch, Cut, Runner, RunnerFault};
use x_steps::{Cursor, Label, State};

/// The most steps that a worker takes before it posts.
const STEPS: u32 = 4096;

/// A lease, with the runner that searches its tile, and how many tiles waited by the last answer.
pub(crate) struct Search<'p, T: Table> {
    lease: Lease,
    runner: Runner<'p, T>,
    waiting: u64,
}

/// What a worker does next.
#[derive(Clone, Copy)]
pub(crate) enum Next {
    /// It goes on in its tile.
    On,
    /// It was asked to stop.
    Stop,
    /// Its tile is done.
    Done,
    /// Memory ran out.
    OutOfMemory,
    /// A call was refused.
    Refused,
}

/// Walks up to so many steps on, or to the branch's end. Memory may run out at a visit.
fn walk_on<T: Table>(runner: &mut Runner<'_, T>) -> Result<(), AllocError>
    ensures problem { runner.new.problem ≡ runner.old.problem }
{
    match runner.advance_by(STEPS) {
        Err(RunnerFault::OutOfMemory) => Err(AllocError),
        // Also at the branch's end, or where a stretch is full: what was walked is posted then.
        _ => Ok(()),
    }
}

/// A runner at the first state of a problem's run, from where each tile can be reached; None when out of memory.
pub(crate) fn first_runner<'p, T: Table>(
    alloc: Global,
    problem: &'p Problem,
) -> Option<Runner<'p, T>>
    ensures { IfSome result (λ r. r ≡ runner_at problem.now whole_run start) }
{
    let Ok(table) = T::new(alloc, problem) else {
        return None;
    };
    let whole = Branch { lo: None, hi: None };
    // From here a runner goes on to any mark without memory.
    let first = State {
        label: Label::X1,
        path: Vec::new(alloc),
        cursor: Cursor::None,
    };
    Runner::new(alloc, problem, table, whole, &first).ok()
}

/// The cut at the first option of the least level that has something untried, and a copy; None
/// where nothing is untried.
fn cut_twice<'p, T: Table>(runner: &Runner<'p, T>) -> Result<Option<(Cut<'p>, Cut<'p>)>, Next>
    ensures can_end { IfOk result (λ r. IfSome r (λ cuts. CanShorten runner.now cuts.0)) }
    ensures same { IfOk result (λ r. IfSome r (λ cuts. cuts.1 ≡ cuts.0)) }
{
    let Some((level, option)) = runner.first_untried() else {
        return Ok(None);
    };
    let cut = match runner.cut(level, option) {
        Ok(cut) => cut,
        Err(RunnerFault::OutOfMemory) => return Err(Next::OutOfMemory),
        Err(_) => return Err(Next::Refused),
    };
    // The book keeps one, and the runner ends at the other.
    match cut.copy() {
        Ok(copy) => Ok(Some((cut, copy))),
        Err(_) => Err(Next::OutOfMemory),
    }
}

/// How a worker ends its tile: it closes one that is done, parks one at which it was asked to stop, and abandons any other.
fn ending_for(next: Next) -> Ending
    ensures { result ≡ ending_for next }
{
    match next {
        Next::Done => Ending::Close,
        Next::Stop => Ending::Park,
        // What isn't posted is lost, and found again by who leases the tile next.
        _ => Ending::Abandon,
    }
}

/// What a refusal of the book means for a worker.
fn next_of(fault: &BookFault) -> Next
    ensures { result ≡ next_after fault.now }
{
    match fault {
        BookFault::OutOfMemory => Next::OutOfMemory,
        _ => Next::Refused,
    }
}

impl<'p, T: Table> Search<'p, T> {
    /// Begins where a lease says. The runner goes there from where it stands: a worker's next ticket is mostly for the rest that it
    /// has just split off, and that rest begins where its search stands when its tile is done.
    pub fn begin(runner: Runner<'p, T>, leased: Leased<'p>) -> Search<'p, T>
        requires { CanBeSearched runner.problem leased }
        ensures lease { result.lease ≡ leased.entry.lease }
        ensures runner { result.runner ≡ runner_for runner.entry.problem leased.entry }
    {
        let Leased {
            lease,
            branch,
            mark,
            waiting,
        } = leased;
        let mut runner = runner;
        // Cheaper than a new runner: what is covered at both places stays covered.
        runner.move_to(branch, mark);
        Search {
            lease,
            runner,
            waiting,
        }
    }

    /// Splits the tile where too few tiles wait, and pushes a ticket for the new one.
    fn split<L: Desking, R: Wait, G: Gate>(
        &mut self,
        station: &mut Station<'_, 'p, L, R, G>,
    ) -> Result<(), Next>
        requires worker { self.old.lease.worker ≡ station.old.seat.now.number }
        requires own { self.old.runner.problem ≡ L.whole }
        ensures lease { self.new.lease ≡ self.old.lease }
        ensures problem { self.new.runner.problem ≡ self.old.runner.problem }
        ensures seat { KeepsSeat station.old.seat.now station.new.seat.now }
    {
        let (cut, copy) = match cut_twice(&self.runner) {
            Ok(Some(cuts)) => cuts,
            Ok(None) => return Ok(()),
            Err(next) => return Err(next),
        };
        let id = match station.split(&self.lease, cut) {
            Ok(id) => id,
            Err(refused) => return Err(next_of(&refused.fault)),
        };
        // Without its ticket the tile still waits, and is leased by the search for any.
        let _ = station.lane.push(id);
        self.runner.end_at(copy);
        Ok(())
    }

    /// Posts what was walked. Answers whether the worker is asked to stop.
    fn post<L: Desking, R: Wait, G: Gate>(
        &mut self,
        station: &mut Station<'_, 'p, L, R, G>,
    ) -> Result<bool, Next>
        requires worker { self.old.lease.worker ≡ station.old.seat.now.number }
        requires own { self.old.runner.problem ≡ L.whole }
        ensures lease { self.new.lease ≡ self.old.lease }
        ensures problem { self.new.runner.problem ≡ self.old.runner.problem }
        ensures seat { KeepsSeat station.old.seat.now station.new.seat.now }
    {
        // Each turn posts, or the worker would not hear that it is to stop.
        let Ok(stretch) = self.runner.take_stretch() else {
            return Err(Next::OutOfMemory);
        };
        match station.post(&self.lease, stretch) {
            Ok(posted) => {
                self.waiting = posted.waiting;
                Ok(posted.stop)
            }
            Err(refused) => Err(next_of(&refused.fault)),
        }
    }

    /// Walks, splits and posts once.
    fn go<L: Desking, R: Wait, G: Gate>(&mut self, station: &mut Station<'_, 'p, L, R, G>) -> Next
        requires worker { self.old.lease.worker ≡ station.old.seat.now.number }
        requires own { self.old.runner.problem ≡ L.whole }
        ensures lease { self.new.lease ≡ self.old.lease }
        ensures problem { self.new.runner.problem ≡ self.old.runner.problem }
        ensures seat { KeepsSeat station.old.seat.now station.new.seat.now }
    {
        if walk_on(&mut self.runner).is_err() {
            return Next::OutOfMemory;
        }
        // With a waiting tile for each worker, one more would only be work for the book.
        if self.waiting < station.crew.desk.seats() as u64 {
            if let Err(next) = self.split(station) {
                return next;
            }
        }
        let stop = match self.post(station) {
            Ok(stop) => stop,
            Err(next) => return next,
        };
        // Asked first: who is done closes its tile, even where it is to stop.
        if self.runner.is_at_end() {
            return Next::Done;
        }
        if stop {
            return Next::Stop;
        }
        Next::On
    }

    /// Walks, splits and posts until the tile is done, or the worker has to end it.
    fn go_on<L: Desking, R: Wait, G: Gate>(
        &mut self,
        station: &mut Station<'_, 'p, L, R, G>,
    ) -> Next
        requires worker { self.old.lease.worker ≡ station.old.seat.now.number }
        requires own { self.old.runner.problem ≡ L.whole }
        ensures lease { self.new.lease ≡ self.old.lease }
        ensures problem { self.new.runner.problem ≡ self.old.runner.problem }
        ensures seat { KeepsSeat station.old.seat.now station.new.seat.now }
    {
        let rt = station.crew.rt;
        'searching: for _ in rt.forever() {
            let next = self.go(station);
            match next {
                Next::On => (),
                _ => return next,
            }
        }
        Next::On
    }

    /// Ends the lease: closes, parks or abandons the tile. Answers the runner, where it stands, and what the worker does next: where
    /// that was refused, as for want of memory, it gives the tile up and ends too.
    fn end<L: Desking, R: Wait, G: Gate>(
        self,
        station: &mut Station<'_, 'p, L, R, G>,
        next: Next,
    ) -> (Runner<'p, T>, Next)
        requires worker { self.lease.worker ≡ station.old.seat.now.number }
        requires held { holds station.old.seat.now.notes self.lease ≡ true }
        ensures ended { EndsTile result.1 station.new.seat.now self.entry.lease }
        ensures number { station.new.seat.now.number ≡ station.old.seat.now.number }
        ensures problem { result.0.problem ≡ self.entry.runner.problem }
    {
        let Search {
            lease,
            runner,
            waiting: _,
        } = self;
        let Err(refused) = station.end(lease, ending_for(next)) else {
            return (runner, next);
        };
        // Refused, it has no tile that it could go on in.
        let after = next_of(&refused.fault);
        station.give_up(refused.given);
        (runner, after)
    }

    /// Searches the tile until it is done, or the worker has to end. Answers the runner, and why it
    /// ended.
    pub fn run<L: Desking, R: Wait, G: Gate>(
        self,
        station: &mut Station<'_, 'p, L, R, G>,
    ) -> (Runner<'p, T>, Next)
        requires worker { self.lease.worker ≡ station.old.seat.now.number }
        requires held { holds station.old.seat.now.notes self.lease ≡ true }
        requires own { self.runner.problem ≡ L.whole }
        ensures ended { EndsTile result.1 station.new.seat.now self.entry.lease }
        ensures number { station.new.seat.now.number ≡ station.old.seat.now.number }
        ensures problem { result.0.problem ≡ self.entry.runner.problem }
    {
        let mut search = self;
        let next = search.go_on(station);
        search.end(station, next)
    }
}
