//! Sessions.
ghost use Rattle.std.specs.Prelude.{◌≡◌, None, is_some, true, option_map, IfOk, IfErr, IfSome, OnOk, OnErr};
ghost use Rattle.x_steps.specs.StateView.{state_value};
ghost use Rattle.x_branches.specs.Runner.{IsRunner};
ghost use Rattle.lab_world.specs.World.{IsSeat};
ghost use Rattle.x_debug.specs.Session.{position_of, session_on, fresh_session};

mod breaks;
mod command;
mod ends;
mod requests;
mod snapshot;
mod views;
mod walk;

pub use command::Reply;
use cover_problem::{Problem, Table};
use indexmap::IndexSet;
use lab_book::Book;
use lab_world::Worker;
use std::alloc::{AllocError, Global};
use std::marker::Model;
use x_steps::State;
use x_texts::Break;

/// A book, the worker that has one of its tiles open or none, and the breakpoints in the order in which they were set.
#[derive(Drop)]
pub struct Session<'p, T: Table> {
    book: Book<'p>,
    worker: Option<Worker<'p, T>>,
    breaks: IndexSet<Break>,
}

impl<'p, T: Table> Model for Session<'p, T> {
    ghost use Rattle.x_debug.specs.Session.{SessionValue, IsSession};

    ghost Value = { SessionValue };

    ghost view = { λ s. record { book = s.book; worker = s.worker; breaks = s.breaks.keys } };

    ghost invariant = { λ s. IsSession (record { book = s.book; worker = s.worker; breaks = s.breaks.keys }) };
}

impl<'p, T: Table> Session<'p, T> {
    /// A session with a new book of the problem's whole run, which is open at its start.
    pub fn new(alloc: Global, problem: &'p Problem) -> Result<Session<'p, T>, AllocError>
        ensures made { IfOk result (λ s. s ≡ fresh_session problem.now) }
        ensures leased { IfOk result (λ s. is_some s.worker ≡ true) }
    {
        let mut book = Book::new(alloc, problem)?;
        // Tells that its one tile waits, so the lease isn't refused.
        book.is_sound();
        let worker = Worker::lease_any(alloc, &mut book, 0)?;
        Ok(Session {
            book,
            worker,
            breaks: IndexSet::new(alloc),
        })
    }

    /// A session on a book, with no branch open and no breakpoint.
    pub fn on_book(alloc: Global, book: Book<'p>) -> Session<'p, T>
        ensures { result ≡ session_on book.entry }
    {
        Session {
            book,
            worker: None,
            breaks: IndexSet::new(alloc),
        }
    }

    /// Its book, where no branch is open; else the session comes back.
    pub fn into_book(self) -> Result<Book<'p>, Session<'p, T>>
        ensures book { IfOk result (λ book. book ≡ self.entry.book) }
        ensures none_open { OnOk result (self.entry.worker ≡ None) }
        ensures given_back { IfErr result (λ session. session ≡ self.entry) }
        ensures one_open { OnErr result (is_some self.entry.worker ≡ true) }
    {
        // The lease would be lost with the session, and the tile leased for ever.
        if self.worker.is_some() {
            return Err(self);
        }
        let Session {
            book,
            worker: _,
            breaks: _,
        } = self;
        Ok(book)
    }

    /// Its book. Where a branch is open, worker 0 holds a tile of it.
    pub fn book(&self) -> &Book<'p>
        ensures book { result.now ≡ self.now.book }
        ensures seat { IsSeat self.now.book 0 self.now.worker }
    {
        &self.book
    }

    /// Whether a branch is open.
    fn is_open(&self) -> bool
        ensures { result ≡ is_some self.now.worker }
    {
        self.worker.is_some()
    }

    /// Where it stands in the branch that is open: in that branch or at its end, at its mark or after it; None where none is open.
    pub fn state(&self) -> Option<&State>
        ensures state { option_map (λ s. state_value s.now) result ≡ position_of self.now.worker }
        ensures runner { IfSome self.now.worker (λ w. IsRunner w.runner) }
    {
        match &self.worker {
            Some(worker) => Some(worker.runner().state()),
            None => None,
        }
    }

    /// Its breakpoints, in the order in which they were set.
    pub fn breaks(&self) -> &[Break]
        ensures { result.now ≡ self.now.breaks }
    {
        self.breaks.as_slice()
    }
}
