//! Worlds: a book, and for each worker nothing or its lease with its runner.
ghost use Rattle.std.specs.Prelude.{◌≡◌, ◌≤◌, ◌<◌, All, None, length, replicate, option_map, is_some};
ghost use Rattle.std.specs.Prelude.{IfOk, IfErr, IfSome, OnOk, OnErr};
ghost use Rattle.shared_words.specs.Workers.{most_workers};
ghost use Rattle.shared_words.specs.Answers.{Returns, ReturnsItems};
ghost use Rattle.x_steps.specs.StateView.{state_value};
ghost use Rattle.x_steps.specs.StateValue.{start};
ghost use Rattle.x_branches.specs.Runner.{IsRunner};
ghost use Rattle.x_branches.specs.Branch.{whole_run};
ghost use Rattle.lab_book.specs.Book.{new_book, leased_in};
ghost use Rattle.lab_world.specs.World.{WorldValue, world_step, played, world_replies, worker_at, new_world, worker_state, EachHolds, AreCovered, Replied, Played, StoppedEarly};

use crate::event::{WorldEvent, WorldReply};
use crate::turn::take_turn;
use crate::worker::Worker;
use cover_problem::{Problem, Table};
use lab_book::Book;
use std::alloc::{AllocError, Global};
use std::marker::Model;
use x_steps::State;

/// A book, and for each worker nothing or its lease with its runner.
#[derive(Drop)]
pub struct World<'p, T: Table> {
    book: Book<'p>,
    // A worker's number is its place, so that none is ever looked for.
    workers: Vec<Option<Worker<'p, T>>>,
}

impl<'p, T: Table> Model for World<'p, T> {
    ghost use Rattle.lab_world.specs.World.{WorldValue, IsWorld};

    ghost Value = { WorldValue };

    ghost view = { λ w. record { book = w.book; workers = w.workers.items } };

    ghost invariant = { λ w. IsWorld (record { book = w.book; workers = w.workers.items }) };
}

/// The replies to the events before one for which memory ran out.
#[derive(Debug, Drop)]
pub struct PlayStopped {
    pub replies: Vec<WorldReply>,
}

/// Workers without a tile.
fn without_tiles<'p, T: Table>(
    alloc: Global,
    workers: u8,
) -> Result<Vec<Option<Worker<'p, T>>>, AllocError>
    ensures { IfOk result (λ seats. seats.items ≡ replicate workers None) }
{
    let mut seats = Vec::with_capacity(alloc, workers as usize)?;
    // All places are made now: no event takes memory for one later.
    for made in 0..workers {
        seats.push_reserved(None);
    }
    Ok(seats)
}

impl<'p, T: Table> World<'p, T> {
    /// A world with a new book of the problem's whole run, and so many workers, none of which has a tile.
    pub fn new(alloc: Global, problem: &'p Problem, workers: u8) -> Result<World<'p, T>, AllocError>
        requires some { 0 < workers }
        requires few { workers ≤ most_workers }
        ensures { Returns result (new_world (new_book problem.now whole_run start) workers) }
    {
        let book = Book::new(alloc, problem)?;
        let workers = without_tiles(alloc, workers)?;
        Ok(World { book, workers })
    }

    /// A world on a book of which no tile is leased; the book comes back when out of memory.
    pub fn on_book(alloc: Global, book: Book<'p>, workers: u8) -> Result<World<'p, T>, Book<'p>>
        requires some { 0 < workers }
        requires few { workers ≤ most_workers }
        requires none_leased { leased_in book.tiles ≡ 0 }
        ensures made { IfOk result (λ world. world ≡ new_world book.entry workers) }
        ensures given_back { IfErr result (λ given. given ≡ book.entry) }
    {
        // A book can't be made again: it goes back to the caller.
        let Ok(workers) = without_tiles(alloc, workers) else {
            return Err(book);
        };
        Ok(World { book, workers })
    }

    /// The book. Each worker that has a lease holds a tile of it: its runner searches that tile's branch, from the tile's mark on.
    pub fn book(&self) -> &Book<'p>
        ensures book { result.now ≡ self.now.book }
        ensures holds { EachHolds self.now }
    {
        &self.book
    }

    /// How many workers there are.
    pub fn workers(&self) -> u8
        ensures { result ≡ length self.now.workers }
    {
        // There are at most 32 workers.
        self.workers.len() as u8
    }

    /// Where a worker stands, which is in its branch or at its end, at its mark or after it; None where it has no tile.
    pub fn state(&self, w: u8) -> Option<&State>
        requires { w < length self.now.workers }
        ensures state { option_map (λ s. state_value s.now) result ≡ worker_state self.now w }
        ensures runner { IfSome (worker_at self.now.workers w) (λ x. IsRunner x.runner) }
    {
        match &self.workers[w as usize] {
            Some(worker) => Some(worker.state()),
            None => None,
        }
    }

    /// A worker's table, which stands for the items covered where it stands; None where it has no tile.
    pub fn table(&self, w: u8) -> Option<&T>
        requires { w < length self.now.workers }
        ensures has { is_some result ≡ is_some (worker_at self.now.workers w) }
        ensures same_problem { IfSome result (λ t. T.problem_value t.now ≡ self.now.book.problem) }
        ensures covered { IfSome result (λ t. AreCovered self.now w (T.covered_list t.now)) }
    {
        match &self.workers[w as usize] {
            Some(worker) => Some(worker.runner().table()),
            None => None,
        }
    }

    /// One event. Out of memory, nothing has changed.
    fn happen(&mut self, event: &WorldEvent) -> Result<WorldReply, AllocError>
        requires { event.now.worker < length self.old.workers }
        ensures reply { IfOk result (λ r. r ≡ (world_step self.old event.now).reply) }
        ensures world { OnOk result (self.new ≡ (world_step self.old event.now).world) }
        ensures unchanged { OnErr result (self.new ≡ self.old) }
    {
        let alloc = *self.workers.allocator();
        // That the world stays sound rests on the tiling, which the book tells here.
        self.book.is_sound();
        take_turn(
            alloc,
            &mut self.book,
            &mut self.workers[event.worker as usize],
            event.worker,
            &event.act,
        )
    }

    /// Events one after another, and their replies. Room for the replies is made first. When out of memory at an event, the world is
    /// as the events before it left it, and their replies come: fewer than there are events.
    pub fn play(&mut self, events: &[WorldEvent]) -> Result<Vec<WorldReply>, PlayStopped>
        requires { All (λ (e : WorldEvent). e.worker < length self.old.workers) events.now }
        ensures replies { ReturnsItems result (world_replies self.old events.now) }
        ensures world { OnOk result (self.new ≡ played self.old events.now) }
        ensures first_replies { IfErr result (λ s. Replied self.old events.now s.replies) }
        ensures first_world { IfErr result (λ s. Played self.old events.now s.replies self.new) }
        ensures early { IfErr result (λ s. StoppedEarly events.now s.replies) }
    {
        let alloc = *self.workers.allocator();
        let Ok(mut replies) = Vec::with_capacity(alloc, events.len()) else {
            return Err(PlayStopped {
                replies: Vec::new(alloc),
            });
        };
        'playing: for event in events {
            match self.happen(event) {
                Ok(reply) => replies.push_reserved(reply),
                // An event without memory has no reply: how many there are tells where to go on.
                Err(_) => return Err(PlayStopped { replies }),
            }
        }
        Ok(replies)
    }
}
