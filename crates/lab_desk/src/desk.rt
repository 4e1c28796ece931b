//! A desk: a book under one lock, which each worker calls from a seat of its own.
ghost use Rattle.std.specs.Prelude.{◌≡◌, ◌<◌, ◌≤◌, ◌↔◌, ℕ, [], IfOk, IfErr, OnOk, OnErr, IsTrue, vec_len, vec_capacity, length, take, List};
ghost use Rattle.shared_words.specs.Workers.{most_workers, IsWorkerCount};
ghost use Rattle.cover_problem.specs.Problem.{ProblemValue};
ghost use Rattle.x_steps.specs.StateValue.{StateValue};
ghost use Rattle.x_branches.specs.declared.branch.Branch.{Branch};
ghost use Rattle.lab_history.specs.declared.entry.Entry.{Entry};
ghost use Rattle.lab_desk.specs.Seats.{AreNewSeats, AreAllSeats, HaveAllNumbers, AreRecords, AreRecordsAfter, AreOfSeatsAfter, seats_of};

mod ends;
mod leases;
mod posts;
mod retractions;

use crate::blank::Blank;
use crate::locked::{Locked, agree};
use crate::seat::{Noted, Own, Seat};
use cover_problem::Problem;
use known_parts::{Keeper, Naming};
use lab_book::{Book, BookFault, Entry};
use std::alloc::Global;
use std::collections::LinkedList;
use std::marker::{Brand, Model};
use std::sync::{Condvar, Mutex};
use x_steps::Refused;

/// The name of a desk, and what it was made with: how many seats, and its book's history, problem,
/// branch and first mark.
pub trait Desking: Naming {
    ghost parts: { ℕ };

    ghost opening: { List Entry };

    ghost whole: { ProblemValue };

    ghost part: { Branch };

    ghost begin: { StateValue };
}

impl Desking for Brand {
    ghost use Rattle.std.specs.Prelude.{[], None};
    ghost use Rattle.x_steps.specs.StateValue.{start};

    ghost parts = { 0 };

    ghost opening = { [] };

    ghost whole = { record { names = []; primary = 0; options = [] } };

    ghost part = { record { lo = None; hi = None } };

    ghost begin = { start };
}

/// A book under one lock. Contracts see how many seats it has.
#[derive(Drop)]
pub struct Desk<'p, L: Desking> {
    lock: Mutex<Locked<'p, L>>,
    changed: Condvar,
    problem: &'p Problem,
    seats: u8,
    ghost same: { problem.now ≡ L.whole },
    ghost crew: { seats ≡ L.parts },
    ghost few: { seats ≤ most_workers },
}

impl<'p, L: Desking> Model for Desk<'p, L> {
    ghost use Rattle.lab_desk.specs.Seats.{DeskValue};

    ghost Value = { DeskValue };

    ghost view = { λ d. record { seats = d.seats } };
}

/// Makes so many seats, which know what a keeper knows of their numbers.
fn seat_all<L: Desking>(
    seats: &mut Vec<Seat<L>>,
    keeper: &mut Keeper<LinkedList<Entry>, LinkedList<Noted>, Own, L>,
    n: u8,
)
    requires none { seats.old.items ≡ [] }
    requires room { n ≤ vec_capacity seats.old }
    requires fresh { (keeper.old.made ≡ 0) × (keeper.old.all ≡ []) }
    requires crew { n ≡ L.parts }
    requires few { n ≤ most_workers }
    ensures len { vec_len seats.new ≡ n }
    ensures seats { AreNewSeats seats.new.items }
    ensures all { keeper.new.all ≡ [] }
{
    'seating: for k in 0..n {
        seats.push_reserved(Seat::new(k, keeper.new_part()));
    }
}

/// How many of the seats have a number.
fn seats_of<L: Desking>(seats: &[Seat<L>], number: u8) -> usize
    ensures { result ≡ seats_of number seats.now }
{
    seats.iter().filter(|seat| seat.number == number).count()
}

/// Whether each number below this one is that of just one seat.
fn have_all_numbers<L: Desking>(seats: &[Seat<L>], number: u8) -> bool
    ensures { IsTrue result ↔ HaveAllNumbers number seats.now }
{
    // Just one seat each: seats of one desk are handed in, and none of them twice.
    'counting: for k in 0..number {
        if seats_of(seats, k) != 1 {
            return false;
        }
    }
    true
}

/// Whether these are all of so many seats, in any order.
fn are_all_seats<L: Desking>(seats: &[Seat<L>], n: u8) -> bool
    ensures { IsTrue result ↔ AreAllSeats n seats.now }
{
    if seats.len() != n as usize {
        return false;
    }
    have_all_numbers(seats, n)
}

/// Nothing changes, and the notes of each seat are told to be the entries of its number.
fn agree_all<L: Desking>(
    keeper: &mut Keeper<LinkedList<Entry>, LinkedList<Noted>, Own, L>,
    seats: &mut [Seat<L>],
)
    ensures { AreRecords (length L.opening) keeper.old.all seats.old }
{
    'agreeing: for k in 0..seats.len() {
        agree(keeper, &mut seats[k]);
    }
}

impl<'p, L: Desking> Desk<'p, L> {
    /// A desk over a book, with n seats, at which nothing was called. When out of memory the blank and
    /// the book come back.
    pub fn new(
        alloc: Global,
        blank: Blank,
        book: Book<'p>,
        n: u8,
    ) -> Result<(Desk<'p, L>, Vec<Seat<L>>), (Blank, Book<'p>)>
        requires name { blank.name ≡ L.table }
        requires parts { (blank.parts ≡ L.parts) × (blank.parts ≡ n) }
        requires seats { IsWorkerCount n }
        requires opening { book.history ≡ L.opening }
        requires whole { book.problem ≡ L.whole }
        requires part { book.branch ≡ L.part }
        requires begin { book.first ≡ L.begin }
        ensures desk { IfOk result (λ r. r.0 ≡ record { seats = n }) }
        ensures number { IfOk result (λ r. vec_len r.1 ≡ n) }
        ensures seats { IfOk result (λ r. AreNewSeats r.1.items) }
        ensures blank_back { IfErr result (λ r. r.0 ≡ blank) }
        ensures book_back { IfErr result (λ r. r.1 ≡ book.entry) }
    {
        // All memory is taken before the blank has a name: from there it can't go back.
        let Ok(mut seats) = Vec::with_capacity(alloc, n as usize) else {
            return Err((blank, book));
        };
        let problem = book.problem();
        let mut keeper = blank.named::<L>();
        seat_all(&mut seats, &mut keeper, n);
        let lock = Mutex::new(Locked { book, keeper });
        let desk = Desk {
            lock,
            changed: Condvar::new(),
            problem,
            seats: n,
        };
        Ok((desk, seats))
    }

    /// The problem of its book.
    pub fn problem(&self) -> &'p Problem
        ensures { result.now ≡ L.whole }
    {
        self.problem
    }

    /// How many seats it has.
    pub fn seats(&self) -> u8
        ensures { result ≡ self.now.seats }
    {
        self.seats
    }

    /// Takes the desk apart, without memory: the book comes out where all its seats are there, in
    /// any order. Their notes are the entries that the book gained, each by its own worker: that is
    /// known of them, and nothing is compared. Else both come back.
    pub fn finish(
        self,
        seats: Vec<Seat<L>>,
    ) -> Result<Book<'p>, Refused<BookFault, (Desk<'p, L>, Vec<Seat<L>>)>>
        ensures problem { IfOk result (λ b. b.problem ≡ L.whole) }
        ensures branch { IfOk result (λ b. b.branch ≡ L.part) }
        ensures first { IfOk result (λ b. b.first ≡ L.begin) }
        ensures begins { IfOk result (λ b. take (length L.opening) b.history ≡ L.opening) }
        ensures number { OnOk result (vec_len seats ≡ self.entry.seats) }
        ensures all_there { OnOk result (HaveAllNumbers self.entry.seats seats.items) }
        ensures notes { IfOk result (λ b. AreRecordsAfter L.opening b.history seats.items) }
        ensures workers { IfOk result (λ b. AreOfSeatsAfter L.opening self.entry.seats b.history) }
        ensures refused { IfErr result (λ r. r.fault ≡ BookFault.SeatMismatch) }
        ensures mismatch { OnErr result (AreAllSeats self.entry.seats seats.items → ⊥) }
        ensures desk_back { IfErr result (λ r. r.given.0 ≡ self.entry) }
        ensures seats_back { IfErr result (λ r. r.given.1 ≡ seats) }
    {
        if !are_all_seats(&seats, self.seats) {
            return Err(Refused {
                fault: BookFault::SeatMismatch,
                given: (self, seats),
            });
        }
        // Only here is it known that no worker calls any more: the desk is owned whole.
        let Desk { lock, .. } = self;
        let Locked { book, mut keeper } = lock.into_inner();
        let mut seats = seats;
        agree_all(&mut keeper, seats.as_mut_slice());
        Ok(book)
    }
}
