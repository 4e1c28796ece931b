//! A worker's seat at a desk, with what was noted of its calls.
ghost use Rattle.std.specs.Prelude.{◌≡◌, ◌<◌, []};
ghost use Rattle.shared_words.specs.Workers.{IsWorker};

use crate::desk::Desking;
use known_parts::{KnownPart, Parts};
use lab_book::Entry;
use std::collections::LinkedList;
use std::marker::Model;

/// An entry that a call of the seat added, with its index in the history.
#[derive(Drop)]
pub struct Noted {
    pub index: u64,
    pub entry: Entry,
}

/// What a seat knows of the entries that the book gained: those of its own number, with their places
/// among them.
pub struct Own;

impl Parts<LinkedList<Entry>, LinkedList<Noted>> for Own {
    ghost use Rattle.std.specs.Prelude.{[]};
    ghost use Rattle.lab_desk.specs.Record.{notes_of};

    ghost part = { λ k entries. notes_of k 0 entries };

    ghost begin = { [] };
}

/// A seat: its number, and what it knows of the book. Contracts see its number, the notes of its calls,
/// and how many leases these leave open. The notes take no memory: they are what the seat knows of the
/// book's history, which has them.
#[derive(Drop)]
pub struct Seat<L: Desking> {
    pub(crate) number: u8,
    pub(crate) part: KnownPart<LinkedList<Entry>, LinkedList<Noted>, L>,
    ghost few: { IsWorker number },
    ghost same: { part.number ≡ number },
    ghost one: { number < L.parts },
}

impl<L: Desking> Model for Seat<L> {
    ghost use Rattle.std.specs.Prelude.{length};
    ghost use Rattle.lab_desk.specs.Record.{SeatValue, shifted, kept_from};

    ghost Value = { SeatValue };

    ghost view = { λ s. record {
      number = s.number;
      notes = shifted (length L.opening) s.part.mine;
      kept = kept_from 0 s.part.mine;
    } };
}

impl<L: Desking> Seat<L> {
    /// A seat without notes.
    pub(crate) fn new(
        number: u8,
        part: KnownPart<LinkedList<Entry>, LinkedList<Noted>, L>,
    ) -> Seat<L>
        requires same { part.number ≡ number }
        requires none { part.mine ≡ [] }
        requires few { IsWorker number }
        requires one { number < L.parts }
        ensures { result ≡ record { number = number; notes = []; kept = 0 } }
    {
        Seat { number, part }
    }

    /// Its number, which its calls have as the worker's.
    pub fn number(&self) -> u8
        ensures number { result ≡ self.now.number }
        ensures few { IsWorker result }
    {
        self.number
    }
}
