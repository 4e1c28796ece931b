//! What lies under a desk's lock: a book, and the one who knows all that it gained.
ghost use Rattle.std.specs.Prelude.{◌≡◌, ◌≢◌, ℕ, true, length, take, drop};
ghost use Rattle.lab_desk.specs.Record.{notes_of};
ghost use Rattle.lab_desk.specs.Seats.{AllStand, are_of_workers};

use crate::desk::Desking;
use crate::seat::{Noted, Own, Seat};
use known_parts::{Change, Keeper, KnownPart};
use lab_book::{Book, Entry};
use std::collections::LinkedList;
use std::marker::{Brand, PhantomData};

/// A book, and the keeper of the entries that were made at the desk. Each lease that these leave to
/// its worker stands.
#[derive(Drop)]
pub(crate) struct Locked<'p, L: Desking> {
    pub(crate) book: Book<'p>,
    pub(crate) keeper: Keeper<LinkedList<Entry>, LinkedList<Noted>, Own, L>,
    ghost same: { book.problem ≡ L.whole },
    ghost branch: { book.branch ≡ L.part },
    ghost first: { book.first ≡ L.begin },
    ghost opened: { take (length L.opening) book.history ≡ L.opening },
    ghost known: { keeper.all ≡ drop (length L.opening) book.history },
    ghost stand: { AllStand L.opening keeper.all book.tiles },
    ghost crew: { are_of_workers L.parts keeper.all ≡ true },
}

/// What the entries become at a call. Each call picks it, as `Brand`.
pub trait NextEntries {
    ghost use Rattle.std.specs.Prelude.{List};
    ghost use Rattle.lab_history.specs.declared.entry.Entry.{Entry};

    ghost next: { List Entry };
}

impl NextEntries for Brand {
    ghost use Rattle.std.specs.Prelude.{[]};

    ghost next = { [] };
}

/// They become these.
pub struct To<C: NextEntries> {
    of: PhantomData<C>,
}

impl<C: NextEntries> Change<LinkedList<Entry>> for To<C> {
    ghost next = { C.next };
}

/// The keeper and one seat learn what the history gained by a call of that seat.
pub(crate) fn follow<L: Desking, C: NextEntries>(
    keeper: &mut Keeper<LinkedList<Entry>, LinkedList<Noted>, Own, L>,
    part: &mut KnownPart<LinkedList<Entry>, LinkedList<Noted>, L>,
    book: &Book<'_>,
)
    requires next { drop (length L.opening) book.now.history ≡ C.next }
    requires others { (j : ℕ) → j ≢ part.old.number →
        notes_of j 0 (drop (length L.opening) book.now.history) ≡ notes_of j 0 keeper.old.all }
    ensures keeper { keeper.new.all ≡ drop (length L.opening) book.now.history }
    ensures number { part.new.number ≡ part.old.number }
    ensures part { part.new.mine ≡ notes_of part.old.number 0 (drop (length L.opening) book.now.history) }
    ensures agreed { part.old.mine ≡ notes_of part.old.number 0 keeper.old.all }
{
    // Nothing is done with the book: what its history has is what contracts speak of.
    let _book = book;
    keeper.change::<To<C>>(part);
}

/// Nothing changes, and the notes of a seat are told to be the entries of its number.
pub(crate) fn agree<L: Desking>(
    keeper: &mut Keeper<LinkedList<Entry>, LinkedList<Noted>, Own, L>,
    seat: &mut Seat<L>,
)
    ensures keeper { keeper.new ≡ keeper.old }
    ensures seat { seat.new ≡ seat.old }
    ensures agreed { seat.old.notes ≡ notes_of seat.old.number (length L.opening) keeper.old.all }
{
    keeper.agree(&mut seat.part);
}
