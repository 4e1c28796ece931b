//! A book under one lock. Each worker calls it from a seat of its own, which knows what was noted of
//! its calls: as much as the history has of them.
#![tactic(auto)]

/// A call of the book under a desk's lock, by a seat. What the history gained is known under the lock,
/// and at that seat.
macro_rules! called {
    ($locked:expr, $seat:expr, |$book:ident, $number:ident| $call:expr) => {{
        let Locked {
            book: $book,
            keeper,
        } = $locked;
        let Seat {
            number: $number,
            part,
        } = $seat;
        // What every book keeps, before and after: by that a lease that stood stands on.
        $book.is_sound();
        let answer = $call;
        $book.is_sound();
        follow::<L, Brand>(keeper, part, &*$book);
        match answer {
            Ok(answer) => Ok(answer),
            Err(refused) => Err(refused),
        }
    }};
}

mod blank;
mod desk;
mod locked;
mod seat;

pub use blank::Blank;
pub use desk::{Desk, Desking};
pub use seat::{Noted, Own, Seat};
