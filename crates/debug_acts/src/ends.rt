//! A branch is given up: parked, saved, or closed.
ghost use Rattle.std.specs.Prelude.{◌≡◌};
ghost use Rattle.lab_world.specs.World.{IsSeat};
ghost use Rattle.debug_acts.specs.Acts.{has_rest, rest_acts, end_acts, PlaysShort};

mod branch_end;
mod snapshot;

pub use branch_end::close;
use cover_problem::Table;
use lab_book::Book;
use lab_world::{Act, Worker, take_turn};
pub use snapshot::write_position;
use std::alloc::{AllocError, Global};

/// Whether a worker has steps that aren't posted.
fn has_rest<T: Table>(seat: &Option<Worker<'_, T>>) -> bool
    ensures { result ≡ has_rest seat.now }
{
    match seat {
        Some(worker) => worker.runner().unposted() > 0,
        None => false,
    }
}

/// Posts what isn't posted. Out of memory, nothing has changed.
fn post_rest<'p, T: Table>(
    alloc: Global,
    book: &mut Book<'p>,
    seat: &mut Option<Worker<'p, T>>,
) -> Result<(), AllocError>
    requires seat { IsSeat book.old 0 seat.old }
    ensures acts { PlaysShort result book.old seat.old (rest_acts seat.old) book.new seat.new }
    ensures seat { IsSeat book.new 0 seat.new }
{
    // A stretch of no steps would be an entry of the history that tells nothing.
    if !has_rest(seat) {
        return Ok(());
    }
    // The reply needs no look: a worker that holds its tile isn't refused.
    take_turn(alloc, book, seat, 0, &Act::Post)?;
    Ok(())
}

/// Posts what isn't posted, and then does an act, by which the tile is given up or closed. Out of memory that act isn't done.
pub fn end_branch<'p, T: Table>(
    alloc: Global,
    book: &mut Book<'p>,
    seat: &mut Option<Worker<'p, T>>,
    act: &Act,
) -> Result<(), AllocError>
    requires seat { IsSeat book.old 0 seat.old }
    ensures acts { PlaysShort result book.old seat.old (end_acts seat.old act.now) book.new seat.new }
    ensures seat { IsSeat book.new 0 seat.new }
{
    // First, since the lease goes with the act, and unposted steps with the lease.
    post_rest(alloc, book, seat)?;
    take_turn(alloc, book, seat, 0, act)?;
    Ok(())
}
