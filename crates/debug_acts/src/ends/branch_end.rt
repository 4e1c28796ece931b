//! A branch is closed, or the book refuses it.
ghost use Rattle.std.specs.Prelude.{◌≡◌, ◌==◌};
ghost use Rattle.text_lines.specs.Writes.{AddsLine};
ghost use Rattle.lab_world.specs.Worker.{HoldsTile};
ghost use Rattle.lab_world.specs.World.{IsSeat};
ghost use Rattle.debug_acts.specs.Walk.{steps_ahead};
ghost use Rattle.debug_acts.specs.Acts.{is_ended, close_acts, PlaysShort};
ghost use Rattle.debug_acts.specs.Ends.{close_line};

use crate::ends::end_branch;
use crate::tiles::write_book_fault;
use cover_problem::Table;
use debug_language::{Plain, write_plain};
use lab_book::{Book, BookFault};
use lab_world::{Act, Worker, take_turn};
use std::alloc::{AllocError, Global};

/// Whether a worker that holds its tile is at the tile's end.
fn is_at_end<T: Table>(book: &Book<'_>, worker: &Worker<'_, T>) -> bool
    requires { HoldsTile book.now worker.now }
    ensures { (steps_ahead worker.now.runner == 0) ≡ result }
{
    // What is true of a book and of a runner is told by these.
    book.is_sound();
    let runner = worker.runner();
    runner.is_sound();
    runner.is_at_end()
}

/// Whether the worker of a seat is at its branch's end.
fn is_ended<T: Table>(book: &Book<'_>, seat: &Option<Worker<'_, T>>) -> bool
    requires { IsSeat book.now 0 seat.now }
    ensures { result ≡ is_ended seat.now }
{
    match seat {
        Some(worker) => is_at_end(book, worker),
        None => false,
    }
}

/// `close`: at the branch's end posts what isn't posted and closes it. Before it the book refuses, which stands in its history, and
/// the branch stays. Out of memory the branch is open still.
pub fn close<'p, T: Table>(
    alloc: Global,
    book: &mut Book<'p>,
    seat: &mut Option<Worker<'p, T>>,
    text: &mut Vec<u8>,
) -> Result<(), AllocError>
    requires seat { IsSeat book.old 0 seat.old }
    ensures acts { PlaysShort result book.old seat.old (close_acts seat.old) book.new seat.new }
    ensures text { AddsLine result text.old text.new (close_line seat.old) }
    ensures seat { IsSeat book.new 0 seat.new }
{
    if is_ended(book, seat) {
        // Without memory for the line the branch has to stay open.
        write_plain(text, Plain::Closed)?;
        return end_branch(alloc, book, seat, &Act::Close);
    }
    // The line comes first, since the book keeps what it refused.
    write_book_fault(text, &BookFault::NotAtEnd)?;
    take_turn(alloc, book, seat, 0, &Act::Close)?;
    Ok(())
}
