//! What a worker walked is posted.
ghost use Rattle.std.specs.Prelude.{Some};
ghost use Rattle.lab_world.specs.Worker.{HoldsTile};
ghost use Rattle.lab_world.specs.World.{IsSeat};
ghost use Rattle.debug_acts.specs.Acts.{room_acts, PlaysShort};

use cover_problem::Table;
use lab_book::Book;
use lab_world::Worker;
use std::alloc::AllocError;

/// Posts what a worker walked since its mark, where that has as many steps as can be counted. Out of memory, nothing has changed.
pub(crate) fn make_room<'p, T: Table>(
    book: &mut Book<'p>,
    worker: &mut Worker<'p, T>,
) -> Result<(), AllocError>
    requires holds { HoldsTile book.old worker.old }
    ensures acts { PlaysShort result book.old (Some worker.old) (room_acts worker.old) book.new (Some worker.new) }
    ensures seat { IsSeat book.new worker.old.grant.worker (Some worker.new) }
{
    book.is_sound();
    worker.runner().is_sound();
    // One step more could not be counted, and the runner would refuse it.
    if worker.runner().unposted() < u32::MAX {
        return Ok(());
    }
    // The book doesn't refuse it, since the worker holds its tile.
    let Ok(_) = worker.post_held(book) else {
        return Err(AllocError);
    };
    Ok(())
}
