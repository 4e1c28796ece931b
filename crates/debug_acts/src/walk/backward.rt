//! So many steps back.
ghost use Rattle.std.specs.Prelude.{◌≡◌, ◌<◌};
ghost use Rattle.debug_acts.specs.Walk.{back_count, state_back, back_lines};
ghost use Rattle.debug_acts.specs.Acts.{WalksBack, PlaysBack, StaysSeated};
ghost use Rattle.text_lines.specs.Writes.{AddsLines};

use crate::walk::write_moved;
use cover_problem::Table;
use debug_language::{DebugFault, write_debug_fault};
use lab_world::Worker;
use std::alloc::AllocError;

/// Goes up to so many steps back, to its mark at most. How many these were.
fn go_back<T: Table>(worker: &mut Worker<'_, T>, most: u32) -> u32
    ensures count { result ≡ back_count worker.old.runner most }
    ensures acts { WalksBack worker.old (back_count worker.old.runner most) worker.new }
    ensures stands { worker.new.runner.position ≡ state_back worker.old.runner (back_count worker.old.runner most) }
    ensures seat { StaysSeated worker.old worker.new }
{
    worker.runner().is_sound();
    for gone in 0..most {
        // It is refused at the mark alone, and takes no memory.
        let Ok(()) = worker.back() else {
            return gone;
        };
    }
    most
}

/// `back`: up to so many steps of a worker back, to its mark at most; refused there. Out of memory it has gone some of them.
pub fn back<T: Table>(
    worker: &mut Worker<'_, T>,
    most: u32,
    text: &mut Vec<u8>,
) -> Result<(), AllocError>
    requires some { 0 < most }
    ensures acts { PlaysBack result worker.old most worker.new }
    ensures text { AddsLines result text.old text.new (back_lines worker.old.runner most) }
    ensures seat { StaysSeated worker.old worker.new }
{
    worker.runner().is_sound();
    // What lies before the mark is posted: only a retract leads there.
    if worker.runner().unposted() == 0 {
        return write_debug_fault(text, DebugFault::AtStart);
    }
    let moved = go_back(worker, most);
    write_moved(text, moved as u128, worker)
}
