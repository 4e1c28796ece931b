//! A worker: it leases tiles and searches them until there is none.
ghost use Rattle.std.specs.Prelude.{◌≡◌, None, IfSome};
ghost use Rattle.lab_book.specs.Calls.{CanBeSearched};
ghost use Rattle.lab_pool.specs.Worker.{HasLeft, Abandons, IsLeasedTo};

use crate::gate::Gate;
use crate::search::{Next, Search, first_runner};
use crate::station::{Crew, Station};
use cover_problem::Table;
use lab_book::Leased;
use lab_desk::{Desking, Seat};
use lab_tickets::TicketSeat;
use std::sync::Wait;
use x_branches::Runner;

/// Searches a tile that was leased. Answers the runner, where the worker goes on.
fn search_tile<'p, T: Table, L: Desking, R: Wait, G: Gate>(
    station: &mut Station<'_, 'p, L, R, G>,
    runner: Runner<'p, T>,
    leased: Leased<'p>,
) -> Option<Runner<'p, T>>
    requires leased { IsLeasedTo station.old.seat.now leased }
    requires own { runner.problem ≡ L.whole }
    requires can { CanBeSearched L.whole leased }
    ensures ended { IfSome result (λ _. HasLeft station.new.seat.now leased.entry.lease) }
    ensures given_up { result ≡ None → Abandons station.new.seat.now leased.entry.lease }
    ensures number { station.new.seat.now.number ≡ station.old.seat.now.number }
    ensures own { IfSome result (λ r. r.problem ≡ L.whole) }
{
    let search = Search::begin(runner, leased);
    let (runner, next) = search.run(station);
    match next {
        Next::Done => Some(runner),
        // Only its tile was to stop: the worker itself goes on with others.
        Next::Stop => Some(runner),
        Next::OutOfMemory => {
            station.lacks_memory();
            None
        }
        Next::On => None,
        Next::Refused => None,
    }
}

/// Leases tiles and searches them, until none waits and none is leased. When out of memory, that is
/// noted, and the worker ends.
pub(crate) fn work<T: Table, L: Desking, R: Wait, G: Gate>(
    crew: &Crew<'_, '_, L, R, G>,
    seat: &mut Seat<L>,
    lane: &mut TicketSeat,
) {
    let rt = crew.rt;
    let mut station = Station { crew, seat, lane };
    // One table for all of its tiles: the runner is moved from one to the next.
    let Some(first) = first_runner::<T>(crew.alloc, crew.desk.problem()) else {
        station.lacks_memory();
        return;
    };
    let mut runner = first;
    'working: for _ in rt.forever() {
        let leased = match station.next_tile() {
            Ok(Some(leased)) => leased,
            Ok(None) => return,
            Err(_) => {
                station.lacks_memory();
                return;
            }
        };
        match search_tile(&mut station, runner, leased) {
            Some(again) => runner = again,
            None => return,
        }
    }
}
