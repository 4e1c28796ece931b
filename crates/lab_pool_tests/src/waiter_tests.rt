//! A seat that waits for a tile while the other one parks or abandons the only one: it is given the tile where that waits again, and
//! none where it is held.

use crate::books::Start;
use crate::cases::{By, Case, Left, is_so};
use crate::desks::{Way, Work};
use crate::waiter::End;
use lab_book::Status;

#[test]
fn a_parked_tile_is_leased_by_who_waits(rt: HostRuntime) {
    let case = Case(
        Start::New,
        By::Seats(Work::Wait(End::Park, true), Way::All, 4),
        Left::First(Status::Waiting),
    );
    assert!(rt; is_so(&rt, rt.alloc(), case));
}

#[test]
fn who_waits_is_told_that_the_only_tile_is_held(rt: HostRuntime) {
    let case = Case(
        Start::New,
        By::Seats(Work::Wait(End::Stop, false), Way::All, 4),
        Left::First(Status::Held),
    );
    assert!(rt; is_so(&rt, rt.alloc(), case));
}

#[test]
fn an_abandoned_tile_is_leased_by_who_waits(rt: HostRuntime) {
    let case = Case(
        Start::New,
        By::Seats(Work::Wait(End::Abandon, true), Way::All, 4),
        Left::First(Status::Waiting),
    );
    assert!(rt; is_so(&rt, rt.alloc(), case));
}
