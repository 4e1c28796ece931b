//! Two seats at a desk, whose calls are made by hand.

use crate::books::Start;
use crate::cases::{By, Case, Left, is_so};
use crate::desks::{Way, Work};

#[test]
fn two_seats_share_the_run(rt: HostRuntime) {
    let case = Case(
        Start::New,
        By::Seats(Work::Share, Way::All, 7),
        Left::Done(43),
    );
    assert!(rt; is_so(&rt, rt.alloc(), case));
}

#[test]
fn a_seat_is_missing(rt: HostRuntime) {
    let case = Case(
        Start::New,
        By::Seats(Work::Share, Way::OneShort, 7),
        Left::Done(43),
    );
    assert!(rt; is_so(&rt, rt.alloc(), case));
}

#[test]
fn a_missing_seat_changes_no_tile(rt: HostRuntime) {
    let case = Case(
        Start::HeldBefore,
        By::Seats(Work::Nothing, Way::OneShort, 5),
        Left::Tiles,
    );
    assert!(rt; is_so(&rt, rt.alloc(), case));
}

#[test]
fn seats_are_handed_in_in_any_order(rt: HostRuntime) {
    let case = Case(
        Start::New,
        By::Seats(Work::Share, Way::Turned, 7),
        Left::Done(43),
    );
    assert!(rt; is_so(&rt, rt.alloc(), case));
}

#[test]
fn notes_of_many_calls_are_the_history(rt: HostRuntime) {
    let case = Case(
        Start::New,
        By::Seats(Work::Ask, Way::Turned, 66_000),
        Left::Any,
    );
    assert!(rt; is_so(&rt, rt.alloc(), case));
}

#[test]
fn a_stopped_tile_is_held_and_taken(rt: HostRuntime) {
    let case = Case(
        Start::New,
        By::Seats(Work::Stop, Way::All, 9),
        Left::Done(43),
    );
    assert!(rt; is_so(&rt, rt.alloc(), case));
}

#[test]
fn a_desk_goes_on_with_a_book(rt: HostRuntime) {
    let case = Case(
        Start::Begun,
        By::Seats(Work::GoOn, Way::All, 6),
        Left::GoneOn,
    );
    assert!(rt; is_so(&rt, rt.alloc(), case));
}
