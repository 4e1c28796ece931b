//! Two workers on threads over books with a held tile, which they leave: their pool is refused with the number 3.

use crate::books::Start;
use crate::cases::{By, Case, Left, is_so};

#[test]
fn a_held_tile_is_left(rt: HostRuntime) {
    let case = Case(Start::HeldAlone, By::Workers(3), Left::Held(28));
    assert!(rt; is_so(&rt, rt.alloc(), case));
}

#[test]
fn a_tile_beside_a_held_one_is_closed(rt: HostRuntime) {
    let case = Case(Start::HeldBefore, By::Workers(3), Left::Held(28));
    assert!(rt; is_so(&rt, rt.alloc(), case));
}

#[test]
fn the_only_tile_is_held(rt: HostRuntime) {
    let case = Case(Start::Held, By::Workers(3), Left::Held(0));
    assert!(rt; is_so(&rt, rt.alloc(), case));
}
