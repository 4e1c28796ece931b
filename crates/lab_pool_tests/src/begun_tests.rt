//! Two workers on threads over books that were begun by others.

use crate::books::Start;
use crate::cases::{By, Case, Left, is_so};

#[test]
fn workers_search_the_rest_of_a_run(rt: HostRuntime) {
    let case = Case(Start::Rest, By::Workers(0), Left::Done(23));
    assert!(rt; is_so(&rt, rt.alloc(), case));
}

#[test]
fn workers_go_on_with_a_book(rt: HostRuntime) {
    let case = Case(Start::Begun, By::Workers(0), Left::GoneOn);
    assert!(rt; is_so(&rt, rt.alloc(), case));
}
