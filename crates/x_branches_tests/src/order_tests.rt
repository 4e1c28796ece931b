//! The order of a run's states.
use cover_problem::{PlainTable, Problem, Table, read_cover};
use drawn_problems::{SMALL, state_of};
use std::alloc::{AllocError, Global};
use std::cmp::Ordering;
use x_branches::run_order;
use x_steps::{Cursor, Label, Machine, State};

/// Takes every step, and notes each state.
fn note_states<T: Table>(
    machine: &mut Machine<T>,
    states: &mut Vec<State>,
) -> Result<(), AllocError> {
    for _ in 0..100_000 {
        states.push(machine.state().copy()?)?;
        if machine.step().is_err() {
            break;
        }
    }
    Ok(())
}

/// Notes the states of the run of a problem, in order.
fn note_run(alloc: Global, problem: &Problem, states: &mut Vec<State>) -> bool {
    let Ok(table) = PlainTable::new(alloc, problem) else {
        return false;
    };
    match Machine::new(alloc, problem, table) {
        Ok(mut machine) => note_states(&mut machine, states).is_ok(),
        Err(_) => false,
    }
}

/// How many states the run of the text's problem has, if they come in order.
pub fn ordered_states(alloc: Global, text: &str) -> Option<usize> {
    let Ok(problem) = read_cover(alloc, text.as_bytes()) else {
        return None;
    };
    let mut states = Vec::new(alloc);
    if !note_run(alloc, &problem, &mut states) || !are_in_order(&states) {
        return None;
    }
    Some(states.len())
}

/// Whether a state that stands there among the states comes before those after it, and after those before it.
fn stands_at(states: &[State], place: usize, state: &State) -> bool {
    for (other_place, other) in states.iter().enumerate() {
        if run_order(state, other) != place.cmp(&other_place) {
            return false;
        }
    }
    true
}

/// Whether each two states come in the order in which they stand.
fn are_in_order(states: &[State]) -> bool {
    for (place, state) in states.iter().enumerate() {
        if !stands_at(states, place, state) {
            return false;
        }
    }
    true
}

#[test]
fn states_come_in_the_order_of_the_run(rt: HostRuntime) {
    assert!(rt; ordered_states(rt.alloc(), SMALL) == Some(44));
}

/// A step after the option 4, at the option 5, and how it stands to what lies below that option.
static STEPS: [(Label, Ordering); 2] = [
    (Label::X5, Ordering::Less),
    (Label::X6, Ordering::Greater),
];

/// Whether the step at a label there stands so to a state below that option.
fn stands_so(alloc: Global, row: &(Label, Ordering)) -> bool {
    let Ok(state) = state_of(alloc, row.0, &[4], Cursor::At(5)) else {
        return false;
    };
    let Ok(below) = state_of(alloc, Label::X8, &[4, 5, 1], Cursor::None) else {
        return false;
    };
    run_order(&state, &below) == row.1
}

#[test]
fn a_step_comes_before_or_after_what_lies_below(rt: HostRuntime) {
    for row in &STEPS {
        assert!(rt; stands_so(rt.alloc(), row));
    }
}
